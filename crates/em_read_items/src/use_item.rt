//! Imports (Reference, "Use declarations").

ghost use Rattle.em_grammar.specs.ItemReader as spec;
ghost use Rattle.em_read.specs.Parse.{Reads};
ghost use Rattle.em_read_items.specs.Items as part;

use crate::import::{path_ends, rename_if, use_names};
use em_base::Token;
use em_grammar::Written;
use em_read::{Cursor, Stop, segments, sign};
use em_tree::{Item, ItemBody, Listed, Shared, UseName};
use sqlite_items::Items;
use std::alloc::Global;

/// The names of an import in their braces, and the `;`.
type Names = (
    Shared<Token>,
    (Items<Listed<UseName>>, (Shared<Token>, Shared<Token>)),
);

fn names(alloc: Global, input: &mut Cursor<'_>) -> Result<Names, Stop>
    ensures { Reads (part.names input.old.rest.now) result input.new.rest.now }
{
    let open = sign(alloc, input, Written::OpenBrace)?;
    let names = use_names(alloc, input)?;
    let close = sign(alloc, input, Written::CloseBrace)?;
    let semi = sign(alloc, input, Written::Semi)?;
    Ok((open, (names, (close, semi))))
}

pub fn use_item(alloc: Global, input: &mut Cursor<'_>) -> Result<ItemBody<Item>, Stop>
    ensures { Reads (spec.use_item input.old.rest.now) result input.new.rest.now }
{
    let word = sign(alloc, input, Written::Use)?;
    let path = segments(alloc, input)?;
    if path_ends(input) {
        let rename = rename_if(alloc, input)?;
        let semi = sign(alloc, input, Written::Semi)?;
        return Ok(ItemBody::Use {
            word,
            path,
            rename,
            semi,
        });
    }
    let separator = sign(alloc, input, Written::PathSep)?;
    let (open, (names, (close, semi))) = names(alloc, input)?;
    Ok(ItemBody::UseList {
        word,
        path,
        separator,
        open,
        names,
        close,
        semi,
    })
}
