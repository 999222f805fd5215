//! Modules (Reference, "Modules").

ghost use Rattle.em_grammar.specs.ItemReader as spec;
ghost use Rattle.em_grammar.specs.Reader as read;
ghost use Rattle.em_read.specs.Parse.{Reads};
ghost use Rattle.em_read_items.specs.Items as part;

use crate::parts::Parts;
use em_base::Token;
use em_grammar::Written;
use em_read::{Cursor, Stop, Want, all_of, sign, stands, token};
use em_tree::{Item, ItemBody, Shared};
use sqlite_items::Items;
use std::alloc::Global;

fn items<P: Parts>(alloc: Global, parts: &P, input: &mut Cursor<'_>) -> Result<Items<Item>, Stop>
    requires { P.ready parts.now }
    ensures { Reads (read.all_of (P.inner parts.now).items input.old.rest.now) result input.new.rest.now }
{
    all_of(alloc, input, |input| parts.item(input))
}

/// Items in their braces.
fn mod_block<P: Parts>(
    alloc: Global,
    parts: &P,
    input: &mut Cursor<'_>,
) -> Result<(Shared<Token>, (Items<Item>, Shared<Token>)), Stop>
    requires { P.ready parts.now }
    ensures { Reads (part.mod_block (P.inner parts.now).items input.old.rest.now) result input.new.rest.now }
{
    let open = sign(alloc, input, Written::OpenBrace)?;
    let items = items(alloc, parts, input)?;
    let close = sign(alloc, input, Written::CloseBrace)?;
    Ok((open, (items, close)))
}

pub fn mod_item<P: Parts>(
    alloc: Global,
    parts: &P,
    input: &mut Cursor<'_>,
) -> Result<ItemBody<Item>, Stop>
    requires { P.ready parts.now }
    ensures { Reads (spec.mod_item (P.inner parts.now).items input.old.rest.now) result input.new.rest.now }
{
    let word = sign(alloc, input, Written::Mod)?;
    let name = token(alloc, input, Want::Name)?;
    if stands(input, Written::Semi) {
        let semi = sign(alloc, input, Written::Semi)?;
        return Ok(ItemBody::ModFile { word, name, semi });
    }
    let (open, (items, close)) = mod_block(alloc, parts, input)?;
    Ok(ItemBody::ModBlock {
        word,
        name,
        open,
        items,
        close,
    })
}
