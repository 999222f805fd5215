//! Traits (Reference, "Traits").

ghost use Rattle.em_grammar.specs.ItemReader as spec;
ghost use Rattle.em_read.specs.Parse.{Reads};

use crate::fn_item::trait_fns;
use crate::parts::Parts;
use em_grammar::Written;
use em_read::{Cursor, Stop, Want, sign, token};
use em_tree::{Item, ItemBody};
use std::alloc::Global;

pub fn trait_item<P: Parts>(
    alloc: Global,
    parts: &P,
    input: &mut Cursor<'_>,
) -> Result<ItemBody<Item>, Stop>
    requires { P.ready parts.now }
    ensures { Reads (spec.trait_item (P.inner parts.now) input.old.rest.now) result input.new.rest.now }
{
    let word = sign(alloc, input, Written::Trait)?;
    let name = token(alloc, input, Want::Name)?;
    let open = sign(alloc, input, Written::OpenBrace)?;
    let functions = trait_fns(alloc, parts, input)?;
    let close = sign(alloc, input, Written::CloseBrace)?;
    Ok(ItemBody::Trait {
        word,
        name,
        open,
        functions,
        close,
    })
}
