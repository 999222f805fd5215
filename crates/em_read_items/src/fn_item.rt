//! Functions with their bodies (Reference, "Functions" and "Associated functions and methods").

ghost use Rattle.em_grammar.specs.ItemReader as spec;
ghost use Rattle.em_grammar.specs.Reader as read;
ghost use Rattle.em_read.specs.Parse.{Reads};

use crate::parts::Parts;
use crate::sig::sig;
use crate::vis::vis_if;
use em_grammar::Written;
use em_read::{Cursor, Stop, all_of, sign, stands};
use em_tree::{Block, Body, ImplFn, Item, ItemBody, Sig, TraitBody, TraitFn};
use sqlite_items::{Boxed, Items};
use std::alloc::Global;

/// The head of a function, for a tree to keep.
fn head<P: Parts>(
    alloc: Global,
    parts: &P,
    input: &mut Cursor<'_>,
    in_trait: bool,
) -> Result<Boxed<Sig>, Stop>
    requires { P.ready parts.now }
    ensures { Reads (spec.sig (P.inner parts.now).types (P.inner parts.now).pats in_trait input.old.rest.now) result input.new.rest.now }
{
    let sig = sig(alloc, parts, input, in_trait)?;
    Ok(Boxed::new(alloc, sig)?)
}

/// A body, for a tree to keep.
fn body<P: Parts>(
    alloc: Global,
    parts: &P,
    input: &mut Cursor<'_>,
) -> Result<Boxed<Block<Body>>, Stop>
    requires { P.ready parts.now }
    ensures { Reads ((P.inner parts.now).blocks input.old.rest.now) result input.new.rest.now }
{
    let body = parts.block(input)?;
    Ok(Boxed::new(alloc, body)?)
}

pub fn fn_item<P: Parts>(
    alloc: Global,
    parts: &P,
    input: &mut Cursor<'_>,
) -> Result<ItemBody<Item>, Stop>
    requires { P.ready parts.now }
    ensures { Reads (spec.fn_item (P.inner parts.now) input.old.rest.now) result input.new.rest.now }
{
    let sig = head(alloc, parts, input, false)?;
    let body = body(alloc, parts, input)?;
    Ok(ItemBody::Fn { sig, body })
}

/// What follows the head of a trait's function.
fn trait_end<P: Parts>(alloc: Global, parts: &P, input: &mut Cursor<'_>) -> Result<TraitBody, Stop>
    requires { P.ready parts.now }
    ensures { Reads (spec.trait_end (P.inner parts.now) input.old.rest.now) result input.new.rest.now }
{
    if stands(input, Written::Semi) {
        let semi = sign(alloc, input, Written::Semi)?;
        return Ok(TraitBody::Semi(semi));
    }
    let body = body(alloc, parts, input)?;
    Ok(TraitBody::Block(body))
}

fn trait_fn<P: Parts>(alloc: Global, parts: &P, input: &mut Cursor<'_>) -> Result<TraitFn, Stop>
    requires { P.ready parts.now }
    ensures { Reads (spec.trait_fn (P.inner parts.now) input.old.rest.now) result input.new.rest.now }
{
    let sig = head(alloc, parts, input, true)?;
    let body = trait_end(alloc, parts, input)?;
    Ok(TraitFn { sig, body })
}

/// The functions of a trait.
pub fn trait_fns<P: Parts>(
    alloc: Global,
    parts: &P,
    input: &mut Cursor<'_>,
) -> Result<Items<TraitFn>, Stop>
    requires { P.ready parts.now }
    ensures { Reads (read.all_of (spec.trait_fn (P.inner parts.now)) input.old.rest.now) result input.new.rest.now }
{
    all_of(alloc, input, |input| trait_fn(alloc, parts, input))
}

fn impl_fn<P: Parts>(alloc: Global, parts: &P, input: &mut Cursor<'_>) -> Result<ImplFn, Stop>
    requires { P.ready parts.now }
    ensures { Reads (spec.impl_fn (P.inner parts.now) input.old.rest.now) result input.new.rest.now }
{
    let vis = vis_if(alloc, input)?;
    let sig = head(alloc, parts, input, false)?;
    let body = body(alloc, parts, input)?;
    Ok(ImplFn { vis, sig, body })
}

/// The functions of an impl.
pub fn impl_fns<P: Parts>(
    alloc: Global,
    parts: &P,
    input: &mut Cursor<'_>,
) -> Result<Items<ImplFn>, Stop>
    requires { P.ready parts.now }
    ensures { Reads (read.all_of (spec.impl_fn (P.inner parts.now)) input.old.rest.now) result input.new.rest.now }
{
    all_of(alloc, input, |input| impl_fn(alloc, parts, input))
}
