//! The tokens of macro calls, closure heads and other parts of expressions.

ghost use Rattle.std.specs.Prelude.{◌≡◌, [], ◌∷◌, ◌++◌, OnOk};
ghost use Rattle.em_tree.specs.Parts.{annotation_parts, closure_head_parts, closure_param_parts, delimited_parts, each, listed_parts, macro_call_parts, reference_parts, refs_parts};
ghost use Rattle.em_tree.specs.Yields.{one, inside, opened, opened_piece};

use crate::expr::{Annotation, ClosureHead, ClosureParam, MacroCall, Reference, Refs};
use crate::parts::Listed;
use crate::piece::Delimited;
use crate::put::{put, put_if, put_text};
use crate::put_pat::put_pat;
use crate::put_type::put_type;
use em_base::{List, NoMemory, Token};
use std::alloc::Global;

macro_rules! puts {
    ($alloc:ident, $out:ident: $($put:ident($part:expr)),+ $(,)?) => {{
        $($put($alloc, $out, $part)?;)+
        Ok(())
    }};
}

#[tactic(auto, using(crate::proofs::Join::put3))]
pub(crate) fn put_delimited(
    alloc: Global,
    out: &mut List<Token>,
    node: &Delimited,
) -> Result<(), NoMemory>
    ensures { OnOk result (out.new ≡ out.old ++ delimited_parts one inside opened node.now) }
{
    puts!(alloc, out: put(node.open.get()), put_text(node.text.as_slice()), put(node.close.get()))
}

#[tactic(auto, using(crate::proofs::Join::put3))]
pub(crate) fn put_macro_call(
    alloc: Global,
    out: &mut List<Token>,
    node: &MacroCall,
) -> Result<(), NoMemory>
    ensures { OnOk result (out.new ≡ out.old ++ macro_call_parts one inside opened node.now) }
{
    puts!(alloc, out: put(node.name.get()), put(node.bang.get()), put_delimited(&node.text))
}

#[tactic(auto, using(crate::proofs::Join::put2))]
pub(crate) fn put_reference(
    alloc: Global,
    out: &mut List<Token>,
    node: &Reference,
) -> Result<(), NoMemory>
    ensures { OnOk result (out.new ≡ out.old ++ reference_parts one inside opened node.now) }
{
    puts!(alloc, out: put(node.amp.get()), put(node.name.get()))
}

pub(crate) fn put_references(
    alloc: Global,
    out: &mut List<Token>,
    list: &[Listed<Reference>],
) -> Result<(), NoMemory>
    ensures { OnOk result (out.new ≡ out.old ++ each (listed_parts one inside opened (reference_parts one inside opened)) list.now) }
{
    for part in list {
        put_reference(alloc, out, &part.item)?;
        put_if(alloc, out, &part.comma)?;
    }
    Ok(())
}

#[tactic(auto, using(crate::proofs::Join::put3))]
pub(crate) fn put_refs(alloc: Global, out: &mut List<Token>, node: &Refs) -> Result<(), NoMemory>
    ensures { OnOk result (out.new ≡ out.old ++ refs_parts one inside opened node.now) }
{
    match node {
        Refs::One(part) => puts!(alloc, out: put_reference(part)),
        Refs::Many { open, list, close } =>
            puts!(alloc, out: put(open.get()), put_references(list.as_slice()), put(close.get())),
    }
}

#[tactic(auto, using(crate::proofs::Join::put0, crate::proofs::Join::put2))]
pub(crate) fn put_annotation(
    alloc: Global,
    out: &mut List<Token>,
    node: &Annotation,
) -> Result<(), NoMemory>
    ensures { OnOk result (out.new ≡ out.old ++ annotation_parts one inside opened node.now) }
{
    match node {
        Annotation::Nothing => Ok(()),
        Annotation::Type { colon, ty } => puts!(alloc, out: put(colon.get()), put_type(ty.get())),
    }
}

#[tactic(auto, using(crate::proofs::Join::put3))]
pub(crate) fn put_closure_param(
    alloc: Global,
    out: &mut List<Token>,
    node: &ClosureParam,
) -> Result<(), NoMemory>
    ensures { OnOk result (out.new ≡ out.old ++ closure_param_parts one inside opened node.now) }
{
    puts!(alloc, out: put_pat(&node.pat), put_annotation(&node.annotation), put_if(&node.comma))
}

pub(crate) fn put_closure_params(
    alloc: Global,
    out: &mut List<Token>,
    list: &[ClosureParam],
) -> Result<(), NoMemory>
    ensures { OnOk result (out.new ≡ out.old ++ each (closure_param_parts one inside opened) list.now) }
{
    for part in list {
        put_closure_param(alloc, out, part)?;
    }
    Ok(())
}

#[tactic(auto, using(crate::proofs::Join::put3))]
pub(crate) fn put_closure_head(
    alloc: Global,
    out: &mut List<Token>,
    node: &ClosureHead,
) -> Result<(), NoMemory>
    ensures { OnOk result (out.new ≡ out.old ++ closure_head_parts one inside opened node.now) }
{
    match node {
        ClosureHead::Empty(part) => puts!(alloc, out: put(part.get())),
        ClosureHead::Bars {
            open,
            params,
            close,
        } =>
            puts!(alloc, out: put(open.get()), put_closure_params(params.as_slice()), put(close.get())),
    }
}
