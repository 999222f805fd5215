//! The tokens of paths and types.

ghost use Rattle.std.specs.Prelude.{◌≡◌, [], ◌∷◌, ◌++◌, OnOk};
ghost use Rattle.em_tree.specs.Parts.{bound_parts, each, listed_parts, literal_parts, output_parts, path_parts, path_step_parts, qualified_parts, segment_parts, segments_parts, type_tree_parts};
ghost use Rattle.em_tree.specs.Yields.{one, inside, opened, opened_piece};

use crate::literal::Literal;
use crate::parts::Listed;
use crate::put::{put, put_if};
use crate::types::{Bound, Output, Path, PathStep, Qualified, Segment, Segments, TypeTree};
use em_base::{List, NoMemory, Token};
use std::alloc::Global;

macro_rules! puts {
    ($alloc:ident, $out:ident: $($put:ident($part:expr)),+ $(,)?) => {{
        $($put($alloc, $out, $part)?;)+
        Ok(())
    }};
}

#[cycle(literals)]
#[tactic(auto, using(crate::proofs::Puts::puts_literal_token, crate::proofs::Puts::puts_literal_negative, crate::proofs::Puts::puts_literal_group))]
pub(crate) fn put_literal(
    alloc: Global,
    out: &mut List<Token>,
    node: &Literal,
) -> Result<(), NoMemory>
    ensures { OnOk result (out.new ≡ out.old ++ literal_parts one inside opened node.now) }
{
    match node {
        Literal::Token(part) => puts!(alloc, out: put(part.get())),
        Literal::Negative { minus, value } =>
            puts!(alloc, out: put(minus.get()), put_literal(value.get())),
        Literal::Group { inner, .. } => puts!(alloc, out: put_literal(inner.get())),
    }
}

#[tactic(auto, using(crate::proofs::Join::put2))]
pub(crate) fn put_segment(
    alloc: Global,
    out: &mut List<Token>,
    node: &Segment,
) -> Result<(), NoMemory>
    ensures { OnOk result (out.new ≡ out.old ++ segment_parts one inside opened node.now) }
{
    puts!(alloc, out: put_if(&node.dollar), put(node.name.get()))
}

#[tactic(auto, using(crate::proofs::Join::put2))]
pub(crate) fn put_path_step(
    alloc: Global,
    out: &mut List<Token>,
    node: &PathStep,
) -> Result<(), NoMemory>
    ensures { OnOk result (out.new ≡ out.old ++ path_step_parts one inside opened node.now) }
{
    puts!(alloc, out: put(node.separator.get()), put_segment(&node.segment))
}

pub(crate) fn put_steps(
    alloc: Global,
    out: &mut List<Token>,
    list: &[PathStep],
) -> Result<(), NoMemory>
    ensures { OnOk result (out.new ≡ out.old ++ each (path_step_parts one inside opened) list.now) }
{
    for part in list {
        put_path_step(alloc, out, part)?;
    }
    Ok(())
}

#[tactic(auto, using(crate::proofs::Join::put3))]
pub(crate) fn put_segments(
    alloc: Global,
    out: &mut List<Token>,
    node: &Segments,
) -> Result<(), NoMemory>
    ensures { OnOk result (out.new ≡ out.old ++ segments_parts one inside opened node.now) }
{
    puts!(alloc, out: put_if(&node.lead), put_segment(&node.first), put_steps(node.more.as_slice()))
}

#[cycle(types)]
#[tactic(auto, using(crate::proofs::Puts::puts_path_plain, crate::proofs::Puts::puts_path_qualified, crate::proofs::Puts::puts_path_group))]
pub(crate) fn put_path(alloc: Global, out: &mut List<Token>, node: &Path) -> Result<(), NoMemory>
    ensures { OnOk result (out.new ≡ out.old ++ path_parts one inside opened node.now) }
{
    match node {
        Path::Plain(part) => puts!(alloc, out: put_segments(part)),
        Path::Qualified(part) => puts!(alloc, out: put_qualified(part.get())),
        Path::Group { inner, .. } => puts!(alloc, out: put_path(inner.get())),
    }
}

#[cycle(types)]
#[tactic(auto, using(crate::proofs::Puts::puts_qualified))]
pub(crate) fn put_qualified(
    alloc: Global,
    out: &mut List<Token>,
    node: &Qualified,
) -> Result<(), NoMemory>
    ensures { OnOk result (out.new ≡ out.old ++ qualified_parts one inside opened node.now) }
{
    puts!(alloc, out: put(node.open.get()), put_type(&node.self_type), put(node.word.get()), put_path(&node.of_trait), put(node.close.get()), put(node.separator.get()), put(node.name.get()))
}

#[cycle(types)]
#[tactic(auto, using(crate::proofs::Puts::puts_type_tree_path, crate::proofs::Puts::puts_type_tree_boxed, crate::proofs::Puts::puts_type_tree_ref, crate::proofs::Puts::puts_type_tree_ref_ref, crate::proofs::Puts::puts_type_tree_array, crate::proofs::Puts::puts_type_tree_slice, crate::proofs::Puts::puts_type_tree_unit, crate::proofs::Puts::puts_type_tree_dyn, crate::proofs::Puts::puts_type_tree_bare, crate::proofs::Puts::puts_type_tree_group))]
pub(crate) fn put_type(
    alloc: Global,
    out: &mut List<Token>,
    node: &TypeTree,
) -> Result<(), NoMemory>
    ensures { OnOk result (out.new ≡ out.old ++ type_tree_parts one inside opened node.now) }
{
    match node {
        TypeTree::Path(part) => puts!(alloc, out: put_path(part)),
        TypeTree::Boxed {
            word,
            open,
            inner,
            close,
        } =>
            puts!(alloc, out: put(word.get()), put(open.get()), put_type(inner.get()), put_if(close)),
        TypeTree::Ref {
            amp,
            word_mut,
            inner,
        } => puts!(alloc, out: put(amp.get()), put_if(word_mut), put_type(inner.get())),
        TypeTree::RefRef {
            amps,
            word_mut,
            inner,
        } => puts!(alloc, out: put(amps.get()), put_if(word_mut), put_type(inner.get())),
        TypeTree::Array {
            open,
            element,
            semi,
            length,
            close,
        } =>
            puts!(alloc, out: put(open.get()), put_type(element.get()), put(semi.get()), put_literal(length), put(close.get())),
        TypeTree::Slice {
            open,
            element,
            close,
        } => puts!(alloc, out: put(open.get()), put_type(element.get()), put(close.get())),
        TypeTree::Unit { open, close } => puts!(alloc, out: put(open.get()), put(close.get())),
        TypeTree::Dyn { word, bound } => puts!(alloc, out: put(word.get()), put_bound(bound.get())),
        TypeTree::Bare(part) => puts!(alloc, out: put_bound(part.get())),
        TypeTree::Group { inner, .. } => puts!(alloc, out: put_type(inner.get())),
    }
}

#[cycle(types)]
#[tactic(auto, using(crate::proofs::Puts::puts_output_unit, crate::proofs::Puts::puts_output_type))]
pub(crate) fn put_output(
    alloc: Global,
    out: &mut List<Token>,
    node: &Output,
) -> Result<(), NoMemory>
    ensures { OnOk result (out.new ≡ out.old ++ output_parts one inside opened node.now) }
{
    match node {
        Output::Unit => Ok(()),
        Output::Type { arrow, ty } => puts!(alloc, out: put(arrow.get()), put_type(ty.get())),
    }
}

#[cycle(types)]
#[tactic(auto, using(crate::proofs::Puts::puts_bound_path, crate::proofs::Puts::puts_bound_call))]
pub(crate) fn put_bound(alloc: Global, out: &mut List<Token>, node: &Bound) -> Result<(), NoMemory>
    ensures { OnOk result (out.new ≡ out.old ++ bound_parts one inside opened node.now) }
{
    match node {
        Bound::Path(part) => puts!(alloc, out: put_path(part)),
        Bound::Call {
            path,
            open,
            inputs,
            close,
            output,
        } =>
            puts!(alloc, out: put_path(path), put(open.get()), put_types(inputs.as_slice()), put(close.get()), put_output(output)),
    }
}

#[cycle(types)]
pub(crate) fn put_types(
    alloc: Global,
    out: &mut List<Token>,
    list: &[Listed<TypeTree>],
) -> Result<(), NoMemory>
    ensures { OnOk result (out.new ≡ out.old ++ each (listed_parts one inside opened (type_tree_parts one inside opened)) list.now) }
{
    for part in list {
        put_type(alloc, out, &part.item)?;
        put_if(alloc, out, &part.comma)?;
    }
    Ok(())
}
