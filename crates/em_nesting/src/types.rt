ghost use Rattle.std.specs.Prelude.{◌≤◌, ◌<◌, MatchBool};
ghost use Rattle.em_tree.specs.Nesting.{bound_nesting, greatest, output_nesting, path_nesting, qualified_nesting, type_nesting};

use em_tree::{Bound, Listed, Output, Path, Qualified, TypeTree};

/// Whether the path nests no deeper.
#[cycle(types)]
#[tactic(auto, using(crate::proofs::TypeDepths::plain_path, crate::proofs::TypeDepths::qualified_path, crate::proofs::TypeDepths::path_group))]
pub fn path_within(tree: &Path, most: usize) -> bool
    ensures { MatchBool result (path_nesting tree.now ≤ most) (most < path_nesting tree.now) }
{
    match tree {
        Path::Plain(_) => true,
        Path::Qualified(qualified) => qualified_within(qualified.get(), most),
        Path::Group { inner, .. } => path_within(inner.get(), most),
    }
}

#[cycle(types)]
#[tactic(auto, using(crate::proofs::TypeDepths::qualified))]
fn qualified_within(tree: &Qualified, most: usize) -> bool
    ensures { MatchBool result (qualified_nesting tree.now ≤ most) (most < qualified_nesting tree.now) }
{
    type_within(&tree.self_type, most) && path_within(&tree.of_trait, most)
}

/// Whether the type of a result nests no deeper.
#[cycle(types)]
#[tactic(auto, using(crate::proofs::TypeDepths::no_output, crate::proofs::TypeDepths::typed_output))]
pub fn output_within(tree: &Output, most: usize) -> bool
    ensures { MatchBool result (output_nesting tree.now ≤ most) (most < output_nesting tree.now) }
{
    match tree {
        Output::Unit => true,
        Output::Type { ty, .. } => type_within(ty.get(), most),
    }
}

#[cycle(types)]
#[tactic(auto, using(crate::proofs::TypeDepths::path_bound, crate::proofs::TypeDepths::call_bound))]
fn bound_within(tree: &Bound, most: usize) -> bool
    ensures { MatchBool result (bound_nesting tree.now ≤ most) (most < bound_nesting tree.now) }
{
    match tree {
        Bound::Path(path) => path_within(path, most),
        Bound::Call {
            path,
            inputs,
            output,
            ..
        } => {
            path_within(path, most)
                && types_within(inputs.as_slice(), most)
                && output_within(output, most)
        }
    }
}

#[cycle(types)]
fn types_within(list: &[Listed<TypeTree>], most: usize) -> bool
    ensures { MatchBool result (greatest (λ l. type_nesting l.item) list.now ≤ most) (most < greatest (λ l. type_nesting l.item) list.now) }
{
    for part in list {
        if !type_within(&part.item, most) {
            return false;
        }
    }
    true
}

/// Whether the type nests no deeper.
#[cycle(types)]
#[tactic(auto, using(crate::proofs::TypeDepths::path_type, crate::proofs::TypeDepths::boxed_type, crate::proofs::TypeDepths::ref_type, crate::proofs::TypeDepths::ref_ref_type, crate::proofs::TypeDepths::array_type, crate::proofs::TypeDepths::slice_type, crate::proofs::TypeDepths::unit_type, crate::proofs::TypeDepths::dyn_type, crate::proofs::TypeDepths::bare_type, crate::proofs::TypeDepths::type_group))]
pub fn type_within(tree: &TypeTree, most: usize) -> bool
    ensures { MatchBool result (type_nesting tree.now ≤ most) (most < type_nesting tree.now) }
{
    match tree {
        TypeTree::Path(path) => most > 0 && path_within(path, most - 1),
        TypeTree::Boxed { inner, .. } | TypeTree::Ref { inner, .. } => {
            most > 0 && type_within(inner.get(), most - 1)
        }
        TypeTree::RefRef { inner, .. } => most > 1 && type_within(inner.get(), most - 2),
        TypeTree::Array { element, .. } | TypeTree::Slice { element, .. } => {
            most > 0 && type_within(element.get(), most - 1)
        }
        TypeTree::Unit { .. } => most > 0,
        TypeTree::Dyn { bound, .. } | TypeTree::Bare(bound) => {
            most > 0 && bound_within(bound.get(), most - 1)
        }
        TypeTree::Group { inner, .. } => type_within(inner.get(), most),
    }
}
