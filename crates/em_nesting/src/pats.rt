ghost use Rattle.std.specs.Prelude.{◌≤◌, ◌<◌, MatchBool};
ghost use Rattle.em_tree.specs.Nesting.{greatest, pat_nesting, top_nesting};
ghost use Rattle.em_nesting.specs.Depths.{field_nesting};

use crate::list::each_within;
use crate::types::path_within;
use em_tree::{Alternative, FieldPat, Listed, Pat, TopPat};

/// Whether the pattern nests no deeper.
#[cycle(pats)]
#[tactic(auto, using(crate::proofs::PatDepths::wild_pat, crate::proofs::PatDepths::name_pat, crate::proofs::PatDepths::literal_pat, crate::proofs::PatDepths::range_pat, crate::proofs::PatDepths::path_pat, crate::proofs::PatDepths::tuple_pat, crate::proofs::PatDepths::struct_pat, crate::proofs::PatDepths::pat_group))]
pub fn pat_within(tree: &Pat, most: usize) -> bool
    ensures { MatchBool result (pat_nesting tree.now ≤ most) (most < pat_nesting tree.now) }
{
    match tree {
        Pat::Wild(_) | Pat::Name { .. } | Pat::Literal(_) | Pat::Range { .. } => most > 0,
        Pat::Path(path) => most > 0 && path_within(path, most - 1),
        Pat::Tuple { path, fields, .. } => {
            most > 0 && path_within(path, most - 1) && pats_within(fields.as_slice(), most - 1)
        }
        Pat::Struct { path, fields, .. } => {
            most > 0 && path_within(path, most - 1) && fields_within(fields.as_slice(), most - 1)
        }
        Pat::Group { inner, .. } => pat_within(inner.get(), most),
    }
}

#[cycle(pats)]
fn pats_within(list: &[Listed<Pat>], most: usize) -> bool
    ensures { MatchBool result (greatest (λ l. pat_nesting l.item) list.now ≤ most) (most < greatest (λ l. pat_nesting l.item) list.now) }
{
    for part in list {
        if !pat_within(&part.item, most) {
            return false;
        }
    }
    true
}

#[cycle(pats)]
fn fields_within(list: &[Listed<FieldPat<Pat>>], most: usize) -> bool
    ensures { MatchBool result (greatest (λ l. field_nesting l.item) list.now ≤ most) (most < greatest (λ l. field_nesting l.item) list.now) }
{
    for part in list {
        if let FieldPat::Full { pat, .. } = &part.item {
            if !pat_within(pat, most) {
                return false;
            }
        }
    }
    true
}

fn alternatives_within(list: &[Alternative], most: usize) -> bool
    ensures { MatchBool result (greatest (λ a. pat_nesting a.pat) list.now ≤ most) (most < greatest (λ a. pat_nesting a.pat) list.now) }
{
    each_within(list, most, |part| pat_within(&part.pat, most))
}

/// Whether the pattern with its alternatives nests no deeper.
#[tactic(auto, using(crate::proofs::PatDepths::alternatives, crate::proofs::PatDepths::top_group))]
pub fn top_pat_within(tree: &TopPat, most: usize) -> bool
    ensures { MatchBool result (top_nesting tree.now ≤ most) (most < top_nesting tree.now) }
{
    match tree {
        TopPat::Alternatives(list) => alternatives_within(list.as_slice(), most),
        TopPat::Group { inner, .. } => top_pat_within(inner.get(), most),
    }
}
