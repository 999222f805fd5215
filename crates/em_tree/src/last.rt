//! The place of a tree's last piece.

ghost use Rattle.std.specs.Prelude.{◌≡◌, ◌++◌, List, Some};
ghost use Rattle.em_tree.specs.declared.piece.Piece.{Piece};
ghost use Rattle.em_tree.specs.Parts.{block_parts, body_parts, bound_parts, each, else_if_parts, expr_parts, literal_parts, macro_call_parts, maybe, output_parts, pat_parts, path_parts, qualified_parts, reference_parts, refs_parts, segment_parts, segments_parts, stmt_parts, type_tree_parts};
ghost use Rattle.em_tree.specs.Yields.{piece, whole, as_it_is, last_of};

use crate::expr::{Block, Body, ElseIf, Expr, MacroCall, Reference, Refs, Stmt};
use crate::literal::Literal;
use crate::pat::Pat;
use crate::shared::Shared;
use crate::types::{Bound, Output, Path, Qualified, Segment, Segments, TypeTree};
use em_base::{Span, Token};
use sqlite_items::Boxed;

/// The place of a token that may lack, or else of what stands before it.
#[tactic(auto, using(crate::proofs::Ends::last_or_none, crate::proofs::Ends::last_or_some))]
pub(crate) fn last_or(token: &Option<Shared<Token>>, before: Span) -> Span
    ensures { (xs : List Piece) → last_of xs ≡ Some before → last_of (xs ++ maybe piece token.now) ≡ Some result }
{
    match token {
        Some(token) => token.get().span,
        None => before,
    }
}

#[cycle(literals)]
#[tactic(auto, using(crate::proofs::Edges::last_literal_token, crate::proofs::Edges::last_literal_negative, crate::proofs::Edges::last_literal_group))]
pub(crate) fn last_literal(tree: &Literal) -> Span
    ensures { last_of (literal_parts piece whole as_it_is tree.now) ≡ Some result }
{
    match tree {
        Literal::Token(part) => part.get().span,
        Literal::Negative { value, .. } => last_literal(value.get()),
        Literal::Group { group, .. } => group.outer,
    }
}

#[tactic(auto, using(crate::proofs::Edges::back))]
fn last_segment(tree: &Segment) -> Span
    ensures { last_of (segment_parts piece whole as_it_is tree.now) ≡ Some result }
{
    tree.name.get().span
}

#[tactic(auto, using(crate::proofs::Ends::last_segments_first, crate::proofs::Ends::last_segments_more))]
fn last_segments(tree: &Segments) -> Span
    ensures { last_of (segments_parts piece whole as_it_is tree.now) ≡ Some result }
{
    match tree.more.as_slice().last() {
        Some(step) => last_segment(&step.segment),
        None => last_segment(&tree.first),
    }
}

#[tactic(auto, using(crate::proofs::Edges::last_qualified))]
fn last_qualified(tree: &Qualified) -> Span
    ensures { last_of (qualified_parts piece whole as_it_is tree.now) ≡ Some result }
{
    tree.name.get().span
}

#[tactic(auto, using(crate::proofs::Edges::last_path_plain, crate::proofs::Edges::last_path_qualified, crate::proofs::Edges::last_path_group))]
pub(crate) fn last_path(tree: &Path) -> Span
    ensures { last_of (path_parts piece whole as_it_is tree.now) ≡ Some result }
{
    match tree {
        Path::Plain(part) => last_segments(part),
        Path::Qualified(part) => last_qualified(part.get()),
        Path::Group { group, .. } => group.outer,
    }
}

#[cycle(types)]
#[tactic(auto, using(crate::proofs::Ends::last_output_unit, crate::proofs::Ends::last_output_type))]
fn last_output(tree: &Output, before: Span) -> Span
    ensures { (xs : List Piece) → last_of xs ≡ Some before → last_of (xs ++ output_parts piece whole as_it_is tree.now) ≡ Some result }
{
    match tree {
        Output::Unit => before,
        Output::Type { ty, .. } => last_type(ty.get()),
    }
}

#[cycle(types)]
#[tactic(auto, using(crate::proofs::Edges::last_bound_path, crate::proofs::Edges::last_bound_call))]
pub(crate) fn last_bound(tree: &Bound) -> Span
    ensures { last_of (bound_parts piece whole as_it_is tree.now) ≡ Some result }
{
    match tree {
        Bound::Path(part) => last_path(part),
        Bound::Call { close, output, .. } => last_output(output, close.get().span),
    }
}

#[cycle(types)]
#[tactic(auto, using(crate::proofs::Edges::last_type_tree_path, crate::proofs::Edges::last_type_tree_boxed, crate::proofs::Edges::last_type_tree_ref, crate::proofs::Edges::last_type_tree_ref_ref, crate::proofs::Edges::last_type_tree_array, crate::proofs::Edges::last_type_tree_slice, crate::proofs::Edges::last_type_tree_unit, crate::proofs::Edges::last_type_tree_dyn, crate::proofs::Edges::last_type_tree_bare, crate::proofs::Edges::last_type_tree_group))]
pub(crate) fn last_type(tree: &TypeTree) -> Span
    ensures { last_of (type_tree_parts piece whole as_it_is tree.now) ≡ Some result }
{
    match tree {
        TypeTree::Path(part) => last_path(part),
        TypeTree::Boxed { inner, close, .. } => last_or(close, last_type(inner.get())),
        TypeTree::Ref { inner, .. } => last_type(inner.get()),
        TypeTree::RefRef { inner, .. } => last_type(inner.get()),
        TypeTree::Array { close, .. } => close.get().span,
        TypeTree::Slice { close, .. } => close.get().span,
        TypeTree::Unit { close, .. } => close.get().span,
        TypeTree::Dyn { bound, .. } => last_bound(bound.get()),
        TypeTree::Bare(part) => last_bound(part.get()),
        TypeTree::Group { group, .. } => group.outer,
    }
}

#[tactic(auto, using(crate::proofs::Edges::last_pat_wild, crate::proofs::Edges::last_pat_name, crate::proofs::Edges::last_pat_literal, crate::proofs::Edges::last_pat_range, crate::proofs::Edges::last_pat_path, crate::proofs::Edges::last_pat_tuple, crate::proofs::Edges::last_pat_struct, crate::proofs::Edges::last_pat_group))]
pub(crate) fn last_pat(tree: &Pat) -> Span
    ensures { last_of (pat_parts piece whole as_it_is tree.now) ≡ Some result }
{
    match tree {
        Pat::Wild(part) => part.get().span,
        Pat::Name { name, .. } => name.get().span,
        Pat::Literal(part) => last_literal(part),
        Pat::Range { end, .. } => last_literal(end),
        Pat::Path(part) => last_path(part),
        Pat::Tuple { close, .. } => close.get().span,
        Pat::Struct { close, .. } => close.get().span,
        Pat::Group { group, .. } => group.outer,
    }
}

#[tactic(auto, using(crate::proofs::Ends::last_macro_call))]
pub(crate) fn last_macro_call(tree: &MacroCall) -> Span
    ensures { last_of (macro_call_parts piece whole as_it_is tree.now) ≡ Some result }
{
    tree.text.close.get().span
}

#[tactic(auto, using(crate::proofs::Ends::last_block_group, crate::proofs::Ends::last_block_close))]
pub(crate) fn last_block(tree: &Block<Body>) -> Span
    ensures { last_of (block_parts piece whole as_it_is (body_parts piece whole as_it_is) tree.now) ≡ Some result }
{
    match tree.groups.as_slice() {
        [group, ..] => group.outer,
        [] => tree.close.get().span,
    }
}

#[tactic(auto, using(crate::proofs::Ends::last_branch_then, crate::proofs::Ends::last_branch_more))]
fn last_branch(then: &Block<Body>, branches: &[ElseIf]) -> Span
    ensures { last_of (block_parts piece whole as_it_is (body_parts piece whole as_it_is) then.now ++ each (else_if_parts piece whole as_it_is) branches.now) ≡ Some result }
{
    match branches.last() {
        Some(branch) => last_block(branch.then.get()),
        None => last_block(then),
    }
}

/// The last piece of an `if` behind its condition.
#[tactic(auto, using(crate::proofs::Ends::last_if_else, crate::proofs::Ends::last_if_none))]
fn last_if(
    then: &Block<Body>,
    branches: &[ElseIf],
    word_else: &Option<Shared<Token>>,
    otherwise: &Option<Boxed<Block<Body>>>,
) -> Span
    ensures { last_of (block_parts piece whole as_it_is (body_parts piece whole as_it_is) then.now ++ (each (else_if_parts piece whole as_it_is) branches.now ++ (maybe piece word_else.now ++ maybe (block_parts piece whole as_it_is (body_parts piece whole as_it_is)) otherwise.now))) ≡ Some result }
{
    match otherwise {
        Some(block) => last_block(block.get()),
        None => last_or(word_else, last_branch(then, branches)),
    }
}

#[cycle(exprs)]
#[tactic(auto, using(crate::proofs::Edges::last_expr_literal, crate::proofs::Edges::last_expr_path, crate::proofs::Edges::last_expr_struct, crate::proofs::Edges::last_expr_paren, crate::proofs::Edges::last_expr_array, crate::proofs::Edges::last_expr_repeat, crate::proofs::Edges::last_expr_block, crate::proofs::Edges::last_expr_match, crate::proofs::Edges::last_expr_while, crate::proofs::Edges::last_expr_loop, crate::proofs::Edges::last_expr_for, crate::proofs::Edges::last_expr_closure, crate::proofs::Edges::last_expr_closure_to, crate::proofs::Edges::last_expr_macro, crate::proofs::Edges::last_expr_return, crate::proofs::Edges::last_expr_break, crate::proofs::Edges::last_expr_continue, crate::proofs::Edges::last_expr_method_call, crate::proofs::Edges::last_expr_call, crate::proofs::Edges::last_expr_field, crate::proofs::Edges::last_expr_place, crate::proofs::Edges::last_expr_index, crate::proofs::Edges::last_expr_unary, crate::proofs::Edges::last_expr_ref, crate::proofs::Edges::last_expr_ref_ref, crate::proofs::Edges::last_expr_binary, crate::proofs::Edges::last_expr_assign, crate::proofs::Edges::last_expr_group, crate::proofs::Ends::last_expr_if))]
pub(crate) fn last_expr(tree: &Expr) -> Span
    ensures { last_of (expr_parts piece whole as_it_is tree.now) ≡ Some result }
{
    match tree {
        Expr::Literal(part) => part.get().span,
        Expr::Path(part) => last_path(part),
        Expr::Struct { close, .. } => close.get().span,
        Expr::Paren { close, .. } => close.get().span,
        Expr::Array { close, .. } => close.get().span,
        Expr::Repeat { close, .. } => close.get().span,
        Expr::Block(part) => last_block(part.get()),
        Expr::If {
            then,
            branches,
            word_else,
            otherwise,
            ..
        } => last_if(then.get(), branches.as_slice(), word_else, otherwise),
        Expr::Match { close, .. } => close.get().span,
        Expr::While { body, .. } => last_block(body.get()),
        Expr::Loop { body, .. } => last_block(body.get()),
        Expr::For { body, .. } => last_block(body.get()),
        Expr::Closure { body, .. } => last_expr(body.get()),
        Expr::ClosureTo { body, .. } => last_block(body.get()),
        Expr::Macro(part) => last_macro_call(part),
        Expr::Return { word, value } => last_return(word.get(), value),
        Expr::Break(part) => part.get().span,
        Expr::Continue(part) => part.get().span,
        Expr::MethodCall { close, .. } => close.get().span,
        Expr::Call { close, .. } => close.get().span,
        Expr::Field { name, .. } => name.get().span,
        Expr::Place { number, .. } => last_literal(number),
        Expr::Index { close, .. } => close.get().span,
        Expr::Unary { operand, .. } => last_expr(operand.get()),
        Expr::Ref { operand, .. } => last_expr(operand.get()),
        Expr::RefRef { operand, .. } => last_expr(operand.get()),
        Expr::Binary { right, .. } => last_expr(right.get()),
        Expr::Assign { right, .. } => last_expr(right.get()),
        Expr::Group { group, .. } => group.outer,
    }
}

#[cycle(exprs)]
#[tactic(auto, using(crate::proofs::Edges::back))]
fn last_return(word: &Token, value: &Option<Boxed<Expr>>) -> Span
    ensures { last_of (piece word.now ++ maybe (expr_parts piece whole as_it_is) value.now) ≡ Some result }
{
    match value {
        Some(value) => last_expr(value.get()),
        None => word.span,
    }
}

fn last_reference(tree: &Reference) -> Span
    ensures { last_of (reference_parts piece whole as_it_is tree.now) ≡ Some result }
{
    tree.name.get().span
}

#[tactic(auto, using(crate::proofs::Ends::last_refs_many))]
fn last_refs(tree: &Refs) -> Span
    ensures { last_of (refs_parts piece whole as_it_is tree.now) ≡ Some result }
{
    match tree {
        Refs::One(part) => last_reference(part),
        Refs::Many { close, .. } => close.get().span,
    }
}

#[tactic(auto, using(crate::proofs::Edges::last_stmt_mention, crate::proofs::Edges::last_stmt_let, crate::proofs::Edges::last_stmt_macro, crate::proofs::Edges::last_stmt_expr, crate::proofs::Edges::last_stmt_block_like, crate::proofs::Edges::last_stmt_group))]
pub(crate) fn last_stmt(tree: &Stmt) -> Span
    ensures { last_of (stmt_parts piece whole as_it_is tree.now) ≡ Some result }
{
    match tree {
        Stmt::Mention { refs, semi, .. } => last_or(semi, last_refs(refs)),
        Stmt::Let { value, semi, .. } => last_or(semi, last_expr(value.get())),
        Stmt::Macro { call, semi } => last_or(semi, last_macro_call(call)),
        Stmt::Expr { value, semi } => last_or(semi, last_expr(value.get())),
        Stmt::BlockLike { value, semi } => last_or(semi, last_expr(value.get())),
        Stmt::Group { group, semi, .. } => last_or(semi, group.outer),
    }
}
