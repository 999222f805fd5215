//! The place of a tree's first piece.

ghost use Rattle.std.specs.Prelude.{◌≡◌, ◌++◌, List, Some};
ghost use Rattle.em_tree.specs.declared.piece.Piece.{Piece};
ghost use Rattle.em_tree.specs.Parts.{block_parts, body_parts, bound_parts, closure_head_parts, expr_parts, literal_parts, macro_call_parts, maybe, pat_parts, path_parts, qualified_parts, segment_parts, segments_parts, stmt_parts, type_tree_parts};
ghost use Rattle.em_tree.specs.Yields.{piece, whole, as_it_is, first_of};

use crate::expr::{Block, Body, ClosureHead, Expr, MacroCall, Stmt};
use crate::literal::Literal;
use crate::pat::Pat;
use crate::shared::Shared;
use crate::types::{Bound, Path, Qualified, Segment, Segments, TypeTree};
use em_base::{Span, Token};

/// The place of a token that may lack, or else of what stands after it.
fn first_or(token: &Option<Shared<Token>>, rest: Span) -> Span
    ensures { (ys : List Piece) → first_of ys ≡ Some rest → first_of (maybe piece token.now ++ ys) ≡ Some result }
{
    match token {
        Some(token) => token.get().span,
        None => rest,
    }
}

#[tactic(auto, using(crate::proofs::Edges::first_literal_token, crate::proofs::Edges::first_literal_negative, crate::proofs::Edges::first_literal_group))]
pub(crate) fn first_literal(tree: &Literal) -> Span
    ensures { first_of (literal_parts piece whole as_it_is tree.now) ≡ Some result }
{
    match tree {
        Literal::Token(part) => part.get().span,
        Literal::Negative { minus, .. } => minus.get().span,
        Literal::Group { group, .. } => group.outer,
    }
}

fn first_segment(tree: &Segment) -> Span
    ensures { first_of (segment_parts piece whole as_it_is tree.now) ≡ Some result }
{
    first_or(&tree.dollar, tree.name.get().span)
}

#[tactic(auto, using(crate::proofs::Edges::front))]
fn first_segments(tree: &Segments) -> Span
    ensures { first_of (segments_parts piece whole as_it_is tree.now) ≡ Some result }
{
    first_or(&tree.lead, first_segment(&tree.first))
}

#[tactic(auto, using(crate::proofs::Edges::first_qualified))]
fn first_qualified(tree: &Qualified) -> Span
    ensures { first_of (qualified_parts piece whole as_it_is tree.now) ≡ Some result }
{
    tree.open.get().span
}

#[tactic(auto, using(crate::proofs::Edges::first_path_plain, crate::proofs::Edges::first_path_qualified, crate::proofs::Edges::first_path_group))]
pub(crate) fn first_path(tree: &Path) -> Span
    ensures { first_of (path_parts piece whole as_it_is tree.now) ≡ Some result }
{
    match tree {
        Path::Plain(part) => first_segments(part),
        Path::Qualified(part) => first_qualified(part.get()),
        Path::Group { group, .. } => group.outer,
    }
}

#[tactic(auto, using(crate::proofs::Edges::first_bound_path, crate::proofs::Edges::first_bound_call))]
pub(crate) fn first_bound(tree: &Bound) -> Span
    ensures { first_of (bound_parts piece whole as_it_is tree.now) ≡ Some result }
{
    match tree {
        Bound::Path(part) => first_path(part),
        Bound::Call { path, .. } => first_path(path),
    }
}

#[tactic(auto, using(crate::proofs::Edges::first_type_tree_path, crate::proofs::Edges::first_type_tree_boxed, crate::proofs::Edges::first_type_tree_ref, crate::proofs::Edges::first_type_tree_ref_ref, crate::proofs::Edges::first_type_tree_array, crate::proofs::Edges::first_type_tree_slice, crate::proofs::Edges::first_type_tree_unit, crate::proofs::Edges::first_type_tree_dyn, crate::proofs::Edges::first_type_tree_bare, crate::proofs::Edges::first_type_tree_group))]
pub(crate) fn first_type(tree: &TypeTree) -> Span
    ensures { first_of (type_tree_parts piece whole as_it_is tree.now) ≡ Some result }
{
    match tree {
        TypeTree::Path(part) => first_path(part),
        TypeTree::Boxed { word, .. } => word.get().span,
        TypeTree::Ref { amp, .. } => amp.get().span,
        TypeTree::RefRef { amps, .. } => amps.get().span,
        TypeTree::Array { open, .. } => open.get().span,
        TypeTree::Slice { open, .. } => open.get().span,
        TypeTree::Unit { open, .. } => open.get().span,
        TypeTree::Dyn { word, .. } => word.get().span,
        TypeTree::Bare(part) => first_bound(part.get()),
        TypeTree::Group { group, .. } => group.outer,
    }
}

fn first_mut(word_mut: &Option<Shared<Token>>, name: &Token) -> Span
    ensures { first_of (maybe piece word_mut.now ++ piece name.now) ≡ Some result }
{
    first_or(word_mut, name.span)
}

fn first_name(
    word_ref: &Option<Shared<Token>>,
    word_mut: &Option<Shared<Token>>,
    name: &Token,
) -> Span
    ensures { first_of (maybe piece word_ref.now ++ (maybe piece word_mut.now ++ piece name.now)) ≡ Some result }
{
    first_or(word_ref, first_mut(word_mut, name))
}

#[tactic(auto, using(crate::proofs::Edges::first_pat_wild, crate::proofs::Edges::first_pat_name, crate::proofs::Edges::first_pat_literal, crate::proofs::Edges::first_pat_range, crate::proofs::Edges::first_pat_path, crate::proofs::Edges::first_pat_tuple, crate::proofs::Edges::first_pat_struct, crate::proofs::Edges::first_pat_group))]
pub(crate) fn first_pat(tree: &Pat) -> Span
    ensures { first_of (pat_parts piece whole as_it_is tree.now) ≡ Some result }
{
    match tree {
        Pat::Wild(part) => part.get().span,
        Pat::Name {
            word_ref,
            word_mut,
            name,
        } => first_name(word_ref, word_mut, name.get()),
        Pat::Literal(part) => first_literal(part),
        Pat::Range { start, .. } => first_literal(start),
        Pat::Path(part) => first_path(part),
        Pat::Tuple { path, .. } => first_path(path),
        Pat::Struct { path, .. } => first_path(path),
        Pat::Group { group, .. } => group.outer,
    }
}

pub(crate) fn first_macro_call(tree: &MacroCall) -> Span
    ensures { first_of (macro_call_parts piece whole as_it_is tree.now) ≡ Some result }
{
    tree.name.get().span
}

#[tactic(auto, using(crate::proofs::Edges::first_block))]
fn first_block(tree: &Block<Body>) -> Span
    ensures { first_of (block_parts piece whole as_it_is (body_parts piece whole as_it_is) tree.now) ≡ Some result }
{
    match tree.groups.as_slice() {
        [group, ..] => group.outer,
        [] => tree.open.get().span,
    }
}

fn first_closure_head(tree: &ClosureHead) -> Span
    ensures { first_of (closure_head_parts piece whole as_it_is tree.now) ≡ Some result }
{
    match tree {
        ClosureHead::Empty(bars) => bars.get().span,
        ClosureHead::Bars { open, .. } => open.get().span,
    }
}

/// The first piece of a closure, whatever its body is.
#[tactic(auto, using(crate::proofs::Edges::front))]
fn first_closure(word_move: &Option<Shared<Token>>, head: &ClosureHead) -> Span
    ensures { (ys : List Piece) → first_of (maybe piece word_move.now ++ (closure_head_parts piece whole as_it_is head.now ++ ys)) ≡ Some result }
{
    first_or(word_move, first_closure_head(head))
}

#[tactic(auto, using(crate::proofs::Edges::first_expr_literal, crate::proofs::Edges::first_expr_path, crate::proofs::Edges::first_expr_struct, crate::proofs::Edges::first_expr_paren, crate::proofs::Edges::first_expr_array, crate::proofs::Edges::first_expr_repeat, crate::proofs::Edges::first_expr_block, crate::proofs::Edges::first_expr_if, crate::proofs::Edges::first_expr_match, crate::proofs::Edges::first_expr_while, crate::proofs::Edges::first_expr_loop, crate::proofs::Edges::first_expr_for, crate::proofs::Edges::first_expr_closure, crate::proofs::Edges::first_expr_closure_to, crate::proofs::Edges::first_expr_macro, crate::proofs::Edges::first_expr_return, crate::proofs::Edges::first_expr_break, crate::proofs::Edges::first_expr_continue, crate::proofs::Edges::first_expr_method_call, crate::proofs::Edges::first_expr_call, crate::proofs::Edges::first_expr_field, crate::proofs::Edges::first_expr_place, crate::proofs::Edges::first_expr_index, crate::proofs::Edges::first_expr_unary, crate::proofs::Edges::first_expr_ref, crate::proofs::Edges::first_expr_ref_ref, crate::proofs::Edges::first_expr_binary, crate::proofs::Edges::first_expr_assign, crate::proofs::Edges::first_expr_group, crate::proofs::Edges::front))]
pub(crate) fn first_expr(tree: &Expr) -> Span
    ensures { first_of (expr_parts piece whole as_it_is tree.now) ≡ Some result }
{
    match tree {
        Expr::Literal(part) => part.get().span,
        Expr::Path(part) => first_path(part),
        Expr::Struct { path, .. } => first_path(path),
        Expr::Paren { open, .. } => open.get().span,
        Expr::Array { open, .. } => open.get().span,
        Expr::Repeat { open, .. } => open.get().span,
        Expr::Block(part) => first_block(part.get()),
        Expr::If { word, .. } => word.get().span,
        Expr::Match { word, .. } => word.get().span,
        Expr::While { word, .. } => word.get().span,
        Expr::Loop { word, .. } => word.get().span,
        Expr::For { word, .. } => word.get().span,
        Expr::Closure {
            word_move,
            head,
            ..
        } => first_closure(word_move, head),
        Expr::ClosureTo {
            word_move,
            head,
            ..
        } => first_closure(word_move, head),
        Expr::Macro(part) => first_macro_call(part),
        Expr::Return { word, .. } => word.get().span,
        Expr::Break(part) => part.get().span,
        Expr::Continue(part) => part.get().span,
        Expr::MethodCall { receiver, .. } => first_expr(receiver.get()),
        Expr::Call { callee, .. } => first_expr(callee.get()),
        Expr::Field { base, .. } => first_expr(base.get()),
        Expr::Place { base, .. } => first_expr(base.get()),
        Expr::Index { base, .. } => first_expr(base.get()),
        Expr::Unary { operator, .. } => operator.get().span,
        Expr::Ref { amp, .. } => amp.get().span,
        Expr::RefRef { amps, .. } => amps.get().span,
        Expr::Binary { left, .. } => first_expr(left.get()),
        Expr::Assign { left, .. } => first_expr(left.get()),
        Expr::Group { group, .. } => group.outer,
    }
}

#[tactic(auto, using(crate::proofs::Edges::first_stmt_mention, crate::proofs::Edges::first_stmt_let, crate::proofs::Edges::first_stmt_macro, crate::proofs::Edges::first_stmt_expr, crate::proofs::Edges::first_stmt_block_like, crate::proofs::Edges::first_stmt_group))]
pub(crate) fn first_stmt(tree: &Stmt) -> Span
    ensures { first_of (stmt_parts piece whole as_it_is tree.now) ≡ Some result }
{
    match tree {
        Stmt::Mention { word, .. } => word.get().span,
        Stmt::Let { word, .. } => word.get().span,
        Stmt::Macro { call, .. } => first_macro_call(call),
        Stmt::Expr { value, .. } => first_expr(value.get()),
        Stmt::BlockLike { value, .. } => first_expr(value.get()),
        Stmt::Group { group, .. } => group.outer,
    }
}
