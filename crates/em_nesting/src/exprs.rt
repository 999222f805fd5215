ghost use Rattle.std.specs.Prelude.{◌≡◌, ◌≤◌, ◌<◌, MatchBool};
ghost use Rattle.em_tree.specs.declared.expr.Expr.{out-Expr};
ghost use Rattle.em_tree.specs.Nesting.{annotation_nesting, arm_depth, block_nesting, body_nesting, branch_nesting, condition_depth, expr_nesting, greatest, head_nesting, of_some, stmt_nesting};
ghost use Rattle.em_nesting.specs.Depths as spec;

use crate::list::each_within;
use crate::pats::{pat_within, top_pat_within};
use crate::types::{path_within, type_within};
use em_tree::{
    Annotation, Arm, Block, Body, ClosureHead, ClosureParam, Condition, ElseIf, Expr, FieldExpr,
    Listed, Stmt,
};
use sqlite_items::Boxed;

fn annotation_within(tree: &Annotation, most: usize) -> bool
    ensures { MatchBool result (annotation_nesting tree.now ≤ most) (most < annotation_nesting tree.now) }
{
    match tree {
        Annotation::Nothing => true,
        Annotation::Type { ty, .. } => type_within(ty.get(), most),
    }
}

fn closure_param_within(tree: &ClosureParam, most: usize) -> bool
    ensures { MatchBool result (spec.closure_param_nesting tree.now ≤ most) (most < spec.closure_param_nesting tree.now) }
{
    pat_within(&tree.pat, most) && annotation_within(&tree.annotation, most)
}

fn head_within(tree: &ClosureHead, most: usize) -> bool
    ensures { MatchBool result (head_nesting tree.now ≤ most) (most < head_nesting tree.now) }
{
    match tree {
        ClosureHead::Empty(_) => true,
        ClosureHead::Bars { params, .. } => {
            each_within(
                params.as_slice(),
                most,
                |part| closure_param_within(part, most),
            )
        }
    }
}

/// How many levels the expression adds.
fn own_depth(tree: &Expr) -> usize
    ensures { result ≡ spec.own_depth (out-Expr tree.now) }
{
    match tree {
        Expr::RefRef { .. } => 2,
        Expr::Group { .. } => 0,
        _ => 1,
    }
}

/// Whether the expression nests no deeper.
#[cycle(exprs)]
#[tactic(auto, using(crate::proofs::ExprDepths::by_parts))]
pub fn expr_within(tree: &Expr, most: usize) -> bool
    ensures { MatchBool result (expr_nesting tree.now ≤ most) (most < expr_nesting tree.now) }
{
    let own = own_depth(tree);
    own <= most && operands_within(tree, most - own) && blocks_within(tree, most - own)
}

/// Whether what an expression without blocks has inside nests no deeper.
#[cycle(exprs)]
fn operands_within(tree: &Expr, most: usize) -> bool
    ensures { MatchBool result (spec.operands_depth (out-Expr tree.now) ≤ most) (most < spec.operands_depth (out-Expr tree.now)) }
{
    match tree {
        Expr::Path(path) => path_within(path, most),
        Expr::Struct { path, fields, .. } => {
            path_within(path, most) && fields_within(fields.as_slice(), most)
        }
        Expr::Paren { inner: part, .. }
        | Expr::Repeat { element: part, .. }
        | Expr::Field { base: part, .. }
        | Expr::Place { base: part, .. }
        | Expr::Unary { operand: part, .. }
        | Expr::Ref { operand: part, .. }
        | Expr::RefRef { operand: part, .. }
        | Expr::Group { inner: part, .. } => expr_within(part.get(), most),
        Expr::Array { elements, .. } => exprs_within(elements.as_slice(), most),
        Expr::Return { value, .. } => some_within(value, most),
        Expr::MethodCall {
            receiver: callee,
            arguments,
            ..
        }
        | Expr::Call {
            callee,
            arguments,
            ..
        } => expr_within(callee.get(), most) && exprs_within(arguments.as_slice(), most),
        Expr::Index {
            base: left,
            index: right,
            ..
        }
        | Expr::Binary { left, right, .. }
        | Expr::Assign { left, right, .. } => {
            expr_within(left.get(), most) && expr_within(right.get(), most)
        }
        _ => true,
    }
}

/// Whether what a block, branch, loop or closure has inside nests no deeper.
#[cycle(exprs)]
fn blocks_within(tree: &Expr, most: usize) -> bool
    ensures { MatchBool result (spec.blocks_depth (out-Expr tree.now) ≤ most) (most < spec.blocks_depth (out-Expr tree.now)) }
{
    match tree {
        Expr::Block(block) | Expr::Loop { body: block, .. } => block_within(block.get(), most),
        Expr::If {
            condition,
            then,
            branches,
            otherwise,
            ..
        } => {
            condition_within(condition, most)
                && block_within(then.get(), most)
                && branches_within(branches.as_slice(), most)
                && match otherwise {
                    Some(block) => block_within(block.get(), most),
                    None => true,
                }
        }
        Expr::Match {
            scrutinee,
            arms,
            ..
        } => expr_within(scrutinee.get(), most) && arms_within(arms.as_slice(), most),
        Expr::While {
            condition,
            body,
            ..
        } => expr_within(condition.get(), most) && block_within(body.get(), most),
        Expr::For {
            pat,
            head,
            end,
            body,
            ..
        } => {
            pat_within(pat.get(), most)
                && expr_within(head.get(), most)
                && some_within(end, most)
                && block_within(body.get(), most)
        }
        Expr::Closure { head, body, .. } => {
            head_within(head, most) && expr_within(body.get(), most)
        }
        Expr::ClosureTo {
            head,
            output,
            body,
            ..
        } => {
            head_within(head, most)
                && type_within(output.get(), most)
                && block_within(body.get(), most)
        }
        _ => true,
    }
}

#[cycle(exprs)]
fn some_within(tree: &Option<Boxed<Expr>>, most: usize) -> bool
    ensures { MatchBool result (of_some expr_nesting tree.now ≤ most) (most < of_some expr_nesting tree.now) }
{
    match tree {
        Some(inner) => expr_within(inner.get(), most),
        None => true,
    }
}

#[cycle(exprs)]
fn exprs_within(list: &[Listed<Expr>], most: usize) -> bool
    ensures { MatchBool result (greatest (λ l. expr_nesting l.item) list.now ≤ most) (most < greatest (λ l. expr_nesting l.item) list.now) }
{
    for part in list {
        if !expr_within(&part.item, most) {
            return false;
        }
    }
    true
}

#[cycle(exprs)]
fn fields_within(list: &[Listed<FieldExpr<Expr>>], most: usize) -> bool
    ensures { MatchBool result (greatest (λ l. of_some expr_nesting l.item.value) list.now ≤ most) (most < greatest (λ l. of_some expr_nesting l.item.value) list.now) }
{
    for part in list {
        if let Some(value) = &part.item.value {
            if !expr_within(value, most) {
                return false;
            }
        }
    }
    true
}

#[cycle(exprs)]
fn condition_within(tree: &Condition<Boxed<Expr>>, most: usize) -> bool
    ensures { MatchBool result (condition_depth expr_nesting tree.now ≤ most) (most < condition_depth expr_nesting tree.now) }
{
    match tree {
        Condition::Expr(value) => expr_within(value.get(), most),
        Condition::Let { pat, value, .. } => {
            top_pat_within(pat, most) && expr_within(value.get(), most)
        }
    }
}

#[cycle(exprs)]
fn arms_within(list: &[Arm<Expr>], most: usize) -> bool
    ensures { MatchBool result (greatest (arm_depth expr_nesting) list.now ≤ most) (most < greatest (arm_depth expr_nesting) list.now) }
{
    for part in list {
        if !(top_pat_within(&part.pat, most) && expr_within(&part.body, most)) {
            return false;
        }
    }
    true
}

#[cycle(exprs)]
#[tactic(auto, using(crate::proofs::ExprDepths::branch))]
fn branch_within(tree: &ElseIf, most: usize) -> bool
    ensures { MatchBool result (branch_nesting tree.now ≤ most) (most < branch_nesting tree.now) }
{
    condition_within(&tree.condition, most) && block_within(tree.then.get(), most)
}

#[cycle(exprs)]
fn branches_within(list: &[ElseIf], most: usize) -> bool
    ensures { MatchBool result (greatest branch_nesting list.now ≤ most) (most < greatest branch_nesting list.now) }
{
    for part in list {
        if !branch_within(part, most) {
            return false;
        }
    }
    true
}

/// Whether the block nests no deeper.
#[cycle(exprs)]
pub fn block_within(tree: &Block<Body>, most: usize) -> bool
    ensures { MatchBool result (block_nesting tree.now ≤ most) (most < block_nesting tree.now) }
{
    body_within(&tree.body, most)
}

/// Whether what a block has between its braces nests no deeper.
#[cycle(exprs)]
#[tactic(auto, using(crate::proofs::ExprDepths::body))]
pub fn body_within(tree: &Body, most: usize) -> bool
    ensures { MatchBool result (body_nesting tree.now ≤ most) (most < body_nesting tree.now) }
{
    stmts_within(tree.stmts.as_slice(), most) && some_within(&tree.tail, most)
}

#[cycle(exprs)]
fn stmts_within(list: &[Stmt], most: usize) -> bool
    ensures { MatchBool result (greatest stmt_nesting list.now ≤ most) (most < greatest stmt_nesting list.now) }
{
    for part in list {
        if !stmt_within(part, most) {
            return false;
        }
    }
    true
}

/// Whether the statement nests no deeper.
#[cycle(exprs)]
#[tactic(auto, using(crate::proofs::ExprDepths::mention_stmt, crate::proofs::ExprDepths::let_stmt, crate::proofs::ExprDepths::macro_stmt, crate::proofs::ExprDepths::expr_stmt, crate::proofs::ExprDepths::block_like_stmt, crate::proofs::ExprDepths::stmt_group))]
pub fn stmt_within(tree: &Stmt, most: usize) -> bool
    ensures { MatchBool result (stmt_nesting tree.now ≤ most) (most < stmt_nesting tree.now) }
{
    match tree {
        Stmt::Mention { .. } | Stmt::Macro { .. } => true,
        Stmt::Let {
            pat,
            annotation,
            value,
            ..
        } => {
            pat_within(pat.get(), most)
                && annotation_within(annotation, most)
                && expr_within(value.get(), most)
        }
        Stmt::Expr { value, .. } | Stmt::BlockLike { value, .. } => expr_within(value.get(), most),
        Stmt::Group { inner, .. } => stmt_within(inner.get(), most),
    }
}
