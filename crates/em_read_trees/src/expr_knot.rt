//! Expressions, statements and blocks, with groups and nodes in one another up to given numbers.

ghost use Rattle.em_grammar.specs.ExprKnot as spec;
ghost use Rattle.em_read.specs.Parse.{Reads};
ghost use Rattle.em_read_exprs.specs.Exprs.{start_of};
ghost use Rattle.em_read_trees.specs.ExprKnots as part;

use crate::expr_inside::{Exprs, Groups, Stmts};
use em_read::{Cursor, Stop};
use em_read_exprs::{Start, bare_stmt, block_node, body, tail_stmt};
use em_read_nodes::{expr_node, no_expr};
use em_tree::{Block, Body, Expr, Stmt};
use std::alloc::Global;

/// An expression (Reference, "Expressions") whose operators bind at least so tightly.
#[cycle(exprs)]
#[tactic(auto, using(crate::proofs::ExprSteps::expr_zero, crate::proofs::ExprSteps::expr_at))]
pub fn expr_in(
    alloc: Global,
    input: &mut Cursor<'_>,
    groups: usize,
    depth: usize,
    start: Start,
    least: usize,
    no_struct: bool,
) -> Result<Expr, Stop>
    ensures { Reads (spec.expr_in groups depth (start_of start) least no_struct input.old.rest.now) result input.new.rest.now }
{
    if depth == 0 {
        return no_expr(alloc, input, start, least);
    }
    let inside = Exprs {
        alloc,
        groups,
        depth,
        exprs: expr_in,
        blocks: block_in,
    };
    expr_node(alloc, &inside, input, depth - 1, start, least, no_struct)
}

/// A statement without its `;` (Reference, "Statements").
#[cycle(exprs)]
#[tactic(auto, using(crate::proofs::ExprSteps::stmt_at))]
pub fn stmt_in(
    alloc: Global,
    input: &mut Cursor<'_>,
    groups: usize,
    depth: usize,
) -> Result<Stmt, Stop>
    ensures { Reads (spec.stmt_in groups depth input.old.rest.now) result input.new.rest.now }
{
    let stmts = Stmts {
        alloc,
        groups,
        depth,
        exprs: expr_in,
    };
    let opens = Groups {
        alloc,
        groups,
        depth,
        stmts: stmt_in,
        tails: tail_in,
        blocks: block_in,
    };
    bare_stmt(alloc, &stmts, &opens, input)
}

/// The tail that a fragment of the kind `stmt` is.
#[cycle(exprs)]
#[tactic(auto, using(crate::proofs::ExprSteps::tail_at))]
pub fn tail_in(
    alloc: Global,
    input: &mut Cursor<'_>,
    groups: usize,
    depth: usize,
) -> Result<Expr, Stop>
    ensures { Reads (part.tail_in groups depth input.old.rest.now) result input.new.rest.now }
{
    let stmts = Stmts {
        alloc,
        groups,
        depth,
        exprs: expr_in,
    };
    let opens = Groups {
        alloc,
        groups,
        depth,
        stmts: stmt_in,
        tails: tail_in,
        blocks: block_in,
    };
    tail_stmt(alloc, &stmts, &opens, input)
}

/// A block (Reference, "Block expressions").
#[cycle(exprs)]
#[tactic(auto, using(crate::proofs::ExprSteps::block_at))]
pub fn block_in(
    alloc: Global,
    input: &mut Cursor<'_>,
    groups: usize,
    depth: usize,
) -> Result<Block<Body>, Stop>
    ensures { Reads (spec.block_in groups depth input.old.rest.now) result input.new.rest.now }
{
    let stmts = Stmts {
        alloc,
        groups,
        depth,
        exprs: expr_in,
    };
    let opens = Groups {
        alloc,
        groups,
        depth,
        stmts: stmt_in,
        tails: tail_in,
        blocks: block_in,
    };
    block_node(alloc, &stmts, &opens, input)
}

/// What stands in a block.
#[tactic(auto, using(crate::proofs::ExprSteps::body_at))]
pub fn body_in(
    alloc: Global,
    input: &mut Cursor<'_>,
    groups: usize,
    depth: usize,
) -> Result<Body, Stop>
    ensures { Reads (spec.body_in groups depth input.old.rest.now) result input.new.rest.now }
{
    let stmts = Stmts {
        alloc,
        groups,
        depth,
        exprs: expr_in,
    };
    let opens = Groups {
        alloc,
        groups,
        depth,
        stmts: stmt_in,
        tails: tail_in,
        blocks: block_in,
    };
    body(alloc, &stmts, &opens, input)
}
