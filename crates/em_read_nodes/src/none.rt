//! Where no node may be.

ghost use Rattle.em_grammar.specs.StmtReader as spec;
ghost use Rattle.em_read.specs.Parse.{Reads};
ghost use Rattle.em_read_exprs.specs.Exprs.{start_of};

use crate::level::goes_on;
use em_read::{Cursor, Stop};
use em_read_exprs::{Start, macro_call, starts_expr};
use em_tree::Expr;
use std::alloc::Global;

/// Where no node may be: a macro call that is a statement, which needs none.
pub fn no_expr(
    alloc: Global,
    input: &mut Cursor<'_>,
    start: Start,
    least: usize,
) -> Result<Expr, Stop>
    ensures { Reads (spec.expr_none (start_of start) least input.old.rest.now) result input.new.rest.now }
{
    if !starts_expr(input) {
        return Err(Stop::Absent);
    }
    match macro_call(alloc, input) {
        Ok(call) => {
            let found = Expr::Macro(call);
            if goes_on(input, start, least, &found) {
                return Err(Stop::Deep);
            }
            Ok(found)
        }
        Err(Stop::Absent) => Err(Stop::Deep),
        Err(stop) => Err(stop),
    }
}
