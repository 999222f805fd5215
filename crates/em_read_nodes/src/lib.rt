//! Reads one node of an expression, whatever reads what stands inside of it.
#![tactic(auto)]

mod branch;
mod level;
mod none;
mod prefix;

pub use level::expr_node;
pub use none::no_expr;
