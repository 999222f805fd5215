//! Reads expressions, statements, blocks and items, with groups and nodes in one another up to given numbers.
#![tactic(auto)]

mod expr_inside;
mod expr_knot;
mod item_knot;
mod pats;

pub use expr_knot::{block_in, body_in, expr_in, stmt_in};
pub use item_knot::item_in;
