//! Reads expressions, statements and blocks from pieces.
#![tactic(auto)]

mod blank;
mod block;
mod brackets;
mod closures;
mod inside;
mod opens;
mod operand;
mod operator;
mod path_forms;
mod shape;
mod stmt;
mod stmt_sets;
mod strengths;
mod suffix;

pub use blank::{Seen, is_blank};
pub use block::{bare_stmt, block_node, body, tail_stmt};
pub use brackets::bracket;
pub use closures::{closure, paren, return_expr};
pub use inside::{Inside, Start};
pub use opens::Opens;
pub use operand::{operand_group, reference, two_references, unary};
pub use operator::{
    Operator, binds_as_operator, is_assignment, read_operator, right_binds, stands_operator,
};
pub use path_forms::path_form;
pub use shape::{ends_bare, ends_open, has_braces, is_block, is_braced, is_field};
pub use stmt::{LetEnd, expr_stmt, let_stmt, macro_call, plain_stmt, statement_of};
pub use stmt_sets::{starts_expr, starts_plain_stmt};
pub use strengths::strength;
pub use suffix::{Arguments, Suffix, apply, list, read_suffix};
