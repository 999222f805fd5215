//! How deep trees nest.
#![tactic(auto)]

mod exprs;
mod items;
mod list;
mod pats;
mod types;

pub use exprs::{block_within, body_within, expr_within, stmt_within};
pub use items::{file_within, item_within};
pub use list::each_within;
pub use pats::{pat_within, top_pat_within};
pub use types::{output_within, path_within, type_within};
