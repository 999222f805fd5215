//! Reads files and fragments from tokens and pieces, each as the only tree that has this yield.
//!
//! Trees that nest deeper than 200 nodes, and pieces with more than 200 fragments in one another, are refused.
#![tactic(auto)]

mod calls;
mod error;
mod fragment;
mod kinds;
mod laws;
mod parse;
mod trees;

pub use error::ParseError;
pub use laws::{answers_are_decided, trees_are_one, trees_are_read_again};
pub use parse::{parse_body, parse_file, parse_fragment, parse_items};
