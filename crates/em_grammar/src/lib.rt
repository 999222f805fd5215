//! How the grammar is read: what a token is to it, the definitions of readers, and laws of the grammar (Reference,
//! "Notation").
#![tactic(auto)]

mod expr_laws;
mod fragment_laws;
mod item_laws;
mod laws;
mod likely;
mod nest_laws;
mod sort;
mod token;

pub use expr_laws::{blocks, bodies, exprs, macro_text, stmts};
pub use fragment_laws::fragments;
pub use item_laws::{attributes, files, items, prefixes};
pub use laws::{groups, ints, literals, paths, pats, plain_paths, top_pats, types};
pub use nest_laws::{exprs_nest, fragments_nest, items_nest, types_nest};
pub use sort::{Kind, Sort, Weak, Written, sort_of};
pub use token::{
    is_bound_start, is_dyn, is_int, is_literal, is_name, is_path_start, is_root, is_segments_start,
    is_sign, is_weak,
};
