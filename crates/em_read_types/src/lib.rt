//! Reads types, paths and patterns from pieces.
#![tactic(auto)]

mod pat;
mod pat_inside;
mod pat_knot;
mod pat_sets;
mod path_words;
mod qualified;
mod type_inside;
mod type_knot;
mod type_sets;
mod types;

pub use pat::{Fields, Marked, pat_node};
pub use pat_inside::PatInside;
pub use pat_knot::{Pats, no_pat, pat_in, top_pat_in};
pub use pat_sets::{
    is_pat_group, is_top_group, starts_mark, starts_pat, starts_pat_node, starts_signed,
};
pub use path_words::{alone, callable, first_edition, is_before_2021, is_lone, lone_word};
pub use qualified::{NamePart, PathInside, PathTypes, TraitPart, path_token, starts_path_token};
pub use type_inside::TypeInside;
pub use type_knot::{Types, no_type, path_in, plain_type_in, type_tree};
pub use type_sets::{
    follows_dyn, stands_dyn, starts_path, starts_segments, starts_type, starts_type_node,
};
pub use types::{Call, Suffix, plain_type, type_node};
