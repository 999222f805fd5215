//! Reads items and attributes from pieces.
#![tactic(auto)]

mod attribute;
mod const_item;
mod data;
mod file;
mod fn_item;
mod impl_item;
mod import;
mod item;
mod macro_item;
mod mod_item;
mod parts;
mod sig;
mod trait_item;
mod use_item;
mod vis;

pub use attribute::attributes;
pub use file::file_attributes;
pub use item::{item_node, starts_item};
pub use parts::Parts;
