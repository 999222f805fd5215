//! Edits: suggestions and their application.
#![tactic(auto)]

mod application;
mod bad_edit;
mod ends;
mod faults;
mod laws;
mod moving;
mod order;
mod selection;
#[cfg(test)]
mod selection_tests;
#[cfg(test)]
mod tests;
mod texts;

pub use application::apply;
pub use bad_edit::BadEdit;
pub use laws::{
    first_part_first, no_part_keeps, none_moves, order_stays, outside_stays, taken_fit,
};
pub use moving::moved;
pub use selection::select;
