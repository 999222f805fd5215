//! Whether a Core is typed, decided by the definition: one function a rule.

mod asks;
mod bodies;
mod calls;
mod children;
mod closures;
mod coercions;
mod copied;
mod fits;
mod given;
mod impls;
mod parts;
mod patterns;
mod places;
pub(crate) mod scene;
mod slots;
mod type_ok;
mod whole;

pub use bodies::{body_ok, def_ok, entry_ok, method_ok};
pub use whole::is_typed;
