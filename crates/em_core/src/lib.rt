//! The Core of a package and what a run of it means.
//!
//! A Core is a program with its names resolved and its adjustments, coercions and drop scopes made explicit. `specs/` defines the machine that runs one.
#![tactic(auto)]

mod copying;
mod definition;
mod expr;
mod function;
mod laws;
mod mention;
mod methods;
mod notes;
mod operator;
mod pattern;
mod place;
mod program;
mod same;
mod ty;
mod typed;

pub use copying::is_copy_type;
pub use definition::{TypeDef, Variant};
pub use em_base::IntKind;
pub use expr::{Arm, Expr, Piece};
pub use function::{Capture, ClosureEntry, FieldStep, Function, Variable};
pub use laws::{
    closures_capture, closures_in_order, control_and_values, cores_typed, drops_in_order,
    operators_panic, panics_unwind, patterns_and_complements, places_lead, types_fit,
};
pub use mention::{By, Closure, Mention, Mentioned, PathStep};
pub use methods::{Impl, ImplFunction, Method, Methods, Owner, Receiver, Signature};
pub use notes::{Note, Notes, RootNote};
pub use operator::{BinaryOp, CompareOp, Constant, UnaryOp};
pub use pattern::{Binding, Pattern, PatternPart, Test, VariantField};
pub use place::{Base, PlaceExpr, PlaceStep};
pub use program::{Core, Difference};
pub use same::{same_type, same_types};
pub use ty::{ClosureKind, Ty};
pub use typed::{body_ok, def_ok, entry_ok, is_typed, method_ok};
