use crate::expr::Expr;
use crate::mention::By;
use crate::place::Base;
use crate::ty::{ClosureKind, Ty};
use em_base::{List, Place};

/// A field on the way to a captured part. Its type has one variant.
#[derive(Clone, Copy, Debug, PartialEq, Eq)]
pub struct FieldStep {
    pub def: u32,
    pub field: u32,
}

/// One captured part of a variable (Reference, "Capture precision").
#[derive(Drop)]
pub struct Capture {
    pub path: List<FieldStep>,
    pub by: By,
    /// Whether the part's type is `Copy`.
    pub copy: bool,
}

/// A captured variable: where it stands in the body that makes the closure, its type, and which parts of it are captured, in order. No part lies in another.
#[derive(Drop)]
pub struct Variable {
    pub base: Base,
    pub ty: Ty,
    pub captures: List<Capture>,
}

/// A closure that a function makes. Its first slots are its parameters.
#[derive(Drop)]
pub struct ClosureEntry {
    /// A number that no other closure of the Core has.
    pub id: u32,
    /// The type of its values.
    pub ty: Ty,
    pub parameters: List<Ty>,
    pub result: Ty,
    pub slots: List<Ty>,
    /// The captured variables in capture order.
    pub variables: List<Variable>,
    /// Whether a call needs no more than shared access, unique access, or uses the closure up.
    pub kind: ClosureKind,
    pub body: Expr,
}

/// A function. Its first slots are its parameters.
#[derive(Drop)]
pub struct Function {
    /// Where its item starts.
    pub item: Place,
    pub parameters: List<Ty>,
    pub result: Ty,
    pub slots: List<Ty>,
    pub body: Expr,
    /// The closures that are made in it, also those made in other closures of it.
    pub closures: List<ClosureEntry>,
}
