use crate::ty::Ty;
use em_base::{List, Name};

/// What a method belongs to.
#[derive(Drop)]
pub enum Owner {
    /// A type, by its inherent impls.
    Type(Ty),
    /// A trait, by its number.
    Trait(u32),
}

/// The form of a method's receiver (Reference, "Methods").
#[derive(Clone, Copy, Debug, PartialEq, Eq)]
pub enum Receiver {
    /// An associated function.
    None,
    /// `self`
    Value,
    /// `&self`
    Shared,
    /// `&mut self`
    Unique,
}

/// What a call on a trait object takes after its receiver, and what it gives.
#[derive(Drop)]
pub struct Signature {
    pub parameters: List<Ty>,
    pub result: Ty,
}

/// A method of a type or of a trait.
#[derive(Drop)]
pub struct Method {
    pub owner: Owner,
    pub name: Name,
    pub receiver: Receiver,
    /// Its function, where it has a body.
    pub function: Option<u32>,
    /// For a trait's method that takes `&self` or `&mut self` and has no `Self` in its signature.
    pub on_object: Option<Signature>,
}

/// What stands in an impl for a method of its trait.
#[derive(Clone, Copy, Debug, PartialEq, Eq)]
pub struct ImplFunction {
    pub method: u32,
    pub function: u32,
}

/// An impl of a trait for a type.
#[derive(Drop)]
pub struct Impl {
    /// The trait's number.
    pub of: u32,
    pub ty: Ty,
    pub functions: List<ImplFunction>,
}

/// All methods, and for each trait the types that have it. A method's number is its place in the first list.
#[derive(Drop)]
pub struct Methods {
    pub methods: List<Method>,
    pub impls: List<Impl>,
}
