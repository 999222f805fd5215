use em_base::IntKind;
use sqlite_items::{Boxed, Items};

/// The trait that a closure is called by (Reference, "Closure types", "Call traits and coercions").
#[derive(Clone, Copy, Debug, PartialEq, Eq)]
pub enum ClosureKind {
    Fn,
    FnMut,
    FnOnce,
}

/// A type of the profile. `Str`, `Slice`, `Dyn` and `DynFn` stand only behind `Ref` or `Boxed`.
#[derive(Drop)]
pub enum Ty {
    Int(IntKind),
    Bool,
    Char,
    Str,
    Unit,
    /// The type of an expression that never gives a value (Reference, "Never type").
    Never,
    /// A struct or an enum, by its number in the Core's list of types.
    Def(u32),
    /// An array of so many elements.
    Array(Boxed<Ty>, u64),
    Slice(Boxed<Ty>),
    Ref {
        to: Boxed<Ty>,
        unique: bool,
    },
    /// `Box` of the type.
    Boxed(Boxed<Ty>),
    /// A trait object, by the trait's number.
    Dyn(u32),
    /// A trait object of a closure trait, with the types of its arguments and of its result.
    DynFn {
        kind: ClosureKind,
        arguments: Items<Ty>,
        result: Boxed<Ty>,
    },
    /// A closure by its number, and whether it is `Copy`, has no part with a Drop impl, and holds a reference.
    Closure {
        id: u32,
        copy: bool,
        drop_free: bool,
        refers: bool,
    },
    /// The iterator over an array's elements, which it owns; the type is that of an element.
    ArrayIter(Boxed<Ty>),
    /// The iterator over references to an array's or a slice's elements; the type is that of such a reference.
    RefIter(Boxed<Ty>),
    /// A range of integers.
    Range(IntKind),
}
