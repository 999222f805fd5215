use crate::mention::Closure;
use crate::ty::Ty;
use em_base::{List, Mark, Span, Text, Token};

/// A variable that a closure mentions: its name, with its marks, and its type.
#[derive(Drop)]
pub struct RootNote {
    pub name: Token,
    pub ty: Ty,
}

/// A construct whose meaning an edition may change, where it stands and with the types that decide.
#[derive(Drop)]
pub enum Note {
    /// A method call: its receiver with the receiver's type, its name, and the module that it stands in.
    MethodCall {
        receiver: Span,
        ty: Ty,
        name: Token,
        arguments: u32,
        module: u32,
    },
    /// A call `T::f`: the path of the type, the type, the function's name, and the module.
    AssociatedCall {
        path: Span,
        ty: Ty,
        name: Token,
        module: u32,
    },
    /// A trait that is used as a type without `dyn`: the path's first token.
    BareTrait {
        first: Token,
    },
    /// A range pattern, by its dots.
    RangePattern {
        dots: Token,
    },
    /// The single message of `panic!` or `assert!`: the macro's name, the message with its type, and its text where it is a string literal.
    Message {
        name: Token,
        message: Span,
        ty: Ty,
        literal: Option<Text>,
    },
    /// A closure, the first piece of its body with the piece's marks, and its variables.
    ClosureMade {
        closure: Closure,
        body: Span,
        marks: List<Mark>,
        roots: List<RootNote>,
    },
}

/// The notes in the order of the source.
#[derive(Drop)]
pub struct Notes {
    pub list: List<Note>,
}
