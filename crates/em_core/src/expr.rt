use crate::operator::{BinaryOp, CompareOp, Constant, UnaryOp};
use crate::pattern::Pattern;
use crate::place::PlaceExpr;
use crate::ty::Ty;
use em_base::{List, Text};
use sqlite_items::{Boxed, Items};

/// A piece of a format string.
#[derive(Drop)]
pub enum Piece {
    Text(Text),
    /// The next argument.
    Argument,
}

/// An arm of a match: it is taken where one of its patterns matches. All of them bind the same slots.
#[cycle(expr)]
#[derive(Drop)]
pub struct Arm {
    pub patterns: List<Pattern>,
    pub body: Expr,
}

/// An expression of the Core. Operands are evaluated from the left, but for `Assign`.
#[cycle(expr)]
#[derive(Drop)]
pub enum Expr {
    Const(Constant),
    /// The value at the place, which stays.
    Copy(PlaceExpr),
    /// The value at the place, which is moved out of.
    Move(PlaceExpr),
    /// The place's address, as a shared or a unique reference.
    Ref {
        place: PlaceExpr,
        unique: bool,
    },
    /// Puts a value into a slot, and drops nothing.
    Init {
        slot: u32,
        value: Boxed<Expr>,
    },
    /// Computes the value, then drops what stands at the place, then puts the value there.
    Assign {
        place: PlaceExpr,
        value: Boxed<Expr>,
    },
    Unary(UnaryOp, Boxed<Expr>),
    Binary(BinaryOp, Boxed<Expr>, Boxed<Expr>),
    Compare(CompareOp, Boxed<Expr>, Boxed<Expr>),
    /// A struct, whose variant is 0, or an enum's variant, of its fields.
    Build {
        def: u32,
        variant: u32,
        fields: Items<Expr>,
    },
    /// An array of these elements, each of this type.
    ArrayOf {
        element: Ty,
        elements: Items<Expr>,
    },
    /// An array of so many copies.
    Repeat {
        element: Boxed<Expr>,
        count: u64,
    },
    /// `Box::new`, with the type of what is put into it.
    BoxNew {
        content: Ty,
        value: Boxed<Expr>,
    },
    /// `a..b`, or with `closed` `a..=b`.
    RangeOf {
        closed: bool,
        low: Boxed<Expr>,
        high: Boxed<Expr>,
    },
    /// A closure, by its number. Its entry says what it captures.
    MakeClosure(u32),
    /// A call of a function by its number.
    Call {
        function: u32,
        arguments: Items<Expr>,
    },
    /// A call of a trait's method by its number, on the object that the first argument refers to.
    CallDyn {
        method: u32,
        arguments: Items<Expr>,
    },
    /// A call of the closure that stands at a place, which stays.
    CallBy {
        closure: PlaceExpr,
        arguments: Items<Expr>,
    },
    /// A call that uses the closure up.
    CallOnce {
        closure: Boxed<Expr>,
        arguments: Items<Expr>,
    },
    If {
        condition: Boxed<Expr>,
        then: Boxed<Expr>,
        otherwise: Boxed<Expr>,
    },
    Match {
        place: PlaceExpr,
        arms: Items<Arm>,
    },
    Loop(Boxed<Expr>),
    Break,
    Continue,
    Return(Boxed<Expr>),
    /// Opens these slots, evaluates the body and drops the slots in reverse.
    Scope {
        slots: List<u32>,
        body: Boxed<Expr>,
    },
    /// One after the other; the value is the last one's, or unit where there is none.
    Seq(Items<Expr>),
    /// `println!`, with as many arguments as its pieces name.
    Print {
        pieces: List<Piece>,
        arguments: Items<Expr>,
    },
    /// A panic whose message is a text.
    Panic {
        pieces: List<Piece>,
        arguments: Items<Expr>,
    },
    /// A panic with a value of this type.
    PanicValue {
        ty: Ty,
        value: Boxed<Expr>,
    },
    /// The iterator over the elements of an array, which it owns.
    ToIter(Boxed<Expr>),
    /// The iterator over references to the elements of the array or slice that a reference leads to.
    ToRefIter(Boxed<Expr>),
    /// Puts the next item of the iterator at a place into a slot, or ends the loop.
    Next {
        iterator: PlaceExpr,
        slot: u32,
    },
    /// Puts a value into a slot of its own and drops it.
    DropValue {
        slot: u32,
        value: Boxed<Expr>,
    },
    /// A coercion to a trait object or to a slice, from and to these types of references or boxes.
    Unsize {
        from: Ty,
        to: Ty,
        value: Boxed<Expr>,
    },
}
