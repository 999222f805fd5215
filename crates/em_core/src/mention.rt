use em_base::{List, Span};
use sqlite_items::{Boxed, Items};

/// How a closure uses a variable, or captures it (Reference, "Capture modes").
#[derive(Clone, Copy, Debug, PartialEq, Eq)]
pub enum By {
    Shared,
    Unique,
    Value,
}

/// A field on the way to a mentioned part, and whether the type that has the field has a Drop impl.
#[derive(Clone, Copy, Debug, PartialEq, Eq)]
pub struct PathStep {
    pub field: u32,
    pub owner_drops: bool,
}

/// A use of a variable of the surroundings in a closure's body: a path of fields, cut at the first dereference or index.
#[derive(Drop)]
pub struct Mention {
    /// The variable, by its number among those that the closure mentions.
    pub root: u32,
    pub path: List<PathStep>,
    pub by: By,
    /// Whether the part at the path is `Copy`.
    pub copy: bool,
    /// Whether the whole variable is `Copy`.
    pub root_copy: bool,
}

/// What a closure's body mentions: a variable itself, or by a closure made in it.
#[cycle(closure)]
#[derive(Drop)]
pub enum Mentioned {
    Own(Mention),
    Inner(Boxed<Closure>),
}

/// A closure as far as its captures go.
#[cycle(closure)]
#[derive(Drop)]
pub struct Closure {
    /// Its first `|`, whose edition decides what it captures.
    pub bar: Span,
    /// Whether it has `move`.
    pub moves: bool,
    pub mentions: Items<Mentioned>,
}
