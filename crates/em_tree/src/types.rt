use crate::literal::Literal;
use crate::parts::Listed;
use crate::piece::Group;
use crate::shared::Shared;
use em_base::Token;
use sqlite_items::{Boxed, Items};

/// A segment of a path. `$crate` is the two tokens `$` and `crate` (Reference, "Path qualifiers").
#[derive(Drop)]
pub struct Segment {
    pub dollar: Option<Shared<Token>>,
    pub name: Shared<Token>,
}

/// A further segment of a path.
#[derive(Drop)]
pub struct PathStep {
    pub separator: Shared<Token>,
    pub segment: Segment,
}

/// The segments of a path, with a `::` before the first one where it begins with one.
#[derive(Drop)]
pub struct Segments {
    pub lead: Option<Shared<Token>>,
    pub first: Segment,
    pub more: Items<PathStep>,
}

/// A path (Reference, "Paths").
#[cycle(types)]
#[derive(Drop)]
pub enum Path {
    Plain(Segments),
    Qualified(Boxed<Qualified>),
    Group { group: Group, inner: Boxed<Path> },
}

/// `<T as Trait>::name` (Reference, "Qualified paths").
#[cycle(types)]
#[derive(Drop)]
pub struct Qualified {
    pub open: Shared<Token>,
    pub self_type: TypeTree,
    pub word: Shared<Token>,
    pub of_trait: Path,
    pub close: Shared<Token>,
    pub separator: Shared<Token>,
    pub name: Shared<Token>,
}

/// The type after an arrow, or nothing for the type `()`.
#[cycle(types)]
#[derive(Drop)]
pub enum Output {
    Unit,
    Type {
        arrow: Shared<Token>,
        ty: Boxed<TypeTree>,
    },
}

/// A trait of a trait object (Reference, "Trait objects").
#[cycle(types)]
#[derive(Drop)]
pub enum Bound {
    Path(Path),
    /// `Fn(A, B) -> C`.
    Call {
        path: Path,
        open: Shared<Token>,
        inputs: Items<Listed<TypeTree>>,
        close: Shared<Token>,
        output: Output,
    },
}

/// A type (Reference, "Types").
#[cycle(types)]
#[derive(Drop)]
pub enum TypeTree {
    Path(Path),
    /// `Box<T>`. It has no `close` where the `>>` of an outer one closes it.
    Boxed {
        word: Shared<Token>,
        open: Shared<Token>,
        inner: Boxed<TypeTree>,
        close: Option<Shared<Token>>,
    },
    Ref {
        amp: Shared<Token>,
        word_mut: Option<Shared<Token>>,
        inner: Boxed<TypeTree>,
    },
    /// `&&T`, two references of which the inner one may be `mut`.
    RefRef {
        amps: Shared<Token>,
        word_mut: Option<Shared<Token>>,
        inner: Boxed<TypeTree>,
    },
    Array {
        open: Shared<Token>,
        element: Boxed<TypeTree>,
        semi: Shared<Token>,
        length: Literal,
        close: Shared<Token>,
    },
    Slice {
        open: Shared<Token>,
        element: Boxed<TypeTree>,
        close: Shared<Token>,
    },
    Unit {
        open: Shared<Token>,
        close: Shared<Token>,
    },
    Dyn {
        word: Shared<Token>,
        bound: Boxed<Bound>,
    },
    /// A trait object without `dyn`, told from a path by its parentheses.
    Bare(Boxed<Bound>),
    Group {
        group: Group,
        inner: Boxed<TypeTree>,
    },
}
