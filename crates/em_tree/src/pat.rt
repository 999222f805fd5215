use crate::literal::Literal;
use crate::parts::Listed;
use crate::piece::Group;
use crate::shared::Shared;
use crate::types::Path;
use em_base::Token;
use sqlite_items::{Boxed, Items};

/// A field of a struct pattern (Reference, "Struct patterns").
#[derive(Drop)]
pub enum FieldPat<P> {
    Full {
        name: Shared<Token>,
        colon: Shared<Token>,
        pat: P,
    },
    Short {
        word_ref: Option<Shared<Token>>,
        word_mut: Option<Shared<Token>>,
        name: Shared<Token>,
    },
}

/// A pattern without alternatives (Reference, "Patterns").
#[cycle(pats)]
#[derive(Drop)]
pub enum Pat {
    Wild(Shared<Token>),
    Name {
        word_ref: Option<Shared<Token>>,
        word_mut: Option<Shared<Token>>,
        name: Shared<Token>,
    },
    Literal(Literal),
    Range {
        start: Literal,
        dots: Shared<Token>,
        end: Literal,
    },
    Path(Path),
    Tuple {
        path: Path,
        open: Shared<Token>,
        fields: Items<Listed<Pat>>,
        close: Shared<Token>,
    },
    Struct {
        path: Path,
        open: Shared<Token>,
        fields: Items<Listed<FieldPat<Pat>>>,
        rest: Option<Shared<Token>>,
        close: Shared<Token>,
    },
    Group {
        group: Group,
        inner: Boxed<Pat>,
    },
}

/// An alternative of a pattern. The first may lack its bar.
#[derive(Drop)]
pub struct Alternative {
    pub bar: Option<Shared<Token>>,
    pub pat: Pat,
}

/// A pattern with its alternatives (Reference, "Or-patterns").
#[cycle(top_pats)]
#[derive(Drop)]
pub enum TopPat {
    Alternatives(Items<Alternative>),
    /// A fragment with a `|`.
    Group { group: Group, inner: Boxed<TopPat> },
}
