ghost use Rattle.std.specs.Prelude.{◌≡◌, IfOk};

use crate::shared::Shared;
use em_base::{Edition, List, Mark, NoMemory, Span, Token};
use sqlite_items::Items;
use std::alloc::Global;

/// The kinds of macro fragments (Reference, "Metavariables").
#[derive(Clone, Copy, Debug, PartialEq, Eq)]
pub enum FragmentKind {
    Ident,
    Tt,
    Literal,
    Block,
    Expr,
    Stmt,
    Ty,
    Path,
    Pat,
    PatParam,
    Item,
}

/// What the grammar reads: a token, or a fragment that a transcriber put in.
#[cycle(pieces)]
#[derive(Drop)]
pub enum Piece {
    Token(Token),
    Group(Group),
}

/// A fragment that a transcriber put in. Its `outer` place and its marks are those of `$x` in the transcriber; its
/// pieces keep their own. The edition is that of the word that named the kind.
#[cycle(pieces)]
#[derive(Drop)]
pub struct Group {
    pub outer: Span,
    pub marks: List<Mark>,
    pub kind: FragmentKind,
    pub edition: Edition,
    pub pieces: Shared<PieceList>,
}

impl Group {
    /// The same group, whose pieces aren't copied.
    pub fn share(&self, alloc: Global) -> Result<Group, NoMemory>
        ensures { IfOk result (λ g. g ≡ self.now) }
    {
        Ok(Group {
            outer: self.outer,
            marks: List::from_slice(alloc, self.marks.as_slice())?,
            kind: self.kind,
            edition: self.edition,
            pieces: self.pieces.share()?,
        })
    }
}

/// The pieces of a fragment, which its groups share.
#[cycle(pieces)]
#[derive(Drop)]
pub struct PieceList {
    pub list: Items<Piece>,
}

/// Macro text between its delimiters (Reference, "Macro invocation").
#[derive(Drop)]
pub struct Delimited {
    pub open: Shared<Token>,
    pub text: Items<Piece>,
    pub close: Shared<Token>,
}
