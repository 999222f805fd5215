use crate::expr::{Block, Body, Expr, Stmt};
use crate::item::Item;
use crate::literal::Literal;
use crate::pat::{Pat, TopPat};
use crate::piece::{Delimited, FragmentKind, Group, PieceList};
use crate::shared::Shared;
use crate::types::{Path, TypeTree};
use em_base::{Edition, Token};
use sqlite_items::Boxed;

/// A token tree (Reference, "Macros by example").
#[derive(Drop)]
pub enum TokenTree {
    Token(Shared<Token>),
    Group(Group),
    Delimited(Delimited),
}

/// The tree of a fragment, by its kind.
#[derive(Drop)]
pub enum FragmentNode {
    Ident(Shared<Token>),
    Tt(TokenTree),
    Literal(Literal),
    Block(Boxed<Block<Body>>),
    Expr(Expr),
    Stmt(Stmt),
    Ty(TypeTree),
    Path(Path),
    Pat(TopPat),
    PatParam(Pat),
    Item(Item),
}

/// A fragment that a matcher read: its tree, the number of its pieces, its kind, the edition of the word that named the
/// kind, and its pieces, which the groups made of it share.
#[derive(Drop)]
pub struct Fragment {
    pub node: FragmentNode,
    pub taken: usize,
    pub kind: FragmentKind,
    pub edition: Edition,
    pub pieces: Shared<PieceList>,
}

/// Why a fragment can't be read: its first piece starts none of its kind, no pieces from there on are of its kind, or
/// it nests too deep.
#[derive(Clone, Copy, Debug, PartialEq, Eq)]
pub enum FragError {
    NoMemory,
    CannotStart,
    Broken,
    Depth,
}
