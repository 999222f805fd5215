use crate::error::LexKind;
use em_base::TokenKind;

/// What encloses the body of a literal: `"`, `'`, or `r`, a number of `#` and `"`.
#[derive(Clone, Copy, Debug, PartialEq, Eq)]
pub enum Form {
    Quoted,
    Single,
    Raw(usize),
}

/// What stands at the front of a text. Lengths and offsets are in characters.
#[derive(Debug, Drop)]
pub enum Piece {
    Trivia { len: usize, doc: bool },
    Token { kind: TokenKind, len: usize },
    Fault { kind: LexKind, at: usize },
}

/// One piece of the body of a literal, and the character that it denotes, if any.
#[derive(Clone, Copy, Debug, PartialEq, Eq)]
pub struct Unit {
    pub len: usize,
    pub value: Option<char>,
}
