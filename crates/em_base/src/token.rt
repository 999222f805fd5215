ghost use Rattle.std.specs.Prelude.{◌≡◌, IfOk};

use crate::edition::Edition;
use crate::int_kind::IntKind;
use crate::list::List;
use crate::memory::NoMemory;
use crate::name::Name;
use crate::place::{Mark, Span};
use crate::text::{ByteText, Text};
use std::alloc::Global;

/// What kind of token a spelling is (Reference, "Tokens"), with the value that a literal denotes. An identifier that a
/// keyword spells is an `Ident` too.
#[derive(Debug, Drop)]
pub enum TokenKind {
    Ident { name: Name, raw: bool },
    /// The name is what follows the `'`.
    Lifetime { name: Name },
    Int { value: u64, suffix: Option<IntKind> },
    Char { value: char },
    Byte { value: u8 },
    Str { value: Text },
    ByteStr { value: ByteText },
    Open,
    Close,
    Punct,
}

impl TokenKind {
    /// The same kind, whose texts aren't copied.
    pub fn share(&self) -> Result<TokenKind, NoMemory>
        ensures { IfOk result (λ k. k ≡ self.now) }
    {
        Ok(match self {
            TokenKind::Ident { name, raw } => TokenKind::Ident {
                name: name.share()?,
                raw: *raw,
            },
            TokenKind::Lifetime { name } => TokenKind::Lifetime {
                name: name.share()?,
            },
            TokenKind::Int { value, suffix } => TokenKind::Int {
                value: *value,
                suffix: *suffix,
            },
            TokenKind::Char { value } => TokenKind::Char { value: *value },
            TokenKind::Byte { value } => TokenKind::Byte { value: *value },
            TokenKind::Str { value } => TokenKind::Str {
                value: value.share()?,
            },
            TokenKind::ByteStr { value } => TokenKind::ByteStr {
                value: value.share()?,
            },
            TokenKind::Open => TokenKind::Open,
            TokenKind::Close => TokenKind::Close,
            TokenKind::Punct => TokenKind::Punct,
        })
    }
}

/// A token, with its spelling and place, the edition of its text, the marks of the macro calls that wrote it, and
/// whether a doc comment stands before it.
#[derive(Debug, Drop)]
pub struct Token {
    pub kind: TokenKind,
    pub text: Text,
    pub span: Span,
    pub edition: Edition,
    pub marks: List<Mark>,
    pub doc: bool,
}

impl Token {
    /// The same token, whose texts aren't copied.
    pub fn share(&self, alloc: Global) -> Result<Token, NoMemory>
        ensures { IfOk result (λ t. t ≡ self.now) }
    {
        Ok(Token {
            kind: self.kind.share()?,
            text: self.text.share()?,
            span: self.span,
            edition: self.edition,
            marks: List::from_slice(alloc, self.marks.as_slice())?,
            doc: self.doc,
        })
    }
}

/// The tokens of a text in order.
#[derive(Debug, Drop)]
pub struct Tokens {
    pub list: List<Token>,
}
