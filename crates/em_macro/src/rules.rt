use em_base::{Edition, Name, Token};
use em_tree::FragmentKind;
use sqlite_items::Items;

/// The word that names a fragment's kind: the kind, and the edition of the word's text.
#[derive(Clone, Copy, Debug, PartialEq, Eq)]
pub struct Specifier {
    pub kind: FragmentKind,
    pub edition: Edition,
}

/// A part of a matcher (Reference, "Macros by example").
#[derive(Drop)]
pub enum Matcher {
    Token(Token),
    /// `$name:kind`.
    Fragment {
        name: Name,
        specifier: Specifier,
    },
    Delimited {
        open: Token,
        body: Items<Matcher>,
        close: Token,
    },
    /// `$( .. )` with an optional separator, and `+` or `*`.
    Repeat {
        body: Items<Matcher>,
        separator: Option<Token>,
        plus: bool,
    },
}

/// A part of a transcriber (Reference, "Transcribing").
#[derive(Drop)]
pub enum Transcriber {
    Token(Token),
    /// `$name`, with its two tokens.
    Variable {
        dollar: Token,
        word: Token,
        name: Name,
    },
    /// `$crate`.
    Crate {
        dollar: Token,
        word: Token,
    },
    Delimited {
        open: Token,
        body: Items<Transcriber>,
        close: Token,
    },
    /// `$( .. )` with an optional separator, and `+` or `*`.
    Repeat {
        body: Items<Transcriber>,
        separator: Option<Token>,
    },
}

/// An arm of a macro definition.
#[derive(Drop)]
pub struct Arm {
    pub matcher: Items<Matcher>,
    pub transcriber: Items<Transcriber>,
}

/// The rules of a macro: its arms in order.
#[derive(Drop)]
pub struct Rules {
    pub arms: Items<Arm>,
}
