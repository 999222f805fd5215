use em_base::{Limit, NoMemory};
use thiserror::Error;

/// What is wrong with a text. Of several faults at one offset the first of this list is told.
#[derive(Clone, Copy, Debug, Error, PartialEq, Eq)]
pub enum LexKind {
    /// A byte that doesn't continue UTF-8.
    #[error("no UTF-8")]
    NotUtf8,
    /// A character that begins no token; or, inside a literal, a CR without LF, or one past ASCII in a literal of bytes.
    #[error("a character that has no place here")]
    BadCharacter,
    /// A literal or block comment that the text's end cuts, or a `'` that begins neither a character nor a lifetime.
    #[error("no end")]
    Unclosed,
    /// From 2021 on a prefix that no literal has (Reference, "Reserved prefixes").
    #[error("a reserved prefix")]
    ReservedPrefix,
    /// A number with a fraction, an exponent or the suffix of a float.
    #[error("a floating-point number")]
    Float,
    /// An integer without digits, with a digit that its base doesn't have, or above 2^64 - 1.
    #[error("no number")]
    BadNumber,
    /// A literal directly followed by a word that is no suffix of it.
    #[error("a suffix that the literal does not have")]
    LiteralSuffix,
    /// A backslash with which no escape begins.
    #[error("no escape")]
    BadEscape,
    /// A lifetime directly followed by `'` or `#`.
    #[error("no lifetime")]
    BadLifetime,
    /// `r#` or `br#` with which neither a raw string nor a raw identifier begins.
    #[error("neither a raw string nor a raw identifier")]
    BadRaw,
}

/// Why a text has no tokens. Offsets are in bytes.
#[derive(Clone, Copy, Debug, Error, PartialEq, Eq)]
pub enum LexError {
    #[error("out of memory")]
    NoMemory,
    #[error("at byte {offset}: {kind}")]
    At { offset: u32, kind: LexKind },
    #[error("too large")]
    Limit(Limit),
}

impl From<NoMemory> for LexError {
    ghost use Rattle.std.specs.Prelude.{◌≡◌};
    ghost use Rattle.em_lex.specs.declared.error.LexError.TheVariants.{NoMemory as out_of_memory};

    ghost from_gives = { λ _ e. e ≡ out_of_memory };

    fn from(_error: NoMemory) -> LexError {
        LexError::NoMemory
    }
}
