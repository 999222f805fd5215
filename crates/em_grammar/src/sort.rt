//! What a token is to the grammar.

ghost use Rattle.std.specs.Prelude.{◌≡◌};
ghost use Rattle.em_tree.specs.Starts.{is_name, is_literal, is_lifetime};
ghost use Rattle.em_tree.specs.Tokens.{int_kind};
ghost use Rattle.em_grammar.specs.Sorts.{text_of, written_of, weak_of, class_of, sort_of};

use crate::likely::{is_same, likely, may_be_keyword, may_be_weak};
use em_base::{Class, Token, TokenKind, keyword_in};
use em_tree::spelling;

/// The words and signs that the grammar writes out: the strict keywords of every edition, punctuation with `_`, and
/// delimiters (Reference, "Keywords", "Punctuation" and "Delimiters"), in ascending order of their texts.
#[derive(Clone, Copy, PartialEq, Eq)]
pub enum Written {
    /// `!`
    Not,
    /// `!=`
    Ne,
    /// `#`
    Pound,
    /// `$`
    Dollar,
    /// `%`
    Percent,
    /// `%=`
    PercentEq,
    /// `&`
    And,
    /// `&&`
    AndAnd,
    /// `&=`
    AndEq,
    /// `(`
    OpenParen,
    /// `)`
    CloseParen,
    /// `*`
    Star,
    /// `*=`
    StarEq,
    /// `+`
    Plus,
    /// `+=`
    PlusEq,
    /// `,`
    Comma,
    /// `-`
    Minus,
    /// `-=`
    MinusEq,
    /// `->`
    RArrow,
    /// `.`
    Dot,
    /// `..`
    DotDot,
    /// `...`
    DotDotDot,
    /// `..=`
    DotDotEq,
    /// `/`
    Slash,
    /// `/=`
    SlashEq,
    /// `:`
    Colon,
    /// `::`
    PathSep,
    /// `;`
    Semi,
    /// `<`
    Lt,
    /// `<-`
    LArrow,
    /// `<<`
    Shl,
    /// `<<=`
    ShlEq,
    /// `<=`
    Le,
    /// `=`
    Eq,
    /// `==`
    EqEq,
    /// `=>`
    FatArrow,
    /// `>`
    Gt,
    /// `>=`
    Ge,
    /// `>>`
    Shr,
    /// `>>=`
    ShrEq,
    /// `?`
    Question,
    /// `@`
    At,
    /// `Self`
    SelfType,
    /// `[`
    OpenBracket,
    /// `]`
    CloseBracket,
    /// `^`
    Caret,
    /// `^=`
    CaretEq,
    /// `_`
    Underscore,
    /// `as`
    As,
    /// `break`
    Break,
    /// `const`
    Const,
    /// `continue`
    Continue,
    /// `crate`
    Crate,
    /// `else`
    Else,
    /// `enum`
    Enum,
    /// `extern`
    Extern,
    /// `false`
    False,
    /// `fn`
    Fn,
    /// `for`
    For,
    /// `if`
    If,
    /// `impl`
    Impl,
    /// `in`
    In,
    /// `let`
    Let,
    /// `loop`
    Loop,
    /// `match`
    Match,
    /// `mod`
    Mod,
    /// `move`
    Move,
    /// `mut`
    Mut,
    /// `pub`
    Pub,
    /// `ref`
    Ref,
    /// `return`
    Return,
    /// `self`
    SelfValue,
    /// `static`
    Static,
    /// `struct`
    Struct,
    /// `super`
    Super,
    /// `trait`
    Trait,
    /// `true`
    True,
    /// `type`
    Type,
    /// `unsafe`
    Unsafe,
    /// `use`
    Use,
    /// `where`
    Where,
    /// `while`
    While,
    /// `{`
    OpenBrace,
    /// `|`
    Or,
    /// `|=`
    OrEq,
    /// `||`
    OrOr,
    /// `}`
    CloseBrace,
    /// `~`
    Tilde,
}

/// The names that the grammar writes out in some places.
#[derive(Clone, Copy, PartialEq, Eq)]
pub enum Weak {
    /// `Box`
    Box,
    /// `dyn`, which is a name in 2015 and a keyword from 2018 on
    Dyn,
    /// `macro_rules`
    MacroRules,
}

/// What a token that isn't written out is by its kind.
#[derive(Clone, Copy, PartialEq, Eq)]
pub enum Kind {
    /// An identifier that is raw or no keyword of its text's edition.
    Name,
    Int,
    /// A literal but an integer.
    Literal,
    Lifetime,
    Other,
}

/// What a token is to the grammar: one of the words and signs that it writes out, or what its kind makes it.
#[derive(Clone, Copy, PartialEq, Eq)]
pub enum Sort {
    Written(Written),
    Weak(Weak, Kind),
    Plain(Kind),
}

/// The text of a word or sign.
pub fn text_of(sign: Written) -> &'static str
    ensures { result.now ≡ text_of sign }
{
    match sign {
        Written::Not => "!",
        Written::Ne => "!=",
        Written::Pound => "#",
        Written::Dollar => "$",
        Written::Percent => "%",
        Written::PercentEq => "%=",
        Written::And => "&",
        Written::AndAnd => "&&",
        Written::AndEq => "&=",
        Written::OpenParen => "(",
        Written::CloseParen => ")",
        Written::Star => "*",
        Written::StarEq => "*=",
        Written::Plus => "+",
        Written::PlusEq => "+=",
        Written::Comma => ",",
        Written::Minus => "-",
        Written::MinusEq => "-=",
        Written::RArrow => "->",
        Written::Dot => ".",
        Written::DotDot => "..",
        Written::DotDotDot => "...",
        Written::DotDotEq => "..=",
        Written::Slash => "/",
        Written::SlashEq => "/=",
        Written::Colon => ":",
        Written::PathSep => "::",
        Written::Semi => ";",
        Written::Lt => "<",
        Written::LArrow => "<-",
        Written::Shl => "<<",
        Written::ShlEq => "<<=",
        Written::Le => "<=",
        Written::Eq => "=",
        Written::EqEq => "==",
        Written::FatArrow => "=>",
        Written::Gt => ">",
        Written::Ge => ">=",
        Written::Shr => ">>",
        Written::ShrEq => ">>=",
        Written::Question => "?",
        Written::At => "@",
        Written::SelfType => "Self",
        Written::OpenBracket => "[",
        Written::CloseBracket => "]",
        Written::Caret => "^",
        Written::CaretEq => "^=",
        Written::Underscore => "_",
        Written::As => "as",
        Written::Break => "break",
        Written::Const => "const",
        Written::Continue => "continue",
        Written::Crate => "crate",
        Written::Else => "else",
        Written::Enum => "enum",
        Written::Extern => "extern",
        Written::False => "false",
        Written::Fn => "fn",
        Written::For => "for",
        Written::If => "if",
        Written::Impl => "impl",
        Written::In => "in",
        Written::Let => "let",
        Written::Loop => "loop",
        Written::Match => "match",
        Written::Mod => "mod",
        Written::Move => "move",
        Written::Mut => "mut",
        Written::Pub => "pub",
        Written::Ref => "ref",
        Written::Return => "return",
        Written::SelfValue => "self",
        Written::Static => "static",
        Written::Struct => "struct",
        Written::Super => "super",
        Written::Trait => "trait",
        Written::True => "true",
        Written::Type => "type",
        Written::Unsafe => "unsafe",
        Written::Use => "use",
        Written::Where => "where",
        Written::While => "while",
        Written::OpenBrace => "{",
        Written::Or => "|",
        Written::OrEq => "|=",
        Written::OrOr => "||",
        Written::CloseBrace => "}",
        Written::Tilde => "~",
    }
}

/// The word or sign of the grammar with this text.
#[tactic(auto, using(crate::proofs::LikelyWords::written_by, crate::proofs::LikelyWords::unwritten, crate::proofs::LikelyWords::unlikely))]
fn written_of(text: &str) -> Option<Written>
    ensures { result ≡ written_of text.now }
{
    let word = likely(text)?;
    if is_same(text_of(word), text) {
        Some(word)
    } else {
        None
    }
}

#[tactic(auto, using(crate::proofs::WeakWords::no_weak))]
fn weak_of(text: &str) -> Option<Weak>
    ensures { result ≡ weak_of text.now }
{
    if !may_be_weak(text) {
        return None;
    }
    match text {
        "Box" => Some(Weak::Box),
        "dyn" => Some(Weak::Dyn),
        "macro_rules" => Some(Weak::MacroRules),
        _ => None,
    }
}

fn is_name(token: &Token) -> bool
    ensures { result ≡ is_name token.now }
{
    match &token.kind {
        TokenKind::Ident { name, raw } => {
            *raw || !may_be_keyword(name.as_str())
                || keyword_in(token.edition, name) != Class::Keyword
        }
        _ => false,
    }
}

/// What a token is by its kind.
fn kind_of(token: &Token) -> Kind
    ensures { result ≡ class_of token.now }
{
    if is_name(token) {
        return Kind::Name;
    }
    match token.kind {
        TokenKind::Int { .. } => Kind::Int,
        TokenKind::Char { .. } => Kind::Literal,
        TokenKind::Byte { .. } => Kind::Literal,
        TokenKind::Str { .. } => Kind::Literal,
        TokenKind::ByteStr { .. } => Kind::Literal,
        TokenKind::Lifetime { .. } => Kind::Lifetime,
        _ => Kind::Other,
    }
}

/// What a token is to the grammar. Takes no memory.
#[tactic(auto, unfolding(crate::specs::Sorts::sort_of))]
pub fn sort_of(token: &Token) -> Sort
    ensures { result ≡ sort_of token.now }
{
    let Some(text) = spelling(token) else {
        return Sort::Plain(kind_of(token));
    };
    if let Some(written) = written_of(text) {
        return Sort::Written(written);
    }
    match weak_of(text) {
        Some(weak) => Sort::Weak(weak, kind_of(token)),
        None => Sort::Plain(kind_of(token)),
    }
}
