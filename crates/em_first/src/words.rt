ghost use Rattle.std.specs.Prelude.{◌≡◌};
ghost use Rattle.std.specs.Option.{option_map};
ghost use Rattle.em_base.specs.declared.edition.Edition.TheVariants.{E2015};
ghost use Rattle.em_base.specs.Words.{class_of};
ghost use Rattle.em_first.specs.Form.{said, name_in, greatest, int_in, is_keyword};
ghost use Rattle.em_first.specs.Keyword.{is_taken, is_taken_kind};

use em_base::{Class, Edition, IntKind, Name, Token, TokenKind, keyword_in};

/// The largest `i32`.
const LARGEST: u64 = 2147483647;

/// What a token says: an identifier that isn't raw its name, another token its text.
pub(crate) fn said(token: &Token) -> &str
    ensures { result.now ≡ said token.now.kind token.now.text }
{
    match &token.kind {
        TokenKind::Ident { name, raw: false } => name.as_str(),
        _ => token.text.as_str(),
    }
}

/// Whether a name is a keyword of an edition.
fn is_keyword(edition: Edition, name: &Name) -> bool
    ensures { result ≡ is_keyword (class_of edition name.now) }
{
    match keyword_in(edition, name) {
        Class::Keyword => true,
        Class::Weak => false,
        Class::Ident => false,
    }
}

/// Whether a name is a keyword that came with 2018.
fn is_new(name: &Name) -> bool
    ensures { result ≡ is_taken name.now }
{
    is_keyword(Edition::E2018, name) && !is_keyword(Edition::E2015, name)
}

/// Whether a token of a kind is a word that 2018 takes.
pub(crate) fn is_taken(kind: &TokenKind) -> bool
    ensures { result ≡ is_taken_kind kind.now }
{
    match kind {
        TokenKind::Ident { name, raw } => !raw && is_new(name),
        _ => false,
    }
}

/// The name that a token of a kind names in 2015.
pub(crate) fn name_in(kind: &TokenKind) -> Option<&Name>
    ensures { option_map (λ name. name.now) result ≡ name_in E2015 kind.now }
{
    match kind {
        TokenKind::Ident { name, raw } if *raw || !is_keyword(Edition::E2015, name) => Some(name),
        _ => None,
    }
}

/// The greatest value of an integer literal of the form with this suffix.
fn greatest(suffix: Option<IntKind>) -> u64
    ensures { result ≡ greatest suffix }
{
    match suffix {
        Some(IntKind::I8) => 127,
        Some(IntKind::U8) => 255,
        Some(IntKind::I16) => 32767,
        Some(IntKind::U16) => 65535,
        _ => LARGEST,
    }
}

/// The value of an integer literal of the form.
pub(crate) fn int_in(kind: &TokenKind) -> Option<u64>
    ensures { result ≡ int_in kind.now }
{
    match kind {
        TokenKind::Int { value, suffix } if *value <= greatest(*suffix) => Some(*value),
        _ => None,
    }
}
