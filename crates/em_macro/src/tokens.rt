//! The token that a matcher wants.

ghost use Rattle.std.specs.Prelude.{◌≡◌, drop};
ghost use Rattle.std.specs.Str.{bytes_eq};
ghost use Rattle.em_macro.specs.Match as law;
ghost use Rattle.em_macro.specs.Run as spec;
ghost use Rattle.em_macro.specs.Given.{Gives};

use crate::error::Stop;
use em_base::{Name, Token, TokenKind, rest_from};
use em_tree::Piece;

/// The pieces from an index on.
pub fn rest(pieces: &[Piece], at: usize) -> &[Piece]
    ensures { result.now ≡ drop at pieces.now }
{
    if at <= pieces.len() {
        rest_from(pieces, at)
    } else {
        rest_from(pieces, pieces.len())
    }
}

fn class(kind: &TokenKind) -> u8
    ensures { result ≡ law.class kind.now }
{
    match kind {
        TokenKind::Ident { .. } => 0,
        TokenKind::Lifetime { .. } => 1,
        TokenKind::Int { .. } => 2,
        TokenKind::Char { .. } => 2,
        TokenKind::Byte { .. } => 2,
        TokenKind::Str { .. } => 2,
        TokenKind::ByteStr { .. } => 2,
        TokenKind::Open => 3,
        TokenKind::Close => 4,
        TokenKind::Punct => 5,
    }
}

fn same_bool(one: bool, other: bool) -> bool
    ensures { result ≡ law.same_bool one other }
{
    if one { other } else { !other }
}

pub fn same_name(one: &Name, other: &Name) -> bool
    ensures { result ≡ bytes_eq one.now other.now }
{
    one.as_str() == other.as_str()
}

fn same_spelling(one: &Token, other: &Token) -> bool
    ensures { result ≡ bytes_eq one.now.text other.now.text }
{
    one.text.as_str() == other.text.as_str()
}

/// Whether a token is the one that a matcher wants.
#[tactic(auto, unfolding(crate::specs::Match::same))]
pub fn same(wanted: &Token, token: &Token) -> bool
    ensures { result ≡ law.same wanted.now token.now }
{
    match (&wanted.kind, &token.kind) {
        (
            TokenKind::Ident { name, raw },
            TokenKind::Ident {
                name: other,
                raw: its,
            },
        ) => { same_name(name, other) && same_bool(*raw, *its) }
        (kind, its) => class(kind) == class(its) && same_spelling(wanted, token),
    }
}

pub fn is_next(wanted: &Token, pieces: &[Piece]) -> bool
    ensures { result ≡ law.is_next wanted.now pieces.now }
{
    match pieces {
        [Piece::Token(token), ..] => same(wanted, token),
        _ => false,
    }
}

/// Passes over the token, if it is the next piece.
#[tactic(auto, using(crate::proofs::Fronts::takes_token))]
pub fn token(wanted: &Token, pieces: &[Piece], at: &mut usize) -> Result<(), Stop>
    ensures { Gives (spec.token wanted.now (drop at.old pieces.now)) result (drop at.new pieces.now) }
{
    if !is_next(wanted, rest(pieces, *at)) {
        return Err(Stop::Fails);
    }
    *at += 1;
    Ok(())
}
