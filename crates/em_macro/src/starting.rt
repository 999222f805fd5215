//! What a match can start with.

ghost use Rattle.std.specs.Prelude.{◌≡◌, drop};
ghost use Rattle.em_macro.specs.declared.rules.Matcher.{out-Matcher};
ghost use Rattle.em_macro.specs.Match as law;

use crate::rules::Matcher;
use crate::tokens::{is_next, rest};
use em_base::Token;
use em_tree::{Piece, starts};

fn is_separator(separator: &Option<Token>, pieces: &[Piece]) -> bool
    ensures { result ≡ law.is_sep separator.now pieces.now }
{
    match separator {
        Some(token) => is_next(token, pieces),
        None => false,
    }
}

#[cycle(empty)]
pub fn empty_node(depth: usize, matcher: &Matcher) -> bool
    ensures { result ≡ law.empty_node (law.can_be_empty depth) (out-Matcher matcher.now) }
{
    match matcher {
        Matcher::Repeat {
            body,
            plus: true,
            ..
        } => can_be_empty(depth, body.as_slice()),
        Matcher::Repeat { plus: false, .. } => true,
        _ => false,
    }
}

/// Whether the matcher can match nothing.
#[cycle(empty)]
pub fn can_be_empty(depth: usize, matchers: &[Matcher]) -> bool
    ensures { result ≡ law.can_be_empty depth matchers.now }
{
    if depth == 0 {
        return false;
    }
    for matcher in matchers {
        if !empty_node(depth - 1, matcher) {
            return false;
        }
    }
    true
}

#[cycle(first)]
fn first_node(depth: usize, matcher: &Matcher, pieces: &[Piece]) -> bool
    ensures { result ≡ law.first_node (law.can_be_empty depth) (law.first depth) (out-Matcher matcher.now) pieces.now }
{
    match matcher {
        Matcher::Token(token) => is_next(token, pieces),
        Matcher::Fragment { specifier, .. } => starts(specifier.kind, specifier.edition, pieces),
        Matcher::Delimited { open, .. } => is_next(open, pieces),
        Matcher::Repeat {
            body,
            separator,
            ..
        } => {
            first(depth, body.as_slice(), pieces)
                || can_be_empty(depth, body.as_slice()) && is_separator(separator, pieces)
        }
    }
}

/// Whether a match can begin with the next piece.
#[cycle(first)]
pub fn first(depth: usize, matchers: &[Matcher], pieces: &[Piece]) -> bool
    ensures { result ≡ law.first depth matchers.now pieces.now }
{
    if depth == 0 {
        return false;
    }
    for matcher in matchers {
        if first_node(depth - 1, matcher, pieces) {
            return true;
        }
        if !empty_node(depth - 1, matcher) {
            return false;
        }
    }
    false
}

/// Whether a repetition goes on after a copy.
pub fn goes_on(depth: usize, body: &[Matcher], separator: &Option<Token>, pieces: &[Piece]) -> bool
    ensures { result ≡ law.continues (law.first depth body.now) separator.now pieces.now }
{
    match separator {
        Some(token) => is_next(token, pieces),
        None => first(depth, body, pieces),
    }
}
