ghost use Rattle.std.specs.Prelude.{◌≡◌};
ghost use Rattle.em_lex.specs.Scan as spec;
ghost use Rattle.em_lex.specs.declared.piece.Piece.TheVariants.{Token};

use crate::characters::char_at;
use crate::error::LexKind;
use crate::piece::Piece;
use em_base::TokenKind;

fn is_punct3(a: char, b: char, c: char) -> bool
    ensures { result ≡ spec.is_punct3 a b c }
{
    (a == '<' && b == '<' && c == '=')
        || (a == '>' && b == '>' && c == '=')
        || (a == '.' && b == '.' && (c == '.' || c == '='))
}

fn is_punct2(a: char, b: char) -> bool
    ensures { result ≡ spec.is_punct2 a b }
{
    (b == '=' && takes_equals(a)) || is_pair(a, b)
}

fn takes_equals(a: char) -> bool
    ensures { result ≡ spec.takes_equals a }
{
    matches!(
        a,
        '+' | '-' | '*' | '/' | '%' | '^' | '&' | '|' | '=' | '!' | '<' | '>'
    )
}

fn is_pair(a: char, b: char) -> bool
    ensures { result ≡ spec.is_pair a b }
{
    (a == '&' && b == '&')
        || (a == '|' && b == '|')
        || (a == '<' && b == '<')
        || (a == '>' && b == '>')
        || (a == '.' && b == '.')
        || (a == ':' && b == ':')
        || (a == '-' && b == '>')
        || (a == '<' && b == '-')
        || (a == '=' && b == '>')
}

fn is_punct1(a: char) -> bool
    ensures { result ≡ spec.is_punct1 a }
{
    matches!(
        a,
        '+' | '-'
            | '*'
            | '/'
            | '%'
            | '^'
            | '!'
            | '&'
            | '|'
            | '='
            | '<'
            | '>'
            | '@'
            | '.'
            | ','
            | ';'
            | ':'
            | '#'
            | '$'
            | '?'
            | '~'
    )
}

/// The length of the longest punctuation at the front, or 0.
#[tactic(auto, unfolding(crate::specs::Scan::punct_len))]
fn punct_len(a: char, b: char, c: char) -> usize
    ensures { result ≡ spec.punct_len a b c }
{
    if is_punct3(a, b, c) {
        3
    } else if is_punct2(a, b) {
        2
    } else if is_punct1(a) {
        1
    } else {
        0
    }
}

fn mark(kind: TokenKind, len: usize) -> Piece
    ensures { result ≡ Token kind len }
{
    Piece::Token { kind, len }
}

/// At a delimiter, punctuation, or a character that begins nothing.
#[tactic(auto, unfolding(crate::specs::Scan::mark_step))]
pub fn mark_step(cs: &[char]) -> Piece
    ensures { result ≡ spec.mark_step cs.now }
{
    let c = char_at(cs, 0);
    if matches!(c, '(' | '[' | '{') {
        return mark(TokenKind::Open, 1);
    }
    if matches!(c, ')' | ']' | '}') {
        return mark(TokenKind::Close, 1);
    }
    let len = punct_len(c, char_at(cs, 1), char_at(cs, 2));
    if len == 0 {
        return Piece::Fault {
            kind: LexKind::BadCharacter,
            at: 0,
        };
    }
    mark(TokenKind::Punct, len)
}
