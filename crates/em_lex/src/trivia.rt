ghost use Rattle.std.specs.Prelude.{◌≡◌, ◌≢◌, ◌<◌, ◌≤◌, ◌+◌, ◌==◌, ◌&&◌, true, false, length, slice_index, drop, IfSome};
ghost use Rattle.std.specs.List.{prefix_len};
ghost use Rattle.em_lex.specs.Characters.{not_line_feed};
ghost use Rattle.em_lex.specs.Scan as spec;

use crate::characters::{char_at, front, is_fronted};
use crate::error::LexKind;
use crate::piece::Piece;
use em_base::rest_from;

fn line_len(cs: &[char]) -> usize
    ensures value { result ≡ prefix_len not_line_feed cs.now }
    ensures within { result ≤ length cs.now }
{
    cs.iter().take_while(|c| **c != '\n').count()
}

/// Whether these two characters stand at an index.
fn is_mark(cs: &[char], at: usize, left: char, right: char) -> bool
    requires { right ≢ 0 }
    ensures value { result ≡ (slice_index cs.now at == left && slice_index cs.now (at + 1) == right) }
    ensures within { result ≡ true → at + 1 < length cs.now }
{
    char_at(cs, at) == left && at < cs.len() && char_at(cs, at + 1) == right
}

/// The length of the rest of a block comment.
#[tactic(auto, using(crate::proofs::Indices::steps))]
fn block_len(cs: &[char]) -> Option<usize>
    ensures value { result ≡ spec.block_len 0 false cs.now }
    ensures within { IfSome result (λ n. n ≤ length cs.now) }
{
    let mut depth = 0usize;
    let mut at = 0usize;
    'marks: while at < cs.len() {
        if is_mark(cs, at, '*', '/') {
            if depth == 0 {
                return Some(at + 2);
            }
            depth -= 1;
            at += 2;
        } else if is_mark(cs, at, '/', '*') {
            depth += 1;
            at += 2;
        } else {
            at += 1;
        }
    }
    None
}

/// Whether a comment is a doc comment (Reference, "Doc comments").
fn is_doc(comment: &[char]) -> bool
    ensures { result ≡ spec.doc_comment comment.now }
{
    is_outer_line(comment)
        || is_fronted(comment, &['/', '/', '!'])
        || is_outer_block(comment)
        || is_fronted(comment, &['/', '*', '!'])
}

fn is_outer_line(comment: &[char]) -> bool
    ensures { result ≡ spec.outer_line comment.now }
{
    is_fronted(comment, &['/', '/', '/']) && !is_fronted(comment, &['/', '/', '/', '/'])
}

fn is_outer_block(comment: &[char]) -> bool
    ensures { result ≡ spec.outer_block comment.now }
{
    is_fronted(comment, &['/', '*', '*'])
        && !(is_fronted(comment, &['/', '*', '*', '*'])
            || is_fronted(comment, &['/', '*', '*', '/']))
}

fn comment(cs: &[char], len: usize) -> Piece
    requires { len ≤ length cs.now }
    ensures { result ≡ spec.trivia_of cs.now len }
{
    Piece::Trivia {
        len,
        doc: is_doc(front(cs, len)),
    }
}

/// At `//`.
pub fn line_comment(cs: &[char]) -> Piece
    ensures { result ≡ spec.trivia_of cs.now (prefix_len not_line_feed cs.now) }
{
    comment(cs, line_len(cs))
}

/// At `/*`.
pub fn block_comment(cs: &[char]) -> Piece
    requires { 2 ≤ length cs.now }
    ensures { result ≡ spec.block_of cs.now (spec.block_len 0 false (drop 2 cs.now)) }
{
    match block_len(rest_from(cs, 2)) {
        Some(len) => comment(cs, 2 + len),
        None => Piece::Fault {
            kind: LexKind::Unclosed,
            at: 0,
        },
    }
}
