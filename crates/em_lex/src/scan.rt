ghost use Rattle.std.specs.Prelude.{◌≡◌, ◌<◌, ◌≤◌, ◌+◌, ◌^◌, length, IfOk};
ghost use Rattle.em_lex.specs.Scan as spec;

use crate::characters::{char_at, is_blank, is_start};
use crate::literal::literal_step;
use crate::mark::mark_step;
use crate::number::number_step;
use crate::piece::{Form, Piece};
use crate::texts::Texts;
use crate::trivia::{block_comment, line_comment};
use crate::word::{quote_step, word_step};
use em_base::{Edition, NoMemory, rest_from};
use std::alloc::Global;

/// What stands at the front of a text, directly behind a `.` token or not.
#[tactic(auto, unfolding(crate::specs::Scan::step))]
pub fn step(
    alloc: Global,
    texts: &mut Texts,
    edition: Edition,
    dot: bool,
    cs: &[char],
) -> Result<Piece, NoMemory>
    requires some { 1 ≤ length cs.now }
    requires small { 3 + length cs.now < 2 ^ 32 }
    ensures { IfOk result (λ p. p ≡ spec.step edition dot cs.now) }
{
    let c = char_at(cs, 0);
    let next = char_at(cs, 1);
    if is_start(c) {
        word_step(alloc, texts, edition, cs)
    } else if c.is_ascii_digit() {
        Ok(number_step(dot, cs))
    } else if c == '"' {
        literal_step(alloc, false, Form::Quoted, 1, rest_from(cs, 1))
    } else if c == '\'' {
        quote_step(alloc, texts, cs)
    } else if is_blank(c) {
        Ok(Piece::Trivia { len: 1, doc: false })
    } else if c == '/' && next == '/' {
        Ok(line_comment(cs))
    } else if c == '/' && next == '*' {
        Ok(block_comment(cs))
    } else {
        Ok(mark_step(cs))
    }
}
