ghost use Rattle.std.specs.Prelude.{◌≡◌, ◌==◌, ◌<◌, ◌≤◌, false, length, drop, MatchOption, option_copied, option_map};
ghost use Rattle.std.specs.List.{position_or_len, list_any};
ghost use Rattle.em_manifest.specs.Lines as spec;
ghost use Rattle.em_manifest.specs.Places.{ends_return, IsLineAt, IsFirst};

use crate::forms::{begins_table, is_edition_line, is_header};
use em_base::{between, rest_from};

/// A line of a text: where it begins, where its end begins, and where the next line begins.
#[derive(Clone, Copy, Debug, PartialEq, Eq)]
pub struct Line {
    pub start: usize,
    pub end: usize,
    pub next: usize,
}

/// How many bytes stand before the first line feed.
fn before_line_feed(bytes: &[u8]) -> usize
    ensures value { result ≡ position_or_len (λ b. b == 10) bytes.now }
    ensures within { result ≤ length bytes.now }
{
    for (i, byte) in bytes.iter().enumerate() {
        if *byte == b'\n' {
            return i;
        }
    }
    bytes.len()
}

/// One where a carriage return is the last byte, else none.
fn returns_at_end(text: &[u8]) -> usize
    ensures { result ≡ ends_return text.now }
{
    match text {
        [.., last] if *last == b'\r' => 1,
        _ => 0,
    }
}

/// The line that begins at a place.
fn line_at(bytes: &[u8], start: usize) -> Line
    requires { start < length bytes.now }
    ensures { IsLineAt bytes.now start result }
{
    let rest = rest_from(bytes, start);
    let size = before_line_feed(rest);
    if size == rest.len() {
        return Line {
            start,
            end: bytes.len(),
            next: bytes.len(),
        };
    }
    let returns = returns_at_end(between(rest, 0, size));
    Line {
        start,
        end: start + (size - returns),
        next: start + size + 1,
    }
}

/// The first header from a line's place on.
pub fn next_header(bytes: &[u8], from: usize) -> Option<Line>
    requires { from ≤ length bytes.now }
    ensures { MatchOption result (list_any spec.is_header (spec.lines (drop from bytes.now)) ≡ false) (λ place. IsFirst spec.is_header (spec.lines (drop from bytes.now)) (spec.lines (drop place.next bytes.now)) bytes.now from place) }
{
    let mut at = from;
    while at < bytes.len() {
        let line = line_at(bytes, at);
        if is_header(between(bytes, line.start, line.end)) {
            return Some(line);
        }
        at = line.next;
    }
    None
}

/// The first line from a line's place on that tells the edition, before the next that begins with `[`.
pub fn next_edition_line(bytes: &[u8], from: usize) -> Option<Line>
    requires { from ≤ length bytes.now }
    ensures { MatchOption result (list_any spec.is_edition_line (spec.own_lines (spec.lines (drop from bytes.now))) ≡ false) (λ place. IsFirst spec.is_edition_line (spec.own_lines (spec.lines (drop from bytes.now))) (spec.own_lines (spec.lines (drop place.next bytes.now))) bytes.now from place) }
{
    let mut at = from;
    while at < bytes.len() {
        let line = line_at(bytes, at);
        let text = between(bytes, line.start, line.end);
        if begins_table(text) {
            return None;
        }
        if is_edition_line(text) {
            return Some(line);
        }
        at = line.next;
    }
    None
}
