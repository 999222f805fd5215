ghost use Rattle.std.specs.Prelude.{◌≡◌, ◌+◌, ◌≤◌, true, false, length, drop, take, IfOk, MatchOption, IfSome, option_map, Some, None, IsTrue};
ghost use Rattle.em_manifest.specs.Lines as spec;
ghost use Rattle.em_manifest.specs.Places.{IsHeaderAt, IsWithin, line_in, year_place};

use crate::forms::{has_long_quote, year_of, year_on};
use crate::lines::{Line, next_edition_line, next_header};
use em_base::{Bytes, Edition, NoMemory, between, rest_from};
use std::alloc::Global;

/// How many bytes a year has.
const YEAR: usize = 4;

/// The one header of the bytes.
fn the_header(bytes: &[u8]) -> Option<Line>
    ensures { MatchOption result (spec.the_only spec.is_header (spec.lines bytes.now) ≡ None) (IsHeaderAt bytes.now) }
{
    let Some(header) = next_header(bytes, 0) else {
        return None;
    };
    match next_header(bytes, header.next) {
        Some(_) => None,
        None => Some(header),
    }
}

/// The place of the year in a line that tells the edition.
fn before_year(bytes: &[u8], line: Line) -> Option<usize>
    requires within { IsWithin bytes.now line }
    ensures value { IsTrue (spec.is_edition_line (line_in bytes.now line)) → result ≡ Some (line.start + spec.before_year (line_in bytes.now line).text) }
    ensures within { IfSome result (λ at. at + 4 ≤ length bytes.now) }
{
    match year_on(between(bytes, line.start, line.end)) {
        Some(year) => Some(line.end - year.len()),
        None => None,
    }
}

/// The place of the year in the one edition line of a header, behind which these bytes begin.
fn the_year(bytes: &[u8], from: usize) -> Option<usize>
    requires { from ≤ length bytes.now }
    ensures value { result ≡ year_place bytes.now from }
    ensures within { IfSome result (λ at. at + 4 ≤ length bytes.now) }
{
    let Some(line) = next_edition_line(bytes, from) else {
        return None;
    };
    match next_edition_line(bytes, line.next) {
        Some(_) => None,
        None => before_year(bytes, line),
    }
}

/// The bytes with a change made, where no string of several lines may have begun before its place.
fn changed(
    alloc: Global,
    bytes: &[u8],
    at: usize,
    gone: usize,
    text: &[u8],
) -> Result<Option<Bytes>, NoMemory>
    requires { at + gone ≤ length bytes.now }
    ensures { IfOk result (λ new. new ≡ spec.changed bytes.now (record { at = at; gone = gone; text = text.now })) }
{
    let before = between(bytes, 0, at);
    if has_long_quote(before) {
        return Ok(None);
    }
    let mut new = Bytes::from_slice(alloc, before)?;
    new.extend(text)?;
    new.extend(rest_from(bytes, at + gone))?;
    Ok(Some(new))
}

/// A line that tells the edition, with a line's end.
fn edition_line(alloc: Global, edition: Edition, ending: &[u8]) -> Result<Bytes, NoMemory>
    ensures { IfOk result (λ line. line ≡ spec.edition_text edition ending.now) }
{
    let mut line = Bytes::from_slice(alloc, b"edition = \"")?;
    line.extend(year_of(edition).as_bytes())?;
    line.extend(b"\"")?;
    line.extend(ending)?;
    Ok(line)
}

/// The bytes with the edition set, where the lines allow it.
pub fn edited(
    alloc: Global,
    edition: Edition,
    is_there: bool,
    bytes: &[u8],
) -> Result<Option<Bytes>, NoMemory>
    ensures { IfOk result (λ new. new ≡ spec.edited edition is_there bytes.now) }
{
    let Some(header) = the_header(bytes) else {
        return Ok(None);
    };
    if is_there {
        let Some(at) = the_year(bytes, header.next) else {
            return Ok(None);
        };
        return changed(alloc, bytes, at, YEAR, year_of(edition).as_bytes());
    }
    let line = edition_line(alloc, edition, between(bytes, header.end, header.next))?;
    changed(alloc, bytes, header.next, 0, line.as_slice())
}
