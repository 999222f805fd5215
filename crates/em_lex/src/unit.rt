ghost use Rattle.std.specs.Prelude.{◌≡◌, ◌<◌, ◌≤◌, ◌+◌, ◌*◌, ◌^◌, ◌==◌, ◌&&◌, ◌||◌, not, nat_lt, true, false, length, slice_index, drop, [], ◌∷◌, ◌++◌, IfSome, IfOk, OnOk};
ghost use Rattle.std.specs.Char.{is_ascii_hexdigit, digit_value};
ghost use Rattle.std.specs.List.{prefix_len, count_by};
ghost use Rattle.em_lex.specs.Scan as spec;

use crate::characters::{char_at, front};
use crate::number::number_value;
use crate::piece::{Form, Unit};
use em_base::{NoMemory, rest_from};
use std::alloc::Global;

fn unit(len: usize, value: char) -> Option<Unit>
    ensures { result ≡ spec.unit_of len value }
{
    Some(Unit {
        len,
        value: Some(value),
    })
}

/// What a character behind a backslash denotes, where the two are an escape.
fn simple_at(c: char) -> Option<char>
    ensures { result ≡ spec.simple_at c }
{
    match c {
        'n' => Some('\n'),
        'r' => Some('\r'),
        't' => Some('\t'),
        '0' => Some('\0'),
        '\\' | '\'' | '"' => Some(c),
        _ => None,
    }
}

fn is_code_part(c: char) -> bool
    ensures { result ≡ spec.code_part c }
{
    c.is_ascii_hexdigit() || c == '_'
}

fn code_run(cs: &[char]) -> usize
    ensures value { result ≡ prefix_len spec.code_part cs.now }
    ensures within { result ≤ length cs.now }
{
    cs.iter().take_while(|c| is_code_part(**c)).count()
}

fn hexdigits(cs: &[char]) -> usize
    ensures { result ≡ count_by is_ascii_hexdigit cs.now }
{
    cs.iter().filter(|c| c.is_ascii_hexdigit()).count()
}

/// The unit of a character of this code, where there is one.
fn scalar_unit(len: usize, code: Option<u64>) -> Option<Unit>
    ensures { result ≡ spec.scalar_unit len code }
{
    let code = code?;
    if code < 0xd800 || (0xe000 <= code && code < 0x11_0000) {
        let value = char::from_u32(code as u32)?;
        unit(len, value)
    } else {
        None
    }
}

/// Behind `\u{`.
fn unicode_at(cs: &[char]) -> Option<Unit>
    ensures { result ≡ spec.unicode_at cs.now }
{
    let len = code_run(cs);
    let part = front(cs, len);
    if char_at(cs, len) == '}' && char_at(cs, 0).is_ascii_hexdigit() && hexdigits(part) <= 6 {
        scalar_unit(len + 4, number_value(16, part))
    } else {
        None
    }
}

fn digit(c: char) -> u32
    requires { is_ascii_hexdigit c ≡ true }
    ensures value { result ≡ digit_value c }
    ensures small { result < 16 }
{
    c.to_digit(16).unwrap_or(0)
}

/// Behind `\x`: these two.
fn code_at(byte: bool, a: char, b: char) -> Option<Unit>
    ensures { result ≡ spec.code_at byte a b }
{
    if a.is_ascii_hexdigit() && b.is_ascii_hexdigit() && (byte || digit(a) < 8) {
        let value = char::from_u32(digit(a) * 16 + digit(b))?;
        unit(4, value)
    } else {
        None
    }
}

fn is_skipped(c: char) -> bool
    ensures { result ≡ spec.skipped c }
{
    matches!(c, ' ' | '\t' | '\n' | '\r')
}

fn skipped_run(cs: &[char]) -> usize
    ensures value { result ≡ prefix_len spec.skipped cs.now }
    ensures within { result ≤ length cs.now }
{
    cs.iter().take_while(|c| is_skipped(**c)).count()
}

fn is_line_end(cs: &[char]) -> bool
    ensures { result ≡ spec.is_line_end cs.now }
{
    char_at(cs, 0) == '\n' || (char_at(cs, 0) == '\r' && char_at(cs, 1) == '\n')
}

fn is_quoted(form: Form) -> bool
    ensures { result ≡ spec.quoted_form form }
{
    match form {
        Form::Quoted => true,
        _ => false,
    }
}

fn other_escape(byte: bool, form: Form, cs: &[char]) -> Option<Unit>
    ensures { result ≡ spec.other_escape byte form cs.now }
{
    let c = char_at(cs, 0);
    if c == 'x' {
        code_at(byte, char_at(cs, 1), char_at(cs, 2))
    } else if c == 'u' && char_at(cs, 1) == '{' && !byte {
        unicode_at(rest_from(cs, 2))
    } else if is_quoted(form) && is_line_end(cs) {
        Some(Unit {
            len: 1 + skipped_run(cs),
            value: None,
        })
    } else {
        None
    }
}

/// Behind a backslash.
fn escape_at(byte: bool, form: Form, cs: &[char]) -> Option<Unit>
    ensures { result ≡ spec.escape_at byte form cs.now }
{
    match simple_at(char_at(cs, 0)) {
        Some(value) => unit(2, value),
        None => other_escape(byte, form, cs),
    }
}

fn is_raw(form: Form) -> bool
    ensures { result ≡ spec.raw_form form }
{
    match form {
        Form::Raw(_) => true,
        _ => false,
    }
}

/// Whether a character stands for itself in a literal of this form.
fn stands(form: Form, c: char) -> bool
    ensures { result ≡ spec.stands form c }
{
    match form {
        Form::Quoted => !matches!(c, '"' | '\\' | '\r'),
        Form::Single => !matches!(c, '\'' | '\\' | '\n' | '\r' | '\t'),
        Form::Raw(_) => c != '\r',
    }
}

/// The unit at the front of what is left of the body of a literal.
#[tactic(auto, using(crate::proofs::ReadOn::unit_within))]
pub fn unit_at(byte: bool, form: Form, cs: &[char]) -> Option<Unit>
    ensures value { result ≡ spec.unit_at byte form cs.now }
    ensures within { IfSome result (λ u. (1 ≤ u.len) × (u.len ≤ length cs.now)) }
{
    front_unit(byte, form, cs)
}

#[tactic(auto, unfolding(crate::specs::Scan::unit_at))]
fn front_unit(byte: bool, form: Form, cs: &[char]) -> Option<Unit>
    ensures { result ≡ spec.unit_at byte form cs.now }
{
    let (c, rest) = cs.split_first()?;
    if *c == '\\' && !is_raw(form) {
        escape_at(byte, form, rest)
    } else if *c == '\r' {
        if form != Form::Single && char_at(rest, 0) == '\n' {
            unit(2, '\n')
        } else {
            None
        }
    } else if stands(form, *c) && (!byte || c.is_ascii()) {
        unit(1, *c)
    } else {
        None
    }
}

/// The characters that a body denotes, up to where no unit begins.
#[derive(Debug, Drop)]
pub struct Reading {
    pub bad: Option<usize>,
    pub value: Vec<char>,
}

/// Puts the character of a unit at the end.
fn keep(value: &mut Vec<char>, c: Option<char>) -> Result<(), NoMemory>
    ensures { OnOk result (value.new.items ≡ value.old.items ++ spec.listed c) }
{
    if let Some(c) = c {
        value.push(c)?;
    }
    Ok(())
}

/// What a body denotes.
#[tactic(auto, using(crate::proofs::Indices::reading_steps))]
pub fn read(alloc: Global, byte: bool, form: Form, cs: &[char]) -> Result<Reading, NoMemory>
    ensures bad { IfOk result (λ r. r.bad ≡ (spec.read byte form 0 cs.now).bad) }
    ensures value { IfOk result (λ r. r.value.items ≡ (spec.read byte form 0 cs.now).value) }
    ensures within { IfOk result (λ r. IfSome r.bad (λ n. n < length cs.now)) }
{
    let mut value = Vec::new(alloc);
    let mut at = 0usize;
    'units: while at < cs.len() {
        let Some(unit) = unit_at(byte, form, rest_from(cs, at)) else {
            return Ok(Reading {
                bad: Some(at),
                value,
            });
        };
        keep(&mut value, unit.value)?;
        at += unit.len;
    }
    Ok(Reading { bad: None, value })
}
