ghost use Rattle.std.specs.Prelude.{◌≡◌, ◌≢◌, ◌<◌, ◌≤◌, ◌+◌, ◌^◌, ◌==◌, ◌||◌, true, false, length, slice_index, Some, None, drop, take};
ghost use Rattle.std.specs.List.{prefix_len};
ghost use Rattle.em_lex.specs.Scan as spec;

use crate::characters::{char_at, front, is_same, run};
use crate::error::LexKind;
use crate::piece::Piece;
use em_base::{IntKind, TokenKind, rest_from};
use unicode_ident::is_xid_start;

/// The number with one digit more, where it is a digit of the base and fits.
fn digit_after(base: u32, value: u64, c: char) -> Option<u64>
    requires low { 2 ≤ base }
    requires high { base ≤ 16 }
    ensures { result ≡ spec.digit_after base value c }
{
    let digit = c.to_digit(base)?;
    let next = u128::from(value) * u128::from(base) + u128::from(digit);
    if next > u64::MAX as u128 {
        return None;
    }
    Some(next as u64)
}

/// The number that the digits write, where there is one that fits.
#[tactic(auto, using(crate::proofs::Indices::value_steps))]
pub fn number_value(base: u32, cs: &[char]) -> Option<u64>
    requires low { 2 ≤ base }
    requires high { base ≤ 16 }
    ensures value { result ≡ spec.value_from base false 0 cs.now }
{
    let mut value = 0u64;
    let mut some = false;
    'digits: for c in cs {
        if *c != '_' {
            let Some(next) = digit_after(base, value, *c) else {
                return None;
            };
            value = next;
            some = true;
        }
    }
    if some { Some(value) } else { None }
}

/// The base that the front of a number tells.
fn radix_of(dot: bool, w: &[char]) -> u32
    ensures value { result ≡ spec.radix_of dot w.now }
    ensures low { 2 ≤ result }
    ensures high { result ≤ 16 }
    ensures prefix { result ≢ 10 → 2 ≤ length w.now }
{
    if dot || char_at(w, 0) != '0' {
        return 10;
    }
    match char_at(w, 1) {
        'x' => 16,
        'o' => 8,
        'b' => 2,
        _ => 10,
    }
}

fn is_part(dot: bool, base: u32, c: char) -> bool
    ensures { result ≡ spec.digit_part dot base c }
{
    let digit = if base == 16 {
        c.is_ascii_hexdigit()
    } else {
        c.is_ascii_digit()
    };
    (!dot && c == '_') || digit
}

fn part_len(dot: bool, base: u32, cs: &[char]) -> usize
    ensures value { result ≡ prefix_len (spec.digit_part dot base) cs.now }
    ensures within { result ≤ length cs.now }
{
    cs.iter().take_while(|c| is_part(dot, base, **c)).count()
}

fn mark_len(base: u32) -> usize
    ensures value { result ≡ spec.mark_len base }
    ensures within { result ≤ 2 }
    ensures none { base ≡ 10 → result ≡ 0 }
{
    if base == 10 { 0 } else { 2 }
}

/// The suffix of an integer that these characters are.
fn suffix_of(dot: bool, tail: &[char]) -> Option<Option<IntKind>>
    ensures { result ≡ spec.suffix_of dot tail.now }
{
    if is_same(tail, &[]) {
        return Some(None);
    }
    if dot {
        return None;
    }
    let kind = if is_same(tail, &['i', '8']) {
        IntKind::I8
    } else if is_same(tail, &['i', '1', '6']) {
        IntKind::I16
    } else if is_same(tail, &['i', '3', '2']) {
        IntKind::I32
    } else if is_same(tail, &['i', '6', '4']) {
        IntKind::I64
    } else if is_same(tail, &['i', 's', 'i', 'z', 'e']) {
        IntKind::Isize
    } else if is_same(tail, &['u', '8']) {
        IntKind::U8
    } else if is_same(tail, &['u', '1', '6']) {
        IntKind::U16
    } else if is_same(tail, &['u', '3', '2']) {
        IntKind::U32
    } else if is_same(tail, &['u', '6', '4']) {
        IntKind::U64
    } else if is_same(tail, &['u', 's', 'i', 'z', 'e']) {
        IntKind::Usize
    } else {
        return None;
    };
    Some(Some(kind))
}

/// Whether a fraction follows.
fn is_point(cs: &[char]) -> bool
    ensures { result ≡ spec.point_at cs.now }
{
    let next = char_at(cs, 1);
    char_at(cs, 0) == '.' && !(next == '.' || next == '_' || is_xid_start(next))
}

/// Whether decimal digits with this behind them are a floating-point number.
fn is_float(tail: &[char], cs: &[char]) -> bool
    ensures { result ≡ spec.float_tail tail.now cs.now }
{
    let c = char_at(tail, 0);
    c == 'e'
        || c == 'E'
        || is_same(tail, &['f', '3', '2'])
        || is_same(tail, &['f', '6', '4'])
        || (is_same(tail, &[]) && is_point(cs))
}

fn number_end(len: usize, value: Option<u64>, suffix: Option<Option<IntKind>>) -> Piece
    ensures { result ≡ spec.number_end len value suffix }
{
    let Some(value) = value else {
        return Piece::Fault {
            kind: LexKind::BadNumber,
            at: 0,
        };
    };
    match suffix {
        None => Piece::Fault {
            kind: LexKind::LiteralSuffix,
            at: 0,
        },
        Some(suffix) => Piece::Token {
            kind: TokenKind::Int { value, suffix },
            len,
        },
    }
}

/// The number of a word, before what follows.
#[tactic(auto, unfolding(crate::specs::Scan::number_of))]
fn number_of(dot: bool, w: &[char], after: &[char]) -> Piece
    ensures { result ≡ spec.number_of dot w.now after.now }
{
    let base = radix_of(dot, w);
    let digits = rest_from(w, mark_len(base));
    let len = part_len(dot, base, digits);
    let tail = rest_from(digits, len);
    if !dot && base == 10 && is_float(tail, after) {
        return Piece::Fault {
            kind: LexKind::Float,
            at: 0,
        };
    }
    number_end(
        w.len(),
        number_value(base, front(digits, len)),
        suffix_of(dot, tail),
    )
}

/// At a digit, which stands directly behind a `.` token or not.
#[tactic(auto, unfolding(crate::specs::Scan::number_step))]
pub fn number_step(dot: bool, cs: &[char]) -> Piece
    ensures { result ≡ spec.number_step dot cs.now }
{
    let len = run(cs);
    number_of(dot, front(cs, len), rest_from(cs, len))
}
