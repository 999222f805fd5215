ghost use Rattle.std.specs.Prelude.{◌≡◌, ◌≢◌, ◌<◌, ◌≤◌, ◌+◌, ◌^◌, ◌==◌, ◌&&◌, true, false, length, slice_index, drop, take, IfSome, IfOk, All, encode_utf8_all};
ghost use Rattle.em_lex.specs.declared.piece.Piece.TheVariants.{Fault};
ghost use Rattle.std.specs.List.{prefix_len};
ghost use Rattle.em_lex.specs.Scan as spec;

use crate::characters::{char_at, front, starts_word, text_of};
use crate::error::LexKind;
use crate::piece::{Form, Piece};
use crate::unit::{read, unit_at};
use em_base::{ByteText, NoMemory, Text, TokenKind, rest_from};
use std::alloc::Global;

/// The length of the rest of a string before its `"`.
#[tactic(auto, using(crate::proofs::Indices::steps))]
fn string_len(cs: &[char]) -> Option<usize>
    ensures value { result ≡ spec.string_len false cs.now }
    ensures within { IfSome result (λ n. n < length cs.now) }
{
    let mut used = false;
    'chars: for (at, c) in cs.iter().enumerate() {
        if used {
            used = false;
        } else if *c == '"' {
            return Some(at);
        } else {
            used = *c == '\\';
        }
    }
    None
}

pub fn hash_run(cs: &[char]) -> usize
    ensures value { result ≡ prefix_len spec.hash cs.now }
    ensures within { result ≤ length cs.now }
{
    cs.iter().take_while(|c| **c == '#').count()
}

/// The length of the rest of a raw string before the `"` with so many `#` behind it.
#[tactic(auto, using(crate::proofs::Indices::steps))]
fn raw_len(hashes: usize, cs: &[char]) -> Option<usize>
    ensures value { result ≡ spec.raw_len hashes cs.now }
    ensures within { IfSome result (λ n. n + 1 + hashes ≤ length cs.now) }
{
    'chars: for (at, c) in cs.iter().enumerate() {
        if *c == '"' && hash_run(rest_from(cs, at + 1)) >= hashes {
            return Some(at);
        }
    }
    None
}

fn until_quote(cs: &[char]) -> usize
    ensures value { result ≡ prefix_len spec.no_quote cs.now }
    ensures within { result ≤ length cs.now }
{
    cs.iter().take_while(|c| **c != '\'').count()
}

fn some_if(closes: bool, len: usize) -> Option<usize>
    ensures { result ≡ spec.some_if closes len }
{
    if closes { Some(len) } else { None }
}

/// The length of what stands between two `'`.
#[tactic(auto, unfolding(crate::specs::Scan::single_len))]
pub fn single_len(byte: bool, cs: &[char]) -> Option<usize>
    ensures value { result ≡ spec.single_len byte cs.now }
    ensures within { IfSome result (λ n. n < length cs.now) }
{
    let c = char_at(cs, 0);
    if c != '\\' {
        let one = char_at(cs, 1) == '\'' && !matches!(c, '\'' | '\n' | '\t');
        return some_if(one, 1);
    }
    if let Some(unit) = unit_at(byte, Form::Single, cs) {
        return some_if(char_at(cs, unit.len) == '\'', unit.len);
    }
    if cs.len() < 2 {
        return None;
    }
    let len = 2 + until_quote(rest_from(cs, 2));
    some_if(char_at(cs, len) == '\'', len)
}

fn close_len(byte: bool, form: Form, cs: &[char]) -> Option<usize>
    ensures value { result ≡ spec.close_len byte form cs.now }
    ensures within { IfSome result (λ n. n + spec.closing_len form ≤ length cs.now) }
{
    match form {
        Form::Quoted => string_len(cs),
        Form::Single => single_len(byte, cs),
        Form::Raw(hashes) => raw_len(hashes, cs),
    }
}

fn closing_len(form: Form) -> usize
    requires { spec.closing_len form < 2 ^ 64 }
    ensures { result ≡ spec.closing_len form }
{
    match form {
        Form::Quoted | Form::Single => 1,
        Form::Raw(hashes) => 1 + hashes,
    }
}

/// What is wrong where no unit begins.
fn body_fault(form: Form, c: char) -> LexKind
    ensures { result ≡ spec.body_fault form c }
{
    match form {
        Form::Raw(_) => LexKind::BadCharacter,
        _ if c == '\\' => LexKind::BadEscape,
        _ => LexKind::BadCharacter,
    }
}

/// The bytes of characters that are bytes.
fn bytes_of(alloc: Global, cs: &[char]) -> Result<Vec<u8>, NoMemory>
    requires { All (λ c. c < 256) cs.now }
    ensures { IfOk result (λ v. v.items ≡ cs.now) }
{
    let mut bytes = Vec::new(alloc);
    for c in cs {
        bytes.push(*c as u32 as u8)?;
    }
    Ok(bytes)
}

fn literal_kind(
    alloc: Global,
    byte: bool,
    form: Form,
    value: &[char],
) -> Result<TokenKind, NoMemory>
    requires { byte ≡ true → All (λ c. c < 256) value.now }
    ensures { IfOk result (λ k. k ≡ spec.literal_kind byte form value.now) }
{
    if form == Form::Single {
        let value = char_at(value, 0);
        return Ok(if byte {
            TokenKind::Byte {
                value: value as u32 as u8,
            }
        } else {
            TokenKind::Char { value }
        });
    }
    if byte {
        return Ok(TokenKind::ByteStr {
            value: ByteText::from_vec(bytes_of(alloc, value)?)?,
        });
    }
    Ok(TokenKind::Str {
        value: Text::from_string(text_of(alloc, value)?)?,
    })
}

fn fault(kind: LexKind) -> Piece
    ensures { result ≡ Fault kind 0 }
{
    Piece::Fault { kind, at: 0 }
}

/// Behind the opening of a literal, which has so many characters.
#[tactic(auto, unfolding(crate::specs::Scan::literal_step))]
pub fn literal_step(
    alloc: Global,
    byte: bool,
    form: Form,
    at: usize,
    cs: &[char],
) -> Result<Piece, NoMemory>
    requires { at + length cs.now < 2 ^ 32 }
    ensures { IfOk result (λ p. p ≡ spec.literal_step byte form at cs.now) }
{
    let Some(len) = close_len(byte, form, cs) else {
        return Ok(fault(LexKind::Unclosed));
    };
    let end = len + closing_len(form);
    if starts_word(rest_from(cs, end)) {
        return Ok(fault(LexKind::LiteralSuffix));
    }
    let body = front(cs, len);
    let reading = read(alloc, byte, form, body)?;
    if let Some(bad) = reading.bad {
        return Ok(Piece::Fault {
            kind: body_fault(form, body[bad]),
            at: at + bad,
        });
    }
    Ok(Piece::Token {
        kind: literal_kind(alloc, byte, form, &reading.value)?,
        len: at + end,
    })
}
