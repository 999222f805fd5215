ghost use Rattle.std.specs.Prelude.{◌≡◌, ◌≢◌, ◌<◌, ◌≤◌, ◌==◌, nat_eq, true, length, slice_index, take, IfOk, string_bytes, encode_utf8_all};
ghost use Rattle.std.specs.List.{prefix_len, starts_with};
ghost use Rattle.std.specs.Str.{bytes_eq};
ghost use Rattle.unicode_ident.specs.Ident.{is_xid_continue};
ghost use Rattle.em_base.specs.Names.{is_start};
ghost use Rattle.em_lex.specs.Characters.{is_blank};
ghost use Rattle.em_lex.specs.Scan as spec;

use em_base::{NoMemory, between};
use std::alloc::Global;
use unicode_ident::{is_xid_continue, is_xid_start};

/// The character at an index, or NUL past the end.
pub fn char_at(cs: &[char], index: usize) -> char
    ensures value { result ≡ slice_index cs.now index }
    ensures within { result ≢ 0 → index < length cs.now }
{
    if index < cs.len() { cs[index] } else { '\0' }
}

/// The first characters.
pub fn front(cs: &[char], len: usize) -> &[char]
    requires { len ≤ length cs.now }
    ensures { result.now ≡ take len cs.now }
{
    between(cs, 0, len)
}

pub fn is_blank(c: char) -> bool
    ensures { result ≡ is_blank c }
{
    matches!(
        c,
        '\t'..='\r' | ' ' | '\u{85}' | '\u{200e}' | '\u{200f}' | '\u{2028}' | '\u{2029}'
    )
}

#[tactic(auto, using(crate::proofs::Base::ascii))]
pub fn is_start(c: char) -> bool
    ensures { result ≡ is_start c }
{
    if c.is_ascii() {
        c == '_' || c.is_ascii_alphabetic()
    } else {
        c == '_' || is_xid_start(c)
    }
}

#[tactic(auto, using(crate::proofs::Base::ascii))]
fn is_continue(c: char) -> bool
    ensures { result ≡ is_xid_continue c }
{
    if c.is_ascii() {
        c.is_ascii_alphanumeric() || c == '_'
    } else {
        is_xid_continue(c)
    }
}

/// Whether a word stands at the front.
pub fn starts_word(cs: &[char]) -> bool
    ensures { result ≡ spec.starts_word cs.now }
{
    match cs {
        [first, ..] => is_start(*first),
        [] => false,
    }
}

fn continues(cs: &[char]) -> usize
    ensures value { result ≡ prefix_len is_xid_continue cs.now }
    ensures within { result ≤ length cs.now }
{
    cs.iter().take_while(|c| is_continue(**c)).count()
}

/// The length of the first character and those of words behind it.
pub fn run(cs: &[char]) -> usize
    ensures value { result ≡ spec.run cs.now }
    ensures within { result ≤ length cs.now }
{
    match cs {
        [_, rest @ ..] => 1 + continues(rest),
        [] => 0,
    }
}

pub fn is_same(cs: &[char], others: &[char]) -> bool
    ensures { result ≡ bytes_eq cs.now others.now }
{
    cs == others
}

pub fn is_fronted(cs: &[char], mark: &[char]) -> bool
    ensures { result ≡ starts_with nat_eq cs.now mark.now }
{
    cs.starts_with(mark)
}

/// The text of the characters.
pub fn text_of(alloc: Global, cs: &[char]) -> Result<String, NoMemory>
    ensures { IfOk result (λ s. string_bytes s ≡ encode_utf8_all cs.now) }
{
    let mut text = String::with_capacity(alloc, cs.len())?;
    for c in cs {
        text.push(*c)?;
    }
    Ok(text)
}

pub fn vec_of(alloc: Global, cs: &[char]) -> Result<Vec<char>, NoMemory>
    ensures { IfOk result (λ v. v.items ≡ cs.now) }
{
    Ok(Vec::from_slice(alloc, cs)?)
}
