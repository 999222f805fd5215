ghost use Rattle.std.specs.Prelude.{◌≡◌, ◌<◌, ◌≤◌, ◌+◌, ◌^◌, length, slice_index, drop, take, IfOk};
ghost use Rattle.em_lex.specs.declared.piece.Piece.TheVariants.{Fault};
ghost use Rattle.em_lex.specs.Scan as spec;

use crate::characters::{char_at, front, is_same, run, starts_word};
use crate::error::LexKind;
use crate::literal::{hash_run, literal_step, single_len};
use crate::piece::{Form, Piece};
use crate::texts::Texts;
use em_base::{Edition, NoMemory, TokenKind, rest_from};
use std::alloc::Global;

fn fault(kind: LexKind) -> Piece
    ensures { result ≡ Fault kind 0 }
{
    Piece::Fault { kind, at: 0 }
}

/// A word that nothing is added to.
fn plain_word(alloc: Global, texts: &mut Texts, word: &[char]) -> Result<Piece, NoMemory>
    ensures { IfOk result (λ p. p ≡ spec.plain_word word.now (length word.now)) }
{
    let len = word.len();
    if is_same(word, &['_']) {
        return Ok(Piece::Token {
            kind: TokenKind::Punct,
            len,
        });
    }
    Ok(Piece::Token {
        kind: TokenKind::Ident {
            name: texts.name(alloc, word)?,
            raw: false,
        },
        len,
    })
}

/// A word before a character with which it is a reserved prefix.
fn prefixed(
    alloc: Global,
    texts: &mut Texts,
    edition: Edition,
    word: &[char],
) -> Result<Piece, NoMemory>
    ensures { IfOk result (λ p. p ≡ spec.prefixed edition word.now (length word.now)) }
{
    if edition == Edition::E2021 {
        return Ok(fault(LexKind::ReservedPrefix));
    }
    plain_word(alloc, texts, word)
}

/// Whether a name has no raw form.
fn not_raw(name: &str) -> bool
    ensures { result ≡ spec.not_raw name.now }
{
    name == "crate" || name == "self" || name == "super" || name == "Self"
}

/// Behind `r#`.
fn raw_word(alloc: Global, texts: &mut Texts, cs: &[char]) -> Result<Piece, NoMemory>
    requires small { length cs.now < 2 ^ 32 }
    ensures { IfOk result (λ p. p ≡ spec.raw_word cs.now) }
{
    let len = run(cs);
    let word = front(cs, len);
    if !starts_word(cs) || is_same(word, &['_']) {
        return Ok(fault(LexKind::BadRaw));
    }
    let name = texts.name(alloc, word)?;
    if not_raw(name.as_str()) {
        return Ok(fault(LexKind::BadRaw));
    }
    Ok(Piece::Token {
        kind: TokenKind::Ident { name, raw: true },
        len: 2 + len,
    })
}

/// Behind `r` or `br`, at a `#`.
fn hash_step(
    alloc: Global,
    texts: &mut Texts,
    byte: bool,
    at: usize,
    cs: &[char],
) -> Result<Piece, NoMemory>
    requires some { 1 ≤ length cs.now }
    requires small { at + length cs.now < 2 ^ 32 }
    ensures { IfOk result (λ p. p ≡ spec.hash_step byte at cs.now) }
{
    let hashes = hash_run(cs);
    if char_at(cs, hashes) == '"' {
        let rest = rest_from(cs, hashes + 1);
        return literal_step(alloc, byte, Form::Raw(hashes), at + hashes + 1, rest);
    }
    if byte {
        return Ok(fault(LexKind::BadRaw));
    }
    raw_word(alloc, texts, rest_from(cs, 1))
}

/// A word before a `"`.
fn word_before_quote(
    alloc: Global,
    texts: &mut Texts,
    edition: Edition,
    word: &[char],
    cs: &[char],
) -> Result<Piece, NoMemory>
    requires some { 1 ≤ length cs.now }
    requires small { 3 + length cs.now < 2 ^ 32 }
    ensures { IfOk result (λ p. p ≡ spec.word_before_quote edition word.now (length word.now) cs.now) }
{
    let rest = rest_from(cs, 1);
    if is_same(word, &['b']) {
        literal_step(alloc, true, Form::Quoted, 2, rest)
    } else if is_same(word, &['r']) {
        literal_step(alloc, false, Form::Raw(0), 2, rest)
    } else if is_same(word, &['b', 'r']) {
        literal_step(alloc, true, Form::Raw(0), 3, rest)
    } else {
        prefixed(alloc, texts, edition, word)
    }
}

/// A word before a `#`.
fn word_before_hash(
    alloc: Global,
    texts: &mut Texts,
    edition: Edition,
    word: &[char],
    cs: &[char],
) -> Result<Piece, NoMemory>
    requires some { 1 ≤ length cs.now }
    requires small { 3 + length cs.now < 2 ^ 32 }
    ensures { IfOk result (λ p. p ≡ spec.word_before_hash edition word.now (length word.now) cs.now) }
{
    if is_same(word, &['r']) {
        hash_step(alloc, texts, false, 1, cs)
    } else if is_same(word, &['b', 'r']) {
        hash_step(alloc, texts, true, 2, cs)
    } else {
        prefixed(alloc, texts, edition, word)
    }
}

/// At a word.
#[tactic(auto, unfolding(crate::specs::Scan::word_step))]
pub fn word_step(
    alloc: Global,
    texts: &mut Texts,
    edition: Edition,
    cs: &[char],
) -> Result<Piece, NoMemory>
    requires small { 3 + length cs.now < 2 ^ 32 }
    ensures { IfOk result (λ p. p ≡ spec.word_step edition cs.now) }
{
    let len = run(cs);
    let word = front(cs, len);
    let rest = rest_from(cs, len);
    match char_at(cs, len) {
        '"' => word_before_quote(alloc, texts, edition, word, rest),
        '#' => word_before_hash(alloc, texts, edition, word, rest),
        '\'' if is_same(word, &['b']) => {
            literal_step(alloc, true, Form::Single, 2, rest_from(rest, 1))
        }
        '\'' => prefixed(alloc, texts, edition, word),
        _ => plain_word(alloc, texts, word),
    }
}

/// At a `'`, a lifetime.
#[tactic(auto, unfolding(crate::specs::Scan::lifetime_step))]
fn lifetime_step(alloc: Global, texts: &mut Texts, cs: &[char]) -> Result<Piece, NoMemory>
    requires some { 1 ≤ length cs.now }
    requires small { length cs.now < 2 ^ 32 }
    ensures { IfOk result (λ p. p ≡ spec.lifetime_step cs.now) }
{
    let rest = rest_from(cs, 1);
    let len = run(rest);
    let next = char_at(rest, len);
    if next == '\'' || next == '#' {
        return Ok(fault(LexKind::BadLifetime));
    }
    Ok(Piece::Token {
        kind: TokenKind::Lifetime {
            name: texts.name(alloc, front(rest, len))?,
        },
        len: 1 + len,
    })
}

/// At a `'`.
#[tactic(auto, unfolding(crate::specs::Scan::quote_step))]
pub fn quote_step(alloc: Global, texts: &mut Texts, cs: &[char]) -> Result<Piece, NoMemory>
    requires some { 1 ≤ length cs.now }
    requires small { 1 + length cs.now < 2 ^ 32 }
    ensures { IfOk result (λ p. p ≡ spec.quote_step cs.now) }
{
    let rest = rest_from(cs, 1);
    if starts_word(rest) && single_len(false, rest).is_none() {
        lifetime_step(alloc, texts, cs)
    } else {
        literal_step(alloc, false, Form::Single, 1, rest)
    }
}
