ghost use Rattle.std.specs.Prelude.{◌≡◌, ◌+◌, ◌≤◌, length, option_copied, is_some, IsTrue, IfSome};
ghost use Rattle.std.specs.List.{prefix_len};
ghost use Rattle.em_manifest.specs.Lines as spec;

use em_base::{Edition, rest_from};

/// The year of an edition.
pub fn year_of(edition: Edition) -> &'static str
    ensures value { result.now ≡ spec.year_of edition }
    ensures digits { length result.now ≡ 4 }
{
    match edition {
        Edition::E2015 => "2015",
        Edition::E2018 => "2018",
        Edition::E2021 => "2021",
    }
}

/// How many blanks, spaces and tabs, stand at the front.
fn blanks(text: &[u8]) -> usize
    ensures value { result ≡ prefix_len spec.is_blank text.now }
    ensures within { result ≤ length text.now }
{
    for (i, byte) in text.iter().enumerate() {
        if *byte != b' ' && *byte != b'\t' {
            return i;
        }
    }
    text.len()
}

/// How many spaces stand at the front.
fn spaces(text: &[u8]) -> usize
    ensures value { result ≡ prefix_len spec.is_space text.now }
    ensures within { result ≤ length text.now }
{
    for (i, byte) in text.iter().enumerate() {
        if *byte != b' ' {
            return i;
        }
    }
    text.len()
}

/// What is left without the blanks at the front.
fn skip_blanks(text: &[u8]) -> &[u8]
    ensures { result.now ≡ spec.skip spec.is_blank text.now }
{
    rest_from(text, blanks(text))
}

/// What is left without the spaces at the front.
fn skip_spaces(text: &[u8]) -> &[u8]
    ensures value { result.now ≡ spec.skip spec.is_space text.now }
    ensures rest { length result.now ≤ length text.now }
{
    rest_from(text, spaces(text))
}

/// What follows the word at the front.
fn after<'a>(text: &'a [u8], word: &[u8]) -> Option<&'a [u8]>
    ensures value { option_copied result ≡ spec.after word.now text.now }
    ensures rest { IfSome result (λ rest. length rest.now + length word.now ≡ length text.now) }
{
    text.strip_prefix(word)
}

/// Whether the text is nothing, or a comment.
fn is_comment(text: &[u8]) -> bool
    ensures { result ≡ spec.is_comment text.now }
{
    match text {
        [] => true,
        [first, ..] => *first == b'#',
    }
}

/// Whether a line is `[package]` between blanks, with or without a comment.
pub fn is_header(text: &[u8]) -> bool
    ensures { result ≡ spec.is_header_text text.now }
{
    match after(skip_blanks(text), b"[package]") {
        Some(rest) => is_comment(skip_blanks(rest)),
        None => false,
    }
}

/// Whether a line begins with `[`.
pub fn begins_table(text: &[u8]) -> bool
    ensures { result ≡ spec.begins_table_text text.now }
{
    match text {
        [] => false,
        [first, ..] => *first == b'[',
    }
}

/// Whether the edition's year stands at the front, then the quote, spaces, and maybe a comment.
fn is_year_of(quote: u8, text: &[u8], edition: Edition) -> bool
    ensures value { result ≡ spec.ends_edition quote (spec.after (spec.year_of edition) text.now) }
    ensures year { IsTrue result → 4 ≤ length text.now }
{
    match after(text, year_of(edition).as_bytes()) {
        Some([first, rest @ ..]) => *first == quote && is_comment(skip_spaces(rest)),
        Some([]) | None => false,
    }
}

/// Whether a known year stands at the front, then the quote, spaces, and maybe a comment.
fn is_year(quote: u8, text: &[u8]) -> bool
    ensures value { result ≡ spec.is_year quote text.now }
    ensures year { IsTrue result → 4 ≤ length text.now }
{
    is_year_of(quote, text, Edition::E2015)
        || is_year_of(quote, text, Edition::E2018)
        || is_year_of(quote, text, Edition::E2021)
}

/// The text from the year on, where a quote stands before it.
fn year_in(text: &[u8]) -> Option<&[u8]>
    ensures value { option_copied result ≡ spec.year_in text.now }
    ensures year { IfSome result (λ rest. 4 ≤ length rest.now) }
    ensures rest { IfSome result (λ rest. length rest.now ≤ length text.now) }
{
    match text {
        [quote, rest @ ..] if (*quote == b'"' || *quote == b'\'') && is_year(*quote, rest) => {
            Some(rest)
        }
        _ => None,
    }
}

/// The text from the year on, where a line tells the edition.
pub fn year_on(text: &[u8]) -> Option<&[u8]>
    ensures value { option_copied result ≡ spec.year_on text.now }
    ensures year { IfSome result (λ rest. 4 ≤ length rest.now) }
    ensures rest { IfSome result (λ rest. length rest.now ≤ length text.now) }
{
    let rest = after(text, b"edition")?;
    let value = after(skip_spaces(rest), b"=")?;
    year_in(skip_spaces(value))
}

/// Whether a line tells the edition.
pub fn is_edition_line(text: &[u8]) -> bool
    ensures { result ≡ is_some (spec.year_on text.now) }
{
    year_on(text).is_some()
}

/// Whether `"""` or `'''` stands at the front.
fn begins_long_quote(text: &[u8]) -> bool
    ensures { result ≡ spec.begins_long_quote text.now }
{
    after(text, b"\"\"\"").is_some() || after(text, b"'''").is_some()
}

/// Whether `"""` or `'''` stands in the text.
#[tactic(auto, using(crate::proofs::FormLemmas::some_long_quote))]
pub fn has_long_quote(text: &[u8]) -> bool
    ensures { result ≡ spec.has_long_quote text.now }
{
    for i in 0..text.len() {
        if begins_long_quote(rest_from(text, i)) {
            return true;
        }
    }
    false
}
