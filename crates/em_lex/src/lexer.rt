ghost use Rattle.std.specs.Prelude.{◌≡◌, ◌+◌, ◌-◌, ◌*◌, ◌^◌, ◌<◌, ◌≤◌, length, chars, drop, min, IfOk, IfErr, OnOk};
ghost use Rattle.std.specs.Prelude.{[], ◌∷◌, false};
ghost use Rattle.std.specs.Str.{bytes_eq};
ghost use Rattle.em_lex.specs.Lexing.{Lexes, byte_len};
ghost use Rattle.em_lex.specs.Answers.{Refused, most};
ghost use Rattle.em_lex.specs.Scan.{step};
ghost use Rattle.em_lex.specs.Walk.{token_at, behind_trivia, behind_token, piece_within, Kept, RefusedAt, LexesFrom, RefusedFrom, mark_len, RefusedText};

use crate::characters::{char_at, front};
use crate::counter::Lexings;
use crate::error::{LexError, LexKind};
use crate::piece::Piece;
use crate::scan::step;
use crate::texts::Texts;
use em_base::{Edition, Limit, List, NoMemory, Span, Token, TokenKind, Tokens, rest_from};
use std::alloc::Global;

/// The greatest length of a text: 4 MiB.
const MOST: usize = 4_194_304;

/// How many bytes the characters take.
fn byte_len(cs: &[char]) -> usize
    requires { length cs.now < 2 ^ 32 }
    ensures value { result ≡ byte_len cs.now }
    ensures within { result ≤ 4 * length cs.now }
{
    let mut len = 0usize;
    for c in cs {
        len += c.len_utf8();
    }
    len
}

/// Where the lexer stands in a file: the offset in bytes, whether a doc comment stands in the trivia before, and whether
/// the token directly before is `.`.
#[derive(Clone, Copy, Debug, PartialEq, Eq)]
struct Place {
    file: u32,
    edition: Edition,
    start: u32,
    doc: bool,
    dot: bool,
}

/// The token of a word at a place.
#[tactic(auto, using(crate::proofs::TextLemmas::encoded))]
fn token_of(
    alloc: Global,
    texts: &mut Texts,
    place: Place,
    kind: TokenKind,
    word: &[char],
) -> Result<Token, NoMemory>
    requires fits { place.start + byte_len word.now < 2 ^ 32 }
    ensures { IfOk result (λ t. t ≡ token_at place.file place.edition place.start place.doc kind word.now) }
{
    let text = texts.text(alloc, word)?;
    let end = place.start + text.as_bytes().len() as u32;
    Ok(Token {
        kind,
        text,
        span: Span {
            file: place.file,
            start: place.start,
            end,
        },
        edition: place.edition,
        marks: List::new(alloc),
        doc: place.doc,
    })
}

/// The place behind trivia.
#[tactic(auto, using(crate::proofs::WalkLemmas::bytes))]
fn behind_trivia(place: Place, word: &[char], doc: bool) -> Place
    requires fits { place.start + byte_len word.now < 2 ^ 32 }
    ensures { result ≡ behind_trivia place (byte_len word.now) doc }
{
    Place {
        start: place.start + byte_len(word) as u32,
        doc: place.doc || doc,
        dot: false,
        ..place
    }
}

fn is_dot(word: &[char]) -> bool
    ensures { result ≡ bytes_eq word.now (46 ∷ []) }
{
    match word {
        [c] => *c == '.',
        _ => false,
    }
}

/// The place behind a token that ends here.
fn behind_token(place: Place, end: u32, word: &[char]) -> Place
    requires { end ≡ place.start + byte_len word.now }
    ensures { result ≡ behind_token place (byte_len word.now) (bytes_eq word.now (46 ∷ [])) }
{
    Place {
        start: end,
        doc: false,
        dot: is_dot(word),
        ..place
    }
}

/// Puts the token of a piece at the end, if it is one, and gives the place behind the piece, and its length.
#[tactic(auto, using(crate::proofs::WalkLemmas::bytes))]
fn keep(
    alloc: Global,
    texts: &mut Texts,
    list: &mut List<Token>,
    place: Place,
    piece: Piece,
    rest: &[char],
) -> Result<(Place, usize), LexError>
    requires within { piece_within piece rest.now }
    requires fits { place.start + byte_len rest.now < 2 ^ 32 }
    ensures kept { IfOk result (λ p. Kept list.old list.new place piece rest.now p.0 p.1) }
    ensures refused { IfErr result (λ e. RefusedAt place piece rest.now e) }
{
    match piece {
        Piece::Trivia { len, doc } => Ok((behind_trivia(place, front(rest, len), doc), len)),
        Piece::Token { kind, len } => {
            let word = front(rest, len);
            let token = token_of(alloc, texts, place, kind, word)?;
            let end = token.span.end;
            list.push(token)?;
            Ok((behind_token(place, end, word), len))
        }
        Piece::Fault { kind, at } => Err(LexError::At {
            offset: place.start + byte_len(front(rest, at)) as u32,
            kind,
        }),
    }
}

/// The place behind one ASCII character of whitespace.
fn behind_blank(place: Place) -> Place
    requires { place.start + 1 < 2 ^ 32 }
    ensures { result ≡ behind_trivia place 1 false }
{
    Place {
        start: place.start + 1,
        dot: false,
        ..place
    }
}

/// Reads what stands at the front, puts its token at the end, if it is one, and gives the place behind it, and its length.
/// Most pieces are a space or a line's end: these come first.
#[tactic(auto, using(crate::proofs::WalkLemmas::blanks))]
fn advance(
    alloc: Global,
    texts: &mut Texts,
    list: &mut List<Token>,
    edition: Edition,
    place: Place,
    rest: &[char],
) -> Result<(Place, usize), LexError>
    requires some { 1 ≤ length rest.now }
    requires small { 3 + length rest.now < 2 ^ 32 }
    requires fits { place.start + byte_len rest.now < 2 ^ 32 }
    ensures kept { IfOk result (λ p. Kept list.old list.new place (step edition place.dot rest.now) rest.now p.0 p.1) }
    ensures refused { IfErr result (λ e. RefusedAt place (step edition place.dot rest.now) rest.now e) }
{
    let c = char_at(rest, 0);
    if c == ' ' || c == '\n' {
        return Ok((behind_blank(place), 1));
    }
    let piece = step(alloc, texts, edition, place.dot, rest)?;
    keep(alloc, texts, list, place, piece, rest)
}

/// The tokens of characters that begin at an offset of a file.
fn lex_chars(
    alloc: Global,
    file: u32,
    edition: Edition,
    offset: u32,
    cs: &[char],
) -> Result<List<Token>, LexError>
    requires fits { offset + byte_len cs.now < 2 ^ 31 }
    ensures tokens { IfOk result (λ list. LexesFrom file edition offset cs.now list) }
    ensures refused { IfErr result (λ e. RefusedFrom edition offset cs.now e) }
{
    let mut texts = Texts::new(alloc)?;
    let mut list = List::new(alloc);
    let mut place = Place {
        file,
        edition,
        start: offset,
        doc: false,
        dot: false,
    };
    let mut at = 0usize;
    'pieces: while at < cs.len() {
        let rest = rest_from(cs, at);
        let (next, len) = advance(alloc, &mut texts, &mut list, edition, place, rest)?;
        place = next;
        at += len;
    }
    Ok(list)
}

fn chars_of(alloc: Global, text: &str) -> Result<Vec<char>, NoMemory>
    ensures { IfOk result (λ v. v.items ≡ chars text.now) }
{
    Ok(text.chars().collect(alloc)?)
}

/// How many characters a byte order mark in front is.
fn mark_len(cs: &[char]) -> usize
    ensures mark { result ≡ mark_len cs.now }
    ensures within { result ≤ length cs.now }
{
    if char_at(cs, 0) == '\u{feff}' { 1 } else { 0 }
}

/// The tokens of a text.
fn lex_text(alloc: Global, file: u32, edition: Edition, text: &str) -> Result<Tokens, LexError>
    requires { length text.now ≤ most }
    ensures tokens { IfOk result (λ tokens. Lexes file edition text.now tokens.list) }
    ensures refused { IfErr result (λ e. RefusedText edition text.now e) }
{
    let cs = chars_of(alloc, text)?;
    let mark = mark_len(&cs);
    let start = byte_len(front(&cs, mark)) as u32;
    let list = lex_chars(alloc, file, edition, start, rest_from(&cs, mark))?;
    Ok(Tokens { list })
}

/// The tokens of a text of a file, under an edition.
///
/// `Ok` gives the tokens of the whole text, with their values, their spans in bytes, and whether a doc comment stands
/// before each. `Limit(FileBytes)` comes exactly where the text is longer than 4 MiB, and `At` exactly where it isn't and
/// has no list of tokens, at its first fault; `NotUtf8` is decided first, over the whole text. `NoMemory` comes for want
/// of memory alone. Each call, whatever it answers, raises the counter by one, unless it stands at its greatest number.
/// Takes time linear in the text.
pub fn lex(
    alloc: Global,
    file: u32,
    edition: Edition,
    bytes: &[u8],
    count: &mut Lexings,
) -> Result<Tokens, LexError>
    ensures tokens { IfOk result (λ tokens. (length bytes.now ≤ most) × Lexes file edition bytes.now tokens.list) }
    ensures refused { IfErr result (Refused edition bytes.now) }
    ensures counted { count.new ≡ min (count.old + 1) (2 ^ 64 - 1) }
{
    count.raise();
    if bytes.len() > MOST {
        return Err(LexError::Limit(Limit::FileBytes));
    }
    match std::str::from_utf8(bytes) {
        Ok(text) => lex_text(alloc, file, edition, text),
        Err(error) => Err(LexError::At {
            offset: error.valid_up_to() as u32,
            kind: LexKind::NotUtf8,
        }),
    }
}
