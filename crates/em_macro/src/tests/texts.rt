//! Texts for tests: tokens with blanks between them, read and shown again.

use em_base::{Edition, List, Name, NoMemory, Span, Text, Token, TokenKind};
use em_tree::Piece;
use std::alloc::{AllocError, Global};

fn word(alloc: Global, text: &str) -> Result<TokenKind, NoMemory> {
    let (raw, name) = match text.strip_prefix("r#") {
        Some(name) => (true, name),
        None => (false, text),
    };
    Ok(TokenKind::Ident {
        name: Name::normal(alloc, name)?,
        raw,
    })
}

/// The kind of a token, by its first character.
fn kind_of(alloc: Global, text: &str) -> Result<TokenKind, NoMemory> {
    Ok(match text.as_bytes() {
        [b'a'..=b'z', ..] => word(alloc, text)?,
        [b'A'..=b'Z', ..] => word(alloc, text)?,
        [b'_', _, ..] => word(alloc, text)?,
        [b'0'..=b'9', ..] => TokenKind::Int {
            value: 0,
            suffix: None,
        },
        [b'"', ..] => TokenKind::Str {
            value: Text::from_str(alloc, text)?,
        },
        [b'\'', ..] => TokenKind::Lifetime {
            name: Name::normal(alloc, text)?,
        },
        b"(" | b"[" | b"{" => TokenKind::Open,
        b")" | b"]" | b"}" => TokenKind::Close,
        _ => TokenKind::Punct,
    })
}

fn token(alloc: Global, edition: Edition, text: &str) -> Result<Token, NoMemory> {
    Ok(Token {
        kind: kind_of(alloc, text)?,
        text: Text::from_str(alloc, text)?,
        span: Span {
            file: 0,
            start: 0,
            end: 0,
        },
        edition,
        marks: List::new(alloc),
        doc: false,
    })
}

/// The tokens of a text, which blanks part.
pub fn tokens(alloc: Global, edition: Edition, text: &str) -> Result<List<Token>, NoMemory> {
    let mut list = List::new(alloc);
    for part in text.split(' ') {
        if !part.is_empty() {
            list.push(token(alloc, edition, part)?)?;
        }
    }
    Ok(list)
}

pub fn pieces(alloc: Global, edition: Edition, text: &str) -> Result<List<Piece>, NoMemory> {
    let mut list = List::new(alloc);
    for part in text.split(' ') {
        if !part.is_empty() {
            list.push(Piece::Token(token(alloc, edition, part)?))?;
        }
    }
    Ok(list)
}

fn show_token(token: &Token, out: &mut String) -> Result<(), AllocError> {
    out.push_str(token.text.as_str())?;
    for _mark in token.marks.as_slice() {
        out.push_str("'")?;
    }
    out.push_str(" ")
}

/// The pieces' texts, each mark as a `'` behind its token, and a group between `<` and `>`.
pub fn shown(alloc: Global, pieces: &[Piece]) -> Result<String, AllocError> {
    let mut out = String::new(alloc);
    for piece in pieces {
        match piece {
            Piece::Token(token) => show_token(token, &mut out)?,
            Piece::Group(group) => {
                out.push_str("< ")?;
                for inner in group.pieces.get().list.as_slice() {
                    match inner {
                        Piece::Token(token) => show_token(token, &mut out)?,
                        Piece::Group(_) => out.push_str("<> ")?,
                    }
                }
                out.push_str("> ")?;
            }
        }
    }
    Ok(out)
}
