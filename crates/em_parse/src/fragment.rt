//! Fragments of macros (Reference, "Metavariables").

ghost use Rattle.std.specs.Prelude.{◌≡◌, ◌++◌, ◌&&◌, not, IfOk};
ghost use Rattle.em_tree.specs.Starts as start;
ghost use Rattle.em_tree.specs.Starts.{Pieces};
ghost use Rattle.em_tree.specs.Tokens.{delimiters};
ghost use Rattle.em_tree.specs.FragmentGrammar as grammar;
ghost use Rattle.em_grammar.specs.FragmentReader as spec;
ghost use Rattle.em_grammar.specs.Reader as read;
ghost use Rattle.em_grammar.specs.TypeReader as type_spec;
ghost use Rattle.em_read.specs.Parse.{Reads};

use em_base::{Class, Edition, NoMemory, Token, TokenKind, keyword_in};
use em_grammar::types;
use em_read::{Cursor, Stop, delimited, is_spelled, keep};
use em_read_types::{pat_in, plain_type_in, top_pat_in};
use em_tree::{Alternative, FragmentNode, Pat, Piece, Shared, TokenTree, TopPat, TypeTree};
use sqlite_items::Items;
use std::alloc::Global;

fn is_word(token: &Token) -> bool
    ensures { result ≡ start.is_word token.now }
{
    matches!(token.kind, TokenKind::Ident { .. })
}

/// Whether the token is an identifier that is no keyword in the edition of its text.
fn is_name(token: &Token) -> bool
    ensures { result ≡ start.is_name token.now }
{
    match &token.kind {
        TokenKind::Ident { name, raw } => *raw || keyword_in(token.edition, name) != Class::Keyword,
        _ => false,
    }
}

fn is_lifetime(token: &Token) -> bool
    ensures { result ≡ start.is_lifetime token.now }
{
    matches!(token.kind, TokenKind::Lifetime { .. })
}

fn is_delimiter(token: &Token) -> bool
    ensures { result ≡ start.is_spelled delimiters token.now }
{
    is_spelled(token, &["(", ")", "[", "]", "{", "}"])
}

/// An identifier or a keyword.
pub fn word(alloc: Global, input: &mut Cursor<'_>) -> Result<Shared<Token>, Stop>
    ensures { Reads (read.token start.is_word input.old.rest.now) result input.new.rest.now }
{
    match input.rest {
        [Piece::Token(token), rest @ ..] if is_word(token) => {
            let found = keep(alloc, token)?;
            input.rest = rest;
            Ok(found)
        }
        _ => Err(Stop::Absent),
    }
}

pub fn token_tree(alloc: Global, input: &mut Cursor<'_>) -> Result<TokenTree, Stop>
    ensures { Reads (spec.token_tree input.old.rest.now) result input.new.rest.now }
{
    match input.rest {
        [Piece::Token(token), rest @ ..] if !is_delimiter(token) => {
            let found = keep(alloc, token)?;
            input.rest = rest;
            Ok(TokenTree::Token(found))
        }
        [Piece::Group(group), rest @ ..] => {
            let found = group.share(alloc)?;
            input.rest = rest;
            Ok(TokenTree::Group(found))
        }
        _ => {
            let found = delimited(alloc, input)?;
            Ok(TokenTree::Delimited(found))
        }
    }
}

/// Whether the piece is the name `dyn`.
fn is_dyn_name(piece: &Piece) -> bool
    ensures { result ≡ grammar.is_dyn_name piece.now }
{
    match piece {
        Piece::Token(token) => is_name(token) && is_spelled(token, &["dyn"]),
        Piece::Group(_) => false,
    }
}

fn is_separator(piece: &Piece) -> bool
    ensures { result ≡ grammar.is_separator piece.now }
{
    match piece {
        Piece::Token(token) => is_spelled(token, &["::"]),
        Piece::Group(_) => false,
    }
}

/// Whether the second piece is the name `dyn`, and the first no `::`.
fn ends_behind(before: &Piece, last: &Piece) -> bool
    ensures { result ≡ (not (grammar.is_separator before.now) && grammar.is_dyn_name last.now) }
{
    !is_separator(before) && is_dyn_name(last)
}

/// Whether the last piece is the name `dyn`, not behind a `::`.
#[tactic(auto, using(crate::proofs::Dyns::ends_none, crate::proofs::Dyns::ends_one, crate::proofs::Dyns::ends_more))]
fn ends_in_dyn(pieces: &[Piece]) -> bool
    ensures { result ≡ grammar.ends_in_dyn pieces.now }
{
    match pieces.len() {
        0 => false,
        1 => is_dyn_name(&pieces[0]),
        count => ends_behind(&pieces[count - 2], &pieces[count - 1]),
    }
}

/// Whether the next piece makes a `dyn` before it the keyword (Reference, "Weak keywords").
fn makes_keyword(pieces: &[Piece]) -> bool
    ensures { result ≡ grammar.makes_keyword pieces.now }
{
    match pieces {
        [Piece::Token(token), ..] => is_lifetime(token) || is_spelled(token, &["for", "?", "("]),
        _ => false,
    }
}

/// The pieces that were read, by what there was and what is left.
#[tactic(auto, using(crate::proofs::Dyns::front))]
fn read_of<'a>(all: &'a [Piece], left: &[Piece]) -> &'a [Piece]
    ensures { (ys : Pieces) → all.now ≡ ys ++ left.now → result.now ≡ ys }
{
    &all[..all.len().saturating_sub(left.len())]
}

/// A type behind which no `dyn` at its end becomes the keyword.
#[tactic(auto, using(crate::proofs::Dyns::stays_by))]
pub fn staying(
    alloc: Global,
    input: &mut Cursor<'_>,
    groups: usize,
    depth: usize,
) -> Result<TypeTree, Stop>
    ensures { Reads (spec.staying (type_spec.plain_type_in groups depth input.old.rest.now)) result input.new.rest.now }
{
    let all = input.rest;
    let found = plain_type_in(alloc, input, groups, depth)?;
    types();
    if ends_in_dyn(read_of(all, input.rest)) && makes_keyword(input.rest) {
        return Err(Stop::Absent);
    }
    Ok(found)
}

/// A pattern without alternatives, as one with them.
fn single(alloc: Global, pat: Pat) -> Result<TopPat, NoMemory>
    ensures { IfOk result (λ x. x ≡ spec.single pat) }
{
    let mut alternatives = Items::new(alloc);
    alternatives.push(Alternative { bar: None, pat })?;
    Ok(TopPat::Alternatives(alternatives))
}

/// A pattern, which from edition 2021 on may have alternatives.
pub fn pat_fragment(
    alloc: Global,
    input: &mut Cursor<'_>,
    edition: Edition,
    groups: usize,
    depth: usize,
) -> Result<FragmentNode, Stop>
    ensures { Reads (spec.pat_fragment edition groups depth input.old.rest.now) result input.new.rest.now }
{
    match edition {
        Edition::E2021 => {
            let pat = top_pat_in(alloc, input, groups, depth)?;
            Ok(FragmentNode::Pat(pat))
        }
        _ => {
            let pat = pat_in(alloc, input, groups, depth)?;
            let found = single(alloc, pat)?;
            Ok(FragmentNode::Pat(found))
        }
    }
}
