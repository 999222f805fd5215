//! Heads of functions (Reference, "Functions").

ghost use Rattle.std.specs.Prelude.{◌≡◌};
ghost use Rattle.em_tree.specs.ItemGrammar as grammar;
ghost use Rattle.em_tree.specs.Yields.{opened};
ghost use Rattle.em_tree.specs.Tokens.{before_2018};
ghost use Rattle.em_grammar.specs.ItemReader as spec;
ghost use Rattle.em_grammar.specs.Reader as read;
ghost use Rattle.em_grammar.specs.Sets.{next};
ghost use Rattle.em_read.specs.Parse.{Reads};
ghost use Rattle.em_read_items.specs.Items as part;

use crate::parts::Parts;
use em_base::{Edition, Token};
use em_grammar::{Written, is_sign};
use em_read::{Cursor, Stop, Want, list_of, sign, sign_if, stands, token};
use em_read_types::first_edition;
use em_tree::{FragmentKind, Listed, Output, Param, Piece, SelfParam, Shared, Sig};
use sqlite_items::{Boxed, Items};
use std::alloc::Global;

/// The receiver, and the other parameters with the `)`.
type Inputs = (
    Option<Listed<SelfParam>>,
    (Items<Listed<Param>>, Shared<Token>),
);

fn self_param(alloc: Global, input: &mut Cursor<'_>) -> Result<SelfParam, Stop>
    ensures { Reads (spec.self_param input.old.rest.now) result input.new.rest.now }
{
    let amp = sign_if(alloc, input, Written::And)?;
    let word_mut = sign_if(alloc, input, Written::Mut)?;
    let word = sign(alloc, input, Written::SelfValue)?;
    Ok(SelfParam {
        amp,
        word_mut,
        word,
    })
}

/// What is behind the sign, if it is next.
fn past<'a>(sign: Written, pieces: &'a [Piece]) -> &'a [Piece]
    ensures { result.now ≡ part.past sign pieces.now }
{
    match pieces {
        [Piece::Token(token), rest @ ..] if is_sign(sign, token) => rest,
        _ => pieces,
    }
}

/// Whether a `,` or a `)` is next.
fn self_ends(pieces: &[Piece]) -> bool
    ensures { result ≡ next spec.self_end pieces.now }
{
    match pieces {
        [Piece::Token(token), ..] => {
            is_sign(Written::Comma, token) || is_sign(Written::CloseParen, token)
        }
        _ => false,
    }
}

/// Whether `self` is next, and a `,` or `)` behind it.
fn is_self(pieces: &[Piece]) -> bool
    ensures { result ≡ part.is_self pieces.now }
{
    match pieces {
        [Piece::Token(token), rest @ ..] => is_sign(Written::SelfValue, token) && self_ends(rest),
        _ => false,
    }
}

/// Whether a receiver is next, and a `,` or `)` behind it.
#[tactic(auto, using(crate::proofs::Sigs::self_ahead_by))]
fn self_ahead(input: &Cursor<'_>) -> bool
    ensures { result ≡ spec.self_ahead input.now.rest.now }
{
    is_self(past(Written::Mut, past(Written::And, input.rest)))
}

fn is_pattern_kind(kind: FragmentKind) -> bool
    ensures { result ≡ grammar.is_pattern_kind kind }
{
    matches!(kind, FragmentKind::Pat | FragmentKind::PatParam)
}

/// Whether the piece is a token or a fragment of a pattern.
fn can_be_named(piece: &Piece) -> bool
    ensures { result ≡ grammar.can_be_named piece.now }
{
    match piece {
        Piece::Token(_) => true,
        Piece::Group(group) => is_pattern_kind(group.kind),
    }
}

/// Whether a short pattern is next, and a `:` behind it.
fn one_ahead(input: &Cursor<'_>) -> bool
    ensures { result ≡ spec.one_ahead input.now.rest.now }
{
    match input.rest {
        [first, Piece::Token(colon), ..] => {
            can_be_named(first) && is_sign(Written::Colon, colon)
        }
        _ => false,
    }
}

/// Whether `mut`, a token and a `:` are next.
fn mut_ahead(input: &Cursor<'_>) -> bool
    ensures { result ≡ spec.mut_ahead input.now.rest.now }
{
    match input.rest {
        [Piece::Token(word), Piece::Token(_), Piece::Token(colon), ..] => is_sign(
            Written::Mut,
            word,
        ) && is_sign(Written::Colon, colon),
        _ => false,
    }
}

fn is_before_2018(edition: Edition) -> bool
    ensures { result ≡ before_2018 edition }
{
    match edition {
        Edition::E2015 => true,
        _ => false,
    }
}

/// Whether the first token is of edition 2015.
#[tactic(auto, using(crate::proofs::Sigs::old_none, crate::proofs::Sigs::old_some))]
fn starts_before_2018(pieces: &[Piece]) -> bool
    ensures { result ≡ grammar.starts_before_2018 (opened pieces.now) }
{
    match first_edition(pieces) {
        Some(edition) => is_before_2018(edition),
        None => false,
    }
}

/// Whether the next parameter has a pattern.
fn pattern_ahead(input: &Cursor<'_>, in_trait: bool) -> bool
    ensures { result ≡ spec.pattern_ahead in_trait input.now.rest.now }
{
    !(in_trait && starts_before_2018(input.rest)) || one_ahead(input) || mut_ahead(input)
}

fn param<P: Parts>(
    alloc: Global,
    parts: &P,
    input: &mut Cursor<'_>,
    in_trait: bool,
) -> Result<Param, Stop>
    requires { P.ready parts.now }
    ensures { Reads (spec.param_by (P.inner parts.now).types (P.inner parts.now).pats in_trait input.old.rest.now) result input.new.rest.now }
{
    if !pattern_ahead(input, in_trait) {
        let ty = parts.ty(input)?;
        return Ok(Param::Anonymous(ty));
    }
    let pat = parts.pat(input)?;
    let colon = sign(alloc, input, Written::Colon)?;
    let ty = parts.ty(input)?;
    Ok(Param::Typed { pat, colon, ty })
}

fn params<P: Parts>(
    alloc: Global,
    parts: &P,
    input: &mut Cursor<'_>,
    in_trait: bool,
) -> Result<Items<Listed<Param>>, Stop>
    requires { P.ready parts.now }
    ensures { Reads (read.list_of (spec.param_by (P.inner parts.now).types (P.inner parts.now).pats in_trait) input.old.rest.now) result input.new.rest.now }
{
    list_of(alloc, input, |input| param(alloc, parts, input, in_trait))
}

/// Parameters and their `)`.
fn params_close<P: Parts>(
    alloc: Global,
    parts: &P,
    input: &mut Cursor<'_>,
    in_trait: bool,
) -> Result<(Items<Listed<Param>>, Shared<Token>), Stop>
    requires { P.ready parts.now }
    ensures { Reads (spec.params_close (P.inner parts.now).types (P.inner parts.now).pats in_trait input.old.rest.now) result input.new.rest.now }
{
    let params = params(alloc, parts, input, in_trait)?;
    let close = sign(alloc, input, Written::CloseParen)?;
    Ok((params, close))
}

/// The comma behind a receiver, and the other parameters with the `)`.
fn after_self<P: Parts>(
    alloc: Global,
    parts: &P,
    input: &mut Cursor<'_>,
    in_trait: bool,
) -> Result<(Option<Shared<Token>>, (Items<Listed<Param>>, Shared<Token>)), Stop>
    requires { P.ready parts.now }
    ensures { Reads (spec.after_self (P.inner parts.now).types (P.inner parts.now).pats in_trait input.old.rest.now) result input.new.rest.now }
{
    if stands(input, Written::CloseParen) {
        let close = sign(alloc, input, Written::CloseParen)?;
        return Ok((None, (Items::new(alloc), close)));
    }
    let comma = sign(alloc, input, Written::Comma)?;
    let rest = params_close(alloc, parts, input, in_trait)?;
    Ok((Some(comma), rest))
}

fn with_self<P: Parts>(
    alloc: Global,
    parts: &P,
    input: &mut Cursor<'_>,
    in_trait: bool,
) -> Result<Inputs, Stop>
    requires { P.ready parts.now }
    ensures { Reads (part.with_self (P.inner parts.now).types (P.inner parts.now).pats in_trait input.old.rest.now) result input.new.rest.now }
{
    let item = self_param(alloc, input)?;
    let (comma, rest) = after_self(alloc, parts, input, in_trait)?;
    Ok((Some(Listed { item, comma }), rest))
}

fn inputs<P: Parts>(
    alloc: Global,
    parts: &P,
    input: &mut Cursor<'_>,
    in_trait: bool,
) -> Result<Inputs, Stop>
    requires { P.ready parts.now }
    ensures { Reads (spec.inputs (P.inner parts.now).types (P.inner parts.now).pats in_trait input.old.rest.now) result input.new.rest.now }
{
    if self_ahead(input) {
        return with_self(alloc, parts, input, in_trait);
    }
    let rest = params_close(alloc, parts, input, in_trait)?;
    Ok((None, rest))
}

fn arrow_type<P: Parts>(alloc: Global, parts: &P, input: &mut Cursor<'_>) -> Result<Output, Stop>
    requires { P.ready parts.now }
    ensures { Reads (part.arrow_type (P.inner parts.now).types input.old.rest.now) result input.new.rest.now }
{
    let arrow = sign(alloc, input, Written::RArrow)?;
    let ty = parts.ty(input)?;
    Ok(Output::Type {
        arrow,
        ty: Boxed::new(alloc, ty)?,
    })
}

fn output<P: Parts>(alloc: Global, parts: &P, input: &mut Cursor<'_>) -> Result<Output, Stop>
    requires { P.ready parts.now }
    ensures { Reads (spec.output (P.inner parts.now).types (P.inner parts.now).pats input.old.rest.now) result input.new.rest.now }
{
    let start = input.rest;
    match arrow_type(alloc, parts, input) {
        Ok(output) => Ok(output),
        Err(Stop::Absent) => {
            input.rest = start;
            Ok(Output::Unit)
        }
        Err(stop) => Err(stop),
    }
}

#[tactic(auto, unfolding(em_grammar::specs::ItemReader::sig))]
pub fn sig<P: Parts>(
    alloc: Global,
    parts: &P,
    input: &mut Cursor<'_>,
    in_trait: bool,
) -> Result<Sig, Stop>
    requires { P.ready parts.now }
    ensures { Reads (spec.sig (P.inner parts.now).types (P.inner parts.now).pats in_trait input.old.rest.now) result input.new.rest.now }
{
    let word = sign(alloc, input, Written::Fn)?;
    let name = token(alloc, input, Want::Name)?;
    let open = sign(alloc, input, Written::OpenParen)?;
    let (receiver, (params, close)) = inputs(alloc, parts, input, in_trait)?;
    let output = output(alloc, parts, input)?;
    Ok(Sig {
        word,
        name,
        open,
        receiver,
        params,
        close,
        output,
    })
}
