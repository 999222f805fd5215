//! What can stand next in a call, as far as one token tells.

ghost use Rattle.std.specs.Prelude.{◌≡◌, IfOk, map};
ghost use Rattle.em_base.specs.Words.{is_among};
ghost use Rattle.em_tree.specs.Starts as start;
ghost use Rattle.em_macro.specs.Sound as law;
ghost use Rattle.em_macro.specs.Starters as spec;

use crate::rules::Specifier;
use crate::tokens::same;
use em_base::{Class, Edition, NoMemory, Token, TokenKind, keyword_in};
use em_tree::{FragmentKind, spelling, starts_token};
use std::alloc::Global;

/// What can stand next: a token, the start of a fragment, or the end.
#[derive(Drop)]
pub enum Starter {
    Next(Token),
    Begins(Specifier),
    End,
}

impl Starter {
    pub fn share(&self, alloc: Global) -> Result<Starter, NoMemory>
        ensures { IfOk result (λ s. s ≡ self.now) }
    {
        Ok(match self {
            Starter::Next(token) => Starter::Next(token.share(alloc)?),
            Starter::Begins(specifier) => Starter::Begins(*specifier),
            Starter::End => Starter::End,
        })
    }
}

/// Whether the token is an identifier that is a name in some edition.
fn is_old_name(token: &Token) -> bool
    ensures { result ≡ spec.is_old_name token.now }
{
    match &token.kind {
        TokenKind::Ident { name, raw } => {
            *raw || keyword_in(Edition::E2015, name) != Class::Keyword
        }
        _ => false,
    }
}

/// Whether the kind's fragments start with each name.
fn starts_name(kind: FragmentKind) -> bool
    ensures { result ≡ spec.starts_name kind }
{
    match kind {
        FragmentKind::Literal => false,
        FragmentKind::Block => false,
        _ => true,
    }
}

/// Whether the kind's fragments start with `true`.
fn starts_true(kind: FragmentKind) -> bool
    ensures { result ≡ spec.starts_true kind }
{
    match kind {
        FragmentKind::Block => false,
        FragmentKind::Ty => false,
        _ => true,
    }
}

/// Whether the kind's fragments start with `{`.
fn starts_brace(kind: FragmentKind) -> bool
    ensures { result ≡ spec.starts_brace kind }
{
    match kind {
        FragmentKind::Tt => true,
        FragmentKind::Block => true,
        FragmentKind::Expr => true,
        FragmentKind::Stmt => true,
        FragmentKind::Item => true,
        _ => false,
    }
}

/// Whether fragments of both kinds start with the same piece: with a name, with `true`, or with `{`.
fn kinds_meet(one: FragmentKind, other: FragmentKind) -> bool
    ensures { result ≡ spec.kinds_meet one other }
{
    starts_name(one) && starts_name(other)
        || starts_true(one) && starts_true(other)
        || starts_brace(one) && starts_brace(other)
}

/// Whether a token of this one's spelling starts the fragment. Its edition may be another one, in which it's a name.
fn token_meets(token: &Token, specifier: Specifier) -> bool
    ensures { result ≡ spec.token_meets token.now specifier }
{
    let Specifier { kind, edition } = specifier;
    starts_token(kind, edition, token) || is_old_name(token) && starts_name(kind)
}

/// Whether some piece is both.
pub fn overlaps(one: &Starter, other: &Starter) -> bool
    ensures { result ≡ spec.overlaps one.now other.now }
{
    match (one, other) {
        (Starter::Next(token), Starter::Next(next)) => same(token, next),
        (Starter::Next(token), Starter::Begins(specifier)) => token_meets(token, *specifier),
        (Starter::Begins(specifier), Starter::Next(token)) => token_meets(token, *specifier),
        (Starter::Begins(k), Starter::Begins(l)) => kinds_meet(k.kind, l.kind),
        (Starter::End, Starter::End) => true,
        _ => false,
    }
}

fn is_among(text: &str, list: &[&str]) -> bool
    ensures { result ≡ is_among (map (λ w. w.now) list.now) text.now }
{
    for word in list {
        if *word == text {
            return true;
        }
    }
    false
}

/// Whether the token has one of these spellings.
fn is_spelled(token: &Token, list: &[&str]) -> bool
    ensures { result ≡ start.is_spelled (map (λ w. w.now) list.now) token.now }
{
    match spelling(token) {
        Some(text) => is_among(text, list),
        None => false,
    }
}

fn is_after_expr(token: &Token) -> bool
    ensures { result ≡ start.is_spelled law.after_expr token.now }
{
    is_spelled(token, &["=>", ",", ";"])
}

fn is_after_type(token: &Token) -> bool
    ensures { result ≡ start.is_spelled law.after_type token.now }
{
    is_spelled(
        token,
        &[
            "{", "[", ",", "=>", ":", "=", ">", ">>", ";", "|", "as", "where",
        ],
    )
}

fn is_after_pattern(token: &Token) -> bool
    ensures { result ≡ start.is_spelled law.after_pattern token.now }
{
    is_spelled(token, &["=>", ",", "=", "|", "if", "in"])
}

fn is_after_alternatives(token: &Token) -> bool
    ensures { result ≡ start.is_spelled law.after_alternatives token.now }
{
    is_spelled(token, &["=>", ",", "=", "if", "in"])
}

/// Whether the token may follow a `pat` whose word is of the edition. One of 2021 holds alternatives.
fn is_after_pat(token: &Token, edition: Edition) -> bool
    ensures { result ≡ start.is_spelled (law.after_pat edition) token.now }
{
    match edition {
        Edition::E2021 => is_after_alternatives(token),
        _ => is_after_pattern(token),
    }
}

/// Whether the token may follow a fragment (Reference, "Follow-set ambiguity restrictions").
fn token_follows(specifier: Specifier, token: &Token) -> bool
    ensures { result ≡ law.token_follows specifier.kind specifier.edition token.now }
{
    match specifier.kind {
        FragmentKind::Expr => is_after_expr(token),
        FragmentKind::Stmt => is_after_expr(token),
        FragmentKind::Ty => is_after_type(token),
        FragmentKind::Path => is_after_type(token),
        FragmentKind::Pat => is_after_pat(token, specifier.edition),
        FragmentKind::PatParam => is_after_pattern(token),
        _ => true,
    }
}

fn is_block(kind: FragmentKind) -> bool
    ensures { result ≡ law.is_block kind }
{
    matches!(kind, FragmentKind::Block)
}

/// Whether a fragment of the second kind may follow one of the first.
fn kind_follows(kind: FragmentKind, next: FragmentKind) -> bool
    ensures { result ≡ spec.kind_follows kind next }
{
    match kind {
        FragmentKind::Expr => false,
        FragmentKind::Stmt => false,
        FragmentKind::Ty => is_block(next),
        FragmentKind::Path => is_block(next),
        FragmentKind::Pat => false,
        FragmentKind::PatParam => false,
        _ => true,
    }
}

fn is_close(token: &Token) -> bool
    ensures { result ≡ start.is_close token.now }
{
    match token.kind {
        TokenKind::Close => true,
        _ => false,
    }
}

/// Whether all of what the starter stands for may follow the fragment.
pub fn follows(specifier: Specifier, starter: &Starter) -> bool
    ensures { result ≡ spec.follows specifier starter.now }
{
    match starter {
        Starter::Next(token) => is_close(token) || token_follows(specifier, token),
        Starter::Begins(next) => kind_follows(specifier.kind, next.kind),
        Starter::End => true,
    }
}
