//! Literals (Reference, "Literal expressions" and "Literal patterns").

ghost use Rattle.std.specs.Prelude.{◌≡◌};
ghost use Rattle.em_grammar.specs.Sorts.{sort_of};
ghost use Rattle.em_grammar.specs.LiteralReader as spec;
ghost use Rattle.em_read.specs.Parse.{Reads, ReadsHere, opened_by, allowed};
ghost use Rattle.em_grammar.specs.Reader.{entire};

use crate::cursor::{Cursor, keep};
use crate::stop::Stop;
use em_base::Token;
use em_grammar::{Written, is_int, is_literal, is_sign};
use em_tree::{FragmentKind, Literal, Piece};
use sqlite_items::Boxed;
use std::alloc::Global;

/// The literals that may stand in a place.
#[derive(Clone, Copy)]
pub enum Allowed {
    Integers,
    All,
}

fn is_allowed(which: Allowed, token: &Token) -> bool
    ensures { result ≡ allowed which (sort_of token.now) }
{
    match which {
        Allowed::Integers => is_int(token),
        Allowed::All => is_literal(token),
    }
}

/// A literal without a sign that the pieces of a group are.
#[tactic(auto, using(crate::proofs::Groups::opened_none, crate::proofs::Groups::opened_some))]
#[cycle(literals)]
fn unsigned_inside(
    alloc: Global,
    pieces: &[Piece],
    which: Allowed,
    groups: usize,
) -> Result<Literal, Stop>
    ensures { ReadsHere (entire (opened_by (spec.unsigned_in (allowed which)) groups pieces.now)) result }
{
    if groups == 0 {
        return Err(Stop::Deep);
    }
    let mut input = Cursor { rest: pieces };
    let found = unsigned(alloc, &mut input, which, groups - 1)?;
    match input.rest {
        [] => Ok(found),
        _ => Err(Stop::Absent),
    }
}

/// A literal without a sign, with groups in one another up to a number.
#[cycle(literals)]
pub fn unsigned(
    alloc: Global,
    input: &mut Cursor<'_>,
    which: Allowed,
    groups: usize,
) -> Result<Literal, Stop>
    ensures { Reads (spec.unsigned_in (allowed which) groups input.old.rest.now) result input.new.rest.now }
{
    match input.rest {
        [Piece::Token(token), rest @ ..] if is_allowed(which, token) => {
            let found = keep(alloc, token)?;
            input.rest = rest;
            Ok(Literal::Token(found))
        }
        [Piece::Group(group), rest @ ..] if group.kind == FragmentKind::Literal => {
            let inner = unsigned_inside(alloc, group.pieces.get().list.as_slice(), which, groups)?;
            input.rest = rest;
            Ok(Literal::Group {
                group: group.share(alloc)?,
                inner: Boxed::new(alloc, inner)?,
            })
        }
        _ => Err(Stop::Absent),
    }
}

/// A literal with or without a sign that the pieces of a group are.
#[cycle(signed)]
#[tactic(auto, using(crate::proofs::Groups::opened_none, crate::proofs::Groups::opened_some))]
fn signed_inside(alloc: Global, pieces: &[Piece], groups: usize) -> Result<Literal, Stop>
    ensures { ReadsHere (entire (opened_by spec.signed_in groups pieces.now)) result }
{
    if groups == 0 {
        return Err(Stop::Deep);
    }
    let mut input = Cursor { rest: pieces };
    let found = signed(alloc, &mut input, groups - 1)?;
    match input.rest {
        [] => Ok(found),
        _ => Err(Stop::Absent),
    }
}

/// A literal with or without a sign, with groups in one another up to a number.
#[cycle(signed)]
pub fn signed(alloc: Global, input: &mut Cursor<'_>, groups: usize) -> Result<Literal, Stop>
    ensures { Reads (spec.signed_in groups input.old.rest.now) result input.new.rest.now }
{
    match input.rest {
        [Piece::Token(token), rest @ ..] if is_sign(Written::Minus, token) => {
            let minus = keep(alloc, token)?;
            input.rest = rest;
            let value = unsigned(alloc, input, Allowed::All, groups)?;
            Ok(Literal::Negative {
                minus,
                value: Boxed::new(alloc, value)?,
            })
        }
        [Piece::Group(group), rest @ ..] if group.kind == FragmentKind::Literal => {
            let inner = signed_inside(alloc, group.pieces.get().list.as_slice(), groups)?;
            input.rest = rest;
            Ok(Literal::Group {
                group: group.share(alloc)?,
                inner: Boxed::new(alloc, inner)?,
            })
        }
        _ => unsigned(alloc, input, Allowed::All, groups),
    }
}
