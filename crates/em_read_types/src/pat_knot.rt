//! Patterns, with groups and nodes in one another up to given numbers.

ghost use Rattle.std.specs.Prelude.{◌+◌, ◌-◌, ◌<◌};
ghost use Rattle.em_grammar.specs.PatReader as spec;
ghost use Rattle.em_grammar.specs.Reader as read;
ghost use Rattle.em_grammar.specs.Reader.{entire};
ghost use Rattle.em_grammar.specs.TypeReader as types;
ghost use Rattle.em_read.specs.Parse.{Reads, ReadsHere, opened_by};
ghost use Rattle.em_read_types.specs.PatKnot.{Knot, no_pat};
ghost use Rattle.em_read_types.specs.PatParts as part;

use crate::pat::pat_node;
use crate::pat_inside::PatInside;
use crate::pat_sets::{is_top_group, starts_pat};
use crate::type_knot::path_in;
use em_grammar::Written;
use em_read::{Cursor, Stop, all_of, sign, sign_if, signed};
use em_tree::{Alternative, Literal, Pat, Path, Piece, TopPat};
use sqlite_items::{Boxed, Items};
use std::alloc::Global;

/// Reads what stands inside of a pattern that is a node at a depth above 0, with a function that reads patterns.
#[derive(Clone, Copy)]
pub struct Pats<F> {
    pub alloc: Global,
    pub groups: usize,
    pub depth: usize,
    pub pats: F,
}

impl<F: Fn(Global, &mut Cursor<'_>, usize, usize) -> Result<Pat, Stop>> PatInside for Pats<F> {
    ghost ready = { λ s. (0 < s.depth) × Knot (s.groups + s.depth) (F.pre s.pats) (F.post s.pats) };

    ghost inner = { λ s. spec.pat_in s.groups (s.depth - 1) };

    ghost paths = { λ s. types.path_in s.groups (s.depth - 1) };

    ghost opens = { λ s. opened_by (λ n. spec.pat_in n s.depth) s.groups };

    ghost number = { λ s. s.groups };

    fn pat(&self, input: &mut Cursor<'_>) -> Result<Pat, Stop> {
        (self.pats)(self.alloc, input, self.groups, self.depth - 1)
    }

    fn path(&self, input: &mut Cursor<'_>) -> Result<Path, Stop> {
        path_in(self.alloc, input, self.groups, self.depth - 1)
    }

    fn literal(&self, input: &mut Cursor<'_>) -> Result<Literal, Stop> {
        signed(self.alloc, input, self.groups)
    }

    #[tactic(auto, using(em_read::proofs::Groups::opened_none, em_read::proofs::Groups::opened_some))]
    fn opened(&self, pieces: &[Piece]) -> Result<Pat, Stop> {
        if self.groups == 0 {
            return Err(Stop::Deep);
        }
        let mut input = Cursor { rest: pieces };
        let found = (self.pats)(self.alloc, &mut input, self.groups - 1, self.depth)?;
        match input.rest {
            [] => Ok(found),
            _ => Err(Stop::Absent),
        }
    }
}

/// Where no pattern may nest: whether one stands there.
pub fn no_pat(input: &Cursor<'_>) -> Result<Pat, Stop>
    ensures { Reads (no_pat input.now.rest.now) result input.now.rest.now }
{
    if starts_pat(input) {
        Err(Stop::Deep)
    } else {
        Err(Stop::Absent)
    }
}

/// A pattern without alternatives, with groups in one another and nodes in one another up to these numbers.
#[tactic(auto, using(crate::proofs::PatSteps::pat_none, crate::proofs::PatSteps::pat_at))]
pub fn pat_in(
    alloc: Global,
    input: &mut Cursor<'_>,
    groups: usize,
    depth: usize,
) -> Result<Pat, Stop>
    ensures { Reads (spec.pat_in groups depth input.old.rest.now) result input.new.rest.now }
{
    if depth == 0 {
        return no_pat(input);
    }
    let inside = Pats {
        alloc,
        groups,
        depth,
        pats: pat_in,
    };
    pat_node(alloc, &inside, input)
}

/// The first alternative, which may lack its bar.
fn first_alternative(
    alloc: Global,
    input: &mut Cursor<'_>,
    groups: usize,
    depth: usize,
) -> Result<Alternative, Stop>
    ensures { Reads (part.first_alternative (spec.pat_in groups depth) input.old.rest.now) result input.new.rest.now }
{
    let bar = sign_if(alloc, input, Written::Or)?;
    let pat = pat_in(alloc, input, groups, depth)?;
    Ok(Alternative { bar, pat })
}

fn next_alternative(
    alloc: Global,
    input: &mut Cursor<'_>,
    groups: usize,
    depth: usize,
) -> Result<Alternative, Stop>
    ensures { Reads (part.next_alternative (spec.pat_in groups depth) input.old.rest.now) result input.new.rest.now }
{
    let bar = sign(alloc, input, Written::Or)?;
    let pat = pat_in(alloc, input, groups, depth)?;
    Ok(Alternative {
        bar: Some(bar),
        pat,
    })
}

/// The alternatives but the first.
fn next_alternatives(
    alloc: Global,
    input: &mut Cursor<'_>,
    groups: usize,
    depth: usize,
) -> Result<Items<Alternative>, Stop>
    ensures { Reads (read.all_of (part.next_alternative (spec.pat_in groups depth)) input.old.rest.now) result input.new.rest.now }
{
    all_of(alloc, input, |input| {
        next_alternative(alloc, input, groups, depth)
    })
}

/// Alternatives (Reference, "Or-patterns").
fn alternatives(
    alloc: Global,
    input: &mut Cursor<'_>,
    groups: usize,
    depth: usize,
) -> Result<TopPat, Stop>
    ensures { Reads (spec.alternatives (spec.pat_in groups depth) input.old.rest.now) result input.new.rest.now }
{
    let first = first_alternative(alloc, input, groups, depth)?;
    let more = next_alternatives(alloc, input, groups, depth)?;
    let mut found = Items::new(alloc);
    found.push(first)?;
    found.append(more)?;
    Ok(TopPat::Alternatives(found))
}

/// The pattern with alternatives that the pieces of a group are.
#[cycle(tops)]
#[tactic(auto, using(em_read::proofs::Groups::opened_none, em_read::proofs::Groups::opened_some))]
fn top_pat_inside(
    alloc: Global,
    pieces: &[Piece],
    groups: usize,
    depth: usize,
) -> Result<TopPat, Stop>
    ensures { ReadsHere (entire (opened_by (λ n. spec.top_pat_in n depth) groups pieces.now)) result }
{
    if groups == 0 {
        return Err(Stop::Deep);
    }
    let mut input = Cursor { rest: pieces };
    let found = top_pat_in(alloc, &mut input, groups - 1, depth)?;
    match input.rest {
        [] => Ok(found),
        _ => Err(Stop::Absent),
    }
}

/// A fragment that is a pattern with a `|`.
#[cycle(tops)]
fn top_group(
    alloc: Global,
    input: &mut Cursor<'_>,
    groups: usize,
    depth: usize,
) -> Result<TopPat, Stop>
    ensures { Reads (part.top_group (opened_by (λ n. spec.top_pat_in n depth) groups) input.old.rest.now) result input.new.rest.now }
{
    match input.rest {
        [Piece::Group(group), rest @ ..] if is_top_group(input.rest) => {
            let found = top_pat_inside(alloc, group.pieces.get().list.as_slice(), groups, depth)?;
            input.rest = rest;
            let inner = Boxed::new(alloc, found)?;
            let group = group.share(alloc)?;
            Ok(TopPat::Group { group, inner })
        }
        _ => Err(Stop::Absent),
    }
}

/// A pattern with its alternatives, with groups in one another and nodes in one another up to these numbers.
#[cycle(tops)]
#[tactic(auto, using(crate::proofs::PatSteps::top_at))]
pub fn top_pat_in(
    alloc: Global,
    input: &mut Cursor<'_>,
    groups: usize,
    depth: usize,
) -> Result<TopPat, Stop>
    ensures { Reads (spec.top_pat_in groups depth input.old.rest.now) result input.new.rest.now }
{
    let start = input.rest;
    match top_group(alloc, input, groups, depth) {
        Err(Stop::Absent) => {
            input.rest = start;
            alternatives(alloc, input, groups, depth)
        }
        found => found,
    }
}
