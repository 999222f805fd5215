//! Paths without types (Reference, "Paths").

ghost use Rattle.std.specs.Prelude.{[], ◌≡◌, length};
ghost use Rattle.em_grammar.specs.Reader.{all_of, many, entire};
ghost use Rattle.em_grammar.specs.PathReader as spec;
ghost use Rattle.em_read.specs.Parse.{Reads, ReadsHere, opened_by};

use crate::cursor::{Cursor, Want, sign, sign_if, stands, token};
use crate::stop::Stop;
use em_grammar::Written;
use em_tree::{FragmentKind, Path, PathStep, Piece, Segment, Segments};
use sqlite_items::{Boxed, Items};
use std::alloc::Global;

fn segment(alloc: Global, input: &mut Cursor<'_>) -> Result<Segment, Stop>
    ensures { Reads (spec.segment input.old.rest.now) result input.new.rest.now }
{
    if stands(input, Written::Dollar) {
        let dollar = sign(alloc, input, Written::Dollar)?;
        let name = sign(alloc, input, Written::Crate)?;
        return Ok(Segment {
            dollar: Some(dollar),
            name,
        });
    }
    let name = token(alloc, input, Want::Root)?;
    Ok(Segment { dollar: None, name })
}

fn step(alloc: Global, input: &mut Cursor<'_>) -> Result<PathStep, Stop>
    ensures { Reads (spec.step input.old.rest.now) result input.new.rest.now }
{
    let separator = sign(alloc, input, Written::PathSep)?;
    let segment = segment(alloc, input)?;
    Ok(PathStep { separator, segment })
}

fn steps(alloc: Global, input: &mut Cursor<'_>) -> Result<Items<PathStep>, Stop>
    ensures { Reads (all_of spec.step input.old.rest.now) result input.new.rest.now }
{
    let mut found = Items::new(alloc);
    for _turn in 0..input.rest.len() {
        let start = input.rest;
        match step(alloc, input) {
            Ok(step) => found.push(step)?,
            Err(Stop::Absent) => {
                input.rest = start;
                return Ok(found);
            }
            Err(stop) => return Err(stop),
        }
    }
    Ok(found)
}

pub fn segments(alloc: Global, input: &mut Cursor<'_>) -> Result<Segments, Stop>
    ensures { Reads (spec.segments input.old.rest.now) result input.new.rest.now }
{
    let lead = sign_if(alloc, input, Written::PathSep)?;
    let first = segment(alloc, input)?;
    let more = steps(alloc, input)?;
    Ok(Segments { lead, first, more })
}

/// A path without `<` that the pieces of a group are.
#[cycle(plain)]
#[tactic(auto, using(crate::proofs::Groups::opened_none, crate::proofs::Groups::opened_some))]
fn plain_path_inside(alloc: Global, pieces: &[Piece], groups: usize) -> Result<Path, Stop>
    ensures { ReadsHere (entire (opened_by spec.plain_path_in groups pieces.now)) result }
{
    if groups == 0 {
        return Err(Stop::Deep);
    }
    let mut input = Cursor { rest: pieces };
    let found = plain_path(alloc, &mut input, groups - 1)?;
    match input.rest {
        [] => Ok(found),
        _ => Err(Stop::Absent),
    }
}

/// A path without `<`, with groups in one another up to a number.
#[cycle(plain)]
pub fn plain_path(alloc: Global, input: &mut Cursor<'_>, groups: usize) -> Result<Path, Stop>
    ensures { Reads (spec.plain_path_in groups input.old.rest.now) result input.new.rest.now }
{
    match input.rest {
        [Piece::Group(group), rest @ ..] if group.kind == FragmentKind::Path => {
            let inner = plain_path_inside(alloc, group.pieces.get().list.as_slice(), groups)?;
            input.rest = rest;
            Ok(Path::Group {
                group: group.share(alloc)?,
                inner: Boxed::new(alloc, inner)?,
            })
        }
        _ => Ok(Path::Plain(segments(alloc, input)?)),
    }
}
