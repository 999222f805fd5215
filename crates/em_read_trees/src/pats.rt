//! Patterns one node deeper than a number, which may be the greatest that there is.

ghost use Rattle.std.specs.Prelude.{◌+◌};
ghost use Rattle.em_grammar.specs.PatReader as spec;
ghost use Rattle.em_grammar.specs.TypeReader as types;
ghost use Rattle.em_read.specs.Parse.{Reads, opened_by};
ghost use Rattle.em_read_trees.specs.ExprKnots as part;
ghost use Rattle.em_read_trees.specs.ExprKnots.{Knot};

use em_read::{Cursor, Stop, signed};
use em_read_types::{PatInside, pat_in, pat_node, path_in};
use em_tree::{Literal, Pat, Path, Piece};
use std::alloc::Global;

/// Reads what stands inside of a pattern that is one node deeper than `depth`, with a function that reads such patterns.
#[derive(Clone, Copy)]
pub struct Below<F> {
    pub alloc: Global,
    pub groups: usize,
    pub depth: usize,
    pub pats: F,
}

impl<F: Fn(Global, &mut Cursor<'_>, usize, usize) -> Result<Pat, Stop>> PatInside for Below<F> {
    ghost ready = { λ s. Knot part.pat_below (s.groups + s.depth) (F.pre s.pats) (F.post s.pats) };

    ghost inner = { λ s. spec.pat_in s.groups s.depth };

    ghost paths = { λ s. types.path_in s.groups s.depth };

    ghost opens = { λ s. opened_by (λ n. part.pat_below n s.depth) s.groups };

    ghost number = { λ s. s.groups };

    fn pat(&self, input: &mut Cursor<'_>) -> Result<Pat, Stop> {
        pat_in(self.alloc, input, self.groups, self.depth)
    }

    fn path(&self, input: &mut Cursor<'_>) -> Result<Path, Stop> {
        path_in(self.alloc, input, self.groups, self.depth)
    }

    fn literal(&self, input: &mut Cursor<'_>) -> Result<Literal, Stop> {
        signed(self.alloc, input, self.groups)
    }

    #[tactic(auto, using(em_read::proofs::Groups::opened_none, em_read::proofs::Groups::opened_some))]
    fn opened(&self, pieces: &[Piece]) -> Result<Pat, Stop> {
        if self.groups == 0 {
            return Err(Stop::Deep);
        }
        let mut input = Cursor { rest: pieces };
        let found = (self.pats)(self.alloc, &mut input, self.groups - 1, self.depth)?;
        match input.rest {
            [] => Ok(found),
            _ => Err(Stop::Absent),
        }
    }
}

/// A pattern without alternatives, with groups in one another up to `groups` and nodes in one another up to one more than `depth`.
#[tactic(auto, using(crate::proofs::ExprSteps::pat_at))]
pub fn pat_below(
    alloc: Global,
    input: &mut Cursor<'_>,
    groups: usize,
    depth: usize,
) -> Result<Pat, Stop>
    ensures { Reads (part.pat_below groups depth input.old.rest.now) result input.new.rest.now }
{
    let inside = Below {
        alloc,
        groups,
        depth,
        pats: pat_below,
    };
    pat_node(alloc, &inside, input)
}
