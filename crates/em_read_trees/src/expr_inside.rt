//! What stands inside of expressions, statements and blocks, over functions that read it.

ghost use Rattle.std.specs.Prelude.{◌+◌, ◌-◌, ◌<◌};
ghost use Rattle.em_grammar.specs.ExprKnot as spec;
ghost use Rattle.em_read_trees.specs.ExprKnots as part;
ghost use Rattle.em_read_trees.specs.ExprKnots.{Knot, ExprKnot};

use crate::pats::pat_below;
use em_read::{Allowed, Cursor, Stop, signed, unsigned};
use em_read_exprs::{Inside, Opens, Start};
use em_read_types::{pat_in, path_in, plain_type_in, top_pat_in};
use em_tree::{Block, Body, Expr, Literal, Pat, Path, Piece, Stmt, TopPat, TypeTree};
use std::alloc::Global;

// ---- expressions

/// Reads what stands inside of an expression that is a node at a depth above 0, with functions that read expressions and
/// blocks.
#[derive(Clone, Copy)]
pub struct Exprs<E, B> {
    pub alloc: Global,
    pub groups: usize,
    pub depth: usize,
    pub exprs: E,
    pub blocks: B,
}

impl<
    E: Fn(Global, &mut Cursor<'_>, usize, usize, Start, usize, bool) -> Result<Expr, Stop>,
    B: Fn(Global, &mut Cursor<'_>, usize, usize) -> Result<Block<Body>, Stop>,
> Inside for Exprs<E, B> {
    ghost ready = { λ s. (0 < s.depth) × ExprKnot (s.groups + s.depth) (E.pre s.exprs) (E.post s.exprs) × Knot spec.block_in (s.groups + s.depth) (B.pre s.blocks) (B.post s.blocks) };

    ghost readers = { λ s. part.in_expr s.groups s.depth (s.depth - 1) };

    fn ty(&self, input: &mut Cursor<'_>) -> Result<TypeTree, Stop> {
        plain_type_in(self.alloc, input, self.groups, self.depth - 1)
    }

    fn path(&self, input: &mut Cursor<'_>) -> Result<Path, Stop> {
        path_in(self.alloc, input, self.groups, self.depth - 1)
    }

    fn pat(&self, input: &mut Cursor<'_>) -> Result<Pat, Stop> {
        pat_in(self.alloc, input, self.groups, self.depth)
    }

    fn top_pat(&self, input: &mut Cursor<'_>) -> Result<TopPat, Stop> {
        top_pat_in(self.alloc, input, self.groups, self.depth - 1)
    }

    fn int(&self, input: &mut Cursor<'_>) -> Result<Literal, Stop> {
        unsigned(self.alloc, input, Allowed::Integers, self.groups)
    }

    fn block(&self, input: &mut Cursor<'_>) -> Result<Block<Body>, Stop> {
        (self.blocks)(self.alloc, input, self.groups, self.depth - 1)
    }

    fn expr(
        &self,
        input: &mut Cursor<'_>,
        start: Start,
        least: usize,
        no_struct: bool,
    ) -> Result<Expr, Stop> {
        (self.exprs)(
            self.alloc,
            input,
            self.groups,
            self.depth - 1,
            start,
            least,
            no_struct,
        )
    }

    #[tactic(auto, using(em_read::proofs::Groups::opened_none, em_read::proofs::Groups::opened_some))]
    fn opened(&self, pieces: &[Piece]) -> Result<Expr, Stop> {
        if self.groups == 0 {
            return Err(Stop::Deep);
        }
        let mut input = Cursor { rest: pieces };
        let found = (self.exprs)(
            self.alloc,
            &mut input,
            self.groups - 1,
            self.depth,
            Start::Anywhere,
            0,
            false,
        )?;
        match input.rest {
            [] => Ok(found),
            _ => Err(Stop::Absent),
        }
    }

    #[tactic(auto, using(em_read::proofs::Groups::opened_none, em_read::proofs::Groups::opened_some))]
    fn signed(&self, pieces: &[Piece]) -> Result<Literal, Stop> {
        if self.groups == 0 {
            return Err(Stop::Deep);
        }
        let mut input = Cursor { rest: pieces };
        let found = signed(self.alloc, &mut input, self.groups - 1)?;
        match input.rest {
            [] => Ok(found),
            _ => Err(Stop::Absent),
        }
    }
}

// ---- statements

/// Reads what stands inside of a statement that is no group, with a function that reads expressions. A statement asks
/// for no block and for no literal.
#[derive(Clone, Copy)]
pub struct Stmts<E> {
    pub alloc: Global,
    pub groups: usize,
    pub depth: usize,
    pub exprs: E,
}

impl<E: Fn(Global, &mut Cursor<'_>, usize, usize, Start, usize, bool) -> Result<Expr, Stop>> Inside
    for Stmts<E> {
    ghost ready = { λ s. ExprKnot (s.groups + s.depth + 1) (E.pre s.exprs) (E.post s.exprs) };

    ghost readers = { λ s. part.in_stmt s.groups s.depth };

    fn ty(&self, input: &mut Cursor<'_>) -> Result<TypeTree, Stop> {
        plain_type_in(self.alloc, input, self.groups, self.depth)
    }

    fn path(&self, input: &mut Cursor<'_>) -> Result<Path, Stop> {
        path_in(self.alloc, input, self.groups, self.depth)
    }

    fn pat(&self, input: &mut Cursor<'_>) -> Result<Pat, Stop> {
        pat_below(self.alloc, input, self.groups, self.depth)
    }

    fn top_pat(&self, input: &mut Cursor<'_>) -> Result<TopPat, Stop> {
        top_pat_in(self.alloc, input, self.groups, self.depth)
    }

    fn int(&self, input: &mut Cursor<'_>) -> Result<Literal, Stop> {
        unsigned(self.alloc, input, Allowed::Integers, self.groups)
    }

    fn block(&self, _input: &mut Cursor<'_>) -> Result<Block<Body>, Stop> {
        Err(Stop::Absent)
    }

    fn expr(
        &self,
        input: &mut Cursor<'_>,
        start: Start,
        least: usize,
        no_struct: bool,
    ) -> Result<Expr, Stop> {
        (self.exprs)(
            self.alloc,
            input,
            self.groups,
            self.depth,
            start,
            least,
            no_struct,
        )
    }

    fn opened(&self, _pieces: &[Piece]) -> Result<Expr, Stop> {
        Err(Stop::Absent)
    }

    fn signed(&self, _pieces: &[Piece]) -> Result<Literal, Stop> {
        Err(Stop::Absent)
    }
}

/// Reads the pieces of groups that stand in a block, with functions that read statements, tails and blocks.
#[derive(Clone, Copy)]
pub struct Groups<S, L, B> {
    pub alloc: Global,
    pub groups: usize,
    pub depth: usize,
    pub stmts: S,
    pub tails: L,
    pub blocks: B,
}

impl<
    S: Fn(Global, &mut Cursor<'_>, usize, usize) -> Result<Stmt, Stop>,
    L: Fn(Global, &mut Cursor<'_>, usize, usize) -> Result<Expr, Stop>,
    B: Fn(Global, &mut Cursor<'_>, usize, usize) -> Result<Block<Body>, Stop>,
> Opens for Groups<S, L, B> {
    ghost ready = { λ s. Knot spec.stmt_in (s.groups + s.depth) (S.pre s.stmts) (S.post s.stmts) × Knot part.tail_in (s.groups + s.depth) (L.pre s.tails) (L.post s.tails) × Knot spec.block_in (s.groups + s.depth) (B.pre s.blocks) (B.post s.blocks) };

    ghost stmts = { λ s. part.opened_stmts s.groups s.depth };

    ghost tails = { λ s. part.opened_tails s.groups s.depth };

    ghost blocks = { λ s. part.opened_blocks s.groups s.depth };

    #[tactic(auto, using(em_read::proofs::Groups::opened_none, em_read::proofs::Groups::opened_some))]
    fn opened_stmt(&self, pieces: &[Piece]) -> Result<Stmt, Stop> {
        if self.groups == 0 {
            return Err(Stop::Deep);
        }
        let mut input = Cursor { rest: pieces };
        let found = (self.stmts)(self.alloc, &mut input, self.groups - 1, self.depth)?;
        match input.rest {
            [] => Ok(found),
            _ => Err(Stop::Absent),
        }
    }

    #[tactic(auto, using(em_read::proofs::Groups::opened_none, em_read::proofs::Groups::opened_some))]
    fn opened_tail(&self, pieces: &[Piece]) -> Result<Expr, Stop> {
        if self.groups == 0 {
            return Err(Stop::Deep);
        }
        let mut input = Cursor { rest: pieces };
        let found = (self.tails)(self.alloc, &mut input, self.groups - 1, self.depth)?;
        match input.rest {
            [] => Ok(found),
            _ => Err(Stop::Absent),
        }
    }

    #[tactic(auto, using(em_read::proofs::Groups::opened_none, em_read::proofs::Groups::opened_some))]
    fn opened_block(&self, pieces: &[Piece]) -> Result<Block<Body>, Stop> {
        if self.groups == 0 {
            return Err(Stop::Deep);
        }
        let mut input = Cursor { rest: pieces };
        let found = (self.blocks)(self.alloc, &mut input, self.groups - 1, self.depth)?;
        match input.rest {
            [] => Ok(found),
            _ => Err(Stop::Absent),
        }
    }
}
