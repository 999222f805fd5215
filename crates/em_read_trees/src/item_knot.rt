//! Items, with groups and nodes in one another up to given numbers.

ghost use Rattle.std.specs.Prelude.{◌+◌, ◌<◌};
ghost use Rattle.em_grammar.specs.ItemReader as spec;
ghost use Rattle.em_read.specs.Parse.{Reads, opened_by};
ghost use Rattle.em_read_trees.specs.ExprKnots.{Knot};
ghost use Rattle.em_read_trees.specs.ItemKnot.{no_item, inner_at};

use crate::expr_knot::block_in;
use em_read::{Cursor, Stop};
use em_read_items::{Parts, item_node, starts_item};
use em_read_types::{pat_in, plain_type_in};
use em_tree::{Block, Body, Item, Pat, Piece, TypeTree};
use std::alloc::Global;

/// Reads what stands inside of an item that is a node at a depth above 0, with a function that reads items.
#[derive(Clone, Copy)]
pub struct ItemParts<F> {
    pub alloc: Global,
    pub groups: usize,
    pub depth: usize,
    pub items: F,
}

impl<F: Fn(Global, &mut Cursor<'_>, usize, usize) -> Result<Item, Stop>> Parts for ItemParts<F> {
    ghost ready = { λ s. (0 < s.depth) × Knot spec.item_in (s.groups + s.depth) (F.pre s.items) (F.post s.items) };

    ghost inner = { λ s. inner_at s.groups s.depth };

    ghost opens = { λ s. opened_by (λ n. spec.item_in n s.depth) s.groups };

    fn groups(&self) -> usize {
        self.groups
    }

    fn ty(&self, input: &mut Cursor<'_>) -> Result<TypeTree, Stop> {
        plain_type_in(self.alloc, input, self.groups, self.depth - 1)
    }

    fn head(&self, input: &mut Cursor<'_>) -> Result<TypeTree, Stop> {
        plain_type_in(self.alloc, input, self.groups, self.depth)
    }

    fn pat(&self, input: &mut Cursor<'_>) -> Result<Pat, Stop> {
        pat_in(self.alloc, input, self.groups, self.depth - 1)
    }

    fn block(&self, input: &mut Cursor<'_>) -> Result<Block<Body>, Stop> {
        block_in(self.alloc, input, self.groups, self.depth - 1)
    }

    fn item(&self, input: &mut Cursor<'_>) -> Result<Item, Stop> {
        (self.items)(self.alloc, input, self.groups, self.depth - 1)
    }

    #[tactic(auto, using(em_read::proofs::Groups::opened_none, em_read::proofs::Groups::opened_some))]
    fn opened(&self, pieces: &[Piece]) -> Result<Item, Stop> {
        if self.groups == 0 {
            return Err(Stop::Deep);
        }
        let mut input = Cursor { rest: pieces };
        let found = (self.items)(self.alloc, &mut input, self.groups - 1, self.depth)?;
        match input.rest {
            [] => Ok(found),
            _ => Err(Stop::Absent),
        }
    }
}

/// Where no item may nest: whether one stands there.
pub fn no_item(input: &Cursor<'_>) -> Result<Item, Stop>
    ensures { Reads (no_item input.now.rest.now) result input.now.rest.now }
{
    if starts_item(input) {
        Err(Stop::Deep)
    } else {
        Err(Stop::Absent)
    }
}

/// An item (Reference, "Items"), with groups in one another and nodes in one another up to these numbers.
#[tactic(auto, using(crate::proofs::ItemSteps::item_none, crate::proofs::ItemSteps::item_at))]
pub fn item_in(
    alloc: Global,
    input: &mut Cursor<'_>,
    groups: usize,
    depth: usize,
) -> Result<Item, Stop>
    ensures { Reads (spec.item_in groups depth input.old.rest.now) result input.new.rest.now }
{
    if depth == 0 {
        return no_item(input);
    }
    let parts = ItemParts {
        alloc,
        groups,
        depth,
        items: item_in,
    };
    item_node(alloc, &parts, input)
}
