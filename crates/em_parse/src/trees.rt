//! The readers that the calls are over.

use crate::calls::Readers;
use crate::kinds::prefix_in;
use em_base::Edition;
use em_read::{Cursor, Stop};
use em_read_items::file_attributes;
use em_read_trees::{body_in, item_in};
use em_tree::{Body, FileAttribute, FragmentKind, FragmentNode, Item};
use sqlite_items::Items;
use std::alloc::Global;

/// Reads the trees of the grammar.
pub struct Trees;

impl Readers for Trees {
    fn item_in(
        &self,
        alloc: Global,
        input: &mut Cursor<'_>,
        groups: usize,
        depth: usize,
    ) -> Result<Item, Stop> {
        item_in(alloc, input, groups, depth)
    }

    fn file_attributes(
        &self,
        alloc: Global,
        input: &mut Cursor<'_>,
        groups: usize,
    ) -> Result<Items<FileAttribute>, Stop> {
        file_attributes(alloc, input, groups)
    }

    fn body_in(
        &self,
        alloc: Global,
        input: &mut Cursor<'_>,
        groups: usize,
        depth: usize,
    ) -> Result<Body, Stop> {
        body_in(alloc, input, groups, depth)
    }

    fn prefix_in(
        &self,
        alloc: Global,
        input: &mut Cursor<'_>,
        kind: FragmentKind,
        edition: Edition,
        groups: usize,
        depth: usize,
    ) -> Result<FragmentNode, Stop> {
        prefix_in(alloc, input, kind, edition, groups, depth)
    }
}
