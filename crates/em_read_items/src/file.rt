//! Attributes of files (Reference, "Crates and source files").

ghost use Rattle.em_grammar.specs.Reader as read;
ghost use Rattle.em_grammar.specs.ItemReader as spec;
ghost use Rattle.em_read.specs.Parse.{Reads};

use crate::attribute::file_attribute;
use em_read::{Cursor, Stop, all_of};
use em_tree::FileAttribute;
use sqlite_items::Items;
use std::alloc::Global;

pub fn file_attributes(
    alloc: Global,
    input: &mut Cursor<'_>,
    groups: usize,
) -> Result<Items<FileAttribute>, Stop>
    ensures { Reads (read.all_of (spec.file_attribute groups) input.old.rest.now) result input.new.rest.now }
{
    all_of(alloc, input, |input| file_attribute(alloc, input, groups))
}
