use crate::fragment::Fragment;
use crate::item::Item;
use em_base::{Edition, List, Name, Place, Span};

/// A macro call that expansion replaced: the places of the call and of the macro's definition, the number of the arm,
/// and the spans of what its variables were bound to.
#[derive(Debug, Drop)]
pub struct CallRecord {
    pub call: Place,
    pub definition: Place,
    pub arm: u32,
    pub bindings: List<Span>,
}

/// An expanded crate. `uses` has the numbers of its dependencies, `first_file` the number of its first file, `parsed`
/// the fragments with a piece of its text that a chosen or an earlier arm read.
#[derive(Drop)]
pub struct CrateTree {
    pub name: Name,
    pub edition: Edition,
    pub binary: bool,
    pub uses: List<u32>,
    pub first_file: u32,
    pub items: List<Item>,
    pub parsed: List<Fragment>,
}

/// The expanded crates, and the calls in the order in which they were replaced.
#[derive(Drop)]
pub struct Expanded {
    pub crates: List<CrateTree>,
    pub trace: List<CallRecord>,
}
