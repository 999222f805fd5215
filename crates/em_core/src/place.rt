use em_base::List;

/// Where a place begins.
#[derive(Clone, Copy, Debug, PartialEq, Eq)]
pub enum Base {
    /// A slot of the function or closure that runs.
    Slot(u32),
    /// A captured variable of the closure that runs, by its place in the closure's entry.
    Root(u32),
}

/// One step from a place to a part of it.
#[derive(Clone, Copy, Debug, PartialEq, Eq)]
pub enum PlaceStep {
    /// A field of a struct, whose variant is 0, or of an enum's variant.
    Field { def: u32, variant: u32, field: u32 },
    /// What a reference or a box leads to.
    Deref,
    /// An element of an array or a slice, by the `usize` that stands in a slot.
    Index(u32),
}

/// A place expression (Reference, "Place expressions and value expressions").
#[derive(Drop)]
pub struct PlaceExpr {
    pub base: Base,
    pub steps: List<PlaceStep>,
}
