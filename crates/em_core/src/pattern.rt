use crate::operator::Constant;
use em_base::List;

/// How a binding takes the part that it stands for (Reference, "Binding modes").
#[derive(Clone, Copy, Debug, PartialEq, Eq)]
pub enum Binding {
    Copy,
    Move,
    /// `ref`
    Shared,
    /// `ref mut`
    Unique,
}

/// A field of a struct, whose variant is 0, or of an enum's variant.
#[derive(Clone, Copy, Debug, PartialEq, Eq)]
pub struct VariantField {
    pub def: u32,
    pub variant: u32,
    pub field: u32,
}

/// What a pattern asks of one part, or does with it.
#[derive(Drop)]
pub enum Test {
    /// The part is of this variant.
    Variant { def: u32, variant: u32 },
    /// The part equals a literal or a constant.
    Equal(Constant),
    /// The part lies between these; both belong to the range.
    Within { low: Constant, high: Constant },
    /// The part goes into a slot.
    Bind { slot: u32, how: Binding },
}

/// A test with the way to its part.
#[derive(Drop)]
pub struct PatternPart {
    pub path: List<VariantField>,
    pub test: Test,
}

/// A pattern (Reference, "Patterns"), with its names as slots: its parts from the left, an enum's variant before what stands in it. `_` has no part.
#[derive(Drop)]
pub struct Pattern {
    pub parts: List<PatternPart>,
}
