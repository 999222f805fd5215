use crate::ty::Ty;
use em_base::{List, Name};

/// The fields of a struct, or of one variant of an enum, in the order of their declaration.
#[derive(Drop)]
pub struct Variant {
    pub fields: List<Ty>,
}

/// A struct or an enum. A struct has one variant.
#[derive(Drop)]
pub struct TypeDef {
    /// The crate's name, the modules' names and the type's name.
    pub path: List<Name>,
    pub variants: List<Variant>,
    /// Whether it derives `Copy`.
    pub copy: bool,
    /// The number of the function of its Drop impl.
    pub drop: Option<u32>,
}
