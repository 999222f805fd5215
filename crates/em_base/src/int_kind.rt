/// The integer types up to 64 bits (Reference, "Numeric types"). `isize` and `usize` have 64 bits.
#[derive(Clone, Copy, Debug, PartialEq, Eq)]
pub enum IntKind {
    I8,
    I16,
    I32,
    I64,
    Isize,
    U8,
    U16,
    U32,
    U64,
    Usize,
}
