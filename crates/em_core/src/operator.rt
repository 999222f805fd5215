use em_base::{IntKind, Text};

/// The value that a literal gives.
#[derive(Drop)]
pub enum Constant {
    Int { kind: IntKind, value: i128 },
    Bool(bool),
    Char(char),
    /// A reference to a text.
    Text(Text),
    Unit,
}

/// Reference, "Negation operators".
#[derive(Clone, Copy, Debug, PartialEq, Eq)]
pub enum UnaryOp {
    /// `-` of a signed integer.
    Negate,
    /// `!` of a truth value, or of each bit of an integer.
    Not,
}

/// Reference, "Arithmetic and logical binary operators". `&&` and `||` are an `If`.
#[derive(Clone, Copy, Debug, PartialEq, Eq)]
pub enum BinaryOp {
    Add,
    Subtract,
    Multiply,
    Divide,
    Remainder,
    And,
    Or,
    Xor,
    ShiftLeft,
    ShiftRight,
}

/// Reference, "Comparison operators".
#[derive(Clone, Copy, Debug, PartialEq, Eq)]
pub enum CompareOp {
    Equal,
    NotEqual,
    Less,
    LessOrEqual,
    Greater,
    GreaterOrEqual,
}
