/// A range of a file: bytes from `start` to before `end`. Files are numbered in load order.
#[derive(Clone, Copy, Debug, PartialEq, Eq)]
pub struct Span {
    pub file: u32,
    pub start: u32,
    pub end: u32,
}

/// A byte's place in a file.
#[derive(Clone, Copy, Debug, PartialEq, Eq)]
pub struct Place {
    pub file: u32,
    pub offset: u32,
}

/// The number of the macro call whose transcriber wrote a token.
#[derive(Clone, Copy, Debug, PartialEq, Eq)]
pub struct Mark(pub u64);
