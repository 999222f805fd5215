use crate::list::List;
use crate::place::Span;
use crate::text::Text;

/// A change of the language that is looked for.
#[derive(Clone, Copy, Debug, PartialEq, Eq)]
pub enum Lint {
    Keyword,
    Anonymous,
    CratePath,
    Prefix,
    Pat,
    Range,
    Dyn,
    Panic,
    Array,
    Prelude,
    Capture,
}

/// A range of a file and the text that takes its place.
#[derive(Debug, Drop)]
pub struct Part {
    pub span: Span,
    pub text: Text,
}

/// What a lint found: the construct's place, and the parts that make it mean the same in the next edition.
#[derive(Debug, Drop)]
pub struct Suggestion {
    pub lint: Lint,
    pub anchor: Span,
    pub parts: List<Part>,
}
