use em_base::NoMemory;
use thiserror::Error;

/// Why tokens are no file. At an offset in bytes, where an item should begin, none of any depth stands, or reading one comes
/// to a place with more than 200 nodes open, or what is read nests deeper.
#[derive(Clone, Copy, Debug, Error, PartialEq, Eq)]
pub enum ParseError {
    #[error("out of memory")]
    NoMemory,
    #[error("no item at byte {offset}")]
    NoItem { offset: u32 },
    #[error("the item at byte {offset} nests too deep")]
    Depth { offset: u32 },
}

impl From<NoMemory> for ParseError {
    ghost use Rattle.std.specs.Prelude.{◌≡◌};
    ghost use Rattle.em_parse.specs.declared.error.ParseError.TheVariants as Error;

    ghost from_gives = { λ _ e. e ≡ Error.NoMemory };

    fn from(_error: NoMemory) -> ParseError {
        ParseError::NoMemory
    }
}
