use em_base::NoMemory;
use em_lex::{LexError, LexKind};
use em_parse::ParseError;
use em_tree::FragError;
use std::alloc::AllocError;

/// Why a row has no answer of the parser: its text has no tokens, it isn't written as a row, or memory is short.
#[derive(Debug, Drop)]
pub enum Fault {
    NoMemory,
    NoRow,
    Lex { offset: u32, kind: LexKind },
}

impl From<NoMemory> for Fault {
    fn from(_error: NoMemory) -> Fault {
        Fault::NoMemory
    }
}

impl From<AllocError> for Fault {
    fn from(_error: AllocError) -> Fault {
        Fault::NoMemory
    }
}

impl From<LexError> for Fault {
    fn from(error: LexError) -> Fault {
        match error {
            LexError::NoMemory => Fault::NoMemory,
            LexError::At { offset, kind } => Fault::Lex { offset, kind },
            LexError::Limit(_) => Fault::NoRow,
        }
    }
}
