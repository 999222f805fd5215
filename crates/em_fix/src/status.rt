ghost use Rattle.std.specs.Prelude.{◌≡◌};
ghost use Rattle.em_fix.specs.Codes.{code_of};

use em_base::{Limit, NoMemory, Place, Text};
use em_lex::LexKind;

/// What a package is not accepted by.
#[derive(Clone, Copy, Debug, PartialEq, Eq)]
pub enum Phase {
    /// A source has no tokens.
    Lex(LexKind),
    /// The tokens of a source are no file: no item stands where one should begin.
    Parse,
}

/// How a call of `fix` ends.
#[derive(Debug, Drop)]
pub enum Status {
    /// The package is migrated.
    Done,
    /// The words are none that the program takes.
    Usage,
    /// A file could not be read.
    ReadFault { name: Text },
    /// The change of this number, from 0, could not be put.
    WriteFault { which: u32 },
    /// The report could not be written; all files are new.
    SinkFault,
    /// Want of memory, before any file was changed.
    NoMemory,
    /// The package isn't accepted: its first place and the phase that refuses it.
    NotAccepted { place: Place, phase: Phase },
    /// A count is above its limit.
    Limit(Limit),
    /// The package is of a form that isn't built yet.
    Unbuilt,
}

impl From<NoMemory> for Status {
    ghost use Rattle.em_fix.specs.declared.status.Status.TheVariants.{NoMemory as OutOfMemory};

    ghost from_gives = { λ _ status. status ≡ OutOfMemory };

    fn from(_error: NoMemory) -> Status {
        Status::NoMemory
    }
}

/// The exit status of the program.
pub fn code(status: &Status) -> u8
    ensures { result ≡ code_of status.now }
{
    match status {
        Status::Done => 0,
        Status::Usage => 2,
        Status::ReadFault { .. } => 3,
        Status::WriteFault { .. } => 4,
        Status::SinkFault => 5,
        Status::NoMemory => 6,
        Status::NotAccepted { .. } => 8,
        Status::Limit(_) => 10,
        Status::Unbuilt => 15,
    }
}
