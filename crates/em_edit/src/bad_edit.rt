ghost use Rattle.std.specs.Prelude.{◌≡◌};

use em_base;

/// Why suggestions can't be applied. The index is that of the first bad one.
#[derive(Clone, Copy, Debug, PartialEq, Eq)]
pub enum BadEdit {
    NoMemory,
    /// A part of it is in no file, ends past the text's end or before its start.
    OutOfText { which: u32 },
    /// A part of it begins or ends inside a character.
    NotBoundary { which: u32 },
    /// A part of it meets another of the same or of an earlier suggestion.
    Overlap { which: u32 },
}

impl From<em_base::NoMemory> for BadEdit {
    ghost use Rattle.em_edit.specs.declared.bad_edit.BadEdit.TheVariants.{NoMemory};

    ghost from_gives = { λ _ e. e ≡ NoMemory };

    fn from(_error: em_base::NoMemory) -> BadEdit {
        BadEdit::NoMemory
    }
}
