use em_base::NoMemory;
use std::alloc::AllocError;

/// Why nothing was read: none of the kind stands there, or it nests too deep to tell.
#[derive(Clone, Copy, Debug, PartialEq, Eq)]
pub enum Stop {
    NoMemory,
    Absent,
    Deep,
}

impl From<NoMemory> for Stop {
    ghost use Rattle.std.specs.Prelude.{◌≡◌};
    ghost use Rattle.em_read.specs.declared.stop.Stop.TheVariants as Refusal;

    ghost from_gives = { λ _ e. e ≡ Refusal.NoMemory };

    fn from(_error: NoMemory) -> Stop {
        Stop::NoMemory
    }
}

impl From<AllocError> for Stop {
    ghost use Rattle.std.specs.Prelude.{◌≡◌};
    ghost use Rattle.em_read.specs.declared.stop.Stop.TheVariants as Refusal;

    ghost from_gives = { λ _ e. e ≡ Refusal.NoMemory };

    fn from(_error: AllocError) -> Stop {
        Stop::NoMemory
    }
}
