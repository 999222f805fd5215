use em_base::NoMemory;
use std::alloc::AllocError;
use thiserror::Error;

/// Why a text isn't the rules of a macro.
#[derive(Clone, Copy, Debug, Error, PartialEq, Eq)]
pub enum RulesError {
    #[error("out of memory")]
    NoMemory,
    #[error("the rules have not the form of rules, or can't be followed with one token")]
    Bad,
}

/// Why no arm is chosen: none decides, or the first one that does is broken or too deep.
#[derive(Clone, Copy, Debug, Error, PartialEq, Eq)]
pub enum MacroError {
    #[error("out of memory")]
    NoMemory,
    #[error("no arm matches")]
    NoArm,
    #[error("arm {arm} meets a fragment that isn't whole")]
    Broken { arm: u32 },
    #[error("a fragment nests too deep")]
    Depth,
}

/// Why an arm can't be copied: a repetition has no length of its own.
#[derive(Clone, Copy, Debug, Error, PartialEq, Eq)]
pub enum CopyError {
    #[error("out of memory")]
    NoMemory,
    #[error("the lengths of a repetition don't fit")]
    Lengths,
}

/// Why a matcher doesn't match.
#[derive(Clone, Copy, Debug, PartialEq, Eq)]
pub enum Stop {
    NoMemory,
    Fails,
    Broken,
    Depth,
}

impl From<NoMemory> for RulesError {
    ghost use Rattle.std.specs.Prelude.{◌≡◌};
    ghost use Rattle.em_macro.specs.declared.error.RulesError.TheVariants as Refusal;

    ghost from_gives = { λ _ e. e ≡ Refusal.NoMemory };

    fn from(_error: NoMemory) -> RulesError {
        RulesError::NoMemory
    }
}

impl From<AllocError> for RulesError {
    ghost use Rattle.std.specs.Prelude.{◌≡◌};
    ghost use Rattle.em_macro.specs.declared.error.RulesError.TheVariants as Refusal;

    ghost from_gives = { λ _ e. e ≡ Refusal.NoMemory };

    fn from(_error: AllocError) -> RulesError {
        RulesError::NoMemory
    }
}

impl From<NoMemory> for Stop {
    ghost use Rattle.std.specs.Prelude.{◌≡◌};
    ghost use Rattle.em_macro.specs.declared.error.Stop.TheVariants as Refusal;

    ghost from_gives = { λ _ e. e ≡ Refusal.NoMemory };

    fn from(_error: NoMemory) -> Stop {
        Stop::NoMemory
    }
}

impl From<NoMemory> for MacroError {
    ghost use Rattle.std.specs.Prelude.{◌≡◌};
    ghost use Rattle.em_macro.specs.declared.error.MacroError.TheVariants as Refusal;

    ghost from_gives = { λ _ e. e ≡ Refusal.NoMemory };

    fn from(_error: NoMemory) -> MacroError {
        MacroError::NoMemory
    }
}

impl From<NoMemory> for CopyError {
    ghost use Rattle.std.specs.Prelude.{◌≡◌};
    ghost use Rattle.em_macro.specs.declared.error.CopyError.TheVariants as Refusal;

    ghost from_gives = { λ _ e. e ≡ Refusal.NoMemory };

    fn from(_error: NoMemory) -> CopyError {
        CopyError::NoMemory
    }
}

impl From<AllocError> for Stop {
    ghost use Rattle.std.specs.Prelude.{◌≡◌};
    ghost use Rattle.em_macro.specs.declared.error.Stop.TheVariants as Refusal;

    ghost from_gives = { λ _ e. e ≡ Refusal.NoMemory };

    fn from(_error: AllocError) -> Stop {
        Stop::NoMemory
    }
}

impl From<AllocError> for CopyError {
    ghost use Rattle.std.specs.Prelude.{◌≡◌};
    ghost use Rattle.em_macro.specs.declared.error.CopyError.TheVariants as Refusal;

    ghost from_gives = { λ _ e. e ≡ Refusal.NoMemory };

    fn from(_error: AllocError) -> CopyError {
        CopyError::NoMemory
    }
}

impl From<AllocError> for MacroError {
    ghost use Rattle.std.specs.Prelude.{◌≡◌};
    ghost use Rattle.em_macro.specs.declared.error.MacroError.TheVariants as Refusal;

    ghost from_gives = { λ _ e. e ≡ Refusal.NoMemory };

    fn from(_error: AllocError) -> MacroError {
        MacroError::NoMemory
    }
}
