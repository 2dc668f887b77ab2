//! Why a check ends without success.

ghost use Rattle.std.specs.Prelude.{◌≡◌, ◌+◌, ◌≤◌, ℕ};
ghost use Rattle.validator.specs.Inside.CheckErrors.{IsLater};

use std::alloc::AllocError;

/// Why the check of one instruction, or of what it names, ended without success.
#[derive(Clone, Copy, PartialEq, Eq, Debug)]
pub enum CheckError {
    /// The instruction is not valid.
    Invalid,
    /// Memory for the check could not be allocated.
    Memory,
}

/// Why the check of a sequence of instructions ended without success.
#[derive(Clone, Copy, PartialEq, Eq, Debug)]
pub enum BodyError {
    /// The sequence is not valid. The number is that of the instruction at fault, counted from the first one
    /// of the sequence.
    Invalid(u32),
    /// Memory for the check could not be allocated.
    Memory,
}

impl BodyError {
    /// The same fault, counted from an instruction that is this many before the first one.
    pub fn later(self, by: u32) -> BodyError
        ensures { IsLater by self result }
    {
        match self {
            BodyError::Invalid(at) => BodyError::Invalid(at.saturating_add(by)),
            BodyError::Memory => BodyError::Memory,
        }
    }
}

impl From<AllocError> for CheckError {
    ghost use Rattle.std.specs.Prelude.{◌≡◌};
    ghost use Rattle.validator.specs.declared.check_error.CheckError.TheVariants.{Memory};

    ghost from_gives = { λ _ e. e ≡ Memory };

    fn from(_error: AllocError) -> CheckError {
        CheckError::Memory
    }
}

impl From<AllocError> for BodyError {
    ghost use Rattle.std.specs.Prelude.{◌≡◌};
    ghost use Rattle.validator.specs.declared.check_error.BodyError.TheVariants.{Memory};

    ghost from_gives = { λ _ e. e ≡ Memory };

    fn from(_error: AllocError) -> BodyError {
        BodyError::Memory
    }
}

impl From<CheckError> for BodyError {
    ghost use Rattle.std.specs.Prelude.{◌≡◌};
    ghost use Rattle.validator.specs.Inside.CheckErrors.{at_first};

    ghost from_gives = { λ error made. made ≡ at_first error };

    fn from(error: CheckError) -> BodyError {
        match error {
            CheckError::Invalid => BodyError::Invalid(0),
            CheckError::Memory => BodyError::Memory,
        }
    }
}

impl From<BodyError> for CheckError {
    ghost use Rattle.std.specs.Prelude.{◌≡◌};
    ghost use Rattle.validator.specs.Inside.CheckErrors.{anywhere};

    ghost from_gives = { λ error made. made ≡ anywhere error };

    fn from(error: BodyError) -> CheckError {
        match error {
            BodyError::Invalid(_) => CheckError::Invalid,
            BodyError::Memory => CheckError::Memory,
        }
    }
}
