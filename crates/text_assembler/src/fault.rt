//! Why a text could not be read.

ghost use Rattle.std.specs.Prelude.{◌≡◌};
ghost use Rattle.text_assembler.specs.declared.fault.ReadError.TheVariants.{Memory};

use std::alloc::{AllocError, AllocFailed};

/// What is wrong with a text: the first fault from the front.
#[derive(Clone, Copy)]
pub enum Fault {
    /// No module is denoted.
    Malformed,
    /// A block opens while 256 are open.
    TooDeep,
}

/// Why reading ended early.
#[derive(Clone, Copy)]
pub enum ReadError {
    /// Memory ran out.
    Memory,
    /// No module is denoted. This many items, characters or tokens, are left where the fault is.
    Malformed { left: usize },
    /// A block opens while 256 are open.
    TooDeep,
}

impl From<AllocError> for ReadError {
    ghost from_gives = { λ _ e. e ≡ Memory };

    fn from(_e: AllocError) -> ReadError {
        ReadError::Memory
    }
}

impl<T: Drop> From<AllocFailed<T>> for ReadError {
    ghost from_gives = { λ _ e. e ≡ Memory };

    fn from(_e: AllocFailed<T>) -> ReadError {
        ReadError::Memory
    }
}
