//! Why a line could not be read.

ghost use Rattle.std.specs.Prelude.{◌≡◌};

use std::alloc::AllocError;
use wasm_ast::Refusal;

/// Why there is no request, or event, in the caller's hands.
#[derive(Clone, Copy, PartialEq, Eq, Debug)]
pub enum LineError {
    /// The line is none.
    NoRequest,
    /// Memory ran out while it was read.
    OutOfMemory,
}

impl From<AllocError> for LineError {
    ghost use Rattle.request_lines.specs.declared.line_error.LineError.TheVariants.{OutOfMemory};

    ghost from_gives = { λ _ error. error ≡ OutOfMemory };

    fn from(_error: AllocError) -> LineError {
        LineError::OutOfMemory
    }
}

impl From<LineError> for Refusal {
    ghost use Rattle.request_lines.specs.Inside.Parse.{refusal_of};

    ghost from_gives = { λ error refusal. refusal ≡ refusal_of error };

    fn from(error: LineError) -> Refusal {
        match error {
            LineError::NoRequest => Refusal::BadRequest,
            LineError::OutOfMemory => Refusal::NoMemory,
        }
    }
}
