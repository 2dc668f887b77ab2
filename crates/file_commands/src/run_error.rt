//! Why a run was given up.

use std::alloc::AllocError;
use std::io::Error as IoError;
use thiserror::Error;

/// Why what a task writes was not written to its end.
#[derive(Debug, Drop, Error)]
pub enum RunError {
    /// Memory ran out for anything but what the task itself may be refused.
    #[error("out of memory")]
    OutOfMemory,
    /// Standard output could not be written or flushed.
    #[error("standard output: {0}")]
    StandardOutput(IoError),
    /// Standard error could not be written or flushed.
    #[error("standard error: {0}")]
    StandardError(IoError),
}

impl From<AllocError> for RunError {
    fn from(_error: AllocError) -> RunError {
        RunError::OutOfMemory
    }
}
