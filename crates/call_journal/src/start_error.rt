//! Why the threads over a shim were not started.

use std::alloc::AllocError;

/// Why threads were not started.
#[derive(Clone, Copy, PartialEq, Eq, Debug)]
pub enum StartError {
    /// Memory ran out for what the threads share, or for their list.
    OutOfMemory,
    /// A thread cannot be started.
    NoThread,
}

impl From<AllocError> for StartError {
    fn from(_error: AllocError) -> StartError {
        StartError::OutOfMemory
    }
}
