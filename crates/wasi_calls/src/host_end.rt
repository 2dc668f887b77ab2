//! What a system call answers.

/// What a system call answers.
#[derive(Clone, Copy, PartialEq, Eq, Debug)]
pub enum HostEnd {
    /// The result of a call that has one: an error number.
    Value(u32),
    /// A call without a result is done.
    Nothing,
    /// The task ends with this exit code.
    Exit(u32),
}
