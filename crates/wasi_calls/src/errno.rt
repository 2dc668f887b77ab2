//! Error numbers ($errno).

/// The call was made.
pub const SUCCESS: u32 = 0;

/// No such file descriptor.
pub const BADF: u32 = 8;

/// An address outside memory.
pub const FAULT: u32 = 21;

/// No room is left.
pub const NOSPC: u32 = 51;
