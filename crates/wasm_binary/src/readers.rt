//! The reader of modules that says where and why bytes encode none, for who tells a person, and the
//! bytes that its places are told by.

pub use crate::fault::{Fault, Limited, Number, ReadError, Spot, Wanted, What, Whole};
pub use crate::numbers::{at_most, read_u32};
pub use crate::opcodes::{CODE_SECTION, CUSTOM_SECTION, IMPORT_SECTION, PREAMBLE};
pub use crate::sections::read_module;
