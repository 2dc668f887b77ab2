//! Linear memory: a list of bytes that grows in pages, up to a cap (2.5.5, 4.2.8). Sections are those of
//! the WebAssembly Core Specification 1.0.
#![tactic(auto)]

pub mod laws;
mod memory;
mod width;
mod words;
mod zeros;

pub use memory::{LinearMemory, MAX_PAGES, PAGE_BYTES, RangeBytes};
pub use width::Width;
