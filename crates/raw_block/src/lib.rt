//! A block of memory over a raw pointer, taken once and given back once: for a stack of words and for a
//! linear memory.
#![tactic(auto)]

mod block;

pub use block::{Deed, Start, allocate, forget, free, front, no_places};
