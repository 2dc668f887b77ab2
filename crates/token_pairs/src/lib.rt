//! A pair of tokens of one name: what the one says, the other says too.
#![tactic(auto)]

mod pair;

pub use pair::{Slip, Stub};
