//! A stack of words with a limit, for the operands and locals of a machine (4.2.12). Sections are those of
//! the WebAssembly Core Specification 1.0.
#![tactic(auto)]

pub mod laws;
mod move_down;
mod stack;
mod words;

pub use stack::OperandStack;
