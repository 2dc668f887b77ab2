//! A second machine, which keeps labels at run time: it does what the reduction of the standard says, with
//! values that have their types. It is slow, and is there to be compared with.
//!
//! Sections are those of the WebAssembly Core Specification 1.0, but where Core 2.0 is named.
#![tactic(auto)]

mod access;
mod call;
mod callee;
mod control;
mod effect;
mod execute;
mod first_store;
mod frame;
mod label;
mod machine;
mod numbered;
mod numeric;
mod outermost;
mod pile;
mod places;
mod room;
mod run;
mod settle;
mod shown;
mod simple;
mod sound;
mod store;
mod turns;
mod variables;

pub use machine::LabelMachine;
pub use turns::Control;
