//! Execution: what a turn is, and a machine that makes turns.
//!
//! # The state
//!
//! A `Machine` (machine.rt) is seen as its module, its process and the number of its turns. Everything
//! else about it is the configuration after these turns, which specs/Turns.antt and specs/Reduction.antt
//! define. How its fields represent that configuration is its invariant (specs/Inside/Going.antt):
//!
//! - `of`: the module and its flat code, shared by all machines of the module (flat_module.rt).
//! - `at`: the innermost frame: next cell, locals and operands on one stack (current.rt).
//! - `kept`: the frames that have called, memory, table, globals, process (kept.rt, callers.rt).
//! - `end`: how it ended, if it has (ends.rt).
//!
//! # The way of a slice
//!
//! `Machine::run` chooses one of three copies of the loop in run_loop.rt: without a test for room on the
//! stack, or with one (room.rt) and with or without a look for breakpoints (watch.rt). The loop
//! calls `step` in turn.rt once for each cell. `step` reads the cell and calls the function of its
//! kind: do_values.rt, do_variables.rt, do_memory.rt, do_control.rt, do_calls.rt, do_system.rt.
//! Superinstructions are in superinstructions.rt, what follows in them in parts.rt and actions.rt.
//! The ends of blocks and bodies, which take no turn, are in settle.rt.
//!
//! All memory that turns need is allocated when the module is instantiated: instantiate.rt has the
//! refusals, first_data.rt and store.rt the first store, start_up.rt the first frames.
//!
//! # Where to begin
//!
//! To believe a contract, read specs/Reduction.antt, then Turns.antt and MachineView.antt. To change the
//! code, read machine.rt, then run_loop.rt and turn.rt.
//!
//! Sections are those of the WebAssembly Core Specification 1.0.
#![tactic(auto)]

mod actions;
mod breaks;
mod callee;
mod callees;
mod callers;
mod current;
mod do_calls;
mod do_control;
mod do_memory;
mod do_system;
mod do_values;
mod do_variables;
mod ends;
mod first_data;
mod flat_module;
mod follows;
mod frames;
mod host_calls;
mod instantiate;
mod kept;
pub mod laws;
mod machine;
mod needed_memory;
mod parts;
mod process_texts;
mod resting;
mod room;
mod run_loop;
mod settle;
mod start_up;
mod store;
mod superinstructions;
mod turn;
mod watch;
pub mod worked;
pub mod worked_calls;
pub mod worked_frames;
pub mod worked_instantiation;
pub mod worked_instructions;

pub use breaks::Breaks;
pub use callers::MAX_FRAMES;
pub use current::MAX_VALUES;
pub use do_memory::{load_width, store_width};
pub use ends::{End, SliceEnd};
pub use flat_module::FlatModule;
pub use frames::FrameWords;
pub use host_calls::known;
pub use instantiate::{constant, find_entry};
pub use machine::{LAST_TURN, Machine};
pub use store::{first_memory, first_table};
pub use validator::{Valid, validate};
pub use wasi_calls::HostCall;
