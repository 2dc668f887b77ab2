//! The lifecycle of a task: its statuses, which call is allowed in which of them and where it
//! leads, and how a task ended.
#![tactic(auto)]

pub mod laws;
mod lifecycle;
mod status;

pub use lifecycle::{Situation, TaskCall};
pub use status::{ExitRecord, Signal, Status};
