//! What is asked of a board of tasks and what it answers, as plain data.
#![tactic(auto)]

mod event;
pub mod laws;
mod request;
mod shared_bytes;

pub use event::{Event, EventReply, MAX_BUDGET, SLICE_TURNS};
pub use request::{Ask, Reply, Request, TaskState};
pub use shared_bytes::SharedBytes;
pub use task_lifecycle::{ExitRecord, Status};
