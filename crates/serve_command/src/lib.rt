//! The command `serve` over streams that are open: which callers it answers, what is said of them on standard
//! error, and its status.
#![tactic(auto)]

mod command;
mod log_gate;
mod said;
mod watch;

pub use command::{Work, serve};
pub use said::{OUT_OF_MEMORY, failed, stream_failed};
pub use watch::Wanted;
