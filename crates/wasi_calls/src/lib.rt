//! The system calls of WASI snapshot_preview1 that a task may make.
#![tactic(auto)]

mod dispatch;
mod errno;
mod fd_write;
mod host_call;
mod host_end;
pub mod laws;
mod ranges;
mod texts;
mod without_memory;
pub mod worked;

pub use dispatch::host;
pub use host_call::HostCall;
pub use host_end::HostEnd;
