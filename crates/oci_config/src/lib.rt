//! What a task is run with: its process, as a config of the OCI Runtime Specification 1.0 asks for it.
#![tactic(auto)]

mod config;
mod page_cap;
mod process;
mod properties;
mod stream;
mod texts;
pub mod worked;

pub use config::{process_under, read_config};
pub use page_cap::PageCap;
pub use process::{Output, Process, ProcessConfig};
pub use stream::Stream;
