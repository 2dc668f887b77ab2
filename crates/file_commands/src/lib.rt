//! The command line, and the commands: what is asked for, and what `replay`, `asm`, `check` and `run` write.
#![tactic(auto)]

mod arguments;
mod asm;
mod caller_words;
mod check;
mod command;
mod dispatch;
mod explain;
pub mod laws;
mod ran;
mod replay;
mod row;
mod run;
mod run_error;
mod serve;
mod settings;
mod source;
mod task_check;
pub mod worked;

pub use asm::asm_file;
pub use caller_words::files_of;
pub use check::check_file;
pub use command::{Command, CommandError, command_of};
pub use dispatch::{file_of, perform};
pub use ran::Ran;
pub use replay::replay_lines;
pub use run::run_file;
pub use run_error::RunError;
pub use settings::Settings;
