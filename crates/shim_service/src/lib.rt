//! What users of the shim call: the lines of its protocol, the loop that answers them, and the commands.
//! All of it is handed on: the lines are those of `request_lines`, the loop is that of `callers`, and the
//! commands are those of `file_commands`.
#![tactic(auto)]

pub use callers::{Driven, NoNotes, Notes, drive};
pub use file_commands::{
    Command, CommandError, Ran, RunError, Settings, asm_file, check_file, command_of, file_of,
    files_of, laws, perform, replay_lines, run_file,
};
pub use request_lines::{
    bad_request_line, event_line_of, event_of, line_of, no_memory_line, request_of,
};
