//! Callers: the lines of a stream, answered one after another by a shim that many share, in one thread or
//! in threads of their own.
#![tactic(auto)]

mod answering;
mod caller;
mod contents;
mod ending;
mod flight;
pub mod laws;
mod living;
mod notes;

pub use answering::{Answered, Caller, answer_all};
pub use caller::{Driven, drive};
pub use contents::find_content;
pub use ending::write_answers;
pub use flight::{Attended, InFlight};
pub use living::{Answers, Ended, LiveCaller, Thread, answer_live};
pub use notes::{Missing, NoNotes, Notes, Report};
