//! What tests of callers share: lines with their answers, and streams over memory.
#![tactic(auto)]

mod fixtures;
mod readers;
mod writers;

pub use fixtures::{
    BAD_ID_LINE, BAD_REQUEST_LINE, LONG_LINES, NOT_FOUND_LINE, RUN_ANSWERS, RUN_LINES, SIX_ANSWERS,
    SIX_LINES, STATE, output_lines, repeated,
};
pub use readers::{ChunkedReader, PoliteReader};
pub use writers::{CountingWriter, FailingWriter};
