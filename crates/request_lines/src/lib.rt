//! Lines of requests and replies: a line to a request or an event, a reply to its line, and lines as they are
//! read from a stream.
#![tactic(auto)]

mod calls_left;
mod frame_value;
pub mod laws;
mod line_error;
mod line_reader;
mod members;
mod parse_event;
mod parse_request;
mod reply_line;
mod reply_value;
mod shown;
mod stream;
mod table;
mod values;

pub use line_error::LineError;
pub use line_reader::{LineReader, Stop};
pub use members::MAX_LINE_BYTES;
pub use parse_event::{event_of, read_event_line};
pub use parse_request::{read_request_line, request_of};
pub use reply_line::{
    answer_line, bad_request_line, event_line, event_line_of, line_of, no_memory_line,
};
pub use stream::{Sink, Source, StreamFailed, Watched};
pub use table::{Key, Kind, Op};
