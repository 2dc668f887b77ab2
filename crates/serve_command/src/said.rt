//! What the program says on standard error if it fails.

ghost use Rattle.std.specs.Prelude.{◌≡◌};

use call_journal::StartError;
use callers::{Attended, Driven};
use request_lines::Watched;
use std::fmt::Display;
use std::io;
use std::io::ErrorKind;

/// What is said if memory runs out.
pub const OUT_OF_MEMORY: &str = "out of memory";

/// The names of a caller's two streams.
#[derive(Clone, Copy, Drop)]
pub struct Streams {
    /// What its lines are read from.
    pub lines: &'static str,
    /// What its replies are written to.
    pub replies: &'static str,
}

/// A stream that keeps why it failed.
pub trait Failing {
    /// The error by which it failed. None if it has not failed.
    fn error(&self) -> Option<&io::Error>;
}

impl<S> Failing for Watched<S> {
    fn error(&self) -> Option<&io::Error> {
        Watched::error(self)
    }
}

impl<S, H> Failing for Attended<Watched<S>, H> {
    fn error(&self) -> Option<&io::Error> {
        self.reader().error()
    }
}

/// Says why the program failed. Its status.
pub fn failed<E: Eprint>(to: &E, cause: &str) -> u8
    ensures { result ≡ 1 }
{
    let _told = eprintln!(to; "wasm-shim: {cause}");
    1
}

/// Says why a file or a stream failed. The status of the program.
pub fn stream_failed<E: Eprint, D: Display>(to: &E, name: &str, cause: &D) -> u8
    ensures { result ≡ 1 }
{
    let _told = eprintln!(to; "wasm-shim: {name}: {cause}");
    1
}

// Says why a stream ended that failed.
fn broken<E: Eprint>(to: &E, name: &str, error: Option<&io::Error>) -> u8 {
    match error {
        Some(error) => stream_failed(to, name, error),
        None => stream_failed(to, name, &io::Error::from(ErrorKind::WriteZero)),
    }
}

/// Says how the lines of a caller ended if they did not come to their end.
pub fn say_end<E: Eprint, R: Failing, W: Failing>(
    to: &E,
    driven: Driven,
    streams: Streams,
    reader: &R,
    writer: &W,
) {
    let _status = match driven {
        Driven::End => 0,
        Driven::ReadFault => broken(to, streams.lines, reader.error()),
        Driven::WriteFault => broken(to, streams.replies, writer.error()),
        Driven::NoMemory => failed(to, OUT_OF_MEMORY),
    };
}

/// Says why threads were not started. The status of the program.
pub fn not_started<E: Eprint>(to: &E, error: StartError) -> u8
    ensures { result ≡ 1 }
{
    match error {
        StartError::OutOfMemory => failed(to, OUT_OF_MEMORY),
        StartError::NoThread => failed(to, "a thread cannot be started"),
    }
}
