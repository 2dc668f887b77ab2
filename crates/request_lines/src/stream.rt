//! Streams of lines, which keep why they failed.

ghost use Rattle.std.specs.Prelude.{◌≡◌, ◌≢◌, ◌<◌, ◌++◌, ℕ, List, Some, None, OnOk, OnErr};
ghost use Rattle.std.specs.Prelude.{true, false};
ghost use Rattle.std.specs.Io.{ReadsAtMost};
ghost use Rattle.std.specs.Io.KnownBytes.{Appends, Keeps, ReadConsumes};
ghost use Rattle.std.specs.IoError.{error_kind};
ghost use Rattle.request_lines.specs.Stream.{HasFailed};

use crate::calls_left::CallsLeft;
use std::io::{Error, ErrorKind, Read, Write};

/// A stream failed. It keeps why.
#[derive(Clone, Copy, PartialEq, Eq, Debug)]
pub struct StreamFailed;

/// What lines are read from.
pub trait Source {
    ghost use Rattle.std.specs.Prelude.{ℕ, List, Option};

    /// The bytes that it will give from here on, where they are known.
    ghost remaining: { Self → Option (List ℕ) };

    /// It has failed.
    ghost has_failed: { Self → Type 0 };

    /// How many more times it reads at most.
    ghost reads_left: { Self → ℕ };

    /// Reads the next bytes to the front of the buffer, and says how many: none only at its end, or
    /// if the buffer is empty. An error exactly if it fails.
    fn read(&mut self, buf: &mut [u8]) -> Result<usize, StreamFailed>
        ensures bound { ReadsAtMost result buf.new }
        ensures bytes { ReadConsumes (remaining self.old) (remaining self.new) result buf.new }
        ensures failed { OnErr result (has_failed self.new) }
        ensures left { OnOk result (reads_left self.new < reads_left self.old) };
}

/// What the lines of replies are written to.
pub trait Sink {
    ghost use Rattle.std.specs.Prelude.{ℕ, List, Option};

    /// The bytes that it holds, where they are known.
    ghost contents: { Self → Option (List ℕ) };

    /// It has failed.
    ghost has_failed: { Self → Type 0 };

    /// Writes all the bytes, and flushes. An error exactly if it fails; then a beginning of them was written.
    fn put(&mut self, bytes: &[u8]) -> Result<(), StreamFailed>
        ensures all { OnOk result (Appends (contents self.old) (contents self.new) bytes.now) }
        ensures some { (front : List ℕ) × ((rest : List ℕ) × (front ++ rest ≡ bytes.now))
            × Appends (contents self.old) (contents self.new) front }
        ensures failed { OnErr result (has_failed self.new) };
}

/// A stream of std, with the error by which it failed.
#[derive(Drop)]
pub struct Watched<S> {
    stream: S,
    error: Option<Error>,
    /// How many more times it is read, written to or flushed at most.
    calls: CallsLeft,
}

impl<S> Watched<S> {
    /// A stream that has not failed, and may be read, written to and flushed 2^64 - 1 times together.
    pub fn new(stream: S) -> Watched<S>
        ensures stream { result.stream ≡ stream }
        ensures whole { result.error ≡ None }
        ensures calls { result.calls.left ≡ 18446744073709551615 }
    {
        Watched {
            stream,
            error: None,
            calls: CallsLeft::all(),
        }
    }

    /// The error by which it failed. None if it has not failed.
    pub fn error(&self) -> Option<&Error>
        ensures { result ≡ None → self.now.error ≡ None }
    {
        self.error.as_ref()
    }

    /// The stream itself.
    pub fn into_stream(self) -> S
        ensures { result ≡ self.stream }
    {
        self.stream
    }

    // Keeps why it failed.
    fn fail(&mut self, error: Error) -> StreamFailed
        ensures stream { self.new.stream ≡ self.old.stream }
        ensures calls { self.new.calls ≡ self.old.calls }
        ensures failed { self.new.error ≡ Some error }
    {
        self.error = Some(error);
        StreamFailed
    }
}

// Whether a stream is to be called again: only if it was interrupted.
fn is_interrupted(error: &Error) -> bool
    ensures yes { error_kind error.now ≡ ErrorKind.Interrupted → result ≡ true }
    ensures no { error_kind error.now ≢ ErrorKind.Interrupted → result ≡ false }
{
    error.kind() == ErrorKind::Interrupted
}

impl<S: Read> Source for Watched<S> {
    ghost use Rattle.request_lines.specs.Stream.{HasFailed};

    ghost remaining = { λ w. S.remaining w.stream };

    ghost has_failed = { λ w. HasFailed w.error w.calls.left };

    ghost reads_left = { λ w. w.calls.left };

    fn read(&mut self, buf: &mut [u8]) -> Result<usize, StreamFailed> {
        while self.calls.take_one() {
            match self.stream.read(buf) {
                Ok(count) => return Ok(count),
                Err(error) => {
                    if !is_interrupted(&error) {
                        return Err(self.fail(error));
                    }
                }
            }
        }
        Err(self.fail(Error::from(ErrorKind::Interrupted)))
    }
}

impl<S: Write> Watched<S> {
    // Writes all the bytes.
    fn write_whole(&mut self, bytes: &[u8]) -> Result<(), StreamFailed>
        ensures all { OnOk result
            (Appends (S.contents self.old.stream) (S.contents self.new.stream) bytes.now) }
        ensures some { (front : List ℕ) × ((rest : List ℕ) × (front ++ rest ≡ bytes.now))
            × Appends (S.contents self.old.stream) (S.contents self.new.stream) front }
        ensures failed { OnErr result (HasFailed self.new.error self.new.calls.left) }
    {
        let mut at = 0;
        loop {
            if at == bytes.len() {
                return Ok(());
            }
            if !self.calls.take_one() {
                return Err(self.fail(Error::from(ErrorKind::Interrupted)));
            }
            match self.stream.write(&bytes[at..]) {
                Ok(0) => return Err(self.fail(Error::from(ErrorKind::WriteZero))),
                Ok(count) => at += count,
                Err(error) => {
                    if !is_interrupted(&error) {
                        return Err(self.fail(error));
                    }
                }
            }
        }
    }

    // Flushes what was written.
    fn flush_whole(&mut self) -> Result<(), StreamFailed>
        ensures stays { Keeps (S.contents self.old.stream) (S.contents self.new.stream) }
        ensures failed { OnErr result (HasFailed self.new.error self.new.calls.left) }
    {
        while self.calls.take_one() {
            match self.stream.flush() {
                Ok(()) => return Ok(()),
                Err(error) => {
                    if !is_interrupted(&error) {
                        return Err(self.fail(error));
                    }
                }
            }
        }
        Err(self.fail(Error::from(ErrorKind::Interrupted)))
    }
}

impl<S: Write> Sink for Watched<S> {
    ghost use Rattle.request_lines.specs.Stream.{HasFailed};

    ghost contents = { λ w. S.contents w.stream };

    ghost has_failed = { λ w. HasFailed w.error w.calls.left };

    fn put(&mut self, bytes: &[u8]) -> Result<(), StreamFailed> {
        self.write_whole(bytes)?;
        self.flush_whole()
    }
}
