//! A writer over memory that fails, and counts.

use std::alloc::Global;
use std::io;
use std::io::{ErrorKind, Write};

/// A writer that fails after a number of bytes.
#[derive(Drop)]
pub struct FailingWriter {
    written: Vec<u8>,
    /// Bytes that it still takes.
    room: usize,
    /// How many writes there were that had bytes and did not fail.
    writes: usize,
    /// How many bytes were written when it was flushed last.
    flushed: usize,
}

impl FailingWriter {
    /// A writer that takes this number of bytes.
    pub fn new(alloc: Global, room: usize) -> FailingWriter {
        FailingWriter {
            written: Vec::new(alloc),
            room,
            writes: 0,
            flushed: 0,
        }
    }

    /// What was written.
    pub fn as_slice(&self) -> &[u8] {
        self.written.as_slice()
    }

    /// In how many writes.
    pub fn writes(&self) -> usize {
        self.writes
    }

    /// Whether all that was written is flushed.
    pub fn is_flushed(&self) -> bool {
        self.flushed == self.written.len()
    }
}

impl Write for FailingWriter {
    fn write(&mut self, buf: &[u8]) -> io::Result<usize> {
        let n = buf.len().min(self.room);
        if n == 0 && !buf.is_empty() {
            return Err(io::Error::from(ErrorKind::BrokenPipe));
        }
        let (now, _) = buf.split_at(n);
        self.written.extend_from_slice(now)?;
        self.room -= n;
        if n > 0 {
            self.writes = self.writes.wrapping_add(1);
        }
        Ok(n)
    }

    fn flush(&mut self) -> io::Result<()> {
        self.flushed = self.written.len();
        Ok(())
    }
}
