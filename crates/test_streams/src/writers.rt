//! Writers over memory that are interrupted, that fail, that take no more, and that count lines.

ghost use Rattle.std.specs.Io.{WritesAtMost};

use std::alloc::Global;
use std::cell::Cell;
use std::io;
use std::io::{ErrorKind, Write};

/// A writer that takes a number of bytes.
#[derive(Drop)]
pub struct FailingWriter {
    written: Vec<u8>,
    /// Bytes that it still takes.
    room: usize,
    /// Bytes that a write takes at most.
    piece: usize,
    /// Whether each other write is interrupted, and whether the last one was.
    interrupts: bool,
    interrupted: bool,
    /// Whether it fails when it has no room, or else takes nothing.
    fails: bool,
    /// Whether it can be flushed.
    flushes: bool,
}

impl FailingWriter {
    /// A writer that takes this number of bytes and then fails.
    pub fn new(alloc: Global, room: usize) -> FailingWriter {
        FailingWriter {
            written: Vec::new(alloc),
            room,
            piece: usize::MAX,
            interrupts: false,
            interrupted: false,
            fails: true,
            flushes: true,
        }
    }

    /// A writer that takes this number of bytes and then none.
    pub fn full(alloc: Global, room: usize) -> FailingWriter {
        let mut writer = FailingWriter::new(alloc, room);
        writer.fails = false;
        writer
    }

    /// A writer that takes a byte at a time, and is interrupted before each.
    pub fn interrupted(alloc: Global) -> FailingWriter {
        let mut writer = FailingWriter::new(alloc, usize::MAX);
        writer.piece = 1;
        writer.interrupts = true;
        writer
    }

    /// A writer that takes all bytes, and fails when it is flushed.
    pub fn stuck(alloc: Global) -> FailingWriter {
        let mut writer = FailingWriter::new(alloc, usize::MAX);
        writer.flushes = false;
        writer
    }

    /// What was written.
    pub fn as_slice(&self) -> &[u8] {
        self.written.as_slice()
    }

    // Takes bytes, as many as it has room for.
    fn take(&mut self, buf: &[u8]) -> io::Result<usize>
        ensures { WritesAtMost result buf.now }
    {
        let n = buf.len().min(self.room).min(self.piece);
        let (now, _) = buf.split_at(n);
        self.written.extend_from_slice(now)?;
        self.room -= n;
        Ok(n)
    }
}

impl Write for FailingWriter {
    fn write(&mut self, buf: &[u8]) -> io::Result<usize> {
        self.interrupted = self.interrupts && !self.interrupted;
        if self.interrupted {
            return Err(io::Error::from(ErrorKind::Interrupted));
        }
        if self.fails && self.room == 0 && !buf.is_empty() {
            return Err(io::Error::from(ErrorKind::BrokenPipe));
        }
        self.take(buf)
    }

    fn flush(&mut self) -> io::Result<()> {
        if self.flushes {
            Ok(())
        } else {
            Err(io::Error::from(ErrorKind::BrokenPipe))
        }
    }
}

/// A writer that counts the lines which are written to it and flushed.
#[derive(Drop)]
pub struct CountingWriter<'a> {
    written: usize,
    flushed: &'a Cell<usize>,
}

impl<'a> CountingWriter<'a> {
    /// A writer that counts there.
    pub fn new(flushed: &'a Cell<usize>) -> CountingWriter<'a> {
        CountingWriter {
            written: 0,
            flushed,
        }
    }
}

impl Write for CountingWriter<'_> {
    fn write(&mut self, buf: &[u8]) -> io::Result<usize> {
        let lines = buf.iter().filter(|byte| **byte == b'\n').count();
        self.written = self.written.wrapping_add(lines);
        Ok(buf.len())
    }

    fn flush(&mut self) -> io::Result<()> {
        self.flushed.set(self.written);
        Ok(())
    }
}
