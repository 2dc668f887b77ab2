//! Readers over memory that are interrupted, that fail, and that wait for an answer.

ghost use Rattle.std.specs.Prelude.{◌≡◌, IfOk};

use std::cell::Cell;
use std::io;
use std::io::{ErrorKind, Read};

/// A reader over bytes.
#[derive(Drop)]
pub struct ChunkedReader<'a> {
    left: &'a [u8],
    /// Bytes that a read gives at most.
    piece: usize,
    /// Whether each other read is interrupted, and whether the last one was.
    interrupts: bool,
    interrupted: bool,
    /// Whether it fails after the last byte.
    fails: bool,
    /// How often it was read after the last byte.
    ends: usize,
}

impl<'a> ChunkedReader<'a> {
    /// A reader that gives these bytes and then is at its end.
    pub fn new(bytes: &'a [u8]) -> ChunkedReader<'a> {
        ChunkedReader {
            left: bytes,
            piece: usize::MAX,
            interrupts: false,
            interrupted: false,
            fails: false,
            ends: 0,
        }
    }

    /// A reader that gives these bytes and then fails.
    pub fn failing(bytes: &'a [u8]) -> ChunkedReader<'a> {
        let mut reader = ChunkedReader::new(bytes);
        reader.fails = true;
        reader
    }

    /// A reader that gives a byte at a time, and is interrupted before each.
    pub fn interrupted(bytes: &'a [u8]) -> ChunkedReader<'a> {
        let mut reader = ChunkedReader::new(bytes);
        reader.piece = 1;
        reader.interrupts = true;
        reader
    }

    /// How often it was read after the last byte.
    pub fn ends(&self) -> usize {
        self.ends
    }

    // What a read after the last byte gives.
    fn end(&mut self) -> io::Result<usize>
        ensures { IfOk result (λ n. n ≡ 0) }
    {
        self.ends = self.ends.wrapping_add(1);
        if self.fails {
            Err(io::Error::from(ErrorKind::ConnectionReset))
        } else {
            Ok(0)
        }
    }
}

impl Read for ChunkedReader<'_> {
    fn read(&mut self, buf: &mut [u8]) -> io::Result<usize> {
        self.interrupted = self.interrupts && !self.interrupted;
        if self.interrupted {
            return Err(io::Error::from(ErrorKind::Interrupted));
        }
        if self.left.is_empty() {
            return self.end();
        }
        let n = self.left.len().min(self.piece).min(buf.len());
        let (now, later) = self.left.split_at(n);
        buf[..n].copy_from_slice(now);
        self.left = later;
        Ok(n)
    }
}

/// A client that asks its next line only after it has read the answers to all lines before.
#[derive(Drop)]
pub struct PoliteReader<'a> {
    left: &'a [u8],
    asked: usize,
    answered: &'a Cell<usize>,
}

impl<'a> PoliteReader<'a> {
    /// A client that asks these lines, and counts its answers there.
    pub fn new(lines: &'a [u8], answered: &'a Cell<usize>) -> PoliteReader<'a> {
        PoliteReader {
            left: lines,
            asked: 0,
            answered,
        }
    }

    // The next line, with its line feed; the empty one after the last.
    fn next_line(&mut self) -> &'a [u8] {
        let end = self.left.iter().position(|byte| *byte == b'\n');
        let (line, left) = match end {
            Some(at) => self.left.split_at(at + 1),
            None => self.left.split_at(0),
        };
        self.left = left;
        line
    }
}

impl Read for PoliteReader<'_> {
    fn read(&mut self, buf: &mut [u8]) -> io::Result<usize> {
        if self.answered.get() != self.asked {
            return Err(io::Error::from(ErrorKind::TimedOut));
        }
        let line = self.next_line();
        if line.len() > buf.len() {
            return Err(io::Error::from(ErrorKind::InvalidInput));
        }
        buf[..line.len()].copy_from_slice(line);
        self.asked = self.asked.wrapping_add(1);
        Ok(line.len())
    }
}
