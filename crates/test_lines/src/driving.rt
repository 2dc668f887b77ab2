//! Streams of one caller that fail, that give a byte at a time, and that wait for an answer.

use crate::checks::{check_bytes, check_count};
use crate::driven::drives;
use callers::Driven;
use std::alloc::Global;
use std::cell::Cell;
use std::process::Abort;
use std::sync::Wait;
use std::test::Fail;
use test_streams::{
    ChunkedReader, CountingWriter, FailingWriter, PoliteReader, SIX_ANSWERS, SIX_LINES,
};

// Asserts how the lines ended.
fn check_end(rt: &impl Abort, at: usize, found: Driven, wanted: Driven) {
    assert_eq!(rt; found, wanted, "at {at}");
}

/// A reader whose lines are driven to a writer.
#[derive(Drop)]
struct Case<'a> {
    reader: ChunkedReader<'a>,
    writer: FailingWriter,
}

impl Case<'_> {
    // Asserts how the lines of the case end, what is written, and how often the reader's end is read.
    fn check<H: Wait + Abort>(
        &mut self,
        rt: &H,
        alloc: Global,
        end: Driven,
        written: &[u8],
        ends: usize,
    ) -> Result<(), Fail> {
        let driven = drives(rt, alloc, &mut self.reader, &mut self.writer)?;
        check_end(rt, written.len(), driven, end);
        check_bytes(rt, written.len(), self.writer.as_slice(), written);
        check_count(rt, "reads of the end", self.reader.ends(), ends);
        Ok(())
    }
}

// The first lines of a text.
fn first_lines(text: &str, count: usize) -> &str {
    let mut left = count;
    for (at, byte) in text.as_bytes().iter().enumerate() {
        if left == 0 {
            return text.get(..at).unwrap_or(text);
        }
        if *byte == b'\n' {
            left -= 1;
        }
    }
    text
}

// What is answered to the lines that are whole in these bytes of the script.
fn answers_to(head: &[u8]) -> &'static str {
    let lines = head.iter().filter(|byte| **byte == b'\n').count();
    first_lines(SIX_ANSWERS, lines)
}

// A reader gives these bytes of the script and fails.
fn check_reader<H: Wait + Abort>(rt: &H, alloc: Global, head: &[u8]) -> Result<(), Fail> {
    let mut case = Case {
        reader: ChunkedReader::failing(head),
        writer: FailingWriter::new(alloc, usize::MAX),
    };
    let written = answers_to(head).as_bytes();
    case.check(rt, alloc, Driven::ReadFault, written, 1)
}

// If the reader fails, the lines before are answered, and the start of the next one is not. It is not read
// again.
#[test]
fn a_reader_fails_anywhere(rt: HostRuntime) -> Result<(), Fail> {
    for at in 0..SIX_LINES.len() {
        let (head, _) = SIX_LINES.as_bytes().split_at(at);
        check_reader(&rt, rt.alloc(), head)?;
    }
    Ok(())
}

// A writer takes some bytes of the answers.
fn check_writer<H: Wait + Abort>(
    rt: &H,
    alloc: Global,
    writer: FailingWriter,
    written: &[u8],
) -> Result<(), Fail> {
    let mut case = Case {
        reader: ChunkedReader::new(SIX_LINES.as_bytes()),
        writer,
    };
    case.check(rt, alloc, Driven::WriteFault, written, 0)
}

// If the writer fails, what was written before stays as it is, and nothing is read any more.
#[test]
fn a_writer_fails_anywhere(rt: HostRuntime) -> Result<(), Fail> {
    for room in 0..SIX_ANSWERS.len() {
        let (head, _) = SIX_ANSWERS.as_bytes().split_at(room);
        let writer = FailingWriter::new(rt.alloc(), room);
        check_writer(&rt, rt.alloc(), writer, head)?;
    }
    Ok(())
}

// A writer that takes no more is one that fails.
#[test]
fn a_writer_is_full_anywhere(rt: HostRuntime) -> Result<(), Fail> {
    for room in 0..SIX_ANSWERS.len() {
        let (head, _) = SIX_ANSWERS.as_bytes().split_at(room);
        let writer = FailingWriter::full(rt.alloc(), room);
        check_writer(&rt, rt.alloc(), writer, head)?;
    }
    Ok(())
}

// Each answer is flushed: the first one that cannot be is the last.
#[test]
fn a_writer_cannot_be_flushed(rt: HostRuntime) -> Result<(), Fail> {
    let first = first_lines(SIX_ANSWERS, 1);
    let writer = FailingWriter::stuck(rt.alloc());
    check_writer(&rt, rt.alloc(), writer, first.as_bytes())
}

// Asserts that the script is answered whole, and the reader's end is read once.
fn check_whole<H: Wait + Abort>(
    rt: &H,
    alloc: Global,
    reader: ChunkedReader<'_>,
    writer: FailingWriter,
) -> Result<(), Fail> {
    let mut case = Case { reader, writer };
    case.check(rt, alloc, Driven::End, SIX_ANSWERS.as_bytes(), 1)
}

// A byte at a time, and an interruption before each, make no difference.
#[test]
fn streams_of_single_bytes_are_interrupted(rt: HostRuntime) -> Result<(), Fail> {
    let reader = ChunkedReader::interrupted(SIX_LINES.as_bytes());
    let writer = FailingWriter::interrupted(rt.alloc());
    check_whole(&rt, rt.alloc(), reader, writer)
}

// A writer that has room for all answers does not fail.
#[test]
fn a_writer_has_room_for_all(rt: HostRuntime) -> Result<(), Fail> {
    let reader = ChunkedReader::new(SIX_LINES.as_bytes());
    let writer = FailingWriter::new(rt.alloc(), SIX_ANSWERS.len());
    check_whole(&rt, rt.alloc(), reader, writer)
}

// The last line needs no line feed. The end that comes in its place is not read again.
#[test]
fn the_last_line_has_no_line_feed(rt: HostRuntime) -> Result<(), Fail> {
    let reader = ChunkedReader::new(SIX_LINES.trim_end().as_bytes());
    let writer = FailingWriter::new(rt.alloc(), usize::MAX);
    check_whole(&rt, rt.alloc(), reader, writer)
}

// Each reply is written and flushed before the next line is asked for.
#[test]
fn no_reply_is_held_back(rt: HostRuntime) -> Result<(), Fail> {
    let flushed = Cell::new(0);
    let mut reader = PoliteReader::new(SIX_LINES.as_bytes(), &flushed);
    let mut writer = CountingWriter::new(&flushed);
    let driven = drives(&rt, rt.alloc(), &mut reader, &mut writer)?;
    check_end(&rt, 0, driven, Driven::End);
    check_count(&rt, "replies", flushed.get(), 6);
    Ok(())
}
