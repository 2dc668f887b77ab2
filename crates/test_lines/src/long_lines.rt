//! Long lines of a caller: each has its answer, and the line after it is answered as ever.

use crate::checks::check_text;
use crate::driven::drives;
use callers::Driven;
use std::alloc::{AllocError, Global};
use std::process::Abort;
use std::str::from_utf8;
use std::sync::Wait;
use std::test::Fail;
use test_streams::{
    BAD_ID_LINE, BAD_REQUEST_LINE, ChunkedReader, FailingWriter, NOT_FOUND_LINE, STATE,
};

/// A long line and its answer.
struct LongLine {
    head: &'static str,
    filler: &'static str,
    /// How often the filler is repeated.
    times: usize,
    tail: &'static str,
    answer: &'static str,
}

const LONG_LINES: &[LongLine] = &[
    // 1,048,576 bytes and one more.
    LongLine {
        head: STATE,
        filler: " ",
        times: 1_048_552,
        tail: "",
        answer: NOT_FOUND_LINE,
    },
    LongLine {
        head: STATE,
        filler: " ",
        times: 1_048_553,
        tail: "",
        answer: BAD_REQUEST_LINE,
    },
    LongLine {
        head: STATE,
        filler: " ",
        times: 3_000_000,
        tail: "",
        answer: BAD_REQUEST_LINE,
    },
    LongLine {
        head: "",
        filler: "x",
        times: 3_000_000,
        tail: STATE,
        answer: BAD_REQUEST_LINE,
    },
    // An id of 64 characters and one more.
    LongLine {
        head: "{\"op\":\"state\",\"id\":\"",
        filler: "z",
        times: 64,
        tail: "\"}",
        answer: NOT_FOUND_LINE,
    },
    LongLine {
        head: "{\"op\":\"state\",\"id\":\"",
        filler: "z",
        times: 65,
        tail: "\"}",
        answer: BAD_ID_LINE,
    },
    // Deep nesting.
    LongLine {
        head: "",
        filler: "[",
        times: 200,
        tail: "",
        answer: BAD_REQUEST_LINE,
    },
    LongLine {
        head: "",
        filler: "[",
        times: 1_000_000,
        tail: "",
        answer: BAD_REQUEST_LINE,
    },
    LongLine {
        head: "",
        filler: "{\"a\":",
        times: 200_000,
        tail: "",
        answer: BAD_REQUEST_LINE,
    },
    LongLine {
        head: "{\"op\":\"state\",\"id\":",
        filler: "[",
        times: 500_000,
        tail: "]",
        answer: BAD_REQUEST_LINE,
    },
    // A long number, and many keys.
    LongLine {
        head: "{\"op\":\"state\",\"id\":",
        filler: "1",
        times: 1_000_000,
        tail: "}",
        answer: BAD_REQUEST_LINE,
    },
    LongLine {
        head: "{\"op\":\"state\",",
        filler: "\"id\":\"\",",
        times: 100_000,
        tail: "\"id\":\"zz\"}",
        answer: NOT_FOUND_LINE,
    },
];

fn long_line(alloc: Global, row: &LongLine) -> Result<String, Fail> {
    let head = row.head;
    let tail = row.tail;
    let filler = row.filler.repeat(alloc, row.times)?;
    Ok(format!(in alloc; "{head}{filler}{tail}\n{STATE}\n")?)
}

// What the line and the request after it are answered.
fn answers_of(alloc: Global, row: &LongLine) -> Result<String, AllocError> {
    let mut answers = String::from_str(alloc, row.answer)?;
    answers.push_str(NOT_FOUND_LINE)?;
    Ok(answers)
}

// What a shim of its own writes as it answers these lines to their end.
fn driven<H: Wait + Abort>(rt: &H, alloc: Global, lines: &str) -> Result<FailingWriter, Fail> {
    let mut writer = FailingWriter::new(alloc, usize::MAX);
    let mut reader = ChunkedReader::new(lines.as_bytes());
    let end = drives(rt, alloc, &mut reader, &mut writer)?;
    assert_eq!(rt; end, Driven::End);
    Ok(writer)
}

fn check_long<H: Wait + Abort>(rt: &H, alloc: Global, row: &LongLine) -> Result<(), Fail> {
    let lines = long_line(alloc, row)?;
    let writer = driven(rt, alloc, lines.as_str())?;
    let wanted = answers_of(alloc, row)?;
    let found = from_utf8(writer.as_slice())?;
    check_text(rt, row.filler, found, wanted.as_str());
    Ok(())
}

#[test]
fn long_lines_are_answered(rt: HostRuntime) -> Result<(), Fail> {
    for row in LONG_LINES {
        check_long(&rt, rt.alloc(), row)?;
    }
    Ok(())
}
