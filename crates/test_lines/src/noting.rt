//! What notes are told of the lines of a caller: each answer before its reply is written, and each end.

use crate::checks::{check_bytes, check_count};
use crate::driven::drives_noted;
use call_journal::{Row, Seat, Shim};
use callers::{Driven, Notes};
use request_lines::line_of;
use std::alloc::Global;
use std::cell::Cell;
use std::process::Abort;
use std::sync::Wait;
use std::test::Fail;
use task_board::{ExitRecord, Reply};
use test_streams::{ChunkedReader, CountingWriter, SIX_ANSWERS, SIX_LINES};
use wasm_ast::{Refusal, Text};

/// Starts the task that the first two of `SIX_LINES` create, and waits for it: the caller runs it to its end.
const RUN_IT: &str = "{\"op\":\"start\",\"id\":\"a\"}\n{\"op\":\"wait\",\"id\":\"a\"}\n";

/// Notes that keep the line of each answer, and count ends, and lines that were told after their reply.
#[derive(Drop)]
struct Kept<'a> {
    alloc: Global,
    lines: Vec<u8>,
    told: usize,
    ends: usize,
    late: usize,
    written: &'a Cell<usize>,
}

impl<'a> Kept<'a> {
    // Notes that have been told nothing. Replies that are written are counted there.
    fn new(alloc: Global, written: &'a Cell<usize>) -> Kept<'a> {
        Kept {
            alloc,
            lines: Vec::new(alloc),
            told: 0,
            ends: 0,
            late: 0,
            written,
        }
    }

    // Keeps the line of an answer; nothing if memory runs out.
    fn keep(&mut self, answer: &Result<Reply, Refusal>) {
        if let Ok(line) = line_of(self.alloc, answer) {
            let _kept = self.lines.extend_from_slice(line.as_bytes());
        }
    }
}

impl Notes for Kept<'_> {
    fn note<J: Row>(
        &mut self,
        _shim: &Shim<J>,
        _seat: &Seat<J>,
        _line: Option<&[u8]>,
        answer: &Result<Reply, Refusal>,
    ) {
        if self.written.get() != self.told {
            self.late = self.late.wrapping_add(1);
        }
        self.told = self.told.wrapping_add(1);
        self.keep(answer);
    }

    fn ended(&mut self, _id: &Text, _turns: u64, _end: ExitRecord) {
        self.ends = self.ends.wrapping_add(1);
    }
}

// Lets a caller ask these lines, with notes. None if they do not come to their end.
fn noted<'a, H: Wait>(
    rt: &H,
    alloc: Global,
    lines: &str,
    written: &'a Cell<usize>,
) -> Option<Kept<'a>> {
    let mut reader = ChunkedReader::new(lines.as_bytes());
    let mut writer = CountingWriter::new(written);
    let mut notes = Kept::new(alloc, written);
    let driven = drives_noted(rt, alloc, &mut reader, &mut writer, &mut notes).ok()?;
    if driven == Driven::End {
        Some(notes)
    } else {
        None
    }
}

// Asserts how many lines notes were told in time, and how many ends.
fn check_told(rt: &impl Abort, notes: &Kept<'_>, told: usize) {
    check_count(rt, "lines that are told", notes.told, told);
    check_count(rt, "lines that are told late", notes.late, 0);
    check_count(rt, "ends that are told", notes.ends, 1);
}

// The task is killed while it is idle.
#[test]
fn notes_are_told_each_answer_before_it_is_written(rt: HostRuntime) -> Result<(), Fail> {
    let written = Cell::new(0);
    let notes = noted(&rt, rt.alloc(), SIX_LINES, &written);
    assert!(rt; notes.is_some());
    if let Some(notes) = notes {
        check_told(&rt, &notes, 6);
        check_bytes(&rt, 0, notes.lines.as_slice(), SIX_ANSWERS.as_bytes());
    }
    Ok(())
}

// The lines of a task that ends in a slice that its caller runs.
fn run_lines(alloc: Global) -> Option<String> {
    let (begin, _) = SIX_LINES.split_once("{\"op\":\"wait\"")?;
    let mut lines = String::from_str(alloc, begin).ok()?;
    lines.push_str(RUN_IT).ok()?;
    Some(lines)
}

#[test]
fn notes_are_told_an_end_in_the_slice_of_a_caller(rt: HostRuntime) -> Result<(), Fail> {
    let written = Cell::new(0);
    let lines = run_lines(rt.alloc()).ok_or(Refusal::BadRequest)?;
    let notes = noted(&rt, rt.alloc(), lines.as_str(), &written);
    assert!(rt; notes.is_some());
    if let Some(notes) = notes {
        check_told(&rt, &notes, 4);
    }
    Ok(())
}
