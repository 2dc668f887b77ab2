//! What is told of callers that were not answered, as the replies of the others are written.

ghost use Rattle.std.specs.Prelude.{◌≡◌, ◌+◌};
ghost use Rattle.call_journal.specs.Desks.{AreIdle, spot_names};
ghost use Rattle.call_journal.specs.Seats.{most_seats};

use crate::checks::check_bytes;
use crate::driven::{blank, cells, desk};
use call_journal::{Cells, Desk, Row, Shim};
use callers::{Answered, Caller, Driven, Missing, Report, write_answers};
use request_lines::Watched;
use std::alloc::Global;
use std::cell::Cell;
use std::marker::Brand;
use std::process::Abort;
use std::sync::Wait;
use std::sync::ledger::Blank;
use std::test::Fail;
use test_streams::{ChunkedReader, NOT_FOUND_LINE};
use wasm_ast::Refusal;

/// What is told, in the order in which it is: a digit for each.
#[derive(Drop)]
struct Told {
    digits: Cell<u64>,
}

impl Told {
    fn add(&self, digit: u64) {
        let digits = self.digits.get().wrapping_mul(10).wrapping_add(digit);
        self.digits.set(digits);
    }
}

// The number of a caller that is missing, counted from 1.
impl Missing for Told {
    fn report(&self, number: usize) {
        let number = u64::try_from(number).unwrap_or(0);
        self.add(number.wrapping_add(1));
    }
}

/// A 9 for the end of a caller that was answered, if that is a good one.
#[derive(Drop)]
struct Counted<'a> {
    told: &'a Told,
}

impl<R, W> Report<R, W> for Counted<'_> {
    fn lines_ended(&self) {}

    fn report(&self, driven: Driven, _reader: &R, _writer: &W) {
        self.told.add(if driven == Driven::End { 9 } else { 0 });
    }
}

type Kept<'a, J> = Answered<J, Watched<ChunkedReader<'static>>, Counted<'a>>;

// A caller that was answered. None if there is no seat or no memory.
fn second_of<'a, J: Row, H: Wait>(
    rt: &H,
    alloc: Global,
    shim: &Shim<J>,
    told: &'a Told,
) -> Option<Kept<'a, J>> {
    let mut replies = Vec::new(alloc);
    replies.extend_from_slice(NOT_FOUND_LINE.as_bytes()).ok()?;
    let caller = Caller {
        seat: shim.seat(rt)?,
        reader: Watched::new(ChunkedReader::new(b"".as_slice())),
        notes: Counted { told },
    };
    Some(Answered {
        caller,
        replies,
        driven: Driven::End,
    })
}

// Three callers, of which only the second was answered.
fn three<'a, J: Row>(alloc: Global, second: Kept<'a, J>) -> Option<Vec<Option<Kept<'a, J>>>> {
    let mut all = Vec::with_capacity(alloc, 3).ok()?;
    all.push(None).ok()?;
    all.push(Some(second)).ok()?;
    all.push(None).ok()?;
    Some(all)
}

// Writes the answers of the three. The replies that are written, and how all ended.
fn written<J: Row, H: Wait>(
    rt: &H,
    alloc: Global,
    shim: &Shim<J>,
    told: &Told,
) -> Option<(Vec<u8>, Driven)> {
    let second = second_of(rt, alloc, shim, told)?;
    let all = three(alloc, second)?;
    let mut writer = Watched::new(Vec::new(alloc));
    let how = write_answers(all, &mut writer, told);
    Some((writer.into_stream(), how))
}

// The same over a shim of these cells.
fn written_of<J: Row, H: Wait>(
    rt: &H,
    alloc: Global,
    cells: Cells,
    desk: Desk,
    blank: Blank,
    told: &Told,
) -> Result<Option<(Vec<u8>, Driven)>, Refusal>
    requires row { cells ≡ J.cells }
    requires places { spot_names desk ≡ J.slots }
    requires idle { AreIdle desk }
    requires name { blank.name ≡ J.name }
    requires parts { (blank.parts ≡ J.parts) × (blank.parts ≡ most_seats + 1) }
{
    let shim: Shim<J> = Shim::new(alloc, cells, desk, blank)?;
    Ok(written(rt, alloc, &shim, told))
}

// Asserts what is written and told of the three.
fn check_written(rt: &impl Abort, told: &Told, found: Option<(Vec<u8>, Driven)>) {
    assert!(rt; found.is_some());
    if let Some((replies, how)) = found {
        check_bytes(rt, 0, replies.as_slice(), NOT_FOUND_LINE.as_bytes());
        assert_eq!(rt; told.digits.get(), 193);
        assert_eq!(rt; how.status(), 1);
    }
}

// The same over a shim of its own.
fn check_missing<H: Wait + Abort>(rt: &H, alloc: Global) -> Result<(), Refusal> {
    let told = Told {
        digits: Cell::new(0),
    };
    let (cells, desk) = (cells(alloc)?, desk(alloc)?);
    let found = written_of::<Brand, H>(rt, alloc, cells, desk, blank(), &told)?;
    check_written(rt, &told, found);
    Ok(())
}

#[test]
fn a_caller_that_was_not_answered_is_told(rt: HostRuntime) -> Result<(), Fail> {
    check_missing(&rt, rt.alloc())?;
    Ok(())
}
