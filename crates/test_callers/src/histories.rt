//! What callers see of each other's calls.

use crate::asking::{accepted, find_nothing, refused, seen_of};
use crate::checks::{check_bytes, check_count};
use crate::scripts::{Told, side_by_side};
use crate::stories::{Story, tell};
use call_journal::{Row, Seat, Shim};
use callers::{Answered, Caller};
use std::alloc::Global;
use std::cmp::Ordering;
use std::process::Abort;
use std::sync::Wait;
use std::test::Fail;
use std::thread::Threads;
use task_requests::Request;
use test_streams::{NOT_FOUND_LINE, STATE, repeated};
use wasm_ast::Refusal;

/// Stores three bytes.
const PUT: &str = r#"{"op":"put","hex":"010203"}"#;

/// How many entries a journal has at most.
const ALL: usize = 16_384;

// Asserts how many calls of the seat with a number a seat has seen.
fn check_seen<R: Row, A: Abort>(
    rt: &A,
    shim: &Shim<R>,
    seat: &Seat<R>,
    number: u64,
    wanted: usize,
) {
    check_count(
        rt,
        "calls that are seen",
        seen_of(shim, seat, number),
        wanted,
    );
}

// Asserts that the first seat has seen less than the second.
fn check_order<R: Row, A: Abort>(rt: &A, shim: &Shim<R>, first: &Seat<R>, second: &Seat<R>) {
    assert!(rt; shim.meet(first, second) == Ordering::Less);
    assert!(rt; shim.meet(second, first) == Ordering::Greater);
}

// Whether a request puts these bytes.
fn is_put_of(request: &Request, wanted: &[u8]) -> bool {
    match request {
        Request::Put { bytes } => bytes.as_bytes().as_slice() == wanted,
        _ => false,
    }
}

// Asserts that a seat has seen a put of those three bytes first, and so many entries.
fn check_put<R: Row, A: Abort>(rt: &A, shim: &Shim<R>, seat: &Seat<R>, count: usize) {
    let is_put = match shim.entry(seat, 0) {
        Some(entry) => is_put_of(&entry.request, &[1, 2, 3]),
        None => false,
    };
    assert!(rt; is_put, "the first entry is the put");
    assert!(rt; shim.entry(seat, count).is_none(), "no entry after those");
}

/// A put by one seat, and then a call by another, which sees both. None if one is answered otherwise.
pub fn two_seats<R: Row, W: Wait + Abort>(rt: &W, alloc: Global, shim: &Shim<R>) -> Option<()> {
    let first = shim.seat(rt)?;
    let second = shim.seat(rt)?;
    let first = accepted(rt, alloc, shim, first, PUT)?;
    let second = find_nothing(rt, alloc, shim, second, 1)?;
    check_order(rt, shim, &first, &second);
    check_count(rt, "entries that the first has seen", first.len(), 1);
    check_seen(rt, shim, &first, first.number(), 1);
    check_count(rt, "entries that the second has seen", second.len(), 2);
    check_seen(rt, shim, &second, first.number(), 1);
    check_seen(rt, shim, &second, second.number(), 1);
    check_put(rt, shim, &first, 1);
    check_put(rt, shim, &second, 2);
    Some(())
}

#[test]
fn a_call_sees_those_before_it(rt: HostRuntime) -> Result<(), Fail> {
    tell(&rt, rt.alloc(), Story::TwoSeats)
}

/// As many calls as the journal holds, one more, and one after the shim is closed. None if one is answered
/// otherwise.
pub fn full_journal<R: Row, W: Wait + Abort>(rt: &W, alloc: Global, shim: &Shim<R>) -> Option<()> {
    let seat = find_nothing(rt, alloc, shim, shim.seat(rt)?, ALL)?;
    check_count(rt, "entries", seat.len(), ALL);
    let seat = refused(rt, alloc, shim, seat, STATE, Refusal::JournalFull)?;
    check_count(rt, "entries after a refused call", seat.len(), ALL);
    shim.close(rt);
    let _seat = refused(rt, alloc, shim, seat, STATE, Refusal::Closed)?;
    Some(())
}

#[test]
fn a_full_journal_refuses(rt: HostRuntime) -> Result<(), Fail> {
    tell(&rt, rt.alloc(), Story::FullJournal)
}

// Asserts that a seat has seen the first entries of those that another has seen, and that these are the same.
fn check_begins<R: Row, A: Abort>(rt: &A, shim: &Shim<R>, short: &Seat<R>, long: &Seat<R>) {
    assert!(rt; shim.meet(short, long) != Ordering::Greater);
    for i in 0..short.len() {
        assert!(rt; is_same_entry(shim, short, long, i));
    }
}

// Whether both seats see the same call by the same seat.
fn is_same_entry<R: Row>(shim: &Shim<R>, one: &Seat<R>, other: &Seat<R>, i: usize) -> bool {
    match (shim.entry(one, i), shim.entry(other, i)) {
        (Some(a), Some(b)) => a.seat == b.seat && a.found == b.found,
        _ => false,
    }
}

// Asserts that of two seats one has seen the first entries of those that the other has seen.
fn check_agree<R: Row, A: Abort>(rt: &A, shim: &Shim<R>, one: &Seat<R>, other: &Seat<R>) {
    if one.len() <= other.len() {
        check_begins(rt, shim, one, other);
    } else {
        check_begins(rt, shim, other, one);
    }
}

// Asserts that a caller's replies are those wanted, and that it and the last seat agree with all callers.
fn check_told<R: Row, A: Abort>(
    rt: &A,
    shim: &Shim<R>,
    told: &Told<'_, R>,
    all: &[Told<'_, R>],
    last: &Seat<R>,
    replies: &[u8],
) {
    let seat = &told.caller.seat;
    check_bytes(rt, seat.len(), told.replies.as_slice(), replies);
    check_begins(rt, shim, seat, last);
    for other in all {
        check_agree(rt, shim, seat, &other.caller.seat);
    }
}

// The seat of what a caller was answered.
fn seat_of<R: Row>(told: Told<'_, R>) -> Seat<R> {
    let Answered { caller, .. } = told;
    let Caller { seat, .. } = caller;
    seat
}

// Asserts that the second of two seats has seen all 2,002 calls, half of them of each, and the
// first all but one.
fn check_two<R: Row, A: Abort>(rt: &A, shim: &Shim<R>, one: &Seat<R>, other: &Seat<R>) {
    check_count(rt, "entries", other.len(), 2_002);
    check_seen(rt, shim, other, one.number(), 1_001);
    check_seen(rt, shim, other, other.number(), 1_001);
    check_order(rt, shim, one, other);
    check_begins(rt, shim, one, other);
}

/// Two callers with 1,000 calls each, side by side; then each makes one more. The one that is ahead
/// has seen all, each caller's calls once. None if a call is answered otherwise.
pub fn two_callers<R: Row + Send + Sync, W: Threads + Wait + Abort + Sync>(
    rt: &W,
    alloc: Global,
    shim: &Shim<R>,
) -> Option<()> {
    let lines = repeated(alloc, STATE, 1_000)?;
    let scripts = [lines.as_slice(); 2];
    let mut all = side_by_side(rt, alloc, shim, scripts.as_slice())?;
    let one = find_nothing(rt, alloc, shim, seat_of(all.pop()?), 1)?;
    let other = find_nothing(rt, alloc, shim, seat_of(all.pop()?), 1)?;
    check_two(rt, shim, &one, &other);
    Some(())
}

/// Four callers with 2,000 calls each, side by side; then a fifth makes one, and has seen all: each
/// caller's calls once. None if a call is answered otherwise.
pub fn four_callers<R: Row + Send + Sync, W: Threads + Wait + Abort + Sync>(
    rt: &W,
    alloc: Global,
    shim: &Shim<R>,
) -> Option<()> {
    let lines = repeated(alloc, STATE, 2_000)?;
    let replies = repeated(alloc, NOT_FOUND_LINE.trim_end(), 2_000)?;
    let scripts = [lines.as_slice(); 4];
    let all = side_by_side(rt, alloc, shim, scripts.as_slice())?;
    let last = find_nothing(rt, alloc, shim, shim.seat(rt)?, 1)?;
    check_count(rt, "entries", last.len(), 8_001);
    for told in all.iter() {
        check_seen(rt, shim, &last, told.caller.seat.number(), 2_000);
        check_told(rt, shim, told, all.as_slice(), &last, replies.as_slice());
    }
    Some(())
}

#[test]
fn two_callers_see_one_history(rt: HostRuntime) -> Result<(), Fail> {
    tell(&rt, rt.alloc(), Story::TwoCallers)
}

#[test]
fn four_callers_see_one_history(rt: HostRuntime) -> Result<(), Fail> {
    tell(&rt, rt.alloc(), Story::FourCallers)
}
