//! Four callers that create, start, pause, kill, resume and delete the same two tasks, while four
//! workers run them.

use crate::asking::{accepted, refused, seen_of};
use crate::checks::check_count;
use crate::scripts::{Told, side_by_side};
use crate::stories::{Story, tell};
use call_journal::{Entry, Row, Seat, Shim};
use slice_workers::with_workers;
use std::alloc::Global;
use std::process::Abort;
use std::sync::Wait;
use std::test::Fail;
use std::thread::Threads;
use task_requests::{Ask, Request};
use test_streams::STATE;
use wasm_ast::{Refusal, Text};

/// How often a caller makes the calls of a round of one task and then of the other.
const TWO_ROUNDS: usize = 250;

/// How many calls each of the four callers makes: 500 rounds of six.
const CALLS: usize = 3_000;

/// Stores a module whose entry never ends.
const PUT: &str =
    r#"{"op":"put_text","text":"(module (type $p (func (param i32))) (type $v (func)) (import \"wasi_snapshot_preview1\" \"proc_exit\" (func $exit (type $p))) (func $s (type $v) loop br 0 end) (export \"_start\" (func $s)))"}"#;

/// The calls of a round of the task `a`.
const ROUND_OF_A: &str =
    r#"{"op":"create","id":"a","config":"{\"ociVersion\":\"1.0.2\",\"process\":{\"args\":[\"a\"],\"cwd\":\"/\"},\"annotations\":{\"dev.shim.module\":\"sha256:6562dc6051eacfa9e16454a65e6442a418b51e1faf0d637f3a9623de4037491c\"}}"}
{"op":"start","id":"a"}
{"op":"pause","id":"a"}
{"op":"kill","id":"a","signal":9}
{"op":"resume","id":"a"}
{"op":"delete","id":"a"}
"#;

/// The calls of a round of the task `b`.
const ROUND_OF_B: &str =
    r#"{"op":"create","id":"b","config":"{\"ociVersion\":\"1.0.2\",\"process\":{\"args\":[\"a\"],\"cwd\":\"/\"},\"annotations\":{\"dev.shim.module\":\"sha256:6562dc6051eacfa9e16454a65e6442a418b51e1faf0d637f3a9623de4037491c\"}}"}
{"op":"start","id":"b"}
{"op":"pause","id":"b"}
{"op":"kill","id":"b","signal":9}
{"op":"resume","id":"b"}
{"op":"delete","id":"b"}
"#;

// The lines of a caller: a round of one task and one of the other, again and again. None if memory runs out.
fn lines_of(alloc: Global, first: &str, second: &str) -> Option<Vec<u8>> {
    let mut lines = Vec::new(alloc);
    for _ in 0..TWO_ROUNDS {
        lines.extend_from_slice(first.as_bytes()).ok()?;
        lines.extend_from_slice(second.as_bytes()).ok()?;
    }
    Some(lines)
}

// Which call of a round a request is, and of which task.
fn call_of(request: &Request) -> Option<(usize, &Text)> {
    match request {
        Request::Create { id, .. } => Some((0, id)),
        Request::Task { id, ask } => Some((place_of(*ask)?, id)),
        _ => None,
    }
}

// The place of what is asked of a task in a round.
fn place_of(ask: Ask) -> Option<usize> {
    match ask {
        Ask::Start => Some(1),
        Ask::Pause => Some(2),
        Ask::Kill { .. } => Some(3),
        Ask::Resume => Some(4),
        Ask::Delete => Some(5),
        _ => None,
    }
}

// Whether a request is the call of this number of a caller whose first round is of the task with this id.
fn is_call(request: &Request, begins_with: &str, call: usize) -> bool {
    let Some((place, id)) = call_of(request) else {
        return false;
    };
    let is_first = (call / 6) % 2 == 0;
    place == call % 6 && (id.as_str() == begins_with) == is_first
}

// How many calls a caller has made with this entry, if it had made some before. None if it is not
// its next call.
fn made_with(entry: &Entry, caller: u64, begins_with: &str, made: usize) -> Option<usize> {
    if entry.seat != caller {
        return Some(made);
    }
    if is_call(&entry.request, begins_with, made) {
        made.checked_add(1)
    } else {
        None
    }
}

// How many calls of a caller a seat has seen. None if they are not in the order of its lines.
fn in_order<R: Row>(
    shim: &Shim<R>,
    seat: &Seat<R>,
    caller: u64,
    begins_with: &str,
) -> Option<usize> {
    let mut made = 0;
    for i in 0..seat.len() {
        made = made_with(shim.entry(seat, i)?, caller, begins_with, made)?;
    }
    Some(made)
}

// Whether a reply is an acceptance, or a refusal because of what others did: 3, 4 or 11.
fn is_expected(reply: &str) -> bool {
    reply.contains("\"ok\":true")
        || reply.contains("\"number\":3,")
        || reply.contains("\"number\":4,")
        || reply.contains("\"number\":11,")
}

// How many replies a caller was given. None if one is not expected.
fn expected_of(replies: &[u8]) -> Option<usize> {
    let mut count: usize = 0;
    for reply in std::str::from_utf8(replies).ok()?.lines() {
        if !is_expected(reply) {
            return None;
        }
        count = count.wrapping_add(1);
    }
    Some(count)
}

// Asserts that a caller was answered as it may be, and that its calls are seen, once and in order.
fn check_caller<R: Row, A: Abort>(
    rt: &A,
    shim: &Shim<R>,
    told: &Told<'_, R>,
    last: &Seat<R>,
    begins_with: &str,
) -> Option<()> {
    let seen = in_order(shim, last, told.caller.seat.number(), begins_with)?;
    check_count(rt, "calls in order", seen, CALLS);
    let answered = expected_of(told.replies.as_slice())?;
    check_count(rt, "replies", answered, CALLS);
    Some(())
}

// Lets four callers answer these scripts while four workers run their tasks, and a fifth makes a
// call. What the four were answered, and the fifth's seat.
fn stormed<'a, R: Row + Send + Sync, W: Threads + Wait + Sync>(
    rt: &W,
    alloc: Global,
    shim: &Shim<R>,
    last: Seat<R>,
    scripts: [&'a [u8]; 4],
) -> Option<(Vec<Told<'a, R>>, Seat<R>)> {
    let run = || {
        let all = side_by_side(rt, alloc, shim, scripts.as_slice());
        (
            all,
            refused(rt, alloc, shim, last, STATE, Refusal::NotFound),
        )
    };
    let (all, last) = with_workers(rt, alloc, shim, 4, run).ok()?;
    Some((all?, last?))
}

// Asserts that all calls are seen by the last seat, and those of each caller once and in order.
fn check_storm<R: Row, A: Abort>(
    rt: &A,
    shim: &Shim<R>,
    all: &[Told<'_, R>],
    last: &Seat<R>,
) -> Option<()> {
    check_count(rt, "entries", last.len(), 4 * CALLS + 2);
    check_count(rt, "its own calls", seen_of(shim, last, last.number()), 2);
    for (told, begins_with) in all.iter().zip(["a", "b", "a", "b"]) {
        check_caller(rt, shim, told, last, begins_with)?;
    }
    Some(())
}

/// The storm: a fifth caller stores the module, and makes one call after it. None if a call is
/// answered as it never should be.
pub fn storm<R: Row + Send + Sync, W: Threads + Wait + Abort + Sync>(
    rt: &W,
    alloc: Global,
    shim: &Shim<R>,
) -> Option<()> {
    let last = accepted(rt, alloc, shim, shim.seat(rt)?, PUT)?;
    let first_a = lines_of(alloc, ROUND_OF_A, ROUND_OF_B)?;
    let first_b = lines_of(alloc, ROUND_OF_B, ROUND_OF_A)?;
    let (a, b) = (first_a.as_slice(), first_b.as_slice());
    let (all, last) = stormed(rt, alloc, shim, last, [a, b, a, b])?;
    check_storm(rt, shim, all.as_slice(), &last)
}

#[test]
fn callers_and_workers_storm_two_tasks(rt: HostRuntime) -> Result<(), Fail> {
    tell(&rt, rt.alloc(), Story::Storm)
}
