//! A worker that sleeps is offered a task as soon as a busy one has two.

use crate::asking::refusal_of;
use crate::scripts::side_by_side;
use crate::stories::{Story, tell};
use call_journal::{Row, Seat, Shim};
use request_lines::request_of;
use slice_workers::{Gate, with_gated_workers};
use std::alloc::Global;
use std::process::Abort;
use std::sync::Wait;
use std::sync::atomic::{AtomicU64, Ordering};
use std::test::Fail;
use std::thread;
use std::thread::Threads;
use task_board::{ExitRecord, Loan};

/// Stores a module whose entry is an endless loop, creates the tasks `a` and `b` of it and starts `a`.
pub const BEGIN_LINES: &str =
    r#"{"op":"put","hex":"0061736d0100000001040160000003020100070a01065f737461727400000a0901070003400c000b0b"}
{"op":"create","id":"a","config":"{\"ociVersion\":\"1.0.2\",\"process\":{\"args\":[\"a\"],\"cwd\":\"/\"},\"annotations\":{\"dev.shim.module\":\"sha256:4ed2cef087a79f7abf368e3903d56c80dd716912cb78b7c9df8a9a8046c5f3a9\"}}"}
{"op":"create","id":"b","config":"{\"ociVersion\":\"1.0.2\",\"process\":{\"args\":[\"a\"],\"cwd\":\"/\"},\"annotations\":{\"dev.shim.module\":\"sha256:4ed2cef087a79f7abf368e3903d56c80dd716912cb78b7c9df8a9a8046c5f3a9\"}}"}
{"op":"start","id":"a"}
"#;

const START_LINE: &str = r#"{"op":"start","id":"b"}"#;

/// A gate that holds the first slice of `a` until `b` has been started, and the first of `b` until the second
/// of `a` has begun.
#[derive(Drop)]
pub struct Offered {
    of_a: AtomicU64,
    of_b: AtomicU64,
    is_started: AtomicU64,
    missed: AtomicU64,
}

impl Offered {
    fn new() -> Offered {
        Offered {
            of_a: AtomicU64::new(0),
            of_b: AtomicU64::new(0),
            is_started: AtomicU64::new(0),
            missed: AtomicU64::new(0),
        }
    }

    // Waits for the other task, if this slice is the one that does.
    fn hold(&self, id: &str) {
        if id == "a" {
            self.of_a.fetch_add(1, Ordering::SeqCst);
            self.come(&self.is_started, 1);
        } else if self.of_b.fetch_add(1, Ordering::SeqCst) == 0 {
            self.come(&self.of_a, 2);
        }
    }

    // Waits until a count has come to a number, for at most a million yields.
    fn come(&self, count: &AtomicU64, wanted: u64) {
        for _ in 0..1_000_000 {
            if count.load(Ordering::SeqCst) >= wanted {
                return;
            }
            thread::yield_now();
        }
        self.missed.fetch_add(1, Ordering::SeqCst);
    }
}

impl Gate for Offered {
    fn slice(&self, id: &str, loan: &mut Loan) {
        self.hold(id);
        loan.run();
    }

    fn ended(&self, _id: &str, _turns: u64, _end: ExitRecord) {}
}

// Starts `b`, of which no worker is told. None if that is refused.
fn start_quietly<R: Row, W: Wait>(
    rt: &W,
    alloc: Global,
    shim: &Shim<R>,
    seat: Seat<R>,
) -> Option<Seat<R>> {
    let request = request_of(alloc, START_LINE.as_bytes()).ok()?;
    let (seat, answer) = shim.call_quietly(rt, seat, request);
    match refusal_of(answer) {
        Some(_) => None,
        None => Some(seat),
    }
}

// Starts `a`, and `b` while the first slice of `a` is held; then waits for the first slice of `b`.
fn start_both<R: Row + Send + Sync, W: Threads + Wait + Sync>(
    rt: &W,
    alloc: Global,
    shim: &Shim<R>,
    gate: &Offered,
) -> Option<()> {
    let scripts = [BEGIN_LINES.as_bytes()];
    side_by_side(rt, alloc, shim, scripts.as_slice())?;
    gate.come(&gate.of_a, 1);
    let _seat = start_quietly(rt, alloc, shim, shim.seat(rt)?)?;
    gate.is_started.fetch_add(1, Ordering::SeqCst);
    gate.come(&gate.of_b, 1);
    gate.come(&gate.of_a, 2);
    Some(())
}

/// Two workers, of which one sleeps while the other has two tasks. None if a call is refused.
pub fn offering<R: Row + Send + Sync, W: Threads + Wait + Sync>(
    rt: &W,
    alloc: Global,
    shim: &Shim<R>,
    gate: &Offered,
) -> Option<()> {
    let run = move || start_both(rt, alloc, shim, gate);
    with_gated_workers(rt, alloc, shim, 2, gate, run).ok()?
}

#[test]
fn a_worker_that_sleeps_is_offered_a_task(rt: HostRuntime) -> Result<(), Fail> {
    let gate = Offered::new();
    tell(&rt, rt.alloc(), Story::Offering(&gate))?;
    assert_eq!(rt; gate.missed.load(Ordering::SeqCst), 0);
    Ok(())
}
