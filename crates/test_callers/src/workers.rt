//! Workers in threads: each runs tasks, and slices of two tasks are run at the same time.

use crate::checks::check_bytes;
use crate::scripts::side_by_side;
use crate::stories::{Story, tell};
use crate::waking::WAIT_LINE;
use call_journal::{Row, Shim};
use slice_workers::{Gate, with_gated_workers, with_workers};
use std::alloc::Global;
use std::process::Abort;
use std::sync::Wait;
use std::sync::atomic::{AtomicU64, Ordering};
use std::test::Fail;
use std::thread;
use std::thread::Threads;
use std::time::Clock;
use task_board::{ExitRecord, Loan};
use test_streams::{RUN_ANSWERS, RUN_LINES, STATE, repeated};

/// A caller starts two tasks and waits for both, while two workers run them by a gate. None if its
/// lines come to no end.
pub fn run_by_two<R: Row + Send + Sync, G: Gate + Sync, W: Threads + Wait + Abort + Sync>(
    rt: &W,
    alloc: Global,
    shim: &Shim<R>,
    gate: &G,
) -> Option<()> {
    let scripts = [RUN_LINES.as_bytes()];
    let scripts = scripts.as_slice();
    let run = move || side_by_side(rt, alloc, shim, scripts);
    let all = with_gated_workers(rt, alloc, shim, 2, gate, run).ok()??;
    check_bytes(
        rt,
        0,
        all.first()?.replies.as_slice(),
        RUN_ANSWERS.as_bytes(),
    );
    Some(())
}

/// Stores a module whose entry writes the first 65,536 bytes of its memory, which are 0 but the
/// seventh, 1, and asks for what a task has written.
const LARGE_LINES: &str =
    r#"{"op":"put","hex":"0061736d01000000010c0260047f7f7f7f017f60000002230116776173695f736e617073686f745f70726576696577310866645f77726974650000030201010503010002071302065f73746172740001066d656d6f727902000a0f010d00410141004101410810001a0b0b0e010041000b080000000000000100"}
{"op":"create","id":"a","config":"{\"ociVersion\":\"1.0.2\",\"process\":{\"args\":[\"a\"],\"cwd\":\"/\"},\"annotations\":{\"dev.shim.module\":\"sha256:f3fa7b3ab518be327da65a6f635503d4f6753eff1463df7ce2fe3f3b3b03695a\"}}"}
{"op":"start","id":"a"}
{"op":"wait","id":"a"}
{"op":"output","id":"a","stream":1}
"#;

// The reply to the last of them. None if memory runs out.
fn large_reply(alloc: Global) -> Option<Vec<u8>> {
    let mut reply = Vec::new(alloc);
    reply
        .extend_from_slice(b"{\"hex\":\"0000000000000100")
        .ok()?;
    for _ in 8..65_536 {
        reply.extend_from_slice(b"00").ok()?;
    }
    reply
        .extend_from_slice(b"\",\"id\":\"a\",\"ok\":true,\"size\":65536}\n")
        .ok()?;
    Some(reply)
}

// The last `count` bytes.
fn last_bytes(bytes: &[u8], count: usize) -> Option<&[u8]> {
    bytes.get(bytes.len().checked_sub(count)?..)
}

/// A caller reads an output of 65,536 bytes, in a reply of twice as many. None if its lines come to no end.
pub fn large_output<R: Row + Send + Sync, W: Threads + Wait + Abort + Sync>(
    rt: &W,
    alloc: Global,
    shim: &Shim<R>,
) -> Option<()> {
    let scripts = [LARGE_LINES.as_bytes()];
    let scripts = scripts.as_slice();
    let run = move || side_by_side(rt, alloc, shim, scripts);
    let all = with_workers(rt, alloc, shim, 1, run).ok()??;
    let wanted = large_reply(alloc)?;
    let found = last_bytes(all.first()?.replies.as_slice(), wanted.len())?;
    check_bytes(rt, 0, found, wanted.as_slice());
    Some(())
}

#[test]
fn a_reply_may_be_large(rt: HostRuntime) -> Result<(), Fail> {
    tell(&rt, rt.alloc(), Story::LargeOutput)
}

#[test]
fn two_workers_run_two_tasks(rt: HostRuntime) -> Result<(), Fail> {
    tell(&rt, rt.alloc(), Story::TwoWorkers)
}

/// Starts the second task of RUN_LINES.
const START_B: &str = "{\"op\":\"start\",\"id\":\"b\"}\n";

/// A gate that holds each slice until a slice of the other of two tasks has begun.
#[derive(Drop)]
pub struct Meeting {
    of_a: AtomicU64,
    of_others: AtomicU64,
    missed: AtomicU64,
}

impl Meeting {
    fn new() -> Meeting {
        Meeting {
            of_a: AtomicU64::new(0),
            of_others: AtomicU64::new(0),
            missed: AtomicU64::new(0),
        }
    }
}

/// Waits until a count has come to a number, for at most a million yields. Whether it has.
pub fn comes_to(count: &AtomicU64, wanted: u64) -> bool {
    for _ in 0..1_000_000 {
        if count.load(Ordering::SeqCst) >= wanted {
            return true;
        }
        thread::yield_now();
    }
    false
}

impl Gate for Meeting {
    fn slice(&self, id: &str, loan: &mut Loan) {
        let (mine, other) = if id == "a" {
            (&self.of_a, &self.of_others)
        } else {
            (&self.of_others, &self.of_a)
        };
        mine.fetch_add(1, Ordering::SeqCst);
        if !comes_to(other, 1) {
            self.missed.fetch_add(1, Ordering::SeqCst);
        }
        loan.run();
    }

    fn ended(&self, _id: &str, _turns: u64, _end: ExitRecord) {}
}

#[test]
fn slices_of_two_tasks_run_at_the_same_time(rt: HostRuntime) -> Result<(), Fail> {
    let gate = Meeting::new();
    tell(&rt, rt.alloc(), Story::Meeting(&gate))?;
    assert_eq!(rt; gate.missed.load(Ordering::SeqCst), 0);
    assert!(rt; gate.of_a.load(Ordering::SeqCst) > 0);
    Ok(())
}

// The lines of two callers.
fn two<'a>(one: &'a [u8], other: &'a [u8]) -> [&'a [u8]; 2] {
    [one, other]
}

/// A task is started while a caller sleeps in a wait for another one, whose slice a worker holds at the gate
/// until a second worker has begun a slice of it. None if lines come to no end.
pub fn start_beside_a_sleeper<R: Row + Send + Sync, W: Threads + Wait + Sync>(
    rt: &W,
    alloc: Global,
    shim: &Shim<R>,
    gate: &Meeting,
) -> Option<()> {
    let (begin, _) = RUN_LINES.split_once(START_B)?;
    let mut lines = Vec::new(alloc);
    lines.extend_from_slice(WAIT_LINE.as_bytes()).ok()?;
    let states = repeated(alloc, STATE, 500)?;
    lines.extend_from_slice(states.as_slice()).ok()?;
    lines.extend_from_slice(START_B.as_bytes()).ok()?;
    let (wait, other) = lines.as_slice().split_at(WAIT_LINE.len());
    let begin = [begin.as_bytes()];
    let begin = begin.as_slice();
    let both = two(wait, other);
    let both = both.as_slice();
    let run = move || {
        side_by_side(rt, alloc, shim, begin)?;
        if !comes_to(&gate.of_a, 1) {
            return None;
        }
        side_by_side(rt, alloc, shim, both)?;
        Some(())
    };
    with_gated_workers(rt, alloc, shim, 2, gate, run).ok()?
}

#[test]
fn a_task_begins_while_a_caller_sleeps(rt: HostRuntime) -> Result<(), Fail> {
    let gate = Meeting::new();
    tell(&rt, rt.alloc(), Story::Beside(&gate))?;
    assert_eq!(rt; gate.missed.load(Ordering::SeqCst), 0);
    Ok(())
}

/// How many workers run two tasks, and a gate that counts those that have ended in its slices.
#[derive(Drop)]
pub struct Ends {
    workers: u64,
    ended: AtomicU64,
}

impl Gate for Ends {
    fn slice(&self, _id: &str, loan: &mut Loan) {
        loan.run();
    }

    fn ended(&self, _id: &str, _turns: u64, _end: ExitRecord) {
        self.ended.fetch_add(1, Ordering::SeqCst);
    }
}

/// A caller starts two tasks and waits for none, so that workers run them to their ends. It asks for the
/// state of no task first, so that they sleep by then. None if not both come to their ends.
pub fn ends_by_workers<R: Row + Send + Sync, W: Threads + Wait + Sync>(
    rt: &W,
    alloc: Global,
    shim: &Shim<R>,
    gate: &Ends,
) -> Option<()> {
    let (begin, _) = RUN_LINES.split_once("{}\n")?;
    let mut lines = repeated(alloc, STATE, 500)?;
    lines.extend_from_slice(begin.as_bytes()).ok()?;
    let scripts = [lines.as_slice()];
    let scripts = scripts.as_slice();
    let run = move || {
        side_by_side(rt, alloc, shim, scripts)?;
        if comes_to(&gate.ended, 2) {
            Some(())
        } else {
            None
        }
    };
    with_gated_workers(rt, alloc, shim, gate.workers, gate, run).ok()?
}

fn check_ends<W: Threads + Wait + Clock + Abort + Copy + Send + Sync + 'static>(
    rt: &W,
    alloc: Global,
    workers: u64,
) -> Result<(), Fail> {
    let gate = Ends {
        workers,
        ended: AtomicU64::new(0),
    };
    tell(rt, alloc, Story::Ends(&gate))?;
    assert_eq!(rt; gate.ended.load(Ordering::SeqCst), 2);
    Ok(())
}

#[test]
fn each_end_is_told_once(rt: HostRuntime) -> Result<(), Fail> {
    check_ends(&rt, rt.alloc(), 2)
}

#[test]
fn one_of_four_workers_that_sleep_begins(rt: HostRuntime) -> Result<(), Fail> {
    check_ends(&rt, rt.alloc(), 4)
}

// When the first task has ended, the other one is in the queue.
#[test]
fn one_worker_runs_two_tasks_to_their_ends(rt: HostRuntime) -> Result<(), Fail> {
    check_ends(&rt, rt.alloc(), 1)
}
