//! One worker and tasks that never end: each begins and gets on, by slices of 10,000 turns, and in its turn;
//! and a call is answered while a slice runs.

use crate::checks::check_bytes;
use crate::scripts::side_by_side;
use crate::stories::{Story, tell};
use crate::workers::comes_to;
use call_journal::{Row, Shim};
use slice_workers::{Gate, with_gated_workers};
use std::alloc::Global;
use std::process::Abort;
use std::sync::Wait;
use std::sync::atomic::{AtomicU64, Ordering};
use std::test::Fail;
use std::thread;
use std::thread::Threads;
use task_board::{ExitRecord, Loan};
use test_streams::{STATE, repeated};

/// How many slices each task has to get.
const FEW_SLICES: u64 = 3;

/// The turns of a slice of a task that never ends.
const SLICE_TURNS: u64 = 10_000;

/// Stores a module whose entry is an endless loop, creates the tasks `a` to `e` of it and starts them.
const BEGIN_LINES: &str =
    r#"{"op":"put","hex":"0061736d0100000001040160000003020100070a01065f737461727400000a0901070003400c000b0b"}
{"op":"create","id":"a","config":"{\"ociVersion\":\"1.0.2\",\"process\":{\"args\":[\"a\"],\"cwd\":\"/\"},\"annotations\":{\"dev.shim.module\":\"sha256:4ed2cef087a79f7abf368e3903d56c80dd716912cb78b7c9df8a9a8046c5f3a9\"}}"}
{"op":"create","id":"b","config":"{\"ociVersion\":\"1.0.2\",\"process\":{\"args\":[\"a\"],\"cwd\":\"/\"},\"annotations\":{\"dev.shim.module\":\"sha256:4ed2cef087a79f7abf368e3903d56c80dd716912cb78b7c9df8a9a8046c5f3a9\"}}"}
{"op":"create","id":"c","config":"{\"ociVersion\":\"1.0.2\",\"process\":{\"args\":[\"a\"],\"cwd\":\"/\"},\"annotations\":{\"dev.shim.module\":\"sha256:4ed2cef087a79f7abf368e3903d56c80dd716912cb78b7c9df8a9a8046c5f3a9\"}}"}
{"op":"create","id":"d","config":"{\"ociVersion\":\"1.0.2\",\"process\":{\"args\":[\"a\"],\"cwd\":\"/\"},\"annotations\":{\"dev.shim.module\":\"sha256:4ed2cef087a79f7abf368e3903d56c80dd716912cb78b7c9df8a9a8046c5f3a9\"}}"}
{"op":"create","id":"e","config":"{\"ociVersion\":\"1.0.2\",\"process\":{\"args\":[\"a\"],\"cwd\":\"/\"},\"annotations\":{\"dev.shim.module\":\"sha256:4ed2cef087a79f7abf368e3903d56c80dd716912cb78b7c9df8a9a8046c5f3a9\"}}"}
{"op":"start","id":"a"}
{"op":"start","id":"b"}
{"op":"start","id":"c"}
{"op":"start","id":"d"}
{"op":"start","id":"e"}
"#;

/// Kills the five tasks, and waits for each.
const END_LINES: &str = r#"{"op":"kill","id":"a","signal":9}
{"op":"kill","id":"b","signal":9}
{"op":"kill","id":"c","signal":9}
{"op":"kill","id":"d","signal":9}
{"op":"kill","id":"e","signal":9}
{"op":"wait","id":"a"}
{"op":"wait","id":"b"}
{"op":"wait","id":"c"}
{"op":"wait","id":"d"}
{"op":"wait","id":"e"}
"#;

/// Stores that module, creates one task of it and starts it. No line follows.
pub const BEGIN_ONE: &str =
    r#"{"op":"put","hex":"0061736d0100000001040160000003020100070a01065f737461727400000a0901070003400c000b0b"}
{"op":"create","id":"a","config":"{\"ociVersion\":\"1.0.2\",\"process\":{\"args\":[\"a\"],\"cwd\":\"/\"},\"annotations\":{\"dev.shim.module\":\"sha256:4ed2cef087a79f7abf368e3903d56c80dd716912cb78b7c9df8a9a8046c5f3a9\"}}"}
{"op":"start","id":"a"}
"#;

/// The last of these lines.
const START_ONE: &str = "{\"op\":\"start\",\"id\":\"a\"}\n";

/// Kills the task, and waits for it.
pub const END_ONE: &str = r#"{"op":"kill","id":"a","signal":9}
{"op":"wait","id":"a"}
"#;

/// Asks for the state of the task.
const STATE_ONE: &str = "{\"op\":\"state\",\"id\":\"a\"}\n";

/// What that is answered before the task's first slice has come back.
const STATE_ANSWER: &str = "{\"id\":\"a\",\"n\":0,\"ok\":true,\"status\":\"running\"}\n";

/// Tasks that never end, in what lines they begin and end, and the gate that counts their slices.
#[derive(Clone, Copy)]
pub struct Endless<'a> {
    ids: &'a [&'a str],
    begin: &'a str,
    end: &'a str,
    gate: &'a Counted,
    /// They begin before there is a worker.
    early: bool,
}

/// A gate that counts the slices of the tasks `a` to `e`.
#[derive(Drop)]
pub struct Counted {
    a: AtomicU64,
    b: AtomicU64,
    c: AtomicU64,
    d: AtomicU64,
    e: AtomicU64,
    /// How many slices of `a` had begun when the first of `e` did.
    before_e: AtomicU64,
}

impl Counted {
    fn new() -> Counted {
        Counted {
            a: AtomicU64::new(0),
            b: AtomicU64::new(0),
            c: AtomicU64::new(0),
            d: AtomicU64::new(0),
            e: AtomicU64::new(0),
            before_e: AtomicU64::new(0),
        }
    }

    // Counts a slice of a task, which begins.
    fn add(&self, id: &str) {
        let before = self.count_of(id).fetch_add(1, Ordering::SeqCst);
        if id == "e" && before == 0 {
            self.before_e
                .store(self.a.load(Ordering::SeqCst), Ordering::SeqCst);
        }
    }

    // The count of a task.
    fn count_of(&self, id: &str) -> &AtomicU64 {
        match id {
            "a" => &self.a,
            "b" => &self.b,
            "c" => &self.c,
            "d" => &self.d,
            _ => &self.e,
        }
    }

    // How many turns the slices of a task have made.
    fn turns(&self, id: &str) -> u64 {
        self.count_of(id)
            .load(Ordering::SeqCst)
            .saturating_mul(SLICE_TURNS)
    }

    // Whether each of these tasks has had a few slices.
    fn have_all(&self, ids: &[&str]) -> bool {
        let few = FEW_SLICES * SLICE_TURNS;
        ids.iter().all(|id| self.turns(id) >= few)
    }

    // Waits until each has, for at most a million yields. Whether it has.
    fn is_shared(&self, ids: &[&str]) -> bool {
        for _ in 0..1_000_000 {
            if self.have_all(ids) {
                return true;
            }
            thread::yield_now();
        }
        false
    }
}

impl Gate for Counted {
    fn slice(&self, id: &str, loan: &mut Loan) {
        self.add(id);
        loan.run();
    }

    fn ended(&self, _id: &str, _turns: u64, _end: ExitRecord) {}
}

// What the waits are answered. None if memory runs out.
fn ends(alloc: Global, story: Endless<'_>) -> Option<String> {
    let mut text = String::new(alloc);
    for id in story.ids {
        let n = story.gate.turns(id);
        let line = format!(in alloc;
            "{{\"cause\":\"kill\",\"exit\":137,\"id\":\"{id}\",\"n\":{n},\"ok\":true,\"signal\":9,\"status\":\"stopped\"}}\n"
        ).ok()?;
        text.push_str(line.as_str()).ok()?;
    }
    Some(text)
}

/// One worker runs the tasks, until each has had a few slices; then they are killed. None if one of them does
/// not get on, or lines come to no end.
pub fn sharing<R: Row + Send + Sync, W: Threads + Wait + Abort + Sync>(
    rt: &W,
    alloc: Global,
    shim: &Shim<R>,
    story: Endless<'_>,
) -> Option<()> {
    let (begin, end) = ([story.begin.as_bytes()], [story.end.as_bytes()]);
    let (begin, end) = (begin.as_slice(), end.as_slice());
    if story.early {
        side_by_side(rt, alloc, shim, begin)?;
    }
    let run = move || {
        if !story.early {
            side_by_side(rt, alloc, shim, begin)?;
        }
        if story.gate.is_shared(story.ids) {
            side_by_side(rt, alloc, shim, end)
        } else {
            None
        }
    };
    let told = with_gated_workers(rt, alloc, shim, 1, story.gate, run).ok()??;
    let wanted = ends(alloc, story)?;
    let found = told.first()?.replies.as_slice();
    assert!(rt;
        found.ends_with(wanted.as_bytes()),
        "each slice has 10,000 turns"
    );
    Some(())
}

#[test]
fn five_endless_tasks_share_one_worker(rt: HostRuntime) -> Result<(), Fail> {
    let gate = Counted::new();
    let story = Endless {
        ids: &["a", "b", "c", "d", "e"],
        begin: BEGIN_LINES,
        end: END_LINES,
        gate: &gate,
        early: false,
    };
    tell(&rt, rt.alloc(), Story::Sharing(story))
}

// All five wait for the worker from the first. A task that has had a slice is in the queue then, and its next
// one comes before all that wait have had theirs.
#[test]
fn a_task_in_the_queue_has_its_turn(rt: HostRuntime) -> Result<(), Fail> {
    let gate = Counted::new();
    let story = Endless {
        ids: &["a", "b", "c", "d", "e"],
        begin: BEGIN_LINES,
        end: END_LINES,
        gate: &gate,
        early: true,
    };
    tell(&rt, rt.alloc(), Story::Sharing(story))?;
    assert!(rt; gate.before_e.load(Ordering::SeqCst) > 1);
    Ok(())
}

// Its start is the last line, so that no later call tells a worker of it.
#[test]
fn a_started_task_begins(rt: HostRuntime) -> Result<(), Fail> {
    let gate = Counted::new();
    let story = Endless {
        ids: &["a"],
        begin: BEGIN_ONE,
        end: END_ONE,
        gate: &gate,
        early: false,
    };
    tell(&rt, rt.alloc(), Story::Sharing(story))
}

/// Creates a task, asks for the state of no task until the journal has room for one entry more, and
/// starts the task by that one. None if it does not get on then, or lines come to no end.
pub fn last_start<R: Row + Send + Sync, W: Threads + Wait + Sync>(
    rt: &W,
    alloc: Global,
    shim: &Shim<R>,
    gate: &Counted,
) -> Option<()> {
    let create = BEGIN_ONE.strip_suffix(START_ONE)?;
    let mut lines = Vec::new(alloc);
    lines.extend_from_slice(create.as_bytes()).ok()?;
    let states = repeated(alloc, STATE, 16_381)?;
    lines.extend_from_slice(states.as_slice()).ok()?;
    lines.extend_from_slice(START_ONE.as_bytes()).ok()?;
    let scripts = [lines.as_slice()];
    let scripts = scripts.as_slice();
    let run = move || {
        side_by_side(rt, alloc, shim, scripts)?;
        if gate.is_shared(&["a"]) {
            Some(())
        } else {
            None
        }
    };
    with_gated_workers(rt, alloc, shim, 2, gate, run).ok()?
}

#[test]
fn the_task_of_the_last_entry_gets_on(rt: HostRuntime) -> Result<(), Fail> {
    let gate = Counted::new();
    tell(&rt, rt.alloc(), Story::LastStart(&gate))
}

/// A gate that holds each slice until a call was answered.
#[derive(Drop)]
pub struct Holding {
    begun: AtomicU64,
    answered: AtomicU64,
    missed: AtomicU64,
}

impl Gate for Holding {
    fn slice(&self, _id: &str, loan: &mut Loan) {
        self.begun.fetch_add(1, Ordering::SeqCst);
        if !comes_to(&self.answered, 1) {
            self.missed.fetch_add(1, Ordering::SeqCst);
        }
        loan.run();
    }

    fn ended(&self, _id: &str, _turns: u64, _end: ExitRecord) {}
}

/// The state of a task is asked for while its slice is held at a gate. None if the slice does not begin, or
/// lines come to no end.
pub fn asking<R: Row + Send + Sync, W: Threads + Wait + Abort + Sync>(
    rt: &W,
    alloc: Global,
    shim: &Shim<R>,
    gate: &Holding,
) -> Option<()> {
    let (begin, end) = ([BEGIN_ONE.as_bytes()], [END_ONE.as_bytes()]);
    let (begin, end) = (begin.as_slice(), end.as_slice());
    let state = [STATE_ONE.as_bytes()];
    let state = state.as_slice();
    let run = move || {
        side_by_side(rt, alloc, shim, begin)?;
        let begins = comes_to(&gate.begun, 1);
        let told = side_by_side(rt, alloc, shim, state)?;
        gate.answered.fetch_add(1, Ordering::SeqCst);
        side_by_side(rt, alloc, shim, end)?;
        if begins { Some(told) } else { None }
    };
    let told = with_gated_workers(rt, alloc, shim, 1, gate, run).ok()??;
    let found = told.first()?.replies.as_slice();
    check_bytes(rt, 0, found, STATE_ANSWER.as_bytes());
    Some(())
}

#[test]
fn a_call_is_answered_while_a_slice_runs(rt: HostRuntime) -> Result<(), Fail> {
    let gate = Holding {
        begun: AtomicU64::new(0),
        answered: AtomicU64::new(0),
        missed: AtomicU64::new(0),
    };
    tell(&rt, rt.alloc(), Story::Holding(&gate))?;
    assert_eq!(rt; gate.missed.load(Ordering::SeqCst), 0);
    Ok(())
}
