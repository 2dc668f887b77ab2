//! Callers that sleep in a wait, and what wakes them.

use crate::offering::BEGIN_LINES;
use crate::scripts::{Told, side_by_side};
use crate::stories::{Story, tell};
use call_journal::{Row, Shim};
use slice_workers::with_workers;
use std::alloc::Global;
use std::process::Abort;
use std::sync::Wait;
use std::test::Fail;
use std::thread::Threads;
use test_streams::{LONG_LINES, STATE, repeated};

/// How many callers wait.
const SLEEPERS: usize = 5;

/// What another caller asks while five wait for a task, and how they are answered then.
#[derive(Clone, Copy)]
pub struct Sleepers<'a> {
    /// How many workers there are. If there is none the task is idle while the five sleep: each
    /// runs one slice of it at most before it does.
    pub workers: u64,
    /// The lines that start the task.
    pub begin: &'a str,
    /// How often the other caller asks for the state of no task first, so that the five sleep.
    pub before: usize,
    /// The lines that it asks after that.
    pub asked: &'a str,
    /// The end of the line that each of the five is answered.
    pub answered: &'a str,
}

/// Stores a module whose entry is an endless loop, creates a task of it and starts that.
pub const ENDLESS_LINES: &str =
    r#"{"op":"put","hex":"0061736d0100000001040160000003020100070a01065f737461727400000a0901070003400c000b0b"}
{"op":"create","id":"a","config":"{\"ociVersion\":\"1.0.2\",\"process\":{\"args\":[\"a\"],\"cwd\":\"/\"},\"annotations\":{\"dev.shim.module\":\"sha256:4ed2cef087a79f7abf368e3903d56c80dd716912cb78b7c9df8a9a8046c5f3a9\"}}"}
{"op":"start","id":"a"}
"#;

/// Waits for the task.
pub const WAIT_LINE: &str = "{\"op\":\"wait\",\"id\":\"a\"}\n";

// Asserts that the callers that waited were answered by one line with this end.
fn check_ends<R: Row, A: Abort>(rt: &A, told: &[Told<'_, R>], end: &str) {
    for (at, answered) in told.iter().enumerate() {
        if at < SLEEPERS {
            assert!(rt;
                answered.replies.as_slice().ends_with(end.as_bytes()),
                "caller {at}"
            );
        }
    }
}

// Starts the task.
fn start<R: Row + Send + Sync, W: Threads + Wait + Sync>(
    rt: &W,
    alloc: Global,
    shim: &Shim<R>,
    begin: &str,
) -> Option<()> {
    let scripts = [begin.as_bytes()];
    side_by_side(rt, alloc, shim, scripts.as_slice())?;
    Some(())
}

// The lines of five callers that ask the same, and of one more.
fn five_and_one<'a>(same: &'a [u8], other: &'a [u8]) -> [&'a [u8]; 6] {
    [same, same, same, same, same, other]
}

// Lets callers ask these lines of the task, and looks at the end of what those that wait are answered.
fn woken<'a, R: Row + Send + Sync, W: Threads + Wait + Abort + Sync>(
    rt: &W,
    alloc: Global,
    shim: &Shim<R>,
    scripts: [&'a [u8]; 6],
    story: Sleepers<'_>,
) -> Option<()> {
    let scripts = scripts.as_slice();
    let run = move || {
        start(rt, alloc, shim, story.begin)?;
        side_by_side(rt, alloc, shim, scripts)
    };
    let told = with_workers(rt, alloc, shim, story.workers, run).ok()??;
    check_ends(rt, told.as_slice(), story.answered);
    Some(())
}

/// Starts the task, and then lets five callers wait for it while another one asks. None if lines come to no
/// end.
pub fn waking<R: Row + Send + Sync, W: Threads + Wait + Abort + Sync>(
    rt: &W,
    alloc: Global,
    shim: &Shim<R>,
    story: Sleepers<'_>,
) -> Option<()> {
    let mut lines = Vec::new(alloc);
    lines.extend_from_slice(WAIT_LINE.as_bytes()).ok()?;
    let states = repeated(alloc, STATE, story.before)?;
    lines.extend_from_slice(states.as_slice()).ok()?;
    lines.extend_from_slice(story.asked.as_bytes()).ok()?;
    let (wait, other) = lines.as_slice().split_at(WAIT_LINE.len());
    woken(rt, alloc, shim, five_and_one(wait, other), story)
}

#[test]
fn a_kill_wakes_those_that_wait(rt: HostRuntime) -> Result<(), Fail> {
    let story = Sleepers {
        workers: 1,
        begin: ENDLESS_LINES,
        before: 500,
        asked: "{\"op\":\"kill\",\"id\":\"a\",\"signal\":9}\n",
        answered: "\"ok\":true,\"signal\":9,\"status\":\"stopped\"}\n",
    };
    tell(&rt, rt.alloc(), Story::Waking(story))
}

#[test]
fn a_pause_wakes_those_that_wait(rt: HostRuntime) -> Result<(), Fail> {
    let story = Sleepers {
        workers: 1,
        begin: ENDLESS_LINES,
        before: 500,
        asked: "{\"op\":\"pause\",\"id\":\"a\"}\n",
        answered: "\"ok\":true,\"status\":\"paused\"}\n",
    };
    tell(&rt, rt.alloc(), Story::Waking(story))
}

#[test]
fn a_kill_of_an_idle_task_wakes_those_that_wait(rt: HostRuntime) -> Result<(), Fail> {
    let story = Sleepers {
        workers: 0,
        begin: ENDLESS_LINES,
        before: 500,
        asked: "{\"op\":\"kill\",\"id\":\"a\",\"signal\":9}\n",
        answered: "\"ok\":true,\"signal\":9,\"status\":\"stopped\"}\n",
    };
    tell(&rt, rt.alloc(), Story::Waking(story))
}

#[test]
fn a_pause_of_an_idle_task_wakes_those_that_wait(rt: HostRuntime) -> Result<(), Fail> {
    let story = Sleepers {
        workers: 0,
        begin: ENDLESS_LINES,
        before: 500,
        asked: "{\"op\":\"pause\",\"id\":\"a\"}\n",
        answered: "\"ok\":true,\"status\":\"paused\"}\n",
    };
    tell(&rt, rt.alloc(), Story::Waking(story))
}

#[test]
fn a_full_journal_wakes_those_that_wait(rt: HostRuntime) -> Result<(), Fail> {
    let story = Sleepers {
        workers: 1,
        begin: ENDLESS_LINES,
        before: 16_384,
        asked: "",
        answered: "{\"error\":\"JournalFull\",\"number\":15,\"ok\":false}\n",
    };
    tell(&rt, rt.alloc(), Story::Waking(story))
}

// The last entry is that of a call that is accepted.
#[test]
fn a_call_that_fills_the_journal_wakes_those_that_wait(rt: HostRuntime) -> Result<(), Fail> {
    let story = Sleepers {
        workers: 1,
        begin: ENDLESS_LINES,
        before: 16_380,
        asked: "{\"op\":\"state\",\"id\":\"a\"}\n",
        answered: "{\"error\":\"JournalFull\",\"number\":15,\"ok\":false}\n",
    };
    tell(&rt, rt.alloc(), Story::Waking(story))
}

// The last entry is that of a wait for a created task.
#[test]
fn a_wait_that_is_due_and_fills_the_journal_wakes_those_that_wait(
    rt: HostRuntime,
) -> Result<(), Fail> {
    let story = Sleepers {
        workers: 1,
        begin: BEGIN_LINES,
        before: 16_379,
        asked: "{\"op\":\"wait\",\"id\":\"b\"}\n",
        answered: "{\"error\":\"JournalFull\",\"number\":15,\"ok\":false}\n",
    };
    tell(&rt, rt.alloc(), Story::Waking(story))
}

// The last entry is that of a wait for no task.
#[test]
fn a_wait_that_fills_the_journal_wakes_those_that_wait(rt: HostRuntime) -> Result<(), Fail> {
    let story = Sleepers {
        workers: 1,
        begin: ENDLESS_LINES,
        before: 16_380,
        asked: "{\"op\":\"wait\",\"id\":\"zz\"}\n",
        answered: "{\"error\":\"JournalFull\",\"number\":15,\"ok\":false}\n",
    };
    tell(&rt, rt.alloc(), Story::Waking(story))
}

// The worker runs slices while all callers sleep.
#[test]
fn an_end_wakes_those_that_wait(rt: HostRuntime) -> Result<(), Fail> {
    let story = Sleepers {
        workers: 1,
        begin: LONG_LINES,
        before: 0,
        asked: WAIT_LINE,
        answered: "\"ok\":true,\"status\":\"stopped\"}\n",
    };
    tell(&rt, rt.alloc(), Story::Waking(story))
}
