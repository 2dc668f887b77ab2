//! A client that does not read, or goes away, holds up no task: what it has started begins.

use crate::scripts::side_by_side;
use crate::sharing::{BEGIN_ONE, END_ONE};
use crate::stories::{Story, tell};
use crate::workers::comes_to;
use call_journal::{Row, Shim};
use callers::{Driven, NoNotes, drive};
use request_lines::Watched;
use slice_workers::{Gate, with_gated_workers};
use std::alloc::Global;
use std::io;
use std::io::{ErrorKind, Write};
use std::process::Abort;
use std::sync::Wait;
use std::sync::atomic::{AtomicU64, Ordering};
use std::test::Fail;
use std::thread::Threads;
use std::time::Clock;
use task_board::{ExitRecord, Loan};
use test_streams::{ChunkedReader, STATE};

/// A gate that counts slices, and how often one was waited for that did not come.
#[derive(Drop)]
pub struct StartGate {
    /// The client goes away before the reply to its start, with another line sent.
    goes: bool,
    begun: AtomicU64,
    missed: AtomicU64,
}

impl StartGate {
    fn new(goes: bool) -> StartGate {
        StartGate {
            goes,
            begun: AtomicU64::new(0),
            missed: AtomicU64::new(0),
        }
    }

    // Waits for a slice.
    fn wait(&self) {
        if !comes_to(&self.begun, 1) {
            self.missed.fetch_add(1, Ordering::SeqCst);
        }
    }
}

impl Gate for StartGate {
    fn slice(&self, _id: &str, loan: &mut Loan) {
        self.begun.fetch_add(1, Ordering::SeqCst);
        loan.run();
    }

    fn ended(&self, _id: &str, _turns: u64, _end: ExitRecord) {}
}

/// A writer that holds the third reply, which is that of the start, until a slice has begun, or fails there.
#[derive(Drop)]
struct HeldWriter<'a> {
    replies: u64,
    gate: &'a StartGate,
}

impl Write for HeldWriter<'_> {
    fn write(&mut self, buf: &[u8]) -> io::Result<usize> {
        self.replies = self.replies.wrapping_add(1);
        if self.replies == 3 {
            if self.gate.goes {
                return Err(io::Error::from(ErrorKind::BrokenPipe));
            }
            self.gate.wait();
        }
        Ok(buf.len())
    }

    fn flush(&mut self) -> io::Result<()> {
        Ok(())
    }
}

// Lines that start a task, and one more if the client goes away. None if memory runs out.
fn start_lines(alloc: Global, goes: bool) -> Option<Vec<u8>> {
    let mut lines = Vec::new(alloc);
    lines.extend_from_slice(BEGIN_ONE.as_bytes()).ok()?;
    if goes {
        lines.extend_from_slice(STATE.as_bytes()).ok()?;
        lines.push(b'\n').ok()?;
    }
    Some(lines)
}

// Answers these lines, with such a writer. How they ended; None if no seat is left.
fn start_unread<R: Row, W: Wait>(
    rt: &W,
    alloc: Global,
    shim: &Shim<R>,
    gate: &StartGate,
) -> Option<Driven> {
    let lines = start_lines(alloc, gate.goes)?;
    let mut reader = Watched::new(ChunkedReader::new(lines.as_slice()));
    let mut writer = Watched::new(HeldWriter { replies: 0, gate });
    let seat = shim.seat(rt)?;
    let (_seat, driven) = drive(
        rt,
        alloc,
        shim,
        seat,
        &mut reader,
        &mut writer,
        &mut NoNotes,
    );
    Some(driven)
}

/// Starts a task whose start has no reply before a worker runs the task, and then ends it. None if lines do
/// not end as they should.
pub fn unread<R: Row + Send + Sync, W: Threads + Wait + Sync>(
    rt: &W,
    alloc: Global,
    shim: &Shim<R>,
    gate: &StartGate,
) -> Option<()> {
    let end = [END_ONE.as_bytes()];
    let end = end.as_slice();
    let run = move || {
        let driven = start_unread(rt, alloc, shim, gate)?;
        gate.wait();
        side_by_side(rt, alloc, shim, end)?;
        Some(driven)
    };
    let driven = with_gated_workers(rt, alloc, shim, 1, gate, run).ok()??;
    let wanted = if gate.goes {
        Driven::WriteFault
    } else {
        Driven::End
    };
    if driven == wanted { Some(()) } else { None }
}

// Tells a story of such a client, and asserts that the task began.
fn check_unread<W: Threads + Wait + Clock + Abort + Copy + Send + Sync + 'static>(
    rt: &W,
    alloc: Global,
    goes: bool,
) -> Result<(), Fail> {
    let gate = StartGate::new(goes);
    tell(rt, alloc, Story::Unread(&gate))?;
    assert_eq!(rt; gate.missed.load(Ordering::SeqCst), 0);
    Ok(())
}

#[test]
fn a_task_begins_before_the_reply_to_its_start_is_read(rt: HostRuntime) -> Result<(), Fail> {
    check_unread(&rt, rt.alloc(), false)
}

#[test]
fn a_task_begins_whose_client_goes_away(rt: HostRuntime) -> Result<(), Fail> {
    check_unread(&rt, rt.alloc(), true)
}
