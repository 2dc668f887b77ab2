//! Callers whose replies are written as they come, and the one of them that owns the shim.

ghost use Rattle.std.specs.Prelude.{◌≡◌, IfOk};
ghost use Rattle.callers.specs.Driving.{Drives, IsTold};
ghost use Rattle.std.specs.List.{AllZip};

use crate::caller::{Driven, drive};
use crate::flight::InFlight;
use crate::notes::{Notes, Report};
use call_journal::{Row, Seat, Shim, StartError};
use request_lines::{Sink, Source};
use std::alloc::Global;
use std::snapshot::Snapshot;
use std::sync::{Arc, Wait};
use std::thread;
use std::thread::{Promise, PromisedHandle, Threads};

/// A caller: its seat, what it reads its lines from, what its replies are written to, and its notes.
#[derive(Drop)]
pub struct LiveCaller<J: Row, R, W, N> {
    pub seat: Seat<J>,
    pub reader: R,
    pub writer: W,
    pub notes: N,
}

/// How the lines of a caller ended. Its streams are closed.
#[derive(Drop)]
pub struct Ended<J: Row, R, W, N> {
    /// How its lines ended.
    pub driven: Driven,
    /// The caller as it was then.
    pub caller: Snapshot<LiveCaller<J, R, W, N>>,
}

/// What the thread of a caller is to do: answer its lines on its own writer, as `drive` does.
#[derive(Drop)]
pub struct Answers<J: Row, R: Source, W: Sink, N> {
    pub caller: Snapshot<LiveCaller<J, R, W, N>>,
}

impl<J: Row, R: Source, W: Sink, N> Promise<Ended<J, R, W, N>> for Answers<J, R, W, N> {
    ghost kept_by = { λ p e. Drives e.driven p.caller.value.seat e.caller.value.seat
        (R.remaining p.caller.value.reader) (R.remaining e.caller.value.reader)
        (W.contents p.caller.value.writer)
        (W.contents e.caller.value.writer)
        × IsTold e.driven (R.has_failed e.caller.value.reader) (W.has_failed e.caller.value.writer) };
}

/// The thread of a caller.
pub type Thread<J, R, W, N> = PromisedHandle<Ended<J, R, W, N>, Answers<J, R, W, N>>;

// Answers the lines of a caller, and tells how they ended.
fn answer_and_report<
    J: Row,
    H: Wait,
    R: Source + Drop,
    W: Sink + Drop,
    N: Notes + Report<R, W> + Drop,
>(
    rt: &H,
    alloc: Global,
    shim: &Shim<J>,
    flight: &InFlight,
    caller: LiveCaller<J, R, W, N>,
) -> Ended<J, R, W, N>
    ensures lines { Drives result.driven caller.seat result.caller.value.seat
        (R.remaining caller.reader) (R.remaining result.caller.value.reader)
        (W.contents caller.writer) (W.contents result.caller.value.writer) }
    ensures told { IsTold result.driven (R.has_failed result.caller.value.reader)
        (W.has_failed result.caller.value.writer) }
{
    let LiveCaller {
        seat,
        mut reader,
        mut writer,
        mut notes,
    } = caller;
    flight.enter(rt);
    let (seat, driven) = drive(rt, alloc, shim, seat, &mut reader, &mut writer, &mut notes);
    notes.lines_ended();
    notes.report(driven, &reader, &writer);
    flight.end(rt, driven);
    let caller = LiveCaller {
        seat,
        reader,
        writer,
        notes,
    };
    Ended {
        driven,
        caller: Snapshot::of(&caller),
    }
}

// Starts the thread of a caller.
#[tactic(auto, using(call_journal::proofs::SentShim::shim_sync, call_journal::proofs::SentShim::shim_send))]
fn start<
    J: Row + Send + Sync + 'static,
    H: Threads + Wait + Copy + Send + Sync + 'static,
    R: Source + Send + Drop + 'static,
    W: Sink + Send + Drop + 'static,
    N: Notes + Report<R, W> + Send + Drop + 'static,
>(
    rt: H,
    alloc: Global,
    shim: &Arc<Shim<J>, Global>,
    flight: &'static InFlight,
    caller: LiveCaller<J, R, W, N>,
) -> Result<Thread<J, R, W, N>, StartError>
    ensures { IfOk result (λ t. t.promise.caller.value ≡ caller) }
{
    let asked = Answers {
        caller: Snapshot::of(&caller),
    };
    let theirs = Arc::try_clone(shim)?;
    let run = move || answer_and_report(&rt, alloc, &theirs, flight, caller);
    match thread::spawn_with(&rt, asked, run) {
        Ok(thread) => Ok(thread),
        Err(_) => Err(StartError::NoThread),
    }
}

// Starts a thread for each caller.
fn start_all<
    J: Row + Send + Sync + 'static,
    H: Threads + Wait + Copy + Send + Sync + 'static,
    R: Source + Send + Drop + 'static,
    W: Sink + Send + Drop + 'static,
    N: Notes + Report<R, W> + Send + Drop + 'static,
>(
    rt: H,
    alloc: Global,
    shim: &Arc<Shim<J>, Global>,
    flight: &'static InFlight,
    callers: Vec<LiveCaller<J, R, W, N>>,
) -> Result<Vec<Thread<J, R, W, N>>, StartError>
    ensures { IfOk result
        (λ all. AllZip (λ c t. t.promise.caller.value ≡ c) callers.items all.items) }
{
    let mut threads = Vec::with_capacity(alloc, callers.len())?;
    for caller in callers {
        let thread = start(rt, alloc, shim, flight, caller)?;
        let Ok(()) = threads.push(thread) else {
            return Err(StartError::OutOfMemory);
        };
    }
    Ok(threads)
}

/// Answers the lines of the owner here, and those of each other caller in a thread of its own, each on
/// its own writer, as `drive` does. It returns when the owner's lines have ended; the threads of
/// the others go on, and end with the program. How the lines of each end is told by its report.
/// An error, before a line of the owner is answered, if a thread cannot be started, or memory runs out
/// for the list of threads.
pub fn answer_live<
    J: Row + Send + Sync + 'static,
    H: Threads + Wait + Copy + Send + Sync + 'static,
    R: Source + Send + Drop + 'static,
    W: Sink + Send + Drop + 'static,
    N: Notes + Report<R, W> + Send + Drop + 'static,
>(
    rt: H,
    alloc: Global,
    shim: &Arc<Shim<J>, Global>,
    flight: &'static InFlight,
    owner: LiveCaller<J, R, W, N>,
    others: Vec<LiveCaller<J, R, W, N>>,
) -> Result<(Ended<J, R, W, N>, Vec<Thread<J, R, W, N>>), StartError>
    ensures lines { IfOk result (λ p. Drives p.0.driven owner.seat p.0.caller.value.seat
        (R.remaining owner.reader) (R.remaining p.0.caller.value.reader)
        (W.contents owner.writer) (W.contents p.0.caller.value.writer)) }
    ensures told { IfOk result (λ p. IsTold p.0.driven (R.has_failed p.0.caller.value.reader)
        (W.has_failed p.0.caller.value.writer)) }
    ensures others { IfOk result
        (λ p. AllZip (λ c t. t.promise.caller.value ≡ c) others.items p.1.items) }
{
    let threads = start_all(rt, alloc, shim, flight, others)?;
    let ended = answer_and_report(&rt, alloc, shim, flight, owner);
    Ok((ended, threads))
}
