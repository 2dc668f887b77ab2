//! Live callers: how the lines of each ended is told once, and whether all ended well is known at the end.

use crate::stories::{Story, tell};
use call_journal::{Row, Seat, Shim};
use callers::{Attended, Driven, InFlight, LiveCaller, Notes, Report, Thread, answer_live};
use request_lines::Watched;
use std::alloc::Global;
use std::process::Abort;
use std::sync::atomic::{AtomicU64, Ordering};
use std::sync::{Arc, Wait};
use std::test::Fail;
use std::thread::Threads;
use std::time::{Clock, Duration};
use task_board::{ExitRecord, Reply};
use test_streams::{ChunkedReader, FailingWriter, STATE, repeated};
use wasm_ast::{Refusal, Text};

/// What has been told of the lines of a caller.
#[derive(Drop)]
struct Told {
    /// How often that they had ended.
    lines: AtomicU64,
    /// How often how: 1 for each end, a thousand for each fault of the reader, a million for each
    /// of the writer.
    ends: AtomicU64,
}

// What an end counts.
fn weight(driven: Driven) -> u64 {
    match driven {
        Driven::End => 1,
        Driven::ReadFault => 1_000,
        Driven::WriteFault => 1_000_000,
        Driven::NoMemory => 1_000_000_000,
    }
}

/// Counts what it is told of a caller.
#[derive(Drop)]
struct Counting {
    told: &'static Told,
}

impl Notes for Counting {
    fn note<J: Row>(
        &mut self,
        _shim: &Shim<J>,
        _seat: &Seat<J>,
        _line: Option<&[u8]>,
        _answer: &Result<Reply, Refusal>,
    ) {}

    fn ended(&mut self, _id: &Text, _turns: u64, _end: ExitRecord) {}
}

impl<R, W> Report<R, W> for Counting {
    fn lines_ended(&self) {
        self.told.lines.fetch_add(1, Ordering::SeqCst);
    }

    fn report(&self, driven: Driven, _reader: &R, _writer: &W) {
        self.told.ends.fetch_add(weight(driven), Ordering::SeqCst);
    }
}

type Reader<H> = Attended<Watched<ChunkedReader<'static>>, H>;

type Planned<J, H> = LiveCaller<J, Reader<H>, Watched<FailingWriter>, Counting>;

// A caller of three lines, which are to end so. None if memory runs out.
fn caller_of<J: Row, H: Wait + Copy>(
    rt: H,
    alloc: Global,
    shim: &Shim<J>,
    flight: &'static InFlight,
    end: Driven,
    told: &'static Told,
) -> Option<Planned<J, H>> {
    let lines: &'static [u8] = repeated(alloc, STATE, 3)?.leak();
    let reader = match end {
        Driven::ReadFault => ChunkedReader::failing(lines),
        _ => ChunkedReader::new(lines),
    };
    let room = if end == Driven::WriteFault {
        60
    } else {
        usize::MAX
    };
    Some(LiveCaller {
        seat: shim.seat(&rt)?,
        reader: Attended::new(rt, flight, Watched::new(reader)),
        writer: Watched::new(FailingWriter::new(alloc, room)),
        notes: Counting { told },
    })
}

// Callers whose lines are to end so, and what is told of them.
fn callers_of<J: Row, H: Wait + Copy>(
    rt: H,
    alloc: Global,
    shim: &Shim<J>,
    flight: &'static InFlight,
    ends: &[Driven],
) -> Option<(Vec<Planned<J, H>>, Vec<&'static Told>)> {
    let (mut callers, mut all) = (Vec::new(alloc), Vec::new(alloc));
    for end in ends {
        let told = Told {
            lines: AtomicU64::new(0),
            ends: AtomicU64::new(0),
        };
        let told: &'static Told = Box::leak(Box::new(alloc, told).ok()?);
        callers
            .push(caller_of(rt, alloc, shim, flight, *end, told)?)
            .ok()?;
        all.push(told).ok()?;
    }
    Some((callers, all))
}

// Asserts that the end of each caller was told once, and as it was.
fn check_told(rt: &impl Abort, all: &[&'static Told], ends: &[Driven]) {
    for (told, end) in all.iter().zip(ends) {
        assert_eq!(rt; told.lines.load(Ordering::SeqCst), 1);
        assert_eq!(rt; told.ends.load(Ordering::SeqCst), weight(*end));
    }
}

// Asserts that the lines of callers in threads end so.
fn check_threads<J: Row, H: Threads + Wait + Abort + Copy>(
    rt: H,
    threads: Vec<Thread<J, Reader<H>, Watched<FailingWriter>, Counting>>,
    ends: &[Driven],
) {
    for (thread, end) in threads.into_iter().zip(ends) {
        assert!(rt; thread.join(&rt).driven == *end);
    }
}

// Answers the lines of callers, of which the first is the owner, and asserts that they end so.
fn check_answered<
    J: Row + Send + Sync + 'static,
    H: Threads + Wait + Abort + Copy + Send + Sync + 'static,
>(
    rt: H,
    alloc: Global,
    shim: &Arc<Shim<J>, Global>,
    flight: &'static InFlight,
    callers: Vec<Planned<J, H>>,
    ends: &[Driven],
) -> Option<()> {
    let mut others = callers;
    let (end, later) = ends.split_first()?;
    if others.is_empty() {
        return None;
    }
    let owner = others.remove(0);
    let (ended, threads) = answer_live(rt, alloc, shim, flight, owner, others).ok()?;
    assert!(rt; ended.driven == *end);
    check_threads(rt, threads, later);
    Some(())
}

/// The first of these is the end of the owner's lines, and the others are those of other live
/// callers. None if memory runs out or a thread cannot be started.
pub fn live<
    J: Row + Send + Sync + 'static,
    H: Threads + Wait + Clock + Abort + Copy + Send + Sync + 'static,
>(rt: H, alloc: Global, shim: &Arc<Shim<J>, Global>, ends: &[Driven]) -> Option<()> {
    let flight: &'static InFlight = Box::leak(Box::new(alloc, InFlight::new()).ok()?);
    let (callers, told) = callers_of(rt, alloc, shim, flight, ends)?;
    check_answered(rt, alloc, shim, flight, callers, ends)?;
    let is_well = ends.iter().all(|end| *end == Driven::End);
    let how = flight.close(&rt, Duration::from_secs(5));
    assert_eq!(rt; how == Driven::End, is_well);
    check_told(&rt, told.as_slice(), ends);
    Some(())
}

#[test]
fn all_live_callers_end_well(rt: HostRuntime) -> Result<(), Fail> {
    let ends = [Driven::End, Driven::End, Driven::End];
    tell(&rt, rt.alloc(), Story::Live(ends.as_slice()))
}

#[test]
fn each_end_of_a_live_caller_is_told_once(rt: HostRuntime) -> Result<(), Fail> {
    let ends = [
        Driven::End,
        Driven::ReadFault,
        Driven::WriteFault,
        Driven::End,
    ];
    tell(&rt, rt.alloc(), Story::Live(ends.as_slice()))
}

#[test]
fn the_fault_of_one_live_caller_counts(rt: HostRuntime) -> Result<(), Fail> {
    let others = [Driven::End, Driven::WriteFault];
    tell(&rt, rt.alloc(), Story::Live(others.as_slice()))?;
    let owner = [Driven::ReadFault, Driven::End];
    tell(&rt, rt.alloc(), Story::Live(owner.as_slice()))
}
