//! Callers and workers that share a shim.

ghost use Rattle.std.specs.Prelude.{◌≡◌, ◌≤◌, ◌+◌};
ghost use Rattle.call_journal.specs.Desks.{AreIdle, spot_names};
ghost use Rattle.call_journal.specs.Seats.{most_seats};

use crate::log_gate::LogGate;
use crate::said::{OUT_OF_MEMORY, Streams, failed, not_started, stream_failed};
use crate::watch::{Wanted, Watch};
use call_journal::{Cells, Desk, MOST_SEATS, Row, Shim};
use callers::{
    Attended, Caller, InFlight, LiveCaller, Missing, Report, answer_all, answer_live, drive,
    write_answers,
};
use request_lines::Watched;
use shim_log::Outlet;
use slice_workers::with_gated_workers;
use std::alloc::Global;
use std::io::{Read, Write};
use std::marker::Brand;
use std::sync::ledger::Blank;
use std::sync::{Arc, Wait};
use std::thread::Threads;
use std::time::{Clock, Duration};

/// For how many seconds at most the end of the program waits for replies that are being written.
const LAST_SECONDS: u64 = 5;

/// What is said if a caller can have no seat.
const NO_SEAT: &str = "no seat is left";

/// What standard output is called.
const STANDARD_OUTPUT: &str = "standard output";

/// What `serve` is to answer.
#[derive(Drop)]
pub enum Work<R, W, O> {
    /// The lines of the stream of this name, each as it comes.
    Stream(&'static str, R, O),
    /// Those of the files of these names, each a caller of its own. The replies are written when all have
    /// ended, in this order.
    Scripts(&'static [String], Vec<R>, O),
    /// Those of callers with these names and streams, each reply as it comes. The first of them
    /// owns the shim.
    Live(Vec<((&'static str, &'static str), R, W)>),
}

/// What all callers share.
#[derive(Clone, Copy)]
struct Service<H, E> {
    rt: H,
    workers: u64,
    wanted: Wanted<E>,
}

/// Says of which scripts no thread could be started.
#[derive(Drop)]
struct Unstarted<E> {
    outlet: E,
    names: &'static [String],
}

impl<E: Eprint> Missing for Unstarted<E> {
    fn report(&self, number: usize) {
        if let Some(name) = self.names.get(number) {
            stream_failed(&self.outlet, name.as_str(), &"its thread cannot be started");
        }
    }
}

/// A caller that is answered as it asks.
type Live<J, H, E, R, W> = LiveCaller<J, Attended<Watched<R>, H>, Watched<W>, Watch<E>>;

// Answers the lines of one caller as they come. The status of the program.
fn serve_stream<
    J: Row + Send + Sync,
    H: Threads + Wait + Copy + Sync,
    E: Outlet + Eprint + Copy + Send + Sync,
    R: Read + Drop,
    O: Write + Drop,
>(service: Service<H, E>, shim: &Shim<J>, name: &'static str, reader: R, output: O) -> u8
    ensures { result ≤ 1 }
{
    let Service {
        rt,
        workers,
        wanted,
    } = service;
    let Some(seat) = shim.seat(&rt) else {
        return failed(&wanted.outlet, NO_SEAT);
    };
    let (mut input, mut output) = (Watched::new(reader), Watched::new(output));
    let (from, to) = (&mut input, &mut output);
    let streams = Streams {
        lines: name,
        replies: STANDARD_OUTPUT,
    };
    let watch = Watch::new(wanted, "", streams);
    let gate = LogGate { log: wanted.log };
    let threads = &rt;
    let ended = with_gated_workers(threads, wanted.alloc, shim, workers, &gate, move || {
        let mut watch = watch;
        let (_seat, driven) = drive(threads, wanted.alloc, shim, seat, from, to, &mut watch);
        watch.log_end();
        (watch, driven)
    });
    match ended {
        Ok((watch, driven)) => {
            watch.report(driven, &input, &output);
            driven.status()
        }
        Err(error) => not_started(&wanted.outlet, error),
    }
}

// The caller of the file of this name. None, and it is said, if no seat is left.
fn script_caller<J: Row, H: Wait + Copy, E: Outlet + Eprint + Copy, R: Drop>(
    service: Service<H, E>,
    shim: &Shim<J>,
    name: &'static str,
    reader: R,
) -> Option<Caller<J, Watched<R>, Watch<E>>> {
    let wanted = service.wanted;
    let Some(seat) = shim.seat(&service.rt) else {
        failed(&wanted.outlet, NO_SEAT);
        return None;
    };
    let streams = Streams {
        lines: name,
        replies: STANDARD_OUTPUT,
    };
    Some(Caller {
        seat,
        reader: Watched::new(reader),
        notes: Watch::new(wanted, name, streams),
    })
}

// A caller for each file. None, and it is said, if one cannot be had.
fn scripted<J: Row, H: Wait + Copy, E: Outlet + Eprint + Copy, R: Drop>(
    service: Service<H, E>,
    shim: &Shim<J>,
    names: &'static [String],
    readers: Vec<R>,
) -> Option<Vec<Caller<J, Watched<R>, Watch<E>>>> {
    let mut callers = Vec::new(service.wanted.alloc);
    for (name, reader) in names.iter().zip(readers) {
        let caller = script_caller(service, shim, name.as_str(), reader)?;
        if callers.push(caller).is_err() {
            failed(&service.wanted.outlet, OUT_OF_MEMORY);
            return None;
        }
    }
    Some(callers)
}

// Answers the lines of several callers, and writes their replies when all have ended. The status of the
// program.
fn serve_scripts<
    J: Row + Send + Sync,
    H: Threads + Wait + Copy + Sync,
    E: Outlet + Eprint + Copy + Send + Sync,
    R: Read + Send + Drop,
    O: Write + Drop,
>(
    service: Service<H, E>,
    shim: &Shim<J>,
    names: &'static [String],
    readers: Vec<R>,
    output: O,
) -> u8
    ensures { result ≤ 1 }
{
    let Some(callers) = scripted(service, shim, names, readers) else {
        return 1;
    };
    let Service {
        rt,
        workers,
        wanted,
    } = service;
    let outlet = wanted.outlet;
    let gate = LogGate { log: wanted.log };
    let threads = &rt;
    let done = with_gated_workers(threads, wanted.alloc, shim, workers, &gate, move || {
        answer_all(threads, wanted.alloc, shim, callers)
    });
    match done {
        Ok(Ok(all)) => {
            let missing = Unstarted { outlet, names };
            write_answers(all, &mut Watched::new(output), &missing).status()
        }
        Ok(Err(_)) => failed(&outlet, OUT_OF_MEMORY),
        Err(error) => not_started(&outlet, error),
    }
}

// The caller of these streams. None, and it is said, if no seat is left.
fn live_caller<J: Row, H: Wait + Copy, E: Outlet + Eprint + Copy, R: Drop, W: Drop>(
    service: Service<H, E>,
    shim: &Shim<J>,
    flight: &'static InFlight,
    streams: Streams,
    reader: R,
    writer: W,
) -> Option<Live<J, H, E, R, W>> {
    let Service { rt, wanted, .. } = service;
    let Some(seat) = shim.seat(&rt) else {
        failed(&wanted.outlet, NO_SEAT);
        return None;
    };
    Some(LiveCaller {
        seat,
        reader: Attended::new(rt, flight, Watched::new(reader)),
        writer: Watched::new(writer),
        notes: Watch::new(wanted, streams.lines, streams),
    })
}

// Callers of these streams, in order. None, and it is said, if one cannot be had.
fn live_callers<J: Row, H: Wait + Copy, E: Outlet + Eprint + Copy, R: Drop, W: Drop>(
    service: Service<H, E>,
    shim: &Shim<J>,
    flight: &'static InFlight,
    streams: Vec<((&'static str, &'static str), R, W)>,
) -> Option<Vec<Live<J, H, E, R, W>>> {
    let mut callers = Vec::new(service.wanted.alloc);
    for ((lines, replies), reader, writer) in streams {
        let names = Streams { lines, replies };
        let caller = live_caller(service, shim, flight, names, reader, writer)?;
        if callers.push(caller).is_err() {
            failed(&service.wanted.outlet, OUT_OF_MEMORY);
            return None;
        }
    }
    Some(callers)
}

// Answers the lines of these callers until those of the first have ended, and the replies to what the others
// have asked until then are written. The status of the program.
fn serve_owner<
    J: Row + Send + Sync + 'static,
    H: Threads + Wait + Clock + Copy + Send + Sync + 'static,
    E: Outlet + Eprint + Copy + Send + Sync + 'static,
    R: Read + Send + Drop + 'static,
    W: Write + Send + Drop + 'static,
>(
    service: Service<H, E>,
    shim: &Arc<Shim<J>, Global>,
    flight: &'static InFlight,
    callers: Vec<Live<J, H, E, R, W>>,
) -> u8
    ensures { result ≤ 1 }
{
    let Service {
        rt,
        workers,
        wanted,
    } = service;
    let mut others = callers;
    if others.is_empty() {
        return 0;
    }
    let owner = others.remove(0);
    let gate = LogGate { log: wanted.log };
    let answered = with_gated_workers(&rt, wanted.alloc, shim, workers, &gate, move || {
        answer_live(rt, wanted.alloc, shim, flight, owner, others)
    });
    match answered {
        Ok(Ok(_ended)) => {
            let how = flight.close(&rt, Duration::from_secs(LAST_SECONDS));
            how.status()
        }
        Ok(Err(error)) | Err(error) => not_started(&wanted.outlet, error),
    }
}

// What counts the replies that are being written. It is there until the program ends, since callers are left
// that use it. None if it cannot be allocated.
fn leaked_flight(alloc: Global) -> Option<&'static InFlight> {
    match Box::new(alloc, InFlight::new()) {
        Ok(flight) => Some(Box::leak(flight)),
        Err(_) => None,
    }
}

// The same over a shim that is not shared yet.
fn serve_live<
    J: Row + Send + Sync + 'static,
    H: Threads + Wait + Clock + Copy + Send + Sync + 'static,
    E: Outlet + Eprint + Copy + Send + Sync + 'static,
    R: Read + Send + Drop + 'static,
    W: Write + Send + Drop + 'static,
>(service: Service<H, E>, shim: Shim<J>, streams: Vec<((&'static str, &'static str), R, W)>) -> u8
    ensures { result ≤ 1 }
{
    let alloc = service.wanted.alloc;
    let Ok(shim) = Arc::new(alloc, shim) else {
        return failed(&service.wanted.outlet, OUT_OF_MEMORY);
    };
    let Some(flight) = leaked_flight(alloc) else {
        return failed(&service.wanted.outlet, OUT_OF_MEMORY);
    };
    match live_callers(service, &shim, flight, streams) {
        Some(callers) => serve_owner(service, &shim, flight, callers),
        None => 1,
    }
}

// Does the work by a shim over these cells. The status of the program.
fn serve_over<
    J: Row + Send + Sync + 'static,
    H: Threads + Wait + Clock + Copy + Send + Sync + 'static,
    E: Outlet + Eprint + Copy + Send + Sync + 'static,
    R: Read + Send + Drop + 'static,
    W: Write + Send + Drop + 'static,
    O: Write + Drop,
>(service: Service<H, E>, work: Work<R, W, O>, cells: Cells, desk: Desk, blank: Blank) -> u8
    requires row { cells ≡ J.cells }
    requires places { spot_names desk ≡ J.slots }
    requires idle { AreIdle desk }
    requires name { blank.name ≡ J.name }
    requires parts { (blank.parts ≡ J.parts) × (blank.parts ≡ most_seats + 1) }
    ensures { result ≤ 1 }
{
    let Ok(shim) = Shim::<J>::new(service.wanted.alloc, cells, desk, blank) else {
        return failed(&service.wanted.outlet, OUT_OF_MEMORY);
    };
    match work {
        Work::Stream(name, reader, output) => serve_stream(service, &shim, name, reader, output),
        Work::Scripts(names, readers, output) => {
            serve_scripts(service, &shim, names, readers, output)
        }
        Work::Live(streams) => serve_live(service, shim, streams),
    }
}

/// Answers lines while this many workers run the tasks. What is wanted of them, and why the program failed if
/// it did, is said on standard error. Then the shim is closed, and running tasks are left. The status of the
/// program, which is 0 or 1.
///
/// With live callers it ends when the lines of the first have ended and what the others have asked is
/// answered: after five seconds at the latest if the reader of a file of replies stops.
pub fn serve<
    H: Threads + Wait + Clock + Copy + Send + Sync + 'static,
    E: Outlet + Eprint + Copy + Send + Sync + 'static,
    R: Read + Send + Drop + 'static,
    W: Write + Send + Drop + 'static,
    O: Write + Drop,
>(rt: H, workers: u64, wanted: Wanted<E>, work: Work<R, W, O>) -> u8
    ensures { result ≤ 1 }
{
    let (Some(cells), Some(desk)) = (Cells::new(wanted.alloc), Desk::new(wanted.alloc)) else {
        return failed(&wanted.outlet, OUT_OF_MEMORY);
    };
    let service = Service {
        rt,
        workers,
        wanted,
    };
    let blank = Blank::new(MOST_SEATS + 1);
    serve_over::<Brand, H, E, R, W, O>(service, work, cells, desk, blank)
}
