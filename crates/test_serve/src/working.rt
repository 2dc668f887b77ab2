//! `serve` with as many workers as there may be: all of them hold a task at the same time.

use crate::waiting::comes_to;
use serve_command::{Wanted, Work, serve};
use shim_log::{Format, Moment, Outlet};
use std::alloc::{AllocError, Global};
use std::fmt::Display;
use std::io;
use std::io::Read;
use std::process::Abort;
use std::sync::Wait;
use std::sync::atomic::{AtomicU64, Ordering};
use std::test::Fail;
use std::thread::Threads;
use std::time::Clock;
use test_streams::{ChunkedReader, FailingWriter};

/// How many workers there may be.
const WORKERS: u64 = 16;

/// Stores a module whose entry is one `nop`: a task of it runs, and ends in its first slice.
const PUT_LINE: &str =
    "{\"op\":\"put\",\"hex\":\"0061736d0100000001040160000003020100070a01065f737461727400000a05010300010b\"}\n";

/// The end of a line that creates a task of it.
const CONFIG: &str =
    r#""config":"{\"ociVersion\":\"1.0.2\",\"process\":{\"args\":[\"a\"],\"cwd\":\"/\"},\"annotations\":{\"dev.shim.module\":\"sha256:6c17660fc05334c47cade68011ec0f3669934cafde01f37213f16ac0200297cb\"}}"}"#;

/// Where workers meet: each comes with the end of a task, and waits there until all have come.
#[derive(Drop)]
struct Hall {
    came: AtomicU64,
    /// How many have waited in vain.
    missed: AtomicU64,
}

impl Hall {
    // A worker comes, and goes when all have come; at once if one has waited in vain.
    fn meet(&self, rt: &impl Clock) {
        self.came.fetch_add(1, Ordering::SeqCst);
        if self.missed.load(Ordering::SeqCst) == 0 && !comes_to(rt, &self.came, WORKERS) {
            self.missed.fetch_add(1, Ordering::SeqCst);
        }
    }
}

/// Standard error: the line of a task's end is written when the workers have met. No clock can be read.
#[derive(Clone, Copy)]
struct HallOutlet<H> {
    rt: H,
    hall: &'static Hall,
}

impl<H: Clock + Copy> Outlet for HallOutlet<H> {
    fn write(&self, text: &str) {
        if text.contains(" worker ended ") {
            self.hall.meet(&self.rt);
        }
    }

    fn now(&self) -> Moment {
        Moment {
            wall: None,
            since: None,
        }
    }
}

impl<H: Copy> Eprint for HallOutlet<H> {
    fn eprint<D: Display + Drop>(&self, _value: D) -> io::Result<()> {
        Ok(())
    }

    fn eprintln<D: Display + Drop>(&self, _value: D) -> io::Result<()> {
        Ok(())
    }
}

/// A reader that is at its end when the workers have met.
#[derive(Drop)]
struct HallReader<H> {
    lines: ChunkedReader<'static>,
    rt: H,
    hall: &'static Hall,
}

impl<H: Clock> Read for HallReader<H> {
    fn read(&mut self, buf: &mut [u8]) -> io::Result<usize> {
        let n = self.lines.read(buf)?;
        if n == 0 {
            let _met = comes_to(&self.rt, &self.hall.came, WORKERS);
        }
        Ok(n)
    }
}

// Adds the line that creates a task.
fn add_create(alloc: Global, lines: &mut String, number: u64) -> Result<(), AllocError> {
    let create = format!(in alloc; "{{\"op\":\"create\",\"id\":\"t{number}\",{CONFIG}\n")?;
    lines.push_str(create.as_str())
}

// Adds the line that starts it.
fn add_start(alloc: Global, lines: &mut String, number: u64) -> Result<(), AllocError> {
    let start = format!(in alloc; "{{\"op\":\"start\",\"id\":\"t{number}\"}}\n")?;
    lines.push_str(start.as_str())
}

// Lines that start a task for each worker, and wait for none of them.
fn lines(alloc: Global) -> Result<&'static [u8], AllocError> {
    let mut lines = String::from_str(alloc, PUT_LINE)?;
    for number in 0..WORKERS {
        add_create(alloc, &mut lines, number)?;
    }
    for number in 0..WORKERS {
        add_start(alloc, &mut lines, number)?;
    }
    Ok(lines.into_bytes().leak())
}

// A hall to which nobody has come.
fn empty_hall(alloc: Global) -> Result<&'static Hall, AllocError> {
    let hall = Hall {
        came: AtomicU64::new(0),
        missed: AtomicU64::new(0),
    };
    Ok(Box::leak(Box::new(alloc, hall)?))
}

// A reader of the lines.
fn reader<H: Copy>(rt: H, alloc: Global, hall: &'static Hall) -> Result<HallReader<H>, AllocError> {
    let lines = ChunkedReader::new(lines(alloc)?);
    Ok(HallReader { lines, rt, hall })
}

type HallWork<H> = Work<HallReader<H>, FailingWriter, FailingWriter>;

// Serves, and asserts that each worker has held a task while all others did.
fn check_met<H: Threads + Wait + Clock + Abort + Copy + Send + Sync + 'static>(
    rt: H,
    alloc: Global,
    hall: &'static Hall,
    work: HallWork<H>,
) {
    let outlet = HallOutlet { rt, hall };
    let wanted = Wanted::new(alloc, outlet, false, Some(Format::Text));
    assert_eq!(rt; serve(rt, WORKERS, wanted, work), 0);
    assert_eq!(rt; hall.came.load(Ordering::SeqCst), WORKERS);
    assert_eq!(rt; hall.missed.load(Ordering::SeqCst), 0);
}

#[test]
fn all_workers_serve_a_stream(rt: HostRuntime) -> Result<(), Fail> {
    let alloc = rt.alloc();
    let hall = empty_hall(alloc)?;
    let output = FailingWriter::new(alloc, usize::MAX);
    let work = Work::Stream("x", reader(rt, alloc, hall)?, output);
    check_met(rt, alloc, hall, work);
    Ok(())
}

#[test]
fn all_workers_serve_scripts(rt: HostRuntime) -> Result<(), Fail> {
    let alloc = rt.alloc();
    let hall = empty_hall(alloc)?;
    let mut names = Vec::new(alloc);
    names.push(String::from_str(alloc, "x")?)?;
    let mut readers = Vec::new(alloc);
    readers.push(reader(rt, alloc, hall)?)?;
    let output = FailingWriter::new(alloc, usize::MAX);
    check_met(
        rt,
        alloc,
        hall,
        Work::Scripts(names.leak(), readers, output),
    );
    Ok(())
}

#[test]
fn all_workers_serve_live_callers(rt: HostRuntime) -> Result<(), Fail> {
    let alloc = rt.alloc();
    let hall = empty_hall(alloc)?;
    let writer = FailingWriter::new(alloc, usize::MAX);
    let mut callers = Vec::new(alloc);
    callers.push((("in", "out"), reader(rt, alloc, hall)?, writer))?;
    check_met(rt, alloc, hall, Work::Live(callers));
    Ok(())
}
