//! Which events are lines of a log, by lines that were written out by hand.

use shim_log::{By, Clocks, Format, Log, Moment, Outlet, Terminal};
use std::alloc::{AllocError, Global};
use std::cell::RefCell;
use std::fmt::Display;
use std::io;
use std::io::{ErrorKind, Write};
use std::process::Abort;
use std::test::Fail;
use std::time::{Clock, Duration};
use task_requests::{ExitRecord, Reply, Status, TaskState};
use wasm_ast::{Refusal, Text, Trap};

// Keeps what is written. No clock can be read.
#[derive(Clone, Copy)]
struct Kept<'a> {
    text: &'a RefCell<String>,
}

impl Outlet for Kept<'_> {
    fn write(&self, text: &str) {
        if let Ok(mut kept) = self.text.try_borrow_mut() {
            let _kept = kept.push_str(text);
        }
    }

    fn now(&self) -> Moment {
        Moment {
            wall: None,
            since: None,
        }
    }
}

// Asserts what is in the log.
fn check(rt: &impl Abort, text: &RefCell<String>, wanted: &str) {
    let kept = text.try_borrow();
    assert!(rt; kept.is_ok());
    if let Ok(kept) = kept {
        assert_eq!(rt; kept.as_str(), wanted);
    }
}

// Asserts what is in a log of JSON: the event of each line, with its members.
fn check_json(
    rt: &impl Abort,
    alloc: Global,
    text: &RefCell<String>,
    wanted: &[&str],
) -> Result<(), AllocError> {
    let mut all = String::new(alloc);
    for event in wanted {
        all.push_str("{\"time\":\"-\",\"seconds\":null,\"event\":")?;
        all.push_str(*event)?;
        all.push_str("}\n")?;
    }
    check(rt, text, all.as_str());
    Ok(())
}

// The id `a`.
fn id(alloc: Global) -> Result<Text, AllocError> {
    Text::from_str(alloc, "a")
}

// The state of the task `a` after three turns.
fn state(alloc: Global, status: Status, end: Option<ExitRecord>) -> Result<TaskState, AllocError> {
    Ok(TaskState {
        id: id(alloc)?,
        n: 3,
        status,
        end,
    })
}

// Line 1 made the task `a`.
fn log_create(alloc: Global, log: Log<Kept<'_>>) -> Result<(), AllocError> {
    let (id, status) = (id(alloc)?, Status::Created);
    log.accepted(By::Line("", 1), &Reply::Create { id, status });
    Ok(())
}

// Line 2 started it.
fn log_start(alloc: Global, log: Log<Kept<'_>>) -> Result<(), AllocError> {
    let (id, status) = (id(alloc)?, Status::Running);
    log.accepted(By::Line("", 2), &Reply::Start { id, status });
    Ok(())
}

// Line 3 of the caller `x` paused it.
fn log_pause(alloc: Global, log: Log<Kept<'_>>) -> Result<(), AllocError> {
    let (id, status) = (id(alloc)?, Status::Paused);
    log.accepted(By::Line("x", 3), &Reply::Pause { id, status });
    Ok(())
}

// Line 4 of the caller `x` resumed it.
fn log_resume(alloc: Global, log: Log<Kept<'_>>) -> Result<(), AllocError> {
    let (id, status) = (id(alloc)?, Status::Running);
    log.accepted(By::Line("x", 4), &Reply::Resume { id, status });
    Ok(())
}

// Line 5 of the caller `x` killed it.
fn log_kill(alloc: Global, log: Log<Kept<'_>>) -> Result<(), AllocError> {
    let (id, status) = (id(alloc)?, Status::Stopped);
    log.accepted(By::Line("x", 5), &Reply::Kill { id, status });
    Ok(())
}

// Logs replies whose lines have a status or the number of turns.
fn log_statuses(alloc: Global, log: Log<Kept<'_>>) -> Result<(), AllocError> {
    log_create(alloc, log)?;
    log_start(alloc, log)?;
    log_pause(alloc, log)?;
    log_resume(alloc, log)?;
    log_kill(alloc, log)
}

#[test]
fn statuses_are_told(rt: HostRuntime) -> Result<(), AllocError> {
    let text = RefCell::new(String::new(rt.alloc()));
    let log = Log::new(rt.alloc(), Kept { text: &text }, Some(Format::Text));
    log_statuses(rt.alloc(), log)?;
    check(
        &rt,
        &text,
        "log: - - line 1 created id=a turns=0\nlog: - - line 2 started id=a status=running\nlog: - - x line 3 paused id=a status=paused\nlog: - - x line 4 resumed id=a status=running\nlog: - - x line 5 killed id=a status=stopped\n",
    );
    Ok(())
}

#[test]
fn statuses_are_told_in_json(rt: HostRuntime) -> Result<(), AllocError> {
    let alloc = rt.alloc();
    let text = RefCell::new(String::new(alloc));
    log_statuses(
        alloc,
        Log::new(alloc, Kept { text: &text }, Some(Format::Json)),
    )?;
    let events = [
        "\"created\",\"line\":1,\"id\":\"a\",\"turns\":0",
        "\"started\",\"line\":2,\"id\":\"a\",\"status\":\"running\"",
        "\"paused\",\"caller\":\"x\",\"line\":3,\"id\":\"a\",\"status\":\"paused\"",
        "\"resumed\",\"caller\":\"x\",\"line\":4,\"id\":\"a\",\"status\":\"running\"",
        "\"killed\",\"caller\":\"x\",\"line\":5,\"id\":\"a\",\"status\":\"stopped\"",
    ];
    check_json(&rt, alloc, &text, events.as_slice())
}

// Line 1 set a breakpoint.
fn log_break(alloc: Global, log: Log<Kept<'_>>) -> Result<(), AllocError> {
    log.accepted(By::Line("", 1), &Reply::Break { id: id(alloc)? });
    Ok(())
}

// Line 1 removed a breakpoint.
fn log_unbreak(alloc: Global, log: Log<Kept<'_>>) -> Result<(), AllocError> {
    log.accepted(By::Line("", 1), &Reply::Unbreak { id: id(alloc)? });
    Ok(())
}

// Line 1 stepped the task, which then was in this state.
fn log_step(
    alloc: Global,
    log: Log<Kept<'_>>,
    status: Status,
    end: Option<ExitRecord>,
) -> Result<(), AllocError> {
    log.accepted(By::Line("", 1), &Reply::Step(state(alloc, status, end)?));
    Ok(())
}

// Line 1 deleted the task.
fn log_delete(alloc: Global, log: Log<Kept<'_>>) -> Result<(), AllocError> {
    let end = Some(ExitRecord::Exit(7));
    let state = state(alloc, Status::Stopped, end)?;
    log.accepted(By::Line("", 1), &Reply::Delete(state));
    Ok(())
}

// Logs replies whose lines have the id alone, and steps.
fn log_others(alloc: Global, log: Log<Kept<'_>>) -> Result<(), AllocError> {
    log_break(alloc, log)?;
    log_unbreak(alloc, log)?;
    log_step(alloc, log, Status::Paused, None)?;
    log_step(alloc, log, Status::Stopped, Some(ExitRecord::Exit(7)))?;
    log_delete(alloc, log)
}

#[test]
fn steps_and_breakpoints_are_told(rt: HostRuntime) -> Result<(), AllocError> {
    let text = RefCell::new(String::new(rt.alloc()));
    let log = Log::new(rt.alloc(), Kept { text: &text }, Some(Format::Text));
    log_others(rt.alloc(), log)?;
    check(
        &rt,
        &text,
        "log: - - line 1 break-set id=a\nlog: - - line 1 break-removed id=a\nlog: - - line 1 stepped id=a turns=3\nlog: - - line 1 stepped id=a turns=3\nlog: - - line 1 ended id=a turns=3 cause=exit exit=7\nlog: - - line 1 deleted id=a\n",
    );
    Ok(())
}

#[test]
fn steps_and_breakpoints_are_told_in_json(rt: HostRuntime) -> Result<(), AllocError> {
    let alloc = rt.alloc();
    let text = RefCell::new(String::new(alloc));
    log_others(
        alloc,
        Log::new(alloc, Kept { text: &text }, Some(Format::Json)),
    )?;
    let events = [
        "\"break-set\",\"line\":1,\"id\":\"a\"",
        "\"break-removed\",\"line\":1,\"id\":\"a\"",
        "\"stepped\",\"line\":1,\"id\":\"a\",\"turns\":3",
        "\"stepped\",\"line\":1,\"id\":\"a\",\"turns\":3",
        "\"ended\",\"line\":1,\"id\":\"a\",\"turns\":3,\"cause\":\"exit\",\"exit\":7",
        "\"deleted\",\"line\":1,\"id\":\"a\"",
    ];
    check_json(&rt, alloc, &text, events.as_slice())
}

// Line 1 asked for the state of the task.
fn log_state(alloc: Global, log: Log<Kept<'_>>) -> Result<(), AllocError> {
    let state = state(alloc, Status::Running, None)?;
    log.accepted(By::Line("", 1), &Reply::State(state));
    Ok(())
}

// Line 1 waited for the task.
fn log_wait(alloc: Global, log: Log<Kept<'_>>) -> Result<(), AllocError> {
    let state = state(alloc, Status::Paused, None)?;
    log.accepted(By::Line("", 1), &Reply::Wait(state));
    Ok(())
}

// Line 1 removed a content.
fn log_remove(alloc: Global, log: Log<Kept<'_>>) -> Result<(), AllocError> {
    let digest = id(alloc)?;
    log.accepted(By::Line("", 1), &Reply::Remove { digest });
    Ok(())
}

// Line 1 made a lease.
fn log_lease(alloc: Global, log: Log<Kept<'_>>) -> Result<(), AllocError> {
    log.accepted(By::Line("", 1), &Reply::LeaseCreate { id: id(alloc)? });
    Ok(())
}

// Line 1 deleted a lease.
fn log_lease_end(alloc: Global, log: Log<Kept<'_>>) -> Result<(), AllocError> {
    log.accepted(By::Line("", 1), &Reply::LeaseDelete { id: id(alloc)? });
    Ok(())
}

// Logs replies by which nothing becomes of a task.
fn log_quiet(alloc: Global, log: Log<Kept<'_>>) -> Result<(), AllocError> {
    log_state(alloc, log)?;
    log_wait(alloc, log)?;
    log_remove(alloc, log)?;
    log_lease(alloc, log)?;
    log_lease_end(alloc, log)
}

#[test]
fn questions_are_not_told(rt: HostRuntime) -> Result<(), AllocError> {
    let text = RefCell::new(String::new(rt.alloc()));
    let log = Log::new(rt.alloc(), Kept { text: &text }, Some(Format::Json));
    log_quiet(rt.alloc(), log)?;
    check(&rt, &text, "");
    Ok(())
}

// Logs all that is told beside replies.
fn log_rest(log: Log<Kept<'_>>) {
    let by = By::Line("x", 9);
    log.refused(by, None, Refusal::BadRequest);
    log.refused(by, Some("b"), Refusal::NotFound);
    log.ended(By::Worker, "a", 2, ExitRecord::Trapped(Trap::Unreachable));
    for entries in [8_191, 8_192, 8_193, 14_746, 16_383, 16_384].as_slice() {
        log.filled(by, *entries);
    }
    log.caller_ended("x", 9);
}

#[test]
fn refusals_ends_and_marks_are_told(rt: HostRuntime) -> Result<(), AllocError> {
    let text = RefCell::new(String::new(rt.alloc()));
    let log = Log::new(rt.alloc(), Kept { text: &text }, Some(Format::Text));
    assert!(rt; log.is_wanted());
    log_rest(log);
    check(
        &rt,
        &text,
        "log: - - x line 9 refused number=1 cause=BadRequest\nlog: - - x line 9 refused id=b number=4 cause=NotFound\nlog: - - worker ended id=a turns=2 cause=trap exit=134 trap=unreachable\nlog: - - x line 9 journal entries=8192\nlog: - - x line 9 journal entries=14746\nlog: - - x line 9 journal entries=16384\nlog: - - x caller-ended lines=9\n",
    );
    Ok(())
}

#[test]
fn refusals_ends_and_marks_are_told_in_json(rt: HostRuntime) -> Result<(), AllocError> {
    let alloc = rt.alloc();
    let text = RefCell::new(String::new(alloc));
    log_rest(Log::new(alloc, Kept { text: &text }, Some(Format::Json)));
    let events = [
        "\"refused\",\"caller\":\"x\",\"line\":9,\"number\":1,\"cause\":\"BadRequest\"",
        "\"refused\",\"caller\":\"x\",\"line\":9,\"id\":\"b\",\"number\":4,\"cause\":\"NotFound\"",
        "\"ended\",\"id\":\"a\",\"turns\":2,\"cause\":\"trap\",\"exit\":134,\"trap\":\"unreachable\"",
        "\"journal\",\"caller\":\"x\",\"line\":9,\"entries\":8192",
        "\"journal\",\"caller\":\"x\",\"line\":9,\"entries\":14746",
        "\"journal\",\"caller\":\"x\",\"line\":9,\"entries\":16384",
        "\"caller-ended\",\"caller\":\"x\",\"lines\":9",
    ];
    check_json(&rt, alloc, &text, events.as_slice())
}

#[test]
fn no_log_is_wanted(rt: HostRuntime) -> Result<(), AllocError> {
    let text = RefCell::new(String::new(rt.alloc()));
    let log = Log::new(rt.alloc(), Kept { text: &text }, None);
    assert!(rt; !log.is_wanted());
    log_statuses(rt.alloc(), log)?;
    log_rest(log);
    check(&rt, &text, "");
    Ok(())
}

#[test]
fn formats_have_names(rt: HostRuntime) -> Result<(), AllocError> {
    let json = Some(String::from_str(rt.alloc(), "json")?);
    let text = Some(String::from_str(rt.alloc(), "text")?);
    assert!(rt; Format::wanted(true, &json) == Some(Format::Json));
    assert!(rt; Format::wanted(true, &text) == Some(Format::Text));
    assert!(rt; Format::wanted(true, &None) == Some(Format::Text));
    assert!(rt; Format::wanted(false, &json).is_none());
    Ok(())
}

// A clock that stands at 9 seconds after the program began and 1970; or one that cannot be read.
#[derive(Clone, Copy)]
struct Standing {
    fails: bool,
}

impl Standing {
    fn read(&self) -> io::Result<Duration> {
        if self.fails {
            return Err(io::Error::from(ErrorKind::Unsupported));
        }
        Ok(Duration::from_secs(9))
    }
}

impl Clock for Standing {
    fn monotonic(&self) -> io::Result<Duration> {
        self.read()
    }

    fn since_1970(&self) -> io::Result<Duration> {
        self.read()
    }
}

#[test]
fn clocks_are_read(rt: HostRuntime) -> Result<(), AllocError> {
    let known = Clocks::new(Standing { fails: false }).now();
    assert!(rt; known.since == Some(Duration::ZERO));
    assert!(rt; known.wall.is_some());
    let unknown = Clocks::new(Standing { fails: true }).now();
    assert!(rt; unknown.since.is_none() && unknown.wall.is_none());
    Ok(())
}

// A clock that goes on by 72 seconds and 271 microseconds each time it is read.
#[derive(Clone, Copy)]
struct Going<'a> {
    micros: &'a RefCell<u64>,
}

impl Clock for Going<'_> {
    fn monotonic(&self) -> io::Result<Duration> {
        match self.micros.try_borrow_mut() {
            Ok(mut micros) => {
                *micros = micros.wrapping_add(72_000_271);
                Ok(Duration::from_micros(*micros))
            }
            Err(_) => Err(io::Error::from(ErrorKind::Other)),
        }
    }

    fn since_1970(&self) -> io::Result<Duration> {
        Ok(Duration::from_secs(9))
    }
}

#[test]
fn time_since_the_program_began_goes_on(rt: HostRuntime) -> Result<(), AllocError> {
    let micros = RefCell::new(0);
    let clocks = Clocks::new(Going { micros: &micros });
    assert!(rt; clocks.now().since == Some(Duration::from_micros(72_000_271)));
    assert!(rt; clocks.now().since == Some(Duration::from_micros(144_000_542)));
    Ok(())
}

// Standard error over memory, of which a write takes a byte.
#[derive(Clone, Copy)]
struct Narrow<'a> {
    alloc: Global,
    text: &'a RefCell<String>,
}

impl Narrow<'_> {
    fn add(&self, text: &str) -> io::Result<()> {
        match self.text.try_borrow_mut() {
            Ok(mut kept) => Ok(kept.push_str(text)?),
            Err(_) => Err(io::Error::from(ErrorKind::Other)),
        }
    }
}

impl Write for Narrow<'_> {
    fn write(&mut self, buf: &[u8]) -> io::Result<usize> {
        let n = buf.len().min(1);
        let (now, _) = buf.split_at(n);
        let text = String::from_utf8_lossy(self.alloc, now)?;
        self.add(text.as_str())?;
        Ok(n)
    }

    fn flush(&mut self) -> io::Result<()> {
        Ok(())
    }
}

impl Eprint for Narrow<'_> {
    fn eprint<D: Display + Drop>(&self, value: D) -> io::Result<()> {
        let text = format!(in self.alloc; "{value}")?;
        self.add(text.as_str())
    }

    fn eprintln<D: Display + Drop>(&self, value: D) -> io::Result<()> {
        let text = format!(in self.alloc; "{value}\n")?;
        self.add(text.as_str())
    }
}

#[test]
fn standard_error_takes_whole_lines(rt: HostRuntime) -> Result<(), Fail> {
    let alloc = rt.alloc();
    let text = RefCell::new(String::new(alloc));
    let stream = Narrow { alloc, text: &text };
    let terminal = Terminal::new(stream, Standing { fails: false });
    terminal.write("a line\n");
    terminal.eprint("a ")?;
    terminal.eprintln("message")?;
    check(&rt, &text, "a line\na message\n");
    assert!(rt; terminal.now().since == Some(Duration::ZERO));
    Ok(())
}
