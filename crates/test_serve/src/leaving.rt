//! `serve` with live callers that end before the owner: what they were answered, and what the owner
//! is answered once their OUTs are closed.

use crate::serving::{Page, Told, check_text, empty_text, served};
use crate::waiting::comes_to;
use serve_command::Work;
use std::alloc::{AllocError, Global};
use std::io;
use std::io::{ErrorKind, Read, Write};
use std::process::Abort;
use std::sync::atomic::{AtomicU64, Ordering};
use std::sync::{Mutex, Wait};
use std::test::Fail;
use std::thread::Threads;
use std::time::Clock;
use test_streams::{ChunkedReader, NOT_FOUND_LINE};

/// How many callers there may be beside the owner.
const OTHERS: u64 = 129;

/// A request for a task that is not there.
const STATE_LINE: &str = "{\"op\":\"state\",\"id\":\"zz\"}\n";

/// Stores a module whose entry is empty.
const PUT_LINE: &str =
    "{\"op\":\"put\",\"hex\":\"0061736d0100000001040160000003020100070a01065f737461727400000a040102000b\"}\n";

/// What that is answered.
const PUT_ANSWER: &str =
    "{\"digest\":\"sha256:5647c39a1d25d8728350f9619025292a62e78a602068a2ad9b6f075751c93d99\",\"ok\":true,\"size\":36}\n";

/// Creates a task of it.
const CREATE_LINE: &str =
    r#"{"op":"create","id":"a","config":"{\"ociVersion\":\"1.0.2\",\"process\":{\"args\":[\"a\"],\"cwd\":\"/\"},\"annotations\":{\"dev.shim.module\":\"sha256:5647c39a1d25d8728350f9619025292a62e78a602068a2ad9b6f075751c93d99\"}}"}"#;

/// What that is answered.
const CREATE_ANSWER: &str = "{\"id\":\"a\",\"ok\":true,\"status\":\"created\"}\n";

/// A reader that gives nothing before this number of OUTs is closed, and is at its end if they are not.
#[derive(Drop)]
struct PatientReader<H> {
    rt: H,
    lines: ChunkedReader<'static>,
    closed: &'static AtomicU64,
    wanted: u64,
}

impl<H: Clock> Read for PatientReader<H> {
    fn read(&mut self, buf: &mut [u8]) -> io::Result<usize> {
        if !comes_to(&self.rt, self.closed, self.wanted) {
            return Ok(0);
        }
        self.lines.read(buf)
    }
}

/// A page as the OUT of a caller, which takes nothing if it fails: it counts there when it is closed.
struct ClosingPage<H: Copy> {
    page: Page<H>,
    closed: &'static AtomicU64,
    fails: bool,
}

impl<H: Copy> Drop for ClosingPage<H> {
    fn drop(self) {
        let ClosingPage {
            page: _,
            closed,
            fails: _,
        } = self;
        closed.fetch_add(1, Ordering::SeqCst);
    }
}

impl<H: Wait + Copy> Write for ClosingPage<H> {
    fn write(&mut self, buf: &[u8]) -> io::Result<usize> {
        if self.fails {
            return Err(io::Error::from(ErrorKind::BrokenPipe));
        }
        self.page.add(buf);
        Ok(buf.len())
    }

    fn flush(&mut self) -> io::Result<()> {
        Ok(())
    }
}

/// What callers share: the handle of the test, and how many of their OUTs are closed.
#[derive(Clone, Copy)]
struct Room<H> {
    rt: H,
    alloc: Global,
    closed: &'static AtomicU64,
}

// A room of which nobody has gone.
fn new_room<H: Copy>(rt: H, alloc: Global) -> Result<Room<H>, AllocError> {
    let closed: &'static AtomicU64 = Box::leak(Box::new(alloc, AtomicU64::new(0))?);
    Ok(Room { rt, alloc, closed })
}

type Streams<H> = (
    (&'static str, &'static str),
    PatientReader<H>,
    ClosingPage<H>,
);

impl<H: Copy> Room<H> {
    // A caller whose lines come once this number of others have gone, and the text of its replies. A fault
    // may be that of its OUT.
    fn caller(
        &self,
        names: (&'static str, &'static str),
        lines: ChunkedReader<'static>,
        wanted: u64,
        text: &'static Mutex<Vec<u8>>,
        fault: Fault,
    ) -> Streams<H> {
        let Room { rt, alloc, closed } = *self;
        let reader = PatientReader {
            rt,
            lines,
            closed,
            wanted,
        };
        let page = Page { rt, alloc, text };
        let fails = fault == Fault::Out;
        (
            names,
            reader,
            ClosingPage {
                page,
                closed,
                fails,
            },
        )
    }
}

type LeavingWork<H> = Work<PatientReader<H>, ClosingPage<H>, Vec<u8>>;

/// Which stream of a caller fails: IN after its lines, OUT at the first reply.
#[derive(Clone, Copy, PartialEq, Eq)]
enum Fault {
    None,
    In,
    Out,
}

/// Another caller that ends, and what the owner asks then.
#[derive(Clone, Copy)]
struct Leaving {
    names: (&'static str, &'static str),
    lines: &'static str,
    fault: Fault,
    replies: &'static str,
    owner: &'static str,
    answers: &'static str,
    /// What is said on standard error, and what of.
    said: &'static str,
    told: Told,
    status: u8,
}

// A reader of these lines, which fails after them or is at its end.
fn reader_of(text: &'static str, fault: Fault) -> ChunkedReader<'static> {
    let lines = text.as_bytes();
    match fault {
        Fault::In => ChunkedReader::failing(lines),
        Fault::None | Fault::Out => ChunkedReader::new(lines),
    }
}

/// What the streams of the owner are called.
const OWN_NAMES: (&str, &str) = ("own.in", "own.out");

// The owner and the other caller, with the texts of their replies.
fn two_callers<H: Copy>(
    room: &Room<H>,
    leaving: &Leaving,
    answers: &'static Mutex<Vec<u8>>,
    replies: &'static Mutex<Vec<u8>>,
) -> Result<LeavingWork<H>, AllocError> {
    let Leaving {
        names,
        lines,
        fault,
        owner,
        ..
    } = *leaving;
    let own = room.caller(
        OWN_NAMES,
        reader_of(owner, Fault::None),
        1,
        answers,
        Fault::None,
    );
    let other = room.caller(names, reader_of(lines, fault), 0, replies, fault);
    let mut callers: Vec<Streams<H>> = Vec::new(room.alloc);
    callers.push(own)?;
    callers.push(other)?;
    Ok(Work::Live(callers))
}

// Serves the two, and asserts what each is answered, what is said, and the status.
fn check_leaving<H: Threads + Wait + Clock + Abort + Copy + Send + Sync + 'static>(
    rt: H,
    alloc: Global,
    leaving: &Leaving,
) -> Result<(), Fail> {
    let (answers, replies) = (empty_text(alloc)?, empty_text(alloc)?);
    let said = empty_text(alloc)?;
    let work = two_callers(&new_room(rt, alloc)?, leaving, answers, replies)?;
    let status = served(rt, alloc, said, leaving.told, work);
    check_text(rt, replies, leaving.replies);
    check_text(rt, answers, leaving.answers);
    check_text(rt, said, leaving.said);
    assert_eq!(rt; status, leaving.status);
    Ok(())
}

// It is closed for the one whose reader fails alone.
#[test]
fn the_owner_goes_on_after_the_reader_of_another_fails(rt: HostRuntime) -> Result<(), Fail> {
    let leaving = Leaving {
        names: ("in", "out"),
        lines: STATE_LINE,
        fault: Fault::In,
        replies: NOT_FOUND_LINE,
        owner: STATE_LINE,
        answers: NOT_FOUND_LINE,
        said: "wasm-shim: in: connection reset\n",
        told: Told::Nothing,
        status: 1,
    };
    check_leaving(rt, rt.alloc(), &leaving)
}

// It is named by the OUT that failed.
#[test]
fn the_owner_goes_on_after_the_writer_of_another_fails(rt: HostRuntime) -> Result<(), Fail> {
    let leaving = Leaving {
        names: ("in", "out"),
        lines: STATE_LINE,
        fault: Fault::Out,
        replies: "",
        owner: STATE_LINE,
        answers: NOT_FOUND_LINE,
        said: "wasm-shim: out: broken pipe\n",
        told: Told::Nothing,
        status: 1,
    };
    check_leaving(rt, rt.alloc(), &leaving)
}

// Two callers that ask for a task that is not there, the owner after the other.
fn two_refused(told: Told, said: &'static str) -> Leaving {
    Leaving {
        names: ("in", "out"),
        lines: STATE_LINE,
        fault: Fault::None,
        replies: NOT_FOUND_LINE,
        owner: STATE_LINE,
        answers: NOT_FOUND_LINE,
        said,
        told,
        status: 0,
    }
}

// The lines of the owner are counted by themselves, and the end of each caller is told after its last line.
#[test]
fn the_log_names_live_callers(rt: HostRuntime) -> Result<(), Fail> {
    let said =
        "log: - - in line 1 refused id=zz number=4 cause=NotFound\nlog: - - in caller-ended lines=1\nlog: - - own.in line 1 refused id=zz number=4 cause=NotFound\nlog: - - own.in caller-ended lines=1\n";
    check_leaving(rt, rt.alloc(), &two_refused(Told::Log, said))
}

#[test]
fn reasons_name_live_callers(rt: HostRuntime) -> Result<(), Fail> {
    let said =
        "why: in line 1, 4 NotFound: state: id \"zz\": no task has that id\nwhy: own.in line 1, 4 NotFound: state: id \"zz\": no task has that id\n";
    check_leaving(rt, rt.alloc(), &two_refused(Told::Reasons, said))
}

// No lease has the content as a member, and no task is of it yet.
#[test]
fn the_content_of_a_caller_that_has_ended_stays(rt: HostRuntime) -> Result<(), Fail> {
    let leaving = Leaving {
        names: ("in", "out"),
        lines: PUT_LINE,
        fault: Fault::None,
        replies: PUT_ANSWER,
        owner: CREATE_LINE,
        answers: CREATE_ANSWER,
        said: "",
        told: Told::Nothing,
        status: 0,
    };
    check_leaving(rt, rt.alloc(), &leaving)
}

#[test]
fn both_streams_of_a_caller_may_have_one_name(rt: HostRuntime) -> Result<(), Fail> {
    let leaving = Leaving {
        names: ("tty", "tty"),
        lines: STATE_LINE,
        fault: Fault::None,
        replies: NOT_FOUND_LINE,
        owner: STATE_LINE,
        answers: NOT_FOUND_LINE,
        said: "",
        told: Told::Nothing,
        status: 0,
    };
    check_leaving(rt, rt.alloc(), &leaving)
}

// As many callers as there may be, the owner first.
fn all_callers<H: Copy>(
    room: &Room<H>,
    texts: &[&'static Mutex<Vec<u8>>],
) -> Result<LeavingWork<H>, AllocError> {
    let mut callers = Vec::new(room.alloc);
    let mut wanted = OTHERS;
    for text in texts {
        let lines = ChunkedReader::new(STATE_LINE.as_bytes());
        callers.push(room.caller(("in", "out"), lines, wanted, text, Fault::None))?;
        wanted = 0;
    }
    Ok(Work::Live(callers))
}

// A text for each of them.
fn texts_of_all(alloc: Global) -> Result<Vec<&'static Mutex<Vec<u8>>>, AllocError> {
    let mut texts = Vec::new(alloc);
    for _ in 0..OTHERS + 1 {
        texts.push(empty_text(alloc)?)?;
    }
    Ok(texts)
}

#[test]
fn each_of_many_live_callers_is_answered(rt: HostRuntime) -> Result<(), Fail> {
    let alloc = rt.alloc();
    let texts = texts_of_all(alloc)?;
    let said = empty_text(alloc)?;
    let work = all_callers(&new_room(rt, alloc)?, texts.as_slice())?;
    assert_eq!(rt; served(rt, alloc, said, Told::Nothing, work), 0);
    check_text(rt, said, "");
    for text in texts {
        check_text(rt, text, NOT_FOUND_LINE);
    }
    Ok(())
}
