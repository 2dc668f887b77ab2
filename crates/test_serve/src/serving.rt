//! `serve` over memory: its replies in their order, what it says on standard error, and its status.

use serve_command::{Wanted, Work, serve};
use shim_log::{Format, Moment, Outlet};
use std::alloc::{AllocError, Global};
use std::fmt::Display;
use std::io;
use std::io::{Read, Write};
use std::process::Abort;
use std::str::from_utf8;
use std::sync::{Mutex, Wait};
use std::test::Fail;
use std::thread::Threads;
use std::time::Clock;
use test_streams::{
    BAD_REQUEST_LINE, ChunkedReader, FailingWriter, LONG_LINES, NOT_FOUND_LINE, SIX_LINES, STATE,
    repeated,
};

/// What is said on standard error beside why the program failed.
#[derive(Clone, Copy)]
pub enum Told {
    Nothing,
    /// Why each refused request is refused.
    Reasons,
    /// The log as text.
    Log,
}

impl Told {
    fn explains(self) -> bool {
        matches!(self, Told::Reasons)
    }

    fn format(self) -> Option<Format> {
        match self {
            Told::Log => Some(Format::Text),
            Told::Nothing | Told::Reasons => None,
        }
    }
}

/// A text that several threads write.
#[derive(Clone, Copy)]
pub struct Page<H> {
    pub rt: H,
    pub alloc: Global,
    pub text: &'static Mutex<Vec<u8>>,
}

/// An empty text, which stays to the end of the program.
pub fn empty_text(alloc: Global) -> Result<&'static Mutex<Vec<u8>>, AllocError> {
    let text = Box::new(alloc, Mutex::new(Vec::new(alloc)))?;
    Ok(Box::leak(text))
}

impl<H: Wait> Page<H> {
    /// Adds bytes.
    pub fn add(&self, bytes: &[u8]) {
        let _added = self.text.lock(&self.rt).extend_from_slice(bytes);
    }
}

/// A page as standard error. No clock can be read.
#[derive(Clone, Copy)]
struct ErrorPage<H> {
    page: Page<H>,
}

impl<H: Wait + Copy> Outlet for ErrorPage<H> {
    fn write(&self, text: &str) {
        self.page.add(text.as_bytes());
    }

    fn now(&self) -> Moment {
        Moment {
            wall: None,
            since: None,
        }
    }
}

impl<H: Wait + Copy> Eprint for ErrorPage<H> {
    fn eprint<D: Display + Drop>(&self, value: D) -> io::Result<()> {
        let text = format!(in self.page.alloc; "{value}")?;
        self.page.add(text.as_bytes());
        Ok(())
    }

    fn eprintln<D: Display + Drop>(&self, value: D) -> io::Result<()> {
        let text = format!(in self.page.alloc; "{value}\n")?;
        self.page.add(text.as_bytes());
        Ok(())
    }
}

/// A page as standard output.
#[derive(Clone, Copy)]
pub struct OutputPage<H> {
    pub page: Page<H>,
}

impl<H: Wait + Copy> Write for OutputPage<H> {
    fn write(&mut self, buf: &[u8]) -> io::Result<usize> {
        self.page.add(buf);
        Ok(buf.len())
    }

    fn flush(&mut self) -> io::Result<()> {
        Ok(())
    }
}

/// The names of scripts.
pub fn names(alloc: Global, words: &[&str]) -> Result<&'static [String], AllocError> {
    let mut names = Vec::new(alloc);
    for word in words {
        names.push(String::from_str(alloc, *word)?)?;
    }
    Ok(names.leak())
}

// A reader of this number of questions for a task that is not there.
fn questions(
    alloc: Global,
    count: usize,
    fails: bool,
) -> Result<ChunkedReader<'static>, AllocError> {
    let Some(lines) = repeated(alloc, STATE, count) else {
        return Err(AllocError);
    };
    let lines: &'static [u8] = lines.leak();
    if fails {
        Ok(ChunkedReader::failing(lines))
    } else {
        Ok(ChunkedReader::new(lines))
    }
}

type MemoryWork<O> = Work<ChunkedReader<'static>, FailingWriter, O>;

/// Serves with this text as standard error. The status.
pub fn served<
    H: Threads + Wait + Clock + Copy + Send + Sync + 'static,
    R: Read + Send + Drop + 'static,
    W: Write + Send + Drop + 'static,
    O: Write + Drop,
>(rt: H, alloc: Global, text: &'static Mutex<Vec<u8>>, told: Told, work: Work<R, W, O>) -> u8 {
    let page = Page { rt, alloc, text };
    let wanted = Wanted::new(alloc, ErrorPage { page }, told.explains(), told.format());
    serve(rt, 2, wanted, work)
}

/// Asserts what a text is.
pub fn check_text<H: Wait + Abort + Copy>(rt: H, text: &Mutex<Vec<u8>>, wanted: &str) {
    assert_eq!(rt; text.lock(&rt).as_slice(), wanted.as_bytes());
}

// Serves, and asserts what is said and the status.
fn check_served<H: Threads + Wait + Clock + Abort + Copy + Send + Sync + 'static, O: Write + Drop>(
    rt: H,
    alloc: Global,
    told: Told,
    work: MemoryWork<O>,
    said: &str,
    status: u8,
) -> Result<(), Fail> {
    let text = empty_text(alloc)?;
    let found = served(rt, alloc, text, told, work);
    assert_eq!(rt; found, status);
    check_text(rt, text, said);
    Ok(())
}

// Three scripts, of which the last may fail.
fn scripts<O: Drop>(alloc: Global, fails: bool, output: O) -> Result<MemoryWork<O>, AllocError> {
    let mut readers = Vec::new(alloc);
    readers.push(questions(alloc, 2, false)?)?;
    readers.push(ChunkedReader::new(b"{}\n".as_slice()))?;
    readers.push(questions(alloc, 1, fails)?)?;
    Ok(Work::Scripts(names(alloc, ["x", "y", "z"].as_slice())?, readers, output))
}

// Replies come in the order of the scripts, those before a fault of a reader too.
#[test]
fn replies_come_in_the_order_of_scripts(rt: HostRuntime) -> Result<(), Fail> {
    let alloc = rt.alloc();
    let text = empty_text(alloc)?;
    let page = Page { rt, alloc, text };
    let work = scripts(alloc, false, OutputPage { page })?;
    check_served(rt, rt.alloc(), Told::Nothing, work, "", 0)?;
    let work = scripts(alloc, true, OutputPage { page })?;
    check_served(
        rt,
        rt.alloc(),
        Told::Nothing,
        work,
        "wasm-shim: z: connection reset\n",
        1,
    )?;
    let mut both = String::new(rt.alloc());
    for _ in 0..2 {
        for line in [
            NOT_FOUND_LINE,
            NOT_FOUND_LINE,
            BAD_REQUEST_LINE,
            NOT_FOUND_LINE,
        ] {
            both.push_str(line)?;
        }
    }
    check_text(rt, text, both.as_str());
    Ok(())
}

// Standard output takes no reply.
#[test]
fn an_output_that_fails_is_said(rt: HostRuntime) -> Result<(), Fail> {
    let said = "wasm-shim: standard output: broken pipe\n";
    let output = FailingWriter::new(rt.alloc(), 0);
    let work = Work::Stream("standard input", questions(rt.alloc(), 2, false)?, output);
    check_served(rt, rt.alloc(), Told::Nothing, work, said, 1)?;
    let three =
        "wasm-shim: standard output: broken pipe\nwasm-shim: standard output: broken pipe\nwasm-shim: standard output: broken pipe\n";
    let work = scripts(rt.alloc(), true, FailingWriter::new(rt.alloc(), 0))?;
    check_served(rt, rt.alloc(), Told::Nothing, work, three, 1)
}

// The log of one caller, whose reader fails: its end is told before why.
#[test]
fn the_log_of_one_caller(rt: HostRuntime) -> Result<(), Fail> {
    let said =
        "log: - - line 1 refused id=zz number=4 cause=NotFound\nlog: - - caller-ended lines=1\nwasm-shim: x: connection reset\n";
    let output = FailingWriter::new(rt.alloc(), usize::MAX);
    let work = Work::Stream("x", questions(rt.alloc(), 1, true)?, output);
    check_served(rt, rt.alloc(), Told::Log, work, said, 1)
}

// Serves with a log, and asserts that these lines are in it, and how many lines there are.
fn check_log<H: Threads + Wait + Clock + Abort + Copy + Send + Sync + 'static>(
    rt: H,
    alloc: Global,
    work: MemoryWork<FailingWriter>,
    lines: &[&str],
    count: usize,
) -> Result<(), Fail> {
    let text = empty_text(alloc)?;
    assert_eq!(rt; served(rt, alloc, text, Told::Log, work), 0);
    let kept = text.lock(&rt);
    let log = from_utf8(kept.as_slice())?;
    for line in lines {
        assert!(rt; log.contains(*line), "{line}");
    }
    assert_eq!(rt; log.lines().count(), count);
    Ok(())
}

/// The log of a task that ends in a slice of a worker, in any order.
const ENDED: &[&str] = &[
    "log: - - line 2 created id=a turns=0\n",
    "log: - - line 3 started id=a status=running\n",
    "log: - - worker ended id=a turns=2400002 cause=return exit=0\n",
    "log: - - caller-ended lines=4\n",
];

// A reader of lines that start a long task and wait for it.
fn long_task(alloc: Global) -> Result<ChunkedReader<'static>, AllocError> {
    let mut lines = String::from_str(alloc, LONG_LINES)?;
    lines.push_str("{\"op\":\"wait\",\"id\":\"a\"}\n")?;
    Ok(ChunkedReader::new(lines.into_bytes().leak()))
}

// The caller makes one slice of some 240 at most before it sleeps.
#[test]
fn the_log_of_a_task_that_a_worker_ends(rt: HostRuntime) -> Result<(), Fail> {
    let alloc = rt.alloc();
    let output = FailingWriter::new(alloc, usize::MAX);
    let work = Work::Stream("x", long_task(alloc)?, output);
    check_log(rt, alloc, work, ENDED, ENDED.len())
}

/// What three scripts add to the log, among other lines.
const OF_SCRIPTS: &[&str] = &[
    "log: - - x line 1 refused id=zz number=4 cause=NotFound\n",
    "log: - - x line 2 refused id=zz number=4 cause=NotFound\n",
    "log: - - x caller-ended lines=2\n",
    "log: - - y line 1 refused number=1 cause=BadRequest\n",
    "log: - - y caller-ended lines=1\n",
    "log: - - z line 1 refused id=zz number=4 cause=NotFound\n",
    "log: - - z caller-ended lines=1\n",
];

#[test]
fn the_log_of_scripts(rt: HostRuntime) -> Result<(), Fail> {
    let alloc = rt.alloc();
    let work = scripts(alloc, false, FailingWriter::new(alloc, usize::MAX))?;
    check_log(rt, alloc, work, OF_SCRIPTS, OF_SCRIPTS.len())
}

// The journal's mark of 8,192 entries is one line of the log, at the call that makes it.
#[test]
fn the_log_of_a_journal_that_is_half_full(rt: HostRuntime) -> Result<(), Fail> {
    let alloc = rt.alloc();
    let output = FailingWriter::new(alloc, usize::MAX);
    let work = Work::Stream("x", questions(alloc, 8_193, false)?, output);
    let mark = ["log: - - line 8192 journal entries=8192\n"];
    check_log(rt, alloc, work, mark.as_slice(), 8_195)
}

// A task that its caller kills before it has run.
#[test]
fn the_log_of_a_kill(rt: HostRuntime) -> Result<(), Fail> {
    let said =
        "log: - - line 2 created id=a turns=0\nlog: - - line 4 refused number=1 cause=BadRequest\nlog: - - line 5 ended id=a turns=0 cause=kill exit=137\nlog: - - line 5 killed id=a status=stopped\nlog: - - line 6 deleted id=a\nlog: - - caller-ended lines=6\n";
    let reader = ChunkedReader::new(SIX_LINES.as_bytes());
    let output = FailingWriter::new(rt.alloc(), usize::MAX);
    let work = Work::Stream("x", reader, output);
    check_served(rt, rt.alloc(), Told::Log, work, said, 0)
}

/// A question for a task that is not there, a content from a text without an entry, and a create of it.
const REFUSED_LINES: &str = r#"{"op":"state","id":"zz"}
{"op":"put_text","text":"(module)"}
{"op":"create","id":"a","config":"{\"ociVersion\":\"1.0.2\",\"process\":{\"args\":[\"a\"],\"cwd\":\"/\"},\"annotations\":{\"dev.shim.module\":\"sha256:93a44bbb96c751218e4c00d479e4c14358122a389acca16205b1e4d0dc5f9476\"}}"}
"#;

// The reason of a create is found in the content, which the caller has put.
#[test]
fn reasons_are_said(rt: HostRuntime) -> Result<(), Fail> {
    let said =
        "why: line 1, 4 NotFound: state: id \"zz\": no task has that id\nwhy: line 3, 21 NoEntry: create: no function is exported as _start\n";
    let reader = ChunkedReader::new(REFUSED_LINES.as_bytes());
    let output = FailingWriter::new(rt.alloc(), usize::MAX);
    let work = Work::Stream("x", reader, output);
    check_served(rt, rt.alloc(), Told::Reasons, work, said, 0)
}

/// A name that would begin another line, with other control characters.
const FORGED_NAME: &str = "x\nwhy: y\r\u{7f}\u{85}";

// A control character in the name of a script is `?`.
#[test]
fn a_name_cannot_forge_a_reason(rt: HostRuntime) -> Result<(), Fail> {
    let said = "why: x?why: y??? line 1, 4 NotFound: state: id \"zz\": no task has that id\n";
    let mut readers = Vec::new(rt.alloc());
    readers.push(questions(rt.alloc(), 1, false)?)?;
    let output = FailingWriter::new(rt.alloc(), usize::MAX);
    let names = names(rt.alloc(), [FORGED_NAME].as_slice())?;
    let work = Work::Scripts(names, readers, output);
    check_served(rt, rt.alloc(), Told::Reasons, work, said, 0)
}
