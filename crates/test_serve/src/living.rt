//! `serve` with live callers over memory: whose end is the end of all, and which replies are written by then.

use crate::serving::{Page, Told, check_text, empty_text, served};
use serve_command::Work;
use std::alloc::{AllocError, Global};
use std::io::{Read, Write};
use std::process::Abort;
use std::sync::atomic::{AtomicU64, Ordering};
use std::sync::{Mutex, Wait};
use std::test::Fail;
use std::thread::Threads;
use std::time::{Clock, Duration, Instant};
use std::{io, thread};
use test_streams::{ChunkedReader, NOT_FOUND_LINE, STATE, repeated};

/// How long a slow write takes, in milliseconds: less than `serve` waits for it, on a busy machine too.
const SLOW: u64 = 100;

/// How many questions the owner asks, if it does not wait for another caller.
const MANY: usize = 500;

/// A reader over bytes.
#[derive(Drop)]
struct LateReader {
    lines: ChunkedReader<'static>,
    /// It gives nothing before this, and is at its end if that does not come.
    after: Option<&'static AtomicU64>,
    /// It is at its end once a write has begun.
    begun: Option<&'static AtomicU64>,
}

impl Read for LateReader {
    fn read(&mut self, buf: &mut [u8]) -> io::Result<usize> {
        if !comes(self.after) {
            return Ok(0);
        }
        let n = self.lines.read(buf)?;
        if n == 0 {
            let _come = comes(self.begun);
        }
        Ok(n)
    }
}

// Waits for what is counted, if anything is, for at most a million yields. Whether it has come.
fn comes(counted: Option<&'static AtomicU64>) -> bool {
    let Some(counted) = counted else {
        return true;
    };
    for _ in 0..1_000_000 {
        if counted.load(Ordering::SeqCst) > 0 {
            return true;
        }
        thread::yield_now();
    }
    false
}

/// A page as the replies of a caller. A write says that it has begun, and is slow, if it is waited for.
#[derive(Drop)]
struct SlowWriter<H> {
    page: Page<H>,
    begun: Option<&'static AtomicU64>,
}

impl<H: Wait + Clock + Copy> Write for SlowWriter<H> {
    fn write(&mut self, buf: &[u8]) -> io::Result<usize> {
        if let Some(begun) = self.begun {
            begun.fetch_add(1, Ordering::SeqCst);
            thread::sleep(&self.page.rt, Duration::from_millis(SLOW));
        }
        self.page.add(buf);
        Ok(buf.len())
    }

    fn flush(&mut self) -> io::Result<()> {
        Ok(())
    }
}

/// A live caller over memory: the number of its questions for no task, and where its replies go.
#[derive(Clone, Copy)]
struct Asker {
    questions: usize,
    text: &'static Mutex<Vec<u8>>,
}

type Streams<H> = ((&'static str, &'static str), LateReader, SlowWriter<H>);

// The streams of a caller, which is the owner or another.
fn streams<H: Copy>(
    rt: H,
    alloc: Global,
    asker: Asker,
    reads: Option<&'static AtomicU64>,
    writes: Option<&'static AtomicU64>,
) -> Result<Streams<H>, AllocError> {
    let Some(lines) = repeated(alloc, STATE, asker.questions) else {
        return Err(AllocError);
    };
    let reader = LateReader {
        lines: ChunkedReader::new(lines.leak()),
        after: None,
        begun: reads,
    };
    Ok((("in", "out"), reader, writer_of(rt, alloc, asker, writes)))
}

// The writer of a caller's replies.
fn writer_of<H>(
    rt: H,
    alloc: Global,
    asker: Asker,
    begun: Option<&'static AtomicU64>,
) -> SlowWriter<H> {
    let text = asker.text;
    let page = Page { rt, alloc, text };
    SlowWriter { page, begun }
}

// Serves two live callers, of which the first is the owner, and asserts that both have their replies.
fn check_live<H: Threads + Wait + Clock + Abort + Copy + Send + Sync + 'static>(
    rt: H,
    alloc: Global,
    questions: (usize, usize),
    begun: Option<&'static AtomicU64>,
) -> Result<(), Fail> {
    let owner = Asker {
        questions: questions.0,
        text: empty_text(alloc)?,
    };
    let other = Asker {
        questions: questions.1,
        text: empty_text(alloc)?,
    };
    let mut callers = Vec::new(alloc);
    callers.push(streams(rt, alloc, owner, begun, None)?)?;
    callers.push(streams(rt, alloc, other, None, begun)?)?;
    let said = empty_text(alloc)?;
    let work: Work<LateReader, SlowWriter<H>, Vec<u8>> = Work::Live(callers);
    assert_eq!(rt; served(rt, alloc, said, Told::Nothing, work), 0);
    check_text(rt, said, "");
    for asker in [owner, other] {
        check_replies(rt, alloc, asker)?;
    }
    Ok(())
}

// Asserts that each question has its reply.
fn check_replies<H: Wait + Abort + Copy>(rt: H, alloc: Global, asker: Asker) -> Result<(), Fail> {
    let mut replies = String::new(alloc);
    for _ in 0..asker.questions {
        replies.push_str(NOT_FOUND_LINE)?;
    }
    check_text(rt, asker.text, replies.as_str());
    Ok(())
}

#[test]
fn the_first_live_caller_is_the_owner(rt: HostRuntime) -> Result<(), Fail> {
    check_live(rt, rt.alloc(), (MANY, 0), None)
}

// The owner ends while the reply of another caller is being written.
#[test]
fn a_reply_that_is_being_written_is_waited_for(rt: HostRuntime) -> Result<(), Fail> {
    let begun: &'static AtomicU64 = Box::leak(Box::new(rt.alloc(), AtomicU64::new(0))?);
    check_live(rt, rt.alloc(), (1, 1), Some(begun))
}

// The owner's reader fails: the status says so.
#[test]
fn the_end_of_an_owner_that_fails(rt: HostRuntime) -> Result<(), Fail> {
    let alloc = rt.alloc();
    let owner = Asker {
        questions: 0,
        text: empty_text(alloc)?,
    };
    let reader = ChunkedReader::failing(STATE.as_bytes());
    let mut callers = Vec::new(alloc);
    callers.push((("in", "out"), reader, writer_of(rt, alloc, owner, None)))?;
    let said = empty_text(alloc)?;
    let work: Work<ChunkedReader<'static>, SlowWriter<HostRuntime>, Vec<u8>> = Work::Live(callers);
    assert_eq!(rt; served(rt, alloc, said, Told::Nothing, work), 1);
    check_text(rt, said, "wasm-shim: in: connection reset\n");
    check_text(rt, owner.text, "");
    Ok(())
}

// Another caller gets its line when all has ended. It answers nothing any more: the program may exit at any
// moment, also in the middle of a reply.
#[test]
fn no_line_is_answered_after_the_end(rt: HostRuntime) -> Result<(), Fail> {
    let alloc = rt.alloc();
    let ended: &'static AtomicU64 = Box::leak(Box::new(alloc, AtomicU64::new(0))?);
    let late = Asker {
        questions: 1,
        text: empty_text(alloc)?,
    };
    let owner = Asker {
        questions: 1,
        text: empty_text(alloc)?,
    };
    let mut callers = Vec::new(alloc);
    callers.push(streams(rt, alloc, owner, None, None)?)?;
    let (names, mut reader, writer) = streams(rt, alloc, late, None, None)?;
    reader.after = Some(ended);
    callers.push((names, reader, writer))?;
    let said = empty_text(alloc)?;
    let work: Work<LateReader, SlowWriter<HostRuntime>, Vec<u8>> = Work::Live(callers);
    assert_eq!(rt; served(rt, alloc, said, Told::Nothing, work), 0);
    ended.fetch_add(1, Ordering::SeqCst);
    thread::sleep(&rt, Duration::from_millis(SLOW));
    check_text(rt, late.text, "");
    check_replies(rt, alloc, owner)
}

/// How often an end is timed: a busy machine may be slow once.
const TIMES: usize = 3;

/// How many seconds an end takes if a reply cannot be written, and no other.
const LAST_SECONDS: u64 = 5;

// How long it takes to serve an owner whose lines end so.
fn time_of_end<H: Threads + Wait + Clock + Abort + Copy + Send + Sync + 'static>(
    rt: H,
    alloc: Global,
    reader: ChunkedReader<'static>,
) -> Result<Duration, Fail> {
    let (text, said) = (empty_text(alloc)?, empty_text(alloc)?);
    let owner = Asker { questions: 0, text };
    let mut callers = Vec::new(alloc);
    callers.push((("in", "out"), reader, writer_of(rt, alloc, owner, None)))?;
    let work: Work<ChunkedReader<'static>, SlowWriter<H>, Vec<u8>> = Work::Live(callers);
    let began = Instant::now(&rt)?;
    let _status = served(rt, alloc, said, Told::Nothing, work);
    Ok(began.elapsed(&rt)?)
}

// A reader that is at its end after a question, or fails there.
fn one_question(fails: bool) -> ChunkedReader<'static> {
    let line = b"{\"op\":\"state\",\"id\":\"zz\"}\n".as_slice();
    if fails {
        ChunkedReader::failing(line)
    } else {
        ChunkedReader::new(line)
    }
}

// Asserts that an end takes less than that, if no reply is being written.
fn check_soon<H: Threads + Wait + Clock + Abort + Copy + Send + Sync + 'static>(
    rt: H,
    alloc: Global,
    fails: bool,
) -> Result<(), Fail> {
    let last = Duration::from_secs(LAST_SECONDS);
    let mut least = last;
    for _ in 0..TIMES {
        least = least.min(time_of_end(rt, alloc, one_question(fails))?);
    }
    assert!(rt; least < last);
    Ok(())
}

#[test]
fn a_good_end_waits_for_nobody(rt: HostRuntime) -> Result<(), Fail> {
    check_soon(rt, rt.alloc(), false)
}

#[test]
fn the_end_of_a_reader_that_fails_waits_for_nobody(rt: HostRuntime) -> Result<(), Fail> {
    check_soon(rt, rt.alloc(), true)
}
