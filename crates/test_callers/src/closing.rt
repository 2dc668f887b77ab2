//! Callers that sleep in a wait while the shim is closed.

use crate::scripts::side_by_side;
use crate::stories::{Story, tell};
use crate::waking::{ENDLESS_LINES, WAIT_LINE};
use call_journal::{Row, Seat, Shim};
use callers::{Answered, Caller, Driven, Notes, answer_all};
use request_lines::Watched;
use std::alloc::Global;
use std::process::Abort;
use std::sync::Wait;
use std::test::Fail;
use std::thread::Threads;
use task_board::{ExitRecord, Reply};
use test_streams::{ChunkedReader, STATE, repeated};
use wasm_ast::{Refusal, Text};

const CLOSED_LINE: &str = "{\"error\":\"Closed\",\"number\":19,\"ok\":false}\n";

/// Notes that close the shim at a line that is no request.
#[derive(Drop)]
pub struct Closing<'a, W> {
    rt: &'a W,
}

impl<W: Wait> Notes for Closing<'_, W> {
    fn note<J: Row>(
        &mut self,
        shim: &Shim<J>,
        _seat: &Seat<J>,
        _line: Option<&[u8]>,
        answer: &Result<Reply, Refusal>,
    ) {
        if let Err(Refusal::BadRequest) = answer {
            shim.close(self.rt);
        }
    }

    fn ended(&mut self, _id: &Text, _turns: u64, _end: ExitRecord) {}
}

type Closer<'a, R, W> = Caller<R, Watched<ChunkedReader<'a>>, Closing<'a, W>>;

// A caller of these lines. None if no seat is left.
fn caller_of<'a, R: Row, W: Wait>(
    rt: &'a W,
    shim: &Shim<R>,
    lines: &'a [u8],
) -> Option<Closer<'a, R, W>> {
    Some(Caller {
        seat: shim.seat(rt)?,
        reader: Watched::new(ChunkedReader::new(lines)),
        notes: Closing { rt },
    })
}

// Two callers that wait, and one that closes. None if memory runs out.
fn callers_of<'a, R: Row, W: Wait>(
    rt: &'a W,
    alloc: Global,
    shim: &Shim<R>,
    closes: &'a [u8],
) -> Option<Vec<Closer<'a, R, W>>> {
    let mut callers = Vec::new(alloc);
    for lines in [WAIT_LINE.as_bytes(), WAIT_LINE.as_bytes(), closes] {
        callers.push(caller_of(rt, shim, lines)?).ok()?;
    }
    Some(callers)
}

// Asserts that the first two were answered that the shim is closed.
fn check_closed<R: Row, N, A: Abort>(
    rt: &A,
    all: &[Option<Answered<R, Watched<ChunkedReader<'_>>, N>>],
) {
    for (at, answered) in all.iter().enumerate() {
        if let Some(answered) = answered {
            let is_closed = answered.replies.as_slice() == CLOSED_LINE.as_bytes();
            assert!(rt; is_closed || at == 2, "caller {at}");
            assert!(rt; answered.driven == Driven::End, "caller {at}");
        }
    }
}

/// Two callers wait for a task that never ends, and a third one closes the shim. None if memory runs out.
pub fn close_beside_two<R: Row + Send + Sync, W: Threads + Wait + Abort + Sync>(
    rt: &W,
    alloc: Global,
    shim: &Shim<R>,
) -> Option<()> {
    let scripts = [ENDLESS_LINES.as_bytes()];
    side_by_side(rt, alloc, shim, scripts.as_slice())?;
    let mut closes = repeated(alloc, STATE, 500)?;
    closes.extend_from_slice(b"{}\n").ok()?;
    let callers = callers_of(rt, alloc, shim, closes.as_slice())?;
    let all = answer_all(rt, alloc, shim, callers).ok()?;
    check_closed(rt, all.as_slice());
    Some(())
}

#[test]
fn a_closed_shim_wakes_those_that_wait(rt: HostRuntime) -> Result<(), Fail> {
    tell(&rt, rt.alloc(), Story::Closing)
}
