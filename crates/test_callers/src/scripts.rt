//! Callers in threads of their own, each with the lines of a script.

use call_journal::{Row, Shim};
use callers::{Answered, Caller, Driven, NoNotes, answer_all};
use request_lines::Watched;
use std::alloc::Global;
use std::sync::Wait;
use std::thread::Threads;
use test_streams::ChunkedReader;

/// What a script was answered.
pub type Told<'a, R> = Answered<R, Watched<ChunkedReader<'a>>, NoNotes>;

// A caller for each script.
fn callers_of<'a, R: Row, W: Wait>(
    rt: &W,
    alloc: Global,
    shim: &Shim<R>,
    scripts: &[&'a [u8]],
) -> Option<Vec<Caller<R, Watched<ChunkedReader<'a>>, NoNotes>>> {
    let mut callers = Vec::new(alloc);
    for lines in scripts {
        let seat = shim.seat(rt)?;
        let reader = Watched::new(ChunkedReader::new(lines));
        callers
            .push(Caller {
                seat,
                reader,
                notes: NoNotes,
            })
            .ok()?;
    }
    Some(callers)
}

// What the scripts were answered, if the lines of each came to their end.
fn told_of<R: Row>(alloc: Global, all: Vec<Option<Told<'_, R>>>) -> Option<Vec<Told<'_, R>>> {
    let mut told = Vec::new(alloc);
    for answered in all {
        let answered = answered?;
        if answered.driven != Driven::End {
            return None;
        }
        told.push(answered).ok()?;
    }
    Some(told)
}

/// Answers scripts side by side, each by a caller with a seat and a thread of its own. None if a
/// thread cannot be started, or lines do not come to their end.
pub fn side_by_side<'a, R: Row + Send + Sync, W: Threads + Wait + Sync>(
    rt: &W,
    alloc: Global,
    shim: &Shim<R>,
    scripts: &[&'a [u8]],
) -> Option<Vec<Told<'a, R>>> {
    let callers = callers_of(rt, alloc, shim, scripts)?;
    told_of(alloc, answer_all(rt, alloc, shim, callers).ok()?)
}
