//! Shims of their own, for what is told of them.

ghost use Rattle.std.specs.Prelude.{◌≡◌, ◌+◌, IfOk};
ghost use Rattle.call_journal.specs.Desks.{AreIdle, spot_names};
ghost use Rattle.call_journal.specs.Seats.{most_seats};

use crate::closing::close_beside_two;
use crate::histories::{four_callers, full_journal, two_callers, two_seats};
use crate::living::live;
use crate::offering::{Offered, offering};
use crate::sharing::{Counted, Endless, Holding, asking, last_start, sharing};
use crate::storm::storm;
use crate::unread::{StartGate, unread};
use crate::waking::{Sleepers, waking};
use crate::workers::{
    Ends, Meeting, ends_by_workers, large_output, run_by_two, start_beside_a_sleeper,
};
use call_journal::{Cells, Desk, MOST_SEATS, Row, Shim};
use callers::Driven;
use slice_workers::OpenGate;
use std::alloc::Global;
use std::marker::Brand;
use std::process::Abort;
use std::sync::ledger::Blank;
use std::sync::{Arc, Wait};
use std::test::Fail;
use std::thread::Threads;
use std::time::Clock;
use wasm_ast::Refusal;

/// What happens to a new shim, by one caller or several.
#[derive(Clone, Copy)]
pub enum Story<'a> {
    /// `two_seats` of `histories`; so are the three that follow.
    TwoSeats,
    FullJournal,
    TwoCallers,
    FourCallers,
    /// `storm`.
    Storm,
    /// `run_by_two` of `workers`.
    TwoWorkers,
    /// The same, with slices that meet at a gate.
    Meeting(&'a Meeting),
    /// `start_beside_a_sleeper` of `workers`.
    Beside(&'a Meeting),
    /// `large_output` of `workers`.
    LargeOutput,
    /// `waking`.
    Waking(Sleepers<'a>),
    /// `sharing`.
    Sharing(Endless<'a>),
    /// `last_start` of `sharing`.
    LastStart(&'a Counted),
    /// `asking` of `sharing`.
    Holding(&'a Holding),
    /// `offering`.
    Offering(&'a Offered),
    /// `ends_by_workers` of `workers`.
    Ends(&'a Ends),
    /// `close_beside_two` of `closing`.
    Closing,
    /// `live` of `living`.
    Live(&'a [Driven]),
    /// `unread`.
    Unread(&'a StartGate),
}

fn cells(alloc: Global) -> Result<Cells, Refusal> {
    Cells::new(alloc).ok_or(Refusal::NoMemory)
}

fn desk(alloc: Global) -> Result<Desk, Refusal>
    ensures { IfOk result (λ d. AreIdle d) }
{
    Desk::new(alloc).ok_or(Refusal::NoMemory)
}

fn blank() -> Blank
    ensures { result.parts ≡ most_seats + 1 }
{
    Blank::new(MOST_SEATS + 1)
}

// Tells a story. None if a call is answered otherwise than it should be.
fn told<
    R: Row + Send + Sync + 'static,
    W: Threads + Wait + Clock + Abort + Copy + Send + Sync + 'static,
>(rt: &W, alloc: Global, shim: &Arc<Shim<R>, Global>, story: Story<'_>) -> Option<()> {
    match story {
        Story::TwoSeats => two_seats(rt, alloc, shim),
        Story::FullJournal => full_journal(rt, alloc, shim),
        Story::TwoCallers => two_callers(rt, alloc, shim),
        Story::FourCallers => four_callers(rt, alloc, shim),
        Story::Storm => storm(rt, alloc, shim),
        Story::TwoWorkers => run_by_two(rt, alloc, shim, &OpenGate),
        Story::Meeting(gate) => run_by_two(rt, alloc, shim, gate),
        Story::Beside(gate) => start_beside_a_sleeper(rt, alloc, shim, gate),
        Story::LargeOutput => large_output(rt, alloc, shim),
        Story::Waking(story) => waking(rt, alloc, shim, story),
        Story::Sharing(story) => sharing(rt, alloc, shim, story),
        Story::LastStart(gate) => last_start(rt, alloc, shim, gate),
        Story::Holding(gate) => asking(rt, alloc, shim, gate),
        Story::Offering(gate) => offering(rt, alloc, shim, gate),
        Story::Ends(gate) => ends_by_workers(rt, alloc, shim, gate),
        Story::Closing => close_beside_two(rt, alloc, shim),
        Story::Live(ends) => live(*rt, alloc, shim, ends),
        Story::Unread(gate) => unread(rt, alloc, shim, gate),
    }
}

// Tells a story of a shim over these cells. Whether it goes on to its end.
fn told_of<
    R: Row + Send + Sync + 'static,
    W: Threads + Wait + Clock + Abort + Copy + Send + Sync + 'static,
>(
    rt: &W,
    alloc: Global,
    cells: Cells,
    desk: Desk,
    blank: Blank,
    story: Story<'_>,
) -> Result<bool, Refusal>
    requires row { cells ≡ R.cells }
    requires places { spot_names desk ≡ R.slots }
    requires idle { AreIdle desk }
    requires name { blank.name ≡ R.name }
    requires parts { (blank.parts ≡ R.parts) × (blank.parts ≡ most_seats + 1) }
{
    let shim: Shim<R> = Shim::new(alloc, cells, desk, blank)?;
    let Ok(shim) = Arc::new(alloc, shim) else {
        return Err(Refusal::NoMemory);
    };
    Ok(told(rt, alloc, &shim, story).is_some())
}

/// Tells a story of a shim of its own, and asserts that it goes on to its end.
pub fn tell<W: Threads + Wait + Clock + Abort + Copy + Send + Sync + 'static>(
    rt: &W,
    alloc: Global,
    story: Story<'_>,
) -> Result<(), Fail> {
    let (cells, desk) = (cells(alloc)?, desk(alloc)?);
    let is_told = told_of::<Brand, W>(rt, alloc, cells, desk, blank(), story)?;
    assert!(rt; is_told, "each call is answered as it should be");
    Ok(())
}
