//! Seats: each caller has one.
ghost use Rattle.std.specs.Prelude.{◌≡◌, ◌<◌, ◌≤◌, ◌+◌, [], length, option_map, slice_get, IsTrue, false};
ghost use Rattle.std.specs.Ordering.{nat_cmp};
ghost use Rattle.call_journal.specs.Fronts.{Begins};
ghost use Rattle.call_journal.specs.Seats.{own_calls, GoesOn};
ghost use Rattle.call_journal.specs.Inside.Calls.{EndsWithCall};
ghost use Rattle.call_journal.specs.Replay.{IsLegal};

use crate::cells::Cells;
use crate::entry::Entry;
use crate::row::Row;
use crate::seen::Seen;
use std::cmp::Ordering;
use std::marker::Model;
use std::sync::ledger;
use std::sync::ledger::Share;

/// A caller's seat. It has a number of its own, what it has seen of the history, and a share of the ledger:
/// the number of its own calls. What it has seen is a legal history.
#[derive(Drop)]
pub struct Seat<R: Row> {
    number: u64,
    seen: Seen<R>,
    mine: Share<R>,
}

impl<R: Row> Model for Seat<R> {
    ghost use Rattle.std.specs.Prelude.{◌≡◌, ◌<◌};
    ghost use Rattle.call_journal.specs.Seats.{Known, own_calls};
    ghost use Rattle.call_journal.specs.Replay.{IsLegal};

    ghost Value = { Known };

    ghost view = { λ s. record { number = s.number; history = s.seen; share = s.mine.amount } };

    ghost invariant = { λ s. (0 < s.mine.parts) × (s.mine.amount ≡ own_calls s.number s.seen)
        × IsLegal s.seen };
}

impl<R: Row> Seat<R> {
    // A seat that has seen nothing.
    pub(crate) fn new(number: u64, mine: Share<R>) -> Seat<R>
        requires parts { 0 < mine.parts }
        requires amount { mine.amount ≡ 0 }
        ensures { result ≡ record { number = number; history = []; share = 0 } }
    {
        Seat {
            number,
            seen: Seen::none(),
            mine,
        }
    }

    /// Its number.
    pub fn number(&self) -> u64
        ensures { result ≡ self.now.number }
    {
        self.number
    }

    /// How many entries it has seen.
    pub fn len(&self) -> usize
        ensures { result ≡ length self.now.history }
    {
        self.seen.len()
    }

    /// What holds of every seat. It does nothing.
    pub fn sound(&self)
        ensures share { self.now.share ≡ own_calls self.now.number self.now.history }
        ensures legal { IsLegal self.now.history }
    {
        let _ = &self.number;
    }

    /// The entry, exactly if the seat has seen it.
    pub fn entry<'a>(&self, cells: &'a Cells, i: usize) -> Option<&'a Entry>
        requires { cells.now ≡ R.cells }
        ensures { option_map (λ e. e.now) result ≡ slice_get self.now.history i }
    {
        self.seen.entry(cells, i)
    }

    /// Compares how much two seats have seen. The history of one begins that of the other.
    pub fn meet(&self, other: &Seat<R>) -> Ordering
        ensures order { result ≡ nat_cmp (length self.now.history) (length other.now.history) }
        ensures first { length self.now.history ≤ length other.now.history
            → Begins self.now.history other.now.history }
        ensures second { length other.now.history ≤ length self.now.history
            → Begins other.now.history self.now.history }
    {
        self.seen.meet(&other.seen)
    }

    // Whether the journal goes on from what the seat has seen, with no call of the seat.
    pub(crate) fn may_follow(&self, cells: &Cells, journal: &Seen<R>) -> bool
        requires { cells.now ≡ R.cells }
        ensures on { IsTrue result → GoesOn self.now.number self.now.history journal.now }
        ensures off { result ≡ false → GoesOn self.now.number self.now.history journal.now → ⊥ }
    {
        if self.seen.len() > journal.len() {
            return false;
        }
        self.seen.meet(journal);
        for i in self.seen.len()..journal.len() {
            if let Some(entry) = journal.entry(cells, i) {
                if entry.seat == self.number {
                    return false;
                }
            }
        }
        true
    }

    // The seat has made a call, which ends the journal.
    pub(crate) fn made(&mut self, count: &mut ledger::Book<R>, journal: Seen<R>)
        requires call { EndsWithCall self.old.number self.old.history journal }
        requires legal { IsLegal journal }
        ensures seat { self.new
            ≡ record { number = self.old.number; history = journal; share = self.old.share + 1 } }
        ensures total { count.new.total ≡ count.old.total + 1 }
    {
        count.add(&mut self.mine, 1);
        self.seen = journal;
    }
}
