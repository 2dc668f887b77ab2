//! What has been seen of a row.
ghost use Rattle.std.specs.Prelude.{◌≡◌, ◌<◌, ◌≤◌, length, [], ◌∷◌, ◌++◌, Some, option_map, slice_get, IfSome};
ghost use Rattle.std.specs.Ordering.{nat_cmp};
ghost use Rattle.call_journal.specs.declared.entry.Entry.{Entry as EntryValue};
ghost use Rattle.call_journal.specs.Fronts.{Begins};
ghost use Rattle.call_journal.specs.Seats.{most_entries};

use crate::cells::Cells;
use crate::entry::Entry;
use crate::front::Front;
use crate::row::Row;
use std::cmp::Ordering;
use std::marker::{Model, PhantomData};

/// The entries that have been seen of a row. They are in its first cells.
#[derive(Drop)]
pub struct Seen<R: Row> {
    len: usize,
    front: Front<Entry>,
    row: PhantomData<R>,
}

impl<R: Row> Model for Seen<R> {
    ghost use Rattle.std.specs.Prelude.{◌≡◌, List, length};
    ghost use Rattle.call_journal.specs.declared.entry.Entry.{Entry as EntryValue};
    ghost use Rattle.call_journal.specs.Fronts.{Begins};
    ghost use Rattle.call_journal.specs.Inside.Known.{names_of, values_of};

    ghost Value = { List EntryValue };

    ghost view = { λ s. values_of s.front.seen };

    ghost invariant = { λ s. (s.len ≡ length s.front.seen)
        × Begins (names_of s.front.seen) R.cells };
}

impl<R: Row> Seen<R> {
    /// Nothing has been seen.
    pub fn none() -> Seen<R>
        ensures { result ≡ [] }
    {
        Seen {
            len: 0,
            front: Front::none(),
            row: PhantomData,
        }
    }

    /// How many entries have been seen.
    pub fn len(&self) -> usize
        ensures { result ≡ length self.now }
    {
        self.len
    }

    /// The same.
    pub fn again(&self) -> Seen<R>
        ensures { result ≡ self.now }
    {
        Seen {
            len: self.len,
            front: self.front.again(),
            row: PhantomData,
        }
    }

    /// The entry, if it has been seen.
    pub fn entry<'a>(&self, cells: &'a Cells, i: usize) -> Option<&'a Entry>
        requires { cells.now ≡ R.cells }
        ensures { option_map (λ e. e.now) result ≡ slice_get self.now i }
    {
        if i < self.len {
            Some(cells.value(i, &self.front))
        } else {
            None
        }
    }

    /// Compares how many entries have been seen. What has been seen by one begins what the other has seen.
    pub fn meet(&self, other: &Seen<R>) -> Ordering
        ensures order { result ≡ nat_cmp (length self.now) (length other.now) }
        ensures first { length self.now ≤ length other.now → Begins self.now other.now }
        ensures second { length other.now ≤ length self.now → Begins other.now self.now }
    {
        if self.len <= other.len {
            self.front.agrees(&other.front);
        }
        if other.len <= self.len {
            other.front.agrees(&self.front);
        }
        self.len.cmp(&other.len)
    }

    /// Fills the next cell, and has then seen its entry. None if the cell is filled.
    pub fn add(&self, cells: &Cells, entry: Box<Entry>) -> Option<Seen<R>>
        requires row { cells.now ≡ R.cells }
        requires room { length self.now < most_entries }
        ensures { IfSome result (λ s. s ≡ self.now ++ entry.value ∷ []) }
    {
        let front = cells.fill(self.len, &self.front, entry)?;
        Some(Seen {
            len: self.len + 1,
            front,
            row: PhantomData,
        })
    }
}
