//! A row of cells, each of which is written once.
ghost use Rattle.std.specs.Prelude.{◌≡◌, ◌<◌, length, [], ◌∷◌, ◌++◌, slice_get, Some, IfSome, None};
ghost use Rattle.call_journal.specs.Fronts.{Begins};
ghost use Rattle.call_journal.specs.Inside.Known.{names_of, values_of};
ghost use Rattle.call_journal.specs.Seats.{most_entries};

use crate::entry::Entry;
use crate::front::Front;
use once_cell::race::{Note, OnceBox};
use std::alloc::Global;
use std::marker::Model;

/// How many entries a journal has at most.
pub const MOST_ENTRIES: usize = 16_384;

/// A row of cells, one for each entry of a journal. Contracts see the names of the cells.
#[derive(Drop)]
pub struct Cells {
    row: Vec<OnceBox<Entry>>,
}

impl Model for Cells {
    ghost use Rattle.std.specs.Prelude.{◌≡◌, ℕ, List, map, vec_len};
    ghost use Rattle.once_cell.specs.Once.{cell_name};
    ghost use Rattle.call_journal.specs.Seats.{most_entries};

    ghost Value = { List ℕ };

    ghost view = { λ c. map cell_name c.row.items };

    ghost invariant = { λ c. vec_len c.row ≡ most_entries };
}

impl Cells {
    /// A row of empty cells. None if it runs out of memory.
    pub fn new(alloc: Global) -> Option<Cells> {
        let mut row = match Vec::with_capacity(alloc, MOST_ENTRIES) {
            Ok(row) => row,
            Err(_) => return None,
        };
        for _ in 0..MOST_ENTRIES {
            row.push_reserved(OnceBox::new(alloc));
        }
        Some(Cells { row })
    }

    // The value of a cell, for whoever knows it.
    pub(crate) fn value(&self, i: usize, front: &Front<Entry>) -> &Entry
        requires known { i < length front.now.seen }
        requires row { Begins (names_of front.now.seen) self.now }
        ensures { Some result.now ≡ slice_get (values_of front.now.seen) i }
    {
        let cell = &self.row[i];
        let mut note = cell.note();
        front.tell(i, &mut note);
        match cell.get_as(&mut note) {
            Some(value) => value,
            None => unreachable!(),
        }
    }

    // Fills the cell after a front. None if the cell is filled already.
    pub(crate) fn fill(
        &self,
        i: usize,
        front: &Front<Entry>,
        entry: Box<Entry>,
    ) -> Option<Front<Entry>>
        requires next { i ≡ length front.now.seen }
        requires room { i < most_entries }
        requires row { Begins (names_of front.now.seen) self.now }
        ensures row { IfSome result (λ f. Begins (names_of f.seen) self.now) }
        ensures more { IfSome result
            (λ f. values_of f.seen ≡ values_of front.now.seen ++ entry.value ∷ []) }
    {
        let cell = &self.row[i];
        let mut note = cell.note();
        match cell.set_as(entry, &mut note) {
            Ok(()) => Some(front.with(&mut note)),
            Err(_) => None,
        }
    }
}
