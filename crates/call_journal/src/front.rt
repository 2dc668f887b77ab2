//! What is known of the first cells of a row.
ghost use Rattle.std.specs.Prelude.{◌≡◌, ℕ, List, [], ◌∷◌, ◌++◌, Some, option_map, slice_get};
ghost use base.Stored.{coded×, coded_ℕ, coded_list};
ghost use denote.Sharing.{said};
ghost use Rattle.call_journal.specs.Fronts.{Begins};
ghost use Rattle.call_journal.specs.Inside.Known.{known, names_of};

use once_cell::race::Note;
use std::marker::{Model, PhantomData};

/// What is known of the first cells of a row: the name of each, and the value that it holds for good. It has
/// no bytes.
pub struct Front<T> {
    marker: PhantomData<T>,
    pub ghost seen: { List (ℕ × T) } by { coded_list (coded× coded_ℕ T.code) },
}

impl<T> Model for Front<T> {
    ghost also_owns = { λ f. known T.row f.seen };

    ghost also_shares = { λ f _ κ. said (known T.row f.seen) κ };
}

impl<T> Front<T> {
    /// A front of no cell.
    pub fn none() -> Front<T>
        ensures { result.seen ≡ [] }
    {
        Front {
            marker: PhantomData,
        }
    }

    /// The same front.
    pub fn again(&self) -> Front<T>
        ensures { result.seen ≡ self.now.seen }
    {
        Front {
            marker: PhantomData,
        }
    }

    /// The front with the cell of a note that knows its value.
    pub fn with(&self, note: &mut Note<T>) -> Front<T>
        ensures same { note.new ≡ note.old }
        ensures more { (x : T) → note.old.known ≡ Some x
            → result.seen ≡ self.now.seen ++ (note.old.cell, x) ∷ [] }
    {
        Front {
            marker: PhantomData,
        }
    }

    /// Tells a note of the cell with this index its value.
    pub fn tell(&self, i: usize, note: &mut Note<T>)
        requires { option_map (λ c. c.0) (slice_get self.now.seen i) ≡ Some note.old.cell }
        ensures cell { note.new.cell ≡ note.old.cell }
        ensures known { note.new.known ≡ option_map (λ c. c.1) (slice_get self.now.seen i) }
    {}

    /// Of two fronts of one row the shorter begins the longer.
    pub fn agrees(&self, other: &Front<T>)
        requires { Begins (names_of self.now.seen) (names_of other.now.seen) }
        ensures { Begins self.now.seen other.now.seen }
    {}
}

impl<T> Drop for Front<T> {
    fn drop(self) {
        let Self { marker: _ } = self;
    }
}

unsafe impl<T> Send for Front<T> {}

unsafe impl<T> Sync for Front<T> {}
