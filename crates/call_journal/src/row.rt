//! Which row of cells a journal has.
ghost use Rattle.std.specs.Prelude.{ℕ, List};

use std::marker::Brand;
use std::sync::ledger::Ledger;

/// Names the ledger that counts the entries of a journal, the row of cells that holds them, and the places
/// at which the machines of the board are checked out.
pub trait Row: Ledger {
    ghost use Rattle.std.specs.Prelude.{ℕ, List};

    /// The names of its cells.
    ghost cells: { List ℕ };

    /// The names of the places of its desk.
    ghost slots: { List ℕ };
}

impl Row for Brand {
    ghost use Rattle.std.specs.Prelude.{[]};

    ghost cells = { [] };

    ghost slots = { [] };
}
