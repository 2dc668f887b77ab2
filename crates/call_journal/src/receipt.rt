//! The receipts of loans.
ghost use Rattle.std.specs.Prelude.{◌≡◌, Some, None, option_map, true, false, IfSome, IfNone, slice_get};
ghost use Rattle.call_journal.specs.Desks.{lent_at, spot_names};
ghost use Rattle.call_journal.specs.Inside.Desks.{IsSetAt};

use crate::desk::{Desk, Lending};
use crate::row::Row;
use std::marker::{Model, PhantomData};
use std::snapshot::Snapshot;
use task_board::Loan;
use token_pairs::Slip;

/// The receipt of a loan that the book of this row has made. Contracts see the loan as it was when it was
/// taken.
#[derive(Drop)]
pub struct Receipt<R: Row> {
    slot: usize,
    of: Snapshot<Loan>,
    slip: Option<Slip<Lending>>,
    row: PhantomData<R>,
}

impl<R: Row> Model for Receipt<R> {
    ghost use Rattle.std.specs.Prelude.{◌≡◌, MatchOption, Some, None, option_map, slice_get};
    ghost use Rattle.task_board.specs.Loans.{Lent};
    ghost use Rattle.task_board.specs.Inside.Code.{lent_code};

    ghost Value = { Lent };

    ghost coded = { lent_code };

    ghost view = { λ r. r.of.value };

    ghost invariant = { λ r. (r.of.value.slot ≡ r.slot)
        × MatchOption r.slip (slice_get R.slots r.slot ≡ None)
        (λ s. (slice_get R.slots r.slot ≡ Some s.name)
        × (option_map (λ l. l.value) s.value ≡ Some r.of.value)) };
}

impl<R: Row> Receipt<R> {
    // The receipt of a loan of the task in this slot, with the slip of its place, if there is one.
    pub(crate) fn new(slot: usize, loan: &Loan, slip: Option<Slip<Lending>>) -> Receipt<R>
        requires slot { loan.now.slot ≡ slot }
        requires name { IfSome slip (λ s. slice_get R.slots slot ≡ Some s.name) }
        requires value { IfSome slip (λ s. option_map (λ l. l.value) s.value ≡ Some loan.now) }
        requires none { IfNone slip (slice_get R.slots slot ≡ None) }
        ensures { result ≡ loan.now }
    {
        Receipt {
            slot,
            of: Snapshot::of(loan),
            slip,
            row: PhantomData,
        }
    }

    // Gives the slip back to the desk. Whether the loan is what was checked out at its place; if not,
    // nothing was, and nothing has changed.
    pub(crate) fn end(self, desk: &mut Desk) -> bool
        requires { spot_names desk.old ≡ R.slots }
        ensures known { result ≡ true → lent_at self.slot desk.old ≡ Some self }
        ensures set { result ≡ true → IsSetAt self.slot None desk.old desk.new }
        ensures none { result ≡ false → lent_at self.slot desk.old ≡ None }
        ensures same { result ≡ false → desk.new ≡ desk.old }
    {
        let Receipt {
            slot,
            of: _,
            slip,
            row: _,
        } = self;
        match slip {
            Some(slip) => desk.receive(slot, slip),
            None => false,
        }
    }
}
