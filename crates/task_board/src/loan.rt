//! Loans: a task's machine, checked out for one slice.

ghost use Rattle.std.specs.Prelude.{◌≡◌, ◌+◌, ◌↔◌, IsTrue, true, false, Some, None};
ghost use Rattle.std.specs.Arc.{arc_value};
ghost use Rattle.task_board.specs.Loans.{Lent};
ghost use Rattle.task_board.specs.Inside.Kept.{IsOwn, SharesWith, IsLoan};
ghost use Rattle.task_board.specs.Refusals.{Openable};
ghost use Rattle.task_board.specs.Inside.Shown.{lent_with};

use crate::checkout::{Checkout, Shared};
use std::marker::Model;
use step_machine::Breaks;
use wasm_ast::Text;

/// A task's machine, checked out for one slice. It is not `Drop`, so that its holder has to give it
/// back. Contracts see its task's slot, the task as it was when the slice was taken, the budget, and
/// whether the slice has been run.
pub struct Loan {
    slot: usize,
    incarnation: u64,
    turns: u64,
    budget: u64,
    checkout: Checkout,
    ran: bool,
}

impl Model for Loan {
    ghost use Rattle.task_board.specs.Loans.{Lent};

    ghost Value = { Lent };

    ghost use Rattle.task_board.specs.Inside.Code.{lent_code};

    ghost coded = { lent_code };

    ghost use Rattle.task_board.specs.Inside.Kept.{IsLoan};
    ghost use Rattle.task_board.specs.Inside.Shown.{lent_of};

    ghost view = { lent_of };

    ghost invariant = { λ l. IsLoan (lent_of l) l.checkout.machine.value l.ran };
}

impl Loan {
    // A loan whose slice has not been run.
    pub(crate) fn new(
        slot: usize,
        incarnation: u64,
        turns: u64,
        budget: u64,
        checkout: Checkout,
    ) -> Loan
        requires { let lent = lent_with slot incarnation turns budget checkout in
            IsLoan lent checkout.machine.value false }
        ensures { result ≡ lent_with slot incarnation turns budget checkout }
    {
        Loan {
            slot,
            incarnation,
            turns,
            budget,
            checkout,
            ran: false,
        }
    }

    /// Whether the slice has been run.
    pub fn ran(&self) -> bool
        ensures { result ≡ self.now.ran }
    {
        self.ran
    }

    /// The id of its task.
    pub fn id(&self) -> &Text
        ensures { result.now ≡ self.now.id }
    {
        &self.checkout.shared.id
    }

    /// Runs the slice once: its machine makes as many turns as the budget, the breakpoints and its own
    /// end allow. A second call changes nothing.
    pub fn run(&mut self)
        ensures { self.new ≡ record self.old { ran = true } }
    {
        if !self.ran {
            let _end = self
                .checkout
                .machine
                .run(self.budget, &self.checkout.breaks);
            self.ran = true;
        }
    }

    // The slot of its task.
    pub(crate) fn slot(&self) -> usize
        ensures { result ≡ self.now.slot }
    {
        self.slot
    }

    // Whether it was taken from a task with these numbers.
    pub(crate) fn is_numbered(&self, incarnation: u64, turns: u64, out: Option<u64>) -> bool
        ensures { IsTrue result ↔ ((self.now.incarnation ≡ incarnation) × (self.now.turns ≡ turns)
            × (out ≡ Some self.now.budget)) }
    {
        self.incarnation == incarnation && self.turns == turns && out == Some(self.budget)
    }

    // Whether it shares this and has these breakpoints.
    pub(crate) fn shares(&self, shared: &Shared, breaks: &Breaks) -> bool
        ensures shares { IsTrue result ↔ SharesWith self.now shared.now breaks.now }
        ensures opens { Openable self.now.bytes self.now.process self.now.module }
    {
        self.checkout.shared.id.is(&shared.id)
            && self.checkout.shared.bytes.is(&shared.bytes)
            && self.checkout.shared.process.is(&shared.process)
            && self.checkout.breaks.is(breaks)
    }

    // The machine of a slice that has been run, and what goes with it.
    pub(crate) fn into_checkout(self) -> Checkout
        requires { self.ran ≡ true }
        ensures own { IsOwn result self.id self.bytes self.module self.process self.breaks }
        ensures slice { IsLoan self result.machine.value true }
    {
        let Loan {
            slot: _,
            incarnation: _,
            turns: _,
            budget: _,
            checkout,
            ran: _,
        } = self;
        checkout
    }

    // Ends a machine that is not given back.
    pub(crate) fn end(self) {
        let Loan {
            slot: _,
            incarnation: _,
            turns: _,
            budget: _,
            checkout: _,
            ran: _,
        } = self;
    }
}
