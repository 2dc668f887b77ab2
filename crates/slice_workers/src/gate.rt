//! What runs the slices of a worker, and is told how tasks end in them.

ghost use Rattle.std.specs.Prelude.{◌≡◌, true, false};

use task_board::{ExitRecord, Loan};

/// Runs the slices of a worker, which holds no lock meanwhile. A test's gate may wait before it does so.
pub trait Gate {
    /// Runs the slice of a loan, of the task with this id, as `Loan::run` does.
    fn slice(&self, id: &str, loan: &mut Loan)
        requires { loan.old.ran ≡ false }
        ensures { loan.new ≡ record loan.old { ran = true } };

    /// The task with this id has ended so in a slice of this gate, after this number of turns. The slice has
    /// been given back, and no lock is held.
    fn ended(&self, id: &str, turns: u64, end: ExitRecord);
}

/// The gate that does nothing else.
#[derive(Clone, Copy)]
pub struct OpenGate;

impl Gate for OpenGate {
    fn slice(&self, _id: &str, loan: &mut Loan) {
        loan.run();
    }

    fn ended(&self, _id: &str, _turns: u64, _end: ExitRecord) {}
}
