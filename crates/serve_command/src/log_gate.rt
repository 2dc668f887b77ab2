//! What runs the slices of a worker, and tells the log how tasks end in them.

ghost use Rattle.std.specs.Prelude.{◌≡◌, true};

use shim_log::{By, Log, Outlet};
use slice_workers::Gate;
use task_board::{ExitRecord, Loan};

/// Workers run slices by it, and the log is told of the tasks that end in them.
#[derive(Clone, Copy)]
pub struct LogGate<E> {
    pub log: Log<E>,
}

impl<E: Outlet> Gate for LogGate<E> {
    fn slice(&self, _id: &str, loan: &mut Loan) {
        loan.run();
    }

    fn ended(&self, id: &str, turns: u64, end: ExitRecord) {
        self.log.ended(By::Worker, id, turns, end);
    }
}
