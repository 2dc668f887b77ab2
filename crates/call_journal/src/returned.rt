//! What a task is after its slice.

use crate::runnable::Runnable;
use task_board::ExitRecord;

/// What the task of a slice is, once its machine has been given back.
pub enum Returned {
    /// It is running.
    Running(Runnable),
    /// It has ended so, after this number of turns.
    Ended(u64, ExitRecord),
    /// It is paused.
    Paused,
}
