//! What a request changes of a task.

ghost use Rattle.std.specs.Prelude.{◌≡◌};
ghost use Rattle.task_board.specs.Inside.Changes.{change_call, enters};

use task_lifecycle::{Signal, TaskCall};

/// A change that a request makes of a task.
#[derive(Clone, Copy)]
pub enum Change {
    Start,
    Pause,
    Resume,
    Kill(Signal),
    /// At most this many turns.
    Step(u64),
}

impl Change {
    /// The call that it is.
    pub fn call(self) -> TaskCall
        ensures { result ≡ change_call self }
    {
        match self {
            Change::Start => TaskCall::Start,
            Change::Pause => TaskCall::Pause,
            Change::Resume => TaskCall::Resume,
            Change::Kill(_) => TaskCall::Kill,
            Change::Step(_) => TaskCall::Step,
        }
    }

    /// Whether the task waits for a worker afterwards, if it is running.
    pub fn enters(self) -> bool
        ensures { result ≡ enters self }
    {
        matches!(self, Change::Start | Change::Resume)
    }
}
