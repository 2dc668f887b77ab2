//! Which call is allowed in which status of its task, and where it leads.

ghost use Rattle.std.specs.Prelude.{◌≡◌};
ghost use Rattle.task_lifecycle.specs.Lifecycle.{allowed, after};

use crate::status::Status;

/// A call that concerns one task.
#[derive(Clone, Copy, PartialEq, Eq, Debug)]
pub enum TaskCall {
    Start,
    Pause,
    Resume,
    Kill,
    Delete,
    Break,
    Unbreak,
    Step,
    Inspect,
    Peek,
    Output,
    State,
    Wait,
}

/// What decides, beside the status of a task, where a call leads.
#[derive(Clone, Copy, PartialEq, Eq, Debug)]
pub struct Situation {
    /// Its machine is checked out for a slice.
    pub out: bool,
    /// Its execution has ended: at instantiation for a start, within the turns for a step.
    pub ended: bool,
    /// The next place is a breakpoint.
    pub at_break: bool,
}

impl Status {
    /// Whether a call is allowed in this status. Inspect, peek and output ask besides that the task's
    /// machine is not checked out.
    pub fn allows(self, call: TaskCall) -> bool
        ensures { result ≡ allowed call self }
    {
        match call {
            TaskCall::Start => matches!(self, Status::Created),
            TaskCall::Pause => matches!(self, Status::Running),
            TaskCall::Resume | TaskCall::Step => matches!(self, Status::Paused),
            TaskCall::Kill => !matches!(self, Status::Stopped),
            TaskCall::Delete => matches!(self, Status::Stopped),
            TaskCall::Break | TaskCall::Unbreak => matches!(self, Status::Created | Status::Paused),
            TaskCall::Inspect | TaskCall::Peek | TaskCall::Output | TaskCall::State => true,
            TaskCall::Wait => !matches!(self, Status::Running | Status::Pausing),
        }
    }

    /// The status after a call that is allowed in this one. A call that changes none leaves it.
    pub fn after(self, call: TaskCall, at: Situation) -> Status
        ensures { result ≡ after call at self }
    {
        match call {
            TaskCall::Start if at.ended => Status::Stopped,
            TaskCall::Start if at.at_break => Status::Paused,
            TaskCall::Start | TaskCall::Resume => Status::Running,
            TaskCall::Pause if at.out => Status::Pausing,
            TaskCall::Kill if at.out => self,
            TaskCall::Kill => Status::Stopped,
            TaskCall::Step if at.ended => Status::Stopped,
            TaskCall::Pause | TaskCall::Step => Status::Paused,
            _ => self,
        }
    }
}
