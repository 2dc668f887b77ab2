//! What a task is doing, and how it ended.

ghost use Rattle.std.specs.Prelude.{◌≡◌, Some};
ghost use Rattle.task_lifecycle.specs.Names.{status_name, cause_name, signal_number, signal_of, exit_status};

use std::fmt;
use wasm_ast::Trap;

/// The status of a task: those of the OCI Runtime Specification, and containerd's `pausing` and
/// `paused`.
#[derive(Clone, Copy, PartialEq, Eq, Debug)]
pub enum Status {
    Created,
    Running,
    Pausing,
    Paused,
    Stopped,
}

impl Status {
    /// The name, as replies print it.
    pub fn name(&self) -> &'static str
        ensures { result.now ≡ status_name self.now }
    {
        match self {
            Status::Created => "created",
            Status::Running => "running",
            Status::Pausing => "pausing",
            Status::Paused => "paused",
            Status::Stopped => "stopped",
        }
    }
}

impl fmt::Display for Status {
    ghost use Rattle.std.specs.Prelude.{Some};
    ghost use Rattle.task_lifecycle.specs.Names.{status_name};

    ghost output = { λ s. Some (status_name s) };

    fn fmt<W: fmt::Write>(&self, f: &mut fmt::Formatter<W>) -> fmt::Result {
        f.write_str(self.name())
    }
}

/// A signal that can end a task.
#[derive(Clone, Copy, PartialEq, Eq, Debug)]
pub enum Signal {
    /// SIGKILL.
    Kill,
    /// SIGTERM.
    Terminate,
}

impl Signal {
    /// Its number (POSIX).
    pub fn number(&self) -> u64
        ensures { result ≡ signal_number self.now }
    {
        match self {
            Signal::Kill => 9,
            Signal::Terminate => 15,
        }
    }

    /// The signal with a number. None if that is neither 9 nor 15.
    pub fn from_number(number: u64) -> Option<Signal>
        ensures { result ≡ signal_of number }
    {
        match number {
            9 => Some(Signal::Kill),
            15 => Some(Signal::Terminate),
            _ => None,
        }
    }
}

/// How a stopped task ended.
#[derive(Clone, Copy, PartialEq, Eq, Debug)]
pub enum ExitRecord {
    /// Its entry function returned.
    Return,
    /// It called `proc_exit` with this code.
    Exit(u32),
    /// It trapped.
    Trapped(Trap),
    /// It was killed by this signal.
    Kill(Signal),
}

impl ExitRecord {
    /// What ended it, as replies print it.
    pub fn cause(&self) -> &'static str
        ensures { result.now ≡ cause_name self.now }
    {
        match self {
            ExitRecord::Return => "return",
            ExitRecord::Exit(_) => "exit",
            ExitRecord::Trapped(_) => "trap",
            ExitRecord::Kill(_) => "kill",
        }
    }

    /// The exit status: 0 if the entry returned, the code of `proc_exit`, 134 for a trap, 128 plus the
    /// signal for a kill.
    pub fn exit(&self) -> u64
        ensures { result ≡ exit_status self.now }
    {
        match self {
            ExitRecord::Return => 0,
            ExitRecord::Exit(code) => u64::from(*code),
            ExitRecord::Trapped(_) => 134,
            ExitRecord::Kill(signal) => 128 + signal.number(),
        }
    }
}
