//! What is asked of the board, and what it answers.

ghost use Rattle.std.specs.Prelude.{◌≡◌};
ghost use Rattle.task_requests.specs.Memory.{takes_memory, asks_for_memory};

use crate::shared_bytes::SharedBytes;
use task_lifecycle::{ExitRecord, Status};
use wasm_ast::{Bytes, Sequence, ShownFrame, Text};

/// A request.
#[derive(Drop)]
pub enum Request {
    /// Stores bytes as a content, under their digest.
    Put { bytes: SharedBytes },
    /// Stores the canonical encoding of the module that a text denotes, as a put of those bytes does.
    PutText { text: Text },
    /// Removes the content under a digest.
    Remove { digest: Text },
    /// Creates a lease with an id.
    LeaseCreate { id: Text },
    /// Adds the digest of a content to a lease.
    LeaseAdd { digest: Text, id: Text },
    /// Deletes a lease.
    LeaseDelete { id: Text },
    /// Removes the contents that are not held.
    Gc,
    /// Creates a task with an id from a config, which is the text of a JSON object.
    Create { config: Text, id: Text },
    /// Asks something of the task with an id.
    Task { id: Text, ask: Ask },
}

/// What is asked of a task.
#[derive(Clone, Copy, PartialEq, Eq, Debug)]
pub enum Ask {
    /// Starts a created task.
    Start,
    /// Pauses a running task.
    Pause,
    /// Lets a paused task run on.
    Resume,
    /// Ends a task by the signal with this number.
    Kill { signal: u64 },
    /// Removes a stopped task.
    Delete,
    /// Asks for the state of a task.
    State,
    /// Asks for the state of a task that is not running.
    Wait,
    /// Asks for what a task has written to the output stream with this number.
    Output { stream: u64 },
    /// Sets a breakpoint of a task: at an instruction of a function, by its place in the body.
    Break { func: u64, place: u64 },
    /// Removes a breakpoint of a task.
    Unbreak { func: u64, place: u64 },
    /// Lets a paused task make at most this many turns; its own end or a breakpoint ends them early.
    Step { count: u64 },
    /// Asks for the frames of a task.
    Inspect,
    /// Asks for bytes of a task's memory at an address.
    Peek { address: u64, length: u64 },
}

impl Request {
    /// Whether a board takes memory for it. A board answers `NoMemory` to no other. A shim may, as it takes
    /// memory for the entry in its journal.
    pub fn takes_memory(&self) -> bool
        ensures { result ≡ takes_memory self.now }
    {
        match self {
            Request::Put { .. }
            | Request::PutText { .. }
            | Request::LeaseCreate { .. }
            | Request::LeaseAdd { .. }
            | Request::Gc
            | Request::Create { .. } => true,
            Request::Remove { .. } | Request::LeaseDelete { .. } => false,
            Request::Task { ask, .. } => ask.takes_memory(),
        }
    }
}

impl Ask {
    /// Whether a board takes memory for it.
    pub fn takes_memory(self) -> bool
        ensures { result ≡ asks_for_memory self }
    {
        match self {
            Ask::Output { .. }
            | Ask::Break { .. }
            | Ask::Unbreak { .. }
            | Ask::Inspect
            | Ask::Peek { .. } => true,
            Ask::Start
            | Ask::Pause
            | Ask::Resume
            | Ask::Kill { .. }
            | Ask::Delete
            | Ask::State
            | Ask::Wait
            | Ask::Step { .. } => false,
        }
    }
}

/// What a call can see of a task: its id, how many turns it has made, its status, and how it ended,
/// which is there exactly if it has stopped.
#[derive(Drop)]
pub struct TaskState {
    pub id: Text,
    pub n: u64,
    pub status: Status,
    pub end: Option<ExitRecord>,
}

/// The answer to a request that was accepted.
#[derive(Drop)]
pub enum Reply {
    /// The digest of the bytes that are stored, and how many bytes they are: of a put of a text, the bytes of
    /// its module.
    Put {
        digest: Text,
        size: u64,
    },
    Remove {
        digest: Text,
    },
    LeaseCreate {
        id: Text,
    },
    LeaseAdd {
        digest: Text,
        id: Text,
    },
    LeaseDelete {
        id: Text,
    },
    /// The digests of the contents that were removed, in order of arrival.
    Gc {
        removed: Sequence<Text>,
    },
    Create {
        id: Text,
        status: Status,
    },
    Start {
        id: Text,
        status: Status,
    },
    Pause {
        id: Text,
        status: Status,
    },
    Resume {
        id: Text,
        status: Status,
    },
    Kill {
        id: Text,
        status: Status,
    },
    /// The state of the task before it was removed.
    Delete(TaskState),
    State(TaskState),
    Wait(TaskState),
    /// What the task has written to the stream, and how many bytes they are.
    Output {
        bytes: Bytes,
        id: Text,
        size: u64,
    },
    Break {
        id: Text,
    },
    Unbreak {
        id: Text,
    },
    /// The state of the task after the step.
    Step(TaskState),
    /// The frames of the task, the innermost first, and how many turns it has made.
    Inspect {
        frames: Sequence<ShownFrame>,
        id: Text,
        n: u64,
    },
    /// The bytes of the task's memory that were asked for.
    Peek {
        bytes: Bytes,
        id: Text,
    },
}
