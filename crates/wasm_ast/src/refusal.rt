//! Why a request is refused.

ghost use Rattle.std.specs.Prelude.{◌≡◌, Some};
ghost use Rattle.wasm_ast.specs.Names.{refusal_number, refusal_name};

use crate::place::Place;
use std::alloc::AllocError;
use std::fmt;

/// A refusal. Each has a number and a name, which never change.
#[derive(Clone, Copy, PartialEq, Eq, Debug)]
pub enum Refusal {
    /// The line is no request.
    BadRequest,
    /// A task id, a lease id or a digest is malformed.
    BadId,
    /// That task, lease, member, content or breakpoint is there.
    Exists,
    /// There is no such task, lease or breakpoint.
    NotFound,
    /// There is no content under the digest.
    NoContent,
    /// The content is held.
    InUse,
    /// The bytes encode no module.
    BadModule,
    /// The module is not valid. A fault inside a body names the function and an instruction of it: the one
    /// at fault; the block of a fault at its `else` or `end`; at the body's end the number of its
    /// instructions. A fault outside bodies has no place.
    Invalid(Option<Place>),
    /// A limit of the profile is passed, or the memory begins with more pages than the task may have.
    Limit,
    /// The config is malformed, or asks for what this shim does not have.
    BadConfig,
    /// The task's status does not allow the call.
    WrongStatus,
    /// The task's machine is checked out; of a wait, the task is running or pausing.
    Busy,
    /// A place, stream, signal, count or range does not exist.
    OutOfRange,
    /// A table is full.
    TooMany,
    /// The journal is full.
    JournalFull,
    /// Other bytes are stored under the same digest.
    DigestConflict,
    /// Memory ran out.
    NoMemory,
    /// The text denotes no module; line and column count from 1.
    BadText { line: u64, column: u64 },
    /// The shim was closed.
    Closed,
    /// The journal's cells do not hold the journal.
    JournalFault,
    /// There is no entry function, or no memory that a system call needs.
    NoEntry,
    /// An import is no system call, or has another type.
    BadImport,
    /// A segment is not inside its table or memory, as that is when the task begins.
    SegmentOutOfBounds,
}

impl Refusal {
    /// The number, from 1 to 23.
    pub fn number(&self) -> u64
        ensures { result ≡ refusal_number self.now }
    {
        match self {
            Refusal::BadRequest => 1,
            Refusal::BadId => 2,
            Refusal::Exists => 3,
            Refusal::NotFound => 4,
            Refusal::NoContent => 5,
            Refusal::InUse => 6,
            Refusal::BadModule => 7,
            Refusal::Invalid(_) => 8,
            Refusal::Limit => 9,
            Refusal::BadConfig => 10,
            Refusal::WrongStatus => 11,
            Refusal::Busy => 12,
            Refusal::OutOfRange => 13,
            Refusal::TooMany => 14,
            Refusal::JournalFull => 15,
            Refusal::DigestConflict => 16,
            Refusal::NoMemory => 17,
            Refusal::BadText { .. } => 18,
            Refusal::Closed => 19,
            Refusal::JournalFault => 20,
            Refusal::NoEntry => 21,
            Refusal::BadImport => 22,
            Refusal::SegmentOutOfBounds => 23,
        }
    }

    /// The name, as replies print it.
    pub fn name(&self) -> &'static str
        ensures { result.now ≡ refusal_name self.now }
    {
        match self {
            Refusal::BadRequest => "BadRequest",
            Refusal::BadId => "BadId",
            Refusal::Exists => "Exists",
            Refusal::NotFound => "NotFound",
            Refusal::NoContent => "NoContent",
            Refusal::InUse => "InUse",
            Refusal::BadModule => "BadModule",
            Refusal::Invalid(_) => "Invalid",
            Refusal::Limit => "Limit",
            Refusal::BadConfig => "BadConfig",
            Refusal::WrongStatus => "WrongStatus",
            Refusal::Busy => "Busy",
            Refusal::OutOfRange => "OutOfRange",
            Refusal::TooMany => "TooMany",
            Refusal::JournalFull => "JournalFull",
            Refusal::DigestConflict => "DigestConflict",
            Refusal::NoMemory => "NoMemory",
            Refusal::BadText { .. } => "BadText",
            Refusal::Closed => "Closed",
            Refusal::JournalFault => "JournalFault",
            Refusal::NoEntry => "NoEntry",
            Refusal::BadImport => "BadImport",
            Refusal::SegmentOutOfBounds => "SegmentOutOfBounds",
        }
    }
}

impl From<AllocError> for Refusal {
    ghost use Rattle.std.specs.Prelude.{◌≡◌};
    ghost use Rattle.wasm_ast.specs.declared.refusal.Refusal.TheVariants.{NoMemory};

    ghost from_gives = { λ _ refusal. refusal ≡ NoMemory };

    fn from(_error: AllocError) -> Refusal {
        Refusal::NoMemory
    }
}

impl fmt::Display for Refusal {
    ghost use Rattle.std.specs.Prelude.{Some};
    ghost use Rattle.wasm_ast.specs.Names.{refusal_name};

    ghost output = { λ r. Some (refusal_name r) };

    fn fmt<W: fmt::Write>(&self, f: &mut fmt::Formatter<W>) -> fmt::Result {
        f.write_str(self.name())
    }
}
