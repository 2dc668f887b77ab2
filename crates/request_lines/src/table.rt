//! The lines of requests and replays: what each is called, which keys it has, and what their values are, as
//! docs/PROTOCOL.md has them.

ghost use Rattle.std.specs.Prelude.{◌≡◌};
ghost use Rattle.request_lines.specs.Table.{all_ops, op_word, op_keys, op_with, key_name, key_kind, key_slot};

/// What a line asks for.
#[derive(Clone, Copy)]
pub enum Op {
    Put,
    PutText,
    Remove,
    LeaseCreate,
    LeaseAdd,
    LeaseDelete,
    Gc,
    Create,
    Start,
    Pause,
    Resume,
    Kill,
    Delete,
    State,
    Wait,
    Output,
    Break,
    Unbreak,
    Step,
    Inspect,
    Peek,
    /// Of a replay alone.
    Take,
    /// Of a replay alone.
    Return,
}

/// A key beside `op`.
#[derive(Clone, Copy)]
pub enum Key {
    Hex,
    Text,
    Digest,
    Config,
    Id,
    Signal,
    Stream,
    Func,
    Place,
    Count,
    Address,
    Length,
    Budget,
}

/// What the value of a key has to be.
#[derive(Clone, Copy, PartialEq, Eq)]
pub enum Kind {
    Text,
    /// A text of hexadecimal digits, two to a byte.
    Digits,
    /// A number below 2^64 without sign or fraction.
    Number,
    /// A number from 1 to `MAX_BUDGET`.
    Budget,
}

/// Where the value of a key is kept until the whole line is read: no line has two keys of one place.
#[derive(Clone, Copy)]
pub(crate) enum Slot {
    Id,
    Text,
    First,
    Second,
}

impl Op {
    /// All of them.
    pub fn all() -> &'static [Op]
        ensures { result.now ≡ all_ops }
    {
        &[
            Op::Put,
            Op::PutText,
            Op::Remove,
            Op::LeaseCreate,
            Op::LeaseAdd,
            Op::LeaseDelete,
            Op::Gc,
            Op::Create,
            Op::Start,
            Op::Pause,
            Op::Resume,
            Op::Kill,
            Op::Delete,
            Op::State,
            Op::Wait,
            Op::Output,
            Op::Break,
            Op::Unbreak,
            Op::Step,
            Op::Inspect,
            Op::Peek,
            Op::Take,
            Op::Return,
        ]
    }

    /// The value of the key `op`.
    pub fn word(self) -> &'static str
        ensures { result.now ≡ op_word self }
    {
        match self {
            Op::Put => "put",
            Op::PutText => "put_text",
            Op::Remove => "remove",
            Op::LeaseCreate => "lease_create",
            Op::LeaseAdd => "lease_add",
            Op::LeaseDelete => "lease_delete",
            Op::Gc => "gc",
            Op::Create => "create",
            Op::Start => "start",
            Op::Pause => "pause",
            Op::Resume => "resume",
            Op::Kill => "kill",
            Op::Delete => "delete",
            Op::State => "state",
            Op::Wait => "wait",
            Op::Output => "output",
            Op::Break => "break",
            Op::Unbreak => "unbreak",
            Op::Step => "step",
            Op::Inspect => "inspect",
            Op::Peek => "peek",
            Op::Take => "take",
            Op::Return => "return",
        }
    }

    /// The other keys, in the order of their names. A line has each of them, and no others.
    pub fn keys(self) -> &'static [Key]
        ensures { result.now ≡ op_keys self }
    {
        match self {
            Op::Put => &[Key::Hex],
            Op::PutText => &[Key::Text],
            Op::Remove => &[Key::Digest],
            Op::LeaseAdd => &[Key::Digest, Key::Id],
            Op::Gc => &[],
            Op::Create => &[Key::Config, Key::Id],
            Op::Kill => &[Key::Id, Key::Signal],
            Op::Output => &[Key::Id, Key::Stream],
            Op::Break | Op::Unbreak => &[Key::Func, Key::Id, Key::Place],
            Op::Step => &[Key::Count, Key::Id],
            Op::Peek => &[Key::Address, Key::Id, Key::Length],
            Op::Take => &[Key::Budget, Key::Id],
            Op::LeaseCreate
            | Op::LeaseDelete
            | Op::Start
            | Op::Pause
            | Op::Resume
            | Op::Delete
            | Op::State
            | Op::Wait
            | Op::Inspect
            | Op::Return => &[Key::Id],
        }
    }

    /// The one with this word.
    pub fn with_word(word: &str) -> Option<Op>
        ensures { result ≡ op_with word.now all_ops }
    {
        let ops = Op::all();
        for op in ops {
            if op.word() == word {
                return Some(*op);
            }
        }
        None
    }
}

impl Key {
    /// Its name, as lines have it.
    pub fn name(self) -> &'static str
        ensures { result.now ≡ key_name self }
    {
        match self {
            Key::Hex => "hex",
            Key::Text => "text",
            Key::Digest => "digest",
            Key::Config => "config",
            Key::Id => "id",
            Key::Signal => "signal",
            Key::Stream => "stream",
            Key::Func => "func",
            Key::Place => "place",
            Key::Count => "count",
            Key::Address => "address",
            Key::Length => "length",
            Key::Budget => "budget",
        }
    }

    /// What its value has to be.
    pub fn kind(self) -> Kind
        ensures { result ≡ key_kind self }
    {
        match self {
            Key::Text | Key::Digest | Key::Config | Key::Id => Kind::Text,
            Key::Hex => Kind::Digits,
            Key::Budget => Kind::Budget,
            Key::Signal
            | Key::Stream
            | Key::Func
            | Key::Place
            | Key::Count
            | Key::Address
            | Key::Length => Kind::Number,
        }
    }

    /// Where its value is kept.
    pub(crate) fn slot(self) -> Slot
        ensures { result ≡ key_slot self }
    {
        match self {
            Key::Id => Slot::Id,
            Key::Hex | Key::Text | Key::Digest | Key::Config => Slot::Text,
            Key::Place | Key::Length => Slot::Second,
            Key::Signal | Key::Stream | Key::Func | Key::Count | Key::Address | Key::Budget =>
                Slot::First,
        }
    }
}
