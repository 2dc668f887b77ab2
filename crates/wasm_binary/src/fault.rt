//! Why bytes could not be read, and where.

ghost use Rattle.std.specs.Prelude.{◌≡◌, Some};
ghost use Rattle.wasm_binary.specs.declared.fault.Fault.TheVariants as faults;
ghost use Rattle.wasm_binary.specs.declared.fault.ReadError.TheVariants.{Memory};
ghost use Rattle.wasm_binary.specs.Inside.Reading.{fault_of};

use std::alloc::{AllocError, AllocFailed};

/// What is wrong with the bytes: the first fault from the front.
#[derive(Clone, Copy, PartialEq, Eq, Debug)]
pub enum Fault {
    /// Nothing is encoded.
    Bad,
    /// A limit is passed.
    Over,
}

/// What a limit is on.
#[derive(Clone, Copy)]
pub enum Limited {
    /// The functions of a module, imports counted.
    Functions,
    /// The results of a function type.
    Results,
    /// The locals of a function, its parameters counted.
    Locals,
    /// The entries that a table begins with.
    TableEntries,
    /// The pages that a memory begins with.
    MemoryPages,
}

/// A number of 32 bits, by what it counts or names.
#[derive(Clone, Copy)]
pub enum Number {
    /// How many there are of what is limited.
    Limited(Limited),
    /// The count of types.
    Types,
    /// The count of what is in a section.
    Items,
    /// The count of the bodies of functions.
    Bodies,
    /// The count of parameters.
    Params,
    /// The count of the functions of an element segment.
    Elements,
    /// The count of runs of locals of one type.
    Runs,
    /// The greatest size of a table or a memory.
    GreatestSize,
    /// The size of a section in bytes.
    SectionSize,
    /// The size of a body in bytes.
    BodySize,
    /// The index of a type.
    TypeIndex,
    /// The index of a table.
    TableIndex,
    /// The index of a memory.
    MemoryIndex,
    /// The index of the start function.
    StartIndex,
    /// Another index.
    Index,
}

/// What may be at a place where another byte is, or none.
#[derive(Clone, Copy)]
pub enum Wanted {
    /// Another byte of a number.
    Byte,
    /// The first byte of a function type.
    FuncType,
    /// The kind of an import, which is a function.
    ImportKind,
    /// The kind of an export.
    ExportKind,
    /// The first byte of limits.
    Limits,
    /// The type of the elements of a table.
    TableType,
    /// Whether a global may be written.
    Mutability,
    /// A name, its length and its UTF-8.
    Name,
    /// The bytes of a data segment, and their length.
    SegmentBytes,
    /// What follows an opcode.
    Immediates,
    /// The type of a block.
    BlockType,
    /// An instruction, or the end of its block or body.
    Instruction,
}

/// What has its size before it.
#[derive(Clone, Copy)]
pub enum Whole {
    Section,
    Body,
}

/// What is wrong at a place.
#[derive(Clone, Copy)]
pub enum What {
    /// There are more bytes than a module may have.
    Size,
    /// The bytes do not begin as a module does.
    Preamble,
    /// This number is to be there.
    Number(Number),
    /// This is to be there.
    Wanted(Wanted),
    /// A value type is to be there.
    ValType,
    /// The byte is the opcode of no instruction.
    Opcode,
    /// There is an `else`, and no `if` is open that has none yet.
    Else,
    /// A section is there that may not follow those before it, or that has no known id.
    Section,
    /// There is no code section, and this many functions have a type.
    NoCode {
        funcs: usize,
    },
    /// This many functions have a type, and this many a body.
    Bodies {
        funcs: usize,
        bodies: u32,
    },
    /// There are to be this many indices, and this many bytes are left.
    Indices {
        count: u32,
        left: usize,
    },
    /// This many bytes of a part are left after what is in it.
    Longer {
        whole: Whole,
        by: usize,
    },
    /// A part is to have this size, and this many bytes are left.
    Cut {
        whole: Whole,
        size: u32,
        left: usize,
    },
    /// There are this many of what is limited, which are too many.
    Over {
        what: Limited,
        found: u64,
    },
    /// More blocks are open than may be.
    TooDeep,
}

/// A place in the bytes of a module from which nothing can be read, and why.
#[derive(Clone, Copy)]
pub struct Spot {
    /// How many bytes are left there: the offset is that of the end less these.
    pub left: usize,
    /// Whether the part that is read ends there.
    pub ended: bool,
    pub what: What,
}

impl Spot {
    /// Where these bytes begin.
    pub fn at(bytes: &[u8], what: What) -> Spot {
        Spot {
            left: bytes.len(),
            ended: bytes.is_empty(),
            what,
        }
    }

    /// The byte before these.
    pub fn before(bytes: &[u8], what: What) -> Spot {
        Spot {
            left: bytes.len().saturating_add(1),
            ended: false,
            what,
        }
    }
}

/// Why reading ended early.
#[derive(Clone, Copy)]
pub enum ReadError {
    /// Memory ran out.
    Memory,
    /// The bytes have this fault, and there.
    Fault(Fault, Spot),
}

impl ReadError {
    /// The same fault, where these bytes begin, and for this reason.
    pub fn at(self, bytes: &[u8], what: What) -> ReadError
        ensures { fault_of result ≡ fault_of self }
    {
        match self {
            ReadError::Memory => ReadError::Memory,
            ReadError::Fault(fault, _) => ReadError::Fault(fault, Spot::at(bytes, what)),
        }
    }

    /// The same fault of an instruction whose opcode these bytes follow: it is that the opcode is
    /// none, or else of what follows it.
    pub fn after_opcode(self, bytes: &[u8]) -> ReadError
        ensures { fault_of result ≡ fault_of self }
    {
        match self {
            ReadError::Fault(
                _,
                Spot {
                    what: What::Opcode,
                    ..
                },
            ) => self,
            _ => self.at(bytes, What::Wanted(Wanted::Immediates)),
        }
    }

    /// The same fault at the same place, for this reason.
    pub fn named(self, what: What) -> ReadError
        ensures { fault_of result ≡ fault_of self }
    {
        match self {
            ReadError::Memory => ReadError::Memory,
            ReadError::Fault(fault, spot) => ReadError::Fault(fault, Spot { what, ..spot }),
        }
    }

    /// The same fault of what is in a part of this size, of which these bytes are there, with
    /// what follows it.
    pub fn within(self, whole: Whole, size: u32, bytes: &[u8]) -> ReadError
        ensures { fault_of result ≡ fault_of self }
    {
        match self {
            ReadError::Memory => ReadError::Memory,
            ReadError::Fault(fault, spot) => {
                ReadError::Fault(fault, spot_within(spot, whole, size, bytes))
            }
        }
    }
}

/// That a part of this size has only these bytes.
pub fn cut(whole: Whole, size: u32, bytes: &[u8]) -> Spot {
    let left = bytes.len();
    Spot {
        left,
        ended: true,
        what: What::Cut { whole, size, left },
    }
}

/// That these bytes of a part are left after what is in it, where these are there of the part
/// and what follows it.
pub fn longer(whole: Whole, size: u32, left: &[u8], bytes: &[u8]) -> Spot {
    let by = left.len();
    Spot {
        left: by.saturating_add(bytes.len().saturating_sub(size as usize)),
        ended: false,
        what: What::Longer { whole, by },
    }
}

// A place in a part of this size, of which these bytes are there, with what follows it. Where the
// part ends early and these bytes end, the part is cut.
fn spot_within(spot: Spot, whole: Whole, size: u32, bytes: &[u8]) -> Spot {
    if spot.ended && bytes.len() < size as usize {
        return cut(whole, size, bytes);
    }
    let more = bytes.len().saturating_sub(size as usize);
    Spot {
        left: spot.left.saturating_add(more),
        ..spot
    }
}

impl From<AllocError> for ReadError {
    ghost from_gives = { λ _ e. e ≡ Memory };

    fn from(_e: AllocError) -> ReadError {
        ReadError::Memory
    }
}

impl<T: Drop> From<AllocFailed<T>> for ReadError {
    ghost from_gives = { λ _ e. e ≡ Memory };

    fn from(_e: AllocFailed<T>) -> ReadError {
        ReadError::Memory
    }
}
