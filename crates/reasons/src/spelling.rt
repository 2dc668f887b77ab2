//! Why bytes encode no module, or pass a limit.

use crate::first_bytes::kind_of;
use crate::located::{Located, locate};
use crate::outside::{find_outside, section_name, val_type_words};
use crate::texts::Told;
use std::alloc::{AllocError, Global};
use wasm_ast::{
    MAX_FUNCTIONS, MAX_LOCALS, MAX_MEMORY_PAGES, MAX_MODULE_BYTES, MAX_NESTING, MAX_RESULTS,
    MAX_TABLE_ENTRIES,
};
use wasm_binary::readers::{
    Limited, Number, PREAMBLE, ReadError, Spot, Wanted, What, Whole, read_module,
};

const ENTRIES: &str = "the entries that a table begins with";

const LOCALS: &str = "the locals of a function, its parameters counted";

const PAGES: &str = "the pages that a memory begins with";

fn byte_place(alloc: Global, bytes: &[u8], offset: usize) -> Told {
    match bytes.get(offset) {
        Some(&byte) => format!(in alloc; "byte 0x{byte:02x} at offset {offset}"),
        None => format!(in alloc; "the end of the file, at offset {offset}"),
    }
}

// Where a fault is: its byte, or the end of what is read there.
fn place(alloc: Global, bytes: &[u8], offset: usize, spot: Spot) -> Told {
    if let What::Cut { .. } | What::Longer { .. } = spot.what {
        return format!(in alloc; "offset {offset}");
    }
    if spot.ended && offset < bytes.len() {
        return format!(in alloc; "the end of what is read, at offset {offset}");
    }
    byte_place(alloc, bytes, offset)
}

fn part(alloc: Global, located: Located) -> Told {
    match (located.section, located.func) {
        (_, Some(func)) => format!(in alloc; ", function {func}"),
        (Some(id), None) => format!(in alloc; ", section {id} ({})", section_name(id)),
        (None, None) => Ok(String::new(alloc)),
    }
}

fn opcode_text(alloc: Global, bytes: &[u8]) -> Told {
    let Some((opcode, rest)) = bytes.split_first() else {
        return Ok(String::new(alloc));
    };
    match find_outside(*opcode, rest) {
        (Some(word), feature) => format!(in alloc; "{word}; {feature}"),
        (None, feature) => String::from_str(alloc, feature),
    }
}

// What is said of the id here, of a section after the one with this id.
fn section_text(alloc: Global, last: u8, id: u8) -> Told {
    let name = section_name(id);
    if id > 11 {
        return format!(in alloc; "no section has this id ({name}); ids are 0 to 11");
    }
    format!(in alloc;
        "section {id} ({name}) comes after section {last}; ids rise, each at most once"
    )
}

fn limit_words(what: Limited) -> (&'static str, usize) {
    match what {
        Limited::Functions => ("the functions of a module, imports counted", MAX_FUNCTIONS),
        Limited::Results => ("the results of a function type", MAX_RESULTS),
        Limited::Locals => (LOCALS, MAX_LOCALS),
        Limited::TableEntries => (ENTRIES, MAX_TABLE_ENTRIES as usize),
        Limited::MemoryPages => (PAGES, MAX_MEMORY_PAGES as usize),
    }
}

fn number_words(number: Number) -> &'static str {
    match number {
        Number::Limited(Limited::Functions) => "a count of functions",
        Number::Limited(Limited::Results) => "the count of results",
        Number::Limited(Limited::Locals) => "how many locals of one type follow",
        Number::Limited(Limited::TableEntries) => ENTRIES,
        Number::Limited(Limited::MemoryPages) => PAGES,
        Number::Types => "the count of types",
        Number::Items => "the count of what is in the section",
        Number::Bodies => "the count of bodies",
        Number::Params => "the count of parameters",
        Number::Elements => "the count of functions",
        Number::Runs => "the count of runs of locals",
        Number::GreatestSize => "a greatest size",
        Number::SectionSize => "the size of a section",
        Number::BodySize => "the size of a body",
        Number::TypeIndex => "the index of a type",
        Number::TableIndex => "the index of a table",
        Number::MemoryIndex => "the index of a memory",
        Number::StartIndex => "the index of the start function",
        Number::Index => "an index",
    }
}

fn wanted_words(wanted: Wanted) -> &'static str {
    match wanted {
        Wanted::Byte => "a byte of a number",
        Wanted::FuncType => "a function type, which begins with 60",
        Wanted::ImportKind => {
            "00, a function; the profile imports no tables, memories and globals"
        }
        Wanted::ExportKind => "00 of a function, 01 of a table, 02 of a memory or 03 of a global",
        Wanted::Limits => "limits: 00, or 01 if there is a greatest size",
        Wanted::TableType => "70, a table of functions",
        Wanted::Mutability => "00 of a constant or 01 of a variable",
        Wanted::Name => "a name, its length and its UTF-8",
        Wanted::SegmentBytes => "the length of a segment, and its bytes",
        Wanted::Immediates => "what follows the opcode that is before it",
        Wanted::BlockType => "the type of a block: 40, 7f (i32), 7e (i64) or the index of a type",
        Wanted::Instruction => "an instruction, or the end (0b) of its block or body",
    }
}

fn whole_words(whole: Whole) -> &'static str {
    match whole {
        Whole::Section => "the section",
        Whole::Body => "the body",
    }
}

fn bodies_text(alloc: Global, funcs: usize, bodies: u32) -> Told {
    format!(in alloc;
        "of functions, {funcs} have a type (section 3) and {bodies} a body (section 10)"
    )
}

fn count_text(alloc: Global, what: What) -> Told {
    match what {
        What::Longer { whole, by } => {
            let (whole, plural) = (whole_words(whole), if by == 1 { "" } else { "s" });
            format!(in alloc; "{whole} is {by} byte{plural} longer than what is in it")
        }
        What::Cut { whole, size, left } => {
            let whole = whole_words(whole);
            format!(in alloc; "{whole} is to have {size} bytes, and {left} are left")
        }
        What::NoCode { funcs } => bodies_text(alloc, funcs, 0),
        What::Bodies { funcs, bodies } => bodies_text(alloc, funcs, bodies),
        What::Indices { count, left } => format!(in alloc;
            "there are to be {count} indices, a byte or more each, and the bytes left are {left}"
        ),
        What::Over { what, found } => {
            let (what, most) = limit_words(what);
            format!(in alloc; "{what} are {found}, and the limit is {most}")
        }
        What::TooDeep => format!(in alloc;
            "the blocks that are open at once are {}, and the limit is {MAX_NESTING}",
            MAX_NESTING.saturating_add(1)
        ),
        _ => Ok(String::new(alloc)),
    }
}

// What is wrong where these bytes begin, after sections of which this is the largest id.
fn what_text(alloc: Global, what: What, last: u8, bytes: &[u8]) -> Told {
    let first = bytes.first().copied();
    match what {
        What::Wanted(wanted) => format!(in alloc; "to be here: {}", wanted_words(wanted)),
        What::Number(number) => format!(in alloc;
            "to be here: {}, a number of 32 bits",
            number_words(number)
        ),
        What::Else => String::from_str(alloc, "an else, and no if is open that has none yet"),
        What::ValType => String::from_str(alloc, val_type_words(first.unwrap_or(0))),
        What::Opcode => opcode_text(alloc, bytes),
        What::Section => section_text(alloc, last, first.unwrap_or(0)),
        _ => count_text(alloc, what),
    }
}

// The place and the reason of a fault in the sections of a module with these bytes.
fn section_fault(alloc: Global, bytes: &[u8], spot: Spot) -> Told {
    let offset = bytes.len().saturating_sub(spot.left);
    let here = bytes.get(offset..).unwrap_or(&[]);
    let located = locate(bytes.get(PREAMBLE.len()..).unwrap_or(&[]), spot);
    let place = place(alloc, bytes, offset, spot)?;
    let part = part(alloc, located)?;
    let what = what_text(alloc, spot.what, located.last, here)?;
    format!(in alloc; "{place}{part}: {what}")
}

// Where these bytes have another byte than the preamble.
fn preamble_text(alloc: Global, bytes: &[u8]) -> Told {
    let mut first = bytes.len();
    for i in (0..PREAMBLE.len()).rev() {
        if bytes.get(i) != PREAMBLE.get(i) {
            first = i;
        }
    }
    let place = byte_place(alloc, bytes, first)?;
    format!(in alloc; "{place}: a module begins with 00 61 73 6d 01 00 00 00")
}

// Why bytes of no other kind have this fault.
fn spot_text(alloc: Global, bytes: &[u8], spot: Spot) -> Told {
    match spot.what {
        What::Size => format!(in alloc;
            "the file has more than {MAX_MODULE_BYTES} bytes; --strip-all of wasm-ld leaves out names and debugging information"
        ),
        What::Preamble => preamble_text(alloc, bytes),
        _ => section_fault(alloc, bytes, spot),
    }
}

/// Why these bytes encode no module, or pass a limit; empty if they do neither.
pub fn why_bytes(alloc: Global, bytes: &[u8]) -> Told {
    match kind_of(bytes) {
        Some(kind) if bytes.len() <= MAX_MODULE_BYTES => return String::from_str(alloc, kind),
        _ => {}
    }
    match read_module(alloc, bytes) {
        Ok(_) => Ok(String::new(alloc)),
        Err(ReadError::Memory) => Err(AllocError),
        Err(ReadError::Fault(_, spot)) => spot_text(alloc, bytes, spot),
    }
}
