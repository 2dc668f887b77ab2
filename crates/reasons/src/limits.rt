//! Which limit a file passes.

use crate::first_bytes::module_of;
use crate::operands::{count_functions, locals_of};
use crate::spelling::why_bytes;
use crate::texts::Told;
use std::alloc::{AllocError, Global};
use text_assembler::readers::{ReadError, read_text};
use wasm_ast::{
    Limits, MAX_FUNCTIONS, MAX_LOCALS, MAX_MEMORY_PAGES, MAX_MODULE_BYTES, MAX_NESTING,
    MAX_RESULTS, MAX_TABLE_ENTRIES, Module,
};

/// What passes a limit, the number of the item if it has one, how many there are, and the limit.
type Passed = (&'static str, Option<usize>, usize, usize);

const FUNCTIONS: &str = "the functions of the module, imports counted";

const LOCALS: &str = "the locals, parameters counted, of function";

fn results(of: &Module) -> Option<Passed> {
    for (i, each) in of.types.as_slice().iter().enumerate() {
        let found = each.results.len();
        if found > MAX_RESULTS {
            return Some(("the results of type", Some(i), found, MAX_RESULTS));
        }
    }
    None
}

fn locals(of: &Module) -> Option<Passed> {
    for (own, func) in of.funcs.as_slice().iter().enumerate() {
        let (number, found) = (of.imports.len().saturating_add(own), locals_of(of, func));
        if found > MAX_LOCALS {
            return Some((LOCALS, Some(number), found, MAX_LOCALS));
        }
    }
    None
}

fn least(what: &'static str, most: u32, limits: &[Limits]) -> Option<Passed> {
    for (i, each) in limits.iter().enumerate() {
        if each.min > most {
            return Some((what, Some(i), each.min as usize, most as usize));
        }
    }
    None
}

// The first limit, but that on blocks, which a module passes.
fn find_passed(of: &Module) -> Option<Passed> {
    let (tables, memories) = (of.tables.as_slice(), of.memories.as_slice());
    let count = count_functions(of);
    let over = (FUNCTIONS, None, count, MAX_FUNCTIONS);
    let functions = (count > MAX_FUNCTIONS).then_some(over);
    let entries = least("the first entries of table", MAX_TABLE_ENTRIES, tables);
    let pages = least("the first pages of memory", MAX_MEMORY_PAGES, memories);
    let found = results(of).or(functions).or(locals(of));
    found.or(entries).or(pages)
}

fn nesting_text(alloc: Global) -> Told {
    format!(in alloc; "more than {MAX_NESTING} blocks are open at once")
}

fn why_module(alloc: Global, of: &Module) -> Told {
    match find_passed(of) {
        Some((what, Some(item), found, most)) => format!(in alloc;
            "{what} {item} are {found}, and the limit is {most}"
        ),
        Some((what, None, found, most)) => format!(in alloc;
            "{what} are {found}, and the limit is {most}"
        ),
        None if !of.is_within_limits() => nesting_text(alloc),
        None => format!(in alloc;
            "the encoding of the module has more than {MAX_MODULE_BYTES} bytes"
        ),
    }
}

fn why_text(alloc: Global, bytes: &[u8]) -> Told {
    match read_text(alloc, bytes) {
        Ok(of) => why_module(alloc, &of),
        Err(ReadError::TooDeep) => nesting_text(alloc),
        Err(ReadError::Memory) => Err(AllocError),
        Err(ReadError::Malformed { .. }) => Ok(String::new(alloc)),
    }
}

// Why a module within the limits cannot be run by a task whose memory may have this many pages, which this
// can raise.
fn why_task(alloc: Global, of: &Module, most: u64, raised_by: &str) -> Told {
    match of.memories.as_slice().first() {
        Some(memory) => format!(in alloc;
            "the memory begins with {} pages, and the task may have {most}; {raised_by} can raise that",
            memory.min
        ),
        None => Ok(String::new(alloc)),
    }
}

/// Why a file is refused for a limit: that of the bytes or the text, or else that of a task whose memory may
/// have this many pages, which this can raise.
pub fn why_limit(alloc: Global, bytes: &[u8], most: u64, raised_by: &str) -> Told {
    match (module_of(alloc, bytes)?, bytes.first()) {
        (Some(of), _) => why_task(alloc, &of, most, raised_by),
        (None, Some(0)) => why_bytes(alloc, bytes),
        (None, _) => why_text(alloc, bytes),
    }
}
