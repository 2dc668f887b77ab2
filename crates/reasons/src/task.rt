//! Why no task can run a module.

use crate::fields::constant_of;
use crate::first_bytes::module_of;
use crate::operands::{known, names};
use crate::texts::{Shown, Told, or, push_item};
use linear_memory::PAGE_BYTES;
use std::alloc::Global;
use wasi_calls::HostCall;
use wasm_ast::{Body, ExportKind, Import, Limits, Module, Refusal, ValType, Value};

/// What is said of the functions of WASI that are no system calls here.
const OTHERS: &str = " (feulgama lower answers the others)";

const NO_MEMORY: &str =
    "system calls that use memory are imported, and no memory is exported as memory";

// Whether a function takes and gives nothing.
fn is_bare(of: &Module, func: u32) -> bool {
    let found = of.type_of(func);
    matches!(found, Some(found) if found.params.len() == 0 && found.results.len() == 0)
}

// Why no task runs a module without an entry or a memory for its system calls. Names of exports differ in a
// valid module, so one of the two holds.
fn no_entry(of: &Module) -> &'static str {
    for export in of.exports.as_slice() {
        if export.name.as_str() == "_start" {
            return match export.kind {
                ExportKind::Func if is_bare(of, export.index) => NO_MEMORY,
                ExportKind::Func => "the function that is exported as _start takes or gives values",
                _ => "what is exported as _start is no function",
            };
        }
    }
    "no function is exported as _start"
}

// A type as `(i32) to ()`.
fn signature(alloc: Global, params: &[ValType], results: &[ValType]) -> Told {
    let params = names(alloc, known(alloc, params)?.as_slice())?;
    let results = names(alloc, known(alloc, results)?.as_slice())?;
    format!(in alloc; "({params}) to ({results})")
}

fn all_names(alloc: Global) -> Told {
    let mut names = String::new(alloc);
    for call in HostCall::all() {
        push_item(&mut names, ", ", call.name())?;
    }
    Ok(names)
}

fn is_of_calls(import: &Import) -> bool {
    import.module.as_str() == HostCall::module()
}

// The system call that an import names by module and name.
fn named(import: &Import) -> Option<HostCall> {
    for call in HostCall::all() {
        if is_of_calls(import) && call.name() == import.name.as_str() {
            return Some(*call);
        }
    }
    None
}

fn is_known(of: &Module, import: &Import) -> bool {
    match (named(import), of.type_with(import.type_index)) {
        (Some(call), Some(found)) => {
            call.params() == found.params.as_slice() && call.results() == found.results.as_slice()
        }
        _ => false,
    }
}

fn known_text(alloc: Global, import: &Import) -> Told {
    if let Some(call) = named(import) {
        let wanted = signature(alloc, call.params(), call.results())?;
        return format!(in alloc; "{} is {wanted}", call.name());
    }
    let names = all_names(alloc)?;
    let others = if is_of_calls(import) { OTHERS } else { "" };
    format!(in alloc; "of {} there are {names}{others}", HostCall::module())
}

fn import_text(alloc: Global, of: &Module, number: usize, import: &Import) -> Told {
    let module = Shown(import.module.as_str());
    let name = Shown(import.name.as_str());
    let found = match of.type_with(import.type_index) {
        Some(found) => signature(alloc, found.params.as_slice(), found.results.as_slice())?,
        None => String::new(alloc),
    };
    let known = known_text(alloc, import)?;
    format!(in alloc; "import {number}, {module} {name}, {found}: {known}")
}

fn why_import(alloc: Global, of: &Module) -> Told {
    for (i, import) in of.imports.as_slice().iter().enumerate() {
        if !is_known(of, import) {
            return import_text(alloc, of, i, import);
        }
    }
    Ok(String::new(alloc))
}

// Where a segment with this offset and this many items ends.
fn end_of(offset: &Body, count: usize) -> u64 {
    let begin = match constant_of(offset) {
        Some(Value::I32(number)) => u64::from(number),
        _ => 0,
    };
    begin.saturating_add(count as u64)
}

// The least size of the first table or memory; 0 if there is none.
fn least(limits: &[Limits]) -> u64 {
    match limits.first() {
        Some(limits) => u64::from(limits.min),
        None => 0,
    }
}

fn why_element(alloc: Global, of: &Module) -> Told {
    let size = least(of.tables.as_slice());
    for (i, each) in of.elements.as_slice().iter().enumerate() {
        let end = end_of(&each.offset, each.funcs.len());
        if end > size {
            return format!(in alloc;
                "element segment {i} ends at entry {end}, and the table begins with {size}"
            );
        }
    }
    Ok(String::new(alloc))
}

fn why_data(alloc: Global, of: &Module) -> Told {
    let size = least(of.memories.as_slice()).saturating_mul(PAGE_BYTES as u64);
    for (i, each) in of.segments.as_slice().iter().enumerate() {
        let end = end_of(&each.offset, each.bytes.len());
        if end > size {
            return format!(in alloc;
                "data segment {i} ends at byte {end}, and the memory begins with {size}"
            );
        }
    }
    Ok(String::new(alloc))
}

/// Why the module of a file cannot be instantiated as a task, which is refused so.
pub fn why_task(alloc: Global, bytes: &[u8], refusal: Refusal) -> Told {
    let Some(of) = module_of(alloc, bytes)? else {
        return Ok(String::new(alloc));
    };
    match refusal {
        Refusal::NoEntry => String::from_str(alloc, no_entry(&of)),
        Refusal::BadImport => why_import(alloc, &of),
        _ => or(why_element(alloc, &of), why_data(alloc, &of)),
    }
}
