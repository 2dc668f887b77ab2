//! Which field of a module is not valid, outside the bodies.

use crate::operands::count_functions;
use std::alloc::{AllocError, Global};
use std::collections::BTreeMap;
use wasm_ast::{
    Body, Element, Export, ExportKind, Instr, Limits, Module, Segment, Simple, ValType, Value,
};

/// A field, its number among those of its kind, and what is wrong with it.
pub type Field = (&'static str, usize, &'static str);

const NO_TYPE: &str = "there is no type with its index";

const NO_CONSTANT: &str = "its first value is not one constant of its type";

const NO_OFFSET: &str = "its offset is not one i32 constant";

fn has_type(of: &Module, index: u32) -> bool {
    (index as usize) < of.types.len()
}

fn is_there(of: &Module, kind: ExportKind, index: u32) -> bool {
    let count = match kind {
        ExportKind::Func => count_functions(of),
        ExportKind::Table => of.tables.len(),
        ExportKind::Memory => of.memories.len(),
        ExportKind::Global => of.globals.len(),
    };
    (index as usize) < count
}

/// The value of an expression that is one constant.
pub fn constant_of(init: &Body) -> Option<Value> {
    match init.as_slice() {
        [Instr::Simple(Simple::Const(constant))] => Some(constant.value()),
        _ => None,
    }
}

fn is_constant(expected: ValType, init: &Body) -> bool {
    match constant_of(init) {
        Some(Value::I32(_)) => expected == ValType::I32,
        Some(Value::I64(_)) => expected == ValType::I64,
        None => false,
    }
}

fn types(of: &Module) -> Option<Field> {
    for (i, import) in of.imports.as_slice().iter().enumerate() {
        if !has_type(of, import.type_index) {
            return Some(("import", i, NO_TYPE));
        }
    }
    for (own, func) in of.funcs.as_slice().iter().enumerate() {
        if !has_type(of, func.type_index) {
            return Some(("function", of.imports.len().saturating_add(own), NO_TYPE));
        }
    }
    None
}

// Tables or memories, of which there is at most one.
fn size(field: &'static str, range: u32, limits: &[Limits]) -> Option<Field> {
    if limits.len() > 1 {
        return Some((field, 1, "there is at most one"));
    }
    let limit = limits.first()?;
    let max = limit.max.unwrap_or(limit.min);
    if limit.min > range || max > range {
        return Some((field, 0, "a size of it is over 65,536 pages"));
    }
    if max < limit.min {
        return Some((field, 0, "its least size is over its greatest"));
    }
    None
}

fn start(of: &Module) -> Option<Field> {
    let index = of.start?;
    let what = match of.type_of(index) {
        Some(found) if found.params.len() > 0 || found.results.len() > 0 =>
            "it takes or gives values",
        Some(_) => return None,
        None => "it is not there",
    };
    Some(("start function", index as usize, what))
}

fn element(of: &Module, each: &Element) -> Option<&'static str> {
    if !is_there(of, ExportKind::Table, each.table) {
        return Some("its table is not there");
    }
    if !is_constant(ValType::I32, &each.offset) {
        return Some(NO_OFFSET);
    }
    for func in each.funcs.as_slice() {
        if !is_there(of, ExportKind::Func, *func) {
            return Some("a function of it is not there");
        }
    }
    None
}

fn segment(of: &Module, each: &Segment) -> Option<&'static str> {
    if !is_there(of, ExportKind::Memory, each.memory) {
        return Some("its memory is not there");
    }
    (!is_constant(ValType::I32, &each.offset)).then_some(NO_OFFSET)
}

fn segments(of: &Module) -> Option<Field> {
    for (i, each) in of.elements.as_slice().iter().enumerate() {
        if let Some(what) = element(of, each) {
            return Some(("element segment", i, what));
        }
    }
    for (i, each) in of.segments.as_slice().iter().enumerate() {
        if let Some(what) = segment(of, each) {
            return Some(("data segment", i, what));
        }
    }
    None
}

fn globals(of: &Module) -> Option<Field> {
    for (i, global) in of.globals.as_slice().iter().enumerate() {
        if !is_constant(global.val_type, &global.init) {
            return Some(("global", i, NO_CONSTANT));
        }
    }
    None
}

fn exports(of: &Module) -> Option<Field> {
    for (i, export) in of.exports.as_slice().iter().enumerate() {
        if !is_there(of, export.kind, export.index) {
            return Some(("export", i, "what it names is not there"));
        }
    }
    None
}

// The first export that has the name of one before it.
fn same_name(alloc: Global, exports: &[Export]) -> Result<Option<Field>, AllocError> {
    let mut seen = BTreeMap::new(alloc);
    for (i, export) in exports.iter().enumerate() {
        if seen.insert(export.name.as_str(), ())?.is_some() {
            return Ok(Some(("export", i, "an export before it has its name")));
        }
    }
    Ok(None)
}

/// The first field that is not valid, in the order in which the validator tests them; None if all are valid
/// outside the bodies. An error if the names of exports cannot be held.
pub fn find_field(alloc: Global, of: &Module) -> Result<Option<Field>, AllocError> {
    let same = same_name(alloc, of.exports.as_slice())?;
    let table = size("table", u32::MAX, of.tables.as_slice());
    let memory = size("memory", 65_536, of.memories.as_slice());
    let found = types(of).or(table).or(memory);
    let found = found.or(globals(of)).or(exports(of)).or(start(of));
    Ok(found.or(segments(of)).or(same))
}
