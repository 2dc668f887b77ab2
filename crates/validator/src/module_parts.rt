//! The check of the parts of a module but its functions' bodies and the names of its exports (3.4).

ghost use Rattle.std.specs.Prelude.{◌≡◌};
ghost use Rattle.wasm_ast.specs.Limits.{are_all};
ghost use Rattle.validator.specs.Inside.ModuleTests.{is_typed_import, is_typed_func, are_valid_limits, is_constant, is_valid_global, is_function, is_there, is_valid_export, is_valid_start, is_valid_element, is_valid_segment, declares_validly, defines_validly};

use crate::access::type_of;
use wasm_ast::{
    Body, Element, Export, ExportKind, Func, FuncType, Global, Import, Instr, Limits, Module,
    Segment, Simple, ValType, is_same_type as is_same,
};

/// Entries that a table may have (3.2.3).
const TABLE_RANGE: u64 = 1 << 32;

/// Pages that a memory may have (3.2.4).
const PAGE_RANGE: u64 = 65_536;

/// Whether imports, the types of functions, tables and memories are valid.
pub fn declares_validly(of: &Module) -> bool
    ensures { result ≡ declares_validly of.now }
{
    are_typed_imports(of.types.as_slice(), of.imports.as_slice())
        && are_typed_funcs(of.types.as_slice(), of.funcs.as_slice())
        && of.tables.len() <= 1
        && are_valid_limits(TABLE_RANGE, of.tables.as_slice())
        && of.memories.len() <= 1
        && are_valid_limits(PAGE_RANGE, of.memories.as_slice())
}

/// Whether globals, exports, the start function and segments are valid, names of exports aside.
pub fn defines_validly(of: &Module) -> bool
    ensures { result ≡ defines_validly of.now }
{
    are_valid_globals(of.globals.as_slice())
        && are_valid_exports(of, of.exports.as_slice())
        && is_valid_start(of, of.start)
        && are_valid_elements(of, of.elements.as_slice())
        && are_valid_segments(of, of.segments.as_slice())
}

// The type of an import is there (3.4.9).
fn are_typed_imports(types: &[FuncType], imports: &[Import]) -> bool
    ensures { result ≡ are_all (is_typed_import types.now) imports.now }
{
    for import in imports {
        if import.type_index as usize >= types.len() {
            return false;
        }
    }
    true
}

// The type of a function is there (3.4.1).
fn are_typed_funcs(types: &[FuncType], funcs: &[Func]) -> bool
    ensures { result ≡ are_all (is_typed_func types.now) funcs.now }
{
    for func in funcs {
        if func.type_index as usize >= types.len() {
            return false;
        }
    }
    true
}

fn are_valid_limits(range: u64, limits: &[Limits]) -> bool
    ensures { result ≡ are_all (are_valid_limits range) limits.now }
{
    for limit in limits {
        if !is_valid_limit(range, *limit) {
            return false;
        }
    }
    true
}

// Limits are in the range and in order (3.2.1).
fn is_valid_limit(range: u64, limits: Limits) -> bool
    ensures { result ≡ are_valid_limits range limits }
{
    let min = u64::from(limits.min);
    if min > range {
        return false;
    }
    match limits.max {
        None => true,
        Some(max) => u64::from(max) <= range && min <= u64::from(max),
    }
}

fn are_valid_globals(globals: &[Global]) -> bool
    ensures { result ≡ are_all is_valid_global globals.now }
{
    for global in globals {
        if !is_constant(global.val_type, &global.init) {
            return false;
        }
    }
    true
}

// Whether an expression is one constant of this type (3.3.7).
fn is_constant(expected: ValType, init: &Body) -> bool
    ensures { result ≡ is_constant expected init.now }
{
    match init.as_slice() {
        [Instr::Simple(Simple::Const(constant))] => {
            is_same(type_of(constant.value()), expected)
        },
        _ => false,
    }
}

fn are_valid_exports(of: &Module, exports: &[Export]) -> bool
    ensures { result ≡ are_all (is_valid_export of.now) exports.now }
{
    for export in exports {
        if !is_there(of, export.kind, export.index) {
            return false;
        }
    }
    true
}

// Whether what an export names is there (3.4.8).
fn is_there(of: &Module, kind: ExportKind, index: u32) -> bool
    ensures { result ≡ is_there of.now kind index }
{
    let at = index as usize;
    match kind {
        ExportKind::Func => is_function(of, index),
        ExportKind::Table => at < of.tables.len(),
        ExportKind::Memory => at < of.memories.len(),
        ExportKind::Global => at < of.globals.len(),
    }
}

fn is_function(of: &Module, index: u32) -> bool
    ensures { result ≡ is_function of.now index }
{
    let index = index as usize;
    let imports = of.imports.len();
    index < imports || index - imports < of.funcs.len()
}

// The start function takes nothing and gives nothing (3.4.7).
fn is_valid_start(of: &Module, start: Option<u32>) -> bool
    ensures { result ≡ is_valid_start of.now start }
{
    let Some(func) = start else {
        return true;
    };
    match of.type_of(func) {
        Some(func_type) => func_type.params.len() == 0 && func_type.results.len() == 0,
        None => false,
    }
}

fn are_valid_elements(of: &Module, elements: &[Element]) -> bool
    ensures { result ≡ are_all (is_valid_element of.now) elements.now }
{
    for element in elements {
        if !is_valid_element(of, element) {
            return false;
        }
    }
    true
}

// A segment of functions is for a table, and its functions are there (3.4.5).
fn is_valid_element(of: &Module, element: &Element) -> bool
    ensures { result ≡ is_valid_element of.now element.now }
{
    (element.table as usize) < of.tables.len()
        && is_constant(ValType::I32, &element.offset)
        && are_functions(of, element.funcs.as_slice())
}

fn are_functions(of: &Module, funcs: &[u32]) -> bool
    ensures { result ≡ are_all (is_function of.now) funcs.now }
{
    for func in funcs {
        if !is_function(of, *func) {
            return false;
        }
    }
    true
}

fn are_valid_segments(of: &Module, segments: &[Segment]) -> bool
    ensures { result ≡ are_all (is_valid_segment of.now) segments.now }
{
    for segment in segments {
        if !is_valid_segment(of, segment) {
            return false;
        }
    }
    true
}

// A segment of bytes is for a memory (3.4.6).
fn is_valid_segment(of: &Module, segment: &Segment) -> bool
    ensures { result ≡ is_valid_segment of.now segment.now }
{
    (segment.memory as usize) < of.memories.len() && is_constant(ValType::I32, &segment.offset)
}
