//! Whether a module can be instantiated as a task (4.5.4).

ghost use Rattle.std.specs.Prelude.{◌≡◌, ◌&&◌, ◌+◌, ◌*◌, nat_le, ℕ, IfOk, OnOk, None, Some, Err, length, true};
ghost use Rattle.linear_memory.specs.Memory.{Memory, is_inside, page_bytes};
ghost use Rattle.wasm_ast.specs.Limits.{is_within as within_limits};
ghost use Rattle.wasm_ast.specs.Types.{func_types};
ghost use Rattle.wasm_ast.specs.declared.refusal.Refusal.{Refusal};
ghost use Rattle.oci_config.specs.declared.process.ProcessConfig.{ProcessConfig};
ghost use Rattle.step_machine.specs.HostCalls.{all_known};
ghost use Rattle.step_machine.specs.Instantiation.{is_bare, is_entry, entry_in, entry, constant, offset_of, zero_memory, empty_table, are_pages_within, are_elements_inside, are_segments_inside, instantiation_refusal};

use crate::host_calls::{are_known, is_of_type};
use crate::needed_memory::has_needed_memory;
use linear_memory::PAGE_BYTES;
use oci_config::PageCap;
use wasm_ast::{
    Body, Element, Export, ExportKind, Instr, Limits, Module, Refusal, Segment, Simple, Value,
};

/// The entry, imports counted first, of a module that can be instantiated in a process with this cap of
/// pages. Else the first refusal that holds: `NoEntry`, also if a system call that needs memory is
/// imported and no memory is exported as `memory`; `BadImport` if an import is no system call or has
/// another type, `Limit` if the module passes a limit of the profile or begins with more pages than the
/// cap, and `SegmentOutOfBounds` if a segment is not inside its table or memory as it begins. The caller
/// says whether the module is within the limits, since finding that out takes time linear in its bodies.
pub fn find_entry(of: &Module, is_within: bool, cap: PageCap) -> Result<u32, Refusal>
    requires { is_within ≡ within_limits of.now }
    ensures entry { IfOk result (λ f. entry of.now ≡ Some f) }
    ensures known { OnOk result (all_known of.now.types of.now.imports ≡ true) }
    ensures within { OnOk result (within_limits of.now ≡ true) }
    ensures pages { OnOk result (are_pages_within of.now.memories cap ≡ true) }
    ensures inside { OnOk result
        (are_elements_inside (length (empty_table of.now.tables)) of.now.elements
        && are_segments_inside (zero_memory of.now.memories cap) of.now.segments ≡ true) }
    ensures opens { OnOk result ((p : ProcessConfig) → p.cap ≡ cap
        → instantiation_refusal of.now p ≡ None) }
    ensures refused { (e : Refusal) → result ≡ Err e → (p : ProcessConfig) → p.cap ≡ cap
        → instantiation_refusal of.now p ≡ Some e }
{
    let Some(entry) = entry_of(of, of.exports.as_slice()) else {
        return Err(Refusal::NoEntry);
    };
    if !has_needed_memory(of) {
        return Err(Refusal::NoEntry);
    }
    if !are_known(of.types.as_slice(), of.imports.as_slice()) {
        return Err(Refusal::BadImport);
    }
    if !is_within || !are_pages_within(of.memories.as_slice(), cap.pages()) {
        return Err(Refusal::Limit);
    }
    if !are_inside(of) {
        return Err(Refusal::SegmentOutOfBounds);
    }
    Ok(entry)
}

/// The first of these exports that is an entry.
fn entry_of(of: &Module, exports: &[Export]) -> Option<u32>
    ensures { result ≡ entry_in (func_types of.now) exports.now }
{
    for export in exports {
        if is_entry(of, export) {
            return Some(export.index);
        }
    }
    None
}

fn is_entry(of: &Module, export: &Export) -> bool
    ensures { result ≡ is_entry (func_types of.now) export.now }
{
    export.name.as_str() == "_start" && is_bare(of, export.kind, export.index)
}

/// Whether what this kind and index name is a function from nothing to nothing.
fn is_bare(of: &Module, kind: ExportKind, index: u32) -> bool
    ensures { result ≡ is_bare (func_types of.now) kind index }
{
    match kind {
        ExportKind::Func => is_of_type(&[], &[], of.type_of(index)),
        _ => false,
    }
}

fn are_pages_within(memories: &[Limits], cap: u32) -> bool
    ensures { result ≡ are_pages_within memories.now cap }
{
    match memories.first() {
        Some(memory) => memory.min <= cap,
        None => true,
    }
}

/// Whether each segment is inside its table or memory as it begins.
fn are_inside(of: &Module) -> bool
    ensures { (cap : ℕ) → result
        ≡ are_elements_inside (length (empty_table of.now.tables)) of.now.elements
        && are_segments_inside (zero_memory of.now.memories cap) of.now.segments }
{
    are_elements_inside(table_size(of.tables.as_slice()), of.elements.as_slice())
        && are_segments_inside(memory_size(of.memories.as_slice()), of.segments.as_slice())
}

/// The entries that a table begins with.
fn table_size(tables: &[Limits]) -> u64
    ensures { result ≡ length (empty_table tables.now) }
{
    match tables.first() {
        Some(table) => u64::from(table.min),
        None => 0,
    }
}

/// The bytes of this number of pages.
fn bytes_of(pages: u32) -> u64
    ensures { result ≡ pages * page_bytes }
{
    u64::from(pages) * PAGE_BYTES as u64
}

/// The bytes that a memory begins with.
fn memory_size(memories: &[Limits]) -> u64
    ensures { (cap : ℕ) → result ≡ length (zero_memory memories.now cap).bytes }
{
    match memories.first() {
        Some(memory) => bytes_of(memory.min),
        None => 0,
    }
}

fn are_elements_inside(size: u64, elements: &[Element]) -> bool
    ensures { result ≡ are_elements_inside size elements.now }
{
    for element in elements {
        if !is_element_inside(size, element) {
            return false;
        }
    }
    true
}

fn is_element_inside(size: u64, element: &Element) -> bool
    ensures { result ≡ nat_le (offset_of element.now.offset + length element.now.funcs) size }
{
    is_range_inside(offset_of(&element.offset), element.funcs.len() as u64, size)
}

fn are_segments_inside(size: u64, segments: &[Segment]) -> bool
    ensures { (memory : Memory) → size ≡ length memory.bytes
        → result ≡ are_segments_inside memory segments.now }
{
    for segment in segments {
        if !is_segment_inside(size, segment) {
            return false;
        }
    }
    true
}

fn is_segment_inside(size: u64, segment: &Segment) -> bool
    ensures { (memory : Memory) → size ≡ length memory.bytes
        → result ≡ is_inside memory (offset_of segment.now.offset) (length segment.now.bytes) }
{
    is_range_inside(offset_of(&segment.offset), segment.bytes.len() as u64, size)
}

/// Whether this number of items from a start on are within a size.
fn is_range_inside(start: u64, count: u64, size: u64) -> bool
    ensures { result ≡ nat_le (start + count) size }
{
    start <= size && count <= size - start
}

/// Where a segment with this constant expression begins.
pub fn offset_of(offset: &Body) -> u64
    ensures { result ≡ offset_of offset.now }
{
    match constant(offset) {
        Some(Value::I32(number)) => u64::from(number),
        _ => 0,
    }
}

/// The value of a constant expression (4.5.4).
pub fn constant(body: &Body) -> Option<Value>
    ensures { result ≡ constant body.now }
{
    let instrs = body.as_slice();
    if instrs.len() != 1 {
        return None;
    }
    match &instrs[0] {
        Instr::Simple(Simple::Const(constant)) => Some(constant.value()),
        _ => None,
    }
}
