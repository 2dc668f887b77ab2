//! What a store begins with (4.5.3, 4.5.4).

ghost use Rattle.std.specs.Prelude.{◌≡◌, ◌≤◌, ◌<◌, ◌+◌, All, IfOk, Some, fold, length, map, true};
ghost use Rattle.linear_memory.specs.Memory.{is_inside, max_pages, new_memory};
ghost use Rattle.validator.specs.Typing.{ValidLimits, ValidModule, standard_pages};
ghost use Rattle.step_machine.specs.Instantiation.{first_global, most_pages, zero_memory, empty_table, with_items, with_element, with_segment, first_table, first_memory, are_pages_within, are_elements_inside, are_segments_inside, offset_of};
ghost use Rattle.step_machine.specs.Inside.FlatState.{word_of};

use crate::instantiate::{constant, offset_of};
use linear_memory::LinearMemory;
use oci_config::PageCap;
use std::alloc::{AllocError, Global};
use wasm_ast::{Element, Limits, Module, Segment, Value};

// ---- globals

/// A value as a word.
fn word_of(value: Value) -> u64
    ensures { result ≡ word_of value }
{
    match value {
        Value::I32(number) => u64::from(number),
        Value::I64(number) => number,
    }
}

/// The word that a global begins with.
fn first_word(global: &wasm_ast::Global) -> u64
    ensures { result ≡ word_of (first_global global.now) }
{
    match constant(&global.init) {
        Some(value) => word_of(value),
        None => 0,
    }
}

/// The words that globals begin with (4.5.4). An error if they cannot be allocated.
pub fn first_globals(alloc: Global, of: &Module) -> Result<Vec<u64>, AllocError>
    ensures { IfOk result (λ v. v.items ≡ map word_of (map first_global of.now.globals)) }
{
    let mut words = Vec::new(alloc);
    for global in of.globals.as_slice() {
        words.push(first_word(global))?;
    }
    Ok(words)
}

// ---- the memory

/// The most pages that a memory with this bound may have.
fn most_pages(bound: Option<u32>, cap: PageCap) -> u32
    ensures most { result ≡ most_pages bound cap }
    ensures within { result ≤ max_pages }
{
    match bound {
        Some(max) => max.min(cap.pages()),
        None => cap.pages(),
    }
}

/// The pages that a memory begins with, and the most that it may have.
fn page_bounds(memories: &[Limits], cap: PageCap) -> (u32, u32)
    requires valid { All (ValidLimits standard_pages) memories.now }
    requires pages { are_pages_within memories.now cap ≡ true }
    ensures zeros { new_memory result.0 result.1 ≡ zero_memory memories.now cap }
    ensures bounds { (result.0 ≤ result.1) × (result.1 ≤ max_pages) }
{
    match memories.first() {
        Some(memory) => (memory.min, most_pages(memory.max, cap)),
        None => (0, 0),
    }
}

/// The memory as it begins, before segments are written. An error if it cannot be allocated.
fn zero_memory(alloc: Global, memories: &[Limits], cap: PageCap) -> Result<LinearMemory, AllocError>
    requires valid { All (ValidLimits standard_pages) memories.now }
    requires pages { are_pages_within memories.now cap ≡ true }
    ensures { IfOk result (λ m. m ≡ zero_memory memories.now cap) }
{
    let (min, most) = page_bounds(memories, cap);
    match LinearMemory::new(alloc, min, most) {
        Some(memory) => Ok(memory),
        None => Err(AllocError),
    }
}

fn write_segment(memory: &mut LinearMemory, segment: &Segment)
    requires { is_inside memory.old (offset_of segment.now.offset) (length segment.now.bytes)
        ≡ true }
    ensures { memory.new ≡ with_segment memory.old segment.now }
{
    memory.write_range(offset_of(&segment.offset), segment.bytes.as_slice());
}

/// Writes segments, one after the other.
fn write_segments(memory: &mut LinearMemory, segments: &[Segment])
    requires { are_segments_inside memory.old segments.now ≡ true }
    ensures { memory.new ≡ fold with_segment memory.old segments.now }
{
    for segment in segments {
        write_segment(memory, segment);
    }
}

/// The memory of a module with its segments (4.5.4). An error if it cannot be allocated.
pub fn first_memory(alloc: Global, of: &Module, cap: PageCap) -> Result<LinearMemory, AllocError>
    requires valid { ValidModule of.now }
    requires pages { are_pages_within of.now.memories cap ≡ true }
    requires inside { are_segments_inside (zero_memory of.now.memories cap) of.now.segments ≡ true }
    ensures memory { IfOk result (λ m. m ≡ first_memory of.now cap) }
    ensures ranged { IfOk result (λ m. All (λ b. b < 256) m.bytes) }
{
    let mut memory = zero_memory(alloc, of.memories.as_slice(), cap)?;
    write_segments(&mut memory, of.segments.as_slice());
    memory.ranged();
    Ok(memory)
}

// ---- the table

/// The table as it begins, before elements are written. An error if it cannot be allocated.
fn empty_table(alloc: Global, tables: &[Limits]) -> Result<Vec<Option<u32>>, AllocError>
    ensures { IfOk result (λ t. t.items ≡ empty_table tables.now) }
{
    let size = match tables.first() {
        Some(table) => table.min as usize,
        None => 0,
    };
    let mut entries = Vec::new(alloc);
    entries.resize(size, None)?;
    Ok(entries)
}

/// Writes functions to a table from a start on.
fn write_funcs(table: &mut [Option<u32>], start: usize, funcs: &[u32])
    requires { start + length funcs.now ≤ length table.old }
    ensures { table.new ≡ with_items table.old start (map Some funcs.now) }
{
    for i in 0..funcs.len() {
        table[start + i] = Some(funcs[i]);
    }
}

/// Writes elements, one after the other.
fn write_elements(table: &mut [Option<u32>], elements: &[Element])
    requires { are_elements_inside (length table.old) elements.now ≡ true }
    ensures { table.new ≡ fold with_element table.old elements.now }
{
    for element in elements {
        let start = offset_of(&element.offset) as usize;
        write_funcs(table, start, element.funcs.as_slice());
    }
}

/// The table of a module with its elements (4.5.4). An error if it cannot be allocated.
pub fn first_table(alloc: Global, of: &Module) -> Result<Vec<Option<u32>>, AllocError>
    requires inside { are_elements_inside (length (empty_table of.now.tables)) of.now.elements
        ≡ true }
    ensures { IfOk result (λ t. t.items ≡ first_table of.now) }
{
    let mut table = empty_table(alloc, of.tables.as_slice())?;
    write_elements(table.as_mut_slice(), of.elements.as_slice());
    Ok(table)
}
