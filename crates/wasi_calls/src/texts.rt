//! Arguments and environment variables, as a module reads them.

ghost use Rattle.std.specs.Prelude.{◌≡◌, ℕ, List, ◌≤◌, ◌<◌, ◌+◌, ◌*◌, ◌%◌, ◌^◌, ◌++◌, nat_le, length, true};
ghost use Rattle.std.specs.List.{flat_map};
ghost use Rattle.linear_memory.specs.Memory.{with_range};
ghost use Rattle.wasi_calls.specs.SystemCalls.{ended_text, text_bytes, pointers, word, returns, sizes_get, texts_get};

use crate::errno::{FAULT, SUCCESS};
use crate::ranges::{byte_count, is_inside};
use linear_memory::{LinearMemory, Width};
use wasm_ast::Text;

/// The bytes of texts, each with a NUL, modulo 2^64.
fn size_of(texts: &[Text]) -> u64
    ensures { result ≡ length (text_bytes texts.now) % 2 ^ 64 }
{
    let mut sum = 0u64;
    for text in texts {
        sum = sum.wrapping_add(text.as_str().len() as u64 + 1);
    }
    sum
}

/// Writes how many texts there are at `p`, and how many bytes they have, each with a NUL, at `q`.
pub fn put_sizes(texts: &[Text], p: u32, q: u32, memory: &mut LinearMemory) -> u32
    ensures { (out err : List ℕ)
        → sizes_get texts.now p q (record { memory = memory.old; out = out; err = err })
        ≡ returns result (record { memory = memory.new; out = out; err = err }) }
{
    if !is_inside(memory, u64::from(p), 4) || !is_inside(memory, u64::from(q), 4) {
        return FAULT;
    }
    memory.store(u64::from(p), Width::Four, texts.len() as u64);
    memory.store(u64::from(q), Width::Four, size_of(texts));
    SUCCESS
}

/// Whether the texts, each with a NUL, fit into a memory of this size from an address on.
fn are_inside(texts: &[Text], from: u64, size: u64) -> bool
    requires { (from < 2 ^ 32) × (size < 2 ^ 32) }
    ensures { result ≡ nat_le (from + length (text_bytes texts.now)) size }
{
    let mut at = from;
    for text in texts {
        if at >= size || text.as_str().len() as u64 >= size - at {
            return false;
        }
        at += text.as_str().len() as u64 + 1;
    }
    at <= size
}

/// Writes a text and a NUL at an address.
fn put_text(text: &Text, address: u64, memory: &mut LinearMemory)
    requires small { length memory.old.bytes < 2 ^ 32 }
    requires inside { address + length (ended_text text.now) ≤ length memory.old.bytes }
    ensures { memory.new ≡ with_range memory.old address (ended_text text.now) }
{
    let bytes = text.as_str().as_bytes();
    memory.write_range(address, bytes);
    memory.store(address + bytes.len() as u64, Width::One, 0);
}

/// Writes texts, each with a NUL, one after the other.
fn put_text_bytes(texts: &[Text], address: u64, memory: &mut LinearMemory)
    requires small { length memory.old.bytes < 2 ^ 32 }
    requires inside { address + length (text_bytes texts.now) ≤ length memory.old.bytes }
    ensures { memory.new ≡ with_range memory.old address (text_bytes texts.now) }
{
    let mut at = address;
    for text in texts {
        put_text(text, at, memory);
        at += text.as_str().len() as u64 + 1;
    }
}

/// Writes pointers to texts that are one after the other.
fn put_pointers(texts: &[Text], first: u64, address: u64, memory: &mut LinearMemory)
    requires small { length memory.old.bytes < 2 ^ 32 }
    requires pointers { address + length texts.now * 4 ≤ length memory.old.bytes }
    requires texts { first + length (text_bytes texts.now) ≤ length memory.old.bytes }
    ensures { memory.new
        ≡ with_range memory.old address (flat_map word (pointers first texts.now)) }
{
    let mut pointer = first;
    let mut at = address;
    for text in texts {
        memory.store(at, Width::Four, pointer);
        pointer += text.as_str().len() as u64 + 1;
        at += 4;
    }
}

/// Whether this number of pointers fits into a memory of this size from an address on.
fn are_pointers_inside(count: usize, from: u64, size: u64) -> bool
    ensures { result ≡ nat_le (from + count * 4) size }
{
    from <= size && count as u64 <= (size - from) / 4
}

/// Writes pointers to the texts at `p`, and then the texts, each with a NUL, at `q`.
pub fn put_texts(texts: &[Text], p: u32, q: u32, memory: &mut LinearMemory) -> u32
    ensures { (out err : List ℕ)
        → texts_get texts.now p q (record { memory = memory.old; out = out; err = err })
        ≡ returns result (record { memory = memory.new; out = out; err = err }) }
{
    let p = u64::from(p);
    let q = u64::from(q);
    let size = byte_count(memory);
    if !are_pointers_inside(texts.len(), p, size) || !are_inside(texts, q, size) {
        return FAULT;
    }
    put_pointers(texts, q, p, memory);
    put_text_bytes(texts, q, memory);
    SUCCESS
}
