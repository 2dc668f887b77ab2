//! Bytes of memory.

ghost use Rattle.std.specs.Prelude.{◌≡◌, ◌≢◌, ◌++◌, replicate, IfOk, Some, None, Err};
ghost use Rattle.wasm_ast.specs.declared.refusal.Refusal.{Refusal as Reason};
ghost use Rattle.wasm_ast.specs.declared.refusal.Refusal.TheVariants as refusal;
ghost use Rattle.step_machine.specs.MachineView.{memory_of};
ghost use Rattle.debugger.specs.Peek.{peeked};

use linear_memory::RangeBytes;
use std::alloc::{AllocError, Global};
use step_machine::Machine;
use wasm_ast::Refusal;

/// The most bytes that are shown at a time.
const MAX_PEEK: u64 = 256;

/// The bytes of the machine's memory at an address. `OutOfRange` exactly if more than 256 are asked
/// for, or if one is outside; an empty range is inside if its address is at most the size.
/// `NoMemory` if they cannot be copied.
pub fn peek(alloc: Global, machine: &Machine, address: u64, length: u64) -> Result<Vec<u8>, Refusal>
    ensures bytes { IfOk result
        (λ b. peeked (memory_of machine.now) address length ≡ Some b.items) }
    ensures refused { (e : Reason) → result ≡ Err e → e ≢ refusal.NoMemory
        → (e ≡ refusal.OutOfRange) × (peeked (memory_of machine.now) address length ≡ None) }
    ensures outside { peeked (memory_of machine.now) address length ≡ None
        → result ≡ Err refusal.OutOfRange }
{
    if length > MAX_PEEK {
        return Err(Refusal::OutOfRange);
    }
    let Some(range) = machine.memory().read_range(address, length) else {
        return Err(Refusal::OutOfRange);
    };
    Ok(copy_of(alloc, range)?)
}

// A copy of the bytes of a range. An error if it cannot be allocated.
fn copy_of(alloc: Global, range: RangeBytes<'_>) -> Result<Vec<u8>, AllocError>
    ensures { IfOk result (λ b. b.items
        ≡ range.entry.written.now ++ replicate range.entry.zeros 0) }
{
    let mut bytes = Vec::from_slice(alloc, range.written)?;
    for _ in 0..range.zeros {
        bytes.push(0)?;
    }
    Ok(bytes)
}
