//! Readers of what follows the opcodes of instructions without bodies (5.4).

ghost use Rattle.std.specs.Prelude.{◌≡◌, Some, IsErrAnd};
ghost use Rattle.wasm_ast.specs.declared.instr.Simple.TheVariants.{Load, Store};
ghost use Rattle.wasm_binary.specs.declared.fault.Fault.TheVariants.{Bad};
ghost use Rattle.wasm_binary.specs.Inside.Reading.{CountsMore, Gives, fault_of, read_mem_arg, with_index, read_index, read_reserved, read_call_indirect, read_const, read_br_table, no_offset, read_immediates};

use crate::fault::{ReadError, Wanted, What};
use crate::numbers::{read_s32, read_s64, read_u32, skip_byte};
use crate::opcodes::RESERVED;
use crate::vectors::read_indices;
use std::alloc::Global;
use wasm_ast::{Constant, Labels, LoadOp, MemArg, Simple, StoreOp, Value};

/// The alignment and the offset, and the rest.
#[tactic(auto, unfolding(crate::specs::Inside::Reading::read_mem_arg))]
pub fn read_mem_arg(bytes: &[u8]) -> Result<(MemArg, &[u8]), ReadError>
    ensures { Gives (λ x. (x.0, x.1.now)) result (read_mem_arg bytes.now) }
{
    let (align, rest) = read_u32(bytes)?;
    let (offset, rest) = read_u32(rest)?;
    Ok((MemArg { align, offset }, rest))
}

// The same instruction with this index.
#[inline(always)]
#[tactic(auto, unfolding(crate::specs::Inside::Reading::with_index))]
fn with_index(simple: Simple, index: u32) -> Simple
    ensures { result ≡ with_index simple index }
{
    match simple {
        Simple::Br(_) => Simple::Br(index),
        Simple::BrIf(_) => Simple::BrIf(index),
        Simple::Call(_) => Simple::Call(index),
        Simple::Local(op, _) => Simple::Local(op, index),
        Simple::Global(op, _) => Simple::Global(op, index),
        other => other,
    }
}

/// The same instruction with the index that is next, and the rest.
#[inline(always)]
#[tactic(auto, unfolding(crate::specs::Inside::Reading::read_index))]
pub fn read_index(simple: Simple, bytes: &[u8]) -> Result<(Simple, &[u8]), ReadError>
    ensures { Gives (λ x. (x.0, x.1.now)) result (read_index simple bytes.now) }
{
    let (index, rest) = read_u32(bytes)?;
    Ok((with_index(simple, index), rest))
}

/// This instruction, and the rest after its reserved byte.
#[tactic(auto, unfolding(crate::specs::Inside::Reading::read_reserved))]
pub fn read_reserved(simple: Simple, bytes: &[u8]) -> Result<(Simple, &[u8]), ReadError>
    ensures { Gives (λ x. (x.0, x.1.now)) result (read_reserved simple bytes.now) }
{
    let rest = skip_byte(RESERVED, What::Wanted(Wanted::Immediates), bytes)?;
    Ok((simple, rest))
}

/// A `call_indirect`, and the rest.
#[tactic(auto, unfolding(crate::specs::Inside::Reading::read_call_indirect))]
pub fn read_call_indirect(bytes: &[u8]) -> Result<(Simple, &[u8]), ReadError>
    ensures { Gives (λ x. (x.0, x.1.now)) result (read_call_indirect bytes.now) }
{
    let (index, rest) = read_u32(bytes)?;
    read_reserved(Simple::CallIndirect(index), rest)
}

/// A `br_table`, and the rest. A count of more labels than there are bytes left is refused for that.
#[tactic(auto, unfolding(crate::specs::Inside::Reading::read_br_table))]
pub fn read_br_table(alloc: Global, bytes: &[u8]) -> Result<(Simple, &[u8]), ReadError>
    ensures value { Gives (λ x. (x.0, x.1.now)) result (read_br_table bytes.now) }
    ensures count { CountsMore bytes.now → IsErrAnd result (λ e. fault_of e ≡ Some Bad) }
{
    let (labels, rest) = read_indices(alloc, bytes)?;
    let (other, rest) = read_u32(rest)?;
    Ok((Simple::BrTable(other, Labels::new(alloc, labels)?), rest))
}

/// A constant of the type of this one, and the rest.
#[tactic(auto, unfolding(crate::specs::Inside::Reading::read_const))]
pub fn read_const(value: Value, bytes: &[u8]) -> Result<(Simple, &[u8]), ReadError>
    ensures { Gives (λ x. (x.0, x.1.now)) result (read_const value bytes.now) }
{
    match value {
        Value::I32(_) => {
            let (n, rest) = read_s32(bytes)?;
            Ok((Simple::Const(Constant::new(Value::I32(n))), rest))
        }
        Value::I64(_) => {
            let (n, rest) = read_s64(bytes)?;
            Ok((Simple::Const(Constant::new(Value::I64(n))), rest))
        }
    }
}

/// A load, and the rest.
#[tactic(auto, unfolding(crate::specs::Inside::Reading::read_immediates))]
pub fn read_load(op: LoadOp, bytes: &[u8]) -> Result<(Simple, &[u8]), ReadError>
    ensures { Gives (λ x. (x.0, x.1.now)) result
        (read_immediates (Load op no_offset) bytes.now) }
{
    let (at, rest) = read_mem_arg(bytes)?;
    Ok((Simple::Load(op, at), rest))
}

/// A store, and the rest.
#[tactic(auto, unfolding(crate::specs::Inside::Reading::read_immediates))]
pub fn read_store(op: StoreOp, bytes: &[u8]) -> Result<(Simple, &[u8]), ReadError>
    ensures { Gives (λ x. (x.0, x.1.now)) result
        (read_immediates (Store op no_offset) bytes.now) }
{
    let (at, rest) = read_mem_arg(bytes)?;
    Ok((Simple::Store(op, at), rest))
}
