//! What instructions on memory do (4.4.4).

ghost use Rattle.std.specs.Prelude.{◌≡◌, ◌*◌, ◌<◌, ◌^◌, IfOk, List, false, true, ℕ};
ghost use Rattle.linear_memory.specs.Memory.{little_endian};
ghost use Rattle.wasm_ast.specs.Access.{load_bytes, store_type};
ghost use Rattle.step_machine.specs.Effects.{Env, number_of, loaded_value, load, store, size, grow, with_memory};
ghost use Rattle.label_machine.specs.Inside.Effects.{effect_of, may_change};

use crate::effect::Effect;
use crate::numeric::take_i32;
use crate::pile::Pile;
use linear_memory::LinearMemory;
use std::alloc::AllocError;
use step_machine::{load_width, store_width};
use wasm_ast::{LoadOp, StoreOp, Trap, Value};

const OUT_OF_BOUNDS: Effect = Effect::Traps(Trap::OutOfBoundsMemoryAccess);

/// The value of the number that was read, extended.
fn loaded_value(op: LoadOp, number: u64) -> Value
    requires { number < 2 ^ (8 * load_bytes op) }
    ensures { (bytes : List ℕ) → little_endian bytes ≡ number → result ≡ loaded_value op bytes }
{
    match op {
        LoadOp::I32From8S if number >= 0x80 => Value::I32(number as u32 + 0xFFFF_FF00),
        LoadOp::I32From16S if number >= 0x8000 => Value::I32(number as u32 + 0xFFFF_0000),
        LoadOp::I32
        | LoadOp::I32From8S
        | LoadOp::I32From8U
        | LoadOp::I32From16S
        | LoadOp::I32From16U => Value::I32(number as u32),
        LoadOp::I64From8S if number >= 0x80 => Value::I64(number + 0xFFFF_FFFF_FFFF_FF00),
        LoadOp::I64From16S if number >= 0x8000 => Value::I64(number + 0xFFFF_FFFF_FFFF_0000),
        LoadOp::I64From32S if number >= 0x8000_0000 => Value::I64(number + 0xFFFF_FFFF_0000_0000),
        _ => Value::I64(number),
    }
}

/// A load (4.4.4): a trap if a byte is outside.
#[tactic(auto, using(crate::proofs::NumericLemmas::takes_none))]
pub fn load(
    operands: &mut Pile<Value>,
    memory: &LinearMemory,
    op: LoadOp,
    offset: u32,
) -> Result<Effect, AllocError>
    ensures { IfOk result (λ e. (env : Env) → env.store.memory ≡ memory.now
        → load env operands.old op offset ≡ effect_of e env operands.new) }
{
    let Some(base) = take_i32(operands) else {
        return Ok(Effect::Stuck);
    };
    let address = u64::from(base) + u64::from(offset);
    let Some(number) = memory.load(address, load_width(op)) else {
        return Ok(OUT_OF_BOUNDS);
    };
    operands.push(loaded_value(op, number))?;
    Ok(Effect::Done)
}

/// The number to be stored: an operand of the type that the store takes; None if it has the other.
fn stored_number(op: StoreOp, value: Value) -> Option<u64>
    ensures { result ≡ number_of (store_type op) value }
{
    match (op, value) {
        (StoreOp::I32 | StoreOp::I32To8 | StoreOp::I32To16, Value::I32(number)) => {
            Some(u64::from(number))
        }
        (
            StoreOp::I64 | StoreOp::I64To8 | StoreOp::I64To16 | StoreOp::I64To32,
            Value::I64(number),
        ) => Some(number),
        _ => None,
    }
}

/// A store (4.4.4): a trap, with nothing written, if a byte would be outside.
#[tactic(auto, using(crate::proofs::NumericLemmas::takes_none))]
pub fn store(
    operands: &mut Pile<Value>,
    memory: &mut LinearMemory,
    op: StoreOp,
    offset: u32,
) -> Effect
    ensures effect { (env : Env) → env.store.memory ≡ memory.old
        → store env operands.old op offset
        ≡ effect_of result (with_memory env memory.new) operands.new }
    ensures kept { may_change result ≡ false → memory.new ≡ memory.old }
{
    let Some(value) = operands.pop() else {
        return Effect::Stuck;
    };
    let Some(number) = stored_number(op, value) else {
        return Effect::Stuck;
    };
    let Some(base) = take_i32(operands) else {
        return Effect::Stuck;
    };
    let address = u64::from(base) + u64::from(offset);
    if !memory.store(address, store_width(op), number) {
        return OUT_OF_BOUNDS;
    }
    Effect::Done
}

/// `memory.size` (4.4.4).
pub fn size(operands: &mut Pile<Value>, memory: &LinearMemory) -> Result<Effect, AllocError>
    ensures { IfOk result (λ e. (env : Env) → env.store.memory ≡ memory.now
        → size env operands.old ≡ effect_of e env operands.new) }
{
    operands.push(Value::I32(memory.size()))?;
    Ok(Effect::Done)
}

/// `memory.grow` (4.4.4).
#[tactic(auto, using(crate::proofs::NumericLemmas::takes_none))]
pub fn grow(operands: &mut Pile<Value>, memory: &mut LinearMemory) -> Result<Effect, AllocError>
    ensures effect { IfOk result (λ e. (env : Env) → env.store.memory ≡ memory.old
        → grow env operands.old ≡ effect_of e (with_memory env memory.new) operands.new) }
    ensures changes { IfOk result (λ e. may_change e ≡ true) }
{
    let Some(delta) = take_i32(operands) else {
        return Ok(Effect::Stuck);
    };
    let answer = memory.grow(delta).unwrap_or(0xFFFF_FFFF);
    operands.push(Value::I32(answer))?;
    Ok(Effect::Done)
}
