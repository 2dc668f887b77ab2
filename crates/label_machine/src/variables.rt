//! What instructions on locals and globals do (4.4.3).

ghost use Rattle.std.specs.Prelude.{◌≡◌, IfOk, Some, None, slice_get, true, false};
ghost use Rattle.step_machine.specs.Configuration.{Store};
ghost use Rattle.step_machine.specs.Effects.{Env, with_value, use_local, use_global};
ghost use Rattle.label_machine.specs.Inside.Effects.{effect_of, may_change};

use crate::effect::Effect;
use crate::pile::Pile;
use std::alloc::AllocError;
use wasm_ast::{GlobalOp, LocalOp, Value};

/// The value with this index; None if there is none.
fn read(values: &[Value], index: u32) -> Option<Value>
    ensures { result ≡ slice_get values.now index }
{
    values.get(index as usize).copied()
}

/// Puts a value in the place of another; tells whether there is one.
fn write(values: &mut [Value], index: u32, value: Value) -> bool
    ensures written { result ≡ true → with_value values.old index value ≡ Some values.new }
    ensures none { result ≡ false → with_value values.old index value ≡ None }
{
    let index = index as usize;
    if index >= values.len() {
        return false;
    }
    values[index] = value;
    true
}

/// `local.get`, `local.set` and `local.tee` (4.4.3).
pub fn use_local(
    operands: &mut Pile<Value>,
    locals: &mut [Value],
    op: LocalOp,
    index: u32,
) -> Result<Effect, AllocError>
    ensures effect { IfOk result (λ e. (r : Store)
        → use_local (record { store = r; locals = locals.old }) operands.old op index
        ≡ effect_of e (record { store = r; locals = locals.new }) operands.new) }
    ensures changes { IfOk result (λ e. may_change e ≡ true) }
{
    match op {
        LocalOp::Get => {
            let Some(value) = read(locals, index) else {
                return Ok(Effect::Stuck);
            };
            operands.push(value)?;
        }
        LocalOp::Set => {
            let Some(value) = operands.pop() else {
                return Ok(Effect::Stuck);
            };
            if !write(locals, index, value) {
                return Ok(Effect::Stuck);
            }
        }
        LocalOp::Tee => {
            let Some(value) = operands.pop() else {
                return Ok(Effect::Stuck);
            };
            if !write(locals, index, value) {
                return Ok(Effect::Stuck);
            }
            operands.push(value)?;
        }
    }
    Ok(Effect::Done)
}

/// `global.get` and `global.set` (4.4.3).
pub fn use_global(
    operands: &mut Pile<Value>,
    globals: &mut [Value],
    op: GlobalOp,
    index: u32,
) -> Result<Effect, AllocError>
    ensures effect { IfOk result (λ e. (env : Env) → env.store.globals ≡ globals.old
        → use_global env operands.old op index
        ≡ effect_of e (record {
          store = record env.store { globals = globals.new };
          locals = env.locals;
        }) operands.new) }
    ensures changes { IfOk result (λ e. may_change e ≡ true) }
{
    match op {
        GlobalOp::Get => {
            let Some(value) = read(globals, index) else {
                return Ok(Effect::Stuck);
            };
            operands.push(value)?;
            Ok(Effect::Done)
        }
        GlobalOp::Set => {
            let Some(value) = operands.pop() else {
                return Ok(Effect::Stuck);
            };
            if write(globals, index, value) {
                Ok(Effect::Done)
            } else {
                Ok(Effect::Stuck)
            }
        }
    }
}
