//! What instructions on operands alone do (4.4.1, 4.4.2).

ghost use Rattle.std.specs.Prelude.{◌≡◌, ◌∷◌, IfOk, List, MatchOption};
ghost use Rattle.wasm_ast.specs.declared.values.Value.{Value as AnyValue};
ghost use Rattle.wasm_ast.specs.declared.values.ValType.TheVariants as type;
ghost use Rattle.wasm_ast.specs.declared.values.Value.TheVariants as value;
ghost use Rattle.step_machine.specs.Effects.{Env, gives, unary, binary, test, compare, convert, discard, select};
ghost use Rattle.label_machine.specs.Inside.Effects.{given_by, effect_of, HasNoI32};

use crate::effect::Effect;
use crate::pile::Pile;
use int_ops as integers;
use std::alloc::AllocError;
use wasm_ast::{BinaryOp, ConvertOp, RelationOp, TestOp, Trap, UnaryOp, ValType, Value};

/// The newest operand, an i32; None if there is none.
pub fn take_i32(operands: &mut Pile<Value>) -> Option<u32>
    ensures { MatchOption result
        (HasNoI32 operands.old)
        (λ n. operands.old ≡ value.I32 n ∷ operands.new) }
{
    match operands.pop()? {
        Value::I32(number) => Some(number),
        Value::I64(_) => None,
    }
}

/// One operand more, or a trap; stuck if there is no rule.
fn give(
    operands: &mut Pile<Value>,
    value: Option<Result<Value, Trap>>,
) -> Result<Effect, AllocError>
    ensures { IfOk result (λ e. (env : Env) → given_by env value operands.old
        ≡ effect_of e env operands.new) }
{
    match value {
        Some(Ok(value)) => {
            operands.push(value)?;
            Ok(Effect::Done)
        }
        Some(Err(trap)) => Ok(Effect::Traps(trap)),
        None => Ok(Effect::Stuck),
    }
}

fn unary_value(t: ValType, op: UnaryOp, operand: Value) -> Option<Result<Value, Trap>>
    ensures { (env : Env) (rest : List AnyValue)
        → unary env (operand ∷ rest) t op ≡ given_by env result rest }
{
    match (t, operand) {
        (ValType::I32, Value::I32(_)) | (ValType::I64, Value::I64(_)) => {
            Some(integers::unary(op, operand))
        }
        (ValType::I32, Value::I64(_)) | (ValType::I64, Value::I32(_)) => None,
    }
}

/// An operator on one operand (4.4.1).
pub fn unary(operands: &mut Pile<Value>, t: ValType, op: UnaryOp) -> Result<Effect, AllocError>
    ensures { IfOk result (λ e. (env : Env) → unary env operands.old t op
        ≡ effect_of e env operands.new) }
{
    let Some(operand) = operands.pop() else {
        return Ok(Effect::Stuck);
    };
    give(operands, unary_value(t, op, operand))
}

#[tactic(auto, using(crate::proofs::NumericLemmas::given_32, crate::proofs::NumericLemmas::given_64))]
fn binary_value(
    t: ValType,
    op: BinaryOp,
    first: Value,
    second: Value,
) -> Option<Result<Value, Trap>>
    ensures { (env : Env) (rest : List AnyValue)
        → binary env (second ∷ first ∷ rest) t op ≡ given_by env result rest }
{
    match (t, first, second) {
        (ValType::I32, Value::I32(_), Value::I32(_)) => Some(integers::binary(op, first, second)),
        (ValType::I64, Value::I64(_), Value::I64(_)) => Some(integers::binary(op, first, second)),
        _ => None,
    }
}

/// An operator on two operands (4.4.1).
#[tactic(auto, using(crate::proofs::NumericLemmas::one_of_two))]
pub fn binary(operands: &mut Pile<Value>, t: ValType, op: BinaryOp) -> Result<Effect, AllocError>
    ensures { IfOk result (λ e. (env : Env) → binary env operands.old t op
        ≡ effect_of e env operands.new) }
{
    let Some(second) = operands.pop() else {
        return Ok(Effect::Stuck);
    };
    let Some(first) = operands.pop() else {
        return Ok(Effect::Stuck);
    };
    give(operands, binary_value(t, op, first, second))
}

fn test_value(t: ValType, op: TestOp, operand: Value) -> Option<Result<Value, Trap>>
    ensures { (env : Env) (rest : List AnyValue)
        → test env (operand ∷ rest) t op ≡ given_by env result rest }
{
    match (t, operand) {
        (ValType::I32, Value::I32(_)) | (ValType::I64, Value::I64(_)) => {
            Some(integers::test(op, operand))
        }
        (ValType::I32, Value::I64(_)) | (ValType::I64, Value::I32(_)) => None,
    }
}

/// A test of one operand (4.4.1).
pub fn test(operands: &mut Pile<Value>, t: ValType, op: TestOp) -> Result<Effect, AllocError>
    ensures { IfOk result (λ e. (env : Env) → test env operands.old t op
        ≡ effect_of e env operands.new) }
{
    let Some(operand) = operands.pop() else {
        return Ok(Effect::Stuck);
    };
    give(operands, test_value(t, op, operand))
}

fn compare_value(
    t: ValType,
    op: RelationOp,
    first: Value,
    second: Value,
) -> Option<Result<Value, Trap>>
    ensures { (env : Env) (rest : List AnyValue)
        → compare env (second ∷ first ∷ rest) t op ≡ given_by env result rest }
{
    match (t, first, second) {
        (ValType::I32, Value::I32(_), Value::I32(_))
        | (ValType::I64, Value::I64(_), Value::I64(_)) => {
            Some(integers::compare(op, first, second))
        }
        _ => None,
    }
}

/// A comparison of two operands (4.4.1).
#[tactic(auto, using(crate::proofs::NumericLemmas::one_of_two))]
pub fn compare(operands: &mut Pile<Value>, t: ValType, op: RelationOp) -> Result<Effect, AllocError>
    ensures { IfOk result (λ e. (env : Env) → compare env operands.old t op
        ≡ effect_of e env operands.new) }
{
    let Some(second) = operands.pop() else {
        return Ok(Effect::Stuck);
    };
    let Some(first) = operands.pop() else {
        return Ok(Effect::Stuck);
    };
    give(operands, compare_value(t, op, first, second))
}

fn convert_value(op: ConvertOp, operand: Value) -> Option<Result<Value, Trap>>
    ensures { (env : Env) (rest : List AnyValue)
        → convert env (operand ∷ rest) op ≡ given_by env result rest }
{
    match (op, operand) {
        (ConvertOp::ExtendS | ConvertOp::ExtendU, Value::I32(_))
        | (ConvertOp::I32From8S | ConvertOp::I32From16S, Value::I32(_))
        | (ConvertOp::Wrap, Value::I64(_))
        | (ConvertOp::I64From8S | ConvertOp::I64From16S, Value::I64(_))
        | (ConvertOp::I64From32S, Value::I64(_)) => Some(integers::convert(op, operand)),
        _ => None,
    }
}

/// A conversion of an operand (4.4.1).
#[tactic(auto, using(crate::proofs::NumericLemmas::converts_none))]
pub fn convert(operands: &mut Pile<Value>, op: ConvertOp) -> Result<Effect, AllocError>
    ensures { IfOk result (λ e. (env : Env) → convert env operands.old op
        ≡ effect_of e env operands.new) }
{
    let Some(operand) = operands.pop() else {
        return Ok(Effect::Stuck);
    };
    give(operands, convert_value(op, operand))
}

/// A value more (4.4.1).
pub fn constant(operands: &mut Pile<Value>, value: Value) -> Result<Effect, AllocError>
    ensures { IfOk result (λ e. (env : Env) → gives env (value ∷ operands.old)
        ≡ effect_of e env operands.new) }
{
    operands.push(value)?;
    Ok(Effect::Done)
}

/// `drop` (4.4.2).
pub fn discard(operands: &mut Pile<Value>) -> Effect
    ensures { (env : Env) → discard env operands.old ≡ effect_of result env operands.new }
{
    match operands.pop() {
        Some(_) => Effect::Done,
        None => Effect::Stuck,
    }
}

/// `select` (4.4.2).
#[tactic(auto, using(crate::proofs::NumericLemmas::selects_by_none, crate::proofs::NumericLemmas::selects_of_none, crate::proofs::NumericLemmas::selects_of_one))]
pub fn select(operands: &mut Pile<Value>) -> Result<Effect, AllocError>
    ensures { IfOk result (λ e. (env : Env) → select env operands.old
        ≡ effect_of e env operands.new) }
{
    let Some(condition) = take_i32(operands) else {
        return Ok(Effect::Stuck);
    };
    let Some(second) = operands.pop() else {
        return Ok(Effect::Stuck);
    };
    let Some(first) = operands.pop() else {
        return Ok(Effect::Stuck);
    };
    operands.push(if condition == 0 { second } else { first })?;
    Ok(Effect::Done)
}
