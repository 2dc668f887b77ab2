//! The operators on values (4.4.1).

ghost use Rattle.std.specs.Prelude.{◌≡◌, ℕ, Ok};
ghost use Rattle.std.specs.Int.{w32, w64};
ghost use Rattle.wasm_ast.specs.Types.{type_of, value_of, source_of, target_of};
ghost use Rattle.int_ops.specs.Integers.{binary, compare, converted};
ghost use Rattle.int_ops.specs.Values.{truth, unary_value, test_value, value_32, value_64};

use crate::conversions::{
    extend_s, extend_u, extend8_32, extend8_64, extend16_32, extend16_64, extend32_64, wrap,
};
use crate::ops_32::{binary_32, compare_32, test_32, unary_32};
use crate::ops_64::{binary_64, compare_64, test_64, unary_64};
use wasm_ast::{BinaryOp, ConvertOp, RelationOp, TestOp, Trap, UnaryOp, Value};

fn truth(holds: bool) -> Value
    ensures { result ≡ truth holds }
{
    if holds { Value::I32(1) } else { Value::I32(0) }
}

/// The result of an operator with one operand, of its type; never a trap.
pub fn unary(op: UnaryOp, operand: Value) -> Result<Value, Trap>
    ensures { result ≡ Ok (unary_value op operand) }
{
    match operand {
        Value::I32(a) => Ok(Value::I32(unary_32(op, a))),
        Value::I64(a) => Ok(Value::I64(unary_64(op, a))),
    }
}

/// The result of an operator with two operands of one type, of that type; `IntegerDivideByZero` or
/// `IntegerOverflow` of a division or remainder.
pub fn binary(op: BinaryOp, first: Value, second: Value) -> Result<Value, Trap>
    requires { type_of first ≡ type_of second }
    ensures i32 { (a b : ℕ) → first ≡ Value.I32 a → second ≡ Value.I32 b
        → result ≡ value_32 (binary w32 op a b) }
    ensures i64 { (a b : ℕ) → first ≡ Value.I64 a → second ≡ Value.I64 b
        → result ≡ value_64 (binary w64 op a b) }
{
    match (first, second) {
        (Value::I32(a), Value::I32(b)) => Ok(Value::I32(binary_32(op, a, b)?)),
        (Value::I64(a), Value::I64(b)) => Ok(Value::I64(binary_64(op, a, b)?)),
        _ => unreachable!(),
    }
}

/// The i32 1 or 0 of a test; never a trap.
pub fn test(op: TestOp, operand: Value) -> Result<Value, Trap>
    ensures { result ≡ Ok (test_value op operand) }
{
    match operand {
        Value::I32(a) => Ok(truth(test_32(op, a))),
        Value::I64(a) => Ok(truth(test_64(op, a))),
    }
}

/// The i32 1 or 0 of a comparison of two operands of one type; never a trap.
pub fn compare(op: RelationOp, first: Value, second: Value) -> Result<Value, Trap>
    requires { type_of first ≡ type_of second }
    ensures i32 { (a b : ℕ) → first ≡ Value.I32 a → second ≡ Value.I32 b
        → result ≡ Ok (truth (compare w32 op a b)) }
    ensures i64 { (a b : ℕ) → first ≡ Value.I64 a → second ≡ Value.I64 b
        → result ≡ Ok (truth (compare w64 op a b)) }
{
    match (first, second) {
        (Value::I32(a), Value::I32(b)) => Ok(truth(compare_32(op, a, b))),
        (Value::I64(a), Value::I64(b)) => Ok(truth(compare_64(op, a, b))),
        _ => unreachable!(),
    }
}

/// The operand in the other width, or by the sign of its low bits; never a trap.
pub fn convert(op: ConvertOp, operand: Value) -> Result<Value, Trap>
    requires { type_of operand ≡ source_of op }
    ensures converts { (a : ℕ) → operand ≡ value_of (source_of op) a
        → result ≡ Ok (value_of (target_of op) (converted op a)) }
{
    match (op, operand) {
        (ConvertOp::Wrap, Value::I64(a)) => Ok(Value::I32(wrap(a))),
        (ConvertOp::ExtendS, Value::I32(a)) => Ok(Value::I64(extend_s(a))),
        (ConvertOp::ExtendU, Value::I32(a)) => Ok(Value::I64(extend_u(a))),
        (ConvertOp::I32From8S, Value::I32(a)) => Ok(Value::I32(extend8_32(a))),
        (ConvertOp::I32From16S, Value::I32(a)) => Ok(Value::I32(extend16_32(a))),
        (ConvertOp::I64From8S, Value::I64(a)) => Ok(Value::I64(extend8_64(a))),
        (ConvertOp::I64From16S, Value::I64(a)) => Ok(Value::I64(extend16_64(a))),
        (ConvertOp::I64From32S, Value::I64(a)) => Ok(Value::I64(extend32_64(a))),
        _ => unreachable!(),
    }
}
