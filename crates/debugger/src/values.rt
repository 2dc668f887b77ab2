//! Words as values of their types.

ghost use Rattle.std.specs.Prelude.{◌≡◌, ◌≤◌, All, IfOk, length, drop};
ghost use Rattle.wasm_ast.specs.Ranged.{RangedValue};
ghost use Rattle.wasm_ast.specs.Types.{value_of};
ghost use Rattle.debugger.specs.Inside.Typed.{values_of};

use std::alloc::{AllocError, Global};
use step_machine::FrameWords;
use wasm_ast::{ValType, Value};

// A number, which is in the range of the type, as a value of it.
fn value_of(val_type: ValType, number: u64) -> Value
    requires { RangedValue (value_of val_type number) }
    ensures { result ≡ value_of val_type number }
{
    match val_type {
        ValType::I32 => Value::I32(number as u32),
        ValType::I64 => Value::I64(number),
    }
}

/// The words of a frame from an index on, as many as have types, as values of those. An error if
/// memory runs out.
pub fn values_from(
    alloc: Global,
    frame: &FrameWords<'_>,
    from: usize,
    types: &[ValType],
) -> Result<Vec<Value>, AllocError>
    requires from { from ≤ length frame.now.words }
    requires ranged { All RangedValue (values_of types.now (drop from frame.now.words)) }
    ensures { IfOk result (λ v. v.items ≡ values_of types.now (drop from frame.now.words)) }
{
    let count = types.len().min(frame.len() - from);
    let mut values = Vec::with_capacity(alloc, count)?;
    for index in 0..count {
        values.push(value_of(types[index], frame.word(from + index)))?;
    }
    Ok(values)
}
