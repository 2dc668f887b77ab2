//! The value of a constant instruction (2.4.1).

ghost use Rattle.std.specs.Prelude.{◌≡◌};

use crate::values::{ValType, Value};
use std::marker::Model;

/// The value of `i32.const` or `i64.const`. Contracts see the value.
#[derive(Drop)]
pub struct Constant {
    // A value has 16 bytes, and these have 12, so that an instruction with a constant is no larger than
    // others.
    val_type: ValType,
    low: u32,
    high: u32,
}

impl Model for Constant {
    ghost use Rattle.wasm_ast.specs.declared.values.Value as values;

    ghost Value = { values.Value };

    ghost use Rattle.wasm_ast.specs.Inside.Halves.{value_of};

    ghost view = { λ c. value_of c.val_type c.low c.high };
}

impl Constant {
    /// The constant with this value.
    #[inline(always)]
    pub fn new(value: Value) -> Constant
        ensures { result ≡ value }
    {
        match value {
            Value::I32(number) => Constant {
                val_type: ValType::I32,
                low: number,
                high: 0,
            },
            Value::I64(number) => Constant {
                val_type: ValType::I64,
                low: (number % 0x1_0000_0000) as u32,
                high: (number / 0x1_0000_0000) as u32,
            },
        }
    }

    /// Its value.
    #[inline(always)]
    pub fn value(&self) -> Value
        ensures { result ≡ self.now }
    {
        match self.val_type {
            ValType::I32 => Value::I32(self.low),
            ValType::I64 => Value::I64(u64::from(self.high) * 0x1_0000_0000 + u64::from(self.low)),
        }
    }
}
