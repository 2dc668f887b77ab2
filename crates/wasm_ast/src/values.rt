//! Values and their types (2.3, 4.2.1).

ghost use Rattle.std.specs.Prelude.{◌≡◌};
ghost use Rattle.wasm_ast.specs.Ranged.{RangedValue};

use crate::sequence::Sequence;

/// The type of a value (2.3.1).
#[derive(Clone, Copy, PartialEq, Eq, Debug)]
pub enum ValType {
    I32,
    I64,
}

/// A value (4.2.1): a number below 2^32 or below 2^64, whose sign is a matter of each operator.
#[derive(Clone, Copy, PartialEq, Eq, Debug)]
pub enum Value {
    I32(u32),
    I64(u64),
}

impl Value {
    /// Shows that the number is in the range of its type.
    pub fn ranged(&self)
        ensures { RangedValue self.now }
    {
        match self {
            Value::I32(n) => {
                let _in_range = *n;
            }
            Value::I64(n) => {
                let _in_range = *n;
            }
        }
    }
}

/// The type of a function (2.3.3): what it takes and what it gives, each in order.
#[derive(Drop)]
pub struct FuncType {
    pub params: Sequence<ValType>,
    pub results: Sequence<ValType>,
}
