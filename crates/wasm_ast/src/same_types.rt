//! Whether types are the same.

ghost use Rattle.std.specs.Prelude.{◌≡◌};
ghost use Rattle.wasm_ast.specs.Types.{is_same_type, are_same_types};

use crate::values::ValType;

/// Whether two types are the same. In a loop over this the compiler compares the numbers of many
/// variants at once, with half of the work that a match would be.
pub fn is_same_type(left: ValType, right: ValType) -> bool
    ensures { result ≡ is_same_type left right }
{
    left as u8 == right as u8
}

/// Whether two lists of types are the same. The loop goes on where two types differ, since the compiler
/// then compares many of them at once.
pub fn are_same_types(types: &[ValType], others: &[ValType]) -> bool
    ensures { result ≡ are_same_types types.now others.now }
{
    if types.len() != others.len() {
        return false;
    }
    let mut same = true;
    for (i, val_type) in types.iter().enumerate() {
        same &= is_same_type(*val_type, others[i]);
    }
    same
}
