//! Whether types are the same.

ghost use Rattle.std.specs.Prelude.{◌≡◌, IsTrue};
ghost use Rattle.validator.specs.Inside.Algorithm.{can_be};

use wasm_ast::{ValType, is_same_type};

/// Whether an operand can be of this type.
pub fn can_be(expected: ValType, operand: Option<ValType>) -> bool
    ensures { result ≡ can_be expected operand }
{
    match operand {
        None => true,
        Some(known) => is_same_type(expected, known),
    }
}

/// Whether these are surely the same bytes. The loop goes on where two differ, since the
/// compiler then compares many of them at once.
pub fn are_same_bytes(bytes: &[u8], others: &[u8]) -> bool
    ensures { IsTrue result → bytes.now ≡ others.now }
{
    if bytes.len() != others.len() {
        return false;
    }
    let mut same = true;
    for (i, byte) in bytes.iter().enumerate() {
        same &= *byte == others[i];
    }
    same
}
