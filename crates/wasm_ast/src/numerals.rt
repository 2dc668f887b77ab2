//! Numbers in decimal digits, as the text format writes them (6.3.1).

ghost use Rattle.std.specs.Prelude.{◌≡◌, ◌++◌, OnOk, decimal, string_bytes};
ghost use Rattle.wasm_ast.specs.Numerals.{signed};

use itoa::Buffer;
use std::alloc::AllocError;

/// Pushes a number.
pub fn push_decimal(out: &mut String, number: u64) -> Result<(), AllocError>
    ensures { OnOk result (string_bytes out.new ≡ string_bytes out.old ++ decimal number) }
{
    let mut buffer = Buffer::new();
    out.push_str(buffer.format(number))
}

/// Pushes the constant of 32 bits whose two's complement is this number, with its sign if it is negative.
pub fn push_signed32(out: &mut String, number: u32) -> Result<(), AllocError>
    ensures { OnOk result (string_bytes out.new ≡ string_bytes out.old ++ signed 32 number) }
{
    if number < 1 << 31 {
        return push_decimal(out, u64::from(number));
    }
    out.push_str("-")?;
    push_decimal(out, (1 << 32) - u64::from(number))
}

/// Pushes the constant of 64 bits whose two's complement is this number, with its sign if it is negative.
pub fn push_signed64(out: &mut String, number: u64) -> Result<(), AllocError>
    ensures { OnOk result (string_bytes out.new ≡ string_bytes out.old ++ signed 64 number) }
{
    if number < 1 << 63 {
        return push_decimal(out, number);
    }
    out.push_str("-")?;
    push_decimal(out, u64::MAX - number + 1)
}
