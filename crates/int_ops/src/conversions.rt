//! Conversions between the two widths (4.3.4), and of a width to itself by the sign of its low bits
//! (Core 2.0, 4.3.2).

ghost use Rattle.std.specs.Prelude.{◌≡◌};
ghost use Rattle.std.specs.Int.{w8, w16, w32, w64};
ghost use Rattle.int_ops.specs.Integers.{wrap, extend_s, extend_u, extend_low};

/// `i32.wrap_i64`: the lower half.
#[inline(always)]
pub fn wrap(a: u64) -> u32
    ensures { result ≡ wrap a }
{
    (a % 0x1_0000_0000) as u32
}

/// `i64.extend_i32_s`: the same signed number.
#[inline(always)]
pub fn extend_s(a: u32) -> u64
    ensures { result ≡ extend_s a }
{
    i64::from(a.cast_signed()).cast_unsigned()
}

/// `i64.extend_i32_u`: the same number.
#[inline(always)]
pub fn extend_u(a: u32) -> u64
    ensures { result ≡ extend_u a }
{
    u64::from(a)
}

/// `i32.extend8_s`: the signed number of the low 8 bits.
#[inline(always)]
pub fn extend8_32(a: u32) -> u32
    ensures { result ≡ extend_low w8 w32 a }
{
    let low = (a % 0x100) as u8;
    i32::from(low.cast_signed()).cast_unsigned()
}

/// `i32.extend16_s`: the signed number of the low 16 bits.
#[inline(always)]
pub fn extend16_32(a: u32) -> u32
    ensures { result ≡ extend_low w16 w32 a }
{
    let low = (a % 0x1_0000) as u16;
    i32::from(low.cast_signed()).cast_unsigned()
}

/// `i64.extend8_s`: the signed number of the low 8 bits.
#[inline(always)]
pub fn extend8_64(a: u64) -> u64
    ensures { result ≡ extend_low w8 w64 a }
{
    let low = (a % 0x100) as u8;
    i64::from(low.cast_signed()).cast_unsigned()
}

/// `i64.extend16_s`: the signed number of the low 16 bits.
#[inline(always)]
pub fn extend16_64(a: u64) -> u64
    ensures { result ≡ extend_low w16 w64 a }
{
    let low = (a % 0x1_0000) as u16;
    i64::from(low.cast_signed()).cast_unsigned()
}

/// `i64.extend32_s`: the signed number of the low 32 bits.
#[inline(always)]
pub fn extend32_64(a: u64) -> u64
    ensures { result ≡ extend_low w32 w64 a }
{
    i64::from(wrap(a).cast_signed()).cast_unsigned()
}
