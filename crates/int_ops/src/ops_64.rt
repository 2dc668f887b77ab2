//! Operations on u64, each as its definition on whole numbers (4.3.2).

ghost use Rattle.std.specs.Prelude.{◌≡◌};
ghost use Rattle.std.specs.Int.{w64};
ghost use Rattle.int_ops.specs.Integers.{unary, binary, test, compare};

use wasm_ast::{BinaryOp, RelationOp, TestOp, Trap, UnaryOp};

#[inline(always)]
pub fn unary_64(op: UnaryOp, a: u64) -> u64
    ensures { result ≡ unary w64 op a }
{
    match op {
        UnaryOp::Clz => u64::from(a.leading_zeros()),
        UnaryOp::Ctz => u64::from(a.trailing_zeros()),
        UnaryOp::Popcnt => u64::from(a.count_ones()),
    }
}

/// The signed quotient toward zero. `IntegerDivideByZero` by 0, `IntegerOverflow` of the least number by -1.
#[inline(always)]
fn div_s_64(a: u64, b: u64) -> Result<u64, Trap>
    ensures { result ≡ binary w64 BinaryOp.DivS a b }
{
    if b == 0 {
        return Err(Trap::IntegerDivideByZero);
    }
    match a.cast_signed().checked_div(b.cast_signed()) {
        Some(quotient) => Ok(quotient.cast_unsigned()),
        None => Err(Trap::IntegerOverflow),
    }
}

/// The remainder of the signed quotient toward zero; 0 of the least number by -1. `IntegerDivideByZero` by 0.
#[inline(always)]
fn rem_s_64(a: u64, b: u64) -> Result<u64, Trap>
    ensures { result ≡ binary w64 BinaryOp.RemS a b }
{
    if b == 0 {
        return Err(Trap::IntegerDivideByZero);
    }
    Ok(
        a.cast_signed()
            .wrapping_rem(b.cast_signed())
            .cast_unsigned(),
    )
}

/// The result of a binary operator; a trap of divisions and remainders alone.
#[inline(always)]
pub fn binary_64(op: BinaryOp, a: u64, b: u64) -> Result<u64, Trap>
    ensures { result ≡ binary w64 op a b }
{
    match op {
        BinaryOp::Add => Ok(a.wrapping_add(b)),
        BinaryOp::Sub => Ok(a.wrapping_sub(b)),
        BinaryOp::Mul => Ok(a.wrapping_mul(b)),
        BinaryOp::DivS => div_s_64(a, b),
        BinaryOp::DivU => a.checked_div(b).ok_or(Trap::IntegerDivideByZero),
        BinaryOp::RemS => rem_s_64(a, b),
        BinaryOp::RemU => a.checked_rem(b).ok_or(Trap::IntegerDivideByZero),
        BinaryOp::And => Ok(a & b),
        BinaryOp::Or => Ok(a | b),
        BinaryOp::Xor => Ok(a ^ b),
        BinaryOp::Shl => Ok(a.wrapping_shl((b % 64) as u32)),
        BinaryOp::ShrS => Ok(
            a.cast_signed()
                .wrapping_shr((b % 64) as u32)
                .cast_unsigned(),
        ),
        BinaryOp::ShrU => Ok(a.wrapping_shr((b % 64) as u32)),
        BinaryOp::Rotl => Ok(a.rotate_left((b % 64) as u32)),
        BinaryOp::Rotr => Ok(a.rotate_right((b % 64) as u32)),
    }
}

#[inline(always)]
pub fn test_64(op: TestOp, a: u64) -> bool
    ensures { result ≡ test op a }
{
    match op {
        TestOp::Eqz => a == 0,
    }
}

#[inline(always)]
pub fn compare_64(op: RelationOp, a: u64, b: u64) -> bool
    ensures { result ≡ compare w64 op a b }
{
    match op {
        RelationOp::Eq => a == b,
        RelationOp::Ne => a != b,
        RelationOp::LtS => a.cast_signed() < b.cast_signed(),
        RelationOp::LtU => a < b,
        RelationOp::GtS => a.cast_signed() > b.cast_signed(),
        RelationOp::GtU => a > b,
        RelationOp::LeS => a.cast_signed() <= b.cast_signed(),
        RelationOp::LeU => a <= b,
        RelationOp::GeS => a.cast_signed() >= b.cast_signed(),
        RelationOp::GeU => a >= b,
    }
}
