//! What is proved of the definitions themselves: each function does nothing, and its contract is the law. The
//! numbers are the edges of both widths.

ghost use Rattle.std.specs.Prelude.{◌≡◌, ◌^◌, ◌-◌, Ok, Err, true, false};
ghost use Rattle.std.specs.Int.{w8, w16, w32, w64};
ghost use Rattle.int_ops.specs.Integers.{unary, binary, test, compare, wrap, extend_s, extend_u, extend_low};
ghost use Rattle.wasm_ast.specs.declared.trap.Trap.TheVariants.{IntegerDivideByZero, IntegerOverflow};
ghost use Rattle.wasm_ast.specs.declared.operators.UnaryOp.TheVariants.{Clz, Ctz, Popcnt};
ghost use Rattle.wasm_ast.specs.declared.operators.BinaryOp.TheVariants.{Add, Sub, Mul, DivS, DivU, RemS, RemU, And, Or, Xor, Shl, ShrS, ShrU, Rotl, Rotr};
ghost use Rattle.wasm_ast.specs.declared.operators.TestOp.TheVariants.{Eqz};
ghost use Rattle.wasm_ast.specs.declared.operators.RelationOp.TheVariants.{Eq, Ne, LtS, LtU, GtS, GtU, LeS, LeU, GeS, GeU};

/// Sums, differences and products wrap.
pub fn arithmetic_wraps()
    ensures add { binary w32 Add 4294967295 2 ≡ Ok 1 }
    ensures sub { binary w32 Sub 1 2 ≡ Ok 4294967295 }
    ensures mul { binary w32 Mul 65536 65536 ≡ Ok 0 }
    ensures add_64 { binary w64 Add 18446744073709551615 2 ≡ Ok 1 }
    ensures sub_64 { binary w64 Sub 0 1 ≡ Ok 18446744073709551615 }
{}

/// Divisions at their edges.
pub fn divisions_round_toward_zero()
    ensures by_zero { binary w32 DivS 1 0 ≡ Err IntegerDivideByZero }
    ensures too_large { binary w32 DivS 2147483648 4294967295 ≡ Err IntegerOverflow }
    ensures negative { binary w32 DivS 4294967289 2 ≡ Ok 4294967293 }
    ensures unsigned_quotient { binary w32 DivU 4294967289 2 ≡ Ok 2147483644 }
    ensures unsigned_by_zero { binary w32 DivU 1 0 ≡ Err IntegerDivideByZero }
    ensures remainder { binary w32 RemS 4294967289 2 ≡ Ok 4294967295 }
    ensures least_remainder { binary w32 RemS 2147483648 4294967295 ≡ Ok 0 }
    ensures remainder_by_zero { binary w32 RemS 1 0 ≡ Err IntegerDivideByZero }
    ensures unsigned_remainder { binary w32 RemU 4294967289 2 ≡ Ok 1 }
    ensures unsigned_remainder_by_zero { binary w32 RemU 1 0 ≡ Err IntegerDivideByZero }
    ensures too_large_64 { binary w64 DivS 9223372036854775808 18446744073709551615
        ≡ Err IntegerOverflow }
{}

/// Shifts and rotations by the width and beyond.
pub fn distances_are_taken_modulo_the_width()
    ensures shl { binary w32 Shl 1 33 ≡ Ok 2 }
    ensures shl_out { binary w32 Shl 2147483648 1 ≡ Ok 0 }
    ensures shr_s { binary w32 ShrS 2147483648 31 ≡ Ok 4294967295 }
    ensures shr_u { binary w32 ShrU 2147483648 63 ≡ Ok 1 }
    ensures rotl { binary w32 Rotl 1 33 ≡ Ok 2 }
    ensures rotl_over { binary w32 Rotl 2147483649 1 ≡ Ok 3 }
    ensures rotr { binary w32 Rotr 1 1 ≡ Ok 2147483648 }
    ensures shl_64 { binary w64 Shl 1 65 ≡ Ok 2 }
{}

/// Bits one by one.
pub fn bits_are_bits()
    ensures and { binary w32 And 12 10 ≡ Ok 8 }
    ensures or { binary w32 Or 12 10 ≡ Ok 14 }
    ensures xor { binary w32 Xor 12 10 ≡ Ok 6 }
    ensures clz { unary w32 Clz 0 ≡ 32 }
    ensures clz_one { unary w32 Clz 1 ≡ 31 }
    ensures ctz { unary w64 Ctz 0 ≡ 64 }
    ensures ctz_eight { unary w64 Ctz 8 ≡ 3 }
    ensures popcnt { unary w32 Popcnt 255 ≡ 8 }
{}

/// Comparisons of -1 and 1, signed and unsigned.
pub fn comparisons_have_signs()
    ensures eqz { test Eqz 0 ≡ true }
    ensures eqz_one { test Eqz 1 ≡ false }
    ensures eq { compare w32 Eq 4294967295 1 ≡ false }
    ensures ne { compare w32 Ne 4294967295 1 ≡ true }
    ensures lt_s { compare w32 LtS 4294967295 1 ≡ true }
    ensures lt_u { compare w32 LtU 4294967295 1 ≡ false }
    ensures gt_s { compare w32 GtS 4294967295 1 ≡ false }
    ensures gt_u { compare w32 GtU 4294967295 1 ≡ true }
    ensures le_s { compare w32 LeS 1 1 ≡ true }
    ensures le_u { compare w32 LeU 4294967295 1 ≡ false }
    ensures ge_s { compare w32 GeS 4294967295 1 ≡ false }
    ensures ge_u { compare w32 GeU 1 1 ≡ true }
    ensures lt_s_equal { compare w32 LtS 1 1 ≡ false }
    ensures gt_u_equal { compare w32 GtU 1 1 ≡ false }
{}

/// Conversions keep the number, signed or unsigned, or its lower half.
pub fn conversions_keep_numbers()
    ensures wrap { wrap 4294967297 ≡ 1 }
    ensures extend_s { extend_s 4294967295 ≡ 18446744073709551615 }
    ensures extend_s_positive { extend_s 2147483647 ≡ 2147483647 }
    ensures extend_u { extend_u 4294967295 ≡ 4294967295 }
{}

/// Sign extensions on both sides of the sign bit; bits above the low ones are not read.
pub fn low_bits_are_read_as_signed()
    ensures positive_8 { extend_low w8 w32 127 ≡ 127 }
    ensures negative_8 { extend_low w8 w32 128 ≡ 4294967168 }
    ensures all_ones_8 { extend_low w8 w32 255 ≡ 4294967295 }
    ensures above_8 { extend_low w8 w32 256 ≡ 0 }
    ensures above_negative_8 { extend_low w8 w32 4294967168 ≡ 4294967168 }
    ensures positive_16 { extend_low w16 w32 32767 ≡ 32767 }
    ensures negative_16 { extend_low w16 w32 32768 ≡ 4294934528 }
    ensures above_16 { extend_low w16 w32 65536 ≡ 0 }
    ensures negative_8_64 { extend_low w8 w64 128 ≡ 18446744073709551488 }
    ensures above_8_64 { extend_low w8 w64 4294967296 ≡ 0 }
    ensures negative_16_64 { extend_low w16 w64 32768 ≡ 18446744073709518848 }
    ensures positive_32 { extend_low w32 w64 2147483647 ≡ 2147483647 }
    ensures negative_32 { extend_low w32 w64 2147483648 ≡ 18446744071562067968 }
    ensures above_32 { extend_low w32 w64 4294967296 ≡ 0 }
{}
