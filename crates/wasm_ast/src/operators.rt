//! Operators on integers (2.4.1), whose width is given beside them, and accesses to memory (2.4.4).

/// An operator with one operand, and a result of its type.
#[derive(Clone, Copy, PartialEq, Eq, Debug)]
pub enum UnaryOp {
    Clz,
    Ctz,
    Popcnt,
}

/// An operator with two operands, and a result of their type.
#[derive(Clone, Copy, PartialEq, Eq, Debug)]
pub enum BinaryOp {
    Add,
    Sub,
    Mul,
    DivS,
    DivU,
    RemS,
    RemU,
    And,
    Or,
    Xor,
    Shl,
    ShrS,
    ShrU,
    Rotl,
    Rotr,
}

/// A test of one operand, with an i32 as its result.
#[derive(Clone, Copy, PartialEq, Eq, Debug)]
pub enum TestOp {
    Eqz,
}

/// A comparison of two operands, with an i32 as its result.
#[derive(Clone, Copy, PartialEq, Eq, Debug)]
pub enum RelationOp {
    Eq,
    Ne,
    LtS,
    LtU,
    GtS,
    GtU,
    LeS,
    LeU,
    GeS,
    GeU,
}

/// A conversion: from one width to the other, or of a type to itself by the sign of its low bits (the latter
/// are of Core 2.0, 2.4.1).
#[derive(Clone, Copy, PartialEq, Eq, Debug)]
pub enum ConvertOp {
    /// `i32.wrap_i64`
    Wrap,
    /// `i64.extend_i32_s`
    ExtendS,
    /// `i64.extend_i32_u`
    ExtendU,
    /// `i32.extend8_s`
    I32From8S,
    /// `i32.extend16_s`
    I32From16S,
    /// `i64.extend8_s`
    I64From8S,
    /// `i64.extend16_s`
    I64From16S,
    /// `i64.extend32_s`
    I64From32S,
}

/// A load from memory (2.4.4): the type of its result and, if it reads fewer bytes than that type has, how
/// many bits, and whether they are extended by the sign or by zeros.
#[derive(Clone, Copy, PartialEq, Eq, Debug)]
pub enum LoadOp {
    I32,
    I64,
    I32From8S,
    I32From8U,
    I32From16S,
    I32From16U,
    I64From8S,
    I64From8U,
    I64From16S,
    I64From16U,
    I64From32S,
    I64From32U,
}

/// A store to memory (2.4.4): the type of its operand and, if it writes fewer bytes than that type has, how
/// many bits.
#[derive(Clone, Copy, PartialEq, Eq, Debug)]
pub enum StoreOp {
    I32,
    I64,
    I32To8,
    I32To16,
    I64To8,
    I64To16,
    I64To32,
}
