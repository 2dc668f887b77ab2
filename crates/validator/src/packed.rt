//! Long lists of types with eight types in a byte. Two lists are compared from any two places on, so there
//! are eight rows of bytes, one for each place among eight.

ghost use Rattle.std.specs.Prelude.{◌≡◌, ◌+◌, ◌≤◌, ◌<◌, IfOk, OnOk, length, take, drop};
ghost use Rattle.validator.specs.Inside.Packed.{bit, packed, IsRow, AreRows, AreOfType, AreOfTypes};

use crate::rows::Row;
use std::alloc::{AllocError, Global};
use wasm_ast::{FuncType, ValType};

/// The types in a byte.
pub const PACKED: usize = 8;

/// A list with fewer types is not packed.
pub const LONG: usize = 1_024;

/// Parameters of a type, packed.
#[derive(Drop)]
pub struct PackedParams {
    /// The index of the type.
    pub of: usize,
    /// The parameters from the first one on, from the second one on, and so on.
    pub rows: Vec<Row>,
}

// The bit of a type.
#[inline(always)]
fn bit(val_type: ValType) -> u8
    ensures bit { result ≡ bit val_type }
    ensures within { result ≤ 1 }
{
    match val_type {
        ValType::I32 => 0,
        ValType::I64 => 1,
    }
}

// Four types in four bits.
fn half(types: &[ValType], at: usize) -> u8
    requires { at + 4 ≤ length types.now }
    ensures half { result ≡ packed (take 4 (drop at types.now)) }
    ensures within { result < 16 }
{
    bit(types[at]) + 2 * (bit(types[at + 1]) + 2 * (bit(types[at + 2]) + 2 * bit(types[at + 3])))
}

// Eight types in a byte.
fn byte(types: &[ValType], at: usize) -> u8
    requires { at + 8 ≤ length types.now }
    ensures { result ≡ packed (take 8 (drop at types.now)) }
{
    half(types, at) + 16 * half(types, at + 4)
}

// The types of a list, eight in each byte, as far as there are eight. An error if memory runs out.
fn row_of(alloc: Global, types: &[ValType]) -> Result<Vec<u8>, AllocError>
    ensures { IfOk result (λ row. IsRow row.items types.now) }
{
    let count = types.len() / PACKED;
    let mut row = Vec::with_capacity(alloc, count)?;
    for i in 0..count {
        row.push(byte(types, PACKED * i))?;
    }
    Ok(row)
}

// The rows of a list; none if it is short. An error if memory runs out.
fn rows_of(alloc: Global, types: &[ValType]) -> Result<Vec<Row>, AllocError>
    ensures { IfOk result (λ rows. AreRows rows.items types.now) }
{
    if types.len() < LONG {
        return Ok(Vec::new(alloc));
    }
    let mut rows = Vec::with_capacity(alloc, PACKED)?;
    for first in 0..PACKED {
        let row = row_of(alloc, &types[first..])?;
        rows.push(Row::new(row))?;
    }
    Ok(rows)
}

// The parameters of one of these types, packed. An error if memory runs out.
fn packed_at(alloc: Global, types: &[FuncType], of: usize) -> Result<PackedParams, AllocError>
    requires { of < length types.now }
    ensures { IfOk result (λ p. AreOfType types.now p) }
{
    let rows = rows_of(alloc, types[of].params.as_slice())?;
    Ok(PackedParams { of, rows })
}

// Adds the parameters of one of these types, if they are many. An error if memory runs out.
fn add(
    alloc: Global,
    types: &[FuncType],
    of: usize,
    packed: &mut Vec<PackedParams>,
) -> Result<(), AllocError>
    requires at { of < length types.now }
    requires others { AreOfTypes types.now packed.old.items }
    ensures { OnOk result (AreOfTypes types.now packed.new.items) }
{
    if types[of].params.len() < LONG {
        return Ok(());
    }
    let one = packed_at(alloc, types, of)?;
    packed.push(one)?;
    Ok(())
}

/// The long lists of parameters among these types, packed. An error if memory runs out; none is taken if
/// there is no such list.
pub fn packed_params(alloc: Global, types: &[FuncType]) -> Result<Vec<PackedParams>, AllocError>
    ensures { IfOk result (λ ps. AreOfTypes types.now ps.items) }
{
    let mut packed = Vec::new(alloc);
    for of in 0..types.len() {
        add(alloc, types, of, &mut packed)?;
    }
    Ok(packed)
}
