//! The canonical encoding of numbers, names, types, imports and exports (5.2, 5.3, 5.5).

ghost use Rattle.std.specs.Prelude.{◌≡◌, ℕ, ◌+◌, ◌*◌, ◌^◌, ◌<◌, ◌≤◌, ◌++◌, ◌∷◌, [], List, length, OnOk};
ghost use Rattle.std.specs.List.{flat_map};
ghost use Rattle.wasm_binary.specs.Opcodes.{type_byte, kind_byte};
ghost use Rattle.wasm_binary.specs.Canonical.{canon_unsigned, canon_signed, last_signed, is_last_signed, canon_number, canon_vector, canon_sized, canon_name, canon_val_type, canon_func_type, canon_limits, canon_import, canon_export};

use crate::opcodes::{
    FUNC_KIND, FUNC_TYPE, GLOBAL_KIND, I32, I64, MEMORY_KIND, MIN, MIN_MAX, TABLE_KIND,
};
use std::alloc::{AllocError, Global};
use wasm_ast::{Export, ExportKind, FuncType, Import, Limits, Text, ValType};

/// What has a canonical encoding.
pub trait Encode {
    ghost encoding: { Self → List ℕ };

    /// Puts the encoding at the end. The allocator is for what a size precedes.
    fn put(&self, alloc: Global, out: &mut Vec<u8>) -> Result<(), AllocError>
        ensures { OnOk result (out.new.items ≡ out.old.items ++ encoding self.now) };
}

#[tactic(auto, unfolding(crate::specs::Canonical::canon_unsigned))]
fn put_unsigned(out: &mut Vec<u8>, more: u32, n: u64) -> Result<(), AllocError>
    requires { n < 128 ^ (more + 1) }
    ensures { OnOk result (out.new.items ≡ out.old.items ++ canon_unsigned more n) }
{
    if more == 0 || n < 128 {
        out.push(n as u8)?;
        return Ok(());
    }
    out.push(128 + (n % 128) as u8)?;
    put_unsigned(out, more - 1, n / 128)
}

/// Puts an unsigned number at the end.
pub fn put_number(out: &mut Vec<u8>, n: u64) -> Result<(), AllocError>
    ensures { OnOk result (out.new.items ≡ out.old.items ++ canon_number n) }
{
    put_unsigned(out, 9, n)
}

fn is_last_signed(bits: u32, n: u64) -> bool
    requires { (bits ≤ 64) × (n < 2 ^ bits) }
    ensures { result ≡ is_last_signed bits n }
{
    let all = 1u128 << bits;
    let n = u128::from(n);
    if 2 * n < all { n < 64 } else { all <= n + 64 }
}

fn last_signed(bits: u32, n: u64) -> u8
    requires { (bits ≤ 64) × (n < 2 ^ bits) × (2 * n < 2 ^ bits → n < 128)
        × (2 ^ bits ≤ 2 * n → 2 ^ bits ≤ n + 128) }
    ensures { result ≡ last_signed bits n }
{
    let all = 1u128 << bits;
    let n = u128::from(n);
    if 2 * n < all {
        n as u8
    } else {
        (n + 128 - all) as u8
    }
}

/// Puts a signed number at the end, which is given as its two's complement in this many bits and
/// takes one byte and at most this many more.
#[tactic(auto, unfolding(crate::specs::Canonical::canon_signed))]
pub fn put_signed(out: &mut Vec<u8>, more: u32, bits: u32, n: u64) -> Result<(), AllocError>
    requires { (0 < bits) × (bits ≤ 64) × (bits ≤ 7 * more + 7) × (n < 2 ^ bits) }
    ensures { OnOk result (out.new.items ≡ out.old.items ++ canon_signed more bits n) }
{
    if is_last_signed(bits, n) {
        out.push(last_signed(bits, n))?;
        return Ok(());
    }
    if more == 0 {
        out.push(last_signed(bits, n))?;
        return Ok(());
    }
    out.push(128 + (n % 128) as u8)?;
    put_signed(out, more - 1, bits - 7, n / 128)
}

/// Puts a part at the end, after its size.
pub fn put_sized(out: &mut Vec<u8>, part: &[u8]) -> Result<(), AllocError>
    ensures { OnOk result (out.new.items ≡ out.old.items ++ canon_sized part.now) }
{
    put_number(out, part.len() as u64)?;
    out.extend_from_slice(part)
}

/// Puts a vector at the end: the count, and each item in order.
pub fn put_vector<T: Encode>(
    alloc: Global,
    out: &mut Vec<u8>,
    items: &[T],
) -> Result<(), AllocError>
    ensures { OnOk result (out.new.items ≡ out.old.items ++ canon_vector T.encoding items.now) }
{
    put_number(out, items.len() as u64)?;
    for item in items {
        item.put(alloc, out)?;
    }
    Ok(())
}

fn type_byte(t: ValType) -> u8
    ensures { result ≡ type_byte t }
{
    match t {
        ValType::I32 => I32,
        ValType::I64 => I64,
    }
}

/// Puts the type of a value at the end.
pub fn put_val_type(out: &mut Vec<u8>, t: ValType) -> Result<(), AllocError>
    ensures { OnOk result (out.new.items ≡ out.old.items ++ canon_val_type t) }
{
    out.push(type_byte(t))?;
    Ok(())
}

/// Limits, and so a memory.
impl Encode for Limits {
    ghost encoding = { canon_limits };

    fn put(&self, _alloc: Global, out: &mut Vec<u8>) -> Result<(), AllocError> {
        match self.max {
            None => {
                out.push(MIN)?;
                put_number(out, u64::from(self.min))
            }
            Some(max) => {
                out.push(MIN_MAX)?;
                put_number(out, u64::from(self.min))?;
                put_number(out, u64::from(max))
            }
        }
    }
}

fn put_name(out: &mut Vec<u8>, text: &Text) -> Result<(), AllocError>
    ensures { OnOk result (out.new.items ≡ out.old.items ++ canon_name text.now) }
{
    put_sized(out, text.as_str().as_bytes())
}

/// An index (5.5.1).
impl Encode for u32 {
    ghost encoding = { canon_number };

    fn put(&self, _alloc: Global, out: &mut Vec<u8>) -> Result<(), AllocError> {
        put_number(out, u64::from(*self))
    }
}

impl Encode for ValType {
    ghost encoding = { canon_val_type };

    fn put(&self, _alloc: Global, out: &mut Vec<u8>) -> Result<(), AllocError> {
        put_val_type(out, *self)
    }
}

impl Encode for FuncType {
    ghost encoding = { canon_func_type };

    fn put(&self, alloc: Global, out: &mut Vec<u8>) -> Result<(), AllocError> {
        out.push(FUNC_TYPE)?;
        put_vector(alloc, out, self.params.as_slice())?;
        put_vector(alloc, out, self.results.as_slice())
    }
}

impl Encode for Import {
    ghost encoding = { canon_import };

    fn put(&self, _alloc: Global, out: &mut Vec<u8>) -> Result<(), AllocError> {
        put_name(out, &self.module)?;
        put_name(out, &self.name)?;
        out.push(FUNC_KIND)?;
        put_number(out, u64::from(self.type_index))
    }
}

fn kind_byte(kind: ExportKind) -> u8
    ensures { result ≡ kind_byte kind }
{
    match kind {
        ExportKind::Func => FUNC_KIND,
        ExportKind::Table => TABLE_KIND,
        ExportKind::Memory => MEMORY_KIND,
        ExportKind::Global => GLOBAL_KIND,
    }
}

impl Encode for Export {
    ghost encoding = { canon_export };

    fn put(&self, _alloc: Global, out: &mut Vec<u8>) -> Result<(), AllocError> {
        put_name(out, &self.name)?;
        out.push(kind_byte(self.kind))?;
        put_number(out, u64::from(self.index))
    }
}
