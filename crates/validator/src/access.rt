//! What instructions of memory access (2.4.4), and the types of values and conversions.

ghost use Rattle.std.specs.Prelude.{◌≡◌, ◌≤◌, ◌^◌, nat_le};
ghost use Rattle.wasm_ast.specs.Types.{type_of, source_of, target_of};
ghost use Rattle.wasm_ast.specs.Access.{load_type, load_bytes, store_type, store_bytes};

use wasm_ast::{ConvertOp, LoadOp, StoreOp, ValType, Value};

/// The type that a load gives.
pub fn load_type(op: LoadOp) -> ValType
    ensures { result ≡ load_type op }
{
    match op {
        LoadOp::I32
        | LoadOp::I32From8S
        | LoadOp::I32From8U
        | LoadOp::I32From16S
        | LoadOp::I32From16U => ValType::I32,
        LoadOp::I64
        | LoadOp::I64From8S
        | LoadOp::I64From8U
        | LoadOp::I64From16S
        | LoadOp::I64From16U
        | LoadOp::I64From32S
        | LoadOp::I64From32U => ValType::I64,
    }
}

/// How many bytes a load reads.
pub fn load_bytes(op: LoadOp) -> u32
    ensures bytes { result ≡ load_bytes op }
    ensures most { result ≤ 8 }
{
    match op {
        LoadOp::I32From8S | LoadOp::I32From8U | LoadOp::I64From8S | LoadOp::I64From8U => 1,
        LoadOp::I32From16S | LoadOp::I32From16U | LoadOp::I64From16S | LoadOp::I64From16U => 2,
        LoadOp::I32 | LoadOp::I64From32S | LoadOp::I64From32U => 4,
        LoadOp::I64 => 8,
    }
}

/// The type that a store takes.
pub fn store_type(op: StoreOp) -> ValType
    ensures { result ≡ store_type op }
{
    match op {
        StoreOp::I32 | StoreOp::I32To8 | StoreOp::I32To16 => ValType::I32,
        StoreOp::I64 | StoreOp::I64To8 | StoreOp::I64To16 | StoreOp::I64To32 => ValType::I64,
    }
}

/// How many bytes a store writes.
pub fn store_bytes(op: StoreOp) -> u32
    ensures bytes { result ≡ store_bytes op }
    ensures most { result ≤ 8 }
{
    match op {
        StoreOp::I32To8 | StoreOp::I64To8 => 1,
        StoreOp::I32To16 | StoreOp::I64To16 => 2,
        StoreOp::I32 | StoreOp::I64To32 => 4,
        StoreOp::I64 => 8,
    }
}

/// Whether an access to this many bytes may have this exponent as its alignment (3.3.4).
pub fn is_aligned(align: u32, bytes: u32) -> bool
    requires { bytes ≤ 8 }
    ensures { result ≡ nat_le (2 ^ align) bytes }
{
    align < 4 && 1 << align <= bytes
}

/// The type of a value.
pub fn type_of(value: Value) -> ValType
    ensures { result ≡ type_of value }
{
    match value {
        Value::I32(_) => ValType::I32,
        Value::I64(_) => ValType::I64,
    }
}

/// The type that a conversion takes.
pub fn source_of(op: ConvertOp) -> ValType
    ensures { result ≡ source_of op }
{
    match op {
        ConvertOp::ExtendS | ConvertOp::ExtendU | ConvertOp::I32From8S | ConvertOp::I32From16S =>
            ValType::I32,
        ConvertOp::Wrap | ConvertOp::I64From8S | ConvertOp::I64From16S | ConvertOp::I64From32S =>
            ValType::I64,
    }
}

/// The type that a conversion gives.
pub fn target_of(op: ConvertOp) -> ValType
    ensures { result ≡ target_of op }
{
    match op {
        ConvertOp::Wrap | ConvertOp::I32From8S | ConvertOp::I32From16S => ValType::I32,
        ConvertOp::ExtendS
        | ConvertOp::ExtendU
        | ConvertOp::I64From8S
        | ConvertOp::I64From16S
        | ConvertOp::I64From32S => ValType::I64,
    }
}
