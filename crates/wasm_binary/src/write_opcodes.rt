//! Which opcode an instruction without a body has (5.4).

ghost use Rattle.std.specs.Prelude.{◌≡◌};
ghost use Rattle.wasm_binary.specs.Opcodes.{local_byte, global_byte, load_byte, store_byte, test_byte, compare_byte, unary_byte, binary_byte, convert_byte, opcode};

use crate::opcodes;
use wasm_ast::{
    BinaryOp, ConvertOp, GlobalOp, LoadOp, LocalOp, RelationOp, Simple, StoreOp, TestOp, UnaryOp,
    ValType, Value,
};

fn local_byte(op: LocalOp) -> u8
    ensures { result ≡ local_byte op }
{
    match op {
        LocalOp::Get => opcodes::LOCAL_GET,
        LocalOp::Set => opcodes::LOCAL_SET,
        LocalOp::Tee => opcodes::LOCAL_TEE,
    }
}

fn global_byte(op: GlobalOp) -> u8
    ensures { result ≡ global_byte op }
{
    match op {
        GlobalOp::Get => opcodes::GLOBAL_GET,
        GlobalOp::Set => opcodes::GLOBAL_SET,
    }
}

fn load_byte(op: LoadOp) -> u8
    ensures { result ≡ load_byte op }
{
    match op {
        LoadOp::I32 => opcodes::I32_LOAD,
        LoadOp::I64 => opcodes::I64_LOAD,
        LoadOp::I32From8S => opcodes::I32_LOAD8_S,
        LoadOp::I32From8U => opcodes::I32_LOAD8_U,
        LoadOp::I32From16S => opcodes::I32_LOAD16_S,
        LoadOp::I32From16U => opcodes::I32_LOAD16_U,
        LoadOp::I64From8S => opcodes::I64_LOAD8_S,
        LoadOp::I64From8U => opcodes::I64_LOAD8_U,
        LoadOp::I64From16S => opcodes::I64_LOAD16_S,
        LoadOp::I64From16U => opcodes::I64_LOAD16_U,
        LoadOp::I64From32S => opcodes::I64_LOAD32_S,
        LoadOp::I64From32U => opcodes::I64_LOAD32_U,
    }
}

fn store_byte(op: StoreOp) -> u8
    ensures { result ≡ store_byte op }
{
    match op {
        StoreOp::I32 => opcodes::I32_STORE,
        StoreOp::I64 => opcodes::I64_STORE,
        StoreOp::I32To8 => opcodes::I32_STORE8,
        StoreOp::I32To16 => opcodes::I32_STORE16,
        StoreOp::I64To8 => opcodes::I64_STORE8,
        StoreOp::I64To16 => opcodes::I64_STORE16,
        StoreOp::I64To32 => opcodes::I64_STORE32,
    }
}

fn test_byte(val_type: ValType, op: TestOp) -> u8
    ensures { result ≡ test_byte val_type op }
{
    match (val_type, op) {
        (ValType::I32, TestOp::Eqz) => opcodes::I32_EQZ,
        (ValType::I64, TestOp::Eqz) => opcodes::I64_EQZ,
    }
}

// The variants of an operator are in the order of their opcodes, those of each type one after the other.

fn compare_byte(val_type: ValType, op: RelationOp) -> u8
    ensures { result ≡ compare_byte val_type op }
{
    match val_type {
        ValType::I32 => opcodes::I32_EQ + op as u8,
        ValType::I64 => opcodes::I64_EQ + op as u8,
    }
}

fn unary_byte(val_type: ValType, op: UnaryOp) -> u8
    ensures { result ≡ unary_byte val_type op }
{
    match val_type {
        ValType::I32 => opcodes::I32_CLZ + op as u8,
        ValType::I64 => opcodes::I64_CLZ + op as u8,
    }
}

fn binary_byte(val_type: ValType, op: BinaryOp) -> u8
    ensures { result ≡ binary_byte val_type op }
{
    match val_type {
        ValType::I32 => opcodes::I32_ADD + op as u8,
        ValType::I64 => opcodes::I64_ADD + op as u8,
    }
}

fn convert_byte(op: ConvertOp) -> u8
    ensures { result ≡ convert_byte op }
{
    match op {
        ConvertOp::Wrap => opcodes::I32_WRAP_I64,
        ConvertOp::ExtendS => opcodes::I64_EXTEND_I32_S,
        ConvertOp::ExtendU => opcodes::I64_EXTEND_I32_U,
        ConvertOp::I32From8S => opcodes::I32_EXTEND8_S,
        ConvertOp::I32From16S => opcodes::I32_EXTEND16_S,
        ConvertOp::I64From8S => opcodes::I64_EXTEND8_S,
        ConvertOp::I64From16S => opcodes::I64_EXTEND16_S,
        ConvertOp::I64From32S => opcodes::I64_EXTEND32_S,
    }
}

fn const_byte(value: Value) -> u8
    ensures { result ≡ opcode (Simple.Const value) }
{
    match value {
        Value::I32(_) => opcodes::I32_CONST,
        Value::I64(_) => opcodes::I64_CONST,
    }
}

/// The opcode of an instruction.
pub fn opcode(simple: &Simple) -> u8
    ensures { result ≡ opcode simple.now }
{
    match simple {
        Simple::Unreachable => opcodes::UNREACHABLE,
        Simple::Nop => opcodes::NOP,
        Simple::Br(_) => opcodes::BR,
        Simple::BrIf(_) => opcodes::BR_IF,
        Simple::BrTable(_, _) => opcodes::BR_TABLE,
        Simple::Return => opcodes::RETURN,
        Simple::Call(_) => opcodes::CALL,
        Simple::CallIndirect(_) => opcodes::CALL_INDIRECT,
        Simple::Drop => opcodes::DROP,
        Simple::Select => opcodes::SELECT,
        Simple::Local(op, _) => local_byte(*op),
        Simple::Global(op, _) => global_byte(*op),
        Simple::Load(op, _) => load_byte(*op),
        Simple::Store(op, _) => store_byte(*op),
        Simple::MemorySize => opcodes::MEMORY_SIZE,
        Simple::MemoryGrow => opcodes::MEMORY_GROW,
        Simple::Const(constant) => const_byte(constant.value()),
        Simple::Test(val_type, op) => test_byte(*val_type, *op),
        Simple::Compare(val_type, op) => compare_byte(*val_type, *op),
        Simple::Unary(val_type, op) => unary_byte(*val_type, *op),
        Simple::Binary(val_type, op) => binary_byte(*val_type, *op),
        Simple::Convert(op) => convert_byte(*op),
    }
}
