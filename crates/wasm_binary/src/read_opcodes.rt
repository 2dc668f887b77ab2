//! Readers of instructions without bodies, by their opcodes (5.4).

ghost use Rattle.wasm_binary.specs.Inside.Reading.{Gives, read_as, arithmetic_of, comparison_of, read_simple};

use crate::fault::{Fault, ReadError, Spot, What};
use crate::immediates::{
    read_br_table, read_call_indirect, read_const, read_index, read_load, read_reserved, read_store,
};
use crate::opcodes;
use std::alloc::Global;
use wasm_ast::{
    BinaryOp, ConvertOp, GlobalOp, LoadOp, LocalOp, RelationOp, Simple, StoreOp, TestOp, UnaryOp,
    ValType, Value,
};

// Operators.
#[tactic(auto, unfolding(crate::specs::Inside::Reading::arithmetic_of, crate::specs::Inside::Reading::find_opcode, crate::specs::Inside::Reading::read_as, crate::specs::Inside::Reading::read_immediates))]
fn read_arithmetic(opcode: u8, bytes: &[u8]) -> Result<(Simple, &[u8]), ReadError>
    ensures { Gives (λ x. (x.0, x.1.now)) result (read_as (arithmetic_of opcode) bytes.now) }
{
    match opcode {
        opcodes::I32_CLZ => Ok((Simple::Unary(ValType::I32, UnaryOp::Clz), bytes)),
        opcodes::I32_CTZ => Ok((Simple::Unary(ValType::I32, UnaryOp::Ctz), bytes)),
        opcodes::I32_POPCNT => Ok((Simple::Unary(ValType::I32, UnaryOp::Popcnt), bytes)),
        opcodes::I32_ADD => Ok((Simple::Binary(ValType::I32, BinaryOp::Add), bytes)),
        opcodes::I32_SUB => Ok((Simple::Binary(ValType::I32, BinaryOp::Sub), bytes)),
        opcodes::I32_MUL => Ok((Simple::Binary(ValType::I32, BinaryOp::Mul), bytes)),
        opcodes::I32_DIV_S => Ok((Simple::Binary(ValType::I32, BinaryOp::DivS), bytes)),
        opcodes::I32_DIV_U => Ok((Simple::Binary(ValType::I32, BinaryOp::DivU), bytes)),
        opcodes::I32_REM_S => Ok((Simple::Binary(ValType::I32, BinaryOp::RemS), bytes)),
        opcodes::I32_REM_U => Ok((Simple::Binary(ValType::I32, BinaryOp::RemU), bytes)),
        opcodes::I32_AND => Ok((Simple::Binary(ValType::I32, BinaryOp::And), bytes)),
        opcodes::I32_OR => Ok((Simple::Binary(ValType::I32, BinaryOp::Or), bytes)),
        opcodes::I32_XOR => Ok((Simple::Binary(ValType::I32, BinaryOp::Xor), bytes)),
        opcodes::I32_SHL => Ok((Simple::Binary(ValType::I32, BinaryOp::Shl), bytes)),
        opcodes::I32_SHR_S => Ok((Simple::Binary(ValType::I32, BinaryOp::ShrS), bytes)),
        opcodes::I32_SHR_U => Ok((Simple::Binary(ValType::I32, BinaryOp::ShrU), bytes)),
        opcodes::I32_ROTL => Ok((Simple::Binary(ValType::I32, BinaryOp::Rotl), bytes)),
        opcodes::I32_ROTR => Ok((Simple::Binary(ValType::I32, BinaryOp::Rotr), bytes)),
        opcodes::I64_CLZ => Ok((Simple::Unary(ValType::I64, UnaryOp::Clz), bytes)),
        opcodes::I64_CTZ => Ok((Simple::Unary(ValType::I64, UnaryOp::Ctz), bytes)),
        opcodes::I64_POPCNT => Ok((Simple::Unary(ValType::I64, UnaryOp::Popcnt), bytes)),
        opcodes::I64_ADD => Ok((Simple::Binary(ValType::I64, BinaryOp::Add), bytes)),
        opcodes::I64_SUB => Ok((Simple::Binary(ValType::I64, BinaryOp::Sub), bytes)),
        opcodes::I64_MUL => Ok((Simple::Binary(ValType::I64, BinaryOp::Mul), bytes)),
        opcodes::I64_DIV_S => Ok((Simple::Binary(ValType::I64, BinaryOp::DivS), bytes)),
        opcodes::I64_DIV_U => Ok((Simple::Binary(ValType::I64, BinaryOp::DivU), bytes)),
        opcodes::I64_REM_S => Ok((Simple::Binary(ValType::I64, BinaryOp::RemS), bytes)),
        opcodes::I64_REM_U => Ok((Simple::Binary(ValType::I64, BinaryOp::RemU), bytes)),
        opcodes::I64_AND => Ok((Simple::Binary(ValType::I64, BinaryOp::And), bytes)),
        opcodes::I64_OR => Ok((Simple::Binary(ValType::I64, BinaryOp::Or), bytes)),
        opcodes::I64_XOR => Ok((Simple::Binary(ValType::I64, BinaryOp::Xor), bytes)),
        opcodes::I64_SHL => Ok((Simple::Binary(ValType::I64, BinaryOp::Shl), bytes)),
        opcodes::I64_SHR_S => Ok((Simple::Binary(ValType::I64, BinaryOp::ShrS), bytes)),
        opcodes::I64_SHR_U => Ok((Simple::Binary(ValType::I64, BinaryOp::ShrU), bytes)),
        opcodes::I64_ROTL => Ok((Simple::Binary(ValType::I64, BinaryOp::Rotl), bytes)),
        opcodes::I64_ROTR => Ok((Simple::Binary(ValType::I64, BinaryOp::Rotr), bytes)),
        _ => Err(ReadError::Fault(Fault::Bad, Spot::before(bytes, What::Opcode))),
    }
}

// Tests, comparisons, conversions and operators.
#[tactic(auto, unfolding(crate::specs::Inside::Reading::comparison_of, crate::specs::Inside::Reading::find_opcode, crate::specs::Inside::Reading::read_as, crate::specs::Inside::Reading::read_immediates))]
fn read_comparison(opcode: u8, bytes: &[u8]) -> Result<(Simple, &[u8]), ReadError>
    ensures { Gives (λ x. (x.0, x.1.now)) result (read_as (comparison_of opcode) bytes.now) }
{
    match opcode {
        opcodes::I32_EQZ => Ok((Simple::Test(ValType::I32, TestOp::Eqz), bytes)),
        opcodes::I32_EQ => Ok((Simple::Compare(ValType::I32, RelationOp::Eq), bytes)),
        opcodes::I32_NE => Ok((Simple::Compare(ValType::I32, RelationOp::Ne), bytes)),
        opcodes::I32_LT_S => Ok((Simple::Compare(ValType::I32, RelationOp::LtS), bytes)),
        opcodes::I32_LT_U => Ok((Simple::Compare(ValType::I32, RelationOp::LtU), bytes)),
        opcodes::I32_GT_S => Ok((Simple::Compare(ValType::I32, RelationOp::GtS), bytes)),
        opcodes::I32_GT_U => Ok((Simple::Compare(ValType::I32, RelationOp::GtU), bytes)),
        opcodes::I32_LE_S => Ok((Simple::Compare(ValType::I32, RelationOp::LeS), bytes)),
        opcodes::I32_LE_U => Ok((Simple::Compare(ValType::I32, RelationOp::LeU), bytes)),
        opcodes::I32_GE_S => Ok((Simple::Compare(ValType::I32, RelationOp::GeS), bytes)),
        opcodes::I32_GE_U => Ok((Simple::Compare(ValType::I32, RelationOp::GeU), bytes)),
        opcodes::I64_EQZ => Ok((Simple::Test(ValType::I64, TestOp::Eqz), bytes)),
        opcodes::I64_EQ => Ok((Simple::Compare(ValType::I64, RelationOp::Eq), bytes)),
        opcodes::I64_NE => Ok((Simple::Compare(ValType::I64, RelationOp::Ne), bytes)),
        opcodes::I64_LT_S => Ok((Simple::Compare(ValType::I64, RelationOp::LtS), bytes)),
        opcodes::I64_LT_U => Ok((Simple::Compare(ValType::I64, RelationOp::LtU), bytes)),
        opcodes::I64_GT_S => Ok((Simple::Compare(ValType::I64, RelationOp::GtS), bytes)),
        opcodes::I64_GT_U => Ok((Simple::Compare(ValType::I64, RelationOp::GtU), bytes)),
        opcodes::I64_LE_S => Ok((Simple::Compare(ValType::I64, RelationOp::LeS), bytes)),
        opcodes::I64_LE_U => Ok((Simple::Compare(ValType::I64, RelationOp::LeU), bytes)),
        opcodes::I64_GE_S => Ok((Simple::Compare(ValType::I64, RelationOp::GeS), bytes)),
        opcodes::I64_GE_U => Ok((Simple::Compare(ValType::I64, RelationOp::GeU), bytes)),
        opcodes::I32_WRAP_I64 => Ok((Simple::Convert(ConvertOp::Wrap), bytes)),
        opcodes::I64_EXTEND_I32_S => Ok((Simple::Convert(ConvertOp::ExtendS), bytes)),
        opcodes::I64_EXTEND_I32_U => Ok((Simple::Convert(ConvertOp::ExtendU), bytes)),
        opcodes::I32_EXTEND8_S => Ok((Simple::Convert(ConvertOp::I32From8S), bytes)),
        opcodes::I32_EXTEND16_S => Ok((Simple::Convert(ConvertOp::I32From16S), bytes)),
        opcodes::I64_EXTEND8_S => Ok((Simple::Convert(ConvertOp::I64From8S), bytes)),
        opcodes::I64_EXTEND16_S => Ok((Simple::Convert(ConvertOp::I64From16S), bytes)),
        opcodes::I64_EXTEND32_S => Ok((Simple::Convert(ConvertOp::I64From32S), bytes)),
        _ => read_arithmetic(opcode, bytes),
    }
}

/// The instruction without a body that has this opcode, and the rest.
#[tactic(auto, unfolding(crate::specs::Inside::Reading::read_simple, crate::specs::Inside::Reading::read_as, crate::specs::Inside::Reading::instruction_of, crate::specs::Inside::Reading::find_opcode, crate::specs::Inside::Reading::read_immediates))]
pub fn read_simple(alloc: Global, opcode: u8, bytes: &[u8]) -> Result<(Simple, &[u8]), ReadError>
    ensures { Gives (λ x. (x.0, x.1.now)) result (read_simple opcode bytes.now) }
{
    match opcode {
        opcodes::UNREACHABLE => Ok((Simple::Unreachable, bytes)),
        opcodes::NOP => Ok((Simple::Nop, bytes)),
        opcodes::BR => read_index(Simple::Br(0), bytes),
        opcodes::BR_IF => read_index(Simple::BrIf(0), bytes),
        opcodes::BR_TABLE => read_br_table(alloc, bytes),
        opcodes::RETURN => Ok((Simple::Return, bytes)),
        opcodes::CALL => read_index(Simple::Call(0), bytes),
        opcodes::CALL_INDIRECT => read_call_indirect(bytes),
        opcodes::DROP => Ok((Simple::Drop, bytes)),
        opcodes::SELECT => Ok((Simple::Select, bytes)),
        opcodes::LOCAL_GET => read_index(Simple::Local(LocalOp::Get, 0), bytes),
        opcodes::LOCAL_SET => read_index(Simple::Local(LocalOp::Set, 0), bytes),
        opcodes::LOCAL_TEE => read_index(Simple::Local(LocalOp::Tee, 0), bytes),
        opcodes::GLOBAL_GET => read_index(Simple::Global(GlobalOp::Get, 0), bytes),
        opcodes::GLOBAL_SET => read_index(Simple::Global(GlobalOp::Set, 0), bytes),
        opcodes::I32_LOAD => read_load(LoadOp::I32, bytes),
        opcodes::I64_LOAD => read_load(LoadOp::I64, bytes),
        opcodes::I32_LOAD8_S => read_load(LoadOp::I32From8S, bytes),
        opcodes::I32_LOAD8_U => read_load(LoadOp::I32From8U, bytes),
        opcodes::I32_LOAD16_S => read_load(LoadOp::I32From16S, bytes),
        opcodes::I32_LOAD16_U => read_load(LoadOp::I32From16U, bytes),
        opcodes::I64_LOAD8_S => read_load(LoadOp::I64From8S, bytes),
        opcodes::I64_LOAD8_U => read_load(LoadOp::I64From8U, bytes),
        opcodes::I64_LOAD16_S => read_load(LoadOp::I64From16S, bytes),
        opcodes::I64_LOAD16_U => read_load(LoadOp::I64From16U, bytes),
        opcodes::I64_LOAD32_S => read_load(LoadOp::I64From32S, bytes),
        opcodes::I64_LOAD32_U => read_load(LoadOp::I64From32U, bytes),
        opcodes::I32_STORE => read_store(StoreOp::I32, bytes),
        opcodes::I64_STORE => read_store(StoreOp::I64, bytes),
        opcodes::I32_STORE8 => read_store(StoreOp::I32To8, bytes),
        opcodes::I32_STORE16 => read_store(StoreOp::I32To16, bytes),
        opcodes::I64_STORE8 => read_store(StoreOp::I64To8, bytes),
        opcodes::I64_STORE16 => read_store(StoreOp::I64To16, bytes),
        opcodes::I64_STORE32 => read_store(StoreOp::I64To32, bytes),
        opcodes::MEMORY_SIZE => read_reserved(Simple::MemorySize, bytes),
        opcodes::MEMORY_GROW => read_reserved(Simple::MemoryGrow, bytes),
        opcodes::I32_CONST => read_const(Value::I32(0), bytes),
        opcodes::I64_CONST => read_const(Value::I64(0), bytes),
        _ => read_comparison(opcode, bytes),
    }
}
