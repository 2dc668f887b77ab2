//! The commonest instructions, read straight into a body. An instruction that is handed on is
//! copied, which takes longer than to read it.

ghost use Rattle.std.specs.Prelude.{◌≡◌, ◌++◌, ◌∷◌, [], ℕ, false, Some, Ok, IfOk, IfSome, IfNone, map};
ghost use Rattle.wasm_ast.specs.Syntax.{Op};
ghost use Rattle.wasm_ast.specs.View.{op_of};
ghost use Rattle.wasm_ast.specs.declared.instr.Instr.TheVariants as tree;
ghost use Rattle.wasm_ast.specs.declared.instr.Simple.TheVariants as instr;
ghost use Rattle.wasm_binary.specs.Inside.Reading.{Inner, opens_block, instruction_of, read_op, read_u32, read_signed};
ghost use Rattle.wasm_ast.specs.declared.values.Value.TheVariants as value;

use crate::numbers::{read_s32, read_u32};
use crate::opcodes;
use std::alloc::AllocError;
use wasm_ast::{BinaryOp, Constant, Instr, LocalOp, Simple, ValType, Value};

// Adds an instruction without a body after all others, and gives the rest.
#[inline(always)]
fn add_simple<'a>(
    items: &mut Vec<Instr>,
    simple: Simple,
    rest: &'a [u8],
) -> Result<Option<&'a [u8]>, AllocError>
    ensures some { IfOk result (λ o. IfSome o (λ r. (r.now ≡ rest.now)
        × (items.new.items ≡ items.old.items ++ tree.Simple simple ∷ []))) }
    ensures none { IfOk result (λ o. IfNone o ⊥) }
{
    items.push(Instr::Simple(simple))?;
    Ok(Some(rest))
}

// Adds an instruction on a local, whose index is next, and gives the rest. None, and nothing is
// added, if the index is malformed.
#[inline(always)]
fn add_local<'a>(
    items: &mut Vec<Instr>,
    op: LocalOp,
    bytes: &'a [u8],
) -> Result<Option<&'a [u8]>, AllocError>
    ensures some { IfOk result (λ o. IfSome o (λ r. (n : ℕ) × (read_u32 bytes.now ≡ Ok (n, r.now))
        × (items.new.items ≡ items.old.items ++ tree.Simple (instr.Local op n) ∷ []))) }
    ensures none { IfOk result (λ o. IfNone o (items.new.items ≡ items.old.items)) }
{
    match read_u32(bytes) {
        Ok((index, rest)) => add_simple(items, Simple::Local(op, index), rest),
        Err(_) => Ok(None),
    }
}

// Adds an `i32.const`, whose number is next, and gives the rest. None, and nothing is added, if the
// number is malformed.
#[inline(always)]
fn add_const<'a>(items: &mut Vec<Instr>, bytes: &'a [u8]) -> Result<Option<&'a [u8]>, AllocError>
    ensures some { IfOk result
        (λ o. IfSome o (λ r. (n : ℕ) × (read_signed 32 bytes.now ≡ Ok (n, r.now))
        × (items.new.items
        ≡ items.old.items ++ tree.Simple (instr.Const (value.I32 n)) ∷ []))) }
    ensures none { IfOk result (λ o. IfNone o (items.new.items ≡ items.old.items)) }
{
    match read_s32(bytes) {
        Ok((n, rest)) => add_simple(items, Simple::Const(Constant::new(Value::I32(n))), rest),
        Err(_) => Ok(None),
    }
}

// The operator on two operands that has this opcode, if one has.
#[inline(always)]
#[tactic(auto, unfolding(crate::specs::Inside::Reading::opens_block, crate::specs::Inside::Reading::instruction_of, crate::specs::Inside::Reading::comparison_of, crate::specs::Inside::Reading::arithmetic_of, crate::specs::Inside::Reading::find_opcode))]
fn operator_of(opcode: u8) -> Option<(ValType, BinaryOp)>
    ensures plain { IfSome result (λ o. opens_block opcode ≡ false) }
    ensures of { IfSome result (λ o. instruction_of opcode ≡ Some (instr.Binary o.0 o.1)) }
{
    match opcode {
        opcodes::I32_ADD => Some((ValType::I32, BinaryOp::Add)),
        opcodes::I32_SUB => Some((ValType::I32, BinaryOp::Sub)),
        opcodes::I32_MUL => Some((ValType::I32, BinaryOp::Mul)),
        opcodes::I32_DIV_S => Some((ValType::I32, BinaryOp::DivS)),
        opcodes::I32_DIV_U => Some((ValType::I32, BinaryOp::DivU)),
        opcodes::I32_REM_S => Some((ValType::I32, BinaryOp::RemS)),
        opcodes::I32_REM_U => Some((ValType::I32, BinaryOp::RemU)),
        opcodes::I32_AND => Some((ValType::I32, BinaryOp::And)),
        opcodes::I32_OR => Some((ValType::I32, BinaryOp::Or)),
        opcodes::I32_XOR => Some((ValType::I32, BinaryOp::Xor)),
        opcodes::I32_SHL => Some((ValType::I32, BinaryOp::Shl)),
        opcodes::I32_SHR_S => Some((ValType::I32, BinaryOp::ShrS)),
        opcodes::I32_SHR_U => Some((ValType::I32, BinaryOp::ShrU)),
        opcodes::I32_ROTL => Some((ValType::I32, BinaryOp::Rotl)),
        opcodes::I32_ROTR => Some((ValType::I32, BinaryOp::Rotr)),
        opcodes::I64_ADD => Some((ValType::I64, BinaryOp::Add)),
        opcodes::I64_SUB => Some((ValType::I64, BinaryOp::Sub)),
        opcodes::I64_MUL => Some((ValType::I64, BinaryOp::Mul)),
        opcodes::I64_DIV_S => Some((ValType::I64, BinaryOp::DivS)),
        opcodes::I64_DIV_U => Some((ValType::I64, BinaryOp::DivU)),
        opcodes::I64_REM_S => Some((ValType::I64, BinaryOp::RemS)),
        opcodes::I64_REM_U => Some((ValType::I64, BinaryOp::RemU)),
        opcodes::I64_AND => Some((ValType::I64, BinaryOp::And)),
        opcodes::I64_OR => Some((ValType::I64, BinaryOp::Or)),
        opcodes::I64_XOR => Some((ValType::I64, BinaryOp::Xor)),
        opcodes::I64_SHL => Some((ValType::I64, BinaryOp::Shl)),
        opcodes::I64_SHR_S => Some((ValType::I64, BinaryOp::ShrS)),
        opcodes::I64_SHR_U => Some((ValType::I64, BinaryOp::ShrU)),
        opcodes::I64_ROTL => Some((ValType::I64, BinaryOp::Rotl)),
        opcodes::I64_ROTR => Some((ValType::I64, BinaryOp::Rotr)),
        _ => None,
    }
}

/// Reads an instruction and adds it after all others, if it is one of the commonest. The rest; or
/// none, and nothing is added, if it is another or malformed.
#[inline(always)]
#[tactic(auto, unfolding(crate::specs::Inside::Reading::read_op, crate::specs::Inside::Reading::read_byte, crate::specs::Inside::Reading::read_with_opcode, crate::specs::Inside::Reading::opens_block, crate::specs::Inside::Reading::read_simple, crate::specs::Inside::Reading::read_as, crate::specs::Inside::Reading::instruction_of, crate::specs::Inside::Reading::find_opcode, crate::specs::Inside::Reading::read_immediates, crate::specs::Inside::Reading::read_index))]
pub fn add_common<'a>(
    items: &mut Vec<Instr>,
    bytes: &'a [u8],
) -> Result<Option<&'a [u8]>, AllocError>
    ensures some { IfOk result (λ o. IfSome o (λ r. (op : Op)
        × (map op_of items.new.items ≡ map op_of items.old.items ++ op ∷ [])
        × ((inner : Inner) → read_op inner bytes.now ≡ Ok (op, r.now)))) }
    ensures none { IfOk result (λ o. IfNone o (items.new.items ≡ items.old.items)) }
{
    let Some((opcode, after)) = bytes.split_first() else {
        return Ok(None);
    };
    match *opcode {
        opcodes::LOCAL_GET => add_local(items, LocalOp::Get, after),
        opcodes::LOCAL_SET => add_local(items, LocalOp::Set, after),
        opcodes::LOCAL_TEE => add_local(items, LocalOp::Tee, after),
        opcodes::I32_CONST => add_const(items, after),
        opcodes::DROP => add_simple(items, Simple::Drop, after),
        _ => match operator_of(*opcode) {
            Some((val_type, op)) => add_simple(items, Simple::Binary(val_type, op), after),
            None => Ok(None),
        },
    }
}
