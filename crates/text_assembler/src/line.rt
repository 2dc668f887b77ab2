//! Instructions as lines of text (6.5).

ghost use Rattle.std.specs.Prelude.{◌≡◌, ◌<◌, ◌++◌, ◌^◌, OnOk, codes, decimal, string_bytes};
ghost use Rattle.std.specs.List.{flat_map};
ghost use Rattle.wasm_ast.specs.declared.instr.Simple.TheVariants as instr;
ghost use Rattle.text_assembler.specs.Words.{type_word};
ghost use Rattle.text_assembler.specs.Lines.{keyword_for, numbered, offset_part, align_part, use_of, operands, block_type_part, line_of, HasAlignment, IsAligned};
ghost use Rattle.wasm_ast.specs.Syntax as syntax;
ghost use Rattle.wasm_ast.specs.View.{op_of};

use crate::keyword::Keyword;
use crate::plain::{load_bytes, store_bytes};
use std::alloc::AllocError;
use wasm_ast::{
    BlockType, Instr, MemArg, Simple, ValType, Value, push_decimal, push_signed32, push_signed64,
};

fn push_number(out: &mut String, number: u32) -> Result<(), AllocError>
    ensures { OnOk result (string_bytes out.new ≡ string_bytes out.old ++ numbered number) }
{
    out.push_str(" ")?;
    push_decimal(out, u64::from(number))
}

fn push_numbers(out: &mut String, numbers: &[u32]) -> Result<(), AllocError>
    ensures { OnOk result (string_bytes out.new
        ≡ string_bytes out.old ++ flat_map numbered numbers.now) }
{
    let mut rest = numbers;
    while let [first, tail @ ..] = rest {
        push_number(out, *first)?;
        rest = tail;
    }
    Ok(())
}

fn push_type_index(out: &mut String, index: u32) -> Result<(), AllocError>
    ensures { OnOk result (string_bytes out.new ≡ string_bytes out.old ++ use_of index) }
{
    out.push_str(" (type ")?;
    push_decimal(out, u64::from(index))?;
    out.push_str(")")
}

fn push_constant(out: &mut String, value: Value) -> Result<(), AllocError>
    ensures { OnOk result (string_bytes out.new
        ≡ string_bytes out.old ++ operands (instr.Const value)) }
{
    out.push_str(" ")?;
    match value {
        Value::I32(number) => push_signed32(out, number),
        Value::I64(number) => push_signed64(out, number),
    }
}

fn push_offset(out: &mut String, at: MemArg) -> Result<(), AllocError>
    ensures { OnOk result (string_bytes out.new ≡ string_bytes out.old ++ offset_part at) }
{
    if at.offset == 0 {
        return Ok(());
    }
    out.push_str(" offset=")?;
    push_decimal(out, u64::from(at.offset))
}

// The alignment in bytes.
#[tactic(auto, using(crate::proofs::Immediates::shifted))]
fn alignment(exponent: u32) -> u32
    requires { exponent < 32 }
    ensures { result ≡ 2 ^ exponent }
{
    1 << exponent
}

fn push_align(out: &mut String, natural: u32, at: MemArg) -> Result<(), AllocError>
    requires { at.align < 32 }
    ensures { OnOk result (string_bytes out.new
        ≡ string_bytes out.old ++ align_part natural at) }
{
    let bytes = alignment(at.align);
    if bytes == natural {
        return Ok(());
    }
    out.push_str(" align=")?;
    push_decimal(out, u64::from(bytes))
}

fn push_mem_arg(out: &mut String, natural: u32, at: MemArg) -> Result<(), AllocError>
    requires { at.align < 32 }
    ensures { OnOk result (string_bytes out.new
        ≡ string_bytes out.old ++ offset_part at ++ align_part natural at) }
{
    push_offset(out, at)?;
    push_align(out, natural, at)
}

// The keyword of an instruction without a body.
fn keyword_for(simple: &Simple) -> Keyword
    ensures { result ≡ keyword_for simple.now }
{
    match simple {
        Simple::Unreachable => Keyword::Unreachable,
        Simple::Nop => Keyword::Nop,
        Simple::Br(_) => Keyword::Br,
        Simple::BrIf(_) => Keyword::BrIf,
        Simple::BrTable(_, _) => Keyword::BrTable,
        Simple::Return => Keyword::Return,
        Simple::Call(_) => Keyword::Call,
        Simple::CallIndirect(_) => Keyword::CallIndirect,
        Simple::Drop => Keyword::Drop,
        Simple::Select => Keyword::Select,
        Simple::Local(op, _) => Keyword::Local(*op),
        Simple::Global(op, _) => Keyword::Global(*op),
        Simple::Load(op, _) => Keyword::Load(*op),
        Simple::Store(op, _) => Keyword::Store(*op),
        Simple::MemorySize => Keyword::MemorySize,
        Simple::MemoryGrow => Keyword::MemoryGrow,
        Simple::Const(constant) => match constant.value() {
            Value::I32(_) => Keyword::Const(ValType::I32),
            Value::I64(_) => Keyword::Const(ValType::I64),
        },
        Simple::Unary(val_type, op) => Keyword::Unary(*val_type, *op),
        Simple::Binary(val_type, op) => Keyword::Binary(*val_type, *op),
        Simple::Test(val_type, op) => Keyword::Test(*val_type, *op),
        Simple::Compare(val_type, op) => Keyword::Compare(*val_type, *op),
        Simple::Convert(op) => Keyword::Convert(*op),
    }
}

fn push_labels(out: &mut String, labels: &[u32], other: u32) -> Result<(), AllocError>
    ensures { OnOk result (string_bytes out.new
        ≡ string_bytes out.old ++ operands (instr.BrTable other labels.now)) }
{
    push_numbers(out, labels)?;
    push_number(out, other)
}

// Pushes what follows the keyword of an instruction without a body.
fn push_operands(out: &mut String, simple: &Simple) -> Result<(), AllocError>
    requires { HasAlignment simple.now }
    ensures { OnOk result (string_bytes out.new ≡ string_bytes out.old ++ operands simple.now) }
{
    match simple {
        Simple::Br(index)
        | Simple::BrIf(index)
        | Simple::Call(index)
        | Simple::Local(_, index)
        | Simple::Global(_, index) => push_number(out, *index),
        Simple::BrTable(other, labels) => push_labels(out, labels.as_slice(), *other),
        Simple::CallIndirect(index) => push_type_index(out, *index),
        Simple::Load(op, at) => push_mem_arg(out, load_bytes(*op), *at),
        Simple::Store(op, at) => push_mem_arg(out, store_bytes(*op), *at),
        Simple::Const(constant) => push_constant(out, constant.value()),
        _ => Ok(()),
    }
}

// Pushes the type of a block.
fn push_block_type(out: &mut String, block_type: BlockType) -> Result<(), AllocError>
    ensures { OnOk result (string_bytes out.new
        ≡ string_bytes out.old ++ block_type_part block_type) }
{
    match block_type {
        BlockType::Empty => Ok(()),
        BlockType::One(ValType::I32) => out.push_str(" (result i32)"),
        BlockType::One(ValType::I64) => out.push_str(" (result i64)"),
        BlockType::Index(index) => push_type_index(out, index),
    }
}

fn push_simple(out: &mut String, simple: &Simple) -> Result<(), AllocError>
    requires { HasAlignment simple.now }
    ensures { OnOk result (string_bytes out.new
        ≡ string_bytes out.old ++ line_of (syntax.simple simple.now)) }
{
    out.push_str(keyword_for(simple).word())?;
    push_operands(out, simple)
}

fn push_opening(out: &mut String, keyword: &str, block_type: BlockType) -> Result<(), AllocError>
    ensures { OnOk result (string_bytes out.new
        ≡ string_bytes out.old ++ keyword.now ++ block_type_part block_type) }
{
    out.push_str(keyword)?;
    push_block_type(out, block_type)
}

/// Pushes the line of an instruction.
pub fn push_line(out: &mut String, instr: &Instr) -> Result<(), AllocError>
    requires { IsAligned (op_of instr.now) }
    ensures { OnOk result (string_bytes out.new
        ≡ string_bytes out.old ++ line_of (op_of instr.now)) }
{
    match instr {
        Instr::Simple(simple) => push_simple(out, simple),
        Instr::Block(block_type, _) => push_opening(out, "block", *block_type),
        Instr::Loop(block_type, _) => push_opening(out, "loop", *block_type),
        Instr::If(block_type, _) => push_opening(out, "if", *block_type),
    }
}
