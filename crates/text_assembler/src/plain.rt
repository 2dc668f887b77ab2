//! Instructions without bodies (6.5.2 to 6.5.6).

ghost use Rattle.std.specs.Prelude.{◌≡◌, ◌<◌, option_map};
ghost use Rattle.wasm_ast.specs.Access.{load_bytes, store_bytes};
ghost use Rattle.text_assembler.specs.Inside.Answers.{Gives, Finds};
ghost use Rattle.text_assembler.specs.Instructions.{read_call_indirect, last_of, read_br_table, exponent_from, digits_after, with_digits, read_option, read_mem_arg, read_const, with_index, read_immediates};

use crate::fault::ReadError;
use crate::ids::Ids;
use crate::keyword::Keyword;
use crate::labels::Labels;
use crate::numbers::{constant32, constant64, small_number};
use crate::phrases::{fault, push_indices, read_index, take_word};
use crate::scopes::Scopes;
use crate::token::{Lexeme, Token};
use crate::uses::read_nameless_use;
use std::alloc::Global;
use wasm_ast::{Constant, LoadOp, MemArg, Simple, StoreOp, ValType, Value};

// An indirect call through the table.
#[tactic(auto, unfolding(crate::specs::Instructions::read_call_indirect))]
fn read_call_indirect<'a>(
    alloc: Global,
    scopes: &Scopes,
    tokens: &'a [Token],
) -> Result<(Simple, &'a [Token]), ReadError>
    ensures { Gives (λ x. (x.0, x.1.now)) result (read_call_indirect scopes.now tokens.now) }
{
    made!(read_nameless_use(alloc, scopes, tokens), index => Simple::CallIndirect(index))
}

#[tactic(auto, unfolding(crate::specs::Instructions::read_br_table, crate::specs::Instructions::last_of), using(crate::proofs::Immediates::last_is))]
fn read_br_table<'a>(
    alloc: Global,
    labels: &Labels,
    tokens: &'a [Token],
) -> Result<(Simple, &'a [Token]), ReadError>
    ensures { Gives (λ x. (x.0, x.1.now)) result (read_br_table labels.now tokens.now) }
{
    let mut all = Vec::new(alloc);
    let rest = push_indices(labels, &mut all, tokens)?;
    let Some(other) = all.pop() else {
        return Err(fault(tokens));
    };
    let all = wasm_ast::Labels::new(alloc, all)?;
    Ok((Simple::BrTable(other, all), rest))
}

// The exponent of a power of two.
#[tactic(auto, using(crate::proofs::Immediates::tries_on, crate::proofs::Immediates::tries_end))]
fn exponent(number: u32) -> Option<u32>
    ensures { Finds (λ k. k) result (exponent_from 32 0 number) }
{
    for k in 0..32 {
        if number == 1 << k {
            return Some(k);
        }
    }
    None
}

// What follows this prefix in the next word, and what follows the word.
#[tactic(auto, unfolding(crate::specs::Instructions::digits_after))]
fn digits_after<'a>(prefix: &str, tokens: &'a [Token]) -> Option<(&'a [u8], &'a [Token])>
    ensures { option_map (λ x. (x.0.now, x.1.now)) result
        ≡ digits_after prefix.now tokens.now }
{
    let (first, rest) = tokens.split_first()?;
    match first.lexeme() {
        Lexeme::Word(word) => {
            let digits = word.as_slice().strip_prefix(prefix.as_bytes())?;
            Some((digits, rest))
        }
        _ => None,
    }
}

// A number after this prefix, or another one if no word begins so.
#[tactic(auto, unfolding(crate::specs::Instructions::read_option, crate::specs::Instructions::with_digits))]
fn read_option<'a>(
    prefix: &str,
    other: u32,
    tokens: &'a [Token],
) -> Result<(u32, &'a [Token]), ReadError>
    ensures { Gives (λ x. (x.0, x.1.now)) result
        (read_option prefix.now other tokens.now) }
{
    let Some((digits, rest)) = digits_after(prefix, tokens) else {
        return Ok((other, tokens));
    };
    match small_number(digits) {
        Some(number) => Ok((number, rest)),
        None => Err(fault(tokens)),
    }
}

// Offset and alignment, which without a word of its own is this number of bytes.
#[tactic(auto, unfolding(crate::specs::Instructions::read_mem_arg))]
fn read_mem_arg(natural: u32, tokens: &[Token]) -> Result<(MemArg, &[Token]), ReadError>
    ensures { Gives (λ x. (x.0, x.1.now)) result (read_mem_arg natural tokens.now) }
{
    let (offset, after) = read_option("offset=", 0, tokens)?;
    let (bytes, rest) = read_option("align=", natural, after)?;
    match exponent(bytes) {
        Some(align) => Ok((MemArg { align, offset }, rest)),
        None => Err(fault(after)),
    }
}

#[tactic(auto, unfolding(crate::specs::Instructions::read_const))]
fn read_const(val_type: ValType, tokens: &[Token]) -> Result<(Simple, &[Token]), ReadError>
    ensures { Gives (λ x. (x.0, x.1.now)) result (read_const val_type tokens.now) }
{
    let (word, rest) = take_word(tokens)?;
    let value = match val_type {
        ValType::I32 => constant32(word).map(Value::I32),
        ValType::I64 => constant64(word).map(Value::I64),
    };
    match value {
        Some(value) => Ok((Simple::Const(Constant::new(value)), rest)),
        None => Err(fault(tokens)),
    }
}

/// How many bytes a load reads.
pub fn load_bytes(op: LoadOp) -> u32
    ensures { result ≡ load_bytes op }
{
    match op {
        LoadOp::I32From8S | LoadOp::I32From8U | LoadOp::I64From8S | LoadOp::I64From8U => 1,
        LoadOp::I32From16S | LoadOp::I32From16U | LoadOp::I64From16S | LoadOp::I64From16U => 2,
        LoadOp::I32 | LoadOp::I64From32S | LoadOp::I64From32U => 4,
        LoadOp::I64 => 8,
    }
}

/// How many bytes a store writes.
pub fn store_bytes(op: StoreOp) -> u32
    ensures { result ≡ store_bytes op }
{
    match op {
        StoreOp::I32To8 | StoreOp::I64To8 => 1,
        StoreOp::I32To16 | StoreOp::I64To16 => 2,
        StoreOp::I32 | StoreOp::I64To32 => 4,
        StoreOp::I64 => 8,
    }
}

/// What follows the word of an instruction without a body, which is that instruction.
#[tactic(auto, unfolding(crate::specs::Instructions::read_immediates, crate::specs::Instructions::with_index))]
pub fn read_immediates<'a>(
    alloc: Global,
    scopes: &Scopes,
    locals: &Ids,
    labels: &Labels,
    keyword: Keyword,
    tokens: &'a [Token],
) -> Result<(Simple, &'a [Token]), ReadError>
    ensures { Gives (λ x. (x.0, x.1.now)) result
        (read_immediates scopes.now locals.now labels.now keyword tokens.now) }
{
    match keyword {
        Keyword::Unreachable => Ok((Simple::Unreachable, tokens)),
        Keyword::Nop => Ok((Simple::Nop, tokens)),
        Keyword::Br => made!(read_index(labels, tokens), label => Simple::Br(label)),
        Keyword::BrIf => made!(read_index(labels, tokens), label => Simple::BrIf(label)),
        Keyword::BrTable => read_br_table(alloc, labels, tokens),
        Keyword::Return => Ok((Simple::Return, tokens)),
        Keyword::Call => made!(read_index(&scopes.funcs, tokens), func => Simple::Call(func)),
        Keyword::CallIndirect => read_call_indirect(alloc, scopes, tokens),
        Keyword::Drop => Ok((Simple::Drop, tokens)),
        Keyword::Select => Ok((Simple::Select, tokens)),
        Keyword::MemorySize => Ok((Simple::MemorySize, tokens)),
        Keyword::MemoryGrow => Ok((Simple::MemoryGrow, tokens)),
        Keyword::Local(op) => made!(read_index(locals, tokens), local => Simple::Local(op, local)),
        Keyword::Global(op) =>
            made!(read_index(&scopes.globals, tokens), global => Simple::Global(op, global)),
        Keyword::Load(op) =>
            made!(read_mem_arg(load_bytes(op), tokens), at => Simple::Load(op, at)),
        Keyword::Store(op) =>
            made!(read_mem_arg(store_bytes(op), tokens), at => Simple::Store(op, at)),
        Keyword::Const(val_type) => read_const(val_type, tokens),
        Keyword::Unary(val_type, op) => Ok((Simple::Unary(val_type, op), tokens)),
        Keyword::Binary(val_type, op) => Ok((Simple::Binary(val_type, op), tokens)),
        Keyword::Test(val_type, op) => Ok((Simple::Test(val_type, op), tokens)),
        Keyword::Compare(val_type, op) => Ok((Simple::Compare(val_type, op), tokens)),
        Keyword::Convert(op) => Ok((Simple::Convert(op), tokens)),
    }
}
