//! The canonical encoding of instructions and of code (5.4, 5.5.13).

ghost use Rattle.std.specs.Prelude.{◌≡◌, ℕ, ◌+◌, ◌<◌, ◌^◌, ◌++◌, ◌∷◌, [], List, length, map, IfOk, OnOk};
ghost use Rattle.wasm_ast.specs.View.{op_of};
ghost use Rattle.wasm_ast.specs.Syntax.{ops_of};
ghost use Rattle.wasm_binary.specs.Grammar.{locals_of};
ghost use Rattle.wasm_binary.specs.Canonical.{add_local, runs_of, canon_run, canon_number, canon_block_type, canon_mem_arg, canon_immediates, canon_simple, canon_else, canon_op, canon_ops, canon_expression, canon_code, canon_entry};

use crate::opcodes::{BLOCK, ELSE, EMPTY, END, IF, LOOP, RESERVED};
use crate::write_items::{Encode, put_number, put_signed, put_sized, put_val_type, put_vector};
use crate::write_opcodes::opcode;
use std::alloc::{AllocError, Global};
use wasm_ast::{Arms, BlockType, Body, Func, Instr, MemArg, Simple, ValType, Value, is_same_type};

fn put_opcode(out: &mut Vec<u8>, opcode: u8) -> Result<(), AllocError>
    ensures { OnOk result (out.new.items ≡ out.old.items ++ opcode ∷ []) }
{
    out.push(opcode)?;
    Ok(())
}

fn put_block_type(out: &mut Vec<u8>, block_type: BlockType) -> Result<(), AllocError>
    ensures { OnOk result (out.new.items ≡ out.old.items ++ canon_block_type block_type) }
{
    match block_type {
        BlockType::Empty => {
            out.push(EMPTY)?;
            Ok(())
        }
        BlockType::One(result) => put_val_type(out, result),
        BlockType::Index(index) => put_signed(out, 4, 33, u64::from(index)),
    }
}

fn put_const(out: &mut Vec<u8>, value: Value) -> Result<(), AllocError>
    ensures { OnOk result (out.new.items ≡ out.old.items ++ canon_immediates (Simple.Const value)) }
{
    match value {
        Value::I32(n) => put_signed(out, 4, 32, u64::from(n)),
        Value::I64(n) => put_signed(out, 9, 64, n),
    }
}

fn put_mem_arg(out: &mut Vec<u8>, at: MemArg) -> Result<(), AllocError>
    ensures { OnOk result (out.new.items ≡ out.old.items ++ canon_mem_arg at) }
{
    put_number(out, u64::from(at.align))?;
    put_number(out, u64::from(at.offset))
}

// The labels of a `br_table`, and the label for all other operands.
fn put_labels(
    alloc: Global,
    out: &mut Vec<u8>,
    labels: &[u32],
    other: u32,
) -> Result<(), AllocError>
    ensures { OnOk result (out.new.items
        ≡ out.old.items ++ canon_immediates (Simple.BrTable other labels.now)) }
{
    put_vector(alloc, out, labels)?;
    put_number(out, u64::from(other))
}

fn put_call_indirect(out: &mut Vec<u8>, type_index: u32) -> Result<(), AllocError>
    ensures { OnOk result (out.new.items
        ≡ out.old.items ++ canon_immediates (Simple.CallIndirect type_index)) }
{
    put_number(out, u64::from(type_index))?;
    put_opcode(out, RESERVED)
}

// What follows the opcode.
fn put_immediates(alloc: Global, out: &mut Vec<u8>, simple: &Simple) -> Result<(), AllocError>
    ensures { OnOk result (out.new.items ≡ out.old.items ++ canon_immediates simple.now) }
{
    match simple {
        Simple::Br(index)
        | Simple::BrIf(index)
        | Simple::Call(index)
        | Simple::Local(_, index)
        | Simple::Global(_, index) => put_number(out, u64::from(*index)),
        Simple::BrTable(other, labels) => put_labels(alloc, out, labels.as_slice(), *other),
        Simple::CallIndirect(type_index) => put_call_indirect(out, *type_index),
        Simple::Load(_, at) | Simple::Store(_, at) => put_mem_arg(out, *at),
        Simple::MemorySize | Simple::MemoryGrow => put_opcode(out, RESERVED),
        Simple::Const(constant) => put_const(out, constant.value()),
        _ => Ok(()),
    }
}

fn put_simple(alloc: Global, out: &mut Vec<u8>, simple: &Simple) -> Result<(), AllocError>
    ensures { OnOk result (out.new.items ≡ out.old.items ++ canon_simple simple.now) }
{
    out.push(opcode(simple))?;
    put_immediates(alloc, out, simple)
}

// The opcode and the type of an instruction that has a body.
fn put_opening(out: &mut Vec<u8>, opcode: u8, block_type: BlockType) -> Result<(), AllocError>
    ensures { OnOk result (out.new.items ≡ out.old.items ++ opcode ∷ canon_block_type block_type) }
{
    out.push(opcode)?;
    put_block_type(out, block_type)
}

// What separates the arms of an `if`.
fn put_else(out: &mut Vec<u8>, else_arm: &Body) -> Result<(), AllocError>
    ensures { OnOk result (out.new.items ≡ out.old.items ++ canon_else else_arm.now) }
{
    if else_arm.as_slice().is_empty() {
        return Ok(());
    }
    put_opcode(out, ELSE)
}

#[cycle(put)]
fn put_instr(alloc: Global, out: &mut Vec<u8>, instr: &Instr) -> Result<(), AllocError>
    ensures { OnOk result (out.new.items ≡ out.old.items ++ canon_op (op_of instr.now)) }
{
    match instr {
        Instr::Simple(simple) => put_simple(alloc, out, simple),
        Instr::Block(block_type, body) => {
            put_opening(out, BLOCK, *block_type)?;
            put_body(alloc, out, body)?;
            put_opcode(out, END)
        }
        Instr::Loop(block_type, body) => {
            put_opening(out, LOOP, *block_type)?;
            put_body(alloc, out, body)?;
            put_opcode(out, END)
        }
        Instr::If(block_type, arms) => {
            let Arms { then_arm, else_arm } = &**arms;
            put_opening(out, IF, *block_type)?;
            put_body(alloc, out, then_arm)?;
            put_else(out, else_arm)?;
            put_body(alloc, out, else_arm)?;
            put_opcode(out, END)
        }
    }
}

#[cycle(put)]
fn put_body(alloc: Global, out: &mut Vec<u8>, body: &Body) -> Result<(), AllocError>
    ensures { OnOk result (out.new.items ≡ out.old.items ++ canon_ops body.now) }
{
    for instr in body.as_slice() {
        put_instr(alloc, out, instr)?;
    }
    Ok(())
}

/// Puts an expression at the end (5.4.6).
pub fn put_expression(alloc: Global, out: &mut Vec<u8>, body: &Body) -> Result<(), AllocError>
    ensures { OnOk result (out.new.items ≡ out.old.items ++ canon_expression body.now) }
{
    put_body(alloc, out, body)?;
    put_opcode(out, END)
}

// Adds a local to the last run, or in a run of its own.
fn add_local(runs: &mut Vec<(u64, ValType)>, t: ValType) -> Result<(), AllocError>
    requires { length (locals_of runs.old.items) + 1 < 2 ^ 64 }
    ensures { OnOk result (runs.new.items ≡ add_local runs.old.items t) }
{
    match runs.pop() {
        Some((count, last)) => {
            if is_same_type(last, t) {
                runs.push((count + 1, last))?;
            } else {
                runs.push((count, last))?;
                runs.push((1, t))?;
            }
        }
        None => runs.push((1, t))?,
    }
    Ok(())
}

fn runs_of(alloc: Global, locals: &[ValType]) -> Result<Vec<(u64, ValType)>, AllocError>
    ensures { IfOk result (λ runs. runs.items ≡ runs_of locals.now) }
{
    let mut runs = Vec::new(alloc);
    for t in locals {
        add_local(&mut runs, *t)?;
    }
    Ok(runs)
}

/// A run of locals of one type.
impl Encode for (u64, ValType) {
    ghost encoding = { canon_run };

    fn put(&self, _alloc: Global, out: &mut Vec<u8>) -> Result<(), AllocError> {
        let (count, t) = *self;
        put_number(out, count)?;
        put_val_type(out, t)
    }
}

fn code_of(alloc: Global, func: &Func) -> Result<Vec<u8>, AllocError>
    ensures { IfOk result (λ v. v.items ≡ canon_code func.now) }
{
    let mut out = Vec::new(alloc);
    let runs = runs_of(alloc, func.locals.as_slice())?;
    put_vector(alloc, &mut out, &runs)?;
    put_body(alloc, &mut out, &func.body)?;
    put_opcode(&mut out, END)?;
    Ok(out)
}

/// The code of a function.
impl Encode for Func {
    ghost encoding = { canon_entry };

    fn put(&self, alloc: Global, out: &mut Vec<u8>) -> Result<(), AllocError> {
        let part = code_of(alloc, self)?;
        put_sized(out, &part)
    }
}
