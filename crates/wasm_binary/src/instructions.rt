//! Readers of instructions that have bodies, and of bodies (5.4).

ghost use Rattle.std.specs.Prelude.{◌≡◌, true, map};
ghost use Rattle.wasm_ast.specs.View.{op_of};
ghost use Rattle.wasm_binary.specs.Inside.Reading.{Gives, read_else, read_if, read_enclosed, read_nested, read_simple, opens_block, read_op, is_end, read_body, inner_of, read_expression};

use crate::common::add_common;
use crate::fault::{Fault, ReadError, Spot, Wanted, What};
use crate::numbers::{read_byte, skip_byte, strip_byte};
use crate::opcodes::{BLOCK, ELSE, END, IF, LOOP};
use crate::read_opcodes::read_simple;
use crate::types::read_block_type;
use std::alloc::Global;
use std::boxed::Box;
use wasm_ast::{Arms, BlockType, Body, Instr, MAX_NESTING, Simple};

// The else arm of an `if` and its end, and the rest. The arm is empty if none is written.
#[cycle(read)]
#[tactic(auto, unfolding(crate::specs::Inside::Reading::read_else))]
fn read_else(alloc: Global, more: usize, bytes: &[u8]) -> Result<(Vec<Instr>, &[u8]), ReadError>
    ensures { Gives (λ x. (map op_of x.0.items, x.1.now)) result
        (read_else (read_body more) bytes.now) }
{
    let Some(rest) = strip_byte(ELSE, bytes) else {
        let rest = skip_byte(END, What::Else, bytes)?;
        return Ok((Vec::new(alloc), rest));
    };
    let (arm, rest) = read_body(alloc, more, rest)?;
    let rest = skip_byte(END, What::Else, rest)?;
    Ok((arm, rest))
}

// The type and the arms of an `if`, and the rest.
#[cycle(read)]
#[tactic(auto, unfolding(crate::specs::Inside::Reading::read_if))]
fn read_if(alloc: Global, more: usize, bytes: &[u8]) -> Result<(Instr, &[u8]), ReadError>
    ensures { Gives (λ x. (op_of x.0, x.1.now)) result (read_if (read_body more) bytes.now) }
{
    let (block_type, rest) = read_block_type(bytes)?;
    let (then_arm, rest) = read_body(alloc, more, rest)?;
    let (else_arm, rest) = read_else(alloc, more, rest)?;
    let then_arm = Body::new(then_arm);
    let else_arm = Body::new(else_arm);
    let arms = Box::new(alloc, Arms { then_arm, else_arm })?;
    Ok((Instr::If(block_type, arms), rest))
}

// The type, the body and the end of a block or a loop, and the rest.
#[cycle(read)]
#[tactic(auto, unfolding(crate::specs::Inside::Reading::read_enclosed))]
fn read_enclosed(
    alloc: Global,
    more: usize,
    bytes: &[u8],
) -> Result<((BlockType, Body), &[u8]), ReadError>
    ensures { Gives (λ x. ((x.0.0, x.0.1), x.1.now)) result
        (read_enclosed (read_body more) bytes.now) }
{
    let (block_type, rest) = read_block_type(bytes)?;
    let (instrs, rest) = read_body(alloc, more, rest)?;
    let rest = skip_byte(END, What::Else, rest)?;
    Ok(((block_type, Body::new(instrs)), rest))
}

// What follows this opcode of an instruction that has bodies, and the rest. In the bodies this
// many more blocks may be open.
#[cycle(read)]
#[tactic(auto, unfolding(crate::specs::Inside::Reading::read_nested))]
fn read_nested(
    alloc: Global,
    more: usize,
    opcode: u8,
    bytes: &[u8],
) -> Result<(Instr, &[u8]), ReadError>
    ensures { Gives (λ x. (op_of x.0, x.1.now)) result
        (read_nested (read_body more) opcode bytes.now) }
{
    if opcode == IF {
        return read_if(alloc, more, bytes);
    }
    let ((block_type, body), rest) = read_enclosed(alloc, more, bytes)?;
    let body = Box::new(alloc, body)?;
    let instr = if opcode == BLOCK {
        Instr::Block(block_type, body)
    } else {
        Instr::Loop(block_type, body)
    };
    Ok((instr, rest))
}

const INSTRUCTION: What = What::Wanted(Wanted::Instruction);

// The instruction without a body that has this opcode, and the rest. What is wrong after the opcode is
// told of all that follows it.
fn read_plain(alloc: Global, opcode: u8, bytes: &[u8]) -> Result<(Simple, &[u8]), ReadError>
    ensures { Gives (λ x. (x.0, x.1.now)) result (read_simple opcode bytes.now) }
{
    match read_simple(alloc, opcode, bytes) {
        Ok(read) => Ok(read),
        Err(error) => Err(error.after_opcode(bytes)),
    }
}

// Whether an instruction with this opcode has bodies.
#[tactic(auto, unfolding(crate::specs::Inside::Reading::opens_block))]
fn opens_block(opcode: u8) -> bool
    ensures { result ≡ opens_block opcode }
{
    opcode == BLOCK || opcode == LOOP || opcode == IF
}

// An instruction, and the rest. This many more blocks may be open.
#[cycle(read)]
#[tactic(auto, unfolding(crate::specs::Inside::Reading::read_op, crate::specs::Inside::Reading::read_with_opcode))]
fn read_instr(alloc: Global, more: usize, bytes: &[u8]) -> Result<(Instr, &[u8]), ReadError>
    ensures { Gives (λ x. (op_of x.0, x.1.now)) result (read_op (inner_of more) bytes.now) }
{
    let (opcode, rest) = read_byte(INSTRUCTION, bytes)?;
    if opens_block(opcode) {
        if more == 0 {
            return Err(ReadError::Fault(Fault::Over, Spot::at(bytes, What::TooDeep)));
        }
        return read_nested(alloc, more - 1, opcode, rest);
    }
    let (simple, rest) = read_plain(alloc, opcode, rest)?;
    Ok((Instr::Simple(simple), rest))
}

// Whether instructions end here.
#[tactic(auto, unfolding(crate::specs::Inside::Reading::is_end))]
fn is_end(bytes: &[u8]) -> bool
    ensures { result ≡ is_end bytes.now }
{
    strip_byte(END, bytes).is_some() || strip_byte(ELSE, bytes).is_some()
}

// A body begins with memory for this number of instructions. Many have no more, and a vector by
// itself would begin with memory for twice as many.
const FIRST_INSTRS: usize = 2;

// Instructions up to their end or to an else, and the rest from there. This many more blocks may
// be open, so recursion is no deeper than that.
#[cycle(read)]
fn read_body(alloc: Global, more: usize, bytes: &[u8]) -> Result<(Vec<Instr>, &[u8]), ReadError>
    ensures { Gives (λ x. (map op_of x.0.items, x.1.now)) result (read_body more bytes.now) }
{
    let mut items = Vec::new(alloc);
    if !is_end(bytes) {
        items.reserve_exact(FIRST_INSTRS)?;
    }
    let mut rest = bytes;
    for _ in 0..bytes.len() {
        if is_end(rest) {
            return Ok((items, rest));
        }
        if let Some(next) = add_common(&mut items, rest)? {
            rest = next;
        } else {
            let (instr, next) = read_instr(alloc, more, rest)?;
            items.push(instr)?;
            rest = next;
        }
    }
    Err(ReadError::Fault(Fault::Bad, Spot::at(rest, INSTRUCTION)))
}

/// An expression (5.4.6), and the rest.
#[tactic(auto, unfolding(crate::specs::Inside::Reading::read_expression, crate::specs::Inside::Reading::nesting))]
pub fn read_expression(alloc: Global, bytes: &[u8]) -> Result<(Body, &[u8]), ReadError>
    ensures { Gives (λ x. (x.0, x.1.now)) result (read_expression true bytes.now) }
{
    let (instrs, rest) = read_body(alloc, MAX_NESTING, bytes)?;
    let rest = skip_byte(END, What::Else, rest)?;
    Ok((Body::new(instrs), rest))
}
