//! Why a module is not valid.

ghost use Rattle.std.specs.Prelude.{IsTrue};
ghost use Rattle.wasm_ast.specs.View.{op_of};
ghost use Rattle.text_assembler.specs.Lines.{IsAligned};

use crate::ends::{block_text, bodies_of, body_end_text};
use crate::fields::find_field;
use crate::first_bytes::module_of;
use crate::operands::{Function, simple_text};
use crate::texts::{Shown, Told};
use std::alloc::{AllocError, Global};
use text_assembler::instr_text;
use validator::{Types, Unchecked};
use wasm_ast::{Body, Instr, Module, Place, Simple};

// How many instructions may be counted for the types before one: more would take longer than the refusal
// itself.
const MOST_COUNTED: u64 = 1 << 19;

/// An instruction of a body, and how many blocks are open around it.
type Found<'a> = (&'a Instr, u32);

// The instruction with this number; None if there are no more than that many.
fn instr_at<'a>(alloc: Global, body: &'a Body, at: u32) -> Result<Option<Found<'a>>, AllocError> {
    // What is left of each body that is open, or is to be read after it, and how many are open around it.
    let mut bodies = Vec::new(alloc);
    bodies.push((body.as_slice(), 0u32))?;
    let mut left = at;
    for _ in 0..u64::MAX {
        let Some((instrs, depth)) = bodies.pop() else {
            return Ok(None);
        };
        if let Some((instr, rest)) = instrs.split_first() {
            let Some(next) = left.checked_sub(1) else {
                return Ok(Some((instr, depth)));
            };
            left = next;
            bodies.push((rest, depth))?;
            let [first, second] = bodies_of(instr);
            for arm in [second, first] {
                if let Some((_, body)) = arm {
                    bodies.push((body.as_slice(), depth.saturating_add(1)))?;
                }
            }
        }
    }
    Ok(None)
}

// Whether the exponent of an alignment is one that a text can have.
fn is_aligned(instr: &Instr) -> bool
    ensures { IsTrue result → IsAligned (op_of instr.now) }
{
    match instr {
        Instr::Simple(Simple::Load(_, at) | Simple::Store(_, at)) => at.align < 32,
        _ => true,
    }
}

// An instruction as text, of a `br_table` its first labels.
fn text_of(alloc: Global, instr: &Instr) -> Told {
    if !is_aligned(instr) {
        return String::from_str(alloc, "an access whose alignment is over 2^31");
    }
    match (instr_text(alloc, instr), instr) {
        (Err(_), _) => Err(AllocError),
        (Ok(text), Instr::Simple(Simple::BrTable(_, _))) => {
            format!(in alloc; "{}", Shown(text.as_str()))
        }
        (Ok(text), _) => Ok(text),
    }
}

// What is known before an instruction; nothing if that is not found in little time: the instructions before
// it are counted again in each block that is open there.
fn types_there<'a>(of: Function<'a>, place: u32, depth: u32) -> Result<Types<'a>, AllocError> {
    if u64::from(place).saturating_mul(u64::from(depth)) > MOST_COUNTED {
        return Ok(Types::none(of.alloc));
    }
    let types = of.of.types_before(of.alloc, of.number, place)?;
    Ok(types.unwrap_or(Types::none(of.alloc)))
}

fn instr_reason(of: Function<'_>, place: u32, found: Found<'_>) -> Told {
    let mut types = types_there(of, place, found.1)?;
    match found.0 {
        Instr::Simple(simple) => simple_text(of, &mut types, simple),
        instr => block_text(of, &types, instr),
    }
}

fn body_text(of: Function<'_>, place: u32) -> Told {
    let (alloc, number) = (of.alloc, of.number);
    match instr_at(alloc, &of.func.body, place)? {
        Some(found) => {
            let text = text_of(alloc, found.0)?;
            let reason = instr_reason(of, place, found)?;
            format!(in alloc; "function {number}, instruction {place}, {text}: {reason}")
        }
        None => {
            let reason = body_end_text(of)?;
            format!(in alloc; "function {number}, after its last instruction: {reason}")
        }
    }
}

// What is said of a place, whose function counts imports first.
fn place_text(alloc: Global, of: &Unchecked, at: Place) -> Told {
    let module = of.module();
    let own = (at.func as usize).checked_sub(module.imports.len());
    match module.funcs.as_slice().get(own.unwrap_or(usize::MAX)) {
        Some(func) => body_text(
            Function {
                alloc,
                of,
                func,
                number: at.func,
            },
            at.instr,
        ),
        None => Ok(String::new(alloc)),
    }
}

fn outside_text(alloc: Global, of: &Module) -> Told {
    match find_field(alloc, of)? {
        Some((field, number, what)) => format!(in alloc; "{field} {number}: {what}"),
        None => Ok(String::new(alloc)),
    }
}

/// Why the module of a file is not valid, given the place of its fault, if it is in a body.
pub fn why_invalid(alloc: Global, bytes: &[u8], at: Option<Place>) -> Told {
    match (module_of(alloc, bytes)?, at) {
        (None, _) => Ok(String::new(alloc)),
        (Some(of), None) => outside_text(alloc, &of),
        (Some(of), Some(at)) => place_text(alloc, &Unchecked::new(alloc, of)?, at),
    }
}
