//! Places of instructions in sequences, numbered in written order.

ghost use Rattle.std.specs.Prelude.{◌≡◌, ◌-◌, ◌^◌, map, min};
ghost use Rattle.wasm_ast.specs.Syntax.{count, ops_count, ops_of};
ghost use Rattle.wasm_ast.specs.View.{op_of};
ghost use Rattle.validator.specs.Inside.PlaceWalk.{past};

use wasm_ast::{Arms, Body, Instr};

/// The place counted from the end of the instruction. None if it is in the instruction. Recursion is
/// as deep as its blocks are nested, which is as deep as that of dropping the instruction.
#[cycle(past)]
pub fn past_instr(instr: &Instr, place: u32) -> Option<u32>
    ensures { result ≡ past (count (op_of instr.now)) place }
{
    let inside = place.checked_sub(1)?;
    match instr {
        Instr::Simple(_) => Some(inside),
        Instr::Block(_, body) | Instr::Loop(_, body) => past_body(body, inside),
        Instr::If(_, arms) => {
            let Arms { then_arm, else_arm } = &**arms;
            past_body(else_arm, past_body(then_arm, inside)?)
        }
    }
}

/// The same from the end of a sequence.
#[cycle(past)]
pub fn past_body(body: &Body, place: u32) -> Option<u32>
    ensures { result ≡ past (ops_count body.now) place }
{
    past_instrs(body.as_slice(), place)
}

#[cycle(past)]
fn past_instrs(instrs: &[Instr], place: u32) -> Option<u32>
    ensures { result ≡ past (ops_count (ops_of (map op_of instrs.now))) place }
{
    let mut left = place;
    for instr in instrs {
        left = past_instr(instr, left)?;
    }
    Some(left)
}

/// How many instructions these are, those inside blocks included; 2^32 - 1 if there are more.
pub fn count_instrs(instrs: &[Instr]) -> u32
    ensures { result ≡ min (ops_count (ops_of (map op_of instrs.now))) (2 ^ 32 - 1) }
{
    match past_instrs(instrs, u32::MAX) {
        Some(left) => u32::MAX - left,
        None => u32::MAX,
    }
}

/// How many instructions the sequence has, those inside blocks included; 2^32 - 1 if there are more.
pub fn count_body(body: &Body) -> u32
    ensures { result ≡ min (ops_count body.now) (2 ^ 32 - 1) }
{
    count_instrs(body.as_slice())
}
