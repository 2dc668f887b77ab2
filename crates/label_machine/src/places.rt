//! How many places instructions take.

ghost use Rattle.std.specs.Prelude.{◌≡◌, ◌+◌, ◌<◌, ◌≤◌, ◌^◌, MatchOption};
ghost use Rattle.wasm_ast.specs.Syntax.{count, ops_count};
ghost use Rattle.wasm_ast.specs.View.{op_of};

use wasm_ast::{Arms, Body, Instr};

/// The places of a sequence, those inside blocks included; None if there are 2^32 or more.
#[cycle(places)]
pub fn places_in(body: &Body) -> Option<u32>
    ensures { MatchOption result
        (2 ^ 32 ≤ ops_count body.now)
        (λ n. n ≡ ops_count body.now) }
{
    let mut total: u32 = 0;
    for instr in body.as_slice() {
        total = total.checked_add(places_of(instr)?)?;
    }
    Some(total)
}

/// The places of an instruction, those inside it included; None if there are 2^32 or more.
#[cycle(places)]
pub fn places_of(instr: &Instr) -> Option<u32>
    ensures { MatchOption result
        (2 ^ 32 ≤ count (op_of instr.now))
        (λ n. n ≡ count (op_of instr.now)) }
{
    match instr {
        Instr::Simple(_) => Some(1),
        Instr::Block(_, body) | Instr::Loop(_, body) => places_in(body)?.checked_add(1),
        Instr::If(_, arms) => {
            let Arms { then_arm, else_arm } = &**arms;
            places_in(then_arm)?
                .checked_add(places_in(else_arm)?)?
                .checked_add(1)
        }
    }
}
