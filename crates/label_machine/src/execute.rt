//! One turn: the instruction that is next (4.4).

ghost use Rattle.std.specs.Prelude.{◌≡◌, ◌+◌, ◌<◌, ◌^◌, ◌∷◌, [], ℕ, IfOk, MatchOption, None};
ghost use Rattle.oci_config.specs.declared.process.ProcessConfig.{ProcessConfig};
ghost use Rattle.wasm_ast.specs.Syntax.{Op, simple, if', count, ops_count};
ghost use Rattle.wasm_ast.specs.View.{op_of};
ghost use Rattle.wasm_ast.specs.Types.{block_type as type_of_block};
ghost use Rattle.wasm_ast.specs.declared.instr.BlockType.{BlockType as AnyBlockType};
ghost use Rattle.step_machine.specs.Program.{Program, program};
ghost use Rattle.step_machine.specs.Turns.{turn};
ghost use Rattle.label_machine.specs.declared.run.Run.{Run as AnyRun};
ghost use Rattle.label_machine.specs.declared.run.Step.TheVariants as step;
ghost use Rattle.label_machine.specs.declared.run.Doing.TheVariants as doing;
ghost use Rattle.label_machine.specs.Inside.Places.{first_end, repeated};
ghost use Rattle.label_machine.specs.Inside.Turns.{HasCounts, Does, Enters};
ghost use Rattle.label_machine.specs.Inside.Runs.{about_to, config, IsWithin, IsOf, LeadsTo, Limited};

use crate::call::limited;
use crate::effect::Effect;
use crate::frame::Frame;
use crate::label::{Ahead, Label, Target};
use crate::numeric::take_i32;
use crate::places::{places_in, places_of};
use crate::run::{Doing, Run, Step};
use crate::simple::do_simple;
use std::alloc::{AllocError, Global};
use step_machine::End;
use wasm_ast::{Arms, BlockType, Body, Instr, Module, Simple};

/// What follows once an instruction has done what it does by itself: calls, branches and returns are on
/// their way from here.
fn after_effect(run: Run, effect: Effect) -> Step
    ensures { (p : Program) (x : AnyRun) (place : ℕ) (o : Op)
        → Does p x run.entry place o effect → IsWithin x
        → IsOf p run.entry.pending run.entry.store
        → LeadsTo p (turn p (about_to x place o)) result }
{
    match effect {
        Effect::Done => limited(run, Doing::Next),
        Effect::Calls(func) => limited(run, Doing::Calls(func)),
        Effect::Branches(label) => limited(run, Doing::Branches(label)),
        Effect::Returns => limited(run, Doing::Returns),
        Effect::Traps(trap) => Step::Ends(End::Trapped(trap), run.store),
        Effect::Stuck => Step::Stuck,
    }
}

/// The turn of an instruction without a body, after which the data go on at the next one.
fn run_simple<'m>(of: &'m Module, run: Run<'m>, instr: &Simple) -> Result<Step<'m>, AllocError>
    ensures { (p : ProcessConfig) (place : ℕ) → run.entry.top.ahead.place ≡ place + 1
        → IfOk result (λ s. IsWithin run.entry
        → IsOf (program of.now p) run.entry.pending run.entry.store
        → LeadsTo (program of.now p)
        (turn (program of.now p) (about_to run.entry place (simple instr.now))) s) }
{
    let Run {
        top,
        callers,
        pending,
        mut store,
    } = run;
    let Frame {
        arity,
        func,
        mut locals,
        labels,
        mut operands,
        ahead,
    } = top;
    let effect = do_simple(of, &mut store, &mut locals, &mut operands, instr)?;
    let run = Run {
        top: Frame {
            arity,
            func,
            locals,
            labels,
            operands,
            ahead,
        },
        callers,
        pending,
        store,
    };
    Ok(after_effect(run, effect))
}

/// How many values a block takes and gives.
#[derive(Clone, Copy)]
struct Counts {
    params: usize,
    results: usize,
}

/// What a block of this type takes and gives (2.4.5; by index Core 2.0, 2.4.8); None if the index names no
/// type.
fn counts_of(of: &Module, block_type: BlockType) -> Option<Counts>
    ensures { MatchOption result
        (type_of_block of.now.types block_type ≡ None)
        (λ c. HasCounts (type_of_block of.now.types block_type) c.params c.results) }
{
    match block_type {
        BlockType::Empty => Some(Counts {
            params: 0,
            results: 0,
        }),
        BlockType::One(_) => Some(Counts {
            params: 0,
            results: 1,
        }),
        BlockType::Index(index) => {
            let found = of.type_with(index)?;
            Some(Counts {
                params: found.params.len(),
                results: found.results.len(),
            })
        }
    }
}

/// Enters a body, of which the first instruction has this place. It takes this many of the newest operands;
/// the others stay below its label.
fn enter<'m>(
    alloc: Global,
    run: Run<'m>,
    taken: usize,
    arity: usize,
    place: u32,
    target: Target<'m>,
    first: u32,
    body: &'m Body,
) -> Result<Step<'m>, AllocError>
    requires fits { first_end place (repeated target) < 2 ^ 32 }
    ensures { IfOk result (λ s. (y : AnyRun) × Limited y doing.Next s
        × Enters run.entry y taken arity place target.entry first body.now) }
{
    let Run {
        top,
        callers,
        pending,
        store,
    } = run;
    let Frame {
        arity: gives,
        func,
        locals,
        mut labels,
        mut operands,
        ahead: _,
    } = top;
    let params = operands.take(alloc, taken)?;
    labels.push(Label {
        arity,
        place,
        target,
        below: operands,
    })?;
    let run = Run {
        top: Frame {
            arity: gives,
            func,
            locals,
            labels,
            operands: params,
            ahead: Ahead {
                place: first,
                rest: body.as_slice(),
            },
        },
        callers,
        pending,
        store,
    };
    Ok(limited(run, Doing::Next))
}

/// An if (4.4.5), after which the data go on at the next instruction: enters the arm that its condition
/// chooses; stuck if there is no condition.
fn choose<'m>(
    alloc: Global,
    run: Run<'m>,
    counts: Counts,
    place: u32,
    then_arm: &'m Body,
    else_arm: &'m Body,
) -> Result<Step<'m>, AllocError>
    requires counted { run.top.ahead.place
        ≡ place + (1 + ops_count then_arm.now + ops_count else_arm.now) }
    ensures { IfOk result (λ s. (p : Program) (b : AnyBlockType)
        → HasCounts (type_of_block p.types b) counts.params counts.results
        → IsOf p run.entry.pending run.entry.store
        → LeadsTo p (turn p (about_to run.entry place (if' b then_arm.now else_arm.now))) s) }
{
    let Run {
        mut top,
        callers,
        pending,
        store,
    } = run;
    let after = Target::After(top.ahead);
    let first = place + 1;
    let second = first + places_in(then_arm).unwrap();
    let Some(condition) = take_i32(&mut top.operands) else {
        return Ok(Step::Stuck);
    };
    let run = Run {
        top,
        callers,
        pending,
        store,
    };
    let Counts { params, results } = counts;
    if condition > 0 {
        enter(alloc, run, params, results, place, after, first, then_arm)
    } else {
        enter(alloc, run, params, results, place, after, second, else_arm)
    }
}

/// The turn of an instruction at this place, after which the data go on at the next one. `from` are the
/// instructions from it on. Stuck if it is a block that has no type.
fn run_instr<'m>(
    alloc: Global,
    of: &'m Module,
    run: Run<'m>,
    place: u32,
    from: &'m [Instr],
    instr: &'m Instr,
) -> Result<Step<'m>, AllocError>
    requires counted { run.top.ahead.place ≡ place + count (op_of instr.now) }
    requires from { from.now ≡ instr.now ∷ run.top.ahead.rest.now }
    ensures { (p : ProcessConfig) → IfOk result (λ s. IsWithin run.entry
        → IsOf (program of.now p) run.entry.pending run.entry.store
        → LeadsTo (program of.now p)
        (turn (program of.now p) (about_to run.entry place (op_of instr.now))) s) }
{
    let after = Target::After(run.top.ahead);
    match instr {
        Instr::Simple(simple) => run_simple(of, run, simple),
        Instr::Block(t, body) => {
            let Some(Counts { params, results }) = counts_of(of, *t) else {
                return Ok(Step::Stuck);
            };
            enter(alloc, run, params, results, place, after, place + 1, body)
        }
        Instr::Loop(t, body) => {
            let Some(Counts { params, .. }) = counts_of(of, *t) else {
                return Ok(Step::Stuck);
            };
            let again = Target::Again(from);
            enter(alloc, run, params, params, place, again, place + 1, body)
        }
        Instr::If(t, arms) => match counts_of(of, *t) {
            Some(counts) => {
                let Arms { then_arm, else_arm } = &**arms;
                choose(alloc, run, counts, place, then_arm, else_arm)
            }
            None => Ok(Step::Stuck),
        },
    }
}

/// A turn: the instruction that is next (4.4), up to the next one or to what is on its way from it.
pub fn execute<'m>(alloc: Global, of: &'m Module, run: Run<'m>) -> Result<Step<'m>, AllocError>
    requires next { (run.top.ahead.rest.now ≡ []) → ⊥ }
    requires fits { first_end run.top.ahead.place run.top.ahead.rest.now < 2 ^ 32 }
    ensures { (p : ProcessConfig) → IfOk result (λ s. IsWithin run.entry
        → IsOf (program of.now p) run.entry.pending run.entry.store
        → LeadsTo (program of.now p)
        (turn (program of.now p) (config run.entry doing.Next)) s) }
{
    let Run {
        mut top,
        callers,
        pending,
        store,
    } = run;
    let Ahead { place, rest: from } = top.ahead;
    let Some((instr, rest)) = from.split_first() else {
        unreachable!();
    };
    top.ahead = Ahead {
        place: place + places_of(instr).unwrap(),
        rest,
    };
    let run = Run {
        top,
        callers,
        pending,
        store,
    };
    run_instr(alloc, of, run, place, from, instr)
}
