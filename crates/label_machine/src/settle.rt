//! Administrative reductions (4.4.5 to 4.4.7): each leads from a configuration to one that settles
//! as it does.

ghost use Rattle.std.specs.Prelude.{◌≡◌, ◌+◌, [], IfOk, map};
ghost use Rattle.oci_config.specs.declared.process.ProcessConfig.{ProcessConfig};
ghost use Rattle.step_machine.specs.Program.{program};
ghost use Rattle.step_machine.specs.Configuration.{Configuration, running, seq, more, invoke};
ghost use Rattle.label_machine.specs.Inside.View.{level_of};
ghost use Rattle.label_machine.specs.Inside.Runs.{config, configured, given, tail_from, IsWithin, IsOf, IsSettled, Leads, LeadsTo, GivesWithin};
ghost use Rattle.label_machine.specs.Inside.Weights.{levels_weight, pending_weight, weight, IsLighter};
ghost use Rattle.label_machine.specs.declared.run.Doing.TheVariants as doing;

use crate::call::call;
use crate::frame::{branch_to, leave_block};
use crate::outermost::finish;
use crate::pile::Pile;
use crate::run::{Doing, Outside, Run, Step};
use std::alloc::{AllocError, Global};
use wasm_ast::{Module, Value};

/// A frame ends and gives these values (4.4.7): to the frame that called it, or outside all frames.
fn give<'m>(
    alloc: Global,
    of: &'m Module,
    results: Pile<Value>,
    outside: Outside<'m>,
) -> Result<Step<'m>, AllocError>
    ensures leads { (p : ProcessConfig) → let o = outside.entry in
        IfOk result (λ s. GivesWithin results (map level_of o.callers)
        → IsOf (program of.now p) o.pending o.store
        → Leads (program of.now p)
        (configured o.store
        (running (given results (map level_of o.callers) (tail_from o.pending)))) s) }
    ensures lighter { let o = outside.entry in
        IfOk result
        (IsLighter (1 + levels_weight (map level_of o.callers) + pending_weight o.pending)) }
{
    let Outside {
        mut callers,
        pending,
        store,
    } = outside;
    let Some(mut top) = callers.pop() else {
        return finish(alloc, of, results.len(), pending, store);
    };
    top.operands.put(&results)?;
    let run = Run {
        top,
        callers,
        pending,
        store,
    };
    Ok(Step::Goes(run, Doing::Next))
}

/// What follows in the innermost block; or, at its end, that of the block (4.4.6) or of the frame (4.4.7).
fn next<'m>(alloc: Global, of: &'m Module, run: Run<'m>) -> Result<Step<'m>, AllocError>
    ensures leads { (p : ProcessConfig) → IfOk result (λ s. IsWithin run.entry
        → IsOf (program of.now p) run.entry.pending run.entry.store
        → Leads (program of.now p) (config run.entry doing.Next) s) }
    ensures lighter { IfOk result (IsLighter (weight run.entry doing.Next)) }
{
    let Run {
        mut top,
        callers,
        pending,
        store,
    } = run;
    if !top.ahead.rest.is_empty() {
        let run = Run {
            top,
            callers,
            pending,
            store,
        };
        return Ok(Step::Waits(run));
    }
    let Some(label) = top.labels.pop() else {
        let outside = Outside {
            callers,
            pending,
            store,
        };
        return give(alloc, of, top.operands, outside);
    };
    let run = Run {
        top: leave_block(top, label)?,
        callers,
        pending,
        store,
    };
    Ok(Step::Goes(run, Doing::Next))
}

/// A branch (4.4.5): to the innermost label, out of it, or, at the body's label, out of the frame.
/// Stuck if there is no such label.
fn branch<'m>(
    alloc: Global,
    of: &'m Module,
    run: Run<'m>,
    label: u32,
) -> Result<Step<'m>, AllocError>
    ensures leads { (p : ProcessConfig) → IfOk result (λ s. IsWithin run.entry
        → IsOf (program of.now p) run.entry.pending run.entry.store
        → Leads (program of.now p) (config run.entry (doing.Branches label)) s) }
    ensures lighter { IfOk result (IsLighter (weight run.entry (doing.Branches label))) }
{
    let Run {
        mut top,
        callers,
        pending,
        store,
    } = run;
    let Some(innermost) = top.labels.pop() else {
        if label > 0 {
            return Ok(Step::Stuck);
        }
        let arity = top.arity;
        let results = top.operands.take(alloc, arity)?;
        let outside = Outside {
            callers,
            pending,
            store,
        };
        return give(alloc, of, results, outside);
    };
    if label == 0 {
        let run = Run {
            top: branch_to(alloc, top, innermost)?,
            callers,
            pending,
            store,
        };
        return Ok(Step::Goes(run, Doing::Next));
    }
    let run = Run {
        top: leave_block(top, innermost)?,
        callers,
        pending,
        store,
    };
    Ok(Step::Goes(run, Doing::Branches(label - 1)))
}

/// A return (4.4.5): out of the innermost block, or, where none is open, out of the frame.
fn return_from<'m>(alloc: Global, of: &'m Module, run: Run<'m>) -> Result<Step<'m>, AllocError>
    ensures leads { (p : ProcessConfig) → IfOk result (λ s. IsWithin run.entry
        → IsOf (program of.now p) run.entry.pending run.entry.store
        → Leads (program of.now p) (config run.entry doing.Returns) s) }
    ensures lighter { IfOk result (IsLighter (weight run.entry doing.Returns)) }
{
    let Run {
        mut top,
        callers,
        pending,
        store,
    } = run;
    let Some(label) = top.labels.pop() else {
        let arity = top.arity;
        let results = top.operands.take(alloc, arity)?;
        let outside = Outside {
            callers,
            pending,
            store,
        };
        return give(alloc, of, results, outside);
    };
    let run = Run {
        top: leave_block(top, label)?,
        callers,
        pending,
        store,
    };
    Ok(Step::Goes(run, Doing::Returns))
}

/// One administrative reduction.
fn reduce<'m>(
    alloc: Global,
    of: &'m Module,
    run: Run<'m>,
    doing: Doing,
) -> Result<Step<'m>, AllocError>
    ensures leads { (p : ProcessConfig) → IfOk result (λ s. IsWithin run.entry
        → IsOf (program of.now p) run.entry.pending run.entry.store
        → Leads (program of.now p) (config run.entry doing) s) }
    ensures lighter { IfOk result (IsLighter (weight run.entry doing)) }
{
    match doing {
        Doing::Next => next(alloc, of, run),
        Doing::Calls(func) => call(alloc, of, run, func),
        Doing::Branches(label) => branch(alloc, of, run, label),
        Doing::Returns => return_from(alloc, of, run),
    }
}

/// Administrative reductions up to the next instruction or the end. Each leaves fewer labels and frames.
pub fn settle<'m>(alloc: Global, of: &'m Module, from: Step<'m>) -> Result<Step<'m>, AllocError>
    ensures { (p : ProcessConfig) (c : Configuration) → IfOk result (λ s.
        LeadsTo (program of.now p) c from.entry
        → IsSettled s × LeadsTo (program of.now p) c s) }
{
    let mut step = from;
    loop {
        match step {
            Step::Goes(run, doing) => step = reduce(alloc, of, run, doing)?,
            settled => return Ok(settled),
        }
    }
}
