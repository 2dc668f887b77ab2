//! What is outside all frames (4.4.7, 4.5.5).

ghost use Rattle.std.specs.Prelude.{◌≡◌, ◌+◌, ◌<◌, ℕ, List, None, [], IfOk, MatchOption, length};
ghost use Rattle.wasm_ast.specs.declared.module.Module.{Module as AnyModule};
ghost use Rattle.wasm_ast.specs.declared.values.Value.{Value as AnyValue};
ghost use Rattle.oci_config.specs.declared.process.ProcessConfig.{ProcessConfig};
ghost use Rattle.wasm_ast.specs.declared.values.FuncType.{FuncType as AnyType};
ghost use Rattle.step_machine.specs.Program.{program};
ghost use Rattle.step_machine.specs.Configuration.{running, seq, more, invoke};
ghost use Rattle.label_machine.specs.Inside.Callees.{IsCallOf};
ghost use Rattle.label_machine.specs.Inside.View.{level_of};
ghost use Rattle.label_machine.specs.Inside.Runs.{configured, tail_from, IsPending, IsOf, Leads};
ghost use Rattle.label_machine.specs.Inside.Weights.{pending_weight, IsLighter};

use crate::call::limited;
use crate::callee::{Callee, called, function_at};
use crate::frame::Frame;
use crate::pile::Pile;
use crate::run::{Doing, Run, Step};
use crate::store::Store;
use std::alloc::{AllocError, Global};
use step_machine::{End, MAX_VALUES};
use wasm_ast::{Module, Trap};

/// The frame of a function that is invoked outside all frames (4.4.7): one of the module's own that takes
/// nothing; None if it is another.
fn first_frame(alloc: Global, of: &Module, func: u32) -> Result<Option<Frame>, AllocError>
    ensures { IfOk result (λ found. MatchOption found
        ((p : ProcessConfig) → IsPending (program of.now p) func → ⊥)
        (λ f. (t : AnyType) × (t.params ≡ []) × IsCallOf of.now func t [] (level_of f))) }
{
    match function_at(of, func) {
        Some(Callee::Own(func_type, found)) if func_type.params.len() == 0 => {
            Ok(Some(called(alloc, func, func_type, found, Vec::new(alloc))?))
        }
        _ => Ok(None),
    }
}

/// Invokes a function outside all frames, before what is pending after it (4.4.7).
pub fn begin(
    alloc: Global,
    of: &Module,
    func: u32,
    pending: Option<u32>,
    store: Store,
) -> Result<Step, AllocError>
    ensures leads { (p : ProcessConfig) → IfOk result (λ s. IsPending (program of.now p) func
        → IsOf (program of.now p) pending store
        → Leads (program of.now p)
        (configured store (running (seq [] (more (invoke func) (tail_from pending))))) s) }
    ensures lighter { IfOk result (IsLighter (2 + pending_weight pending)) }
{
    let Some(top) = first_frame(alloc, of, func)? else {
        return Ok(Step::Stuck);
    };
    let callers = Pile::new(alloc);
    let run = Run {
        top,
        callers,
        pending,
        store,
    };
    Ok(limited(run, Doing::Next))
}

/// A function that takes nothing is invoked above operands outside all frames, with nothing pending after
/// it: where it has not ended by then, no valid module comes.
fn begin_above(count: usize, top: Frame, store: Store) -> Step
    ensures leads { (p : ProcessConfig) (m : AnyModule) (func : ℕ) (t : AnyType)
        (vs : List AnyValue)
        → length vs ≡ count → 0 < count → t.params ≡ []
        → IsCallOf m func t [] (level_of top.entry) → IsOf (program m p) None store
        → Leads (program m p)
        (configured store (running (seq vs (more (invoke func) (tail_from None))))) result }
    ensures lighter { IsLighter 0 result }
{
    if count > MAX_VALUES || top.locals.len() > MAX_VALUES - count {
        return Step::Ends(End::Trapped(Trap::Exhausted), store);
    }
    if top.ahead.rest.is_empty() {
        return Step::Ends(End::Returned, store);
    }
    Step::Stuck
}

/// The outermost frame gives this many values: the function that is pending is invoked, if there is one.
pub fn finish(
    alloc: Global,
    of: &Module,
    count: usize,
    pending: Option<u32>,
    store: Store,
) -> Result<Step, AllocError>
    ensures leads { (p : ProcessConfig) (vs : List AnyValue) → length vs ≡ count
        → IfOk result (λ s. IsOf (program of.now p) pending store
        → Leads (program of.now p) (configured store (running (seq vs (tail_from pending)))) s) }
    ensures lighter { IfOk result (IsLighter (1 + pending_weight pending)) }
{
    let Some(func) = pending else {
        return Ok(Step::Ends(End::Returned, store));
    };
    if count == 0 {
        return begin(alloc, of, func, None, store);
    }
    match first_frame(alloc, of, func)? {
        Some(top) => Ok(begin_above(count, top, store)),
        None => Ok(Step::Stuck),
    }
}
