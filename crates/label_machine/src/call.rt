//! Calls (4.4.7).

ghost use Rattle.std.specs.Prelude.{◌≡◌, ◌≢◌, ℕ, IfOk, OnOk, MatchOption, Some, map, take, drop, reverse, length, slice_get};
ghost use Rattle.wasm_ast.specs.Types.{type_of, zero_of};
ghost use Rattle.oci_config.specs.declared.process.ProcessConfig.{ProcessConfig};
ghost use Rattle.wasi_calls.specs.HostCalls.{host_type};
ghost use Rattle.step_machine.specs.Program.{Program, own, host as system, program};
ghost use Rattle.label_machine.specs.declared.run.Run.{Run as AnyRun};
ghost use Rattle.label_machine.specs.declared.run.Step.TheVariants as step;
ghost use Rattle.label_machine.specs.declared.run.Doing.TheVariants as doing;
ghost use Rattle.label_machine.specs.Inside.Calls.{CallLeads, CallLightens};
ghost use Rattle.label_machine.specs.Inside.Runs.{config, IsWithin, IsOf, Leads, Limited};
ghost use Rattle.label_machine.specs.Inside.Weights.{weight, IsLighter};

use crate::callee::{Callee, called, function_at};
use crate::pile::Pile;
use crate::room::is_within;
use crate::run::{Doing, Run, Step};
use std::alloc::{AllocError, Global};
use std::mem;
use step_machine::End;
use wasi_calls::{HostCall, HostEnd, host};
use wasm_ast::{Func, FuncType, Module, Trap, ValType, Value};

/// An execution that has ended so: its store is left.
fn ended(run: Run, end: End) -> Step
    ensures { result ≡ step.Ends end run.entry.store }
{
    Step::Ends(end, run.store)
}

/// Data that go on so, or that have passed a limit: then the execution traps.
pub fn limited(run: Run, doing: Doing) -> Step
    ensures { Limited run.entry doing result }
{
    if is_within(&run) {
        Step::Goes(run, doing)
    } else {
        ended(run, End::Trapped(Trap::Exhausted))
    }
}

/// What a call comes to, once the data are as it leaves them.
#[derive(Clone, Copy)]
pub enum Outcome {
    /// They go on, if they are within the limits.
    Goes,
    /// The task has ended with this exit code.
    Exits(u32),
    /// There is no rule, to which no valid module comes.
    Stuck,
}

/// A call of a function of the module's own: a frame more.
fn call_own<'m>(
    alloc: Global,
    run: &mut Run<'m>,
    func: u32,
    func_type: &FuncType,
    found: &'m Func,
) -> Result<Outcome, AllocError>
    ensures leads { IfOk result (λ o. (p : Program) → IsOf p run.old.pending run.old.store
        → slice_get p.functions func
        ≡ Some (own func_type.now (map zero_of found.now.locals) found.now.body)
        → CallLeads p run.old run.new func o) }
    ensures lighter { IfOk result (CallLightens run.old run.new func) }
{
    let args = run.top.operands.take(alloc, func_type.params.len())?;
    let inner = called(alloc, func, func_type, found, args.into_oldest_first())?;
    let outer = mem::replace(&mut run.top, inner);
    run.callers.push(outer)?;
    Ok(Outcome::Goes)
}

/// The types of values.
fn types_of(alloc: Global, values: &[Value]) -> Result<Vec<ValType>, AllocError>
    ensures { IfOk result (λ v. v.items ≡ map type_of values.now) }
{
    let mut types = Vec::new(alloc);
    for value in values {
        types.push(match value {
            Value::I32(_) => ValType::I32,
            Value::I64(_) => ValType::I64,
        })?;
    }
    Ok(types)
}

/// The arguments of a system call, taken from the operands; None if these are not of its types.
fn arguments(
    alloc: Global,
    operands: &mut Pile<Value>,
    call: HostCall,
) -> Result<Option<Vec<Value>>, AllocError>
    ensures taken { let args = reverse (take (length (host_type call).params) operands.old) in
        IfOk result (λ found. MatchOption found
        (map type_of args ≢ (host_type call).params)
        (λ values. (values.items ≡ args) × (map type_of values.items ≡ (host_type call).params))) }
    ensures left { OnOk result
        (operands.new ≡ drop (length (host_type call).params) operands.old) }
{
    let args = operands
        .take(alloc, call.params().len())?
        .into_oldest_first();
    if types_of(alloc, args.as_slice())?.as_slice() == call.params() {
        Ok(Some(args))
    } else {
        Ok(None)
    }
}

/// A system call, which is made at once and may end the task; stuck if its arguments are not there.
fn call_system(alloc: Global, run: &mut Run, call: HostCall) -> Result<Outcome, AllocError>
    ensures leads { IfOk result (λ o. (p : Program) (func : ℕ) → IsWithin run.old
        → IsOf p run.old.pending run.old.store
        → slice_get p.functions func ≡ Some (system call)
        → CallLeads p run.old run.new func o) }
    ensures lighter { IfOk result (λ o. (func : ℕ) → CallLightens run.old run.new func o) }
{
    let Some(args) = arguments(alloc, &mut run.top.operands, call)? else {
        return Ok(Outcome::Stuck);
    };
    let store = &mut run.store;
    match host(
        call,
        args.as_slice(),
        Some(&mut store.memory),
        &mut store.process,
    ) {
        HostEnd::Value(number) => {
            run.top.operands.push(Value::I32(number))?;
            Ok(Outcome::Goes)
        }
        // No call answers so.
        HostEnd::Nothing => unreachable!(),
        HostEnd::Exit(number) => Ok(Outcome::Exits(number)),
    }
}

/// What a call of a function makes of the data, imports counted first; stuck if there is none.
fn call_found<'m>(
    alloc: Global,
    of: &'m Module,
    run: &mut Run<'m>,
    func: u32,
) -> Result<Outcome, AllocError>
    ensures leads { IfOk result (λ o. (p : ProcessConfig) → IsWithin run.old
        → IsOf (program of.now p) run.old.pending run.old.store
        → CallLeads (program of.now p) run.old run.new func o) }
    ensures lighter { IfOk result (CallLightens run.old run.new func) }
{
    match function_at(of, func) {
        Some(Callee::System(call)) => call_system(alloc, run, call),
        Some(Callee::Own(func_type, found)) => call_own(alloc, run, func, func_type, found),
        None => Ok(Outcome::Stuck),
    }
}

/// What follows a call: the data go on, unless they have passed a limit, or the execution has ended.
fn after_call(run: Run, outcome: Outcome) -> Step
    ensures leads { (p : Program) (x : AnyRun) (func : ℕ) → CallLeads p x run.entry func outcome
        → Leads p (config x (doing.Calls func)) result }
    ensures lighter { (x : AnyRun) (func : ℕ) → CallLightens x run.entry func outcome
        → IsLighter (weight x (doing.Calls func)) result }
{
    match outcome {
        Outcome::Goes => limited(run, Doing::Next),
        Outcome::Exits(number) => ended(run, End::Exited(number)),
        Outcome::Stuck => {
            mem::drop(run);
            Step::Stuck
        }
    }
}

/// A call of a function, imports counted first (4.4.7); stuck if there is none.
pub fn call<'m>(
    alloc: Global,
    of: &'m Module,
    mut run: Run<'m>,
    func: u32,
) -> Result<Step<'m>, AllocError>
    ensures leads { (p : ProcessConfig) → IfOk result (λ s. IsWithin run.entry
        → IsOf (program of.now p) run.entry.pending run.entry.store
        → Leads (program of.now p) (config run.entry (doing.Calls func)) s) }
    ensures lighter { IfOk result (IsLighter (weight run.entry (doing.Calls func))) }
{
    match call_found(alloc, of, &mut run, func) {
        Ok(outcome) => Ok(after_call(run, outcome)),
        Err(error) => {
            mem::drop(run);
            Err(error)
        }
    }
}
