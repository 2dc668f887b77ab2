//! System calls, which are made in the turn of their call (4.4.7).

ghost use Rattle.std.specs.Prelude.{◌≡◌, ◌+◌, ◌<◌, ◌^◌, true, ◌∷◌, [], is_some, map};
ghost use Rattle.wasm_ast.specs.declared.values.ValType.TheVariants.{I32};
ghost use Rattle.wasm_ast.specs.Types.{type_of};
ghost use Rattle.wasi_calls.specs.HostCalls.{host_type};
ghost use Rattle.step_machine.specs.Inside.FlatState.{call_system, made_with, leaves, host_answered};
ghost use Rattle.step_machine.specs.Inside.Does.{Pushes, Goes, Answers};

use crate::current::{Current, MAX_VALUES};
use crate::do_values::{FAULT, low};
use crate::ends::End;
use crate::kept::Kept;
use wasi_calls::{HostCall, HostEnd, host};
use wasm_ast::{Trap, Value};

const EXHAUSTED: Option<End> = Some(End::Trapped(Trap::Exhausted));

/// Pushes the result of a system call, if it has one; or ends the task.
#[inline(always)]
fn answer(at: &mut Current, answer: HostEnd) -> Option<End>
    requires { Pushes true at.old }
    ensures goes { Goes (λ x. host_answered answer x.words x) at.old result at.new }
    ensures ended { is_some result ≡ leaves answer }
{
    match answer {
        HostEnd::Value(number) => {
            at.stack.push(u64::from(number));
            at.cell += 1;
            None
        }
        HostEnd::Nothing => {
            at.cell += 1;
            None
        }
        HostEnd::Exit(code) => Some(End::Exited(code)),
    }
}

/// Makes a system call with these arguments, which have been taken from the stack.
#[inline(always)]
fn make(at: &mut Current, kept: &mut Kept, call: HostCall, args: &[Value]) -> Option<End>
    requires cell { at.old.cell + 1 < 2 ^ 64 }
    requires types { map type_of args.now ≡ (host_type call).params }
    ensures { Answers (λ x. made_with call args.now x.words x) at.old kept.old
        result at.new kept.new }
{
    if at.stack.len() >= MAX_VALUES {
        return EXHAUSTED;
    }
    let end = host(call, args, Some(&mut kept.memory), &mut kept.process);
    answer(at, end)
}

/// A system call with one argument.
#[inline(always)]
fn make_with_one(at: &mut Current, kept: &mut Kept, call: HostCall) -> Option<End>
    requires cell { at.old.cell + 1 < 2 ^ 64 }
    requires types { (host_type call).params ≡ I32 ∷ [] }
    ensures { Answers (λ x. call_system call x.words x) at.old kept.old result at.new kept.new }
{
    let Some(first) = at.stack.pop() else {
        return FAULT;
    };
    make(at, kept, call, &[Value::I32(low(first))])
}

/// A system call with two arguments.
#[inline(always)]
fn make_with_two(at: &mut Current, kept: &mut Kept, call: HostCall) -> Option<End>
    requires cell { at.old.cell + 1 < 2 ^ 64 }
    requires types { (host_type call).params ≡ I32 ∷ I32 ∷ [] }
    ensures { Answers (λ x. call_system call x.words x) at.old kept.old result at.new kept.new }
{
    let Some(second) = at.stack.pop() else {
        return FAULT;
    };
    let Some(first) = at.stack.pop() else {
        return FAULT;
    };
    let args = [Value::I32(low(first)), Value::I32(low(second))];
    make(at, kept, call, &args)
}

/// A system call with four arguments.
#[inline(always)]
fn make_with_four(at: &mut Current, kept: &mut Kept, call: HostCall) -> Option<End>
    requires cell { at.old.cell + 1 < 2 ^ 64 }
    requires types { (host_type call).params ≡ I32 ∷ I32 ∷ I32 ∷ I32 ∷ [] }
    ensures { Answers (λ x. call_system call x.words x) at.old kept.old result at.new kept.new }
{
    let Some(fourth) = at.stack.pop() else {
        return FAULT;
    };
    let Some(third) = at.stack.pop() else {
        return FAULT;
    };
    let Some(second) = at.stack.pop() else {
        return FAULT;
    };
    let Some(first) = at.stack.pop() else {
        return FAULT;
    };
    let args = [
        Value::I32(low(first)),
        Value::I32(low(second)),
        Value::I32(low(third)),
        Value::I32(low(fourth)),
    ];
    make(at, kept, call, &args)
}

/// A system call, with arguments from the stack.
#[inline(always)]
pub fn call_system(at: &mut Current, kept: &mut Kept, call: HostCall) -> Option<End>
    requires { at.old.cell + 1 < 2 ^ 64 }
    ensures { Answers (λ x. call_system call x.words x) at.old kept.old result at.new kept.new }
{
    match call {
        HostCall::SchedYield => make(at, kept, call, &[]),
        HostCall::ProcExit => make_with_one(at, kept, call),
        HostCall::FdWrite => make_with_four(at, kept, call),
        HostCall::ArgsSizesGet
        | HostCall::ArgsGet
        | HostCall::EnvironSizesGet
        | HostCall::EnvironGet => make_with_two(at, kept, call),
    }
}
