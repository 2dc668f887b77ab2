//! What branches and indirect calls come to (4.4.5).

ghost use Rattle.std.specs.Prelude.{◌≡◌, List, Some, slice_get, unwrap_or};
ghost use Rattle.flat_code.specs.TypeClasses.{is_of_type};
ghost use Rattle.wasm_ast.specs.declared.values.Value.{Value as AnyValue};
ghost use Rattle.oci_config.specs.declared.process.ProcessConfig.{ProcessConfig};
ghost use Rattle.step_machine.specs.Program.{type_of_function, functions, program};
ghost use Rattle.step_machine.specs.Effects.{Env, branch_if, branch_by, call_indirect, call_entry};
ghost use Rattle.label_machine.specs.Inside.Effects.{effect_of};

use crate::callee::{Callee, function_at};
use crate::effect::Effect;
use crate::numeric::take_i32;
use crate::pile::Pile;
use wasm_ast::{FuncType, Module, Trap, ValType, Value, are_same_types};

/// `br_if` (4.4.5).
#[tactic(auto, using(crate::proofs::NumericLemmas::branches_by_none))]
pub fn branch_if(operands: &mut Pile<Value>, label: u32) -> Effect
    ensures { (env : Env) → branch_if env operands.old label
        ≡ effect_of result env operands.new }
{
    match take_i32(operands) {
        Some(0) => Effect::Done,
        Some(_) => Effect::Branches(label),
        None => Effect::Stuck,
    }
}

/// The label with this index, or the other.
fn label_for(labels: &[u32], index: u32, other: u32) -> u32
    ensures { result ≡ unwrap_or (slice_get labels.now index) other }
{
    match labels.get(index as usize) {
        Some(label) => *label,
        None => other,
    }
}

/// `br_table` (4.4.5).
#[tactic(auto, using(crate::proofs::NumericLemmas::takes_none))]
pub fn branch_by(operands: &mut Pile<Value>, labels: &[u32], other: u32) -> Effect
    ensures { (env : Env) → branch_by operands.old labels.now other
        ≡ effect_of result env operands.new }
{
    match take_i32(operands) {
        Some(index) => Effect::Branches(label_for(labels, index, other)),
        None => Effect::Stuck,
    }
}

fn has_type(expected: &FuncType, params: &[ValType], results: &[ValType]) -> bool
    ensures { result ≡ is_of_type expected.now
        (Some (record { params = params.now; results = results.now })) }
{
    are_same_types(expected.params.as_slice(), params)
        && are_same_types(expected.results.as_slice(), results)
}

/// Whether there is a function and it is of a type.
fn is_function_of(of: &Module, expected: &FuncType, func: u32) -> bool
    ensures { result ≡ is_of_type expected.now
        (type_of_function (slice_get (functions of.now) func)) }
{
    match function_at(of, func) {
        Some(Callee::System(call)) => has_type(expected, call.params(), call.results()),
        Some(Callee::Own(found, _)) => has_type(
            expected,
            found.params.as_slice(),
            found.results.as_slice(),
        ),
        None => false,
    }
}

/// What a call of this entry of the table comes to, with this type expected.
fn call_entry(of: &Module, index: u32, entry: Option<Option<u32>>) -> Effect
    ensures { (p : ProcessConfig) (env : Env) (rest : List AnyValue)
        → call_entry (program of.now p) (slice_get of.now.types index) entry rest
        ≡ effect_of result env rest }
{
    let func = match entry {
        None => return Effect::Traps(Trap::UndefinedElement),
        Some(None) => return Effect::Traps(Trap::UninitializedElement),
        Some(Some(func)) => func,
    };
    let Some(expected) = of.type_with(index) else {
        return Effect::Stuck;
    };
    if is_function_of(of, expected, func) {
        Effect::Calls(func)
    } else {
        Effect::Traps(Trap::IndirectCallTypeMismatch)
    }
}

/// `call_indirect` (4.4.5).
#[tactic(auto, using(crate::proofs::NumericLemmas::takes_none))]
pub fn call_indirect(
    of: &Module,
    operands: &mut Pile<Value>,
    table: &[Option<u32>],
    index: u32,
) -> Effect
    ensures { (p : ProcessConfig) (env : Env) → env.store.table ≡ table.now
        → call_indirect (program of.now p) env operands.old index
        ≡ effect_of result env operands.new }
{
    match take_i32(operands) {
        Some(entry) => call_entry(of, index, table.get(entry as usize).copied()),
        None => Effect::Stuck,
    }
}
