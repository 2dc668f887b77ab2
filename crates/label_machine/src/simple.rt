//! What instructions without bodies come to (4.4.1 to 4.4.5).

ghost use Rattle.std.specs.Prelude.{◌≡◌, IfOk, false};
ghost use Rattle.oci_config.specs.declared.process.ProcessConfig.{ProcessConfig};
ghost use Rattle.step_machine.specs.Program.{program};
ghost use Rattle.step_machine.specs.Effects.{simple_effect};
ghost use Rattle.label_machine.specs.Inside.Effects.{effect_of, may_change};
ghost use Rattle.label_machine.specs.Inside.Runs.{store_of};

use crate::access::{grow, load, size, store};
use crate::control::{branch_by, branch_if, call_indirect};
use crate::effect::Effect;
use crate::numeric::{binary, compare, constant, convert, discard, select, test, unary};
use crate::pile::Pile;
use crate::store::Store;
use crate::variables::{use_global, use_local};
use std::alloc::AllocError;
use wasm_ast::{Module, Simple, Trap, Value};

/// What an instruction does with the store, the locals and the operands. An error if memory runs out.
pub fn do_simple(
    of: &Module,
    kept: &mut Store,
    locals: &mut Vec<Value>,
    operands: &mut Pile<Value>,
    instr: &Simple,
) -> Result<Effect, AllocError>
    ensures effect { IfOk result (λ e. (p : ProcessConfig)
        → simple_effect (program of.now p)
        (record { store = store_of kept.old; locals = locals.old.items }) operands.old instr.now
        ≡ effect_of e
        (record { store = store_of kept.new; locals = locals.new.items }) operands.new) }
    ensures kept { IfOk result (λ e. may_change e ≡ false → (store_of kept.new ≡ store_of kept.old)
        × (locals.new.items ≡ locals.old.items)) }
    ensures process { kept.new.process ≡ kept.old.process }
{
    match instr {
        Simple::Unreachable => Ok(Effect::Traps(Trap::Unreachable)),
        Simple::Nop => Ok(Effect::Done),
        Simple::Br(label) => Ok(Effect::Branches(*label)),
        Simple::BrIf(label) => Ok(branch_if(operands, *label)),
        Simple::BrTable(other, labels) => Ok(branch_by(operands, labels.as_slice(), *other)),
        Simple::Return => Ok(Effect::Returns),
        Simple::Call(func) => Ok(Effect::Calls(*func)),
        Simple::CallIndirect(index) => {
            Ok(call_indirect(of, operands, kept.table.as_slice(), *index))
        }
        Simple::Drop => Ok(discard(operands)),
        Simple::Select => select(operands),
        Simple::Local(op, index) => { use_local(operands, locals.as_mut_slice(), *op, *index) },
        Simple::Global(op, index) => {
            use_global(operands, kept.globals.as_mut_slice(), *op, *index)
        }
        Simple::Load(op, at) => load(operands, &kept.memory, *op, at.offset),
        Simple::Store(op, at) => Ok(store(operands, &mut kept.memory, *op, at.offset)),
        Simple::MemorySize => size(operands, &kept.memory),
        Simple::MemoryGrow => grow(operands, &mut kept.memory),
        Simple::Const(value) => constant(operands, value.value()),
        Simple::Unary(t, op) => unary(operands, *t, *op),
        Simple::Binary(t, op) => binary(operands, *t, *op),
        Simple::Test(t, op) => test(operands, *t, *op),
        Simple::Compare(t, op) => compare(operands, *t, *op),
        Simple::Convert(op) => convert(operands, *op),
    }
}
