//! The check of instructions without bodies (3.3.1 to 3.3.5).

ghost use Rattle.std.specs.Prelude.{◌≡◌, OnOk, Err, None};
ghost use Rattle.validator.specs.Inside.Algorithm.{check_simple, local_op};
ghost use Rattle.validator.specs.Inside.Blocks.{Leads};
ghost use Rattle.validator.specs.Inside.Effects.{step_of};
ghost use Rattle.validator.specs.Inside.FunctionContext.{context_of, locals_of};

use crate::access::type_of;
use crate::check_error::CheckError;
use crate::function::Function;
use crate::labels::Labels;
use crate::needs::{Needs, needs_of};
use crate::operands::Operands;
use crate::steps::{
    combine, convert, discard, give, leave, leave_after_i32, replace, replace_after_i32, select,
    take, take_two,
};
use wasm_ast::{LocalOp, Simple, ValType};

/// One instruction without a body, in a function and inside these labels.
pub fn check_simple<'a>(
    function: &Function<'a>,
    labels: &mut Labels<'a>,
    simple: &Simple,
    operands: &mut Operands<'a>,
) -> Result<(), CheckError>
    ensures ok { OnOk result
        (Leads (check_simple (context_of function.now labels.old) simple.now)
        operands.old operands.new) }
    ensures labels { labels.new ≡ labels.old }
    ensures invalid { result ≡ Err CheckError.Invalid
        → check_simple (context_of function.now labels.old) simple.now operands.old.stack ≡ None }
{
    // The commonest are done at once: what the others need is put together first, and read again.
    match simple {
        Simple::Const(constant) => give(operands, type_of(constant.value())),
        Simple::Drop => discard(operands),
        Simple::Unary(val_type, _) => convert(operands, *val_type, *val_type),
        Simple::Binary(val_type, _) => combine(operands, *val_type, *val_type),
        Simple::Test(val_type, _) => convert(operands, *val_type, ValType::I32),
        Simple::Compare(val_type, _) => combine(operands, *val_type, ValType::I32),
        Simple::Local(op, index) => check_local(function, *op, *index, operands),
        other => check_needs(function, labels, other, operands),
    }
}

// `local.get`, `local.set` or `local.tee`.
fn check_local(
    function: &Function<'_>,
    op: LocalOp,
    index: u32,
    operands: &mut Operands<'_>,
) -> Result<(), CheckError>
    ensures ok { OnOk result
        (Leads (local_op (locals_of function.now) op index) operands.old operands.new) }
    ensures invalid { result ≡ Err CheckError.Invalid
        → local_op (locals_of function.now) op index operands.old.stack ≡ None }
{
    let Some(val_type) = function.local_type(index) else {
        return Err(CheckError::Invalid);
    };
    match op {
        LocalOp::Get => give(operands, val_type),
        LocalOp::Set => take(operands, val_type),
        LocalOp::Tee => convert(operands, val_type, val_type),
    }
}

// Any instruction, by what it needs.
#[inline(never)]
fn check_needs<'a>(
    function: &Function<'a>,
    labels: &mut Labels<'a>,
    simple: &Simple,
    operands: &mut Operands<'a>,
) -> Result<(), CheckError>
    ensures ok { OnOk result
        (Leads (check_simple (context_of function.now labels.old) simple.now)
        operands.old operands.new) }
    ensures labels { labels.new ≡ labels.old }
    ensures invalid { result ≡ Err CheckError.Invalid
        → check_simple (context_of function.now labels.old) simple.now operands.old.stack ≡ None }
{
    match needs_of(function, labels, simple) {
        Ok(needs) => apply(&needs, operands),
        Err(_) => Err(CheckError::Invalid),
    }
}

// Does to operands what an instruction needs.
fn apply<'a>(needs: &Needs<'a>, operands: &mut Operands<'a>) -> Result<(), CheckError>
    ensures ok { OnOk result (Leads (step_of needs.now) operands.old operands.new) }
    ensures invalid { result ≡ Err CheckError.Invalid
        → step_of needs.now operands.old.stack ≡ None }
{
    match needs {
        Needs::Nothing => Ok(()),
        Needs::Gives(gives) => give(operands, *gives),
        Needs::Takes(takes) => take(operands, *takes),
        Needs::Converts(takes, gives) => convert(operands, *takes, *gives),
        Needs::Combines(takes, gives) => combine(operands, *takes, *gives),
        Needs::TakesTwo(below, top) => take_two(operands, *below, *top),
        Needs::Replaces(types) => replace(operands, &types.params, &types.results),
        Needs::ReplacesAfterI32(types) => {
            replace_after_i32(operands, &types.params, &types.results)
        }
        Needs::Leaves(types) => leave(operands, types),
        Needs::LeavesAfterI32(types) => leave_after_i32(operands, types),
        Needs::Drop => discard(operands),
        Needs::Select => select(operands),
    }
}
