//! The check of sequences of instructions and of instructions that have bodies (3.3.5, 3.3.6).

ghost use Rattle.std.specs.Prelude.{◌≡◌, ◌<◌, ◌≤◌, ◌+◌, ◌∷◌, ◌&&◌, ℕ, IsTrue, IfOk, OnOk, Err, Some, None, false, true, drop, length};
ghost use Rattle.wasm_ast.specs.Syntax.{count, ops_count};
ghost use Rattle.wasm_ast.specs.View.{op_of};
ghost use Rattle.validator.specs.Inside.Algorithm.{after_i32, encloses, ends, start, check_op, check_ops};
ghost use Rattle.validator.specs.Inside.Blocks.{Blocks, Leads, IsOuter};
ghost use Rattle.validator.specs.Inside.CheckErrors.{IsLater};
ghost use Rattle.validator.specs.declared.check_error.BodyError.TheVariants.{Invalid};
ghost use Rattle.validator.specs.Inside.FunctionContext.{context_of, func_type_of};

use crate::block_types::{BlockTypes, block_types};
use crate::check_error::BodyError;
use crate::function::Function;
use crate::labels::Labels;
use crate::operands::{Operands, Outer};
use crate::places::{count_body, count_instrs};
use crate::simple::check_simple;
use crate::type_list::TypeList;
use std::alloc::AllocError;
use wasm_ast::{Arms, Body, Instr, ValType};

// Begins a block with this label, and with operands of its parameters.
fn open<'a>(
    labels: &mut Labels<'a>,
    label: &TypeList<'a>,
    params: &TypeList<'a>,
    operands: &mut Operands<'a>,
) -> Result<Outer, AllocError>
    ensures outer { IfOk result (λ outer. IsOuter outer operands.old operands.new.outside) }
    ensures within { IfOk result (λ outer. outer.base ≤ length operands.new.outside) }
    ensures labels { OnOk result (labels.new ≡ label.now ∷ labels.old) }
    ensures operands { OnOk result (operands.new.stack ≡ start params.now) }
{
    labels.push(label)?;
    let outer = operands.enter();
    operands.push_all(params)?;
    Ok(outer)
}

// Ends a block. False if its operands are not its results and no more.
fn close(
    labels: &mut Labels<'_>,
    outer: Outer,
    results: &TypeList<'_>,
    operands: &mut Operands<'_>,
) -> bool
    requires { outer.base ≤ length operands.old.outside }
    ensures ends { result ≡ ends results.now (Some operands.old.stack) }
    ensures labels { labels.new ≡ drop 1 labels.old }
    ensures operands { IsTrue result → (o : Blocks) → IsOuter outer o operands.old.outside
        → operands.new ≡ o }
{
    labels.pop();
    if !operands.end(results) {
        return false;
    }
    operands.leave(outer);
    true
}

/// One instruction, in a function and inside these labels. Recursion is as deep as its blocks are
/// nested, which is as deep as that of dropping the instruction.
#[cycle(check)]
pub fn check_instr<'a>(
    function: &Function<'a>,
    labels: &mut Labels<'a>,
    instr: &Instr,
    operands: &mut Operands<'a>,
) -> Result<(), BodyError>
    ensures ok { OnOk result
        (Leads (check_op (context_of function.now labels.old) (op_of instr.now))
        operands.old operands.new) }
    ensures labels { OnOk result (labels.new ≡ labels.old) }
    ensures invalid { (at : ℕ) → result ≡ Err (Invalid at)
        → check_op (context_of function.now labels.old) (op_of instr.now) operands.old.stack
        ≡ None }
    ensures place { (at : ℕ) → result ≡ Err (Invalid at) → at < count (op_of instr.now) }
{
    match instr {
        Instr::Simple(simple) => Ok(check_simple(function, labels, simple, operands)?),
        Instr::Block(kind, body) => {
            let Some(types) = block_types(function.of, *kind) else {
                return Err(BodyError::Invalid(0));
            };
            check_block(function, labels, &types, &types.results, body, operands)
        }
        Instr::Loop(kind, body) => {
            let Some(types) = block_types(function.of, *kind) else {
                return Err(BodyError::Invalid(0));
            };
            check_block(function, labels, &types, &types.params, body, operands)
        }
        Instr::If(kind, arms) => {
            let Arms { then_arm, else_arm } = &**arms;
            let Some(types) = block_types(function.of, *kind) else {
                return Err(BodyError::Invalid(0));
            };
            check_if(function, labels, &types, then_arm, else_arm, operands)
        }
    }
}

// A block of these types, to whose label a branch takes those.
#[cycle(check)]
fn check_block<'a>(
    function: &Function<'a>,
    labels: &mut Labels<'a>,
    types: &BlockTypes<'a>,
    label: &TypeList<'a>,
    body: &Body,
    operands: &mut Operands<'a>,
) -> Result<(), BodyError>
    ensures ok { OnOk result (let t = func_type_of types.now in
        let context = context_of function.now (label.now ∷ labels.old) in
        Leads (encloses t (ends t.results (check_ops context body.now (start t.params))))
        operands.old operands.new) }
    ensures labels { OnOk result (labels.new ≡ labels.old) }
    ensures invalid { (at : ℕ) → result ≡ Err (Invalid at) → let t = func_type_of types.now in
        let context = context_of function.now (label.now ∷ labels.old) in
        encloses t (ends t.results (check_ops context body.now (start t.params)))
        operands.old.stack ≡ None }
    ensures place { (at : ℕ) → result ≡ Err (Invalid at) → at < 1 + ops_count body.now }
{
    if !operands.pop_all(&types.params) {
        return Err(BodyError::Invalid(0));
    }
    check_arm(function, labels, types, label, body, operands)?;
    operands.push_all(&types.results)?;
    Ok(())
}

// An `if` of these types with both its arms.
#[cycle(check)]
fn check_if<'a>(
    function: &Function<'a>,
    labels: &mut Labels<'a>,
    types: &BlockTypes<'a>,
    then_arm: &Body,
    else_arm: &Body,
    operands: &mut Operands<'a>,
) -> Result<(), BodyError>
    ensures ok { OnOk result (let t = func_type_of types.now in
        let context = context_of function.now (t.results ∷ labels.old) in
        Leads (after_i32 (encloses t
        (ends t.results (check_ops context then_arm.now (start t.params))
        && ends t.results (check_ops context else_arm.now (start t.params)))))
        operands.old operands.new) }
    ensures labels { OnOk result (labels.new ≡ labels.old) }
    ensures invalid { (at : ℕ) → result ≡ Err (Invalid at) → let t = func_type_of types.now in
        let context = context_of function.now (t.results ∷ labels.old) in
        after_i32 (encloses t
        (ends t.results (check_ops context then_arm.now (start t.params))
        && ends t.results (check_ops context else_arm.now (start t.params))))
        operands.old.stack ≡ None }
    ensures place { (at : ℕ) → result ≡ Err (Invalid at)
        → at < 1 + ops_count then_arm.now + ops_count else_arm.now }
{
    if !operands.pop(ValType::I32) || !operands.pop_all(&types.params) {
        return Err(BodyError::Invalid(0));
    }
    check_arm(function, labels, types, &types.results, then_arm, operands)?;
    check_else(function, labels, types, then_arm, else_arm, operands)?;
    operands.push_all(&types.results)?;
    Ok(())
}

// The else arm of an `if` of these types. Its places follow those of the then arm.
#[cycle(check)]
fn check_else<'a>(
    function: &Function<'a>,
    labels: &mut Labels<'a>,
    types: &BlockTypes<'a>,
    then_arm: &Body,
    else_arm: &Body,
    operands: &mut Operands<'a>,
) -> Result<(), BodyError>
    ensures ok { OnOk result (let t = func_type_of types.now in
        let context = context_of function.now (t.results ∷ labels.old) in
        ends t.results (check_ops context else_arm.now (start t.params)) ≡ true) }
    ensures labels { OnOk result (labels.new ≡ labels.old) }
    ensures operands { OnOk result (operands.new ≡ operands.old) }
    ensures invalid { (at : ℕ) → result ≡ Err (Invalid at) → let t = func_type_of types.now in
        let context = context_of function.now (t.results ∷ labels.old) in
        ends t.results (check_ops context else_arm.now (start t.params)) ≡ false }
    ensures place { (at : ℕ) → result ≡ Err (Invalid at)
        → at < 1 + ops_count then_arm.now + ops_count else_arm.now }
{
    match check_arm(function, labels, types, &types.results, else_arm, operands) {
        Ok(()) => Ok(()),
        Err(BodyError::Invalid(0)) => Err(BodyError::Invalid(0)),
        Err(error) => Err(error.later(count_body(then_arm))),
    }
}

// A body of a block, with places counted from the block. A fault at its end is the block's.
#[cycle(check)]
fn check_arm<'a>(
    function: &Function<'a>,
    labels: &mut Labels<'a>,
    types: &BlockTypes<'a>,
    label: &TypeList<'a>,
    body: &Body,
    operands: &mut Operands<'a>,
) -> Result<(), BodyError>
    ensures ok { OnOk result (let t = func_type_of types.now in
        let context = context_of function.now (label.now ∷ labels.old) in
        ends t.results (check_ops context body.now (start t.params)) ≡ true) }
    ensures labels { OnOk result (labels.new ≡ labels.old) }
    ensures operands { OnOk result (operands.new ≡ operands.old) }
    ensures invalid { (at : ℕ) → result ≡ Err (Invalid at) → let t = func_type_of types.now in
        let context = context_of function.now (label.now ∷ labels.old) in
        ends t.results (check_ops context body.now (start t.params)) ≡ false }
    ensures place { (at : ℕ) → result ≡ Err (Invalid at) → at < 1 + ops_count body.now }
{
    match check_body(function, labels, types, label, body, operands) {
        Ok(true) => Ok(()),
        Ok(false) => Err(BodyError::Invalid(0)),
        Err(error) => Err(error.later(1)),
    }
}

/// A body inside this label, from the parameters alone. False if its end is not reached with exactly the
/// results; an error if an instruction of it is at fault.
#[cycle(check)]
pub fn check_body<'a>(
    function: &Function<'a>,
    labels: &mut Labels<'a>,
    types: &BlockTypes<'a>,
    label: &TypeList<'a>,
    body: &Body,
    operands: &mut Operands<'a>,
) -> Result<bool, BodyError>
    ensures ok { IfOk result (λ passes. let t = func_type_of types.now in
        let context = context_of function.now (label.now ∷ labels.old) in
        ends t.results (check_ops context body.now (start t.params)) ≡ passes) }
    ensures labels { OnOk result (labels.new ≡ labels.old) }
    ensures operands { IfOk result (λ passes. IsTrue passes → operands.new ≡ operands.old) }
    ensures invalid { (at : ℕ) → result ≡ Err (Invalid at) → let t = func_type_of types.now in
        let context = context_of function.now (label.now ∷ labels.old) in
        ends t.results (check_ops context body.now (start t.params)) ≡ false }
    ensures place { (at : ℕ) → result ≡ Err (Invalid at) → at < ops_count body.now }
{
    let outer = open(labels, label, &types.params, operands)?;
    check_instrs(function, labels, body, operands)?;
    Ok(close(labels, outer, &types.results, operands))
}

// A sequence of instructions.
#[cycle(check)]
fn check_instrs<'a>(
    function: &Function<'a>,
    labels: &mut Labels<'a>,
    body: &Body,
    operands: &mut Operands<'a>,
) -> Result<(), BodyError>
    ensures ok { OnOk result
        (Leads (check_ops (context_of function.now labels.old) body.now)
        operands.old operands.new) }
    ensures labels { OnOk result (labels.new ≡ labels.old) }
    ensures invalid { (at : ℕ) → result ≡ Err (Invalid at)
        → check_ops (context_of function.now labels.old) body.now operands.old.stack ≡ None }
    ensures place { (at : ℕ) → result ≡ Err (Invalid at) → at < ops_count body.now }
{
    let instrs = body.as_slice();
    for (i, instr) in instrs.iter().enumerate() {
        if let Err(error) = check_instr(function, labels, instr, operands) {
            return Err(error.later(count_instrs(&instrs[..i])));
        }
    }
    Ok(())
}
