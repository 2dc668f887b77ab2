//! The check of a body up to an instruction, for what is known of operands and labels before it.

ghost use Rattle.std.specs.Prelude.{◌≡◌, ◌∷◌, ◌≤◌, [], List, IfOk, OnOk, Err, Some, None};
ghost use Rattle.wasm_ast.specs.Syntax.{count, ops_count};
ghost use Rattle.wasm_ast.specs.View.{op_of};
ghost use Rattle.validator.specs.PlaceTypes.{Stack};
ghost use Rattle.validator.specs.Inside.Algorithm.{and_then, after_i32, start};
ghost use Rattle.validator.specs.Inside.FunctionContext.{context_of, func_type_of};
ghost use Rattle.validator.specs.Inside.PlaceWalk.{below, ops_known, op_known, arm_known};

use crate::block_types::{BlockTypes, block_types};
use crate::bodies::check_instr;
use crate::check_error::CheckError;
use crate::function::Function;
use crate::labels::Labels;
use crate::operands::Operands;
use crate::places::{past_body, past_instr};
use crate::type_list::TypeList;
use crate::types::{Stacks, Types};
use std::alloc::Global;
use wasm_ast::{Arms, Body, Instr, ValType};

/// What is known before the instruction at a place of a function's body.
pub fn known_at<'a>(
    alloc: Global,
    function: &Function<'a>,
    place: u32,
) -> Result<Types<'a>, CheckError>
    ensures ok { IfOk result (λ t. let f = function.now in
        ops_known (context_of f (f.func_type.now.results ∷ [])) [] f.func.now.body (start []) place
        ≡ Some t) }
    ensures invalid { result ≡ Err CheckError.Invalid → let f = function.now in
        ops_known (context_of f (f.func_type.now.results ∷ [])) [] f.func.now.body (start []) place
        ≡ None }
{
    let mut labels = Labels::new(alloc);
    let mut stacks = Stacks::new(alloc);
    let results = TypeList::plain(function.func_type.results.as_slice());
    enter_body(
        function,
        &mut labels,
        &mut stacks,
        &results,
        &TypeList::plain(&[]),
        &function.func.body,
        place,
    )?;
    Ok(Types::new(labels, stacks))
}

// From the start of a body with this label, which has operands of these types.
#[cycle(walk)]
fn enter_body<'a>(
    function: &Function<'a>,
    labels: &mut Labels<'a>,
    stacks: &mut Stacks,
    label: &TypeList<'a>,
    params: &TypeList<'a>,
    body: &Body,
    place: u32,
) -> Result<(), CheckError>
    ensures ok { OnOk result
        (ops_known (context_of function.now (label.now ∷ labels.old)) stacks.old body.now
        (start params.now) place ≡ Some (record { labels = labels.new; stacks = stacks.new })) }
    ensures invalid { result ≡ Err CheckError.Invalid
        → ops_known (context_of function.now (label.now ∷ labels.old)) stacks.old body.now
        (start params.now) place ≡ None }
{
    labels.push(label)?;
    let mut operands = stacks.begin();
    operands.push_all(params)?;
    let (instr, left) = walk_to(function, labels, body, place, &mut operands)?;
    enter_instr(function, labels, stacks, instr, left, operands)
}

// Checks the instructions of a sequence up to the one that has the place. Gives it, and the place
// counted from it.
fn walk_to<'a, 'b>(
    function: &Function<'a>,
    labels: &mut Labels<'a>,
    body: &'b Body,
    place: u32,
    operands: &mut Operands<'a>,
) -> Result<(&'b Instr, u32), CheckError>
    ensures ok { IfOk result (λ r. (outside : List Stack)
        → ops_known (context_of function.now labels.old) outside body.now operands.old.stack place
        ≡ op_known (context_of function.now labels.old) outside (op_of r.0.now)
        operands.new.stack r.1) }
    ensures labels { OnOk result (labels.new ≡ labels.old) }
    ensures inside { IfOk result (λ r. count (op_of r.0.now) ≤ ops_count body.now) }
    ensures invalid { result ≡ Err CheckError.Invalid → (outside : List Stack)
        → ops_known (context_of function.now labels.old) outside body.now operands.old.stack place
        ≡ None }
{
    let mut left = place;
    for instr in body.as_slice() {
        let Some(rest) = past_instr(instr, left) else {
            return Ok((instr, left));
        };
        check_instr(function, labels, instr, operands)?;
        left = rest;
    }
    Err(CheckError::Invalid)
}

// From before an instruction, which has the place.
#[cycle(walk)]
fn enter_instr<'a>(
    function: &Function<'a>,
    labels: &mut Labels<'a>,
    stacks: &mut Stacks,
    instr: &Instr,
    place: u32,
    operands: Operands<'a>,
) -> Result<(), CheckError>
    ensures ok { OnOk result
        (op_known (context_of function.now labels.old) stacks.old (op_of instr.now)
        operands.entry.stack
        place ≡ Some (record { labels = labels.new; stacks = stacks.new })) }
    ensures invalid { result ≡ Err CheckError.Invalid
        → op_known (context_of function.now labels.old) stacks.old (op_of instr.now)
        operands.entry.stack
        place ≡ None }
{
    let Some(inside) = place.checked_sub(1) else {
        stacks.push(&operands)?;
        return Ok(());
    };
    match instr {
        Instr::Simple(_) => Err(CheckError::Invalid),
        Instr::Block(kind, body) => {
            let Some(types) = block_types(function.of, *kind) else {
                return Err(CheckError::Invalid);
            };
            enter_block(
                function,
                labels,
                stacks,
                &types,
                &types.results,
                body,
                inside,
                operands,
            )
        }
        Instr::Loop(kind, body) => {
            let Some(types) = block_types(function.of, *kind) else {
                return Err(CheckError::Invalid);
            };
            enter_block(
                function,
                labels,
                stacks,
                &types,
                &types.params,
                body,
                inside,
                operands,
            )
        }
        Instr::If(kind, arms) => {
            let Arms { then_arm, else_arm } = &**arms;
            let Some(types) = block_types(function.of, *kind) else {
                return Err(CheckError::Invalid);
            };
            enter_if(
                function, labels, stacks, &types, then_arm, else_arm, inside, operands,
            )
        }
    }
}

// From before a block of these types with this label, which has the place in its body.
#[cycle(walk)]
fn enter_block<'a>(
    function: &Function<'a>,
    labels: &mut Labels<'a>,
    stacks: &mut Stacks,
    types: &BlockTypes<'a>,
    label: &TypeList<'a>,
    body: &Body,
    place: u32,
    mut operands: Operands<'a>,
) -> Result<(), CheckError>
    ensures ok { OnOk result (let t = func_type_of types.now in
        and_then (below t operands.entry.stack)
        (λ u. ops_known (context_of function.now (label.now ∷ labels.old)) (u ∷ stacks.old) body.now
        (start t.params) place) ≡ Some (record { labels = labels.new; stacks = stacks.new })) }
    ensures invalid { result ≡ Err CheckError.Invalid → let t = func_type_of types.now in
        and_then (below t operands.entry.stack)
        (λ u. ops_known (context_of function.now (label.now ∷ labels.old)) (u ∷ stacks.old) body.now
        (start t.params) place) ≡ None }
{
    if !operands.pop_all(&types.params) {
        return Err(CheckError::Invalid);
    }
    stacks.push(&operands)?;
    enter_body(function, labels, stacks, label, &types.params, body, place)
}

// From before an `if` of these types, which has the place in one of its arms.
#[cycle(walk)]
fn enter_if<'a>(
    function: &Function<'a>,
    labels: &mut Labels<'a>,
    stacks: &mut Stacks,
    types: &BlockTypes<'a>,
    then_arm: &Body,
    else_arm: &Body,
    place: u32,
    mut operands: Operands<'a>,
) -> Result<(), CheckError>
    ensures ok { OnOk result (let t = func_type_of types.now in
        let context = context_of function.now (t.results ∷ labels.old) in
        and_then (after_i32 (below t) operands.entry.stack)
        (λ u. arm_known context t (u ∷ stacks.old) then_arm.now else_arm.now place)
        ≡ Some (record { labels = labels.new; stacks = stacks.new })) }
    ensures invalid { result ≡ Err CheckError.Invalid → let t = func_type_of types.now in
        let context = context_of function.now (t.results ∷ labels.old) in
        and_then (after_i32 (below t) operands.entry.stack)
        (λ u. arm_known context t (u ∷ stacks.old) then_arm.now else_arm.now place) ≡ None }
{
    if !operands.pop(ValType::I32) {
        return Err(CheckError::Invalid);
    }
    match past_body(then_arm, place) {
        None => {
            enter_block(
                function,
                labels,
                stacks,
                types,
                &types.results,
                then_arm,
                place,
                operands,
            )
        }
        Some(rest) => {
            enter_block(
                function,
                labels,
                stacks,
                types,
                &types.results,
                else_arm,
                rest,
                operands,
            )
        }
    }
}
