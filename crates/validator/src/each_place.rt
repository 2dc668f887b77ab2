//! The check of a body that stops at some of its places, for what is known of operands and labels there.

ghost use Rattle.std.specs.Prelude.{◌≡◌, ◌∷◌, ◌≤◌, ◌<◌, ◌+◌, ◌++◌, ◌&&◌, [], ℕ, List, All, IfOk, IfNone, IfSome, OnOk, Err, Some, Option, IsTrue, true, false, length, drop, slice_get};
ghost use Rattle.std.specs.List.Sorted.{IsStrictlyIncreasing};
ghost use Rattle.std.specs.List.{AllZip};
ghost use Rattle.wasm_ast.specs.Syntax.{count, ops_count};
ghost use Rattle.wasm_ast.specs.View.{op_of};
ghost use Rattle.validator.specs.PlaceTypes.{Known};
ghost use Rattle.validator.specs.Inside.Algorithm.{and_then, after_i32, encloses, ends, start, check_op, check_ops};
ghost use Rattle.validator.specs.Inside.Blocks.{Blocks, Leads};
ghost use Rattle.validator.specs.Inside.FunctionContext.{context_of, func_type_of, passes_func};
ghost use Rattle.validator.specs.Inside.PlaceWalk.{below, ops_known, op_known, arm_known};
ghost use Rattle.validator.specs.Inside.EachPlace.{FoundAt, NextFrom, Finds, stacks_of, known_in, IsKnown};

use crate::block_types::{BlockTypes, block_types};
use crate::check_error::CheckError;
use crate::function::Function;
use crate::labels::Labels;
use crate::operands::Operands;
use crate::simple::check_simple;
use crate::type_list::TypeList;
use crate::types::{Stacks, Types};
use std::alloc::{AllocError, Global};
use std::mem;
use wasm_ast::{Arms, Body, Instr, ValType};

/// Where a walk stops.
#[derive(Clone, Copy)]
pub struct Stops<'a, 'p> {
    alloc: Global,
    function: Function<'a>,
    /// The places, each after the one before it.
    places: &'p [u32],
}

/// The blocks that are open.
#[derive(Drop)]
pub struct Opened<'a> {
    labels: Labels<'a>,
    /// The operands of each block outside the innermost one, which come last.
    outer: Vec<Operands<'a>>,
    /// Those of the innermost block.
    operands: Operands<'a>,
}

/// What is known before the instructions at these places of a function's body, each after the one before it.
/// The time is linear in the body up to the last of them, and in what is known. Recursion is as deep as its
/// blocks are nested, which is as deep as that of dropping it.
pub fn known_at_each<'a>(
    alloc: Global,
    function: &Function<'a>,
    places: &[u32],
) -> Result<Vec<Types<'a>>, CheckError>
    requires rising { IsStrictlyIncreasing places.now }
    requires inside { All (λ place. place < ops_count function.now.func.now.body) places.now }
    ensures ok { IfOk result (λ found. let f = function.now in
        AllZip (λ place t. ops_known (context_of f (f.func_type.now.results ∷ [])) []
        f.func.now.body (start []) place ≡ Some t) places.now found.items) }
    ensures invalid { result ≡ Err CheckError.Invalid → let f = function.now in
        passes_func f.of.now f.func_type.now f.func.now ≡ false }
{
    let stops = Stops {
        alloc,
        function: *function,
        places,
    };
    let mut opened = whole_body(alloc, function)?;
    let mut found = Vec::new(alloc);
    each_in(&stops, &mut opened, &mut found, &function.func.body, 0)?;
    Ok(found)
}

// What is open where a function's body begins.
fn whole_body<'a>(alloc: Global, function: &Function<'a>) -> Result<Opened<'a>, AllocError>
    ensures labels { IfOk result
        (λ opened. opened.labels ≡ function.now.func_type.now.results ∷ []) }
    ensures outer { IfOk result (λ opened. opened.outer.items ≡ []) }
    ensures operands { IfOk result (λ opened. opened.operands.stack ≡ start []) }
{
    let mut labels = Labels::new(alloc);
    labels.push(&TypeList::plain(function.func_type.results.as_slice()))?;
    Ok(Opened {
        labels,
        outer: Vec::new(alloc),
        operands: Operands::new(alloc),
    })
}

// What is known where these blocks are open.
fn known_here<'a>(alloc: Global, opened: &Opened<'a>) -> Result<Types<'a>, AllocError>
    ensures { IfOk result (λ t. t ≡ known_in opened.now) }
{
    let mut stacks = Stacks::new(alloc);
    for operands in &opened.outer {
        stacks.push(operands)?;
    }
    stacks.push(&opened.operands)?;
    let labels = opened.labels.copy(alloc)?;
    Ok(Types::new(labels, stacks))
}

// The place that follows this many of them.
fn next_place(places: &[u32], found: usize) -> Option<u32>
    ensures { result ≡ slice_get places.now found }
{
    places.get(found).copied()
}

// Adds what is known before the instruction with this number, if the next place is there.
fn add_here<'a>(
    stops: &Stops<'a, '_>,
    opened: &Opened<'a>,
    found: &mut Vec<Types<'a>>,
    number: u32,
) -> Result<(), AllocError>
    requires rising { IsStrictlyIncreasing stops.now.places.now }
    requires from { NextFrom stops.now.places.now found.old.items number }
    ensures found { OnOk result ((all : ℕ → Option Known) → all number ≡ Some (known_in opened.now)
        → FoundAt (λ k t. IsKnown (all k) t) stops.now.places.now found.old.items
        → FoundAt (λ k t. IsKnown (all k) t) stops.now.places.now found.new.items) }
    ensures from { OnOk result (NextFrom stops.now.places.now found.new.items (number + 1)) }
{
    let Some(next) = next_place(stops.places, found.len()) else {
        return Ok(());
    };
    if next == number {
        let here = known_here(stops.alloc, opened)?;
        found.push(here)?;
    }
    Ok(())
}

// The same. Gives the number after this one, if a place is left.
fn stop_here<'a>(
    stops: &Stops<'a, '_>,
    opened: &Opened<'a>,
    found: &mut Vec<Types<'a>>,
    number: u32,
) -> Result<Option<u32>, AllocError>
    requires rising { IsStrictlyIncreasing stops.now.places.now }
    requires from { NextFrom stops.now.places.now found.old.items number }
    ensures found { OnOk result ((all : ℕ → Option Known) → all number ≡ Some (known_in opened.now)
        → FoundAt (λ k t. IsKnown (all k) t) stops.now.places.now found.old.items
        → FoundAt (λ k t. IsKnown (all k) t) stops.now.places.now found.new.items) }
    ensures done { IfOk result (λ r. IfNone r
        (length stops.now.places.now ≤ length found.new.items)) }
    ensures after { IfOk result (λ r. IfSome r (λ after. after ≡ number + 1)) }
    ensures from { IfOk result (λ r. IfSome r (λ after.
        NextFrom stops.now.places.now found.new.items after)) }
{
    add_here(stops, opened, found, number)?;
    match next_place(stops.places, found.len()) {
        Some(_) => Ok(Some(number + 1)),
        None => Ok(None),
    }
}

// Begins a block with this label, and with operands of its parameters.
fn enter<'a>(
    alloc: Global,
    opened: &mut Opened<'a>,
    label: &TypeList<'a>,
    params: &TypeList<'a>,
) -> Result<(), AllocError>
    ensures labels { OnOk result (opened.new.labels ≡ label.now ∷ opened.old.labels) }
    ensures outer { OnOk result
        (opened.new.outer.items ≡ opened.old.outer.items ++ opened.old.operands ∷ []) }
    ensures operands { OnOk result (opened.new.operands.stack ≡ start params.now) }
{
    opened.labels.push(label)?;
    let operands = mem::replace(&mut opened.operands, Operands::new(alloc));
    opened.outer.push(operands)?;
    opened.operands.push_all(params)?;
    Ok(())
}

// Ends a block. False if its operands are not its results and no more.
fn leave<'a>(opened: &mut Opened<'a>, results: &TypeList<'_>) -> bool
    requires { 0 < length opened.old.outer.items }
    ensures ends { result ≡ ends results.now (Some opened.old.operands.stack) }
    ensures labels { opened.new.labels ≡ drop 1 opened.old.labels }
    ensures outer { IsTrue result → (outer : List Blocks) (operands : Blocks)
        → opened.old.outer.items ≡ outer ++ operands ∷ []
        → (opened.new.outer.items ≡ outer) × (opened.new.operands ≡ operands) }
{
    opened.labels.pop();
    if !opened.operands.end(results) {
        return false;
    }
    let Some(operands) = opened.outer.pop() else {
        unreachable!();
    };
    let _ended = mem::replace(&mut opened.operands, operands);
    true
}

// The instructions of a sequence, which begins with the number `first`. Gives the number that follows it, or
// None as soon as no place is left.
#[cycle(each)]
fn each_in<'a>(
    stops: &Stops<'a, '_>,
    opened: &mut Opened<'a>,
    found: &mut Vec<Types<'a>>,
    body: &Body,
    first: u32,
) -> Result<Option<u32>, CheckError>
    requires rising { IsStrictlyIncreasing stops.now.places.now }
    requires from { NextFrom stops.now.places.now found.old.items first }
    ensures found { OnOk result (Finds IsKnown
        (ops_known (context_of stops.now.function opened.old.labels)
        (stacks_of opened.old.outer.items)
        body.now opened.old.operands.stack)
        (ops_count body.now) first stops.now.places.now found.old.items found.new.items) }
    ensures done { IfOk result (λ r. IfNone r
        (length stops.now.places.now ≤ length found.new.items)) }
    ensures after { IfOk result (λ r. IfSome r (λ after. after ≡ first + ops_count body.now)) }
    ensures from { IfOk result (λ r. IfSome r (λ after.
        NextFrom stops.now.places.now found.new.items after)) }
    ensures leads { IfOk result (λ r. IfSome r (λ after.
        Leads (check_ops (context_of stops.now.function opened.old.labels) body.now)
        opened.old.operands opened.new.operands)) }
    ensures labels { IfOk result (λ r. IfSome r (λ after. opened.new.labels ≡ opened.old.labels)) }
    ensures outer { IfOk result (λ r. IfSome r (λ after.
        opened.new.outer.items ≡ opened.old.outer.items)) }
    ensures invalid { result ≡ Err CheckError.Invalid
        → check_ops (context_of stops.now.function opened.old.labels) body.now
        opened.old.operands.stack
        ≡ None }
{
    let mut next = first;
    for instr in body.as_slice() {
        let Some(after) = each_instr(stops, opened, found, instr, next)? else {
            return Ok(None);
        };
        next = after;
    }
    Ok(Some(next))
}

// An instruction with this number.
#[cycle(each)]
fn each_instr<'a>(
    stops: &Stops<'a, '_>,
    opened: &mut Opened<'a>,
    found: &mut Vec<Types<'a>>,
    instr: &Instr,
    number: u32,
) -> Result<Option<u32>, CheckError>
    requires rising { IsStrictlyIncreasing stops.now.places.now }
    requires from { NextFrom stops.now.places.now found.old.items number }
    ensures found { OnOk result (Finds IsKnown
        (op_known (context_of stops.now.function opened.old.labels)
        (stacks_of opened.old.outer.items)
        (op_of instr.now) opened.old.operands.stack)
        (count (op_of instr.now)) number stops.now.places.now found.old.items found.new.items) }
    ensures done { IfOk result (λ r. IfNone r
        (length stops.now.places.now ≤ length found.new.items)) }
    ensures after { IfOk result
        (λ r. IfSome r (λ after. after ≡ number + count (op_of instr.now))) }
    ensures from { IfOk result (λ r. IfSome r (λ after.
        NextFrom stops.now.places.now found.new.items after)) }
    ensures leads { IfOk result (λ r. IfSome r (λ after.
        Leads (check_op (context_of stops.now.function opened.old.labels) (op_of instr.now))
        opened.old.operands opened.new.operands)) }
    ensures labels { IfOk result (λ r. IfSome r (λ after. opened.new.labels ≡ opened.old.labels)) }
    ensures outer { IfOk result (λ r. IfSome r (λ after.
        opened.new.outer.items ≡ opened.old.outer.items)) }
    ensures invalid { result ≡ Err CheckError.Invalid
        → check_op (context_of stops.now.function opened.old.labels) (op_of instr.now)
        opened.old.operands.stack ≡ None }
{
    let Some(inside) = stop_here(stops, opened, found, number)? else {
        return Ok(None);
    };
    match instr {
        Instr::Simple(simple) => {
            check_simple(
                &stops.function,
                &mut opened.labels,
                simple,
                &mut opened.operands,
            )?;
            Ok(Some(inside))
        }
        Instr::Block(kind, body) => {
            let Some(types) = block_types(stops.function.of, *kind) else {
                return Err(CheckError::Invalid);
            };
            each_block(stops, opened, found, &types, &types.results, body, inside)
        }
        Instr::Loop(kind, body) => {
            let Some(types) = block_types(stops.function.of, *kind) else {
                return Err(CheckError::Invalid);
            };
            each_block(stops, opened, found, &types, &types.params, body, inside)
        }
        Instr::If(kind, arms) => {
            let Arms { then_arm, else_arm } = &**arms;
            let Some(types) = block_types(stops.function.of, *kind) else {
                return Err(CheckError::Invalid);
            };
            each_if(stops, opened, found, &types, then_arm, else_arm, inside)
        }
    }
}

// What is inside a block of these types, to whose label a branch takes those. Its body begins with the number
// `first`.
#[cycle(each)]
fn each_block<'a>(
    stops: &Stops<'a, '_>,
    opened: &mut Opened<'a>,
    found: &mut Vec<Types<'a>>,
    types: &BlockTypes<'a>,
    label: &TypeList<'a>,
    body: &Body,
    first: u32,
) -> Result<Option<u32>, CheckError>
    requires rising { IsStrictlyIncreasing stops.now.places.now }
    requires from { NextFrom stops.now.places.now found.old.items first }
    ensures found { OnOk result (let t = func_type_of types.now in
        let context = context_of stops.now.function (label.now ∷ opened.old.labels) in
        Finds IsKnown (λ k. and_then (below t opened.old.operands.stack)
        (λ u. ops_known context (u ∷ stacks_of opened.old.outer.items) body.now (start t.params) k))
        (ops_count body.now) first stops.now.places.now found.old.items found.new.items) }
    ensures done { IfOk result (λ r. IfNone r
        (length stops.now.places.now ≤ length found.new.items)) }
    ensures after { IfOk result (λ r. IfSome r (λ after. after ≡ first + ops_count body.now)) }
    ensures from { IfOk result (λ r. IfSome r (λ after.
        NextFrom stops.now.places.now found.new.items after)) }
    ensures leads { IfOk result (λ r. IfSome r (λ after. let t = func_type_of types.now in
        let context = context_of stops.now.function (label.now ∷ opened.old.labels) in
        Leads (encloses t (ends t.results (check_ops context body.now (start t.params))))
        opened.old.operands opened.new.operands)) }
    ensures labels { IfOk result (λ r. IfSome r (λ after. opened.new.labels ≡ opened.old.labels)) }
    ensures outer { IfOk result (λ r. IfSome r (λ after.
        opened.new.outer.items ≡ opened.old.outer.items)) }
    ensures invalid { result ≡ Err CheckError.Invalid → let t = func_type_of types.now in
        let context = context_of stops.now.function (label.now ∷ opened.old.labels) in
        encloses t (ends t.results (check_ops context body.now (start t.params)))
        opened.old.operands.stack ≡ None }
{
    if !opened.operands.pop_all(&types.params) {
        return Err(CheckError::Invalid);
    }
    let Some(after) = each_arm(stops, opened, found, types, label, body, first)? else {
        return Ok(None);
    };
    opened.operands.push_all(&types.results)?;
    Ok(Some(after))
}

// What is inside an `if` of these types. Its first arm begins with the number `first`.
#[cycle(each)]
fn each_if<'a>(
    stops: &Stops<'a, '_>,
    opened: &mut Opened<'a>,
    found: &mut Vec<Types<'a>>,
    types: &BlockTypes<'a>,
    then_arm: &Body,
    else_arm: &Body,
    first: u32,
) -> Result<Option<u32>, CheckError>
    requires rising { IsStrictlyIncreasing stops.now.places.now }
    requires from { NextFrom stops.now.places.now found.old.items first }
    ensures found { OnOk result (let t = func_type_of types.now in
        let context = context_of stops.now.function (t.results ∷ opened.old.labels) in
        Finds IsKnown (λ k. and_then (after_i32 (below t) opened.old.operands.stack)
        (λ u. arm_known context t (u ∷ stacks_of opened.old.outer.items) then_arm.now else_arm.now k))
        (ops_count then_arm.now + ops_count else_arm.now) first stops.now.places.now
        found.old.items found.new.items) }
    ensures done { IfOk result (λ r. IfNone r
        (length stops.now.places.now ≤ length found.new.items)) }
    ensures after { IfOk result (λ r. IfSome r (λ after.
        after ≡ first + ops_count then_arm.now + ops_count else_arm.now)) }
    ensures from { IfOk result (λ r. IfSome r (λ after.
        NextFrom stops.now.places.now found.new.items after)) }
    ensures leads { IfOk result (λ r. IfSome r (λ after. let t = func_type_of types.now in
        let context = context_of stops.now.function (t.results ∷ opened.old.labels) in
        Leads (after_i32 (encloses t
        (ends t.results (check_ops context then_arm.now (start t.params))
        && ends t.results (check_ops context else_arm.now (start t.params)))))
        opened.old.operands opened.new.operands)) }
    ensures labels { IfOk result (λ r. IfSome r (λ after. opened.new.labels ≡ opened.old.labels)) }
    ensures outer { IfOk result (λ r. IfSome r (λ after.
        opened.new.outer.items ≡ opened.old.outer.items)) }
    ensures invalid { result ≡ Err CheckError.Invalid → let t = func_type_of types.now in
        let context = context_of stops.now.function (t.results ∷ opened.old.labels) in
        after_i32 (encloses t
        (ends t.results (check_ops context then_arm.now (start t.params))
        && ends t.results (check_ops context else_arm.now (start t.params))))
        opened.old.operands.stack ≡ None }
{
    if !opened.operands.pop(ValType::I32) || !opened.operands.pop_all(&types.params) {
        return Err(CheckError::Invalid);
    }
    let Some(between) = each_arm(stops, opened, found, types, &types.results, then_arm, first)?
    else {
        return Ok(None);
    };
    let Some(after) = each_arm(
        stops,
        opened,
        found,
        types,
        &types.results,
        else_arm,
        between,
    )?
    else {
        return Ok(None);
    };
    opened.operands.push_all(&types.results)?;
    Ok(Some(after))
}

// A body of a block, from its parameters alone. What is open is again as it was.
#[cycle(each)]
fn each_arm<'a>(
    stops: &Stops<'a, '_>,
    opened: &mut Opened<'a>,
    found: &mut Vec<Types<'a>>,
    types: &BlockTypes<'a>,
    label: &TypeList<'a>,
    body: &Body,
    first: u32,
) -> Result<Option<u32>, CheckError>
    requires rising { IsStrictlyIncreasing stops.now.places.now }
    requires from { NextFrom stops.now.places.now found.old.items first }
    ensures found { OnOk result (let t = func_type_of types.now in
        let context = context_of stops.now.function (label.now ∷ opened.old.labels) in
        Finds IsKnown (ops_known context
        (opened.old.operands.stack ∷ stacks_of opened.old.outer.items) body.now (start t.params))
        (ops_count body.now) first stops.now.places.now found.old.items found.new.items) }
    ensures done { IfOk result (λ r. IfNone r
        (length stops.now.places.now ≤ length found.new.items)) }
    ensures after { IfOk result (λ r. IfSome r (λ after. after ≡ first + ops_count body.now)) }
    ensures from { IfOk result (λ r. IfSome r (λ after.
        NextFrom stops.now.places.now found.new.items after)) }
    ensures ends { IfOk result (λ r. IfSome r (λ after. let t = func_type_of types.now in
        let context = context_of stops.now.function (label.now ∷ opened.old.labels) in
        ends t.results (check_ops context body.now (start t.params)) ≡ true)) }
    ensures operands { IfOk result
        (λ r. IfSome r (λ after. opened.new.operands ≡ opened.old.operands)) }
    ensures labels { IfOk result (λ r. IfSome r (λ after. opened.new.labels ≡ opened.old.labels)) }
    ensures outer { IfOk result (λ r. IfSome r (λ after.
        opened.new.outer.items ≡ opened.old.outer.items)) }
    ensures invalid { result ≡ Err CheckError.Invalid → let t = func_type_of types.now in
        let context = context_of stops.now.function (label.now ∷ opened.old.labels) in
        ends t.results (check_ops context body.now (start t.params)) ≡ false }
{
    enter(stops.alloc, opened, label, &types.params)?;
    let Some(after) = each_in(stops, opened, found, body, first)? else {
        return Ok(None);
    };
    if !leave(opened, &types.results) {
        return Err(CheckError::Invalid);
    }
    Ok(Some(after))
}
