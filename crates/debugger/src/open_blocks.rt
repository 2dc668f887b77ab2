//! The blocks that are open at places.

ghost use Rattle.std.specs.Prelude.{◌≡◌, ◌+◌, ◌<◌, ◌≤◌, ◌∷◌, [], ℕ, List, All, reverse, length, slice_get, IfOk, IfSome, IfNone, OnOk};
ghost use Rattle.std.specs.List.Sorted.{IsStrictlyIncreasing};
ghost use Rattle.std.specs.List.{AllZip};
ghost use Rattle.wasm_ast.specs.Syntax.{count, ops_count};
ghost use Rattle.wasm_ast.specs.View.{op_of};
ghost use Rattle.validator.specs.Inside.EachPlace.{FoundAt, NextFrom, Finds};
ghost use Rattle.step_machine.specs.Places.{op_opens, opens_at};
ghost use Rattle.debugger.specs.Inside.OpenBlocks.{arm_opens, HasBlocks};

use std::alloc::{AllocError, Global};
use wasm_ast::{Arms, Body, Instr};

/// Where a walk stops.
#[derive(Clone, Copy)]
pub struct Stops<'p> {
    alloc: Global,
    /// The places, each after the one before it.
    places: &'p [u32],
}

/// The blocks that are open before the instructions at these places of a body, each by its place, the
/// innermost first. The time is linear in the body up to the last place, and in these blocks. Recursion is as
/// deep as the body's blocks are nested.
pub fn open_blocks_at(
    alloc: Global,
    body: &Body,
    places: &[u32],
) -> Result<Vec<Vec<u32>>, AllocError>
    requires rising { IsStrictlyIncreasing places.now }
    requires inside { All (λ place. place < ops_count body.now) places.now }
    ensures { IfOk result (λ found. AllZip (λ place b. b.items ≡ opens_at body.now 0 [] place)
        places.now found.items) }
{
    let stops = Stops { alloc, places };
    let mut blocks = Vec::new(alloc);
    let mut found = Vec::new(alloc);
    walk_body(&stops, &mut blocks, &mut found, body, 0)?;
    Ok(found)
}

// The place that follows this many of them.
fn next_place(places: &[u32], found: usize) -> Option<u32>
    ensures { result ≡ slice_get places.now found }
{
    places.get(found).copied()
}

// Blocks of which the innermost comes last, in the other order.
fn innermost_first(alloc: Global, blocks: &[u32]) -> Result<Vec<u32>, AllocError>
    ensures { IfOk result (λ b. b.items ≡ reverse blocks.now) }
{
    let mut list = Vec::from_slice(alloc, blocks)?;
    list.reverse();
    Ok(list)
}

// Adds the blocks that are open before the instruction with this number, if the next place is there.
fn add_here(
    stops: &Stops<'_>,
    blocks: &Vec<u32>,
    found: &mut Vec<Vec<u32>>,
    number: u32,
) -> Result<(), AllocError>
    requires rising { IsStrictlyIncreasing stops.now.places.now }
    requires from { NextFrom stops.now.places.now found.old.items number }
    ensures found { OnOk result ((all : ℕ → List ℕ) → all number ≡ reverse blocks.now.items
        → FoundAt (λ k b. HasBlocks (all k) b) stops.now.places.now found.old.items
        → FoundAt (λ k b. HasBlocks (all k) b) stops.now.places.now found.new.items) }
    ensures from { OnOk result (NextFrom stops.now.places.now found.new.items (number + 1)) }
{
    let Some(next) = next_place(stops.places, found.len()) else {
        return Ok(());
    };
    if next == number {
        let here = innermost_first(stops.alloc, blocks.as_slice())?;
        found.push(here)?;
    }
    Ok(())
}

// The same. Gives the number after this one, if a place is left.
fn stop_here(
    stops: &Stops<'_>,
    blocks: &Vec<u32>,
    found: &mut Vec<Vec<u32>>,
    number: u32,
) -> Result<Option<u32>, AllocError>
    requires rising { IsStrictlyIncreasing stops.now.places.now }
    requires from { NextFrom stops.now.places.now found.old.items number }
    ensures found { OnOk result ((all : ℕ → List ℕ) → all number ≡ reverse blocks.now.items
        → FoundAt (λ k b. HasBlocks (all k) b) stops.now.places.now found.old.items
        → FoundAt (λ k b. HasBlocks (all k) b) stops.now.places.now found.new.items) }
    ensures done { IfOk result (λ r. IfNone r
        (length stops.now.places.now ≤ length found.new.items)) }
    ensures after { IfOk result (λ r. IfSome r (λ after. after ≡ number + 1)) }
    ensures from { IfOk result (λ r. IfSome r (λ after.
        NextFrom stops.now.places.now found.new.items after)) }
{
    add_here(stops, blocks, found, number)?;
    match next_place(stops.places, found.len()) {
        Some(_) => Ok(Some(number + 1)),
        None => Ok(None),
    }
}

// Walks a sequence that is numbered from `first`, with the blocks that are open round it, of which
// the innermost comes last. Gives the number that follows it, or None as soon as no place is left.
#[cycle(walk)]
fn walk_body(
    stops: &Stops<'_>,
    blocks: &mut Vec<u32>,
    found: &mut Vec<Vec<u32>>,
    body: &Body,
    first: u32,
) -> Result<Option<u32>, AllocError>
    requires rising { IsStrictlyIncreasing stops.now.places.now }
    requires from { NextFrom stops.now.places.now found.old.items first }
    ensures found { OnOk result (Finds HasBlocks
        (opens_at body.now first (reverse blocks.old.items)) (ops_count body.now) first
        stops.now.places.now found.old.items found.new.items) }
    ensures done { IfOk result (λ r. IfNone r
        (length stops.now.places.now ≤ length found.new.items)) }
    ensures after { IfOk result (λ r. IfSome r (λ after. after ≡ first + ops_count body.now)) }
    ensures from { IfOk result (λ r. IfSome r (λ after.
        NextFrom stops.now.places.now found.new.items after)) }
    ensures blocks { IfOk result (λ r. IfSome r (λ after. blocks.new.items ≡ blocks.old.items)) }
{
    let mut next = first;
    for instr in body.as_slice() {
        let Some(after) = walk_instr(stops, blocks, found, instr, next)? else {
            return Ok(None);
        };
        next = after;
    }
    Ok(Some(next))
}

// The same for an instruction with this number.
#[cycle(walk)]
fn walk_instr(
    stops: &Stops<'_>,
    blocks: &mut Vec<u32>,
    found: &mut Vec<Vec<u32>>,
    instr: &Instr,
    number: u32,
) -> Result<Option<u32>, AllocError>
    requires rising { IsStrictlyIncreasing stops.now.places.now }
    requires from { NextFrom stops.now.places.now found.old.items number }
    ensures found { OnOk result (Finds HasBlocks
        (op_opens (op_of instr.now) number (reverse blocks.old.items)) (count (op_of instr.now))
        number stops.now.places.now found.old.items found.new.items) }
    ensures done { IfOk result (λ r. IfNone r
        (length stops.now.places.now ≤ length found.new.items)) }
    ensures after { IfOk result
        (λ r. IfSome r (λ after. after ≡ number + count (op_of instr.now))) }
    ensures from { IfOk result (λ r. IfSome r (λ after.
        NextFrom stops.now.places.now found.new.items after)) }
    ensures blocks { IfOk result (λ r. IfSome r (λ after. blocks.new.items ≡ blocks.old.items)) }
{
    let Some(inside) = stop_here(stops, blocks, found, number)? else {
        return Ok(None);
    };
    match instr {
        Instr::Simple(_) => Ok(Some(inside)),
        Instr::Block(_, body) => walk_block(stops, blocks, found, body, number, inside),
        Instr::Loop(_, body) => walk_block(stops, blocks, found, body, number, inside),
        Instr::If(_, arms) => {
            let Arms { then_arm, else_arm } = &**arms;
            walk_if(stops, blocks, found, then_arm, else_arm, number, inside)
        }
    }
}

// The same for what is inside a block or a loop with this number. Its body is numbered from `first`.
#[cycle(walk)]
fn walk_block(
    stops: &Stops<'_>,
    blocks: &mut Vec<u32>,
    found: &mut Vec<Vec<u32>>,
    body: &Body,
    number: u32,
    first: u32,
) -> Result<Option<u32>, AllocError>
    requires rising { IsStrictlyIncreasing stops.now.places.now }
    requires from { NextFrom stops.now.places.now found.old.items first }
    ensures found { OnOk result (Finds HasBlocks
        (opens_at body.now first (number ∷ reverse blocks.old.items)) (ops_count body.now) first
        stops.now.places.now found.old.items found.new.items) }
    ensures done { IfOk result (λ r. IfNone r
        (length stops.now.places.now ≤ length found.new.items)) }
    ensures after { IfOk result (λ r. IfSome r (λ after. after ≡ first + ops_count body.now)) }
    ensures from { IfOk result (λ r. IfSome r (λ after.
        NextFrom stops.now.places.now found.new.items after)) }
    ensures blocks { IfOk result (λ r. IfSome r (λ after. blocks.new.items ≡ blocks.old.items)) }
{
    blocks.push(number)?;
    let Some(after) = walk_body(stops, blocks, found, body, first)? else {
        return Ok(None);
    };
    let _closed = blocks.pop();
    Ok(Some(after))
}

// The same for what is inside an `if` with this number. Its first arm is numbered from `first`.
#[cycle(walk)]
fn walk_if(
    stops: &Stops<'_>,
    blocks: &mut Vec<u32>,
    found: &mut Vec<Vec<u32>>,
    then_arm: &Body,
    else_arm: &Body,
    number: u32,
    first: u32,
) -> Result<Option<u32>, AllocError>
    requires rising { IsStrictlyIncreasing stops.now.places.now }
    requires from { NextFrom stops.now.places.now found.old.items first }
    ensures found { OnOk result (Finds HasBlocks
        (arm_opens then_arm.now else_arm.now number first (reverse blocks.old.items))
        (ops_count then_arm.now + ops_count else_arm.now) first
        stops.now.places.now found.old.items found.new.items) }
    ensures done { IfOk result (λ r. IfNone r
        (length stops.now.places.now ≤ length found.new.items)) }
    ensures after { IfOk result (λ r. IfSome r (λ after.
        after ≡ first + ops_count then_arm.now + ops_count else_arm.now)) }
    ensures from { IfOk result (λ r. IfSome r (λ after.
        NextFrom stops.now.places.now found.new.items after)) }
    ensures blocks { IfOk result (λ r. IfSome r (λ after. blocks.new.items ≡ blocks.old.items)) }
{
    blocks.push(number)?;
    let Some(between) = walk_body(stops, blocks, found, then_arm, first)? else {
        return Ok(None);
    };
    let Some(after) = walk_body(stops, blocks, found, else_arm, between)? else {
        return Ok(None);
    };
    let _closed = blocks.pop();
    Ok(Some(after))
}
