//! What is known of the places that frames are at: found once for each place, whatever the number
//! of its frames.

ghost use Rattle.std.specs.Prelude.{◌≡◌, ◌++◌, ◌∷◌, [], All, IfOk, IfSome, OnOk, OnErr, Err, Some, slice_get, length};
ghost use Rattle.std.specs.List.Sorted.{IsStrictlyIncreasing};
ghost use Rattle.std.specs.List.{AllZip};
ghost use Rattle.wasm_ast.specs.declared.refusal.Refusal.TheVariants as refusal;
ghost use Rattle.wasm_ast.specs.declared.module.Func.{Func as FuncValue};
ghost use Rattle.wasm_ast.specs.declared.values.FuncType.{FuncType as FuncTypeValue};
ghost use Rattle.validator.specs.PlaceTypes.{IsOwn, IsPlace};
ghost use Rattle.step_machine.specs.Places.{opens_at};
ghost use Rattle.debugger.specs.declared.known_places.KnownPlace.{KnownPlace as KnownValue};
ghost use Rattle.debugger.specs.Inside.KnownPlaces.{IsKnown, HasFrame};
ghost use Rattle.debugger.specs.Inside.Typed.{AreTypesAt};

use crate::frame_places::{FramePlace, add_later, frame_places};
use crate::open_blocks::open_blocks_at;
use crate::types::{local_types, operand_types, own_func};
use std::alloc::{AllocError, Global};
use step_machine::{FlatModule, Machine};
use validator::Types;
use wasm_ast::{Func, Refusal, ValType};

/// What is known of all frames that are at a place of a function.
#[derive(Drop)]
pub struct KnownPlace {
    /// The function, imports counted first.
    pub func: u32,
    /// The place in its body.
    pub place: u32,
    /// The types of the locals, parameters first.
    pub locals: Vec<ValType>,
    /// The types of the operands there, the oldest first.
    pub operands: Vec<ValType>,
    /// The blocks that are open there, each by its place, the innermost first.
    pub blocks: Vec<u32>,
}

/// What is known of the places of a machine's frames: functions come one after the other, and the
/// places of each in their order. `NoMemory` if memory runs out. The body of each function that has
/// frames is walked twice, once for the types and once for the blocks: the time is linear in these
/// bodies, and in what is known.
pub fn known_of_frames(alloc: Global, machine: &Machine) -> Result<Vec<KnownPlace>, Refusal>
    ensures all { IfOk result (λ known. All (IsKnown machine.now.module) known.items) }
    ensures err { OnErr result (result ≡ Err refusal.NoMemory) }
{
    let places = frame_places(alloc, machine)?;
    let mut known = Vec::new(alloc);
    let mut rising = Vec::new(alloc);
    let mut func = 0;
    for at in places.as_slice() {
        add_place(alloc, machine.flat(), &mut known, &mut rising, func, *at)?;
        func = at.func;
    }
    look_at_each(alloc, machine.flat(), &mut known, func, rising.as_slice())?;
    Ok(known)
}

// Adds the place of a frame to those of its function, which are still to be looked at. If they are of another
// function, these are looked at first.
fn add_place(
    alloc: Global,
    of: &FlatModule,
    known: &mut Vec<KnownPlace>,
    rising: &mut Vec<u32>,
    func: u32,
    at: FramePlace,
) -> Result<(), Refusal>
    requires rising { IsStrictlyIncreasing rising.old.items }
    requires places { All (HasFrame of.now func) rising.old.items }
    requires frame { HasFrame of.now at.func at.place }
    requires all { All (IsKnown of.now) known.old.items }
    ensures rising { OnOk result (IsStrictlyIncreasing rising.new.items) }
    ensures places { OnOk result (All (HasFrame of.now at.func) rising.new.items) }
    ensures all { OnOk result (All (IsKnown of.now) known.new.items) }
    ensures err { OnErr result (result ≡ Err refusal.NoMemory) }
{
    begin_function(alloc, of, known, rising, func, at.func)?;
    add_later(rising, at.place)?;
    Ok(())
}

// If another function comes, looks at the places of the one before it.
fn begin_function(
    alloc: Global,
    of: &FlatModule,
    known: &mut Vec<KnownPlace>,
    rising: &mut Vec<u32>,
    before: u32,
    func: u32,
) -> Result<(), Refusal>
    requires rising { IsStrictlyIncreasing rising.old.items }
    requires places { All (HasFrame of.now before) rising.old.items }
    requires all { All (IsKnown of.now) known.old.items }
    ensures rising { OnOk result (IsStrictlyIncreasing rising.new.items) }
    ensures places { OnOk result (All (HasFrame of.now func) rising.new.items) }
    ensures all { OnOk result (All (IsKnown of.now) known.new.items) }
    ensures err { OnErr result (result ≡ Err refusal.NoMemory) }
{
    if func == before {
        return Ok(());
    }
    look_at_each(alloc, of, known, before, rising.as_slice())?;
    rising.clear();
    Ok(())
}

// Adds what is known of these places of a function, each after the one before it.
fn look_at_each(
    alloc: Global,
    of: &FlatModule,
    known: &mut Vec<KnownPlace>,
    func: u32,
    places: &[u32],
) -> Result<(), Refusal>
    requires rising { IsStrictlyIncreasing places.now }
    requires places { All (HasFrame of.now func) places.now }
    requires all { All (IsKnown of.now) known.old.items }
    ensures all { OnOk result (All (IsKnown of.now) known.new.items) }
    ensures err { OnErr result (result ≡ Err refusal.NoMemory) }
{
    if places.is_empty() {
        return Ok(());
    }
    let own = own_func(of.module(), func);
    let types = of.valid().types_at_each(alloc, func, places)?;
    let blocks = open_blocks_at(alloc, &own.body, places)?;
    add_each(
        alloc,
        of,
        known,
        own,
        func,
        places,
        types.as_slice(),
        blocks.as_slice(),
    )?;
    Ok(())
}

// The same with the types and the blocks of each place.
fn add_each(
    alloc: Global,
    of: &FlatModule,
    known: &mut Vec<KnownPlace>,
    own: &Func,
    func: u32,
    places: &[u32],
    types: &[Types<'_>],
    blocks: &[Vec<u32>],
) -> Result<(), AllocError>
    requires own { IsOwn of.now func own.now }
    requires is_type { (t : FuncTypeValue) × (slice_get of.now.types own.now.type_index ≡ Some t) }
    requires types_count { length types.now ≡ length places.now }
    requires blocks_count { length blocks.now ≡ length places.now }
    requires types { AllZip (AreTypesAt of.now func) places.now types.now }
    requires blocks { AllZip (λ place b. b.items ≡ opens_at own.now.body 0 [] place)
        places.now blocks.now }
    requires all { All (IsKnown of.now) known.old.items }
    ensures { OnOk result (All (IsKnown of.now) known.new.items) }
{
    for index in 0..places.len() {
        let place = places[index];
        let here = &types[index];
        let inside = &blocks[index];
        let one = known_place(alloc, of, own, func, place, here, inside.as_slice())?;
        let _number = add(known, one)?;
    }
    Ok(())
}

// What is known of a place with these types and blocks.
fn known_place(
    alloc: Global,
    of: &FlatModule,
    own: &Func,
    func: u32,
    place: u32,
    types: &Types<'_>,
    blocks: &[u32],
) -> Result<KnownPlace, AllocError>
    requires own { IsOwn of.now func own.now }
    requires is_type { (t : FuncTypeValue) × (slice_get of.now.types own.now.type_index ≡ Some t) }
    requires types { AreTypesAt of.now func place types.now }
    requires blocks { blocks.now ≡ opens_at own.now.body 0 [] place }
    ensures known { IfOk result (λ k. IsKnown of.now k) }
    ensures func { IfOk result (λ k. k.func ≡ func) }
    ensures place { IfOk result (λ k. k.place ≡ place) }
{
    let locals = local_types(alloc, of.module(), own)?;
    let operands = operand_types(alloc, of, func, place, types)?;
    let blocks = Vec::from_slice(alloc, blocks)?;
    Ok(KnownPlace {
        func,
        place,
        locals,
        operands,
        blocks,
    })
}

// What is known of one place. `NoMemory` if memory runs out. The time is linear in the body up to
// the place, and again in each block that is open there.
fn look_at(alloc: Global, of: &FlatModule, func: u32, place: u32) -> Result<KnownPlace, Refusal>
    requires own { (f : FuncValue) × (t : FuncTypeValue) × IsOwn of.now func f
        × (slice_get of.now.types f.type_index ≡ Some t) }
    requires place { IsPlace of.now func place }
    ensures known { IfOk result
        (λ k. IsKnown of.now k × (k.func ≡ func) × (k.place ≡ place)) }
    ensures err { OnErr result (result ≡ Err refusal.NoMemory) }
{
    let own = own_func(of.module(), func);
    let types = of.valid().types_at(alloc, func, place)?;
    let blocks = open_blocks_at(alloc, &own.body, &[place])?;
    let one = known_place(alloc, of, own, func, place, &types, blocks[0].as_slice())?;
    Ok(one)
}

// Where a place is among those that are known. It is looked for as in a list in rising order.
fn find(known: &[KnownPlace], func: u32, place: u32) -> Option<usize>
    ensures { IfSome result (λ i. (k : KnownValue) × (slice_get known.now i ≡ Some k)
        × (k.func ≡ func) × (k.place ≡ place)) }
{
    let mut low = 0;
    let mut high = known.len();
    while low < high {
        let index = low + (high - low) / 2;
        let one = &known[index];
        if one.func == func && one.place == place {
            return Some(index);
        }
        if one.func < func || one.func == func && one.place < place {
            low = index + 1;
        } else {
            high = index;
        }
    }
    None
}

// Adds a place to those that are known, and gives its number there. An error if memory runs out.
fn add(known: &mut Vec<KnownPlace>, one: KnownPlace) -> Result<usize, AllocError>
    ensures added { OnOk result (known.new.items ≡ known.old.items ++ one ∷ []) }
    ensures at { IfOk result (λ i. i ≡ length known.old.items) }
{
    let index = known.len();
    known.push(one)?;
    Ok(index)
}

/// Where a place is among those that are known, to which it is added if it is not there yet. `NoMemory`
/// if memory runs out.
pub fn known_at(
    alloc: Global,
    of: &FlatModule,
    known: &mut Vec<KnownPlace>,
    func: u32,
    place: u32,
) -> Result<usize, Refusal>
    requires own { (f : FuncValue) × (t : FuncTypeValue) × IsOwn of.now func f
        × (slice_get of.now.types f.type_index ≡ Some t) }
    requires place { IsPlace of.now func place }
    requires all { All (IsKnown of.now) known.old.items }
    ensures all { OnOk result (All (IsKnown of.now) known.new.items) }
    ensures at { IfOk result (λ i. (k : KnownValue) × (slice_get known.new.items i ≡ Some k)
        × (k.func ≡ func) × (k.place ≡ place)) }
    ensures err { OnErr result (result ≡ Err refusal.NoMemory) }
{
    if let Some(index) = find(known.as_slice(), func, place) {
        return Ok(index);
    }
    let one = look_at(alloc, of, func, place)?;
    Ok(add(known, one)?)
}
