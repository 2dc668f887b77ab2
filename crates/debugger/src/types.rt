//! The types of a frame's words.

ghost use Rattle.std.specs.Prelude.{◌≡◌, ◌≤◌, ◌^◌, ◌++◌, ◌↔◌, IfOk, OnOk, Some, length, slice_get, reverse};
ghost use Rattle.wasm_ast.specs.declared.module.Func.{Func as FuncValue};
ghost use Rattle.wasm_ast.specs.declared.values.FuncType.{FuncType as FuncTypeValue};
ghost use Rattle.validator.specs.PlaceTypes.{Point, IsOwn, ReachesAt};
ghost use Rattle.step_machine.specs.Frames.{joined};
ghost use Rattle.debugger.specs.Inside.Typed.{AreTypesAt, known_of, oldest_first};

use std::alloc::{AllocError, Global};
use step_machine::FlatModule;
use validator::Types;
use wasm_ast::{Func, Module, ValType};

/// The function with this index of a module's own, imports counted first.
pub fn own_func(of: &Module, func: u32) -> &Func
    requires { (f : FuncValue) × IsOwn of.now func f }
    ensures { IsOwn of.now func result.now }
{
    &of.funcs.as_slice()[func as usize - of.imports.len()]
}

/// The types of a function's locals, parameters first. An error if memory runs out.
pub fn local_types(alloc: Global, of: &Module, own: &Func) -> Result<Vec<ValType>, AllocError>
    requires { (t : FuncTypeValue) × (slice_get of.now.types own.now.type_index ≡ Some t) }
    ensures { IfOk result (λ v. (t : FuncTypeValue)
        → slice_get of.now.types own.now.type_index ≡ Some t
        → v.items ≡ t.params ++ own.now.locals) }
{
    let Some(func_type) = of.type_with(own.type_index) else {
        unreachable!();
    };
    let mut types = Vec::from_slice(alloc, func_type.params.as_slice())?;
    types.extend_from_slice(own.locals.as_slice())?;
    Ok(types)
}

/// The types of the operands before the instruction at a place of a function's body, the oldest
/// first, by what is known there, if the instructions before it lead to one point. An error if
/// memory runs out.
pub fn operand_types(
    alloc: Global,
    of: &FlatModule,
    func: u32,
    place: u32,
    types: &Types<'_>,
) -> Result<Vec<ValType>, AllocError>
    requires { AreTypesAt of.now func place types.now }
    ensures { IfOk result (λ v. (point : Point)
        → ((p : Point) → ReachesAt of.now func place p ↔ (p ≡ point))
        → v.items ≡ reverse (joined point.stacks)) }
{
    let known = known_types(alloc, types)?;
    Ok(known)
}

// The types that are known of the operands of all blocks, the oldest first. An error if memory runs
// out.
fn known_types(alloc: Global, types: &Types<'_>) -> Result<Vec<ValType>, AllocError>
    requires same { length types.now.stacks ≡ length types.now.labels }
    requires few { length types.now.labels ≤ 2 ^ 32 }
    ensures { IfOk result (λ v. v.items ≡ oldest_first types.now.stacks) }
{
    let count = types.open_blocks();
    let mut known = Vec::new(alloc);
    for inner in 0..count {
        let Some(operands) = types.operands((count - 1 - inner) as u32) else {
            unreachable!();
        };
        push_known(&mut known, operands.types)?;
    }
    Ok(known)
}

// Adds those of these types that are known. An error if memory runs out.
fn push_known(known: &mut Vec<ValType>, types: &[Option<ValType>]) -> Result<(), AllocError>
    ensures { OnOk result (known.new.items ≡ known.old.items ++ known_of types.now) }
{
    for val_type in types {
        if let Some(val_type) = val_type {
            known.push(*val_type)?;
        }
    }
    Ok(())
}
