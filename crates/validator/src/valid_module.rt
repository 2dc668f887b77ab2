//! Modules that are valid (3).

ghost use Rattle.std.specs.Prelude.{◌≡◌, ◌⊎◌, ◌↔◌, ◌&&◌, All, map, true, Option, None, IfOk, OnOk, OnErr, Err};
ghost use Rattle.std.specs.Arc.{arc_value};
ghost use Rattle.std.specs.List.Sorted.{IsStrictlyIncreasing};
ghost use Rattle.std.specs.List.{AllZip};
ghost use Rattle.wasm_ast.specs.declared.refusal.Refusal.TheVariants as refusal;
ghost use Rattle.wasm_ast.specs.declared.place.Place.{Place};
ghost use Rattle.validator.specs.Typing.{ValidOutside, ValidModule, AllDifferent};
ghost use Rattle.validator.specs.Inside.ModuleTests.{declares_validly, defines_validly};
ghost use Rattle.validator.specs.Faults.{NamesFault};
ghost use Rattle.validator.specs.PlaceTypes.{Point, IsPlace, ReachesAt, PassesAt, MatchPoint};

use crate::check_error::CheckError;
use crate::each_place::known_at_each;
use crate::function::own_function;
use crate::packed_module::PackedModule;
use crate::types::Types;
use crate::validation::{check_module, is_declared};
use crate::walk::known_at;
use std::alloc::{AllocError, Global};
use std::marker::Model;
use std::sync::Arc;
use wasm_ast::{Module, Refusal};

/// A module that is valid, shared by all that hold it. Contracts see the module.
#[derive(Drop)]
pub struct Valid {
    module: Arc<PackedModule>,
}

impl Model for Valid {
    ghost use Rattle.wasm_ast.specs.declared.module.Module.{Module};

    ghost Value = { Module };

    ghost use Rattle.wasm_ast.specs.Inside.ModuleCode.{module_code};

    ghost coded = { module_code };

    ghost use Rattle.validator.specs.Typing.{ValidModule};
    ghost use Rattle.std.specs.Arc.{arc_value};

    ghost view = { λ v. arc_value v.module };

    ghost invariant = { λ v. ValidModule (arc_value v.module) };
}

impl Valid {
    /// The module.
    pub fn module(&self) -> &Module
        ensures value { result.now ≡ self.now }
        ensures valid { ValidModule self.now }
    {
        self.packed().module()
    }

    // The module, with its long lists packed.
    fn packed(&self) -> &PackedModule
        ensures value { result.now ≡ self.now }
        ensures valid { ValidModule self.now }
    {
        &self.module
    }

    /// The same module, shared. No memory is taken: an error only if more owners share it than can
    /// be counted.
    pub fn share(&self) -> Result<Valid, AllocError>
        ensures { IfOk result (λ v. v ≡ self.now) }
    {
        let module = Arc::try_clone(&self.module)?;
        Ok(Valid { module })
    }

    /// What is known of operands and labels before the instruction at a place of a function's body
    /// (3.3). It represents the points that typings of the instructions before the place lead to, and
    /// no others. Imports are counted before the module's own functions. `NoMemory` if memory for
    /// the check of those instructions cannot be allocated. Recursion is as deep as blocks are
    /// nested, which is as deep as that of dropping the module.
    pub fn types_at<'a>(
        &'a self,
        alloc: Global,
        func: u32,
        place: u32,
    ) -> Result<Types<'a>, Refusal>
        requires { IsPlace self.now func place }
        ensures exact { IfOk result
            (λ t. (p : Point) → MatchPoint t p ↔ ReachesAt self.now func place p) }
        ensures every { IfOk result
            (λ t. (p : Point) → PassesAt self.now func place p → MatchPoint t p) }
        ensures some { IfOk result
            (λ t. (p : Point) × PassesAt self.now func place p × MatchPoint t p) }
        ensures err { OnErr result (result ≡ Err refusal.NoMemory) }
    {
        let function = own_function(self.packed(), func);
        match known_at(alloc, &function, place) {
            Ok(types) => Ok(types),
            Err(CheckError::Memory) => Err(Refusal::NoMemory),
            Err(CheckError::Invalid) => unreachable!(),
        }
    }

    /// What `types_at` answers for each of these places of a function's body, which are in rising
    /// order. The body is walked once: the time is linear in it up to the last place, and in what
    /// is known at the places.
    pub fn types_at_each<'a>(
        &'a self,
        alloc: Global,
        func: u32,
        places: &[u32],
    ) -> Result<Vec<Types<'a>>, Refusal>
        requires rising { IsStrictlyIncreasing places.now }
        requires places { All (IsPlace self.now func) places.now }
        ensures exact { IfOk result (λ types. AllZip (λ place t.
            (p : Point) → MatchPoint t p ↔ ReachesAt self.now func place p)
            places.now types.items) }
        ensures every { IfOk result (λ types. AllZip (λ place t.
            (p : Point) → PassesAt self.now func place p → MatchPoint t p) places.now types.items) }
        ensures some { IfOk result (λ types. AllZip (λ place t.
            (p : Point) × PassesAt self.now func place p × MatchPoint t p) places.now types.items) }
        ensures err { OnErr result (result ≡ Err refusal.NoMemory) }
    {
        if places.is_empty() {
            return Ok(Vec::new(alloc));
        }
        let function = own_function(self.packed(), func);
        match known_at_each(alloc, &function, places) {
            Ok(types) => Ok(types),
            Err(CheckError::Memory) => Err(Refusal::NoMemory),
            Err(CheckError::Invalid) => unreachable!(),
        }
    }
}

/// Takes a module that is valid. `Invalid` only if it is not: with a place, whose function has a body
/// without a typing, or without one, if the fault is outside the bodies; of several faults it is one of
/// those outside, or else the first one. `NoMemory` if memory for the check or for sharing the module
/// cannot be allocated, or if the index of a function at fault has more than 32 bits; but a fault outside
/// the bodies is `Invalid` whatever the memory, names of exports aside. Blocks may be nested to any depth:
/// recursion is as deep as they are, which is as deep as that of dropping the module.
pub fn validate(alloc: Global, unchecked: Module) -> Result<Valid, Refusal>
    ensures ok { IfOk result (λ v. v ≡ unchecked) }
    ensures valid { OnOk result (ValidModule unchecked) }
    ensures invalid { (at : Option Place) → result ≡ Err (refusal.Invalid at)
        → NamesFault unchecked at }
    ensures outside { AllDifferent (map (λ e. e.name) unchecked.exports)
        → (ValidOutside unchecked → ⊥) → result ≡ Err (refusal.Invalid None) }
    ensures err { OnErr result (((at : Option Place) × (result ≡ Err (refusal.Invalid at)))
        ⊎ (result ≡ Err refusal.NoMemory)) }
{
    if !is_declared(&unchecked) {
        return Err(Refusal::Invalid(None));
    }
    checked(alloc, unchecked)
}

// The same of a module that is valid outside its functions' bodies, names of exports aside.
fn checked(alloc: Global, unchecked: Module) -> Result<Valid, Refusal>
    requires { declares_validly unchecked && defines_validly unchecked ≡ true }
    ensures ok { IfOk result (λ v. v ≡ unchecked) }
    ensures valid { OnOk result (ValidModule unchecked) }
    ensures invalid { (at : Option Place) → result ≡ Err (refusal.Invalid at)
        → NamesFault unchecked at }
    ensures err { OnErr result (((at : Option Place) × (result ≡ Err (refusal.Invalid at)))
        ⊎ (result ≡ Err refusal.NoMemory)) }
{
    let unchecked = PackedModule::new(alloc, unchecked)?;
    check_module(alloc, &unchecked)?;
    let module = shared(alloc, unchecked)?;
    Ok(Valid { module })
}

fn shared(alloc: Global, checked: PackedModule) -> Result<Arc<PackedModule>, AllocError>
    ensures { IfOk result (λ m. arc_value m ≡ checked) }
{
    let shared = Arc::new(alloc, checked)?;
    Ok(shared)
}
