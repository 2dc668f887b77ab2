//! The validation of a module (3.4.10).

ghost use Rattle.std.specs.Prelude.{◌≡◌, ◌≤◌, ◌<◌, ◌^◌, ◌+◌, ◌⊎◌, ◌&&◌, ℕ, IsTrue, IfOk, IfSome, OnOk, OnErr, Err, true, false, Option, Some, None, [], All, map, length};
ghost use Rattle.wasm_ast.specs.Syntax.{ops_count};
ghost use Rattle.wasm_ast.specs.declared.place.Place.{Place};
ghost use Rattle.wasm_ast.specs.declared.refusal.Refusal.TheVariants as refusal;
ghost use Rattle.validator.specs.Typing.{ValidBody, ValidModule, AllDifferent};
ghost use Rattle.validator.specs.Faults.{NamesFault};
ghost use Rattle.validator.specs.Inside.FunctionContext.{passes_func};
ghost use Rattle.validator.specs.Inside.ModuleTests.{declares_validly, defines_validly};
ghost use Rattle.validator.specs.Inside.CheckErrors.{IsAt};
ghost use Rattle.validator.specs.declared.check_error.BodyError.TheVariants.{Invalid, Memory};

use crate::block_types::BlockTypes;
use crate::bodies::check_body;
use crate::check_error::BodyError;
use crate::function::Function;
use crate::labels::Labels;
use crate::module_parts::{declares_validly, defines_validly};
use crate::operands::Operands;
use crate::packed_module::PackedModule;
use crate::places::count_body;
use crate::type_list::TypeList;
use std::alloc::{AllocError, Global};
use std::collections::BTreeMap;
use wasm_ast::{Export, Func, Module, Place, Refusal};

/// Whether all outside the functions' bodies is valid, names of exports aside. No memory is taken.
pub fn is_declared(unchecked: &Module) -> bool
    ensures { result ≡ declares_validly unchecked.now && defines_validly unchecked.now }
{
    declares_validly(unchecked) && defines_validly(unchecked)
}

/// Checks that such a module is valid: first the names of its exports, then its functions' bodies in
/// order. An error also if the names of exports cannot be held.
pub fn check_module(alloc: Global, unchecked: &PackedModule) -> Result<(), Refusal>
    requires { declares_validly unchecked.now && defines_validly unchecked.now ≡ true }
    ensures valid { OnOk result (ValidModule unchecked.now) }
    ensures invalid { (at : Option Place) → result ≡ Err (refusal.Invalid at)
        → NamesFault unchecked.now at }
    ensures err { OnErr result (((at : Option Place) × (result ≡ Err (refusal.Invalid at)))
        ⊎ (result ≡ Err refusal.NoMemory)) }
{
    let differ = names_differ(alloc, unchecked.module().exports.as_slice())?;
    if !differ {
        return Err(Refusal::Invalid(None));
    }
    check_funcs(alloc, unchecked)
}

// The names of exports differ. An error if the names cannot be held.
fn names_differ(alloc: Global, exports: &[Export]) -> Result<bool, AllocError>
    ensures valid { IfOk result (λ differ. IsTrue differ
        → AllDifferent (map (λ e. e.name) exports.now)) }
    ensures invalid { IfOk result (λ differ. differ ≡ false
        → AllDifferent (map (λ e. e.name) exports.now) → ⊥) }
{
    let mut seen = BTreeMap::new(alloc);
    for export in exports {
        if seen.insert(export.name.as_str(), ())?.is_some() {
            return Ok(false);
        }
    }
    Ok(true)
}

// The functions of the module. One list of operands and one of labels serve all of them.
fn check_funcs(alloc: Global, of: &PackedModule) -> Result<(), Refusal>
    ensures valid { OnOk result (All (ValidBody of.now) of.now.funcs) }
    ensures invalid { (at : Option Place) → result ≡ Err (refusal.Invalid at)
        → NamesFault of.now at }
    ensures err { OnErr result (((at : Option Place) × (result ≡ Err (refusal.Invalid at)))
        ⊎ (result ≡ Err refusal.NoMemory)) }
{
    let mut labels = Labels::new(alloc);
    let mut operands = Operands::new(alloc);
    let funcs = of.module().funcs.as_slice();
    for (i, func) in funcs.iter().enumerate() {
        if let Err(error) = check_func(of, func, &mut labels, &mut operands) {
            return Err(refusal_at(of.module(), i, error));
        }
    }
    Ok(())
}

// The refusal of a module whose own function with this number is at fault. `NoMemory` also where the
// function's index has more than 32 bits.
fn refusal_at(of: &Module, own: usize, error: BodyError) -> Refusal
    ensures at { (at : Option Place) → result ≡ refusal.Invalid at → IsAt of.now own error at }
    ensures err { ((at : Option Place) × (result ≡ refusal.Invalid at))
        ⊎ (result ≡ refusal.NoMemory) }
    // Memory is told of only if it ran out, or for an index of more than 32 bits.
    ensures memory { result ≡ refusal.NoMemory
        → (error ≡ Memory) ⊎ (2 ^ 32 ≤ length of.now.imports + own) }
{
    let BodyError::Invalid(instr) = error else {
        return Refusal::NoMemory;
    };
    match index_of(of, own) {
        Some(func) => Refusal::Invalid(Some(Place { func, instr })),
        None => Refusal::NoMemory,
    }
}

// The index of the module's own function with this number. None if it has more than 32 bits.
fn index_of(of: &Module, own: usize) -> Option<u32>
    ensures index { IfSome result (λ func. func ≡ length of.now.imports + own) }
    ensures none { result ≡ None → 2 ^ 32 ≤ length of.now.imports + own }
{
    let index = of.imports.len().checked_add(own)?;
    u32::try_from(index).ok()
}

// A function's body is a block of its results (3.4.1).
fn check_func<'a>(
    of: &'a PackedModule,
    func: &'a Func,
    labels: &mut Labels<'a>,
    operands: &mut Operands<'a>,
) -> Result<(), BodyError>
    requires { labels.old ≡ [] }
    ensures valid { OnOk result (ValidBody of.now func.now) }
    ensures labels { OnOk result (labels.new ≡ []) }
    ensures invalid { (at : ℕ) → result ≡ Err (Invalid at) → ValidBody of.now func.now → ⊥ }
    ensures place { (at : ℕ) → result ≡ Err (Invalid at) → at ≤ ops_count func.now.body }
{
    let Some(func_type) = of.module().type_with(func.type_index) else {
        return Ok(());
    };
    let function = Function {
        of,
        func_type,
        func,
    };
    check_whole(&function, labels, operands)
}

// The whole body of a function. A fault at its end has the number of its instructions.
fn check_whole<'a>(
    function: &Function<'a>,
    labels: &mut Labels<'a>,
    operands: &mut Operands<'a>,
) -> Result<(), BodyError>
    requires { labels.old ≡ [] }
    ensures valid { OnOk result
        (passes_func function.now.of.now function.now.func_type.now function.now.func.now ≡ true) }
    ensures labels { OnOk result (labels.new ≡ []) }
    ensures invalid { (at : ℕ) → result ≡ Err (Invalid at)
        → passes_func function.now.of.now function.now.func_type.now function.now.func.now ≡ false }
    ensures place { (at : ℕ) → result ≡ Err (Invalid at)
        → at ≤ ops_count function.now.func.now.body }
{
    let types = BlockTypes {
        params: TypeList::plain(&[]),
        results: TypeList::plain(function.func_type.results.as_slice()),
    };
    let body = &function.func.body;
    match check_body(function, labels, &types, &types.results, body, operands) {
        Ok(true) => Ok(()),
        Ok(false) => Err(BodyError::Invalid(count_body(body))),
        Err(error) => Err(error),
    }
}
