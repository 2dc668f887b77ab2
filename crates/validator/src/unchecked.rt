//! Modules that need not be valid, and what is known of operands in their bodies (3.3).

ghost use Rattle.std.specs.Prelude.{◌≡◌, ◌∷◌, ◌↔◌, [], List, IfOk, IfErr, OnOk, IfSome, MatchOption, Err, Some, None, slice_get, map, reverse};
ghost use Rattle.wasm_ast.specs.declared.values.ValType.{ValType as ValTypeValue};
ghost use Rattle.wasm_ast.specs.declared.values.FuncType.{FuncType as FuncTypeValue};
ghost use Rattle.wasm_ast.specs.declared.module.Func.{Func as FuncValue};
ghost use Rattle.validator.specs.PlaceTypes.{Point, IsOwn, ReachesAt, Matches, MatchPoint};
ghost use Rattle.validator.specs.SequenceTypes.{LeadsIn};
ghost use Rattle.validator.specs.Inside.Needs.{LacksIn, IsThereFor, GoesOn};
ghost use Rattle.validator.specs.Inside.Algorithm.{start, check_ops};
ghost use Rattle.validator.specs.Inside.FunctionContext.{context_of};

use crate::bodies::check_instr;
use crate::check_error::CheckError;
use crate::function::Function;
use crate::labels::Labels;
use crate::needs::{Lack, Taken};
use crate::operands::Operands;
use crate::packed_module::PackedModule;
use crate::type_list::TypeList;
use crate::types::{KnownOperands, Types, needs_inside};
use crate::walk::known_at;
use std::alloc::{AllocError, Global};
use std::marker::Model;
use wasm_ast::{Body, Module, Simple, ValType};

/// A module that need not be valid. Contracts see the module.
#[derive(Drop)]
pub struct Unchecked {
    packed: PackedModule,
}

impl Model for Unchecked {
    ghost use Rattle.wasm_ast.specs.declared.module.Module.{Module};

    ghost Value = { Module };

    ghost use Rattle.wasm_ast.specs.Inside.ModuleCode.{module_code};

    ghost coded = { module_code };

    ghost view = { λ u. u.packed };
}

impl Unchecked {
    /// Takes a module as it is. An error only if memory runs out.
    pub fn new(alloc: Global, of: Module) -> Result<Unchecked, AllocError>
        ensures { IfOk result (λ u. u ≡ of) }
    {
        let packed = PackedModule::new(alloc, of)?;
        Ok(Unchecked { packed })
    }

    /// The module.
    pub fn module(&self) -> &Module
        ensures { result.now ≡ self.now }
    {
        self.packed.module()
    }

    /// What is known of operands and labels before the instruction at a place of a function's body (3.3).
    /// It represents the points that typings of the instructions before the place lead to, and no others.
    /// None if they lead to none: one of them has no typing, there is no such place, or the module has
    /// no such function of its own with a type. Imports are counted before the module's own functions. An
    /// error only if memory runs out. Recursion is as deep as blocks are nested, which is as deep as that
    /// of dropping the module.
    pub fn types_before<'a>(
        &'a self,
        alloc: Global,
        func: u32,
        place: u32,
    ) -> Result<Option<Types<'a>>, AllocError>
        ensures exact { IfOk result (λ found. MatchOption found
            ((p : Point) → ReachesAt self.now func place p → ⊥)
            (λ t. (p : Point) → MatchPoint t p ↔ ReachesAt self.now func place p)) }
    {
        let Some(function) = function_at(&self.packed, func) else {
            return Ok(None);
        };
        match known_at(alloc, &function, place) {
            Ok(types) => Ok(Some(types)),
            Err(CheckError::Memory) => Err(AllocError),
            Err(CheckError::Invalid) => Ok(None),
        }
    }

    /// What is known of the operands at the end of a sequence of instructions (3.3.6), which begins with
    /// operands of these types alone, in a function and inside these labels, the outermost first. It
    /// represents the stacks that typings of the sequence lead to, and no others. None if they lead
    /// to none. An error only if memory runs out. Recursion is as deep as blocks are nested, which
    /// is as deep as that of dropping the sequence.
    pub fn types_after<'a>(
        &'a self,
        alloc: Global,
        func: u32,
        labels: &[&'a [ValType]],
        params: &'a [ValType],
        body: &Body,
    ) -> Result<Option<EndTypes>, AllocError>
        ensures exact { let within = reverse (map (λ l. l.now) labels.now) in
            IfOk result (λ found. MatchOption found
            ((new : List ValTypeValue)
            → LeadsIn self.now func within body.now (reverse params.now) new → ⊥)
            (λ s. (new : List ValTypeValue)
            → Matches s new ↔ LeadsIn self.now func within body.now (reverse params.now) new)) }
    {
        let Some(function) = function_at(&self.packed, func) else {
            return Ok(None);
        };
        let labels = labels_of(alloc, labels)?;
        match end_of(alloc, &function, labels, params, body) {
            Ok(types) => Ok(Some(types)),
            Err(CheckError::Memory) => Err(AllocError),
            Err(CheckError::Invalid) => Ok(None),
        }
    }

    /// Which operands an instruction without a body takes in a function, inside the labels that are known:
    /// it leads from the stacks that have them on top to others, and from no other stack (3.3.1 to 3.3.5).
    /// An error says what it names that is not there. None if the module has no such function of its own
    /// with a type. Imports are counted before the module's own functions. No memory is taken.
    pub fn taken_by<'a>(
        &'a self,
        func: u32,
        known: &mut Types<'a>,
        simple: &Simple,
    ) -> Option<Result<Taken<'a>, Lack>>
        ensures taken { IfSome result (λ r. IfOk r (λ taken. (old : List ValTypeValue)
            → IsThereFor taken old ↔ GoesOn self.now func known.old.labels simple.now old)) }
        ensures lacks { IfSome result
            (λ r. IfErr r (LacksIn self.now func known.old.labels simple.now)) }
        ensures none { result ≡ None → (f : FuncValue) (t : FuncTypeValue)
            → IsOwn self.now func f → slice_get self.now.types f.type_index ≡ Some t → ⊥ }
        ensures known { known.new ≡ known.old }
    {
        let Some(function) = function_at(&self.packed, func) else {
            return None;
        };
        match needs_inside(&function, known, simple) {
            Ok(needs) => Some(Ok(needs.taken())),
            Err(lack) => Some(Err(lack)),
        }
    }
}

/// What is known of the operands at the end of a sequence of instructions. Contracts see the stack.
#[derive(Drop)]
pub struct EndTypes {
    /// Their types, the newest last, and None for one that may be of any type.
    types: Vec<Option<ValType>>,
    unreachable: bool,
}

impl Model for EndTypes {
    ghost use Rattle.validator.specs.PlaceTypes.{Stack};

    ghost Value = { Stack };

    ghost use Rattle.std.specs.Prelude.{reverse};

    ghost view = { λ e. record { unreachable = e.unreachable; types = reverse e.types.items } };
}

impl EndTypes {
    /// The operands.
    pub fn operands(&self) -> KnownOperands<'_>
        ensures unreachable { result.unreachable ≡ self.now.unreachable }
        ensures types { reverse result.types.now ≡ self.now.types }
    {
        KnownOperands {
            types: self.types.as_slice(),
            unreachable: self.unreachable,
        }
    }
}

// The function with this index of a module's own, imports counted first. None if there is none, or if its
// index names no type.
fn function_at<'a>(of: &'a PackedModule, func: u32) -> Option<Function<'a>>
    ensures of { IfSome result (λ f. f.of.now ≡ of.now) }
    ensures own { IfSome result (λ f. IsOwn of.now func f.func.now) }
    ensures is_type { IfSome result (λ f.
        slice_get of.now.types f.func.now.type_index ≡ Some f.func_type.now) }
    ensures none { result ≡ None → (f : FuncValue) (t : FuncTypeValue)
        → IsOwn of.now func f → slice_get of.now.types f.type_index ≡ Some t → ⊥ }
{
    let own = (func as usize).checked_sub(of.module().imports.len())?;
    let func = of.module().funcs.as_slice().get(own)?;
    let func_type = of.module().type_with(func.type_index)?;
    Some(Function {
        of,
        func_type,
        func,
    })
}

// The labels of blocks to which branches take these types, the outermost first.
fn labels_of<'a>(alloc: Global, types: &[&'a [ValType]]) -> Result<Labels<'a>, AllocError>
    ensures { IfOk result (λ l. l ≡ reverse (map (λ t. t.now) types.now)) }
{
    let mut labels = Labels::new(alloc);
    for each in types {
        labels.push(&TypeList::plain(each))?;
    }
    Ok(labels)
}

// What is known at the end of a sequence that begins with operands of these types alone.
fn end_of<'a>(
    alloc: Global,
    function: &Function<'a>,
    mut labels: Labels<'a>,
    params: &'a [ValType],
    body: &Body,
) -> Result<EndTypes, CheckError>
    ensures ok { IfOk result (λ e. check_ops (context_of function.now labels.entry) body.now
        (start params.now) ≡ Some e) }
    ensures invalid { result ≡ Err CheckError.Invalid
        → check_ops (context_of function.now labels.entry) body.now (start params.now) ≡ None }
{
    let mut operands = Operands::new(alloc);
    operands.push_all(&TypeList::plain(params))?;
    pass_all(function, &mut labels, body, &mut operands)?;
    let types = operands.spread(alloc)?;
    Ok(EndTypes {
        types,
        unreachable: operands.is_unreachable(),
    })
}

// Checks all instructions of a sequence.
fn pass_all<'a>(
    function: &Function<'a>,
    labels: &mut Labels<'a>,
    body: &Body,
    operands: &mut Operands<'a>,
) -> Result<(), CheckError>
    ensures ok { OnOk result (check_ops (context_of function.now labels.old) body.now
        operands.old.stack ≡ Some operands.new.stack) }
    ensures invalid { result ≡ Err CheckError.Invalid
        → check_ops (context_of function.now labels.old) body.now operands.old.stack ≡ None }
{
    for instr in body.as_slice() {
        check_instr(function, labels, instr, operands)?;
    }
    Ok(())
}
