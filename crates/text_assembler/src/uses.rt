//! Uses of types (6.6.3).

ghost use Rattle.std.specs.Prelude.{◌≡◌, [], ◌∷◌, ◌++◌, is_none, Ok, IfOk};
ghost use Rattle.text_assembler.specs.Inside.Answers.{Gives};
ghost use Rattle.text_assembler.specs.Inside.Steps.{func_type, read_signature, used_params};
ghost use Rattle.text_assembler.specs.Phrases.{names_of, types_of};
ghost use Rattle.text_assembler.specs.Instructions.{declare_all, is_unwritten, fits_signature, params_of_use, read_type_index, read_use, read_nameless_use};

use crate::fault::ReadError;
use crate::ids::Ids;
use crate::phrases::{
    Binding, first_other, push_bindings, push_results, read_index, skip_close, skip_group,
};
use crate::scopes::Scopes;
use crate::token::{Token, WrittenType};
use std::alloc::{AllocError, Global};
use wasm_ast::{Bytes, FuncType, Sequence, ValType};

/// A use of a type: its index, and the parameters as locals.
#[derive(Drop)]
pub struct TypeUse {
    pub type_index: u32,
    pub params: Ids,
    /// How many tokens are left at the first identifier of a parameter, if there is one.
    pub first_name: usize,
}

// How many tokens are left after the parameters of a use, and after its results.
#[derive(Clone, Copy)]
struct Ends {
    params: usize,
    results: usize,
}

/// Parameters and results as they are written.
#[derive(Drop)]
pub struct Written {
    params: Vec<Binding>,
    results: Vec<WrittenType>,
    ends: Ends,
}

impl Written {
    /// The type of a function that has them.
    pub fn func_type(&self, alloc: Global) -> Result<FuncType, AllocError>
        ensures { IfOk result (λ t. t ≡ func_type self.now.params.items self.now.results.items) }
    {
        let params = val_types_of(alloc, self.params.as_slice())?;
        let results = without_places(alloc, self.results.as_slice())?;
        Ok(FuncType { params, results })
    }
}

/// The same name, in memory of its own.
pub fn copy_name(alloc: Global, name: &Option<Bytes>) -> Result<Option<Bytes>, AllocError>
    ensures { IfOk result (λ copy. copy ≡ name.now) }
{
    match name {
        Some(name) => Ok(Some(name.copy(alloc)?)),
        None => Ok(None),
    }
}

/// Declares the identifiers of these parameters or locals, in order.
#[tactic(auto, unfolding(crate::specs::Instructions::declare_all))]
pub fn declare_bindings(alloc: Global, ids: &mut Ids, bindings: &[Binding]) -> Result<(), ReadError>
    ensures { Gives (λ _. ids.new) result (declare_all ids.old (names_of bindings.now)) }
{
    let mut rest = bindings;
    while let [first, tail @ ..] = rest {
        ids.declare(alloc, copy_name(alloc, &first.name)?, first.name_left())?;
        rest = tail;
    }
    Ok(())
}

// How many tokens are left at the first identifier of these parameters. 0 if they have none.
fn first_name(params: &[Binding]) -> usize {
    let mut rest = params;
    while let [first, tail @ ..] = rest {
        if first.name.is_some() {
            return first.name_left();
        }
        rest = tail;
    }
    0
}

// The types of these parameters or locals, in order.
fn types_of(alloc: Global, bindings: &[Binding]) -> Result<Vec<WrittenType>, AllocError>
    ensures { IfOk result (λ types. types.items ≡ types_of bindings.now) }
{
    bindings
        .iter()
        .map(|binding| binding.val_type.copy())
        .collect(alloc)
}

// These types, without their places.
fn without_places(alloc: Global, types: &[WrittenType]) -> Result<Sequence<ValType>, AllocError>
    ensures { IfOk result (λ all. all ≡ types.now) }
{
    let types = types
        .iter()
        .map(|written| written.val_type())
        .collect(alloc)?;
    Ok(Sequence::new(types))
}

/// The types of these parameters or locals, in order and without their places.
pub fn val_types_of(alloc: Global, bindings: &[Binding]) -> Result<Sequence<ValType>, AllocError>
    ensures { IfOk result (λ types. types ≡ types_of bindings.now) }
{
    let types = types_of(alloc, bindings)?;
    without_places(alloc, types.as_slice())
}

// How many tokens are left where these parameters and results are first not those of the type.
#[tactic(auto, unfolding(crate::specs::Instructions::fits_signature))]
fn misfit(
    alloc: Global,
    signature: &FuncType,
    params: &[Binding],
    results: &[WrittenType],
    ends: Ends,
) -> Result<Option<usize>, AllocError>
    ensures { IfOk result (λ place.
        is_none place ≡ fits_signature signature.now params.now results.now) }
{
    let types = types_of(alloc, params)?;
    let place = first_other(signature.params.as_slice(), types.as_slice(), ends.params);
    if place.is_some() {
        return Ok(place);
    }
    Ok(first_other(signature.results.as_slice(), results, ends.results))
}

// The parameters of a use as locals.
#[tactic(auto, unfolding(crate::specs::Instructions::params_of_use))]
fn params_of_use(alloc: Global, signature: &FuncType, written: &Written) -> Result<Ids, ReadError>
    ensures { Gives (λ x. x) result
        (params_of_use signature.now written.now.params.items written.now.results.items) }
{
    let params = written.params.as_slice();
    let results = written.results.as_slice();
    if params.is_empty() && results.is_empty() {
        return Ok(Ids::nameless(alloc, signature.params.len()));
    }
    if let Some(left) = misfit(alloc, signature, params, results, written.ends)? {
        return Err(ReadError::Malformed { left });
    }
    let mut ids = Ids::new(alloc);
    declare_bindings(alloc, &mut ids, params)?;
    Ok(ids)
}

// The parameters, as locals, of a use of the type with this index, where `left` tokens are left.
fn used_params(
    alloc: Global,
    scopes: &Scopes,
    index: u32,
    left: usize,
    written: &Written,
) -> Result<Ids, ReadError>
    ensures { Gives (λ x. x) result
        (used_params scopes.now index written.now.params.items written.now.results.items) }
{
    match scopes.signatures.as_slice().get(index as usize) {
        Some(signature) => params_of_use(alloc, signature, written),
        None => Err(ReadError::Malformed { left }),
    }
}

/// The parameters and results that are next, and what follows them.
pub fn read_signature(alloc: Global, tokens: &[Token]) -> Result<(Written, &[Token]), ReadError>
    ensures { Gives (λ x. ((x.0.params.items, x.0.results.items), x.1.now)) result
        (read_signature tokens.now) }
{
    let mut params = Vec::new(alloc);
    let after_params = push_bindings(alloc, "param", &mut params, tokens)?;
    let mut results = Vec::new(alloc);
    let rest = push_results(&mut results, after_params)?;
    let ends = Ends {
        params: after_params.len(),
        results: rest.len(),
    };
    let written = Written {
        params,
        results,
        ends,
    };
    Ok((written, rest))
}

// `( type index )`, and what follows it.
#[tactic(auto, unfolding(crate::specs::Instructions::read_type_index))]
fn read_type_index<'a>(
    scopes: &Scopes,
    tokens: &'a [Token],
) -> Result<(u32, &'a [Token]), ReadError>
    ensures { Gives (λ x. (x.0, x.1.now)) result (read_type_index scopes.now tokens.now) }
{
    let rest = skip_group("type", tokens)?;
    let (index, rest) = read_index(&scopes.types, rest)?;
    let rest = skip_close(rest)?;
    Ok((index, rest))
}

/// A use of a type, and what follows it.
#[tactic(auto, unfolding(crate::specs::Instructions::read_use))]
pub fn read_use<'a>(
    alloc: Global,
    scopes: &Scopes,
    tokens: &'a [Token],
) -> Result<(TypeUse, &'a [Token]), ReadError>
    ensures { Gives (λ x. ((x.0.type_index, x.0.params), x.1.now)) result
        (read_use scopes.now tokens.now) }
{
    let (type_index, rest) = read_type_index(scopes, tokens)?;
    let (written, rest) = read_signature(alloc, rest)?;
    // The index is the third token.
    let left = tokens.len().saturating_sub(2);
    let params = used_params(alloc, scopes, type_index, left, &written)?;
    let first_name = first_name(written.params.as_slice());
    Ok((
        TypeUse {
            type_index,
            params,
            first_name,
        },
        rest,
    ))
}

/// The index of a use whose parameters have no identifiers, and what follows the use.
#[tactic(auto, unfolding(crate::specs::Instructions::read_nameless_use))]
pub fn read_nameless_use<'a>(
    alloc: Global,
    scopes: &Scopes,
    tokens: &'a [Token],
) -> Result<(u32, &'a [Token]), ReadError>
    ensures { Gives (λ x. (x.0, x.1.now)) result (read_nameless_use scopes.now tokens.now) }
{
    let (type_use, rest) = read_use(alloc, scopes, tokens)?;
    if !type_use.params.are_nameless() {
        return Err(ReadError::Malformed {
            left: type_use.first_name,
        });
    }
    Ok((type_use.type_index, rest))
}
