//! Readers of the code of functions (5.5.13).

ghost use Rattle.std.specs.Prelude.{◌≡◌, ◌+◌, ◌++◌, ◌≤◌, true, length, replicate, OnOk, slice_get};
ghost use Rattle.wasm_ast.specs.Limits.{max_locals, params_of};
ghost use Rattle.wasm_binary.specs.Inside.Reading.{Gives, read_runs, read_locals, read_code, read_sized, read_entries, read_codes};

use crate::fault::{Fault, Limited, Number, ReadError, Spot, What, Whole};
use crate::instructions::read_expression;
use crate::numbers::{at_most, read_number, skip_exact};
use crate::types::read_val_type;
use std::alloc::{AllocFailed, Global};
use wasm_ast::{Func, FuncType, MAX_LOCALS, Sequence, ValType};

fn push_run(items: &mut Vec<ValType>, count: u32, t: ValType) -> Result<(), AllocFailed<ValType>>
    ensures { OnOk result (items.new.items ≡ items.old.items ++ replicate count t) }
{
    for _ in 0..count {
        items.push(t)?;
    }
    Ok(())
}

// That there are this many locals more than this many before them, which are too many.
fn too_many(before: usize, more: u32, bytes: &[u8]) -> Spot {
    let what = Limited::Locals;
    let found = (before as u64).saturating_add(u64::from(more));
    Spot::at(bytes, What::Over { what, found })
}

// The locals of this number of runs, with this many parameters before them, and the rest. A count
// over the limit is refused before its locals take memory.
fn read_runs(
    alloc: Global,
    params: usize,
    count: u32,
    bytes: &[u8],
) -> Result<(Vec<ValType>, &[u8]), ReadError>
    requires { params ≤ max_locals }
    ensures { Gives (λ x. (x.0.items, x.1.now)) result (read_runs true params count bytes.now) }
{
    let mut items = Vec::new(alloc);
    let mut before = params;
    let mut rest = bytes;
    for _ in 0..count {
        let (n, from_type) = read_number(Number::Limited(Limited::Locals), rest)?;
        if n as usize > MAX_LOCALS - before {
            return Err(ReadError::Fault(Fault::Over, too_many(before, n, rest)));
        }
        let (t, next) = read_val_type(from_type)?;
        push_run(&mut items, n, t)?;
        before += n as usize;
        rest = next;
    }
    Ok((items, rest))
}

#[tactic(auto, unfolding(crate::specs::Inside::Reading::read_locals))]
fn read_locals(
    alloc: Global,
    params: usize,
    bytes: &[u8],
) -> Result<(Vec<ValType>, &[u8]), ReadError>
    ensures { Gives (λ x. (x.0.items, x.1.now)) result (read_locals true params bytes.now) }
{
    if params > MAX_LOCALS {
        return Err(ReadError::Fault(Fault::Over, too_many(params, 0, bytes)));
    }
    let (count, rest) = read_number(Number::Runs, bytes)?;
    read_runs(alloc, params, count, rest)
}

#[tactic(auto, unfolding(crate::specs::Inside::Reading::read_code))]
fn read_code(
    alloc: Global,
    params: usize,
    type_index: u32,
    bytes: &[u8],
) -> Result<(Func, &[u8]), ReadError>
    ensures { Gives (λ x. (x.0, x.1.now)) result
        (read_code true params type_index bytes.now) }
{
    let (locals, rest) = read_locals(alloc, params, bytes)?;
    let (body, rest) = read_expression(alloc, rest)?;
    let locals = Sequence::new(locals);
    Ok((
        Func {
            type_index,
            locals,
            body,
        },
        rest,
    ))
}

fn params_of(types: &[FuncType], type_index: u32) -> usize
    ensures { result ≡ params_of types.now type_index }
{
    match types.get(type_index as usize) {
        Some(t) => t.params.len(),
        None => 0,
    }
}

#[tactic(auto, unfolding(crate::specs::Inside::Reading::read_sized))]
fn read_entry<'a>(
    alloc: Global,
    types: &[FuncType],
    type_index: u32,
    bytes: &'a [u8],
) -> Result<(Func, &'a [u8]), ReadError>
    ensures { Gives (λ x. (x.0, x.1.now)) result
        (read_sized (read_code true (params_of types.now type_index) type_index)
        bytes.now) }
{
    let (size, rest) = read_number(Number::BodySize, bytes)?;
    let params = params_of(types, type_index);
    let (func, left) = match read_code(alloc, params, type_index, at_most(size, rest)) {
        Ok(read) => read,
        Err(error) => return Err(error.within(Whole::Body, size, rest)),
    };
    let rest = skip_exact(Whole::Body, size, left, rest)?;
    Ok((func, rest))
}

fn read_entries<'a>(
    alloc: Global,
    types: &[FuncType],
    indices: &[u32],
    bytes: &'a [u8],
) -> Result<(Vec<Func>, &'a [u8]), ReadError>
    ensures { Gives (λ x. (x.0.items, x.1.now)) result
        (read_entries true types.now indices.now bytes.now) }
{
    let mut items = Vec::new(alloc);
    let mut rest = bytes;
    for type_index in indices {
        let (item, next) = read_entry(alloc, types, *type_index, rest)?;
        items.push(item)?;
        rest = next;
    }
    Ok((items, rest))
}

/// The entries of functions with these type indices, and the rest.
#[tactic(auto, unfolding(crate::specs::Inside::Reading::read_codes))]
pub fn read_codes<'a>(
    alloc: Global,
    types: &[FuncType],
    indices: &[u32],
    bytes: &'a [u8],
) -> Result<(Vec<Func>, &'a [u8]), ReadError>
    ensures { Gives (λ x. (x.0.items, x.1.now)) result
        (read_codes true types.now indices.now bytes.now) }
{
    let (bodies, rest) = read_number(Number::Bodies, bytes)?;
    let funcs = indices.len();
    if bodies as usize != funcs {
        let spot = Spot::at(bytes, What::Bodies { funcs, bodies });
        return Err(ReadError::Fault(Fault::Bad, spot));
    }
    read_entries(alloc, types, indices, rest)
}
