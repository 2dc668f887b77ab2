//! What calls find (4.2.6).

ghost use Rattle.std.specs.Prelude.{◌≡◌, ◌++◌, IfOk, OnOk, MatchOption, None, Some, map, slice_get};
ghost use Rattle.wasm_ast.specs.Types.{zero_of};
ghost use Rattle.step_machine.specs.Program.{type_of_function, import_of, func_of, functions};
ghost use Rattle.label_machine.specs.Inside.Callees.{function_of, called_with};
ghost use Rattle.label_machine.specs.Inside.View.{level_of};

use crate::frame::Frame;
use crate::label::Ahead;
use crate::pile::Pile;
use std::alloc::{AllocError, Global};
use step_machine::known;
use wasi_calls::HostCall;
use wasm_ast::{Func, FuncType, Import, Module, ValType, Value};

/// A function: a system call, or one of the module's own, with its type.
#[derive(Clone, Copy)]
pub enum Callee<'m> {
    System(HostCall),
    Own(&'m FuncType, &'m Func),
}

fn system_call<'m>(of: &'m Module, import: &Import) -> Option<Callee<'m>>
    ensures { MatchOption result
        (type_of_function (Some (import_of of.now.types import.now)) ≡ None)
        (λ c. import_of of.now.types import.now ≡ function_of c) }
{
    Some(Callee::System(known(of.types.as_slice(), import)?))
}

fn own_function<'m>(of: &'m Module, func: &'m Func) -> Option<Callee<'m>>
    ensures { MatchOption result
        (type_of_function (Some (func_of of.now.types func.now)) ≡ None)
        (λ c. func_of of.now.types func.now ≡ function_of c) }
{
    let func_type = of.types.as_slice().get(func.type_index as usize)?;
    Some(Callee::Own(func_type, func))
}

/// The function with this index, imports counted first; None if there is none, or it is no system call
/// or has no type.
pub fn function_at(of: &Module, func: u32) -> Option<Callee>
    ensures { MatchOption result
        (type_of_function (slice_get (functions of.now) func) ≡ None)
        (λ c. slice_get (functions of.now) func ≡ Some (function_of c)) }
{
    let imports = of.imports.as_slice();
    let index = func as usize;
    if index < imports.len() {
        return system_call(of, &imports[index]);
    }
    own_function(of, of.funcs.as_slice().get(index - imports.len())?)
}

pub fn zero(val_type: ValType) -> Value
    ensures { result ≡ zero_of val_type }
{
    match val_type {
        ValType::I32 => Value::I32(0),
        ValType::I64 => Value::I64(0),
    }
}

/// Adds the zeros of a function's own locals to its arguments.
pub fn add_zeros(locals: &mut Vec<Value>, types: &[ValType]) -> Result<(), AllocError>
    ensures { OnOk result (locals.new.items ≡ locals.old.items ++ map zero_of types.now) }
{
    for val_type in types {
        locals.push(zero(*val_type))?;
    }
    Ok(())
}

/// The frame of a function of the module's own that is called with these arguments (4.4.7).
pub fn called<'m>(
    alloc: Global,
    func: u32,
    func_type: &FuncType,
    found: &'m Func,
    args: Vec<Value>,
) -> Result<Frame<'m>, AllocError>
    ensures { IfOk result (λ f. level_of f ≡ called_with func_type.now func args.items
        (map zero_of found.now.locals) found.now.body) }
{
    let mut locals = args;
    add_zeros(&mut locals, found.locals.as_slice())?;
    Ok(Frame {
        arity: func_type.results.len(),
        func,
        locals,
        labels: Pile::new(alloc),
        operands: Pile::new(alloc),
        ahead: Ahead {
            place: 0,
            rest: found.body.as_slice(),
        },
    })
}
