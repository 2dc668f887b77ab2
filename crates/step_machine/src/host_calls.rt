//! Which imports are system calls.

ghost use Rattle.std.specs.Prelude.{◌≡◌, ◌&&◌, bytes_eq, slice_get, option_copied};
ghost use Rattle.flat_code.specs.TypeClasses.{is_of_type};
ghost use Rattle.wasi_calls.specs.HostCalls.{host_name, host_type};
ghost use Rattle.step_machine.specs.HostCalls.{call_named, known, all_known};

use wasi_calls::HostCall;
use wasm_ast::{FuncType, Import, ValType, are_same_types};

/// Whether each import is a system call, by module, name and type.
pub fn are_known(types: &[FuncType], imports: &[Import]) -> bool
    ensures { result ≡ all_known types.now imports.now }
{
    for import in imports {
        if known(types, import).is_none() {
            return false;
        }
    }
    true
}

/// The system call that an import is, by its module, its name and its type.
pub fn known(types: &[FuncType], import: &Import) -> Option<HostCall>
    ensures { result ≡ known types.now import.now }
{
    if import.module.as_str() == HostCall::module() {
        call_named(
            import.name.as_str(),
            type_with_index(types, import.type_index),
            HostCall::all(),
        )
    } else {
        None
    }
}

fn type_with_index(types: &[FuncType], index: u32) -> Option<&FuncType>
    ensures { option_copied result ≡ slice_get types.now index }
{
    types.get(index as usize)
}

fn call_named(name: &str, found: Option<&FuncType>, calls: &[HostCall]) -> Option<HostCall>
    ensures { result ≡ call_named name.now (option_copied found.entry) calls.now }
{
    for call in calls {
        if is_call(*call, name, found) {
            return Some(*call);
        }
    }
    None
}

fn is_call(call: HostCall, name: &str, found: Option<&FuncType>) -> bool
    ensures { result ≡ bytes_eq name.now (host_name call)
        && is_of_type (host_type call) (option_copied found.entry) }
{
    name == call.name() && is_of_type(call.params(), call.results(), found)
}

/// Whether a type is there and has these parameters and results.
pub fn is_of_type(params: &[ValType], results: &[ValType], found: Option<&FuncType>) -> bool
    ensures { result ≡ is_of_type (record { params = params.now; results = results.now })
        (option_copied found.entry) }
{
    match found {
        Some(found) => {
            are_same_types(params, found.params.as_slice())
                && are_same_types(results, found.results.as_slice())
        }
        None => false,
    }
}
