//! What the store begins with (4.5.3, 4.5.4).

ghost use Rattle.std.specs.Prelude.{◌≡◌, ◌&&◌, [], IfOk, length, map, true};
ghost use Rattle.oci_config.specs.Processes.{config_of};
ghost use Rattle.step_machine.specs.Instantiation.{first_global, zero_memory, empty_table, are_pages_within, are_elements_inside, are_segments_inside};
ghost use Rattle.validator.specs.Typing.{ValidModule};
ghost use Rattle.label_machine.specs.Inside.Reached.{IsFirst};

use crate::callee::zero;
use crate::store::Store;
use oci_config::Process;
use std::alloc::{AllocError, Global};
use step_machine::{constant, first_memory, first_table};
use wasm_ast::{Module, Value};

/// The value that a global begins with.
fn first_global(global: &wasm_ast::Global) -> Value
    ensures { result ≡ first_global global.now }
{
    match constant(&global.init) {
        Some(value) => value,
        None => zero(global.val_type),
    }
}

/// The values that globals begin with. An error if they cannot be allocated.
fn first_globals(alloc: Global, of: &Module) -> Result<Vec<Value>, AllocError>
    ensures { IfOk result (λ v. v.items ≡ map first_global of.now.globals) }
{
    let mut values = Vec::new(alloc);
    for global in of.globals.as_slice() {
        values.push(first_global(global))?;
    }
    Ok(values)
}

/// The store as it begins. An error if it cannot be allocated.
pub fn first_store(alloc: Global, of: &Module, process: Process) -> Result<Store, AllocError>
    requires valid { ValidModule of.now }
    requires nothing_written { (process.out ≡ []) × (process.err ≡ []) }
    requires pages { are_pages_within of.now.memories process.cap ≡ true }
    requires inside { are_elements_inside (length (empty_table of.now.tables)) of.now.elements
        && are_segments_inside (zero_memory of.now.memories process.cap) of.now.segments ≡ true }
    ensures { IfOk result (λ s. IsFirst of.now (config_of process) s) }
{
    Ok(Store {
        globals: first_globals(alloc, of)?,
        memory: first_memory(alloc, of, process.cap)?,
        table: first_table(alloc, of)?,
        process,
    })
}
