//! What a machine begins with.

ghost use Rattle.std.specs.Prelude.{◌≡◌, ◌&&◌, [], All, ◌<◌, IfOk, Some, map, length, true};
ghost use Rattle.wasm_ast.specs.Limits.{is_within};
ghost use Rattle.validator.specs.Typing.{ValidModule};
ghost use Rattle.oci_config.specs.Processes.{config_of};
ghost use Rattle.step_machine.specs.HostCalls.{all_known};
ghost use Rattle.step_machine.specs.Instantiation.{entry as entry_of, first_global, zero_memory, empty_table, first_table, first_memory, are_pages_within, are_elements_inside, are_segments_inside};
ghost use Rattle.step_machine.specs.Inside.FlatState.{word_of};
ghost use Rattle.step_machine.specs.Inside.FlatView.{flat_at};
ghost use Rattle.step_machine.specs.Inside.Going.{Holds};

use crate::callers::Callers;
use crate::current::{Base, Current, MAX_VALUES};
use crate::ends::End;
use crate::flat_module::FlatModule;
use crate::kept::Kept;
use crate::process_texts::process_ranged;
use crate::resting::Resting;
use crate::start_up::start_up;
use crate::store::{first_globals, first_memory, first_table};
use oci_config::Process;
use operand_stack::OperandStack;
use std::alloc::{AllocError, Global};
use wasm_ast::Module;

/// A machine's data before its first turn.
#[derive(Drop)]
pub struct First {
    pub at: Resting,
    pub kept: Kept,
    pub end: Option<End>,
}

/// The store as it begins (4.5.4), and no frame. An error if it cannot be allocated.
fn first_kept(alloc: Global, of: &Module, process: Process) -> Result<Kept, AllocError>
    requires valid { ValidModule of.now }
    requires pages { are_pages_within of.now.memories process.cap ≡ true }
    requires inside { are_elements_inside (length (empty_table of.now.tables)) of.now.elements
        && are_segments_inside (zero_memory of.now.memories process.cap) of.now.segments ≡ true }
    ensures globals { IfOk result
        (λ k. k.globals.items ≡ map word_of (map first_global of.now.globals)) }
    ensures memory { IfOk result (λ k. k.memory ≡ first_memory of.now process.cap) }
    ensures bytes { IfOk result (λ k. All (λ b. b < 256) k.memory.bytes) }
    ensures table { IfOk result (λ k. k.table.items ≡ first_table of.now) }
    ensures process { IfOk result (λ k. k.process ≡ process) }
{
    Ok(Kept {
        callers: Callers::new(alloc)?,
        pending: None,
        globals: first_globals(alloc, of)?,
        memory: first_memory(alloc, of, process.cap)?,
        table: first_table(alloc, of)?,
        process,
    })
}

/// An empty stack. An error if the room for it cannot be allocated.
fn first_current(alloc: Global) -> Result<Current, AllocError> {
    match OperandStack::new(alloc, MAX_VALUES) {
        Some(stack) => Ok(Current {
            stack,
            base: Base::of(0),
            cell: 0,
        }),
        None => Err(AllocError),
    }
}

/// What a machine of this module begins with, up to its first instruction. An error if it cannot be
/// allocated.
pub fn first_data(
    alloc: Global,
    of: &FlatModule,
    process: Process,
    entry: u32,
) -> Result<First, AllocError>
    requires nothing_written { (process.out ≡ []) × (process.err ≡ []) }
    requires entry { entry_of of.now ≡ Some entry }
    requires known { all_known of.now.types of.now.imports ≡ true }
    requires within { is_within of.now ≡ true }
    requires pages { are_pages_within of.now.memories process.cap ≡ true }
    requires inside { are_elements_inside (length (empty_table of.now.tables)) of.now.elements
        && are_segments_inside (zero_memory of.now.memories process.cap) of.now.segments ≡ true }
    ensures holds { IfOk result (λ d. Holds of.now (config_of process) d.at.stack.limit
        d.end (flat_at d.at d.kept) 0) }
    ensures process { IfOk result (λ d. config_of d.kept.process ≡ config_of process) }
{
    process.cap.bounded();
    process_ranged(&process);
    let mut kept = first_kept(alloc, of.module(), process)?;
    let mut at = first_current(alloc)?;
    let start = of.module().start;
    let end = start_up(of.cells(), of.callees(), &mut at, &mut kept, start, entry);
    Ok(First {
        at: Resting::of(at),
        kept,
        end,
    })
}
