//! The first function is invoked (4.5.4, 4.5.5).

ghost use Rattle.std.specs.Prelude.{◌≡◌, ◌∷◌, ◌++◌, [], Some, map, option_to_list};
ghost use Rattle.wasm_ast.specs.declared.module.Module.{Module as ModuleValue};
ghost use Rattle.flat_code.specs.Inside.Layout.{cells_of};
ghost use Rattle.flat_code.specs.Inside.FlatCode.{flat_of};
ghost use Rattle.oci_config.specs.declared.process.ProcessConfig.{ProcessConfig};
ghost use Rattle.oci_config.specs.Processes.{config_of};
ghost use Rattle.step_machine.specs.Instantiation.{entry as entry_of, first_store};
ghost use Rattle.step_machine.specs.Inside.FlatState.{callees as all_callees};
ghost use Rattle.step_machine.specs.Inside.FlatView.{callee_of, flat_from};
ghost use Rattle.step_machine.specs.Inside.Simulates.{Stored};
ghost use Rattle.step_machine.specs.Inside.Going.{HasTexts, Runnable, Stopped};

use crate::callee::Callee;
use crate::current::Current;
use crate::do_calls::begin;
use crate::ends::End;
use crate::kept::Kept;
use crate::settle::settle;
use flat_code::Cells;

/// The function that is invoked first, and the one that is invoked after it.
fn invocations(start: Option<u32>, entry: u32) -> (u32, Option<u32>)
    ensures { result.0 ∷ option_to_list result.1 ≡ option_to_list start ++ entry ∷ [] }
{
    match start {
        Some(func) => (func, Some(entry)),
        None => (entry, None),
    }
}

/// Invokes the start function, if there is one, and else the entry, which is then pending after it; up to
/// the first instruction. Some if the execution ends before.
pub fn start_up(
    code: Cells<'_>,
    callees: &[Callee],
    at: &mut Current,
    kept: &mut Kept,
    start: Option<u32>,
    entry: u32,
) -> Option<End>
    ensures { (m : ModuleValue) → (p : ProcessConfig) → HasTexts p
        → config_of kept.old.process ≡ p → Runnable m
        → cells_of code.entry ≡ map (λ l. l.cell) (flat_of m).lines
        → map callee_of callees.now ≡ all_callees m → start ≡ m.start → entry_of m ≡ Some entry
        → Stored m (flat_from at.old kept.old) (first_store m p)
        → Stopped m p result (flat_from at.new kept.new) 0 }
{
    let (first, pending) = invocations(start, entry);
    kept.pending = Some(first);
    if let Some(end) = begin(at, kept, callees) {
        return Some(end);
    }
    kept.pending = pending;
    settle(code, callees, at, kept)
}
