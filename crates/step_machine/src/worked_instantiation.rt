//! Worked modules, instantiated: what their tasks begin with, and why they may be refused. Each function has
//! a contract and no body.

ghost use Rattle.std.specs.Prelude.{◌≡◌, [], ◌∷◌, true, false, Some, None};
ghost use Rattle.wasm_ast.specs.declared.values.Value.TheVariants.{I32};
ghost use Rattle.wasm_ast.specs.declared.refusal.Refusal.TheVariants as refusal;
ghost use Rattle.linear_memory.specs.Memory.{new_memory};
ghost use Rattle.step_machine.specs.Configuration.{exited, is_halted};
ghost use Rattle.step_machine.specs.Instantiation.{most_pages, with_segment, with_element, are_segments_inside, first_store, after, instantiation_refusal};
ghost use Rattle.step_machine.specs.Slices.{at_break};
ghost use Rattle.step_machine.specs.Worked.{bare_process, place};
ghost use Rattle.step_machine.specs.WorkedStores.{capped, limits, global_of, element, segment, four_zeros, with_table_of, with_memory_of, with_globals_of, with_start, written_local};

/// Globals begin with the values of their expressions.
pub fn globals_begin_with_constants()
    ensures { (first_store (with_globals_of (global_of (I32 5) ∷ global_of (I32 6) ∷ []))
        bare_process).globals ≡ I32 5 ∷ I32 6 ∷ [] }
{}

/// A table begins with its least size, and has the functions of its segments, a later one over an earlier.
pub fn tables_begin_with_elements()
    ensures none { (first_store (with_table_of (limits 2 None) []) bare_process).table
        ≡ None ∷ None ∷ [] }
    ensures written { (first_store (with_table_of (limits 3 (Some 9))
        (element 1 (7 ∷ 8 ∷ []) ∷ element 2 (5 ∷ []) ∷ [])) bare_process).table
        ≡ None ∷ Some 7 ∷ Some 5 ∷ [] }
    ensures at_the_front { with_element (None ∷ Some 1 ∷ []) (element 0 (4 ∷ []))
        ≡ Some 4 ∷ Some 1 ∷ [] }
{}

/// A memory begins with zeros, and has the bytes of its segments.
pub fn memories_begin_with_segments()
    ensures written { with_segment four_zeros (segment 1 (3 ∷ 4 ∷ []))
        ≡ record four_zeros { bytes = 0 ∷ 3 ∷ 4 ∷ 0 ∷ [] } }
    ensures size { (first_store (with_memory_of (limits 1 None) []) (capped 2)).memory
        ≡ new_memory 1 2 }
    ensures bound { (first_store (with_memory_of (limits 1 (Some 3)) []) (capped 9)).memory
        ≡ new_memory 1 3 }
    ensures by_the_cap { most_pages (Some 9) 4 ≡ 4 }
    ensures by_the_bound { most_pages (Some 3) 4 ≡ 3 }
    ensures no_bound { most_pages None 4 ≡ 4 }
    ensures no_memory { (first_store (with_globals_of []) bare_process).memory ≡ new_memory 0 0 }
{}

/// A segment has to be inside its table or memory as it begins; an empty one may be at its end. A memory has
/// to begin within the cap of the process. All limits go before segments.
pub fn segments_are_inside()
    ensures inside { are_segments_inside four_zeros (segment 2 (1 ∷ 1 ∷ []) ∷ []) ≡ true }
    ensures outside { are_segments_inside four_zeros (segment 3 (1 ∷ 1 ∷ []) ∷ []) ≡ false }
    ensures empty { are_segments_inside four_zeros (segment 4 [] ∷ []) ≡ true }
    ensures empty_outside { are_segments_inside four_zeros (segment 5 [] ∷ []) ≡ false }
    ensures accepted { instantiation_refusal
        (with_table_of (limits 2 None) (element 1 (1 ∷ []) ∷ []))
        bare_process ≡ None }
    ensures elements { instantiation_refusal
        (with_table_of (limits 2 None) (element 2 (1 ∷ []) ∷ []))
        bare_process ≡ Some refusal.SegmentOutOfBounds }
    ensures segments { instantiation_refusal
        (with_memory_of (limits 0 None) (segment 0 (1 ∷ []) ∷ []))
        bare_process ≡ Some refusal.SegmentOutOfBounds }
    ensures pages { instantiation_refusal (with_memory_of (limits 3 None) (segment 0 (1 ∷ []) ∷ []))
        (capped 2) ≡ Some refusal.Limit }
    ensures as_many_pages { instantiation_refusal (with_memory_of (limits 2 None) [])
        (capped 2) ≡ None }
    ensures large_table { instantiation_refusal (with_table_of (limits 4097 None) []) bare_process
        ≡ Some refusal.Limit }
{}

/// The start function runs before the entry; its instructions are turns of the task.
pub fn start_functions_run_first()
    ensures first { at_break (place 2 0 ∷ []) (after with_start bare_process 0).state ≡ true }
    ensures then_entry { at_break (place 1 0 ∷ []) (after with_start bare_process 2).state ≡ true }
    ensures exits { (after with_start bare_process 6).state ≡ exited 6 }
    ensures not_before { is_halted (after with_start bare_process 5).state ≡ false }
{}

/// What a function writes to its locals is there for its next instructions, and is not seen by the frame that
/// called it.
pub fn locals_are_those_of_their_frame()
    ensures kept { (after written_local bare_process 5).state ≡ exited 5 }
    ensures not_before { is_halted (after written_local bare_process 4).state ≡ false }
{}
