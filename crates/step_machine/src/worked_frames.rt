//! Worked modules whose frames are shown. Each function has a contract and no body.

ghost use Rattle.std.specs.Prelude.{◌≡◌, ◌∷◌, [], ◌-◌, ◌^◌, Some, None};
ghost use Rattle.wasm_ast.specs.declared.values.Value.TheVariants.{I32, I64};
ghost use Rattle.step_machine.specs.Instantiation.{after};
ghost use Rattle.step_machine.specs.Shown.{shown};
ghost use Rattle.step_machine.specs.Worked.{bare_process, branch_through, call_with_two, endless, exit_seven};
ghost use Rattle.step_machine.specs.WorkedShown.{call_in_a_block, call_at_the_end, shown_frame};

/// Before the first turn the entry's frame is shown, with nothing done.
pub fn entries_are_shown()
    ensures { shown (after exit_seven bare_process 0).state ≡ shown_frame 1 (Some 0) [] [] [] ∷ [] }
{}

/// Inside a loop its label is shown; a branch to it makes the loop itself the next instruction, outside it.
pub fn loops_are_shown()
    ensures inside { shown (after endless bare_process 7).state
        ≡ shown_frame 1 (Some 1) (0 ∷ []) [] [] ∷ [] }
    ensures at_it { shown (after endless bare_process 8).state
        ≡ shown_frame 1 (Some 0) [] [] [] ∷ [] }
{}

/// Of blocks in one another the innermost is shown first, and the operands below each before its own.
pub fn blocks_are_shown()
    ensures { shown (after branch_through bare_process 4).state
        ≡ shown_frame 1 (Some 4) (2 ∷ 1 ∷ []) [] (I32 5 ∷ I32 3 ∷ []) ∷ [] }
{}

/// Of a frame that has called, the instruction after the call is shown as next, found through the end of
/// the block that the call is in; its operands without what the call took, the oldest first, those below
/// the block among them; and its locals, not the callee's.
pub fn callers_are_shown()
    ensures calling { shown (after call_in_a_block bare_process 6).state
        ≡ shown_frame 2 (Some 0) [] [] []
        ∷ shown_frame 1 (Some 6) (3 ∷ []) (I32 0 ∷ I64 (2 ^ 64 - 1) ∷ []) (I32 5 ∷ I32 6 ∷ [])
        ∷ [] }
    ensures returned { shown (after call_in_a_block bare_process 7).state
        ≡ shown_frame 1 (Some 6) [] (I32 0 ∷ I64 (2 ^ 64 - 1) ∷ []) (I32 5 ∷ I32 6 ∷ []) ∷ [] }
    ensures at_the_end { shown (after call_at_the_end bare_process 2).state
        ≡ shown_frame 2 (Some 0) [] [] []
        ∷ shown_frame 1 None (0 ∷ []) (I32 0 ∷ I64 0 ∷ []) [] ∷ [] }
{}

/// Parameters are shown first, then the other locals; an operand once it is there.
pub fn parameters_are_shown()
    ensures entered { shown (after call_with_two bare_process 4).state
        ≡ shown_frame 2 (Some 0) [] (I32 1 ∷ I64 2 ∷ I64 0 ∷ []) []
        ∷ shown_frame 1 (Some 4) [] [] (I32 5 ∷ []) ∷ [] }
    ensures inside { shown (after call_with_two bare_process 5).state
        ≡ shown_frame 2 (Some 1) [] (I32 1 ∷ I64 2 ∷ I64 0 ∷ []) (I32 4 ∷ [])
        ∷ shown_frame 1 (Some 4) [] [] (I32 5 ∷ []) ∷ [] }
{}
