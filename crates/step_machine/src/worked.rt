//! Worked programs, computed. Each function has a contract and no body.

ghost use Rattle.std.specs.Prelude.{◌≡◌, ℕ, ◌+◌, ◌<◌, ◌≤◌, List, [], ◌∷◌, length, true, false, Some, None};
ghost use Rattle.wasm_ast.specs.declared.values.ValType.TheVariants as type;
ghost use Rattle.wasm_ast.specs.declared.values.Value.{Value};
ghost use Rattle.wasm_ast.specs.declared.values.Value.TheVariants.{I32, I64};
ghost use Rattle.wasm_ast.specs.declared.instr.BlockType.TheVariants.{Empty, Index};
ghost use Rattle.wasm_ast.specs.declared.trap.Trap.TheVariants as trap;
ghost use Rattle.wasm_ast.specs.Syntax.{Op, block, loop, if', Ops, stop, next, ops_of};
ghost use Rattle.oci_config.specs.declared.process.ProcessConfig.{ProcessConfig};
ghost use Rattle.oci_config.specs.declared.stream.Stream.TheVariants as stream;
ghost use Rattle.step_machine.specs.MachineView.{written_to};
ghost use Rattle.step_machine.specs.declared.ends.End.TheVariants as end;
ghost use Rattle.step_machine.specs.declared.ends.SliceEnd.TheVariants as slice;
ghost use Rattle.step_machine.specs.Limits.{max_frames, max_values, last_turn, max_breakpoints};
ghost use Rattle.step_machine.specs.Program.{unknown, Program, program};
ghost use Rattle.step_machine.specs.Configuration.{onward, again, seq, Items, done, more, plain, label, frame, enter, branch, ret, items_of, running, exited, trapped, stuck, is_halted, frames, values};
ghost use Rattle.step_machine.specs.Effects.{Env, enter_block, enter_loop, becomes};
ghost use Rattle.step_machine.specs.Reduction.{to, ends, call_function, reduce};
ghost use Rattle.step_machine.specs.Turns.{turn};
ghost use Rattle.step_machine.specs.Instantiation.{after, ended};
ghost use Rattle.step_machine.specs.Slices.{at_break, turns_made, slice_end};
ghost use Rattle.step_machine.specs.Worked.{bare_process, finish, two_to_one, i32_const, i64_const, drop', br, return', call, loop_taking, if_taking, call_for_two, exit_seven, branch_out, endless, two_ways, call_and_return, empty_entry, fall_through, branch_above, branch_through, loop_body, loop_above, if_above, call_above, call_with_two, place, entered, entered_at, exits_next, deep, measured, pile, fresh, above_five, loop_of, by_return, by_return_in_a_block, by_branch, by_branch_in_a_block, calls_nothing, empty_store};

/// `i32.const 7 call 0`, where function 0 is `proc_exit`, exits with 7 at its second turn.
pub fn exit_takes_a_turn()
    ensures exits { (after exit_seven bare_process 2).state ≡ exited 7 }
    ensures not_before { is_halted (after exit_seven bare_process 1).state ≡ false }
{}

/// An empty entry has returned before any turn, with nothing in its store.
pub fn empty_entry_returns()
    ensures returns { ended (after empty_entry bare_process 0).state ≡ Some end.Returned }
    ensures store { (after empty_entry bare_process 0).store ≡ empty_store }
{}

/// What was written to one output stream is not told of the other.
pub fn streams_are_apart()
    ensures out { written_to stream.Out (record empty_store { out = 1 ∷ []; err = 2 ∷ [] })
        ≡ 1 ∷ [] }
    ensures err { written_to stream.Err (record empty_store { out = 1 ∷ []; err = 2 ∷ [] })
        ≡ 2 ∷ [] }
{}

/// A branch out of a block keeps the top value: the task exits with 2 at its fifth turn.
pub fn branch_keeps_the_top()
    ensures exits { (after branch_out bare_process 5).state ≡ exited 2 }
    ensures not_before { is_halted (after branch_out bare_process 4).state ≡ false }
{}

/// A branch to a loop makes the loop itself the next instruction: `loop br 0 end` alternates between
/// its two places for ever.
pub fn loop_takes_a_turn()
    ensures loop_first { at_break (place 1 0 ∷ []) (after endless bare_process 0).state ≡ true }
    ensures then_branch { at_break (place 1 1 ∷ []) (after endless bare_process 1).state ≡ true }
    ensures loop_again { at_break (place 1 0 ∷ []) (after endless bare_process 2).state ≡ true }
    ensures branch_again { at_break (place 1 1 ∷ []) (after endless bare_process 3).state ≡ true }
{}

/// An `if` takes its then arm if the operand is not 0, and else its else arm, whose places follow those
/// of the then arm.
pub fn arms_are_chosen()
    ensures first_arm { (after (two_ways 2) bare_process 4).state ≡ exited 3 }
    ensures second_arm { (after (two_ways 0) bare_process 4).state ≡ exited 4 }
    ensures first_place { at_break (place 1 2 ∷ []) (after (two_ways 2) bare_process 2).state
        ≡ true }
    ensures second_place { at_break (place 1 4 ∷ []) (after (two_ways 0) bare_process 2).state
        ≡ true }
{}

/// A call of an own function and a return from it: the function's first instruction is next after the
/// call's turn, and the return's turn keeps the top value and goes on after the call.
pub fn call_returns_the_top()
    ensures called { at_break (place 2 0 ∷ []) (after call_and_return bare_process 1).state ≡ true }
    ensures returned { at_break (place 1 1 ∷ []) (after call_and_return bare_process 4).state
        ≡ true }
    ensures exits { (after call_and_return bare_process 5).state ≡ exited 9 }
{}

/// What a block gives falls through its end, above the operands that were there before it.
pub fn block_ends()
    ensures inside { (after fall_through bare_process 2).state
        ≡ above_five (label 1 1 onward (fresh 2 (i32_const 6 ∷ []))) 3 finish }
    ensures left { (after fall_through bare_process 3).state ≡ exits_next 3 (I32 6 ∷ I32 5 ∷ []) }
    ensures exits { (after fall_through bare_process 4).state ≡ exited 6 }
{}

/// A branch drops the other operands of its label, and none below it; on its way through a label it
/// takes the operands along.
pub fn branches_keep_what_is_below()
    ensures to_the_label { (after branch_above bare_process 5).state
        ≡ exits_next 5 (I32 2 ∷ I32 5 ∷ []) }
    ensures through_a_label { (after branch_through bare_process 5).state
        ≡ exits_next 6 (I32 3 ∷ I32 5 ∷ []) }
{}

/// A branch to a loop begins it again once, with the operands below it and what follows it as they were.
pub fn loops_begin_again()
    ensures inside { (after loop_above bare_process 2).state
        ≡ above_five (label 0 1 (again (loop_of Empty loop_body)) (fresh 2 loop_body))
        4 (call 0 ∷ []) }
    ensures again { (after loop_above bare_process 4).state
        ≡ (after loop_above bare_process 1).state }
{}

/// An `if` takes its operand, keeps those below it, and numbers its arms one after the other.
pub fn arms_give_results()
    ensures first_arm { (after (if_above 1) bare_process 3).state
        ≡ above_five (label 1 2 onward (fresh 3 (i32_const 6 ∷ []))) 5 finish }
    ensures second_arm { (after (if_above 0) bare_process 3).state
        ≡ above_five (label 1 2 onward (fresh 4 (i32_const 7 ∷ []))) 5 finish }
    ensures left { (after (if_above 0) bare_process 4).state ≡ exits_next 5 (I32 7 ∷ I32 5 ∷ []) }
{}

/// A function's results are left at its end, by a return, from inside a block too, and by a branch to
/// the label of its body, above the operands that its caller had.
pub fn functions_give_results()
    ensures called { (after (call_above (i32_const 9 ∷ [])) bare_process 2).state
        ≡ above_five (frame 1 2 [] (fresh 0 (i32_const 9 ∷ []))) 2 finish }
    ensures at_the_end { (after (call_above (i32_const 9 ∷ [])) bare_process 3).state
        ≡ exits_next 2 (I32 9 ∷ I32 5 ∷ []) }
    ensures by_return { (after (call_above by_return) bare_process 5).state
        ≡ exits_next 2 (I32 3 ∷ I32 5 ∷ []) }
    ensures from_a_block { (after (call_above by_return_in_a_block) bare_process 6).state
        ≡ exits_next 2 (I32 3 ∷ I32 5 ∷ []) }
    ensures by_branch { (after (call_above by_branch) bare_process 5).state
        ≡ exits_next 2 (I32 3 ∷ I32 5 ∷ []) }
    ensures by_branch_from_a_block { (after (call_above by_branch_in_a_block) bare_process 6).state
        ≡ exits_next 2 (I32 3 ∷ I32 5 ∷ []) }
{}

/// Arguments are taken from the caller's operands and become the first locals in their order, followed by
/// zeros; the caller keeps its other operands.
pub fn arguments_become_locals()
    ensures called { (after call_with_two bare_process 4).state
        ≡ above_five (frame 0 2 (I32 1 ∷ I64 2 ∷ I64 0 ∷ []) (fresh 0 (i32_const 4 ∷ drop' ∷ [])))
        4 (call 0 ∷ []) }
    ensures returned { (after call_with_two bare_process 6).state
        ≡ entered_at 4 (I32 5 ∷ []) (ops_of (call 0 ∷ [])) }
    ensures exits { (after call_with_two bare_process 7).state ≡ exited 5 }
{}

/// A block takes its parameters along; its label's arity is that of its results, and a loop's that of its
/// parameters.
pub fn blocks_take_parameters()
    ensures of_a_block { (operands : List Value) (body : Ops)
        → enter_block operands 3 4 (Some two_to_one) body
        ≡ becomes operands (enter 2 1 3 4 onward body) }
    ensures of_a_loop { (operands : List Value) (itself : Op) (body : Ops)
        → enter_loop operands 3 (Some two_to_one) itself body
        ≡ becomes operands (enter 2 2 3 4 (again itself) body) }
    ensures on_entry { (p : Program) (env : Env) (u v w : Value) (body : Ops) (rest : Items)
        → reduce p env (seq (u ∷ v ∷ w ∷ []) (more (enter 2 1 3 4 onward body) rest))
        ≡ to env (seq (w ∷ [])
        (more (label 1 3 onward (seq (u ∷ v ∷ []) (items_of 4 body))) rest)) }
{}

/// A loop takes its parameters along, above what was below them, and so does each branch to it.
pub fn loops_take_parameters_again()
    ensures inside { (after loop_taking bare_process 3).state
        ≡ above_five (label 1 2 (again (loop_of (Index 2) (br 0 ∷ [])))
        (seq (I32 3 ∷ []) (items_of 3 (ops_of (br 0 ∷ []))))) 4 finish }
    ensures again { (after loop_taking bare_process 4).state
        ≡ (after loop_taking bare_process 2).state }
{}

/// An `if` without an else arm gives what it takes, where its condition is 0.
pub fn arms_take_parameters()
    ensures taken { (after (if_taking 1) bare_process 4).state
        ≡ above_five (label 1 3 onward
        (seq (I32 3 ∷ []) (items_of 4 (ops_of (drop' ∷ i32_const 6 ∷ []))))) 6 finish }
    ensures not_taken { (after (if_taking 0) bare_process 4).state
        ≡ exits_next 6 (I32 3 ∷ I32 5 ∷ []) }
    ensures left { (after (if_taking 1) bare_process 6).state ≡ exits_next 6 (I32 6 ∷ I32 5 ∷ []) }
{}

/// A function with two results leaves both, in their order, above what its caller had; a return keeps no
/// other operand.
pub fn functions_give_two_results()
    ensures at_the_end { (after (call_for_two
        (i32_const 8 ∷ i64_const 9 ∷ [])) bare_process 4).state
        ≡ entered_at 2 (I64 9 ∷ I32 8 ∷ I32 5 ∷ []) (ops_of (drop' ∷ finish)) }
    ensures by_return { (after (call_for_two
        (i32_const 1 ∷ i32_const 8 ∷ i64_const 9 ∷ return' ∷ [])) bare_process 6).state
        ≡ entered_at 2 (I64 9 ∷ I32 8 ∷ I32 5 ∷ []) (ops_of (drop' ∷ finish)) }
{}

/// What no valid module reaches has no reduction: a branch or a return outside all frames, a branch out
/// of a frame, and a function or an operand that is not there.
pub fn faults_are_stuck()
    ensures branch_outside { (p : Program) (env : Env) (operands : List Value) (n : ℕ)
        (rest : Items)
        → reduce p env (seq operands (more (branch n) rest)) ≡ ends env stuck }
    ensures return_outside { (p : Program) (env : Env) (operands : List Value) (rest : Items)
        → reduce p env (seq operands (more ret rest)) ≡ ends env stuck }
    ensures branch_out { (p : Program) (env : Env) (operands : List Value) (n : ℕ) (rest : Items)
        → reduce p env (seq [] (more (frame 0 1 [] (seq operands
        (more (branch (n + 1)) rest))) rest)) ≡ ends env stuck }
    ensures no_function { (p : Program) (env : Env) (operands : List Value) (n : ℕ) (rest : Items)
        → call_function p env operands n None rest ≡ ends env stuck }
    ensures unknown_function { (p : Program) (env : Env) (operands : List Value) (n : ℕ)
        (rest : Items)
        → call_function p env operands n (Some unknown) rest ≡ ends env stuck }
    ensures no_operand { (p : Program) (env : Env) (rest : Items)
        → reduce p env (seq [] (more (plain 0 drop') rest)) ≡ ends env stuck }
    ensures no_condition { (p : Program) (env : Env) (rest : Items)
        → reduce p env (seq [] (more (plain 0 (if' Empty stop stop)) rest)) ≡ ends env stuck }
{}

/// The frames and values of a tree are those of all its labels, its frames, and what follows them.
pub fn trees_are_measured()
    ensures frames { frames measured ≡ 3 }
    ensures values { values measured ≡ 6 }
{}

/// The frame that would be the 1,025th traps, and the 1,024th does not. The limit is checked on each
/// reduction: a function without instructions traps too.
pub fn frames_are_limited()
    ensures beyond { (turn (program call_and_return bare_process) (deep 1024)).state
        ≡ trapped trap.Exhausted }
    ensures within { is_halted (turn (program call_and_return bare_process) (deep 1023)).state
        ≡ false }
    ensures of_an_empty_function { (turn (program calls_nothing bare_process) (deep 1024)).state
        ≡ trapped trap.Exhausted }
{}

/// The value that would be the 65,537th traps, and the 65,536th does not.
pub fn values_are_limited()
    ensures beyond { (p : Program) (vs : List Value) (n : ℕ)
        → length vs ≡ max_values
        → (turn p (entered vs (next (i32_const n) (next drop' stop)))).state
        ≡ trapped trap.Exhausted }
    ensures within { (p : Program) (vs : List Value) (n : ℕ)
        → length vs ≡ 65535
        → (turn p (entered vs (next (i32_const n) (next drop' stop)))).state
        ≡ entered_at 1 (I32 n ∷ vs) (next drop' stop) }
{}

/// A body of n `i32.const 0` and then n `drop` returns at the turn of its last drop, if n is at most
/// 65,536. If n is more, the turn of the 65,537th constant traps.
pub fn piles_are_limited()
    ensures fits { (p : ProcessConfig) (n : ℕ) → n ≤ max_values
        → ended (after (pile n) p (n + n)).state ≡ Some end.Returned }
    ensures beyond { (p : ProcessConfig) (n limit : ℕ)
        → limit ≡ max_values
        → limit < n
        → (after (pile n) p (limit + 1)).state ≡ trapped trap.Exhausted }
{}

/// A slice ends after the turn that leads to a breakpoint, and not before its first turn; without a
/// breakpoint it uses its budget up; the task's own end goes before the budget.
pub fn slices_end()
    ensures at_the_break { turns_made endless bare_process 0 (place 1 0 ∷ []) 10 ≡ 2 }
    ensures by_break { slice_end endless bare_process 0 (place 1 0 ∷ []) 10 ≡ slice.Break }
    ensures all { turns_made endless bare_process 0 [] 10 ≡ 10 }
    ensures by_budget { slice_end endless bare_process 0 [] 10 ≡ slice.Budget }
    ensures at_the_end { turns_made exit_seven bare_process 0 [] 10 ≡ 2 }
    ensures by_exit { slice_end exit_seven bare_process 0 [] 2 ≡ slice.Exited 7 }
    ensures halted { turns_made exit_seven bare_process 2 [] 10 ≡ 0 }
    ensures outside_frames { at_break (place 0 0 ∷ []) (running (seq []
        (more (plain 0 drop') done))) ≡ false }
{}

/// The limits of the profile on execution, and that of 10^15 turns.
pub fn limits_are_these()
    ensures frames { max_frames ≡ 1024 }
    ensures values { max_values ≡ 65536 }
    ensures last_turn { last_turn ≡ 1000000000000000 }
    ensures breakpoints { max_breakpoints ≡ 32 }
{}
