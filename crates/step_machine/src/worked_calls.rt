//! Worked modules that make system calls. Each function has a contract and no body.

ghost use Rattle.std.specs.Prelude.{◌≡◌, ◌∷◌, [], List, length, codes, true, Some, None, slice_get};
ghost use Rattle.wasm_ast.specs.declared.values.ValType.TheVariants as type;
ghost use Rattle.wasm_ast.specs.declared.values.Value.{Value};
ghost use Rattle.wasm_ast.specs.declared.values.Value.TheVariants.{I32};
ghost use Rattle.wasm_ast.specs.declared.refusal.Refusal.TheVariants as refusal;
ghost use Rattle.wasm_ast.specs.declared.trap.Trap.TheVariants as trap;
ghost use Rattle.wasm_ast.specs.Syntax.{stop, next};
ghost use Rattle.linear_memory.specs.Memory.{range};
ghost use Rattle.wasi_calls.specs.declared.host_call.HostCall.TheVariants.{SchedYield};
ghost use Rattle.step_machine.specs.declared.ends.End.TheVariants as end;
ghost use Rattle.step_machine.specs.Limits.{max_values};
ghost use Rattle.step_machine.specs.Program.{host, Program};
ghost use Rattle.step_machine.specs.Configuration.{trapped};
ghost use Rattle.step_machine.specs.Turns.{turn};
ghost use Rattle.step_machine.specs.Instantiation.{after, ended, instantiation_refusal};
ghost use Rattle.step_machine.specs.Slices.{at_break};
ghost use Rattle.step_machine.specs.Worked.{call, drop', entered, entered_at, from_i32, nothing_to_nothing, place};
ghost use Rattle.step_machine.specs.WorkedCalls.{with_args, two_to_number, four_to_number, import_of, memory_export, hello, counts_args, wasi, importing};

/// A module writes to standard output in the turn of its call, the fifth, and returns at its sixth.
pub fn hello_is_written()
    ensures accepted { instantiation_refusal hello (with_args []) ≡ None }
    ensures before { (after hello (with_args []) 4).store.out ≡ [] }
    ensures written { (after hello (with_args []) 5).store.out ≡ codes "hi!" }
    ensures number { range (after hello (with_args []) 5).store.memory 12 4 ≡ 3 ∷ 0 ∷ 0 ∷ 0 ∷ [] }
    ensures next { at_break (place 1 5 ∷ []) (after hello (with_args []) 5).state ≡ true }
    ensures nothing_else { (after hello (with_args []) 6).store.err ≡ [] }
    ensures returned { ended (after hello (with_args []) 6).state ≡ Some end.Returned }
{}

/// A module counts its arguments and their bytes.
pub fn arguments_are_counted()
    ensures sizes { range
        (after counts_args (with_args (codes "a" ∷ codes "bc" ∷ [])) 3).store.memory
        0 9 ≡ 2 ∷ 0 ∷ 0 ∷ 0 ∷ 5 ∷ 0 ∷ 0 ∷ 0 ∷ 0 ∷ [] }
    ensures returned { ended (after counts_args (with_args (codes "a" ∷ [])) 4).state
        ≡ Some end.Returned }
{}

/// A module that imports a call which uses memory, by its module and name, exports one as `memory`; this
/// goes before the type of the import.
pub fn memory_is_exported()
    ensures exported { instantiation_refusal (importing four_to_number (wasi (codes "fd_write"))
        (memory_export (codes "memory") ∷ [])) (with_args []) ≡ None }
    ensures missing { instantiation_refusal (importing four_to_number (wasi (codes "fd_write")) [])
        (with_args []) ≡ Some refusal.NoEntry }
    ensures of_other_name { instantiation_refusal
        (importing two_to_number (wasi (codes "environ_get"))
        (memory_export (codes "mem") ∷ [])) (with_args []) ≡ Some refusal.NoEntry }
    ensures of_wrong_type { instantiation_refusal
        (importing two_to_number (wasi (codes "fd_write")) [])
        (with_args []) ≡ Some refusal.NoEntry }
    ensures wrong_type_alone { instantiation_refusal (importing two_to_number
        (wasi (codes "fd_write")) (memory_export (codes "memory") ∷ [])) (with_args [])
        ≡ Some refusal.BadImport }
    ensures other_module { instantiation_refusal (importing four_to_number
        (import_of (codes "env") (codes "fd_write")) []) (with_args [])
        ≡ Some refusal.BadImport }
    ensures not_needed { instantiation_refusal (importing from_i32 (wasi (codes "proc_exit")) [])
        (with_args []) ≡ None }
    ensures unknown { instantiation_refusal (importing nothing_to_nothing
        (wasi (codes "fd_read")) []) (with_args []) ≡ Some refusal.BadImport }
{}

/// A result counts as a value: of a system call that takes none away, the one that would be the 65,537th
/// traps, and the 65,536th does not.
pub fn results_are_limited()
    ensures beyond { (p : Program) (vs : List Value)
        → slice_get p.functions 0 ≡ Some (host SchedYield) → length vs ≡ max_values
        → (turn p (entered vs (next (call 0) (next drop' stop)))).state
        ≡ trapped trap.Exhausted }
    ensures within { (p : Program) (vs : List Value)
        → slice_get p.functions 0 ≡ Some (host SchedYield) → length vs ≡ 65535
        → (turn p (entered vs (next (call 0) (next drop' stop)))).state
        ≡ entered_at 1 (I32 0 ∷ vs) (next drop' stop) }
{}
