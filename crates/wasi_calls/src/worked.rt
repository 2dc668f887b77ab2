//! What definitions come to, computed. Each function has contracts and no body.

ghost use Rattle.std.specs.Prelude.{◌≡◌, ◌∷◌, ◌++◌, [], Some, None, replicate, codes, map};
ghost use Rattle.wasm_ast.specs.declared.values.Value.TheVariants.{I32, I64};
ghost use Rattle.wasi_calls.specs.declared.host_call.HostCall.TheVariants.{ArgsSizesGet, ArgsGet, EnvironSizesGet, EnvironGet, FdWrite, ProcExit, SchedYield};
ghost use Rattle.wasi_calls.specs.declared.host_end.HostEnd.TheVariants.{Exit};
ghost use Rattle.wasi_calls.specs.HostCalls.{host_calls, host_module, host_name};
ghost use Rattle.wasi_calls.specs.NoMemory.{no_memory};
ghost use Rattle.wasi_calls.specs.SystemCalls.{host};
ghost use Rattle.wasi_calls.specs.Worked.{two_args, nothing_given, memory_of, fresh, answers, puts, told, nearly_full, full};

/// The table of system calls.
pub fn names_are_standard()
    ensures module { host_module ≡ codes "wasi_snapshot_preview1" }
    ensures names { map host_name host_calls ≡ codes "args_sizes_get" ∷ codes "args_get"
        ∷ codes "environ_sizes_get" ∷ codes "environ_get" ∷ codes "fd_write" ∷ codes "proc_exit"
        ∷ codes "sched_yield" ∷ [] }
{}

/// How many texts there are, and their bytes with a NUL each.
pub fn sizes_are_counted()
    ensures args { host two_args ArgsSizesGet (I32 0 ∷ I32 4 ∷ []) (fresh (replicate 9 255))
        ≡ Some (puts 0 (2 ∷ 0 ∷ 0 ∷ 0 ∷ 5 ∷ 0 ∷ 0 ∷ 0 ∷ 255 ∷ [])) }
    ensures env { host two_args EnvironSizesGet (I32 0 ∷ I32 4 ∷ []) (fresh (replicate 9 255))
        ≡ Some (puts 0 (1 ∷ 0 ∷ 0 ∷ 0 ∷ 4 ∷ 0 ∷ 0 ∷ 0 ∷ 255 ∷ [])) }
    ensures none { host nothing_given ArgsSizesGet (I32 0 ∷ I32 4 ∷ []) (fresh (replicate 8 255))
        ≡ Some (puts 0 (replicate 8 0)) }
    ensures last_wins { host two_args ArgsSizesGet (I32 0 ∷ I32 0 ∷ []) (fresh (replicate 4 255))
        ≡ Some (puts 0 (5 ∷ 0 ∷ 0 ∷ 0 ∷ [])) }
    ensures first_outside { host two_args ArgsSizesGet (I32 6 ∷ I32 0 ∷ [])
        (fresh (replicate 9 255)) ≡ Some (puts 21 (replicate 9 255)) }
    ensures second_outside { host two_args ArgsSizesGet (I32 0 ∷ I32 6 ∷ [])
        (fresh (replicate 9 255)) ≡ Some (puts 21 (replicate 9 255)) }
    ensures not_modulo { host two_args EnvironSizesGet (I32 4294967292 ∷ I32 0 ∷ [])
        (fresh (replicate 9 255)) ≡ Some (puts 21 (replicate 9 255)) }
{}

/// Pointers to texts, and the texts, each with a NUL.
pub fn texts_are_given()
    ensures args { host two_args ArgsGet (I32 0 ∷ I32 8 ∷ []) (fresh (replicate 14 255))
        ≡ Some (puts 0 (8 ∷ 0 ∷ 0 ∷ 0 ∷ 10 ∷ 0 ∷ 0 ∷ 0 ∷ 97 ∷ 0 ∷ 98 ∷ 99 ∷ 0 ∷ 255 ∷ [])) }
    ensures env { host two_args EnvironGet (I32 4 ∷ I32 0 ∷ []) (fresh (replicate 9 255))
        ≡ Some (puts 0 (107 ∷ 61 ∷ 118 ∷ 0 ∷ 0 ∷ 0 ∷ 0 ∷ 0 ∷ 255 ∷ [])) }
    ensures texts_win { host two_args ArgsGet (I32 0 ∷ I32 3 ∷ []) (fresh (replicate 8 255))
        ≡ Some (puts 0 (3 ∷ 0 ∷ 0 ∷ 97 ∷ 0 ∷ 98 ∷ 99 ∷ 0 ∷ [])) }
    ensures last_byte { host two_args ArgsGet (I32 0 ∷ I32 9 ∷ []) (fresh (replicate 13 255))
        ≡ Some (puts 21 (replicate 13 255)) }
    ensures pointers_outside { host two_args ArgsGet (I32 6 ∷ I32 0 ∷ []) (fresh (replicate 13 255))
        ≡ Some (puts 21 (replicate 13 255)) }
    ensures none { host nothing_given EnvironGet (I32 4 ∷ I32 4 ∷ []) (fresh (replicate 4 255))
        ≡ Some (puts 0 (replicate 4 255)) }
    ensures none_outside { host nothing_given EnvironGet (I32 5 ∷ I32 4 ∷ [])
        (fresh (replicate 4 255)) ≡ Some (puts 21 (replicate 4 255)) }
    ensures none_outside_too { host nothing_given ArgsGet (I32 4 ∷ I32 5 ∷ [])
        (fresh (replicate 4 255)) ≡ Some (puts 21 (replicate 4 255)) }
{}

/// Buffers, in order, to standard output and to standard error.
pub fn buffers_are_written()
    ensures output { host two_args FdWrite (I32 1 ∷ I32 0 ∷ I32 2 ∷ I32 8 ∷ []) (fresh told) ≡ Some
        (answers 0 (16 ∷ 0 ∷ 0 ∷ 0 ∷ 2 ∷ 0 ∷ 0 ∷ 0 ∷ 3 ∷ 0 ∷ 0 ∷ 0 ∷ 1 ∷ 0 ∷ 0 ∷ 0 ∷ codes "hi!")
        (codes "hi!") []) }
    ensures error { host two_args FdWrite (I32 2 ∷ I32 8 ∷ I32 1 ∷ I32 0 ∷ []) (fresh told) ≡ Some
        (answers 0 (1 ∷ 0 ∷ 0 ∷ 0 ∷ 2 ∷ 0 ∷ 0 ∷ 0 ∷ 18 ∷ 0 ∷ 0 ∷ 0 ∷ 1 ∷ 0 ∷ 0 ∷ 0 ∷ codes "hi!")
        [] (codes "!")) }
    ensures read_first { host two_args FdWrite (I32 1 ∷ I32 0 ∷ I32 1 ∷ I32 15 ∷ []) (fresh told)
        ≡ Some (answers 0
        (16 ∷ 0 ∷ 0 ∷ 0 ∷ 2 ∷ 0 ∷ 0 ∷ 0 ∷ 18 ∷ 0 ∷ 0 ∷ 0 ∷ 1 ∷ 0 ∷ 0 ∷ 2 ∷ 0 ∷ 0 ∷ 0 ∷ [])
        (codes "hi") []) }
    ensures no_buffer { host two_args FdWrite (I32 1 ∷ I32 4 ∷ I32 0 ∷ I32 0 ∷ [])
        (fresh (replicate 4 255)) ≡ Some (puts 0 (replicate 4 0)) }
    ensures empty_buffer { host two_args FdWrite (I32 1 ∷ I32 0 ∷ I32 1 ∷ I32 4 ∷ [])
        (fresh (8 ∷ replicate 7 0)) ≡ Some (puts 0 (8 ∷ replicate 7 0)) }
{}

/// The order of the tests: the file descriptor, ranges, the room that is left.
pub fn writes_are_refused()
    ensures input { host two_args FdWrite (I32 0 ∷ I32 0 ∷ I32 1 ∷ I32 0 ∷ []) (fresh told)
        ≡ Some (puts 8 told) }
    ensures other { host two_args FdWrite (I32 3 ∷ I32 100 ∷ I32 1 ∷ I32 0 ∷ []) (fresh told)
        ≡ Some (puts 8 told) }
    ensures buffers_outside { host two_args FdWrite (I32 1 ∷ I32 12 ∷ I32 1 ∷ I32 0 ∷ [])
        (fresh told) ≡ Some (puts 21 told) }
    ensures a_buffer_outside { host two_args FdWrite (I32 1 ∷ I32 4 ∷ I32 1 ∷ I32 0 ∷ [])
        (fresh told) ≡ Some (puts 21 told) }
    ensures number_outside { host two_args FdWrite (I32 1 ∷ I32 0 ∷ I32 1 ∷ I32 16 ∷ [])
        (fresh told) ≡ Some (puts 21 told) }
    ensures no_buffer_outside { host two_args FdWrite (I32 1 ∷ I32 20 ∷ I32 0 ∷ I32 0 ∷ [])
        (fresh told) ≡ Some (puts 21 told) }
    ensures empty_buffer_outside { host two_args FdWrite (I32 1 ∷ I32 0 ∷ I32 1 ∷ I32 4 ∷ [])
        (fresh (9 ∷ replicate 7 0)) ≡ Some (puts 21 (9 ∷ replicate 7 0)) }
    ensures ranges_first { host two_args FdWrite (I32 1 ∷ I32 0 ∷ I32 1 ∷ I32 16 ∷ [])
        (record { memory = memory_of told; out = full; err = [] })
        ≡ Some (answers 21 told full []) }
{}

/// A stream takes 65,536 bytes, and then none.
pub fn streams_are_filled()
    ensures part { host two_args FdWrite (I32 1 ∷ I32 0 ∷ I32 2 ∷ I32 8 ∷ [])
        (record { memory = memory_of told; out = nearly_full; err = [] }) ≡ Some (answers 0
        (16 ∷ 0 ∷ 0 ∷ 0 ∷ 2 ∷ 0 ∷ 0 ∷ 0 ∷ 1 ∷ 0 ∷ 0 ∷ 0 ∷ 1 ∷ 0 ∷ 0 ∷ 0 ∷ codes "hi!")
        (nearly_full ++ codes "h") []) }
    ensures none { host two_args FdWrite (I32 2 ∷ I32 0 ∷ I32 2 ∷ I32 8 ∷ [])
        (record { memory = memory_of told; out = []; err = full })
        ≡ Some (answers 51 told [] full) }
    ensures nothing_asked { host two_args FdWrite (I32 1 ∷ I32 4 ∷ I32 0 ∷ I32 0 ∷ [])
        (record { memory = memory_of (replicate 4 255); out = full; err = [] })
        ≡ Some (answers 0 (replicate 4 0) full []) }
{}

/// Calls that work on no memory, and arguments that are none of a call.
pub fn others_are_made()
    ensures exit { host two_args ProcExit (I32 4294967295 ∷ []) (fresh [])
        ≡ Some (record { answer = Exit 4294967295; state = fresh [] }) }
    ensures yields { host two_args SchedYield [] (fresh []) ≡ Some (puts 0 []) }
    ensures few { host two_args ArgsGet (I32 0 ∷ []) (fresh []) ≡ None }
    ensures many { host two_args SchedYield (I32 0 ∷ []) (fresh []) ≡ None }
    ensures wide { host two_args ProcExit (I64 0 ∷ []) (fresh []) ≡ None }
    ensures no_memory { no_memory ≡ record { bytes = []; cap = 0 } }
{}
