//! What is proved of the definitions themselves: each function does nothing, and its contract is the
//! law.

ghost use Rattle.std.specs.Prelude.{◌≡◌, ◌<◌, All, List, Some, length, map};
ghost use Rattle.wasm_ast.specs.declared.values.Value.{Value};
ghost use Rattle.wasm_ast.specs.Types.{type_of};
ghost use Rattle.wasm_ast.specs.Ranged.{RangedValue};
ghost use Rattle.oci_config.specs.declared.process.ProcessConfig.{ProcessConfig};
ghost use Rattle.wasi_calls.specs.declared.host_call.HostCall.{HostCall};
ghost use Rattle.wasi_calls.specs.HostCalls.{host_type};
ghost use Rattle.wasi_calls.specs.SystemCalls.{HostState, HostDone, host};

/// A call with arguments of its types is made. It leaves the memory as large as it was, and a list of
/// bytes.
pub fn calls_are_made()
    ensures { (c : ProcessConfig) → All (All (λ b. b < 256)) c.args → All (All (λ b. b < 256)) c.env
        → (h : HostCall) → (args : List Value) → (s : HostState) → All RangedValue args
        → map type_of args ≡ (host_type h).params
        → (d : HostDone) × (host c h args s ≡ Some d)
        × (length d.state.memory.bytes ≡ length s.memory.bytes)
        × (All (λ b. b < 256) s.memory.bytes → All (λ b. b < 256) d.state.memory.bytes) }
{}
