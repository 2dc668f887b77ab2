//! Machines from stored bytes (instantiation, 4.5.4).

ghost use Rattle.std.specs.Prelude.{◌≡◌, ◌≢◌, IfOk, OnOk, Err, [], List, ℕ};
ghost use Rattle.wasm_ast.specs.declared.refusal.Refusal.{Refusal as Reason};
ghost use Rattle.wasm_ast.specs.declared.refusal.Refusal.TheVariants as reason;
ghost use Rattle.task_board.specs.Refusals.{Openable, CannotOpen};
ghost use Rattle.task_board.specs.Inside.OpenedModules.{IsOpen};
ghost use Rattle.oci_config.specs.Processes.{config_of};
ghost use Rattle.oci_config.specs.declared.process.ProcessConfig.{ProcessConfig};

use oci_config::Process;
use std::alloc::Global;
use step_machine::{FlatModule, Machine, validate};
use wasm_ast::Refusal;
use wasm_binary::decode;

/// The valid module that the bytes spell, with its flat code. Each refusal but `NoMemory` is a reason why
/// there is none.
pub fn module_of(alloc: Global, bytes: &[u8]) -> Result<FlatModule, Refusal>
    ensures ok { IfOk result (λ m. IsOpen bytes.now m) }
    ensures refused { (e : Reason) (p : ProcessConfig) → result ≡ Err e → e ≢ reason.NoMemory
        → CannotOpen bytes.now p e }
{
    let module = decode(alloc, bytes)?;
    let valid = validate(alloc, module)?;
    FlatModule::new(alloc, valid)
}

/// A machine of a module under a process, before its first turn. Of bytes that spell the module, each
/// refusal but `NoMemory` is a reason why there is none.
pub fn instantiate(alloc: Global, flat: FlatModule, process: Process) -> Result<Machine, Refusal>
    requires nothing_written { (process.out ≡ []) × (process.err ≡ []) }
    ensures opens { (bytes : List ℕ) → IsOpen bytes flat
        → OnOk result (Openable bytes (config_of process) flat) }
    ensures machine { IfOk result (λ r. r
        ≡ record { «module» = flat; process = config_of process; turns = 0 }) }
    ensures refused { (bytes : List ℕ) → IsOpen bytes flat → (e : Reason) → result ≡ Err e
        → e ≢ reason.NoMemory → CannotOpen bytes (config_of process) e }
{
    Machine::from_flat(alloc, flat, process)
}
