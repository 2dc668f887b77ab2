//! Whether a module exports the memory that its system calls need.

ghost use Rattle.std.specs.Prelude.{◌≡◌, ◌||◌, not};
ghost use Rattle.step_machine.specs.Instantiation.{uses_memory, names_one, needs_memory, is_memory, exports_memory};

use wasi_calls::HostCall;
use wasm_ast::{Export, ExportKind, Import, Module};

/// Whether it exports a memory as `memory`, if it imports a system call that needs one.
pub fn has_needed_memory(of: &Module) -> bool
    ensures { result ≡ (not (needs_memory of.now.imports) || exports_memory of.now.exports) }
{
    !needs_memory(of.imports.as_slice()) || exports_memory(of.exports.as_slice())
}

/// Whether an import has the module and the name of a system call that needs memory.
fn needs_memory(imports: &[Import]) -> bool
    ensures { result ≡ needs_memory imports.now }
{
    for import in imports {
        if import.module.as_str() == HostCall::module()
            && names_one(import.name.as_str(), HostCall::all())
        {
            return true;
        }
    }
    false
}

/// Whether one of these calls has this name and needs memory.
fn names_one(name: &str, calls: &[HostCall]) -> bool
    ensures { result ≡ names_one name.now calls.now }
{
    for call in calls {
        if uses_memory(*call) && name == call.name() {
            return true;
        }
    }
    false
}

/// Whether a call reads or writes memory.
fn uses_memory(call: HostCall) -> bool
    ensures { result ≡ uses_memory call }
{
    !matches!(call, HostCall::ProcExit | HostCall::SchedYield)
}

/// Whether a memory is exported as `memory`.
fn exports_memory(exports: &[Export]) -> bool
    ensures { result ≡ exports_memory exports.now }
{
    for export in exports {
        if export.name.as_str() == "memory" && is_memory(export.kind) {
            return true;
        }
    }
    false
}

fn is_memory(kind: ExportKind) -> bool
    ensures { result ≡ is_memory kind }
{
    matches!(kind, ExportKind::Memory)
}
