//! The binary format of modules (section 5 of the WebAssembly Core Specification 1.0, and of 2.0 for sign
//! extensions, types of blocks by index and several results).
#![tactic(auto)]

ghost use Rattle.std.specs.Prelude.{◌≡◌, ◌≢◌, ℕ, ◌<◌, ◌≤◌, ◌++◌, List, length, IfOk, IfErr, ◌⊎◌};
ghost use Rattle.wasm_ast.specs.declared.module.Module.{Module};
ghost use Rattle.wasm_ast.specs.Ranged.{Ranged};
ghost use Rattle.wasm_ast.specs.Limits.{Within, max_module_bytes};
ghost use Rattle.wasm_binary.specs.Opcodes.{preamble};
ghost use Rattle.wasm_binary.specs.Grammar.{Spells};
ghost use Rattle.wasm_binary.specs.Limits.{Over};
ghost use Rattle.wasm_binary.specs.Canonical.{canon, FitsLimits};

use std::alloc::Global;
use wasm_ast::{MAX_MODULE_BYTES, Module, Refusal};

mod code;
mod common;
mod fault;
mod immediates;
mod instructions;
mod items;
pub mod laws;
mod numbers;
mod opcodes;
mod read_opcodes;
pub mod readers;
mod sections;
mod types;
mod vectors;
mod write_code;
mod write_items;
mod write_opcodes;
mod write_sections;

use fault::{Fault, ReadError};

/// The module that the bytes encode (5.5.15), in memory of its own.
///
/// `Limit` if there are more than 262,144 bytes, or if their front reaches a number, a sum or a
/// depth over a limit; then they encode no module within the limits. Else `BadModule` if they encode none. So
/// the first fault from the front is answered. `NoMemory` may take the place of any answer if
/// memory runs out, but for bytes that are too many or have no preamble.
pub fn decode(alloc: Global, bytes: &[u8]) -> Result<Module, Refusal>
    ensures spelled { IfOk result (λ m. Spells bytes.now m) }
    ensures ranged { IfOk result (λ m. Ranged m) }
    ensures within { IfOk result (λ m. Within m × (length bytes.now ≤ max_module_bytes)) }
    // What is encoded within the limits is read, unless memory runs out.
    ensures read { (m : Module) → Spells bytes.now m → Within m
        → length bytes.now ≤ max_module_bytes
        → (result ≡ Ok m) ⊎ (result ≡ Err Refusal.NoMemory) }
    ensures bad { result ≡ Err Refusal.BadModule → (m : Module) → Spells bytes.now m → ⊥ }
    ensures no_preamble { length bytes.now ≤ max_module_bytes
        → ((rest : List ℕ) → bytes.now ≢ preamble ++ rest) → result ≡ Err Refusal.BadModule }
    ensures over { result ≡ Err Refusal.Limit → Over bytes.now }
    ensures limit { Over bytes.now
        → (result ≡ Err Refusal.Limit) ⊎ (result ≡ Err Refusal.NoMemory) }
    ensures too_many { max_module_bytes < length bytes.now → result ≡ Err Refusal.Limit }
    ensures none_within { result ≡ Err Refusal.Limit
        → (m : Module) → Spells bytes.now m → Within m → length bytes.now ≤ max_module_bytes → ⊥ }
    ensures causes { IfErr result (λ e.
        (e ≡ Refusal.BadModule) ⊎ (e ≡ Refusal.Limit) ⊎ (e ≡ Refusal.NoMemory)) }
{
    match sections::read_module(alloc, bytes) {
        Ok(module) => Ok(module),
        Err(ReadError::Memory) => Err(Refusal::NoMemory),
        Err(ReadError::Fault(Fault::Bad, _)) => Err(Refusal::BadModule),
        Err(ReadError::Fault(Fault::Over, _)) => Err(Refusal::Limit),
    }
}

/// The canonical encoding of a module: shortest numbers, locals in longest runs of one type, no
/// custom section, no empty section and no empty else arm (5.1 to 5.5).
///
/// `Limit` if the module is over a limit, or this encoding of it is too long; `NoMemory` if memory
/// runs out, but for a module that is over a limit.
pub fn encode(alloc: Global, module: &Module) -> Result<Vec<u8>, Refusal>
    ensures canonical { IfOk result (λ v. v.items ≡ canon «module».now) }
    ensures spells { IfOk result (λ v. Spells v.items «module».now) }
    ensures fits { IfOk result (λ _. FitsLimits «module».now) }
    ensures limit { result ≡ Err Refusal.Limit → FitsLimits «module».now → ⊥ }
    ensures over { (Within «module».now → ⊥) → result ≡ Err Refusal.Limit }
    ensures causes { IfErr result (λ e. (e ≡ Refusal.Limit) ⊎ (e ≡ Refusal.NoMemory)) }
{
    // What the types of a module in hand guarantee, for the clauses above.
    module.ranged();
    module.texts();
    wasm_ast::laws::limits_are_tested(module);
    if !module.is_within_limits() {
        return Err(Refusal::Limit);
    }
    let bytes = write_sections::canonical_bytes(alloc, module)?;
    if bytes.len() > MAX_MODULE_BYTES {
        return Err(Refusal::Limit);
    }
    Ok(bytes)
}
