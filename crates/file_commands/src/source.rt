//! The module that is in a file.

ghost use Rattle.std.specs.Prelude.{◌≡◌, ◌⊎◌, IfOk, IfErr, IfSome, IfNone, true, false};
ghost use Rattle.std.specs.Str.{is_utf8};
ghost use Rattle.wasm_ast.specs.declared.refusal.Refusal.TheVariants as refusal;
ghost use Rattle.wasm_binary.specs.Canonical.{FitsLimits};
ghost use Rattle.text_assembler.specs.Modules.{Denotes};
ghost use Rattle.file_commands.specs.Source.{is_binary, IsSource, IsNoSource};

use std::alloc::Global;
use std::str::from_utf8;
use text_assembler::assemble_module;
use wasm_ast::{Module, Refusal};
use wasm_binary::decode;

// Whether a file is in the binary format.
fn is_binary(bytes: &[u8]) -> bool
    ensures { result ≡ is_binary bytes.now }
{
    match bytes.first() {
        Some(byte) => *byte == 0,
        None => false,
    }
}

// The bytes as a text, if they are UTF-8.
#[tactic(auto, using(crate::proofs::SourceLemmas::is_text, crate::proofs::SourceLemmas::no_text))]
fn text_of(bytes: &[u8]) -> Option<&str>
    ensures text { IfSome result (λ text. (text.now ≡ bytes.now) × (is_utf8 bytes.now ≡ true)) }
    ensures none { IfNone result (is_utf8 bytes.now ≡ false) }
{
    from_utf8(bytes).ok()
}

// The module that a text denotes.
fn denoted(alloc: Global, text: &str) -> Result<Module, Refusal>
    ensures ok { IfOk result (λ m. Denotes text.now m × FitsLimits m) }
    ensures err { IfErr result (λ e. (e ≡ refusal.NoMemory)
        ⊎ (is_binary text.now ≡ false → is_utf8 text.now ≡ true → IsNoSource text.now e)) }
{
    match assemble_module(alloc, text) {
        Ok(assembled) => Ok(assembled.module),
        Err(refusal) => Err(refusal),
    }
}

// The module in a file that is in the text format.
fn text_module(alloc: Global, bytes: &[u8]) -> Result<Module, Refusal>
    requires { is_binary bytes.now ≡ false }
    ensures ok { IfOk result (IsSource bytes.now) }
    ensures err { IfErr result (λ e. (e ≡ refusal.NoMemory) ⊎ IsNoSource bytes.now e) }
{
    match text_of(bytes) {
        Some(text) => denoted(alloc, text),
        None => Err(Refusal::BadText { line: 1, column: 1 }),
    }
}

// The module in a file that is in the binary format.
fn binary_module(alloc: Global, bytes: &[u8]) -> Result<Module, Refusal>
    requires { is_binary bytes.now ≡ true }
    ensures ok { IfOk result (IsSource bytes.now) }
    ensures err { IfErr result (λ e. (e ≡ refusal.NoMemory) ⊎ IsNoSource bytes.now e) }
{
    decode(alloc, bytes)
}

/// The module in a file. It is not validated.
///
/// `BadModule` if the first byte is 00 and the bytes encode no module; `BadText` if it is not, and they are
/// no UTF-8 or their text denotes no module; `Limit` if they pass a limit; `NoMemory` if memory runs out.
pub(crate) fn module_of(alloc: Global, bytes: &[u8]) -> Result<Module, Refusal>
    ensures ok { IfOk result (IsSource bytes.now) }
    ensures err { IfErr result (λ e. (e ≡ refusal.NoMemory) ⊎ IsNoSource bytes.now e) }
{
    if is_binary(bytes) {
        binary_module(alloc, bytes)
    } else {
        text_module(alloc, bytes)
    }
}
