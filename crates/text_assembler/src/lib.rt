//! The text format of modules (section 6 of the WebAssembly Core Specification 1.0, and of 2.0 for sign
//! extensions and types of blocks by index).
#![tactic(auto)]

ghost use Rattle.std.specs.Prelude.{◌≡◌, ◌⊎◌, ℕ, Err, IfOk, IfErr, string_bytes};
ghost use Rattle.wasm_ast.specs.declared.module.Module.{Module};
ghost use Rattle.wasm_ast.specs.declared.refusal.Refusal.TheVariants as Refusals;
ghost use Rattle.wasm_binary.specs.Canonical.{canon, FitsLimits};
ghost use Rattle.wasm_binary.specs.Grammar.{Spells};
ghost use Rattle.wasm_ast.specs.View.{op_of};
ghost use Rattle.text_assembler.specs.Modules.{Denotes, IsTooDeep, IsBadText, IsPlaceIn};
ghost use Rattle.text_assembler.specs.Lines.{line_of, IsAligned};

use fault::ReadError;
use std::alloc::Global;
use wasm_ast::{Instr, Module, Refusal};

// What was read, made into something else. A check of this takes a quarter less time than one of `?`, which
// would also convert the error.
macro_rules! made {
    ($read:expr, $found:ident => $made:expr) => {
        match $read {
            Ok(($found, rest)) => Ok(($made, rest)),
            Err(error) => Err(error),
        }
    };
}

mod blocks;
mod characters;
mod declare;
mod fault;
mod field;
mod ids;
mod keyword;
mod labels;
pub mod laws;
mod lexer;
mod line;
mod numbers;
mod parser;
mod parts;
mod phrases;
mod place;
mod places;
mod plain;
pub mod readers;
mod scopes;
mod strings;
mod token;
mod uses;

/// The module that a text denotes, and its canonical encoding.
#[derive(Drop)]
pub struct Assembled {
    pub module: Module,
    pub bytes: Vec<u8>,
}

// A module and its canonical encoding.
fn encoded(alloc: Global, of: Module) -> Result<Assembled, Refusal>
    ensures same { IfOk result (λ a. (a.module ≡ of) × FitsLimits of) }
    ensures canonical { IfOk result (λ a. (a.bytes.items ≡ canon of) × Spells a.bytes.items of) }
    ensures limit { result ≡ Err Refusals.Limit → FitsLimits of → ⊥ }
    ensures causes { IfErr result (λ e. (e ≡ Refusals.Limit) ⊎ (e ≡ Refusals.NoMemory)) }
{
    match wasm_binary::encode(alloc, &of) {
        Ok(bytes) => Ok(Assembled { module: of, bytes }),
        Err(refusal) => Err(refusal),
    }
}

/// The module that a text denotes (6.1 to 6.6), and its canonical encoding: what `wasm_binary::encode`
/// gives for it. Nothing is validated.
///
/// `BadText` if the text denotes no module, with the line and the column, from 1 and in characters,
/// of the first character of the token at fault, or of the place after the last character.
/// `Limit` if it denotes a module that is over a limit or whose encoding is too long, or if more
/// than 256 blocks are open at one word. `NoMemory` if memory runs out.
pub fn assemble_module(alloc: Global, text: &str) -> Result<Assembled, Refusal>
    // It is a module that the text denotes and that fits, and the bytes are its own.
    ensures denoted { IfOk result (λ a. Denotes text.now a.module × FitsLimits a.module) }
    ensures encoded { IfOk result (λ a.
        (a.bytes.items ≡ canon a.module) × Spells a.bytes.items a.module) }
    // A module that is denoted and fits is assembled, unless memory runs out.
    ensures assembled { IfErr result (λ e.
        (m : Module) → Denotes text.now m → FitsLimits m → e ≡ Refusals.NoMemory) }
    ensures bad { IfErr result (λ e.
        IsBadText e → (m : Module) → Denotes text.now m → ⊥) }
    // The line and the column are those of a place in the text.
    ensures place { (line column : ℕ) → result ≡ Err (Refusals.BadText line column)
        → IsPlaceIn text.now line column }
    ensures limit { IfErr result (λ e. e ≡ Refusals.Limit
        → (m : Module) → Denotes text.now m → FitsLimits m → ⊥) }
    ensures over { IfErr result (λ e. e ≡ Refusals.Limit
        → ((m : Module) × Denotes text.now m) ⊎ IsTooDeep text.now) }
    ensures causes { IfErr result (λ e.
        IsBadText e ⊎ ((e ≡ Refusals.Limit) ⊎ (e ≡ Refusals.NoMemory))) }
{
    match parser::read_text(alloc, text.as_bytes()) {
        Ok(found) => encoded(alloc, found),
        Err(ReadError::Memory) => Err(Refusal::NoMemory),
        Err(ReadError::TooDeep) => Err(Refusal::Limit),
        Err(ReadError::Malformed { left }) => {
            let (line, column) = place::line_and_column(text.as_bytes(), left);
            Err(Refusal::BadText { line, column })
        }
    }
}

/// The canonical encoding of the module that a text denotes, as `assemble_module` gives it, refused as by
/// that.
pub fn assemble(alloc: Global, text: &str) -> Result<Vec<u8>, Refusal>
    // The bytes are those of a module that the text denotes and that fits.
    ensures denoted { IfOk result (λ v.
        (m : Module) × Denotes text.now m × FitsLimits m × (v.items ≡ canon m)) }
    // They encode that module, so `wasm_binary::decode` gives it.
    ensures encoded { IfOk result (λ v.
        (m : Module) × Denotes text.now m × Spells v.items m) }
    // A module that is denoted and fits is assembled, unless memory runs out.
    ensures assembled { IfErr result (λ e.
        (m : Module) → Denotes text.now m → FitsLimits m → e ≡ Refusals.NoMemory) }
    ensures bad { IfErr result (λ e.
        IsBadText e → (m : Module) → Denotes text.now m → ⊥) }
    // The line and the column are those of a place in the text.
    ensures place { (line column : ℕ) → result ≡ Err (Refusals.BadText line column)
        → IsPlaceIn text.now line column }
    ensures limit { IfErr result (λ e. e ≡ Refusals.Limit
        → (m : Module) → Denotes text.now m → FitsLimits m → ⊥) }
    ensures over { IfErr result (λ e. e ≡ Refusals.Limit
        → ((m : Module) × Denotes text.now m) ⊎ IsTooDeep text.now) }
    ensures causes { IfErr result (λ e.
        IsBadText e ⊎ ((e ≡ Refusals.Limit) ⊎ (e ≡ Refusals.NoMemory))) }
{
    match assemble_module(alloc, text) {
        Ok(assembled) => Ok(assembled.bytes),
        Err(refusal) => Err(refusal),
    }
}

/// An instruction as one line of text (6.5); of a `block`, a `loop` or an `if` its opening line. Numbers
/// are written for indices, constants are decimal and have a sign, an offset is written if it is
/// not 0, and an alignment if it is not natural. `NoMemory` if memory runs out.
pub fn instr_text(alloc: Global, instr: &Instr) -> Result<String, Refusal>
    // The exponent of an alignment is below 32, as that of a module which a text denotes is.
    requires { IsAligned (op_of instr.now) }
    ensures line { IfOk result (λ text. string_bytes text ≡ line_of (op_of instr.now)) }
    ensures causes { IfErr result (λ e. e ≡ Refusals.NoMemory) }
{
    let mut text = String::new(alloc);
    line::push_line(&mut text, instr)?;
    Ok(text)
}
