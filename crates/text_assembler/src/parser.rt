//! Texts to modules (6.6.13).

ghost use Rattle.std.specs.Prelude.{◌≡◌, ◌≤◌, List, ℕ, Result};
ghost use Rattle.wasm_ast.specs.declared.module.Module.{Module};
ghost use Rattle.wasm_ast.specs.Limits.{max_nesting};
ghost use Rattle.text_assembler.specs.declared.fault.Fault.{Fault};
ghost use Rattle.text_assembler.specs.Inside.Answers.{Gives, Fails, IsMalformed};
ghost use Rattle.text_assembler.specs.Modules.{read_text, read_tokens};

use crate::declare::declare_fields;
use crate::fault::ReadError;
use crate::lexer::tokens_of;
use crate::parts::read_module;
use crate::token::Token;
use std::alloc::Global;
use wasm_ast::{MAX_NESTING, Module};

// The module that these tokens denote.
#[tactic(auto, unfolding(crate::specs::Modules::read_tokens))]
fn read_tokens(alloc: Global, tokens: &[Token]) -> Result<Module, ReadError>
    ensures { Gives (λ m. m) result (read_tokens max_nesting tokens.now) }
{
    let scopes = declare_fields(alloc, tokens)?;
    read_module(alloc, MAX_NESTING, &scopes, tokens)
}

// The fault at the first of this many tokens, which are the last of the text's, or after the text.
fn fault_at(tokens: &[Token], left: usize) -> ReadError
    ensures { IsMalformed result }
{
    let before = tokens.len().saturating_sub(left);
    match tokens.get(before) {
        Some(token) => token.fault(),
        None => ReadError::Malformed { left: 0 },
    }
}

// The same fault, placed by the bytes that are left and not by the tokens.
#[tactic(auto, using(crate::proofs::PartLoops::moved))]
fn placed(tokens: &[Token], error: ReadError) -> ReadError
    ensures { (read : Result Module Fault) → Fails error read → Fails result read }
{
    match error {
        ReadError::Malformed { left } => fault_at(tokens, left),
        other => other,
    }
}

/// The module that a text denotes, where at most 256 blocks are open at one word.
#[tactic(auto, unfolding(crate::specs::Modules::read_text))]
pub fn read_text(alloc: Global, text: &[u8]) -> Result<Module, ReadError>
    ensures { Gives (λ m. m) result (read_text max_nesting text.now) }
{
    let tokens = tokens_of(alloc, text)?;
    match read_tokens(alloc, tokens.as_slice()) {
        Ok(module) => Ok(module),
        Err(error) => Err(placed(tokens.as_slice(), error)),
    }
}
