//! What the fields of a module declare (6.6.1).

ghost use Rattle.std.specs.Prelude.{◌≡◌, [], ◌∷◌, ◌++◌, Ok};
ghost use Rattle.text_assembler.specs.Inside.Answers.{Gives};
ghost use Rattle.text_assembler.specs.Inside.Steps.{declare_import, declare_type};
ghost use Rattle.text_assembler.specs.Names.{with_id};
ghost use Rattle.text_assembler.specs.Phrases.{id_of};
ghost use Rattle.text_assembler.specs.Modules.{declare_as, declare_field, declare_fields, no_scopes, read_imported, read_type};

use crate::fault::ReadError;
use crate::field::{read_imported, read_type};
use crate::ids::Ids;
use crate::phrases::{id_of, is_word, skip_group, take_word};
use crate::scopes::{Scopes, Signatures};
use crate::token::{Lexeme, Token};
use std::alloc::Global;

// Declares an entry with the identifier that is next, if there is one.
fn declare_id(alloc: Global, ids: &mut Ids, tokens: &[Token]) -> Result<(), ReadError>
    ensures { Gives (λ _. ids.new) result (with_id ids.old (id_of tokens.now)) }
{
    let id = id_of(alloc, tokens)?;
    ids.declare(alloc, id, tokens.len())
}

fn declare_type(alloc: Global, scopes: &mut Scopes, tokens: &[Token]) -> Result<(), ReadError>
    ensures { Gives (λ _. scopes.new) result (declare_type scopes.old tokens.now) }
{
    declare_id(alloc, &mut scopes.types, tokens)?;
    let (signature, _) = read_type(alloc, tokens)?;
    scopes.signatures.push(signature)
}

fn declare_import(alloc: Global, ids: &mut Ids, tokens: &[Token]) -> Result<(), ReadError>
    ensures { Gives (λ _. ids.new) result (declare_import ids.old tokens.now) }
{
    let (_, rest) = read_imported(tokens)?;
    declare_id(alloc, ids, rest)
}

// Declares what the field with this keyword does.
#[tactic(auto, unfolding(crate::specs::Modules::declare_as))]
fn declare_as(
    alloc: Global,
    scopes: &mut Scopes,
    word: &[u8],
    tokens: &[Token],
) -> Result<(), ReadError>
    ensures { Gives (λ _. scopes.new) result (declare_as scopes.old word.now tokens.now) }
{
    if is_word(word, "type") {
        declare_type(alloc, scopes, tokens)
    } else if is_word(word, "import") {
        declare_import(alloc, &mut scopes.funcs, tokens)
    } else if is_word(word, "func") {
        declare_id(alloc, &mut scopes.funcs, tokens)
    } else if is_word(word, "table") {
        declare_id(alloc, &mut scopes.tables, tokens)
    } else if is_word(word, "memory") {
        declare_id(alloc, &mut scopes.memories, tokens)
    } else if is_word(word, "global") {
        declare_id(alloc, &mut scopes.globals, tokens)
    } else {
        Ok(())
    }
}

#[tactic(auto, unfolding(crate::specs::Modules::declare_field))]
fn declare_field(alloc: Global, scopes: &mut Scopes, tokens: &[Token]) -> Result<(), ReadError>
    ensures { Gives (λ _. scopes.new) result (declare_field scopes.old tokens.now) }
{
    let (word, rest) = take_word(tokens)?;
    declare_as(alloc, scopes, word, rest)
}

// The declarations of a field. If a token before it is outside of the module, where this many are left
// (0 if none is), a fault is placed there.
fn declare_inside(
    alloc: Global,
    scopes: &mut Scopes,
    outside: usize,
    tokens: &[Token],
) -> Result<(), ReadError>
    ensures { Gives (λ _. scopes.new) result (declare_field scopes.old tokens.now) }
{
    match declare_field(alloc, scopes, tokens) {
        Err(ReadError::Malformed { left }) if left < outside => {
            Err(ReadError::Malformed { left: outside })
        }
        declared => declared,
    }
}

// How many tokens are left at the first one if they do not begin with `( module`, else 0.
fn before_module(tokens: &[Token]) -> usize {
    match skip_group("module", tokens) {
        Err(ReadError::Malformed { left }) => left,
        _ => 0,
    }
}

// No declarations. No memory is taken.
fn no_scopes(alloc: Global) -> Scopes
    ensures { result ≡ no_scopes }
{
    Scopes {
        types: Ids::new(alloc),
        signatures: Signatures::new(alloc),
        funcs: Ids::new(alloc),
        tables: Ids::new(alloc),
        memories: Ids::new(alloc),
        globals: Ids::new(alloc),
    }
}

/// The declarations of all fields of a module. A field begins where one parenthesis is open.
#[tactic(auto, unfolding(crate::specs::Modules::declare_fields))]
pub fn declare_fields(alloc: Global, tokens: &[Token]) -> Result<Scopes, ReadError>
    ensures { Gives (λ x. x) result (declare_fields 0 no_scopes tokens.now) }
{
    let mut scopes = no_scopes(alloc);
    // How many tokens are left at the first one outside of the module, of those passed; 0 if none is.
    let mut outside = before_module(tokens);
    let mut depth = 0usize;
    let mut rest = tokens;
    while let [first, tail @ ..] = rest {
        match first.lexeme() {
            Lexeme::Open => {
                if depth == 1 {
                    declare_inside(alloc, &mut scopes, outside, tail)?;
                }
                depth += 1;
            }
            Lexeme::Close => {
                depth = depth.saturating_sub(1);
                if depth == 0 && outside == 0 {
                    outside = tail.len();
                }
            }
            Lexeme::Word(_) | Lexeme::Text(_) => {}
        }
        rest = tail;
    }
    Ok(scopes)
}
