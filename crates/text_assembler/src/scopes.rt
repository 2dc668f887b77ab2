//! The index spaces of a module (6.6.1).

ghost use Rattle.std.specs.Prelude.{◌≡◌, [], ◌∷◌, ◌++◌, Ok};
ghost use Rattle.text_assembler.specs.Inside.Answers.{Gives};

use crate::fault::ReadError;
use crate::ids::Ids;
use std::alloc::Global;
use std::marker::Model;
use wasm_ast::FuncType;

/// The types of a module, in order.
#[derive(Drop)]
pub struct Signatures {
    types: Vec<FuncType>,
}

impl Model for Signatures {
    ghost use Rattle.std.specs.Prelude.{List};
    ghost use Rattle.wasm_ast.specs.declared.values.FuncType.{FuncType};

    ghost Value = { List FuncType };

    ghost view = { λ s. s.types.items };
}

impl Signatures {
    /// No types. No memory is taken.
    pub fn new(alloc: Global) -> Signatures
        ensures { result ≡ [] }
    {
        Signatures {
            types: Vec::new(alloc),
        }
    }

    /// One more type at the end.
    pub fn push(&mut self, signature: FuncType) -> Result<(), ReadError>
        ensures { Gives (λ _. self.new) result (Ok (self.old ++ signature ∷ [])) }
    {
        self.types.push(signature)?;
        Ok(())
    }

    /// The types.
    pub fn as_slice(&self) -> &[FuncType]
        ensures { result.now ≡ self.now }
    {
        self.types.as_slice()
    }
}

/// The index spaces of a module: the identifiers of each, and the types.
#[derive(Drop)]
pub struct Scopes {
    pub types: Ids,
    pub signatures: Signatures,
    pub funcs: Ids,
    pub tables: Ids,
    pub memories: Ids,
    pub globals: Ids,
}
