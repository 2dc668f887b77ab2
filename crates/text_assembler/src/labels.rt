//! The labels of the open blocks (6.5.1).

ghost use Rattle.std.specs.Prelude.{◌≡◌, [], ◌∷◌, drop, reverse, Ok};
ghost use Rattle.text_assembler.specs.Inside.Answers.{Gives, Finds};
ghost use Rattle.text_assembler.specs.Names.{position};

use crate::fault::ReadError;
use crate::ids::{Space, is_id, is_named, small_index};
use crate::numbers::small_number;
use crate::uses::copy_name;
use std::alloc::Global;
use std::marker::Model;
use wasm_ast::Bytes;

/// The identifiers of the open blocks. Contracts see the innermost first.
#[derive(Drop)]
pub struct Labels {
    // The innermost last.
    ids: Vec<Option<Bytes>>,
}

impl Model for Labels {
    ghost use Rattle.std.specs.Prelude.{List, Option, ℕ, reverse};

    ghost Value = { List (Option (List ℕ)) };

    ghost view = { λ s. reverse s.ids.items };
}

// How many blocks are inside the innermost one with this name, of those whose innermost is last.
#[tactic(auto, unfolding(crate::specs::Names::position), using(crate::proofs::Spaces::innermost))]
fn position(name: &[u8], ids: &[Option<Bytes>]) -> Option<usize>
    ensures { Finds (λ n. n) result (position 0 name.now (reverse ids.now)) }
{
    let mut before = 0usize;
    let mut rest = ids;
    while let [outer @ .., last] = rest {
        if is_named(name, last) {
            return Some(before);
        }
        before += 1;
        rest = outer;
    }
    None
}

impl Labels {
    /// No labels. No memory is taken.
    pub fn new(alloc: Global) -> Labels
        ensures { result ≡ [] }
    {
        Labels {
            ids: Vec::new(alloc),
        }
    }

    /// The label of a block that is entered.
    #[tactic(auto, using(crate::proofs::Spaces::innermost))]
    pub fn enter(&mut self, alloc: Global, id: &Option<Bytes>) -> Result<(), ReadError>
        ensures { Gives (λ _. self.new) result (Ok (id.now ∷ self.old)) }
    {
        self.ids.push(copy_name(alloc, id)?)?;
        Ok(())
    }

    /// The innermost block is left, if one is open.
    pub fn leave(&mut self)
        ensures { self.new ≡ drop 1 self.old }
    {
        let _left = self.ids.pop();
    }
}

impl Space for Labels {
    ghost entries = { λ labels. labels };

    #[tactic(auto, unfolding(crate::specs::Names::index_of))]
    fn index_of(&self, word: &[u8]) -> Option<u32> {
        if !is_id(word) {
            return small_number(word);
        }
        small_index(0, position(word, self.ids.as_slice())?)
    }
}
