//! Identifiers and index spaces (6.3.5, 6.6.1).

ghost use Rattle.std.specs.Prelude.{◌≡◌, [], ◌+◌, ◌^◌, nat_lt, None, Some, Ok, replicate};
ghost use Rattle.text_assembler.specs.Inside.Answers.{Gives, Finds};
ghost use Rattle.text_assembler.specs.Reading.{need};
ghost use Rattle.text_assembler.specs.Instructions.{are_nameless};
ghost use Rattle.text_assembler.specs.Names.{is_id, is_index, is_named, with_id, index_of};

use crate::fault::ReadError;
use crate::numbers::small_number;
use crate::places::Places;
use std::alloc::Global;
use std::marker::Model;
use wasm_ast::Bytes;

/// Whether a word is an identifier.
#[tactic(auto, unfolding(crate::specs::Names::is_id))]
pub fn is_id(word: &[u8]) -> bool
    ensures { result ≡ is_id word.now }
{
    match word {
        [first, _, ..] => *first == b'$',
        _ => false,
    }
}

/// Whether an index begins so.
#[tactic(auto, unfolding(crate::specs::Names::is_index))]
pub fn is_index(word: &[u8]) -> bool
    ensures { result ≡ is_index word.now }
{
    match word {
        [first, ..] => matches!(*first, b'$' | b'0'..=b'9'),
        [] => false,
    }
}

/// Whether an entry has this name.
pub fn is_named(name: &[u8], id: &Option<Bytes>) -> bool
    ensures { result ≡ is_named name.now id.now }
{
    match id {
        Some(id) => id.as_slice() == name,
        None => false,
    }
}

/// What identifiers and numbers name entries of (6.6.1).
pub trait Space {
    ghost use Rattle.text_assembler.specs.Names.{Ids};

    /// The entries in order, each with its identifier if it has one.
    ghost entries: { Self → Ids };

    /// The index that a word is in this space.
    fn index_of(&self, word: &[u8]) -> Option<u32>
        ensures { Finds (λ n. n) result (index_of (entries self.now) word.now) };
}

/// The entries of an index space in order, each with its identifier if it has one. No identifier is
/// that of two entries. Names are found by a map.
#[derive(Drop)]
pub struct Ids {
    // That many entries without identifiers come before the others.
    nameless: usize,
    ids: Vec<Option<Bytes>>,
    // Where in `ids` each name is.
    places: Places,
}

impl Model for Ids {
    ghost use Rattle.std.specs.Prelude.{List, Option, ℕ, None, ◌++◌, replicate};
    ghost use Rattle.text_assembler.specs.Inside.Spaces.{IsIndex};

    ghost Value = { List (Option (List ℕ)) };

    ghost view = { λ s. replicate s.nameless None ++ s.ids.items };

    ghost invariant = { λ s. IsIndex s.places s.ids.items };
}

impl Ids {
    /// That number of entries without identifiers. No memory is taken.
    pub fn nameless(alloc: Global, count: usize) -> Ids
        ensures { result ≡ replicate count None }
    {
        Ids {
            nameless: count,
            ids: Vec::new(alloc),
            places: Places::new(alloc),
        }
    }

    /// An empty space. No memory is taken.
    pub fn new(alloc: Global) -> Ids
        ensures { result ≡ [] }
    {
        Ids::nameless(alloc, 0)
    }

    // One more entry at the end, with a name, unless it is declared.
    fn declare_name(&mut self, alloc: Global, name: Bytes, left: usize) -> Result<(), ReadError>
        ensures { Gives (λ _. self.new) result (with_id self.old (Some name)) }
    {
        if self.places.get(name.as_slice()).is_some() {
            return Err(ReadError::Malformed { left });
        }
        self.ids.reserve(1)?;
        self.places.insert(alloc, name.as_slice(), self.ids.len())?;
        self.ids.push_reserved(Some(name));
        Ok(())
    }

    /// One more entry at the end, unless its name is declared.
    #[tactic(auto, unfolding(crate::specs::Names::with_id))]
    pub fn declare(
        &mut self,
        alloc: Global,
        id: Option<Bytes>,
        left: usize,
    ) -> Result<(), ReadError>
        ensures { Gives (λ _. self.new) result (with_id self.old id) }
    {
        match id {
            Some(name) => self.declare_name(alloc, name, left),
            None => {
                self.ids.push(None)?;
                Ok(())
            }
        }
    }

    /// Whether no entry has an identifier.
    #[tactic(auto, unfolding(crate::specs::Instructions::are_nameless))]
    pub fn are_nameless(&self) -> bool
        ensures { result ≡ are_nameless self.now }
    {
        let mut rest = self.ids.as_slice();
        while let [first, tail @ ..] = rest {
            if first.is_some() {
                return false;
            }
            rest = tail;
        }
        true
    }
}

impl Space for Ids {
    ghost entries = { λ ids. ids };

    #[tactic(auto, unfolding(crate::specs::Names::index_of))]
    fn index_of(&self, word: &[u8]) -> Option<u32> {
        if !is_id(word) {
            return small_number(word);
        }
        match self.places.get(word) {
            Some(place) => small_index(self.nameless, place),
            None => None,
        }
    }
}

/// The sum of both, if it has 32 bits.
pub fn small_index(before: usize, place: usize) -> Option<u32>
    ensures { Finds (λ n. n) result
        (need (nat_lt (before + place) (2 ^ 32)) (Ok (before + place))) }
{
    let index = before.checked_add(place)?;
    if index < 1 << 32 {
        Some(index as u32)
    } else {
        None
    }
}
