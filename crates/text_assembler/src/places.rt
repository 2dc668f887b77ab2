//! Names and their places.

ghost use Rattle.std.specs.Prelude.{◌≡◌, List, ℕ, None, Some, OnOk, OnErr, if◌then◌else◌, bytes_eq};
ghost use Rattle.text_assembler.specs.Inside.Spaces.{place_of};

use std::alloc::{AllocError, Global};
use std::collections::BTreeMap;

/// The place of each name. A look-up compares the name with few others, however many there are.
#[derive(Drop)]
pub struct Places {
    map: BTreeMap<Vec<u8>, usize>,
}

impl Places {
    /// No names. No memory is taken.
    pub fn new(alloc: Global) -> Places
        ensures { (name : List ℕ) → place_of result name ≡ None }
    {
        Places {
            map: BTreeMap::new(alloc),
        }
    }

    /// The place of a name.
    pub fn get(&self, name: &[u8]) -> Option<usize>
        ensures { result ≡ place_of self.now name.now }
    {
        self.map.get(name).copied()
    }

    /// One more name, or another place of it.
    pub fn insert(&mut self, alloc: Global, name: &[u8], place: usize) -> Result<(), AllocError>
        ensures added { OnOk result ((other : List ℕ) → place_of self.new other
            ≡ (if bytes_eq name.now other then Some place else place_of self.old other)) }
        ensures kept { OnErr result ((other : List ℕ) →
            place_of self.new other ≡ place_of self.old other) }
    {
        let name = Vec::from_slice(alloc, name)?;
        self.map.insert(name, place)?;
        Ok(())
    }
}
