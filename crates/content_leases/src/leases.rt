//! Leases: names with their members, in order of arrival.

ghost use Rattle.std.specs.Prelude.{◌≡◌, ◌≤◌, ◌<◌, ◌+◌, ◌++◌, ◌∷◌, [], length, option_map, string_bytes, IfOk, OnOk, Some, None, false, List, ℕ};
ghost use Rattle.content_leases.specs.Limits.{max_members};
ghost use Rattle.content_leases.specs.StoreState.{lease_in, add_member, remove_lease, is_among, is_leased};
ghost use Rattle.content_leases.specs.Inside.Shown.{leases_of};

use crate::members::Members;
use indexmap::IndexMap;
use std::alloc::{AllocError, Global};
use std::marker::Model;

/// Leases. Contracts see them in order of arrival, and how many more fit with no memory taken.
#[derive(Drop)]
pub struct Leases {
    map: IndexMap<String, Members>,
}

impl Model for Leases {
    ghost use Rattle.indexmap.specs.IndexMap.{spare};
    ghost use Rattle.content_leases.specs.Inside.Shown.{LeasesValue, leases_of};

    ghost Value = { LeasesValue };

    ghost view = { λ c. record { leases = leases_of c.map.entries; room = spare c.map } };
}

impl Leases {
    /// No leases, with room for that number of them. An error if it cannot be allocated.
    pub fn with_capacity(alloc: Global, room: usize) -> Result<Leases, AllocError>
        ensures empty { IfOk result (λ c. c.leases ≡ []) }
        ensures room { IfOk result (λ c. room ≤ c.room) }
    {
        Ok(Leases {
            map: IndexMap::with_capacity(alloc, room)?,
        })
    }

    /// How many there are.
    pub fn len(&self) -> usize
        ensures { result ≡ length self.now.leases }
    {
        self.map.len()
    }

    /// The members of the lease with a name.
    pub fn get(&self, name: &str) -> Option<&Members>
        ensures { option_map (λ m. m.now) result ≡ lease_in self.now.leases name.now }
    {
        self.map.get(name)
    }

    /// Makes room for one more. An error if it cannot be allocated.
    pub fn reserve(&mut self) -> Result<(), AllocError>
        ensures same { self.new.leases ≡ self.old.leases }
        ensures room { OnOk result (0 < self.new.room) }
    {
        self.map.reserve(1)
    }

    /// Adds a lease under a name that none has. No memory is taken.
    pub fn push_reserved(&mut self, name: String, members: Members)
        requires room { 0 < self.old.room }
        requires new { lease_in self.old.leases (string_bytes name) ≡ None }
        ensures leases { self.new.leases ≡ self.old.leases
            ++ record { name = string_bytes name; members = members } ∷ [] }
        ensures room { self.old.room ≤ self.new.room + 1 }
    {
        let _ = self.map.insert(name, members).unwrap();
    }

    /// Adds a digest to the lease with a name, which does not have it and has fewer than 64. No memory is
    /// taken.
    pub fn add_reserved(&mut self, name: &str, digest: String)
        requires { (ms : List (List ℕ)) × (lease_in self.old.leases name.now ≡ Some ms)
            × (is_among (string_bytes digest) ms ≡ false) × (length ms < max_members) }
        ensures leases { self.new.leases
            ≡ add_member (string_bytes digest) name.now self.old.leases }
        ensures room { self.new.room ≡ self.old.room }
    {
        let Some(members) = self.map.get_mut(name) else {
            unreachable!();
        };
        members.push_reserved(digest);
    }

    /// Removes the lease with a name. The others keep their order.
    pub fn remove(&mut self, name: &str)
        ensures leases { self.new.leases ≡ remove_lease name.now self.old.leases }
        ensures room { self.old.room ≤ self.new.room }
    {
        let _removed = self.map.shift_remove(name);
    }

    /// Whether some lease has a digest.
    pub fn has(&self, digest: &str) -> bool
        ensures { result ≡ is_leased self.now.leases digest.now }
    {
        has_in(&self.map, digest)
    }
}

// Whether some lease of these has a digest.
fn has_in(map: &IndexMap<String, Members>, digest: &str) -> bool
    ensures { result ≡ is_leased (leases_of map.now.entries) digest.now }
{
    for (_name, members) in map.iter() {
        if members.has(digest) {
            return true;
        }
    }
    false
}
