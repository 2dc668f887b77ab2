//! Contents: bytes under their digests, in order of arrival.

ghost use Rattle.std.specs.Prelude.{◌≡◌, ◌≤◌, ◌<◌, ◌+◌, ◌++◌, ◌∷◌, [], length, option_map, filter, string_bytes, IfOk, OnOk, Some, None};
ghost use Rattle.std.specs.Arc.{arc_value};
ghost use Rattle.content_leases.specs.StoreState.{Content, content_in, remove_content, is_among, is_held, unheld};
ghost use Rattle.content_leases.specs.Inside.Shown.{contents_of};

use crate::leases::Leases;
use indexmap::IndexMap;
use std::alloc::{AllocError, Global};
use std::marker::Model;
use std::sync::Arc;
use wasm_ast::{Bytes, Text};

/// Whether a digest is one of these.
pub fn is_used(used: &[Text], digest: &str) -> bool
    ensures { result ≡ is_among digest.now used.now }
{
    used.iter().any(|text| text.as_str() == digest)
}

// Whether a lease, or one of these digests, holds a digest.
fn is_held(leases: &Leases, used: &[Text], digest: &str) -> bool
    ensures { result ≡ is_held used.now leases.now.leases digest.now }
{
    leases.has(digest) || is_used(used, digest)
}

// The digests of those contents that are not held.
fn unheld_in(
    alloc: Global,
    map: &IndexMap<String, Arc<Bytes>>,
    leases: &Leases,
    used: &[Text],
) -> Result<Vec<Text>, AllocError>
    ensures { IfOk result (λ v. v.items
        ≡ unheld used.now (record {
          contents = contents_of map.now.entries;
          leases = leases.now.leases;
        })) }
{
    let mut digests = Vec::new(alloc);
    for (digest, _bytes) in map.iter() {
        if !is_held(leases, used, digest.as_str()) {
            digests.push(Text::from_str(alloc, digest.as_str())?)?;
        }
    }
    Ok(digests)
}

/// Contents. Contracts see them in order of arrival, and how many more fit with no memory taken.
#[derive(Drop)]
pub struct Contents {
    map: IndexMap<String, Arc<Bytes>>,
}

impl Model for Contents {
    ghost use Rattle.indexmap.specs.IndexMap.{spare};
    ghost use Rattle.content_leases.specs.Inside.Shown.{ContentsValue, contents_of};

    ghost Value = { ContentsValue };

    ghost view = { λ c. record { contents = contents_of c.map.entries; room = spare c.map } };
}

impl Contents {
    /// No contents, with room for that number of them. An error if it cannot be allocated.
    pub fn with_capacity(alloc: Global, room: usize) -> Result<Contents, AllocError>
        ensures empty { IfOk result (λ c. c.contents ≡ []) }
        ensures room { IfOk result (λ c. room ≤ c.room) }
    {
        Ok(Contents {
            map: IndexMap::with_capacity(alloc, room)?,
        })
    }

    /// How many there are.
    pub fn len(&self) -> usize
        ensures { result ≡ length self.now.contents }
    {
        self.map.len()
    }

    /// The bytes that are stored under a digest.
    pub fn get(&self, digest: &str) -> Option<&Arc<Bytes>>
        ensures { option_map (λ b. arc_value b.now) result
            ≡ content_in self.now.contents digest.now }
    {
        self.map.get(digest)
    }

    /// Makes room for one more. An error if it cannot be allocated.
    pub fn reserve(&mut self) -> Result<(), AllocError>
        ensures same { self.new.contents ≡ self.old.contents }
        ensures room { OnOk result (0 < self.new.room) }
    {
        self.map.reserve(1)
    }

    /// Stores bytes under a digest that has none. No memory is taken.
    pub fn push_reserved(&mut self, digest: String, bytes: Arc<Bytes>)
        requires room { 0 < self.old.room }
        requires new { content_in self.old.contents (string_bytes digest) ≡ None }
        ensures contents { self.new.contents ≡ self.old.contents
            ++ record { digest = string_bytes digest; bytes = arc_value bytes } ∷ [] }
        ensures room { self.old.room ≤ self.new.room + 1 }
    {
        let _ = self.map.insert(digest, bytes).unwrap();
    }

    /// Removes the contents that no lease and none of these digests holds. The others keep their order.
    pub fn retain_held(&mut self, leases: &Leases, used: &[Text])
        ensures contents { self.new.contents
            ≡ filter (λ c. is_held used.now leases.now.leases c.digest) self.old.contents }
        ensures room { self.old.room ≤ self.new.room }
    {
        self.map.retain(
            |digest: &String, bytes: &mut Arc<Bytes>| -> bool
                ensures { (result
                    ≡ is_held used.entry.now leases.entry.now.leases (string_bytes digest.now))
                    × (bytes.new ≡ bytes.old) }
            { is_held(leases, used, digest.as_str()) },
        );
    }

    /// The digests of the contents that no lease and none of these digests holds, in order of arrival. An
    /// error if they cannot be allocated.
    pub fn unheld(
        &self,
        alloc: Global,
        leases: &Leases,
        used: &[Text],
    ) -> Result<Vec<Text>, AllocError>
        ensures { IfOk result (λ v. v.items
            ≡ unheld used.now (record {
              contents = self.now.contents;
              leases = leases.now.leases;
            })) }
    {
        unheld_in(alloc, &self.map, leases, used)
    }

    /// Removes the content under a digest. The others keep their order.
    pub fn remove(&mut self, digest: &str)
        ensures contents { self.new.contents ≡ remove_content digest.now self.old.contents }
        ensures room { self.old.room ≤ self.new.room }
    {
        let _removed = self.map.shift_remove(digest);
    }
}
