//! The store: contents, and the leases that hold them.

ghost use Rattle.std.specs.Prelude.{◌≡◌, ◌≢◌, ◌≤◌, ◌<◌, ◌++◌, ◌∷◌, [], length, option_map, string_bytes, IfOk, OnOk, OnErr, Some, None, Ok, Err, List, ℕ, false};
ghost use Rattle.std.specs.List.{list_any};
ghost use Rattle.std.specs.Arc.{arc_value};
ghost use Rattle.std.specs.Prelude.{is_none, nat_le};
ghost use Rattle.content_leases.specs.Digests.{digest_of};
ghost use Rattle.content_leases.specs.Limits.{max_members};
ghost use Rattle.content_leases.specs.Refusals.{first_refusal, put_refusals, remove_refusals, lease_create_refusals, lease_add_refusals, lease_delete_refusals};
ghost use Rattle.content_leases.specs.Requests.{IsAnswered};
ghost use Rattle.content_leases.specs.StoreState.{empty, content_in, lease_in, is_among, with_content, without_content, with_lease, with_member, without_lease, unheld, collected};

use crate::contents::{Contents, is_used};
use crate::digest::digest_of;
use crate::leases::Leases;
use crate::members::{MAX_MEMBERS, Members};
use std::alloc::{AllocError, Global};
use std::marker::Model;
use std::sync::Arc;
use wasm_ast::{Bytes, MAX_MODULE_BYTES, Refusal, Text, is_digest, is_id};

/// The most contents of a store.
const MAX_CONTENTS: usize = 256;

/// The most leases of a store.
const MAX_LEASES: usize = 64;

/// Contents and leases, in order of arrival.
#[derive(Drop)]
pub struct Store {
    alloc: Global,
    contents: Contents,
    leases: Leases,
}

impl Model for Store {
    ghost use Rattle.content_leases.specs.StoreValue.{StoreValue};

    ghost Value = { StoreValue };

    ghost view = { λ s. record {
      state = record { contents = s.contents.contents; leases = s.leases.leases };
      content_room = s.contents.room;
      lease_room = s.leases.room;
    } };
}

impl Store {
    /// An empty store, with room for all that it may have. `NoMemory` if that cannot be allocated.
    pub fn new(alloc: Global) -> Result<Store, Refusal>
        ensures empty { IfOk result (λ s. s.state ≡ empty) }
        ensures err { OnErr result (result ≡ Err Refusal.NoMemory) }
    {
        Ok(Store {
            alloc,
            contents: Contents::with_capacity(alloc, MAX_CONTENTS)?,
            leases: Leases::with_capacity(alloc, MAX_LEASES)?,
        })
    }

    /// The bytes that are stored under a digest.
    pub fn content(&self, digest: &str) -> Option<&Arc<Bytes>>
        ensures { option_map (λ b. arc_value b.now) result
            ≡ content_in self.now.state.contents digest.now }
    {
        self.contents.get(digest)
    }

    /// Why bytes cannot be stored, if they cannot.
    pub fn refusal_of_put(&self, digest: &Text, bytes: &Bytes) -> Option<Refusal>
        requires { digest.now ≡ digest_of bytes.now }
        ensures { result ≡ first_refusal (put_refusals self.now.state bytes.now) }
    {
        if bytes.len() > MAX_MODULE_BYTES {
            return Some(Refusal::Limit);
        }
        match self.content(digest.as_str()) {
            Some(stored) => if stored.is(bytes) {
                Some(Refusal::Exists)
            } else {
                Some(Refusal::DigestConflict)
            },
            None => if self.contents.len() >= MAX_CONTENTS {
                Some(Refusal::TooMany)
            } else {
                None
            },
        }
    }

    /// Why the content under a digest cannot be removed, if it cannot. `is_used` tells whether the digest is
    /// one of those that are used.
    pub fn refusal_of_remove(&self, digest: &str, is_used: bool) -> Option<Refusal>
        ensures first { (used : List (List ℕ)) → is_used ≡ is_among digest.now used
            → result ≡ first_refusal (remove_refusals used self.now.state digest.now) }
        ensures quiet { result ≢ Some Refusal.NoMemory }
    {
        if !is_digest(digest) {
            Some(Refusal::BadId)
        } else if self.content(digest).is_none() {
            Some(Refusal::NoContent)
        } else if self.leases.has(digest) || is_used {
            Some(Refusal::InUse)
        } else {
            None
        }
    }

    /// Why no lease with a name can be created, if none can.
    pub fn refusal_of_lease_create(&self, name: &str) -> Option<Refusal>
        ensures { result ≡ first_refusal (lease_create_refusals self.now.state name.now) }
    {
        if !is_id(name) {
            Some(Refusal::BadId)
        } else if self.leases.get(name).is_some() {
            Some(Refusal::Exists)
        } else if self.leases.len() >= MAX_LEASES {
            Some(Refusal::TooMany)
        } else {
            None
        }
    }

    /// Why a lease cannot be deleted, if it cannot.
    pub fn refusal_of_lease_delete(&self, name: &str) -> Option<Refusal>
        ensures first { result ≡ first_refusal (lease_delete_refusals self.now.state name.now) }
        ensures quiet { result ≢ Some Refusal.NoMemory }
    {
        if !is_id(name) {
            Some(Refusal::BadId)
        } else if self.leases.get(name).is_none() {
            Some(Refusal::NotFound)
        } else {
            None
        }
    }

    // Why a digest cannot be added to a lease with these members, if it cannot.
    fn refusal_of_member(&self, digest: &str, members: &Members) -> Option<Refusal>
        ensures { let stored = content_in self.now.state.contents digest.now in
            result ≡ first_refusal ((is_none stored, Refusal.NoContent)
            ∷ (is_among digest.now members.now, Refusal.Exists)
            ∷ (nat_le max_members (length members.now), Refusal.TooMany) ∷ []) }
    {
        if self.content(digest).is_none() {
            Some(Refusal::NoContent)
        } else if members.has(digest) {
            Some(Refusal::Exists)
        } else if members.len() >= MAX_MEMBERS {
            Some(Refusal::TooMany)
        } else {
            None
        }
    }

    /// Why a digest cannot be added to the lease with a name, if it cannot.
    pub fn refusal_of_lease_add(&self, digest: &str, name: &str) -> Option<Refusal>
        ensures { result ≡ first_refusal (lease_add_refusals self.now.state digest.now name.now) }
    {
        if !is_digest(digest) || !is_id(name) {
            return Some(Refusal::BadId);
        }
        match self.leases.get(name) {
            Some(members) => self.refusal_of_member(digest, members),
            None => Some(Refusal::NotFound),
        }
    }

    /// Makes room for one content more. An error if that cannot be allocated.
    pub fn reserve_content(&mut self) -> Result<(), AllocError>
        ensures same { self.new.state ≡ self.old.state }
        ensures room { OnOk result (0 < self.new.content_room) }
    {
        self.contents.reserve()
    }

    /// Makes room for one lease more. An error if that cannot be allocated.
    pub fn reserve_lease(&mut self) -> Result<(), AllocError>
        ensures same { self.new.state ≡ self.old.state }
        ensures room { OnOk result (0 < self.new.lease_room) }
    {
        self.leases.reserve()
    }

    /// Stores bytes under their digest, which has none. No memory is taken.
    pub fn put_reserved(&mut self, digest: String, bytes: Arc<Bytes>)
        requires room { 0 < self.old.content_room }
        requires named { string_bytes digest ≡ digest_of (arc_value bytes) }
        requires new { content_in self.old.state.contents (string_bytes digest) ≡ None }
        ensures leaves { self.new.state ≡ with_content self.old.state (arc_value bytes) }
    {
        self.contents.push_reserved(digest, bytes);
    }

    /// Removes the content under a digest. No memory is taken.
    pub fn remove_reserved(&mut self, digest: &str)
        ensures leaves { self.new.state ≡ without_content self.old.state digest.now }
    {
        self.contents.remove(digest);
    }

    /// Creates a lease with a name that none has. No memory is taken.
    pub fn create_lease_reserved(&mut self, name: String, members: Members)
        requires room { 0 < self.old.lease_room }
        requires new { lease_in self.old.state.leases (string_bytes name) ≡ None }
        requires none { members ≡ [] }
        ensures leaves { self.new.state ≡ with_lease self.old.state (string_bytes name) }
    {
        self.leases.push_reserved(name, members);
    }

    /// Adds a digest to the lease with a name, which does not have it and has fewer than 64. No memory is
    /// taken.
    pub fn add_member_reserved(&mut self, digest: String, name: &str)
        requires { (ms : List (List ℕ)) × (lease_in self.old.state.leases name.now ≡ Some ms)
            × (is_among (string_bytes digest) ms ≡ false) × (length ms < max_members) }
        ensures leaves { self.new.state
            ≡ with_member self.old.state (string_bytes digest) name.now }
    {
        self.leases.add_reserved(name, digest);
    }

    /// Deletes the lease with a name. No memory is taken.
    pub fn delete_lease_reserved(&mut self, name: &str)
        ensures leaves { self.new.state ≡ without_lease self.old.state name.now }
    {
        self.leases.remove(name);
    }

    /// The digests of the contents that no lease and none of these digests holds. An error if they cannot be
    /// allocated.
    pub fn unheld(&self, used: &[Text]) -> Result<Vec<Text>, AllocError>
        ensures { IfOk result (λ v. v.items ≡ unheld used.now self.now.state) }
    {
        self.contents.unheld(self.alloc, &self.leases, used)
    }

    /// Removes those contents. No memory is taken.
    pub fn collect_reserved(&mut self, used: &[Text])
        ensures leaves { self.new.state ≡ collected used.now self.old.state }
    {
        self.contents.retain_held(&self.leases, used);
    }

    // Stores bytes that may be stored. An error, and nothing has changed, if memory runs out.
    fn put_accepted(&mut self, digest: &Text, bytes: Bytes) -> Result<(), AllocError>
        requires named { digest.now ≡ digest_of bytes }
        requires accepted { first_refusal (put_refusals self.old.state bytes) ≡ None }
        ensures ok { OnOk result (self.new.state ≡ with_content self.old.state bytes) }
        ensures err { OnErr result (self.new.state ≡ self.old.state) }
    {
        self.reserve_content()?;
        let key = String::from_str(self.alloc, digest.as_str())?;
        let bytes = Arc::new(self.alloc, bytes)?;
        self.put_reserved(key, bytes);
        Ok(())
    }

    /// Stores bytes under their digest, which is answered. Refused, in this order: `Limit` if they are more
    /// than a module may have, `Exists` if they are stored, `DigestConflict` if others are stored under their
    /// digest, `TooMany` if no more contents can be stored, `NoMemory`.
    pub fn put(&mut self, bytes: Bytes) -> Result<Text, Refusal>
        ensures { IsAnswered (put_refusals self.old.state bytes)
            (λ d. (d ≡ digest_of bytes) × (self.new.state ≡ with_content self.old.state bytes))
            result self.old.state self.new.state }
    {
        let digest = digest_of(self.alloc, bytes.as_slice())?;
        if let Some(refusal) = self.refusal_of_put(&digest, &bytes) {
            return Err(refusal);
        }
        self.put_accepted(&digest, bytes)?;
        Ok(digest)
    }

    /// Removes the content under a digest. No memory is taken. Refused, in this order: `BadId` if the digest
    /// is malformed, `NoContent` if nothing is stored under it, `InUse` if a lease or one of the digests that
    /// are used names it.
    pub fn remove(&mut self, digest: &str, used: &[Text]) -> Result<(), Refusal>
        ensures answered { IsAnswered (remove_refusals used.now self.old.state digest.now)
            (λ done. self.new.state ≡ without_content self.old.state digest.now)
            result self.old.state self.new.state }
        ensures quiet { result ≢ Err Refusal.NoMemory }
    {
        match self.refusal_of_remove(digest, is_used(used, digest)) {
            Some(refusal) => Err(refusal),
            None => {
                self.remove_reserved(digest);
                Ok(())
            }
        }
    }

    // Creates a lease whose name none has. An error, and nothing has changed, if memory runs out.
    fn create_accepted(&mut self, name: &str) -> Result<(), AllocError>
        requires { first_refusal (lease_create_refusals self.old.state name.now) ≡ None }
        ensures ok { OnOk result (self.new.state ≡ with_lease self.old.state name.now) }
        ensures err { OnErr result (self.new.state ≡ self.old.state) }
    {
        self.reserve_lease()?;
        let key = String::from_str(self.alloc, name)?;
        let members = Members::new(self.alloc)?;
        self.create_lease_reserved(key, members);
        Ok(())
    }

    /// Creates a lease that names no digest. Refused, in this order: `BadId` if the name is malformed,
    /// `Exists` if a lease has it, `TooMany` if there can be no more leases, `NoMemory`.
    pub fn lease_create(&mut self, name: &str) -> Result<(), Refusal>
        ensures { IsAnswered (lease_create_refusals self.old.state name.now)
            (λ done. self.new.state ≡ with_lease self.old.state name.now)
            result self.old.state self.new.state }
    {
        if let Some(refusal) = self.refusal_of_lease_create(name) {
            return Err(refusal);
        }
        self.create_accepted(name)?;
        Ok(())
    }

    // Adds a digest to a lease that can take it. An error, and nothing has changed, if memory runs out.
    fn add_accepted(&mut self, digest: &str, name: &str) -> Result<(), AllocError>
        requires { first_refusal (lease_add_refusals self.old.state digest.now name.now) ≡ None }
        ensures ok { OnOk result (self.new.state ≡ with_member self.old.state digest.now name.now) }
        ensures err { OnErr result (self.new.state ≡ self.old.state) }
    {
        let key = String::from_str(self.alloc, digest)?;
        self.add_member_reserved(key, name);
        Ok(())
    }

    /// Adds the digest of a content to a lease. Refused, in this order: `BadId` if the digest or the name is
    /// malformed, `NotFound` if no lease has the name, `NoContent` if nothing is stored under the digest,
    /// `Exists` if the lease has it, `TooMany` if the lease is full, `NoMemory`.
    pub fn lease_add(&mut self, digest: &str, name: &str) -> Result<(), Refusal>
        ensures { IsAnswered (lease_add_refusals self.old.state digest.now name.now)
            (λ done. self.new.state ≡ with_member self.old.state digest.now name.now)
            result self.old.state self.new.state }
    {
        if let Some(refusal) = self.refusal_of_lease_add(digest, name) {
            return Err(refusal);
        }
        self.add_accepted(digest, name)?;
        Ok(())
    }

    /// Deletes a lease. No memory is taken. Refused, in this order: `BadId` if the name is malformed,
    /// `NotFound` if no lease has it.
    pub fn lease_delete(&mut self, name: &str) -> Result<(), Refusal>
        ensures answered { IsAnswered (lease_delete_refusals self.old.state name.now)
            (λ done. self.new.state ≡ without_lease self.old.state name.now)
            result self.old.state self.new.state }
        ensures quiet { result ≢ Err Refusal.NoMemory }
    {
        match self.refusal_of_lease_delete(name) {
            Some(refusal) => Err(refusal),
            None => {
                self.delete_lease_reserved(name);
                Ok(())
            }
        }
    }

    /// Removes the contents that no lease and none of the digests that are used names, and answers their
    /// digests in order of arrival. The only refusal is `NoMemory`, and nothing has changed then.
    pub fn gc(&mut self, used: &[Text]) -> Result<Vec<Text>, Refusal>
        ensures { IsAnswered []
            (λ v. (v.items ≡ unheld used.now self.old.state)
            × (self.new.state ≡ collected used.now self.old.state))
            result self.old.state self.new.state }
    {
        let removed = self.unheld(used)?;
        self.collect_reserved(used);
        Ok(removed)
    }
}
