//! The members of a lease: digests, in order of arrival.

ghost use Rattle.std.specs.Prelude.{◌≡◌, ◌<◌, ◌++◌, ◌∷◌, [], length, string_bytes, IfOk, true, false};
ghost use Rattle.content_leases.specs.Limits.{max_members};
ghost use Rattle.content_leases.specs.StoreState.{is_among};

use indexmap::IndexSet;
use std::alloc::{AllocError, Global};
use std::marker::Model;

/// The most members of a lease.
pub const MAX_MEMBERS: usize = 64;

/// The members of a lease, with room for all that it may have. Contracts see their digests.
#[derive(Drop)]
pub struct Members {
    digests: IndexSet<String>,
}

impl Model for Members {
    ghost use Rattle.std.specs.Prelude.{List, ℕ, ◌≤◌, ◌+◌, length};
    ghost use Rattle.indexmap.specs.IndexSet.{spare};
    ghost use Rattle.content_leases.specs.Inside.Shown.{members_of};

    ghost Value = { List (List ℕ) };

    ghost view = { λ m. members_of m.digests.keys };

    ghost invariant = { λ m. 64 ≤ length m.digests.keys + spare m.digests };
}

impl Members {
    /// No members. An error if their room cannot be allocated.
    pub fn new(alloc: Global) -> Result<Members, AllocError>
        ensures { IfOk result (λ m. m ≡ []) }
    {
        Ok(Members {
            digests: IndexSet::with_capacity(alloc, MAX_MEMBERS)?,
        })
    }

    /// How many there are.
    pub fn len(&self) -> usize
        ensures { result ≡ length self.now }
    {
        self.digests.len()
    }

    /// Whether a digest is one of them.
    pub fn has(&self, digest: &str) -> bool
        ensures { result ≡ is_among digest.now self.now }
    {
        self.digests.contains(digest)
    }

    /// Adds a digest, after all others. No memory is taken.
    pub fn push_reserved(&mut self, digest: String)
        requires new { is_among (string_bytes digest) self.old ≡ false }
        requires few { length self.old < max_members }
        ensures { self.new ≡ self.old ++ string_bytes digest ∷ [] }
    {
        let _ = self.digests.insert(digest).unwrap();
    }
}
