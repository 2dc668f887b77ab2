//! What a request changes of the store.

ghost use Rattle.std.specs.Prelude.{◌≡◌};
ghost use Rattle.task_board.specs.Sound.{Each, AreDistinct, digests_of};
ghost use Rattle.task_board.specs.Inside.OpenedModules.{IsOpened};
ghost use Rattle.task_board.specs.Inside.StoreChanges.{store_reply, store_after, removes, CanTake};

use crate::opened::Opened;
use content_leases::{Members, Store};
use std::sync::Arc;
use task_requests::Reply;
use wasm_ast::{Bytes, Sequence, Text};

/// A change that a request makes of the store, with all the memory that it and its reply need.
#[derive(Drop)]
pub enum StoreChange {
    /// Bytes are stored under this key, which is their digest.
    Put {
        key: String,
        bytes: Arc<Bytes>,
        digest: Text,
    },
    /// The content under a digest goes.
    Remove {
        digest: Text,
    },
    /// A lease is created under this key, which is its id.
    LeaseCreate {
        key: String,
        members: Members,
        id: Text,
    },
    /// The digest, which this key is, is added to a lease.
    LeaseAdd {
        key: String,
        digest: Text,
        id: Text,
    },
    /// A lease goes.
    LeaseDelete {
        id: Text,
    },
    /// The contents go that neither a lease nor one of the digests in use holds.
    Gc {
        used: Sequence<Text>,
        removed: Sequence<Text>,
    },
}

impl StoreChange {
    /// Whether contents may go with it.
    pub fn removes(&self) -> bool
        ensures { result ≡ removes self.now }
    {
        matches!(self, StoreChange::Remove { .. } | StoreChange::Gc { .. })
    }

    /// Makes the change, and answers. No memory is taken.
    pub fn make(self, store: &mut Store) -> Reply
        requires { CanTake store.old self }
        ensures reply { result ≡ store_reply self }
        ensures leaves { store.new.state ≡ store_after store.old.state self }
    {
        match self {
            StoreChange::Put { key, bytes, digest } => {
                let size = bytes.len() as u64;
                store.put_reserved(key, bytes);
                Reply::Put { digest, size }
            }
            StoreChange::Remove { digest } => {
                store.remove_reserved(digest.as_str());
                Reply::Remove { digest }
            }
            StoreChange::LeaseCreate { key, members, id } => {
                store.create_lease_reserved(key, members);
                Reply::LeaseCreate { id }
            }
            StoreChange::LeaseAdd { key, digest, id } => {
                store.add_member_reserved(key, id.as_str());
                Reply::LeaseAdd { digest, id }
            }
            StoreChange::LeaseDelete { id } => {
                store.delete_lease_reserved(id.as_str());
                Reply::LeaseDelete { id }
            }
            StoreChange::Gc { used, removed } => {
                store.collect_reserved(used.as_slice());
                Reply::Gc { removed }
            }
        }
    }

    /// The same, and drops the modules of the contents that go with it.
    pub fn make_and_drop(self, store: &mut Store, opened: &mut Opened) -> Reply
        requires can { CanTake store.old self }
        requires distinct { AreDistinct (digests_of store.old.state.contents) }
        requires opened { Each (IsOpened store.old.state.contents) opened.old }
        ensures reply { result ≡ store_reply self }
        ensures leaves { store.new.state ≡ store_after store.old.state self }
        ensures opened { Each (IsOpened store.new.state.contents) opened.new }
    {
        let removes = self.removes();
        let reply = self.make(store);
        if removes {
            opened.keep_stored(store);
        }
        reply
    }
}
