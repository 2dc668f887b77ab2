//! The modules of contents that were decoded, validated and made flat code of.

ghost use Rattle.std.specs.Prelude.{ℕ, List, ◌≡◌, ◌⊎◌, ◌<◌, ◌≤◌, ◌++◌, ◌∷◌, [], None, true, false, length, option_map, filter, is_some, string_bytes, IfOk, OnOk, OnErr};
ghost use Rattle.slab.specs.Slab.{entries};
ghost use Rattle.content_leases.specs.StoreState.{content_in, is_among};
ghost use Rattle.task_board.specs.BoardState.{used_by};
ghost use Rattle.task_board.specs.Sound.{Each};
ghost use Rattle.task_board.specs.Inside.OpenedModules.{module_in, opened_of, IsOpened, always_kept, most_idle_bytes, idle_size, idle_bytes};

use crate::task::{Task, is_used};
use content_leases::Store;
use indexmap::IndexMap;
use slab::Slab;
use std::alloc::{AllocError, Global};
use std::marker::Model;
use step_machine::FlatModule;

/// How many bytes the contents may have together whose modules stay open although no task uses them. An
/// opened module takes up to 65 times the bytes of its content.
const MAX_IDLE_BYTES: usize = 1 << 20;

/// That number of modules never comes from more bytes: no content that spells a module has more than 262,144.
const ALWAYS_KEPT: usize = 4;

/// Valid modules with their flat code, by the digests of the contents that spell them.
#[derive(Drop)]
pub struct Opened {
    map: IndexMap<String, FlatModule>,
}

impl Model for Opened {
    ghost use Rattle.std.specs.Prelude.{List};
    ghost use Rattle.task_board.specs.Inside.Code.{opened_code};
    ghost use Rattle.task_board.specs.Inside.OpenedModules.{OpenedModule, opened_of};

    ghost Value = { List OpenedModule };

    ghost coded = { opened_code };

    ghost view = { λ o. opened_of o.map.entries };
}

impl Opened {
    /// None that was opened. An error if the room for 256 cannot be allocated.
    pub fn new(alloc: Global) -> Result<Opened, AllocError>
        ensures { IfOk result (λ o. o ≡ []) }
    {
        Ok(Opened {
            map: IndexMap::with_capacity(alloc, 256)?,
        })
    }

    /// The module of the content under a digest, if it was opened.
    pub fn get(&self, digest: &str) -> Option<&FlatModule>
        ensures { option_map (λ m. m.now) result ≡ module_in self.now digest.now }
    {
        self.map.get(digest)
    }

    /// Adds the module of a content, which was not opened. An error, and nothing has changed, if memory runs
    /// out.
    pub fn add(&mut self, alloc: Global, digest: &str, flat: FlatModule) -> Result<(), AllocError>
        requires { module_in self.old digest.now ≡ None }
        ensures ok { OnOk result (self.new
            ≡ self.old ++ record { digest = digest.now; «module» = flat } ∷ []) }
        ensures err { OnErr result (self.new ≡ self.old) }
    {
        self.map.reserve(1)?;
        let key = String::from_str(alloc, digest)?;
        let _ = self.map.insert(key, flat).unwrap();
        Ok(())
    }

    /// Drops the modules of contents that are not stored. No memory is taken.
    pub fn keep_stored(&mut self, store: &Store)
        ensures { self.new
            ≡ filter (λ o. is_some (content_in store.now.state.contents o.digest)) self.old }
    {
        self.map.retain(
            |digest: &String, flat: &mut FlatModule| -> bool
                ensures { (result
                    ≡ is_some (content_in store.entry.now.state.contents (string_bytes digest.now)))
                    × (flat.new ≡ flat.old) }
            { store.content(digest.as_str()).is_some() },
        );
    }

    // Drops the modules that no task uses.
    fn keep_used(&mut self, tasks: &Slab<Task>)
        ensures { self.new
            ≡ filter (λ o. is_among o.digest (used_by (entries tasks.now))) self.old }
    {
        self.map.retain(
            |digest: &String, flat: &mut FlatModule| -> bool
                ensures { (result
                    ≡ is_among (string_bytes digest.now) (used_by (entries tasks.entry.now)))
                    × (flat.new ≡ flat.old) }
            { is_used(tasks, digest.as_str()) },
        );
    }

    /// Drops the modules that no task uses, if their contents have more than 1 MiB together. Those of four
    /// modules never have. No memory is taken.
    pub fn drop_idle(&mut self, store: &Store, tasks: &Slab<Task>)
        ensures sound { Each (IsOpened store.now.state.contents) self.old
            → Each (IsOpened store.now.state.contents) self.new }
        ensures absent { (digest : List ℕ)
            → module_in self.old digest ≡ None → module_in self.new digest ≡ None }
        ensures kept { (length self.old ≤ always_kept)
            ⊎ (idle_bytes store.now.state.contents (used_by (entries tasks.now)) self.old
            ≤ most_idle_bytes) → self.new ≡ self.old }
        ensures dropped { always_kept < length self.old → most_idle_bytes
            < idle_bytes store.now.state.contents (used_by (entries tasks.now)) self.old
            → self.new
            ≡ filter (λ o. is_among o.digest (used_by (entries tasks.now))) self.old }
    {
        if self.map.len() > ALWAYS_KEPT && is_much_idle(&self.map, store, tasks) {
            self.keep_used(tasks);
        }
    }
}

// How many bytes the content under a digest has: 0 if a task uses it, or none is stored.
fn idle_size(store: &Store, tasks: &Slab<Task>, digest: &str) -> usize
    ensures { result
        ≡ idle_size store.now.state.contents (used_by (entries tasks.now)) digest.now }
{
    if is_used(tasks, digest) {
        return 0;
    }
    match store.content(digest) {
        Some(content) => content.len(),
        None => 0,
    }
}

// Whether the contents have more than 1 MiB together whose modules no task uses.
fn is_much_idle(map: &IndexMap<String, FlatModule>, store: &Store, tasks: &Slab<Task>) -> bool
    ensures yes { result ≡ true → most_idle_bytes
        < idle_bytes store.now.state.contents (used_by (entries tasks.now))
        (opened_of map.now.entries) }
    ensures no { result ≡ false
        → idle_bytes store.now.state.contents (used_by (entries tasks.now))
        (opened_of map.now.entries) ≤ most_idle_bytes }
{
    let mut left = MAX_IDLE_BYTES;
    for (digest, _flat) in map.iter() {
        let size = idle_size(store, tasks, digest.as_str());
        if size > left {
            return true;
        }
        left -= size;
    }
    false
}
