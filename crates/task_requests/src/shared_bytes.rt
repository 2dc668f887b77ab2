//! Bytes with several owners.

ghost use Rattle.std.specs.Prelude.{◌≡◌, IfOk};
ghost use Rattle.std.specs.Arc.{arc_value};

use std::alloc::{AllocError, Global};
use std::marker::Model;
use std::sync::Arc;
use wasm_ast::Bytes;

/// Bytes with several owners, as a request, the content that it stores and an entry of a journal. They are
/// stored once. Contracts see the bytes.
#[derive(Drop)]
pub struct SharedBytes {
    bytes: Arc<Bytes>,
}

impl Model for SharedBytes {
    ghost use Rattle.std.specs.Prelude.{List, ℕ};
    ghost use Rattle.std.specs.Arc.{arc_value};

    ghost Value = { List ℕ };

    ghost view = { λ b. arc_value b.bytes };
}

impl SharedBytes {
    /// These bytes, with one owner. An error if memory runs out.
    pub fn new(alloc: Global, bytes: Bytes) -> Result<SharedBytes, AllocError>
        ensures { IfOk result (λ b. b ≡ bytes) }
    {
        let bytes = Arc::new(alloc, bytes)?;
        Ok(SharedBytes { bytes })
    }

    /// The same bytes for one owner more. An error if there are 2^63 owners.
    pub fn share(&self) -> Result<SharedBytes, AllocError>
        ensures { IfOk result (λ b. b ≡ self.now) }
    {
        let bytes = Arc::try_clone(&self.bytes)?;
        Ok(SharedBytes { bytes })
    }

    /// The bytes.
    pub fn as_bytes(&self) -> &Bytes
        ensures { result.now ≡ self.now }
    {
        &self.bytes
    }

    /// The counted block that holds the bytes. No memory is taken.
    pub fn into_arc(self) -> Arc<Bytes>
        ensures { arc_value result ≡ self }
    {
        let SharedBytes { bytes } = self;
        bytes
    }
}
