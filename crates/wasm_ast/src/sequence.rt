//! Lists that contracts see as their items, whatever their capacity.

ghost use Rattle.std.specs.Prelude.{◌≡◌, ◌↔◌, All, IsTrue, IfOk, length};
ghost use Rattle.wasm_ast.specs.Ranged.{IsU32};

use std::alloc::{AllocError, Global};
use std::boxed::Box;
use std::marker::Model;

/// A list of items. Contracts see the items in their order, and not the spare capacity.
#[derive(Drop)]
pub struct Sequence<T> {
    items: Vec<T>,
}

/// A list of bytes.
pub type Bytes = Sequence<u8>;

impl<T> Model for Sequence<T> {
    ghost use Rattle.std.specs.Prelude.{List};

    ghost Value = { List T };

    ghost view = { λ s. s.items.items };
}

impl<T> Sequence<T> {
    /// The list of these items. No memory is taken.
    pub fn new(items: Vec<T>) -> Sequence<T>
        ensures { result ≡ items.items }
    {
        Sequence { items }
    }

    /// The items.
    pub fn as_slice(&self) -> &[T]
        ensures { result.now ≡ self.now }
    {
        self.items.as_slice()
    }

    /// How many items there are.
    pub fn len(&self) -> usize
        ensures { result ≡ length self.now }
    {
        self.as_slice().len()
    }

    /// Gives the items back. No memory is taken.
    pub fn into_vec(self) -> Vec<T>
        ensures { result.items ≡ self }
    {
        let Sequence { items } = self;
        items
    }
}

impl Sequence<u8> {
    /// The same bytes, in memory of their own. An error if memory runs out.
    pub fn copy(&self, alloc: Global) -> Result<Bytes, AllocError>
        ensures { IfOk result (λ b. b ≡ self.now) }
    {
        Ok(Sequence {
            items: Vec::from_slice(alloc, self.as_slice())?,
        })
    }

    /// Whether both have the same bytes.
    pub fn is(&self, other: &Bytes) -> bool
        ensures { IsTrue result ↔ (self.now ≡ other.now) }
    {
        self.as_slice() == other.as_slice()
    }
}

/// A list of labels. Contracts see the labels in their order.
#[derive(Drop)]
pub struct Labels {
    // A pointer, so that an instruction with labels is no larger than others.
    list: Box<Vec<u32>>,
}

impl Model for Labels {
    ghost use Rattle.std.specs.Prelude.{List, ℕ};

    ghost Value = { List ℕ };

    ghost view = { λ l. l.list.value.items };
}

impl Labels {
    /// The list of these labels. It takes memory for the vector's pointer and its two lengths. An error
    /// if memory runs out.
    pub fn new(alloc: Global, list: Vec<u32>) -> Result<Labels, AllocError>
        ensures { IfOk result (λ l. l ≡ list.items) }
    {
        Ok(Labels {
            list: Box::new(alloc, list)?,
        })
    }

    /// The labels.
    pub fn as_slice(&self) -> &[u32]
        ensures { result.now ≡ self.now }
    {
        self.list.as_slice()
    }
}

/// Shows that indices are in the range of their type.
pub fn indices_ranged(indices: &[u32])
    ensures { All IsU32 indices.now }
{
    for index in indices {
        let _in_range = *index;
    }
}
