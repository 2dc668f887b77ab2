//! Lists that grow and shrink at one end.

ghost use Rattle.std.specs.Prelude.{◌≡◌, ◌∷◌, ◌++◌, [], OnOk, IfOk, MatchOption, length, take, drop, reverse};

use std::alloc::{AllocError, Global};
use std::marker::Model;
use wasm_ast::Value;

/// A list of which the newest item is at hand. Contracts see the newest first.
#[derive(Drop)]
pub struct Pile<T> {
    items: Vec<T>,
}

impl<T> Model for Pile<T> {
    ghost use Rattle.std.specs.Prelude.{List, reverse};

    ghost Value = { List T };

    ghost view = { λ p. reverse p.items.items };
}

impl<T> Pile<T> {
    /// No items. No memory is taken.
    pub fn new(alloc: Global) -> Pile<T>
        ensures { result ≡ [] }
    {
        Pile {
            items: Vec::new(alloc),
        }
    }

    /// Adds an item.
    pub fn push(&mut self, item: T) -> Result<(), AllocError>
    where
        T: Drop,
        ensures { OnOk result (self.new ≡ item ∷ self.old) }
    {
        self.items.push(item)?;
        Ok(())
    }

    /// Takes the newest item; None if there is none.
    pub fn pop(&mut self) -> Option<T>
        ensures { MatchOption result (self.old ≡ []) (λ item. self.old ≡ item ∷ self.new) }
    {
        self.items.pop()
    }

    /// The items, the oldest first.
    pub fn as_slice(&self) -> &[T]
        ensures { reverse result.now ≡ self.now }
    {
        self.items.as_slice()
    }

    /// How many items there are.
    pub fn len(&self) -> usize
        ensures { result ≡ length self.now }
    {
        self.items.len()
    }
}

impl Pile<Value> {
    /// Takes the newest of the values, this many, as a pile of their own; all of them if there are not as
    /// many.
    pub fn take(&mut self, alloc: Global, count: usize) -> Result<Pile<Value>, AllocError>
        ensures taken { IfOk result (λ top. top ≡ take count self.old) }
        ensures left { OnOk result (self.new ≡ drop count self.old) }
    {
        let items = self.items.as_slice();
        let left = items.len().saturating_sub(count);
        let top = Vec::from_slice(alloc, &items[left..])?;
        self.items.truncate(left);
        Ok(Pile { items: top })
    }

    /// Puts values on these, in their order.
    pub fn put(&mut self, above: &Pile<Value>) -> Result<(), AllocError>
        ensures { OnOk result (self.new ≡ above.now ++ self.old) }
    {
        self.items.extend_from_slice(above.items.as_slice())
    }

    /// The values, the oldest first.
    pub fn into_oldest_first(self) -> Vec<Value>
        ensures { result.items ≡ reverse self }
    {
        let Pile { items } = self;
        items
    }
}
