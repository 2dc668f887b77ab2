//! The blocks that are open in a frame (4.2.13).

ghost use Rattle.std.specs.Prelude.{◌≡◌, ◌<◌, ◌^◌, List, ℕ};
ghost use Rattle.wasm_ast.specs.declared.values.Value.{Value as AnyValue};
ghost use Rattle.label_machine.specs.Inside.Places.{first_end, repeated};

use crate::pile::Pile;
use crate::places::places_of;
use wasm_ast::{Instr, Value};

/// Where execution goes on: instructions, of which the first has this place.
#[derive(Clone, Copy)]
pub struct Ahead<'m> {
    pub place: u32,
    pub rest: &'m [Instr],
}

/// What a branch to a label goes on with.
#[derive(Clone, Copy)]
pub enum Target<'m> {
    /// What follows the block.
    After(Ahead<'m>),
    /// The loop itself: the instructions from it on.
    Again(&'m [Instr]),
}

/// An open block: how many values a branch to its label takes, its place, what such a branch goes on
/// with, and the operands below it. What follows a loop has a place of 32 bits too.
#[derive(Drop)]
pub struct Label<'m> {
    pub arity: usize,
    pub place: u32,
    pub target: Target<'m>,
    pub below: Pile<Value>,
    ghost fits: { first_end place (repeated target) < 2 ^ 32 },
}

impl<'m> Label<'m> {
    ghost use Rattle.label_machine.specs.Inside.View.{looped, open_of, goes_to, ops_in};

    /// The place of the block.
    pub fn place(&self) -> u32
        ensures { result ≡ (open_of self.now).place }
    {
        self.place
    }

    /// What follows the block.
    pub fn after(&self) -> Ahead<'m>
        ensures { (result.place ≡ (open_of self.now).next_place)
            × (ops_in result.rest.now ≡ (open_of self.now).rest) }
    {
        match self.target {
            Target::After(ahead) => ahead,
            Target::Again(instrs) => Label::after_first(self.place, instrs),
        }
    }

    // What follows the first of these instructions, which has this place.
    fn after_first(place: u32, instrs: &'m [Instr]) -> Ahead<'m>
        requires fits { first_end place instrs.now < 2 ^ 32 }
        ensures { (n : ℕ) (below : List AnyValue)
            → (result.place ≡ (looped n place below instrs.now).next_place)
            × (ops_in result.rest.now ≡ (looped n place below instrs.now).rest) }
    {
        match instrs.split_first() {
            Some((first, rest)) => Ahead {
                place: place + places_of(first).unwrap(),
                rest,
            },
            None => Ahead {
                place,
                rest: instrs,
            },
        }
    }

    /// What a branch to the label goes on with.
    pub fn back(&self) -> Ahead<'m>
        ensures { (result.place, ops_in result.rest.now) ≡ goes_to self.now.place self.now.target }
    {
        match self.target {
            Target::After(ahead) => ahead,
            Target::Again(instrs) => Ahead {
                place: self.place,
                rest: instrs,
            },
        }
    }
}
