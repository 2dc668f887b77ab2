//! The places that a machine's frames are at.

ghost use Rattle.std.specs.Prelude.{◌≡◌, ◌⊎◌, ◌∷◌, ◌++◌, [], All, IfOk, OnOk};
ghost use Rattle.std.specs.List.Sorted.{IsStrictlyIncreasing};
ghost use Rattle.debugger.specs.Inside.KnownPlaces.{HasFrame};

use std::alloc::{AllocError, Global};
use step_machine::Machine;

/// A place of a function.
#[derive(Clone, Copy, PartialEq, Eq, PartialOrd, Ord)]
pub struct FramePlace {
    /// The function, imports counted first.
    pub func: u32,
    /// The place in its body.
    pub place: u32,
}

/// The place of each frame of a machine: those of a function one after the other, in their order. An error if
/// memory runs out.
pub fn frame_places(alloc: Global, machine: &Machine) -> Result<Vec<FramePlace>, AllocError>
    ensures { IfOk result (λ places. All (λ p. HasFrame machine.now.module p.func p.place)
        places.items) }
{
    let mut places = all_places(alloc, machine)?;
    places.sort_unstable();
    Ok(places)
}

// The place of each frame, the innermost first.
fn all_places(alloc: Global, machine: &Machine) -> Result<Vec<FramePlace>, AllocError>
    ensures { IfOk result (λ places. All (λ p. HasFrame machine.now.module p.func p.place)
        places.items) }
{
    let mut places = Vec::new(alloc);
    for index in 0..machine.frame_count() {
        let Some(words) = machine.frame(index) else {
            unreachable!();
        };
        places.push(FramePlace {
            func: words.func(),
            place: words.place(),
        })?;
    }
    Ok(places)
}

/// Adds a place, if it is after all others. An error if memory runs out.
pub fn add_later(places: &mut Vec<u32>, place: u32) -> Result<(), AllocError>
    requires { IsStrictlyIncreasing places.old.items }
    ensures rising { OnOk result (IsStrictlyIncreasing places.new.items) }
    ensures added { OnOk result ((places.new.items ≡ places.old.items)
        ⊎ (places.new.items ≡ places.old.items ++ place ∷ [])) }
{
    let count = places.len();
    if count > 0 && places[count - 1] >= place {
        return Ok(());
    }
    places.push(place)?;
    Ok(())
}
