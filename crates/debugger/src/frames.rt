//! Frames.

ghost use Rattle.std.specs.Prelude.{◌≡◌, IfOk, OnErr, Err};
ghost use Rattle.wasm_ast.specs.declared.module.Module.{Module as ModuleValue};
ghost use Rattle.wasm_ast.specs.declared.refusal.Refusal.TheVariants as refusal;
ghost use Rattle.wasm_ast.specs.declared.shown.ShownFrame.{ShownFrame as ShownValue};
ghost use Rattle.step_machine.specs.MachineView.{state_of};
ghost use Rattle.step_machine.specs.Shown.{shown};
ghost use Rattle.debugger.specs.Inside.KnownPlaces.{IsThere};

use crate::known_places::{KnownPlace, known_at, known_of_frames};
use crate::shown::Shown;
use crate::values::values_from;
use std::alloc::{AllocError, Global};
use step_machine::{FrameWords, Machine};
use wasm_ast::{Refusal, Sequence, ShownFrame};

/// The frames of a machine, the innermost first; none if it has ended. `NoMemory` if memory for them
/// cannot be allocated. The open blocks and the types of the operands are found by two walks of the
/// body of each function that has frames: the time is linear in these bodies, in the blocks that
/// are open where the frames are, and in the values.
pub fn inspect(alloc: Global, machine: &Machine) -> Result<Shown, Refusal>
    ensures frames { IfOk result (λ s. s.frames ≡ shown (state_of machine.now)) }
    ensures err { OnErr result (result ≡ Err refusal.NoMemory) }
{
    let count = machine.frame_count();
    let mut known = known_of_frames(alloc, machine)?;
    let mut frames = Vec::with_capacity(alloc, count)?;
    for index in 0..count {
        let Some(words) = machine.frame(index) else {
            unreachable!();
        };
        let at = known_at(
            alloc,
            machine.flat(),
            &mut known,
            words.func(),
            words.place(),
        )?;
        frames.push_reserved(shown_frame(alloc, &known[at], &words)?);
    }
    let frames = Sequence::new(frames);
    Ok(Shown { frames })
}

// A frame at a place, of which these are the words. An error if memory for it cannot be allocated.
fn shown_frame(
    alloc: Global,
    known: &KnownPlace,
    words: &FrameWords<'_>,
) -> Result<ShownFrame, AllocError>
    requires { (m : ModuleValue) × (f : ShownValue) × IsThere m known.now words.now f }
    ensures { IfOk result (λ s. (m : ModuleValue) (f : ShownValue)
        → IsThere m known.now words.now f → s ≡ f) }
{
    let locals = values_from(alloc, words, 0, known.locals.as_slice())?;
    let operands = values_from(alloc, words, locals.len(), known.operands.as_slice())?;
    let labels = Vec::from_slice(alloc, known.blocks.as_slice())?;
    Ok(ShownFrame {
        func: known.func,
        next: words.next(),
        labels: Sequence::new(labels),
        locals: Sequence::new(locals),
        operands: Sequence::new(operands),
    })
}
