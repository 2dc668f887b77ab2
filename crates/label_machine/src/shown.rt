//! The frames of the machine as a person sees them, read off its labels.

ghost use Rattle.std.specs.Prelude.{◌≡◌, ◌++◌, ◌∷◌, [], IfOk, OnOk, map, reverse};
ghost use Rattle.step_machine.specs.Configuration.{items_of};
ghost use Rattle.step_machine.specs.Shown.{next_of};
ghost use Rattle.step_machine.specs.Inside.Levels.{Open, below_all};
ghost use Rattle.step_machine.specs.Inside.ShownLevels.{next_outside, level_frame};
ghost use Rattle.label_machine.specs.Inside.Runs.{levels};
ghost use Rattle.label_machine.specs.Inside.View.{open_of, level_of, ops_in};

use crate::frame::Frame;
use crate::label::{Ahead, Label};
use crate::pile::Pile;
use crate::run::Run;
use std::alloc::{AllocError, Global};
use wasm_ast::{Sequence, ShownFrame, Value};

fn push<T>(list: &mut Vec<T>, item: T) -> Result<(), AllocError>
where
    T: Drop,
    ensures { OnOk result (list.new.items ≡ list.old.items ++ item ∷ []) }
{
    list.push(item)?;
    Ok(())
}

// The places of open blocks, the innermost first, of labels that have the outermost first.
fn places_of<'m>(alloc: Global, labels: &[Label<'m>]) -> Result<Vec<u32>, AllocError>
    ensures { IfOk result (λ v. v.items
        ≡ map (λ (o : Open). o.place) (map open_of (reverse labels.now))) }
{
    let mut places = Vec::new(alloc);
    let mut left = labels;
    while let [outer @ .., label] = left {
        push(&mut places, label.place())?;
        left = outer;
    }
    Ok(places)
}

// Pushes the operands below the blocks that are open, the oldest first, of labels that have the
// outermost first.
fn push_below<'m>(out: &mut Vec<Value>, labels: &[Label<'m>]) -> Result<(), AllocError>
    ensures { OnOk result (out.new.items
        ≡ out.old.items ++ reverse (below_all (map open_of (reverse labels.now)))) }
{
    match labels.split_first() {
        Some((label, inner)) => {
            out.extend_from_slice(label.below.as_slice())?;
            push_below(out, inner)
        }
        None => Ok(()),
    }
}

// The operands of all blocks, the oldest first.
fn operands_of<'m>(
    alloc: Global,
    labels: &[Label<'m>],
    operands: &Pile<Value>,
) -> Result<Vec<Value>, AllocError>
    ensures { IfOk result (λ v. v.items
        ≡ reverse (operands.now ++ below_all (map open_of (reverse labels.now)))) }
{
    let mut all = Vec::new(alloc);
    push_below(&mut all, labels)?;
    all.extend_from_slice(operands.as_slice())?;
    Ok(all)
}

// The place of the instruction that is next, found through the ends of blocks; None at the frame's end.
fn next_place<'m>(ahead: Ahead<'m>, labels: &[Label<'m>]) -> Option<u32>
    ensures { result ≡ next_of (items_of ahead.entry.place (ops_in ahead.entry.rest.now))
        (next_outside (map open_of (reverse labels.now))) }
{
    if !ahead.rest.is_empty() {
        return Some(ahead.place);
    }
    match labels.split_last() {
        Some((label, outer)) => next_place(label.after(), outer),
        None => None,
    }
}

// A frame as it is shown.
fn shown_frame<'m>(alloc: Global, frame: &Frame<'m>) -> Result<ShownFrame, AllocError>
    ensures { IfOk result (λ s. s ≡ level_frame (level_of frame.now)) }
{
    let labels = frame.labels.as_slice();
    let operands = operands_of(alloc, labels, &frame.operands)?;
    let next = next_place(frame.ahead, labels);
    let places = places_of(alloc, labels)?;
    let locals = Vec::from_slice(alloc, frame.locals.as_slice())?;
    Ok(ShownFrame {
        func: frame.func,
        next,
        labels: Sequence::new(places),
        locals: Sequence::new(locals),
        operands: Sequence::new(operands),
    })
}

/// The frames of an execution, the innermost first. An error if memory for them cannot be allocated.
pub fn shown_frames<'m>(alloc: Global, run: &Run<'m>) -> Result<Vec<ShownFrame>, AllocError>
    ensures { IfOk result (λ v. v.items ≡ map level_frame (levels run.now)) }
{
    let mut frames = Vec::new(alloc);
    push(&mut frames, shown_frame(alloc, &run.top)?)?;
    let mut left = run.callers.as_slice();
    while let [outer @ .., frame] = left {
        push(&mut frames, shown_frame(alloc, frame)?)?;
        left = outer;
    }
    Ok(frames)
}
