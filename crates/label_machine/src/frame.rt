//! Frames (4.2.12).

ghost use Rattle.std.specs.Prelude.{◌≡◌, ◌++◌, IfOk, take};
ghost use Rattle.label_machine.specs.Inside.View.{open_of, goes_to, level_of};

use crate::label::{Ahead, Label};
use crate::pile::Pile;
use std::alloc::{AllocError, Global};
use wasm_ast::Value;

/// A frame: how many values it gives, its function, imports counted first, its locals, its open blocks,
/// the operands of the innermost, and what follows there.
#[derive(Drop)]
pub struct Frame<'m> {
    pub arity: usize,
    pub func: u32,
    pub locals: Vec<Value>,
    pub labels: Pile<Label<'m>>,
    pub operands: Pile<Value>,
    pub ahead: Ahead<'m>,
}

/// The end of the innermost block, whose label is no longer in the frame: its operands go on those
/// below, and what follows it is next (4.4.6).
pub fn leave_block<'m>(frame: Frame<'m>, label: Label<'m>) -> Result<Frame<'m>, AllocError>
    ensures { IfOk result (λ f. level_of f ≡ record (level_of frame.entry) {
      operands = frame.entry.operands ++ label.entry.below;
      place = (open_of label.entry).next_place;
      rest = (open_of label.entry).rest;
    }) }
{
    let ahead = label.after();
    let mut operands = label.below;
    operands.put(&frame.operands)?;
    Ok(Frame {
        arity: frame.arity,
        func: frame.func,
        locals: frame.locals,
        labels: frame.labels,
        operands,
        ahead,
    })
}

/// A branch to the innermost label, which is no longer in the frame (4.4.5).
pub fn branch_to<'m>(
    alloc: Global,
    mut frame: Frame<'m>,
    label: Label<'m>,
) -> Result<Frame<'m>, AllocError>
    ensures { IfOk result (λ f. level_of f ≡ record (level_of frame.entry) {
      operands = take label.entry.arity frame.entry.operands ++ label.entry.below;
      place = (goes_to label.entry.place label.entry.target).0;
      rest = (goes_to label.entry.place label.entry.target).1;
    }) }
{
    let ahead = label.back();
    let taken = frame.operands.take(alloc, label.arity)?;
    let mut operands = label.below;
    operands.put(&taken)?;
    Ok(Frame {
        arity: frame.arity,
        func: frame.func,
        locals: frame.locals,
        labels: frame.labels,
        operands,
        ahead,
    })
}
