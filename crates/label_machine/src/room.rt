//! How many locals and operands there are, and how many frames.

ghost use Rattle.std.specs.Prelude.{◌≡◌, ◌+◌, ◌<◌, ◌&&◌, MatchOption, length, nat_le};
ghost use Rattle.std.specs.List.{sum_by};
ghost use Rattle.step_machine.specs.Limits.{max_frames, max_values};
ghost use Rattle.step_machine.specs.Inside.Levels.{values_of, all_values};
ghost use Rattle.label_machine.specs.Inside.View.{level_of};
ghost use Rattle.label_machine.specs.Inside.Runs.{values_below, values_in, levels};

use crate::frame::Frame;
use crate::label::Label;
use crate::run::Run;
use step_machine::{MAX_FRAMES, MAX_VALUES};

/// The room that the operands below these blocks leave; None if they need more than there is.
fn left_by_labels(labels: &[Label], room: usize) -> Option<usize>
    ensures { MatchOption result
        (room < sum_by values_below labels.now)
        (λ left. left + sum_by values_below labels.now ≡ room) }
{
    let mut left = room;
    for label in labels {
        left = left.checked_sub(label.below.len())?;
    }
    Some(left)
}

/// The room that a frame leaves; None if it needs more than there is.
fn left_by_frame(frame: &Frame, room: usize) -> Option<usize>
    ensures { MatchOption result
        (room < values_in frame.now)
        (λ left. left + values_in frame.now ≡ room) }
{
    let left = room.checked_sub(frame.locals.len())?;
    let left = left.checked_sub(frame.operands.len())?;
    left_by_labels(frame.labels.as_slice(), left)
}

/// The room that frames leave; None if they need more than there is.
fn left_by_frames(frames: &[Frame], room: usize) -> Option<usize>
    ensures { MatchOption result
        (room < sum_by values_in frames.now)
        (λ left. left + sum_by values_in frames.now ≡ room) }
{
    let mut left = room;
    for frame in frames {
        left = left_by_frame(frame, left)?;
    }
    Some(left)
}

/// The room that all frames leave; None if they need more than there is.
fn left_by_all(run: &Run) -> Option<usize>
    ensures { MatchOption result
        (max_values < all_values (levels run.now))
        (λ left. left + all_values (levels run.now) ≡ max_values) }
{
    let left = left_by_frame(&run.top, MAX_VALUES)?;
    left_by_frames(run.callers.as_slice(), left)
}

/// Whether there are at most 65,536 locals and operands, and at most 1,024 frames.
pub fn is_within(run: &Run) -> bool
    ensures { result ≡ nat_le (all_values (levels run.now)) max_values
        && nat_le (length (levels run.now)) max_frames }
{
    left_by_all(run).is_some() && run.callers.len() < MAX_FRAMES
}
