//! Laws of the lifecycle. Each function is nothing but its contract.

ghost use Rattle.std.specs.Prelude.{◌≡◌, ℕ, Some, true, false};
ghost use Rattle.task_lifecycle.specs.declared.lifecycle.Situation.{Situation as SituationValue};
ghost use Rattle.task_lifecycle.specs.declared.lifecycle.TaskCall.{TaskCall as CallValue};
ghost use Rattle.task_lifecycle.specs.declared.status.Signal.{Signal as SignalValue};
ghost use Rattle.task_lifecycle.specs.declared.status.Status.{Status as StatusValue};
ghost use Rattle.task_lifecycle.specs.Lifecycle.{allowed, after, takes_turns, is_going};
ghost use Rattle.task_lifecycle.specs.Names.{exit_status, signal_number, signal_of};

use crate::lifecycle::TaskCall;
use crate::status::{ExitRecord, Signal, Status};

/// The exit status of a task that was killed is 128 plus the number of the signal.
pub fn kills_exit_by_their_signal()
    ensures kill { exit_status (ExitRecord.Kill Signal.Kill) ≡ 137 }
    ensures terminate { exit_status (ExitRecord.Kill Signal.Terminate) ≡ 143 }
{}

/// A signal is found by its number.
pub fn signals_have_their_numbers()
    ensures { (s : SignalValue) → signal_of (signal_number s) ≡ Some s }
{}

/// No call that is allowed once a task is stopped leads it out of that status.
pub fn stopped_tasks_stay_stopped()
    ensures { (c : CallValue) (at : SituationValue) → allowed c Status.Stopped ≡ true
        → after c at Status.Stopped ≡ Status.Stopped }
{}

/// A task that goes on is not started again, nor removed, and may always be killed.
pub fn going_tasks_are_started()
    ensures start { (s : StatusValue) → is_going s ≡ true → allowed TaskCall.Start s ≡ false }
    ensures delete { (s : StatusValue) → is_going s ≡ true → allowed TaskCall.Delete s ≡ false }
    ensures kill { (s : StatusValue) → is_going s ≡ true → allowed TaskCall.Kill s ≡ true }
{}

/// A kill in flight leaves the status; a pause in flight leads to a status in which turns are still made.
pub fn calls_in_flight_keep_the_slice()
    ensures kill { (at : SituationValue) (s : StatusValue) → at.out ≡ true
        → after TaskCall.Kill at s ≡ s }
    ensures pause { (at : SituationValue) (s : StatusValue) → at.out ≡ true
        → takes_turns (after TaskCall.Pause at s) ≡ true }
{}
