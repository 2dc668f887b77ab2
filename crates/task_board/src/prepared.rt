//! Requests for which all memory has been taken.

ghost use Rattle.std.specs.Prelude.{◌≡◌};
ghost use Rattle.task_board.specs.Prepared.{refusal_of};
ghost use Rattle.task_board.specs.Inside.Plans.{refusal_in};

use crate::change::Change;
use crate::mark::{Mark, NewBreaks};
use crate::store_change::StoreChange;
use crate::task::Task;
use task_requests::Reply;
use wasm_ast::{Refusal, Text};

/// A request with all the memory that its effect and its reply need. The board that prepared it can
/// apply it without allocating. Dropped, it leaves that board as it was.
#[derive(Drop)]
pub struct Prepared {
    pub(crate) plan: Plan,
}

impl Prepared {
    /// The refusal that `Board::apply` will answer, if it will refuse.
    pub fn refused(&self) -> Option<Refusal>
        ensures { result ≡ refusal_of self.now }
    {
        self.plan.refusal()
    }

    /// Gives up what was prepared: its memory is freed, and the board that prepared it stays as it was.
    pub fn discard(self) {}
}

/// What is to be done.
#[derive(Drop)]
pub enum Plan {
    /// The request is refused.
    Refused(Refusal),
    /// The reply is all.
    Answered(Reply),
    /// The store is changed.
    Store(StoreChange),
    /// A task enters, and its id is answered.
    Create {
        task: Task,
        id: Text,
    },
    /// The task in a slot is changed, and its id answered.
    Change {
        change: Change,
        slot: usize,
        id: Text,
    },
    /// The task in a slot is removed, and its id answered.
    Delete {
        slot: usize,
        id: Text,
    },
    /// The task in a slot gets these breakpoints, and its id is answered.
    Breaks {
        mark: Mark,
        slot: usize,
        id: Text,
        breaks: NewBreaks,
    },
}

impl Plan {
    // The refusal, if it is one.
    fn refusal(&self) -> Option<Refusal>
        ensures { result ≡ refusal_in self.now }
    {
        match self {
            Plan::Refused(refusal) => Some(*refusal),
            _ => None,
        }
    }
}
