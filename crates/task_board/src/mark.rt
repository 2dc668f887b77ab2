//! Breakpoints that come and go.

ghost use Rattle.std.specs.Prelude.{◌≡◌, ◌<◌, ◌≤◌, ◌++◌, ◌∷◌, [], IfOk, filter, length, vec_len};
ghost use Rattle.std.specs.Arc.{arc_value};
ghost use Rattle.step_machine.specs.Limits.{max_breakpoints};
ghost use Rattle.task_board.specs.Tasks.{is_other};
ghost use Rattle.task_board.specs.Inside.Marks.{mark_call, mark_reply, marked_places};

use std::alloc::{AllocError, Global};
use std::sync::Arc;
use step_machine::Breaks;
use task_lifecycle::TaskCall;
use task_requests::Reply;
use wasm_ast::{Place, Text};

/// A breakpoint that a request sets or removes.
#[derive(Clone, Copy, PartialEq, Eq, Debug)]
pub enum Mark {
    Set(Place),
    Remove(Place),
}

/// Breakpoints for a task and for what goes with its slices.
#[derive(Drop)]
pub struct NewBreaks {
    pub own: Arc<Breaks>,
    pub lent: Arc<Breaks>,
}

impl NewBreaks {
    // Breakpoints at these places. An error if memory runs out.
    fn at(alloc: Global, places: Vec<Place>) -> Result<NewBreaks, AllocError>
        requires { vec_len places ≤ max_breakpoints }
        ensures { IfOk result
            (λ b. (arc_value b.own ≡ places.items) × (arc_value b.lent ≡ places.items)) }
    {
        let own = Arc::new(alloc, Breaks::new(places))?;
        let lent = Arc::try_clone(&own)?;
        Ok(NewBreaks { own, lent })
    }
}

impl Mark {
    /// The call that it is.
    pub fn call(self) -> TaskCall
        ensures { result ≡ mark_call self }
    {
        match self {
            Mark::Set(_) => TaskCall::Break,
            Mark::Remove(_) => TaskCall::Unbreak,
        }
    }

    /// What it is answered.
    pub fn reply(self, id: Text) -> Reply
        ensures { result ≡ mark_reply self id }
    {
        match self {
            Mark::Set(_) => Reply::Break { id },
            Mark::Remove(_) => Reply::Unbreak { id },
        }
    }

    // The breakpoints after it. An error if memory runs out.
    fn places(self, alloc: Global, breaks: &[Place]) -> Result<Vec<Place>, AllocError>
        ensures { IfOk result (λ v. v.items ≡ marked_places self breaks.now) }
    {
        match self {
            Mark::Set(place) => with_place(alloc, breaks, place),
            Mark::Remove(place) => without_place(alloc, breaks, place),
        }
    }

    /// The breakpoints after it, for a task and for what goes with its slices. An error if memory runs
    /// out.
    pub fn breaks(self, alloc: Global, breaks: &Breaks) -> Result<NewBreaks, AllocError>
        requires { length (marked_places self breaks.now) ≤ max_breakpoints }
        ensures { IfOk result (λ b. (arc_value b.own ≡ marked_places self breaks.now)
            × (arc_value b.lent ≡ marked_places self breaks.now)) }
    {
        let places = self.places(alloc, breaks.as_slice())?;
        NewBreaks::at(alloc, places)
    }
}

// The places with one more, after all others.
fn with_place(alloc: Global, places: &[Place], place: Place) -> Result<Vec<Place>, AllocError>
    ensures { IfOk result (λ v. v.items ≡ places.now ++ place ∷ []) }
{
    let mut more = Vec::from_slice(alloc, places)?;
    more.push(place)?;
    Ok(more)
}

// The places without one.
fn without_place(alloc: Global, places: &[Place], place: Place) -> Result<Vec<Place>, AllocError>
    ensures { IfOk result (λ v. v.items ≡ filter (is_other place) places.now) }
{
    let mut left = Vec::from_slice(alloc, places)?;
    left.retain(
        |other: &Place| -> bool
            ensures { result ≡ is_other place other.now }
        { *other != place },
    );
    Ok(left)
}
