//! The queue of tickets, under a rule: what was taken and what it holds is a merge of what was put.

ghost use Rattle.std.specs.Prelude.{◌≡◌, [], ◌∷◌, ◌++◌, IfOk, IfSome, IfNone, MatchOption, MatchBool};
ghost use Rattle.crossbeam_queue.specs.Passes.{view, IsPassOf, ruled_capacity};
ghost use Rattle.slice_workers.specs.Tickets.{hand, max_tickets};

use call_journal::Runnable;
use crossbeam_queue::protocol::{Outcome, Protocol, Split};
use crossbeam_queue::{Pass, RuledArrayQueue};
use std::alloc::{AllocError, Global};
use std::collections::LinkedList;
use task_board::Ticket;

/// How many tickets the queue has room for.
pub const MOST_TICKETS: usize = 64;

/// What the holder of a pass has put and taken. No value of it is made: it is what contracts see of a pass.
pub struct Hand {
    pub put: LinkedList<Ticket>,
    pub taken: LinkedList<Ticket>,
}

/// The rule of the queue.
pub struct Tickets;

impl Protocol<Ticket, Hand> for Tickets {
    ghost use Rattle.std.specs.Prelude.{[]};
    ghost use Rattle.slice_workers.specs.Tickets.{hand, Merged};

    ghost holds = { Merged };

    ghost first = { hand [] [] };
}

/// Another pass, which has put and taken nothing.
pub struct Another;

impl Split<Hand> for Another {
    ghost use Rattle.std.specs.Prelude.{[]};
    ghost use Rattle.slice_workers.specs.Tickets.{hand};

    ghost left = { λ v. v };

    ghost right = { λ v. hand [] [] };
}

/// A ticket was put.
pub struct Puts;

impl Outcome<Ticket, Hand> for Puts {
    ghost then = { λ v x w. w ≡ hand (v.put ++ x ∷ []) v.taken };
}

/// A ticket was taken.
pub struct Takes;

impl Outcome<Ticket, Hand> for Takes {
    ghost then = { λ v x w. w ≡ hand v.put (v.taken ++ x ∷ []) };
}

/// A queue of tickets.
pub type Queue = RuledArrayQueue<Ticket, Hand, Tickets>;

/// An empty queue, and its first pass. An error if it cannot be allocated.
pub fn ticket_queue(alloc: Global) -> Result<(Queue, Pass<Ticket, Hand>), AllocError>
    ensures room { IfOk result (λ q. ruled_capacity q.0 ≡ max_tickets) }
    ensures pass { IfOk result (λ q. IsPassOf q.0 q.1 × (view q.1 ≡ hand [] [])) }
{
    Queue::ruled(alloc, MOST_TICKETS)
}

/// Another pass of the queue, for another worker.
pub fn another_pass(queue: &Queue, pass: &mut Pass<Ticket, Hand>) -> Pass<Ticket, Hand>
    requires { IsPassOf queue.now pass.old }
    ensures another { IsPassOf queue.now result × (view result ≡ hand [] []) }
    ensures same { IsPassOf queue.now pass.new × (view pass.new ≡ view pass.old) }
{
    queue.another::<Another>(pass)
}

/// Puts a ticket at the back. False, and nothing is put, if the queue is full or another thread is using it.
pub fn put_ticket(queue: &Queue, pass: &mut Pass<Ticket, Hand>, ticket: Ticket) -> bool
    requires { IsPassOf queue.now pass.old }
    ensures pass { IsPassOf queue.now pass.new }
    ensures put { let old = view pass.old in MatchBool result
        (view pass.new ≡ hand (old.put ++ ticket ∷ []) old.taken)
        (view pass.new ≡ old) }
{
    queue.try_push_as::<Puts>(pass, ticket).is_ok()
}

/// Takes the ticket at the front. None, and nothing is taken, if there is none or another thread is using
/// the queue.
pub fn next_ticket(queue: &Queue, pass: &mut Pass<Ticket, Hand>) -> Option<Ticket>
    requires { IsPassOf queue.now pass.old }
    ensures pass { IsPassOf queue.now pass.new }
    ensures taken { let old = view pass.old in MatchOption result
        (view pass.new ≡ old)
        (λ x. view pass.new ≡ hand old.put (old.taken ++ x ∷ [])) }
{
    queue.try_pop_as::<Takes>(pass)
}

/// Puts a task at the back. It is given back, and nothing is put, if the queue is full or another thread is
/// using it.
pub fn put_runnable(
    queue: &Queue,
    pass: &mut Pass<Ticket, Hand>,
    task: Runnable,
) -> Option<Runnable>
    requires { IsPassOf queue.now pass.old }
    ensures pass { IsPassOf queue.now pass.new }
    ensures put { let old = view pass.old in
        IfNone result (view pass.new ≡ hand (old.put ++ task ∷ []) old.taken) }
    ensures back { IfSome result (λ t. (t ≡ task) × (view pass.new ≡ view pass.old)) }
{
    let ticket = task.into_ticket();
    if put_ticket(queue, pass, ticket) {
        None
    } else {
        Some(Runnable::of(ticket))
    }
}

/// Takes the task at the front. None, and nothing is taken, if there is none or another thread is using the
/// queue.
pub fn next_runnable(queue: &Queue, pass: &mut Pass<Ticket, Hand>) -> Option<Runnable>
    requires { IsPassOf queue.now pass.old }
    ensures pass { IsPassOf queue.now pass.new }
    ensures taken { let old = view pass.old in MatchOption result
        (view pass.new ≡ old)
        (λ x. view pass.new ≡ hand old.put (old.taken ++ x ∷ [])) }
{
    match next_ticket(queue, pass) {
        Some(ticket) => Some(Runnable::of(ticket)),
        None => None,
    }
}
