//! A worker.

ghost use Rattle.std.specs.Prelude.{◌≡◌, ◌≤◌, length, true};
ghost use Rattle.crossbeam_queue.specs.Passes.{IsPassOf};
ghost use Rattle.task_requests.specs.Limits.{max_budget};

use crate::gate::Gate;
use crate::tickets::{Hand, Queue, next_runnable, put_runnable};
use arrayvec::ArrayString;
use call_journal::{Returned, Row, Runnable, Shim};
use crossbeam_queue::Pass;
use std::sync::Wait;
use task_board::{Loan, Ticket};

/// The most bytes of the id of a task.
const MOST_ID_BYTES: usize = 64;

/// The id of a loan's task, in memory of its own, since the loan is changed while the id is read. No id is
/// longer than there is room for.
fn id_of(loan: &Loan) -> ArrayString<MOST_ID_BYTES>
    ensures { length loan.now.id ≤ 64 → result.bytes ≡ loan.now.id }
{
    let mut id = ArrayString::new();
    let _whole = id.try_push_str(loan.id().as_str());
    id
}

/// Runs a slice of a task, with no lock held. The task, if it is running afterwards; the gate is
/// told if it has ended.
fn run_slice<R: Row, G: Gate, W: Wait>(
    rt: &W,
    shim: &Shim<R>,
    gate: &G,
    task: Runnable,
    budget: u64,
) -> Option<Runnable>
    requires { (1 ≤ budget) × (budget ≤ max_budget) }
{
    let (mut loan, receipt) = shim.take(rt, task, budget)?;
    let id = id_of(&loan);
    gate.slice(id.as_str(), &mut loan);
    match shim.receive(rt, id.as_str(), loan, receipt) {
        Returned::Running(again) => Some(again),
        Returned::Ended(turns, end) => {
            gate.ended(id.as_str(), turns, end);
            None
        }
        Returned::Paused => None,
    }
}

/// A task that is there: that at the front of the queue or the one that has waited longest, the one or the
/// other first.
fn find<R: Row, W: Wait>(
    rt: &W,
    shim: &Shim<R>,
    queue: &Queue,
    pass: &mut Pass<Ticket, Hand>,
    queue_first: bool,
) -> Option<Runnable>
    requires { IsPassOf queue.now pass.old }
    ensures { IsPassOf queue.now pass.new }
{
    if queue_first {
        match next_runnable(queue, pass) {
            Some(task) => Some(task),
            None => shim.next_waiting(rt),
        }
    } else {
        match shim.next_waiting(rt) {
            Some(task) => Some(task),
            None => next_runnable(queue, pass),
        }
    }
}

/// A task to be served. If there is none, sleeps until a machine can be lent; None after the end.
fn find_or_sleep<R: Row, W: Wait>(
    rt: &W,
    shim: &Shim<R>,
    queue: &Queue,
    pass: &mut Pass<Ticket, Hand>,
    queue_first: bool,
) -> Option<Runnable>
    requires { IsPassOf queue.now pass.old }
    ensures { IsPassOf queue.now pass.new }
{
    match find(rt, shim, queue, pass, queue_first) {
        Some(task) => Some(task),
        None => shim.next(rt),
    }
}

/// Puts a task into the queue, or lets it wait for a worker if that does not take it.
fn put_back<R: Row, W: Wait>(
    rt: &W,
    shim: &Shim<R>,
    queue: &Queue,
    pass: &mut Pass<Ticket, Hand>,
    task: Runnable,
)
    requires { IsPassOf queue.now pass.old }
    ensures { IsPassOf queue.now pass.new }
{
    if let Some(task) = put_runnable(queue, pass, task) {
        shim.wait_again(rt, task);
    }
}

/// The task to be served after a slice of one that is running on: another one, if there is one, and then the
/// first goes to a worker that sleeps, or else to the back of the queue.
fn after_slice<R: Row, W: Wait>(
    rt: &W,
    shim: &Shim<R>,
    queue: &Queue,
    pass: &mut Pass<Ticket, Hand>,
    again: Runnable,
    queue_first: bool,
) -> Runnable
    requires { IsPassOf queue.now pass.old }
    ensures { IsPassOf queue.now pass.new }
{
    let Some(other) = find(rt, shim, queue, pass, queue_first) else {
        return again;
    };
    if let Some(again) = shim.offer(rt, again) {
        put_back(rt, shim, queue, pass, again);
    }
    other
}

/// Runs slices of tasks that wait for a worker or are in the queue, in turn, until the end; sleeps
/// while there is none. Each machine that it takes it runs once by the gate, with no lock held, and
/// gives back; a task that is running afterwards goes to a worker that sleeps if there is other
/// work, or else to the back of the queue, or waits if that is full. It returns, if it does, with
/// no machine in its hands.
pub fn worker<R: Row, G: Gate, W: Wait>(
    rt: &W,
    shim: &Shim<R>,
    queue: &Queue,
    pass: &mut Pass<Ticket, Hand>,
    gate: &G,
    budget: u64,
)
    requires budget { (1 ≤ budget) × (budget ≤ max_budget) }
    requires pass { IsPassOf queue.now pass.old }
    ensures pass { IsPassOf queue.now pass.new }
{
    let mut queue_first = false;
    let mut known = None;
    for _ in rt.forever() {
        queue_first = !queue_first;
        let found = match known {
            Some(task) => Some(task),
            None => find_or_sleep(rt, shim, queue, pass, queue_first),
        };
        let Some(task) = found else {
            return;
        };
        known = match run_slice(rt, shim, gate, task, budget) {
            Some(again) => Some(after_slice(rt, shim, queue, pass, again, queue_first)),
            None => None,
        };
    }
    unreachable!()
}
