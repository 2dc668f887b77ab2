//! Workers in threads of their own.

ghost use Rattle.std.specs.Prelude.{◌≡◌, IfOk};
ghost use Rattle.crossbeam_queue.specs.Passes.{IsPassOf};

use crate::gate::{Gate, OpenGate};
use crate::serving::worker;
use crate::tickets::{Hand, Queue, another_pass, ticket_queue};
use call_journal::{Row, Shim, StartError};
use crossbeam_queue::Pass;
use std::alloc::Global;
use std::sync::Wait;
use std::thread;
use std::thread::Threads;
use task_board::Ticket;
use task_requests::SLICE_TURNS;

/// What workers serve until it is closed. That it may be shared by threads is one bound of a function over
/// this trait, and is shown once, of a shim.
trait Served {
    /// Works until it is closed.
    fn work<G: Gate, H: Wait>(&self, rt: &H, queue: &Queue, pass: Pass<Ticket, Hand>, gate: &G)
        requires { IsPassOf queue.now pass };

    /// Closes it: no machine is lent any more.
    fn close<H: Wait>(&self, rt: &H);
}

impl<J: Row> Served for Shim<J> {
    fn work<G: Gate, H: Wait>(&self, rt: &H, queue: &Queue, pass: Pass<Ticket, Hand>, gate: &G) {
        let mut pass = pass;
        worker(rt, self, queue, &mut pass, gate, SLICE_TURNS);
    }

    fn close<H: Wait>(&self, rt: &H) {
        Shim::close(self, rt);
    }
}

// As `with_gated_workers`, over anything that workers serve.
fn with_workers_of<
    L: Served + Sync,
    H: Threads + Wait + Sync,
    G: Gate + Sync,
    T: Drop,
    F: FnOnce() -> T + Drop,
>(rt: &H, alloc: Global, served: &L, count: u64, gate: &G, run: F) -> Result<T, StartError>
    requires { F.pre run }
    ensures { IfOk result (F.post run) }
{
    let (queue, mut pass) = ticket_queue(alloc)?;
    let queue = &queue;
    thread::scope(
        thread::scope_env(),
        rt,
        move |scope| -> Result<T, StartError>
            requires { F.pre run × IsPassOf queue.now pass }
            ensures { IfOk result (F.post run) }
        {
            let mut pass = pass;
            for _ in 0..count {
                let next = another_pass(queue, &mut pass);
                let thread = scope.spawn(move || served.work(rt, queue, next, gate));
                if thread.is_err() {
                    served.close(rt);
                    return Err(StartError::NoThread);
                }
            }
            let done = run();
            served.close(rt);
            Ok(done)
        },
    )
}

/// Calls `run` while this many workers, each in a thread of its own, run the tasks of the shim by a
/// gate; then closes the shim and waits until each worker has given back the slice that it holds. An
/// error, and `run` was not called, if memory runs out for the queue or a thread cannot be started; in the
/// second case the shim is closed.
pub fn with_gated_workers<
    J: Row + Send + Sync,
    H: Threads + Wait + Sync,
    G: Gate + Sync,
    T: Drop,
    F: FnOnce() -> T + Drop,
>(rt: &H, alloc: Global, shim: &Shim<J>, count: u64, gate: &G, run: F) -> Result<T, StartError>
    requires { F.pre run }
    ensures { IfOk result (F.post run) }
{
    with_workers_of(rt, alloc, shim, count, gate, run)
}

/// As `with_gated_workers`, by the gate that does nothing but run slices.
pub fn with_workers<
    J: Row + Send + Sync,
    H: Threads + Wait + Sync,
    T: Drop,
    F: FnOnce() -> T + Drop,
>(rt: &H, alloc: Global, shim: &Shim<J>, count: u64, run: F) -> Result<T, StartError>
    requires { F.pre run }
    ensures { IfOk result (F.post run) }
{
    with_gated_workers(rt, alloc, shim, count, &OpenGate, run)
}
