//! The shim: the book under a lock, and the cells beside it.
ghost use Rattle.std.specs.Prelude.{◌≡◌, ◌≢◌, ◌≤◌, ◌+◌, [], length, option_map, slice_get, true, false, Err, IfSome, OnErr};
ghost use Rattle.std.specs.Ordering.{nat_cmp};
ghost use Rattle.task_requests.specs.declared.request.Request.TheVariants as request;
ghost use Rattle.task_requests.specs.declared.request.Ask.TheVariants as ask;
ghost use Rattle.task_requests.specs.Limits.{max_budget};
ghost use Rattle.call_journal.specs.Books.{is_journalled, settles};
ghost use Rattle.call_journal.specs.Desks.{AreIdle, spot_names};
ghost use Rattle.call_journal.specs.Fronts.{Begins};
ghost use Rattle.call_journal.specs.Seats.{most_seats, Extends};

use crate::book::Book;
use crate::cells::Cells;
use crate::desk::Desk;
use crate::entry::Entry;
use crate::receipt::Receipt;
use crate::returned::Returned;
use crate::row::Row;
use crate::runnable::Runnable;
use crate::seat::Seat;
use crate::shared::Shared;
use std::alloc::Global;
use std::cmp::Ordering;
use std::sync::ledger::Blank;
use std::sync::{Condvar, Mutex, Wait};
use task_board::{ExitRecord, Loan, Reply, Request, Status};
use wasm_ast::{Refusal, Text};

// Whether a call that was answered so has left its task paused or stopped: a pause or a kill of an idle task.
fn settles(answer: &Result<Reply, Refusal>) -> bool
    ensures { result ≡ settles answer.now }
{
    match answer {
        Ok(Reply::Pause { status, .. }) | Ok(Reply::Kill { status, .. }) => {
            matches!(status, Status::Paused | Status::Stopped)
        }
        _ => false,
    }
}

/// A shim: a book that callers and workers share, and the cells that hold its journal.
//
// Who sleeps, until when, what makes that true, and where it is told. A task has settled if it is created,
// paused, stopped or gone.
//
// | Sleeps | Until | Made true by | Told in |
// |---|---|---|---|
// | a caller, in `wait` | its task has settled | pause or kill of an idle task | `call_quietly` |
// | | | the return of a slice, if the task stops or pauses | `give_back`, `receive` |
// | | the journal is full | the call that fills it | `call_quietly`, `wait` |
// | a worker, in `next` | a task waits for it | start, resume | `call`; next call, `wake`, `wait` |
// | | | a ticket that is put back | `offer`, `wait_again` |
// | both | the shim is closed | `close` | `close` |
pub struct Shim<R: Row> {
    cells: Cells,
    shared: Mutex<Shared<R>>,
    // Callers sleep here.
    settled: Condvar,
    // Workers sleep here.
    waiting: Condvar,
    ghost row: { cells ≡ R.cells },
}

// Not derived: so the crates above prove a call, and not the drop of each part again.
impl<R: Row> Drop for Shim<R> {
    fn drop(self) {
        let Shim {
            cells: _,
            shared: _,
            settled: _,
            waiting: _,
        } = self;
    }
}

impl<R: Row> Shim<R> {
    /// A shim over these cells and this desk, with an empty board. `NoMemory` if that cannot be allocated.
    pub fn new(alloc: Global, cells: Cells, desk: Desk, blank: Blank) -> Result<Shim<R>, Refusal>
        requires row { cells ≡ R.cells }
        requires places { spot_names desk ≡ R.slots }
        requires idle { AreIdle desk }
        requires name { blank.name ≡ R.name }
        requires parts { (blank.parts ≡ R.parts) × (blank.parts ≡ most_seats + 1) }
        ensures err { OnErr result (result ≡ Err Refusal.NoMemory) }
    {
        let book = Book::new(alloc, desk, blank)?;
        Ok(Shim {
            cells,
            shared: Mutex::new(Shared::new(book)),
            settled: Condvar::new(),
            waiting: Condvar::new(),
        })
    }

    /// A seat with a number of its own, which has seen nothing. None if the numbers are used up.
    pub fn seat<W: Wait>(&self, rt: &W) -> Option<Seat<R>>
        ensures { IfSome result (λ s. (s.history ≡ []) × (s.share ≡ 0)) }
    {
        self.shared.lock(rt).book.seat()
    }

    /// Makes a call, and gives the seat back. The answers JournalFull, NoMemory, Closed and JournalFault
    /// change nothing; the seat's history goes on to every other.
    pub fn call<W: Wait>(
        &self,
        rt: &W,
        seat: Seat<R>,
        request: Request,
    ) -> (Seat<R>, Result<Reply, Refusal>)
        ensures called { is_journalled result.1 ≡ true → Extends seat result.0 request result.1 }
        ensures same { is_journalled result.1 ≡ false → result.0 ≡ seat }
    {
        let answered = self.call_quietly(rt, seat, request);
        self.wake(rt);
        answered
    }

    /// As `call`, but no worker is told of a task that this call starts: the next call, `wake` and `wait`
    /// do that. It is for a caller that has its next call at hand, which may be a wait for that task.
    pub fn call_quietly<W: Wait>(
        &self,
        rt: &W,
        mut seat: Seat<R>,
        request: Request,
    ) -> (Seat<R>, Result<Reply, Refusal>)
        ensures called { is_journalled result.1 ≡ true → Extends seat result.0 request result.1 }
        ensures same { is_journalled result.1 ≡ false → result.0 ≡ seat }
    {
        let mut shared = self.shared.lock(rt);
        self.tell_worker(&shared);
        let answer = shared.book.call(&self.cells, &mut seat, request);
        self.tell_settled(&shared, &answer);
        (seat, answer)
    }

    // Tells the callers that sleep, if a call that was answered so may have made a wait due: by the lifecycle
    // only a pause or a kill of an idle task does, and any call that fills the journal.
    fn tell_settled(&self, shared: &Shared<R>, answer: &Result<Reply, Refusal>) {
        if settles(answer) || shared.book.is_full() {
            self.tell_callers(shared);
        }
    }

    // Tells the callers that sleep that a wait may be due.
    fn tell_callers(&self, shared: &Shared<R>) {
        if shared.callers > 0 {
            self.settled.notify_all();
        }
    }

    // Tells a worker that sleeps, if there is one, that a task waits for it, if one does.
    fn tell_worker(&self, shared: &Shared<R>) {
        if shared.workers > 0 && shared.book.board().has_waiting() {
            self.waiting.notify_one();
        }
    }

    /// Wakes a worker if a task waits for one and one sleeps.
    pub fn wake<W: Wait>(&self, rt: &W) {
        let shared = self.shared.lock(rt);
        self.tell_worker(&shared);
    }

    /// Waits until the task with an id is created, paused or stopped, or is not there, the journal
    /// is full, or the shim is closed; then makes the call `wait` once, without letting go of the
    /// lock in between. It is not answered Busy.
    pub fn wait<W: Wait>(
        &self,
        rt: &W,
        mut seat: Seat<R>,
        id: Text,
    ) -> (Seat<R>, Result<Reply, Refusal>)
        ensures called { is_journalled result.1 ≡ true
            → Extends seat result.0 (request.Task id ask.Wait) result.1 }
        ensures same { is_journalled result.1 ≡ false → result.0 ≡ seat }
        ensures answered { result.1 ≢ Err Refusal.Busy }
    {
        let mut shared = self.shared.lock(rt);
        self.tell_worker(&shared);
        shared.callers = shared.callers.wrapping_add(1);
        let mut shared = self.settled.wait_while(rt, shared, |s| !s.book.is_due(&id));
        shared.callers = shared.callers.wrapping_sub(1);
        let answer = shared.book.call_due(&self.cells, &mut seat, id);
        self.tell_settled(&shared, &answer);
        (seat, answer)
    }

    /// Runs a slice of at most `budget` turns of the task with an id, if that waits for a worker,
    /// with no lock held meanwhile. A caller that is about to wait for a short task need not sleep
    /// then until a worker has woken. How many turns the task has made, and how it has ended, if it
    /// ended in this slice.
    pub fn run_waiting<W: Wait>(&self, rt: &W, id: &Text, budget: u64) -> Option<(u64, ExitRecord)>
        requires { (1 ≤ budget) × (budget ≤ max_budget) }
    {
        let (mut loan, receipt) = self.take_waiting(rt, id, budget)?;
        loan.run();
        match self.receive(rt, id.as_str(), loan, receipt) {
            Returned::Running(task) => {
                self.wait_again(rt, task);
                None
            }
            Returned::Ended(turns, end) => Some((turns, end)),
            Returned::Paused => None,
        }
    }

    // Lends the machine of the task with an id, as `Book::take_waiting` does.
    fn take_waiting<W: Wait>(&self, rt: &W, id: &Text, budget: u64) -> Option<(Loan, Receipt<R>)>
        requires { (1 ≤ budget) × (budget ≤ max_budget) }
        ensures id { IfSome result (λ p. p.0.id ≡ id.now) }
        ensures loan { IfSome result (λ p. (p.0.ran ≡ false) × (p.0.budget ≡ budget)) }
        ensures receipt { IfSome result (λ p. p.1 ≡ p.0) }
    {
        self.shared.lock(rt).book.take_waiting(id, budget)
    }

    /// The entry, exactly if the seat has seen it. It takes no lock.
    pub fn entry(&self, seat: &Seat<R>, i: usize) -> Option<&Entry>
        ensures { option_map (λ e. e.now) result ≡ slice_get seat.now.history i }
    {
        seat.entry(&self.cells, i)
    }

    /// Compares how much two seats have seen. The history of one begins that of the other. It takes no lock.
    pub fn meet(&self, one: &Seat<R>, other: &Seat<R>) -> Ordering
        ensures order { result ≡ nat_cmp (length one.now.history) (length other.now.history) }
        ensures first { length one.now.history ≤ length other.now.history
            → Begins one.now.history other.now.history }
        ensures second { length other.now.history ≤ length one.now.history
            → Begins other.now.history one.now.history }
    {
        let _ = self;
        one.meet(other)
    }

    /// Lends the machine of a task for a slice of at most `budget` turns, as `Book::take` does.
    pub fn take<W: Wait>(&self, rt: &W, task: Runnable, budget: u64) -> Option<(Loan, Receipt<R>)>
        requires { (1 ≤ budget) × (budget ≤ max_budget) }
        ensures { IfSome result (λ p. (p.0.ran ≡ false) × (p.0.budget ≡ budget) × (p.1 ≡ p.0)) }
    {
        self.shared.lock(rt).book.take(task, budget)
    }

    /// Takes back the machine of a loan that has been run, as `Book::give_back` does.
    pub fn give_back<W: Wait>(&self, rt: &W, loan: Loan, receipt: Receipt<R>) -> Option<Runnable>
        requires ran { loan.ran ≡ true }
        requires receipt { loan ≡ record receipt { ran = true } }
    {
        let mut shared = self.shared.lock(rt);
        match shared.book.give_back(loan, receipt) {
            Some(task) => Some(task),
            None => {
                self.tell_callers(&shared);
                None
            }
        }
    }

    /// As `give_back`, and says what the loan's task is then, which has this id. The lock is not let go of in
    /// between, so the end of a task is told once: by the return of the slice in which it ended.
    pub fn receive<W: Wait>(&self, rt: &W, id: &str, loan: Loan, receipt: Receipt<R>) -> Returned
        requires ran { loan.ran ≡ true }
        requires receipt { loan ≡ record receipt { ran = true } }
    {
        let mut shared = self.shared.lock(rt);
        match shared.book.give_back(loan, receipt) {
            Some(task) => Returned::Running(task),
            None => {
                self.tell_callers(&shared);
                match shared.book.board().ended(id) {
                    Some((turns, end)) => Returned::Ended(turns, end),
                    None => Returned::Paused,
                }
            }
        }
    }

    /// How many turns the task with an id has made, and how it has ended. None if no task has the id, or
    /// that has not ended. It is no call: the journal has no entry of it.
    pub fn ended<W: Wait>(&self, rt: &W, id: &str) -> Option<(u64, ExitRecord)> {
        self.shared.lock(rt).book.board().ended(id)
    }

    /// Lets a task wait for a worker if a worker sleeps, and wakes it; else gives the task back.
    pub fn offer<W: Wait>(&self, rt: &W, task: Runnable) -> Option<Runnable>
        ensures { IfSome result (λ t. t ≡ task) }
    {
        let mut shared = self.shared.lock(rt);
        if shared.workers == 0 {
            return Some(task);
        }
        shared.book.wait_again(task);
        self.tell_worker(&shared);
        None
    }

    /// The task that has waited longest for a worker, which waits no more: sleeps until one waits,
    /// or the shim is closed. None once it is closed.
    pub fn next<W: Wait>(&self, rt: &W) -> Option<Runnable> {
        let mut shared = self.shared.lock(rt);
        shared.workers = shared.workers.wrapping_add(1);
        let mut shared = self.waiting.wait_while(rt, shared, |s| s.book.is_idle());
        shared.workers = shared.workers.wrapping_sub(1);
        if shared.book.is_closed() {
            return None;
        }
        shared.book.next_waiting()
    }

    /// The task that has waited longest for a worker, which waits no more. None if none waits.
    pub fn next_waiting<W: Wait>(&self, rt: &W) -> Option<Runnable> {
        self.shared.lock(rt).book.next_waiting()
    }

    /// Lets a task wait for a worker, as `Book::wait_again` does.
    pub fn wait_again<W: Wait>(&self, rt: &W, task: Runnable) {
        let mut shared = self.shared.lock(rt);
        shared.book.wait_again(task);
        self.tell_worker(&shared);
    }

    /// Closes the shim: each call after it answers Closed.
    pub fn close<W: Wait>(&self, rt: &W) {
        self.shared.lock(rt).book.close();
        self.settled.notify_all();
        self.waiting.notify_all();
    }
}
