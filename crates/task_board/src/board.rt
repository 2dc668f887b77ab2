//! The board: the store and the tasks, and what each request does to them.

ghost use Rattle.std.specs.Prelude.{◌≡◌, ◌≢◌, ◌≤◌, ◌↔◌, ◌==◌, IsTrue, ◌∷◌, [], Some, None, Ok, Err, IfOk, IsOk, IfSome, IfNone, OnErr, option_map, true, false, not, length};
ghost use Rattle.task_requests.specs.declared.request.Request.{Request as RequestValue};
ghost use Rattle.task_requests.specs.declared.event.Event.TheVariants as event;
ghost use Rattle.task_requests.specs.declared.event.EventReply.TheVariants as answer;
ghost use Rattle.task_board.specs.BoardState.{Task as TaskValue, empty, task_of};
ghost use Rattle.task_requests.specs.Limits.{max_budget};
ghost use Rattle.task_board.specs.Loans.{Fits};
ghost use Rattle.std.specs.Result.{result_err};
ghost use Rattle.task_board.specs.Prepared.{Prepares, refusal_of};
ghost use Rattle.task_requests.specs.Memory.{takes_memory};
ghost use Rattle.task_board.specs.Sound.{IsBoard};
ghost use Rattle.task_board.specs.Ended.{end_of};
ghost use Rattle.task_board.specs.Settled.{is_settled};
ghost use Rattle.task_board.specs.Step.{Answers, Step};
ghost use Rattle.task_board.specs.Tickets.{ticket_of, CanLend, Lends, ticket_in};
ghost use Rattle.task_board.specs.Waiting.{enter_again, waiting_ticket, without, waiting_after, AreWaiting};

use crate::change::Change;
use crate::loan::Loan;
use crate::opened::Opened;
use crate::prepared::{Plan, Prepared};
use crate::task::{Task, find_task, is_present};
use crate::ticket::Ticket;
use crate::waiting::Waiting;
use content_leases::Store;
use slab::Slab;
use std::alloc::Global;
use std::marker::Model;
use step_machine::laws::{slices_go_forward, slices_stop_first};
use task_lifecycle::{ExitRecord, TaskCall};
use task_requests::{Reply, Request};
use wasm_ast::Refusal;

mod applying;
mod planning;

/// The most tasks of a board.
const MAX_TASKS: usize = 64;

/// The board: the store, the modules of contents that were opened, tasks by their slots, how many
/// creates were accepted, and the tasks that wait for a worker. Contracts see the abstract board,
/// the tasks that wait, and how much fits with no memory taken.
pub struct Board {
    alloc: Global,
    store: Store,
    opened: Opened,
    tasks: Slab<Task>,
    creates: u64,
    waiting: Waiting,
}

// Not derived: so the crates above prove a call, and not the drop of each part again.
impl Drop for Board {
    fn drop(self) {
        let Board {
            alloc: _,
            store: _,
            opened: _,
            tasks: _,
            creates: _,
            waiting: _,
        } = self;
    }
}

impl Model for Board {
    ghost use Rattle.std.specs.Prelude.{◌≤◌};
    ghost use Rattle.task_board.specs.Inside.Code.{board_code};
    ghost use Rattle.task_board.specs.BoardValue.{BoardValue};
    ghost use Rattle.task_board.specs.Sound.{Each, IsBoard};
    ghost use Rattle.task_board.specs.Waiting.{AreWaiting};
    ghost use Rattle.task_board.specs.Inside.OpenedModules.{IsOpened};
    ghost use Rattle.task_board.specs.Inside.Shown.{board_of, board_state_of};

    ghost Value = { BoardValue };

    ghost coded = { board_code };

    ghost view = { board_of };

    ghost invariant = { λ b. record {
      tasks_room : 64 ≤ b.tasks.capacity;
      sound : IsBoard (board_state_of b);
      waiting : AreWaiting (board_state_of b).tasks b.waiting;
      opened : Each (IsOpened b.store.state.contents) b.opened;
    } };
}

impl Board {
    /// An empty board, with room for all that it may have. `NoMemory` if that cannot be allocated.
    pub fn new(alloc: Global) -> Result<Board, Refusal>
        ensures empty { IfOk result (λ b. b.state ≡ empty) }
        ensures waiting { IfOk result (λ b. b.waiting ≡ []) }
        ensures err { OnErr result (result ≡ Err Refusal.NoMemory) }
    {
        Ok(Board {
            alloc,
            store: Store::new(alloc)?,
            opened: Opened::new(alloc)?,
            tasks: Slab::with_capacity(alloc, MAX_TASKS)?,
            creates: 0,
            waiting: Waiting::new(alloc)?,
        })
    }

    /// What holds of every board. It does nothing.
    pub fn sound(&self)
        ensures { IsBoard self.now.state }
    {
        let _creates = self.creates;
    }

    /// What holds of the tasks that wait for a worker. It does nothing.
    pub fn waiting_once(&self)
        ensures { AreWaiting self.now.state.tasks self.now.waiting }
    {
        let _creates = self.creates;
    }

    /// Allocates all that the request and its reply need, and changes nothing that a call can see.
    /// `NoMemory` if that fails; every other refusal is a part of what is prepared.
    pub fn prepare(&mut self, request: Request) -> Result<Prepared, Refusal>
        ensures same { (self.new.state ≡ self.old.state) × (self.new.waiting ≡ self.old.waiting) }
        ensures ok { IfOk result (λ p. Prepares self.new request p) }
        ensures err { OnErr result (result ≡ Err Refusal.NoMemory) }
        ensures quiet { takes_memory request ≡ false → IsOk result }
    {
        // One exit for all arms: one in each would make the proof many times as long.
        let plan = match request {
            Request::Put { bytes } => self.prepare_put(bytes),
            Request::PutText { text } => self.prepare_put_text(text),
            Request::Remove { digest } => Ok(self.plan_remove(digest)),
            Request::LeaseCreate { id } => self.prepare_lease_create(id),
            Request::LeaseAdd { digest, id } => self.prepare_lease_add(digest, id),
            Request::LeaseDelete { id } => Ok(self.plan_lease_delete(id)),
            Request::Gc => self.prepare_gc(),
            Request::Create { config, id } => self.prepare_create(config, id),
            Request::Task { id, ask } => self.plan_ask(id, ask),
        }?;
        Ok(Prepared { plan })
    }

    /// Makes the change that was prepared, and answers: the refusal that `Prepared::refused` tells, if
    /// there is one. No memory is taken. The board has not changed since.
    pub fn apply(&mut self, prepared: Prepared) -> Result<Reply, Refusal>
        requires { (r : RequestValue) × Prepares self.old r prepared }
        ensures answers { (r : RequestValue) → Prepares self.old r prepared
            → Answers self.old.state r result self.new.state }
        ensures refused { result_err result ≡ refusal_of prepared }
        ensures memory { result ≢ Err Refusal.NoMemory }
        ensures waiting { (r : RequestValue) → Prepares self.old r prepared → self.new.waiting
            ≡ waiting_after r result self.new.state.tasks self.old.waiting }
    {
        match prepared.plan {
            Plan::Refused(refusal) => Err(refusal),
            Plan::Answered(reply) => Ok(reply),
            Plan::Store(change) => Ok(self.change_store(change)),
            Plan::Create { task, id } => Ok(self.add_task(task, id)),
            Plan::Change { change, slot, id } => Ok(self.change_and_enter(slot, id, change)),
            Plan::Delete { slot, id } => Ok(self.delete(slot, id)),
            Plan::Breaks {
                mark,
                slot,
                id,
                breaks,
            } => Ok(self.mark(mark, slot, id, breaks)),
        }
    }

    /// Answers a request, by preparing and applying it. `NoMemory` if an allocation failed, and then
    /// nothing has changed; of the requests only put, put_text, lease_create, lease_add, gc, create,
    /// output, break, unbreak, inspect and peek allocate, and no other is ever answered so.
    pub fn call(&mut self, request: Request) -> Result<Reply, Refusal>
        ensures answers { result ≢ Err Refusal.NoMemory
            → Answers self.old.state request result self.new.state }
        ensures no_memory { result ≡ Err Refusal.NoMemory → self.new.state ≡ self.old.state }
        ensures quiet { takes_memory request ≡ false → result ≢ Err Refusal.NoMemory }
        ensures waiting { self.new.waiting
            ≡ waiting_after request result self.new.state.tasks self.old.waiting }
    {
        let prepared = self.prepare(request)?;
        self.apply(prepared)
    }

    /// Whether a task waits for a worker. No memory is taken.
    pub fn has_waiting(&self) -> bool
        ensures { result ≡ not (length self.now.waiting == 0) }
    {
        !self.waiting.is_empty()
    }

    /// The task that has waited longest for a worker, which waits no more. None if none waits. No memory is
    /// taken.
    pub fn next_waiting(&mut self) -> Option<Ticket>
        ensures some { IfSome result (λ ticket. self.old.waiting ≡ ticket ∷ self.new.waiting) }
        ensures none { IfNone result ((self.old.waiting ≡ []) × (self.new.waiting ≡ [])) }
        ensures rest { self.new ≡ record self.old { waiting = self.new.waiting } }
    {
        self.waiting.next()
    }

    /// Lets the ticket's task wait for a worker, after all that wait, unless it waits already. A ticket of no
    /// present task is dropped. No memory is taken.
    pub fn wait_again(&mut self, ticket: Ticket)
        ensures { self.new ≡ record self.old {
          waiting = enter_again self.old.state.tasks ticket self.old.waiting;
        } }
    {
        if is_present(&self.tasks, ticket) {
            self.waiting.enter(ticket);
        }
    }

    /// A ticket of the task with an id. None if no task has it.
    pub fn ticket(&self, id: &str) -> Option<Ticket>
        ensures { result ≡ ticket_of id.now self.now.state.tasks }
    {
        let (slot, task) = find_task(&self.tasks, id)?;
        Some(Ticket {
            slot,
            incarnation: task.incarnation(),
        })
    }

    /// The ticket of the task with an id, which waits for a worker and now no more. None, and
    /// nothing has changed, if no task has the id or that does not wait. No memory is taken.
    pub fn leave_waiting(&mut self, id: &str) -> Option<Ticket>
        ensures ticket { result ≡ waiting_ticket id.now self.old.state.tasks self.old.waiting }
        ensures some { IfSome result
            (λ t. self.new ≡ record self.old { waiting = without t self.old.waiting }) }
        ensures none { IfNone result (self.new ≡ self.old) }
    {
        let ticket = self.ticket(id)?;
        if !self.waiting.has(ticket) {
            return None;
        }
        self.leave(ticket);
        Some(ticket)
    }

    // Takes a ticket out of the list.
    fn leave(&mut self, ticket: Ticket)
        ensures { self.new ≡ record self.old { waiting = without ticket self.old.waiting } }
    {
        self.waiting.leave(ticket);
    }

    /// How many turns the task with an id has made; while its slice is out, how many it had made before, and
    /// the budget of the slice. None if no task has the id.
    pub fn found(&self, id: &str) -> Option<(u64, Option<u64>)>
        ensures { result
            ≡ option_map (λ t. (t.turns, t.out)) (task_of id.now self.now.state.tasks) }
    {
        let (_, task) = find_task(&self.tasks, id)?;
        Some(task.found())
    }

    /// Whether a wait for the task with an id is not answered Busy: no task has it, or that is
    /// created, paused or stopped.
    pub fn is_settled(&self, id: &str) -> bool
        ensures { result ≡ is_settled (task_of id.now self.now.state.tasks) }
    {
        match find_task(&self.tasks, id) {
            Some((_, task)) => task.status().allows(TaskCall::Wait),
            None => true,
        }
    }

    /// How many turns the task with an id has made, and how it has ended. None if no task has the id, or
    /// that has not ended.
    pub fn ended(&self, id: &str) -> Option<(u64, ExitRecord)>
        ensures { result ≡ end_of (task_of id.now self.now.state.tasks) }
    {
        let (_, task) = find_task(&self.tasks, id)?;
        task.ended()
    }

    /// Lends the machine of the ticket's task for a slice of at most `budget` turns. None, and nothing
    /// has changed, exactly if that task is gone, of another incarnation, not running, or out. No memory
    /// is taken.
    pub fn take(&mut self, ticket: Ticket, budget: u64) -> Option<Loan>
        requires { (1 ≤ budget) × (budget ≤ max_budget) }
        ensures some { IfSome result (λ l. Lends self.old.state ticket budget l self.new.state) }
        ensures step { IfSome result
            (λ l. Step self.old.state (event.Take l.id budget) (answer.Taken true) self.new.state) }
        ensures none { IfNone result ((t : TaskValue) → CanLend ticket self.old.state.tasks t → ⊥) }
        ensures same { IfNone result (self.new ≡ self.old) }
        ensures waiting { self.new.waiting ≡ self.old.waiting }
    {
        let task = self.tasks.get_mut(ticket.slot)?;
        if task.incarnation() != ticket.incarnation {
            return None;
        }
        let loan = task.lend(ticket.slot, budget)?;
        Some(loan)
    }

    /// Whether the task of the loan's slot and incarnation is out with the loan: it has the loan's id,
    /// first turn, budget, stored bytes, process and breakpoints.
    pub fn fits(&self, loan: &Loan) -> bool
        ensures { IsTrue result ↔ Fits loan.now self.now.state.tasks }
    {
        match self.tasks.get(loan.slot()) {
            Some(task) => task.fits(loan),
            None => false,
        }
    }

    /// Takes back the machine of a loan that has been run. A loan that does not fit is ended, and
    /// changes nothing. A ticket of the task comes exactly if the loan fits and the task is running
    /// afterwards. No memory is taken.
    pub fn give_back(&mut self, loan: Loan) -> Option<Ticket>
        requires { loan.ran ≡ true }
        ensures step { Fits loan self.old.state.tasks
            → Step self.old.state (event.Return loan.id) (answer.Returned true) self.new.state }
        ensures ticket { Fits loan self.old.state.tasks
            → result ≡ ticket_in loan.slot self.new.state.tasks }
        ensures unfit { (Fits loan self.old.state.tasks → ⊥)
            → (self.new ≡ self.old) × (result ≡ None) }
        ensures waiting { self.new.waiting ≡ self.old.waiting }
    {
        if self.fits(&loan) {
            self.receive(loan)
        } else {
            loan.end();
            None
        }
    }

    /// Takes back the machine of a loan that has been run and that fits. Nothing is compared: who calls this
    /// knows that the loan fits, since it was taken and nothing but the loan has changed since. A ticket of
    /// the task comes exactly if the task is running afterwards. No memory is taken.
    pub fn receive(&mut self, loan: Loan) -> Option<Ticket>
        requires ran { loan.ran ≡ true }
        requires fits { Fits loan self.old.state.tasks }
        ensures step { Step self.old.state
            (event.Return loan.id) (answer.Returned true) self.new.state }
        ensures ticket { result ≡ ticket_in loan.slot self.new.state.tasks }
        ensures waiting { self.new.waiting ≡ self.old.waiting }
    {
        slices_go_forward();
        slices_stop_first();
        let slot = loan.slot();
        let Some(task) = self.tasks.get_mut(slot) else {
            loan.end();
            return None;
        };
        task.receive(loan);
        task.ticket(slot)
    }
}
