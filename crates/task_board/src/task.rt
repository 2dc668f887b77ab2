//! A task, and its machine while that is not checked out.

ghost use Rattle.std.specs.Prelude.{◌≡◌, option_map, ◌↔◌, IsTrue, Option, Some, None, IfSome, IfNone, IfOk, true, false, is_some, unwrap_or};
ghost use Rattle.std.specs.Arc.{arc_value};
ghost use Rattle.slab.specs.Slab.{entries};
ghost use Rattle.step_machine.specs.Instantiation.{ended};
ghost use Rattle.step_machine.specs.Places.{has_place};
ghost use Rattle.task_lifecycle.specs.Lifecycle.{allowed};
ghost use Rattle.content_leases.specs.StoreState.{is_among};
ghost use Rattle.task_board.specs.BoardState.{created_task, entry_of, used_by};
ghost use Rattle.task_board.specs.Ended.{end_of};
ghost use Rattle.task_board.specs.Loans.{loan_of, FitsTask};
ghost use Rattle.task_board.specs.Refusals.{Openable};
ghost use Rattle.task_board.specs.Tasks.{started, paused, resumed, killed, place_of, advanced, slice_turns, can_lend, lent, stepped, state_of, output_of};
ghost use Rattle.task_board.specs.Tickets.{ticket_if_running};
ghost use Rattle.task_board.specs.Waiting.{is_present};
ghost use Rattle.task_board.specs.Inside.Machines.{IsMachine};
ghost use Rattle.task_board.specs.Inside.Changes.{change_call, change_reply, changed};

use crate::change::Change;
use crate::checkout::{Checkout, Shared};
use crate::loan::Loan;
use crate::mark::NewBreaks;
use crate::ticket::Ticket;
use oci_config::Stream;
use slab::Slab;
use std::alloc::{AllocError, Global};
use std::marker::Model;
use std::sync::Arc;
use step_machine::{Breaks, Machine};
use task_lifecycle::{ExitRecord, Signal, Status};
use task_requests::{Reply, TaskState};
use wasm_ast::{Place, Sequence, Text};
use wasm_binary::laws::spells_one;

/// A task. Contracts see what a call can see of it.
#[derive(Drop)]
pub struct Task {
    shared: Arc<Shared>,
    incarnation: u64,
    turns: u64,
    status: Status,
    breaks: Arc<Breaks>,
    out: Option<u64>,
    signal: Option<Signal>,
    end: Option<ExitRecord>,
    checkout: Option<Checkout>,
}

impl Model for Task {
    ghost use Rattle.task_board.specs.BoardState.{Task as TaskValue};

    ghost Value = { TaskValue };

    ghost use Rattle.task_board.specs.Inside.Code.{task_code};

    ghost coded = { task_code };

    ghost use Rattle.task_board.specs.Inside.Kept.{IsKept};
    ghost use Rattle.task_board.specs.Inside.Shown.{task_of};

    ghost view = { task_of };

    ghost invariant = { λ t. IsKept (task_of t) t.checkout };
}

impl Task {
    /// A created task with a machine that has made no turn. An error if memory runs out.
    pub fn new(
        alloc: Global,
        shared: Shared,
        incarnation: u64,
        machine: Box<Machine>,
    ) -> Result<Task, AllocError>
        requires opens { Openable (arc_value shared.bytes) shared.process shared.flat }
        requires fresh { IsMachine machine.value shared.flat shared.process 0 }
        ensures { let bytes = arc_value shared.bytes in IfOk result
            (λ t. t ≡ created_task shared.id incarnation bytes shared.flat shared.process) }
    {
        let shared = Arc::new(alloc, shared)?;
        let checkout = Checkout::new(alloc, machine, &shared)?;
        let breaks = Arc::try_clone(&checkout.breaks)?;
        Ok(Task {
            shared,
            incarnation,
            turns: 0,
            status: Status::Created,
            breaks,
            out: None,
            signal: None,
            end: None,
            checkout: Some(checkout),
        })
    }

    /// Its id.
    pub fn id(&self) -> &Text
        ensures { result.now ≡ self.now.id }
    {
        &self.shared.id
    }

    /// The digest of its module.
    pub fn digest(&self) -> &Text
        ensures { result.now ≡ self.now.process.module }
    {
        &self.shared.process.module
    }

    /// Its status.
    pub fn status(&self) -> Status
        ensures { result ≡ self.now.status }
    {
        self.status
    }

    /// How many turns it has made, and the budget of its slice while that is out.
    pub fn found(&self) -> (u64, Option<u64>)
        ensures { result ≡ (self.now.turns, self.now.out) }
    {
        (self.turns, self.out)
    }

    /// How many turns it has made, and how it has ended. None if it has not ended.
    pub fn ended(&self) -> Option<(u64, ExitRecord)>
        ensures { result ≡ end_of (Some self.now) }
    {
        match self.end {
            Some(end) => Some((self.turns, end)),
            None => None,
        }
    }

    /// How many creates its board had accepted before it.
    pub fn incarnation(&self) -> u64
        ensures { result ≡ self.now.incarnation }
    {
        self.incarnation
    }

    /// A ticket of it, in its slot, if it is running.
    pub fn ticket(&self, slot: usize) -> Option<Ticket>
        ensures { result ≡ ticket_if_running slot self.now }
    {
        if self.status == Status::Running {
            let incarnation = self.incarnation;
            Some(Ticket { slot, incarnation })
        } else {
            None
        }
    }

    /// What a call sees of it, under an id that is its own.
    pub fn state(&self, id: Text) -> TaskState
        requires { id ≡ self.now.id }
        ensures { result ≡ state_of self.now }
    {
        TaskState {
            id,
            n: self.turns,
            status: self.status,
            end: self.end,
        }
    }

    /// What it has written to an output stream. None if its slice is out.
    pub fn output(&self, stream: Stream) -> Option<&[u8]>
        ensures some { IfSome result (λ bytes. (self.now.out ≡ None)
            × (bytes.now ≡ output_of (Some stream) self.now)) }
        ensures none { IfNone result (is_some self.now.out ≡ true) }
    {
        let checkout = self.checkout.as_ref()?;
        Some(checkout.machine.output(stream))
    }

    /// Its machine. None if its slice is out.
    pub fn machine(&self) -> Option<&Machine>
        ensures some { IfSome result (λ m. (self.now.out ≡ None)
            × IsMachine m.now self.now.module self.now.process self.now.turns) }
        ensures none { IfNone result (is_some self.now.out ≡ true) }
    {
        let checkout = self.checkout.as_ref()?;
        Some(&checkout.machine)
    }

    /// The place with these numbers, if an instruction is there.
    pub fn find_place(&self, func: u64, place: u64) -> Option<Place>
        ensures some { IfSome result (λ p. (p ≡ place_of func place)
            × (has_place self.now.module func place ≡ true)) }
        ensures none { IfNone result (has_place self.now.module func place ≡ false) }
    {
        self.shared.flat.find_place(func, place)
    }

    /// Its breakpoints.
    pub fn breaks(&self) -> &Breaks
        ensures { result.now ≡ self.now.breaks }
    {
        &self.breaks
    }

    /// Starts it.
    pub fn start(&mut self)
        requires { self.old.status ≡ Status.Created }
        ensures { self.new ≡ started self.old }
    {
        let Some(checkout) = &self.checkout else {
            unreachable!();
        };
        let (status, end) = checkout.landing(None, false);
        self.status = status;
        self.end = end;
        self.signal = None;
    }

    /// Pauses it: at once if its machine is here, else once its slice returns.
    pub fn pause(&mut self)
        ensures { self.new ≡ paused self.old }
    {
        if self.out.is_some() {
            self.status = Status::Pausing;
        } else {
            self.status = Status::Paused;
        }
    }

    /// Lets it run on.
    pub fn resume(&mut self)
        ensures { self.new ≡ resumed self.old }
    {
        self.status = Status::Running;
    }

    /// Ends it by a signal: at once if its machine is here, else once its slice returns, if it has not
    /// ended by itself then. The first of two signals is kept.
    pub fn kill(&mut self, signal: Signal)
        ensures { self.new ≡ killed signal self.old }
    {
        if self.out.is_some() {
            let first = first_signal(self.signal, signal);
            self.signal = Some(first);
        } else {
            self.status = Status::Stopped;
            self.end = Some(ExitRecord::Kill(signal));
            self.signal = None;
        }
    }

    /// Gives it other breakpoints.
    pub fn set_breaks(&mut self, breaks: NewBreaks)
        requires idle { self.old.out ≡ None }
        requires same { arc_value breaks.lent ≡ arc_value breaks.own }
        ensures { self.new ≡ record self.old { breaks = arc_value breaks.own } }
    {
        let Some(checkout) = &mut self.checkout else {
            unreachable!();
        };
        let NewBreaks { own, lent } = breaks;
        checkout.breaks = lent;
        self.breaks = own;
    }

    /// Makes at most this many turns: fewer if it ends or comes to a breakpoint. No memory is taken.
    pub fn step(&mut self, count: u64)
        requires { self.old.status ≡ Status.Paused }
        ensures { self.new ≡ stepped self.old count }
    {
        let Some(mut checkout) = self.checkout.take() else {
            unreachable!();
        };
        let _end = checkout.machine.run(count, &checkout.breaks);
        let (status, end) = checkout.landing(None, true);
        let turns = checkout.machine.turns();
        self.turns = turns;
        self.checkout = Some(checkout);
        self.out = None;
        self.status = status;
        self.end = end;
        self.signal = None;
    }

    /// Changes it as its status allows, and answers under its id.
    pub fn change(&mut self, change: Change, id: Text) -> Reply
        requires named { id ≡ self.old.id }
        requires allowed { allowed (change_call change) self.old.status ≡ true }
        ensures task { self.new ≡ changed change self.old }
        ensures reply { result ≡ change_reply change id self.new }
    {
        match change {
            Change::Start => self.start(),
            Change::Pause => self.pause(),
            Change::Resume => self.resume(),
            Change::Kill(signal) => self.kill(signal),
            Change::Step(count) => self.step(count),
        }
        let status = self.status;
        match change {
            Change::Start => Reply::Start { id, status },
            Change::Pause => Reply::Pause { id, status },
            Change::Resume => Reply::Resume { id, status },
            Change::Kill(_) => Reply::Kill { id, status },
            Change::Step(_) => Reply::Step(self.state(id)),
        }
    }

    /// Lends its machine for a slice of at most `budget` turns. None, and nothing has changed, if it is
    /// not running or is out already.
    pub fn lend(&mut self, slot: usize, budget: u64) -> Option<Loan>
        ensures some { IfSome result (λ l. (can_lend self.old ≡ true)
            × (l ≡ loan_of slot budget self.old) × (self.new ≡ lent self.old budget)) }
        ensures none { IfNone result ((can_lend self.old ≡ false) × (self.new ≡ self.old)) }
    {
        if self.status != Status::Running {
            return None;
        }
        let checkout = self.checkout.take()?;
        self.out = Some(budget);
        Some(Loan::new(slot, self.incarnation, self.turns, budget, checkout))
    }

    /// Whether it is out with this loan.
    pub fn fits(&self, loan: &Loan) -> bool
        ensures { IsTrue result ↔ FitsTask loan.now self.now }
    {
        spells_one();
        loan.is_numbered(self.incarnation, self.turns, self.out)
            && loan.shares(&self.shared, &self.breaks)
    }

    /// Takes its machine back from a slice that has been run.
    pub fn receive(&mut self, loan: Loan)
        requires ran { loan.ran ≡ true }
        requires fits { FitsTask loan self.old }
        ensures { self.new ≡ advanced self.old (slice_turns self.old loan.budget) }
    {
        let checkout = loan.into_checkout();
        let (status, end) = checkout.landing(self.signal, self.status == Status::Pausing);
        self.turns = checkout.machine.turns();
        self.checkout = Some(checkout);
        self.out = None;
        self.signal = None;
        self.status = status;
        self.end = end;
    }
}

// The first of two signals.
fn first_signal(pending: Option<Signal>, signal: Signal) -> Signal
    ensures { result ≡ unwrap_or pending signal }
{
    match pending {
        Some(first) => first,
        None => signal,
    }
}

/// The task with an id, and its slot.
pub fn find_task<'a>(tasks: &'a Slab<Task>, id: &str) -> Option<(usize, &'a Task)>
    ensures { option_map (λ r. (r.0, r.1.now)) result ≡ entry_of id.now (entries tasks.now) }
{
    for (slot, task) in tasks.iter() {
        if task.id().as_str() == id {
            return Some((slot, task));
        }
    }
    None
}

/// Whether the task of a ticket is there.
pub fn is_present(tasks: &Slab<Task>, ticket: Ticket) -> bool
    ensures { result ≡ is_present (entries tasks.now) ticket }
{
    match tasks.get(ticket.slot) {
        Some(task) => task.incarnation() == ticket.incarnation,
        None => false,
    }
}

/// Whether some task names a digest.
pub fn is_used(tasks: &Slab<Task>, digest: &str) -> bool
    ensures { result ≡ is_among digest.now (used_by (entries tasks.now)) }
{
    for (_slot, task) in tasks.iter() {
        if task.digest().as_str() == digest {
            return true;
        }
    }
    false
}

/// The digests that tasks name. An error if they cannot be allocated.
pub fn used_digests(alloc: Global, tasks: &Slab<Task>) -> Result<Sequence<Text>, AllocError>
    ensures { IfOk result (λ digests. digests ≡ used_by (entries tasks.now)) }
{
    let mut digests = Vec::new(alloc);
    for (_slot, task) in tasks.iter() {
        digests.push(task.digest().copy(alloc)?)?;
    }
    Ok(Sequence::new(digests))
}
