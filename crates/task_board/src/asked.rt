//! What is asked of a task, prepared. Nothing changes here.

ghost use Rattle.std.specs.Prelude.{◌≡◌, ℕ, Some, None, IfOk, IfErr, IsOk, false};
ghost use Rattle.content_leases.specs.Refusals.{first_refusal};
ghost use Rattle.task_requests.specs.Memory.{asks_for_memory};
ghost use Rattle.task_requests.specs.declared.request.Ask.TheVariants as ask;
ghost use Rattle.task_board.specs.Refusals.{is_step, place_refusals};
ghost use Rattle.task_board.specs.Tasks.{place_of};
ghost use Rattle.task_board.specs.Inside.Changes.{change_ask, IsPlain};
ghost use Rattle.task_board.specs.Inside.Marks.{mark_ask};
ghost use Rattle.task_board.specs.Inside.Plans.{IsAccepted, PlansAsk};

use crate::change::Change;
use crate::mark::Mark;
use crate::prepared::Plan;
use crate::task::Task;
use debugger::{inspect, peek};
use oci_config::Stream;
use std::alloc::{AllocError, Global};
use task_lifecycle::{Signal, TaskCall};
use task_requests::{Ask, Reply};
use wasm_ast::{Place, Refusal, Sequence, Text};

/// The most breakpoints of a task.
const MAX_BREAKPOINTS: usize = 32;

/// The most turns of a step.
const MAX_STEP: u64 = 1000;

// Whether a step may have this many turns.
fn is_step(count: u64) -> bool
    ensures { result ≡ is_step count }
{
    count >= 1 && count <= MAX_STEP
}

impl Task {
    /// What is asked of the task, which has this id and is in this slot, is prepared as this. An error if
    /// what it needs cannot be allocated.
    pub fn plan(&self, alloc: Global, slot: usize, id: Text, ask: Ask) -> Result<Plan, AllocError>
        requires { id ≡ self.now.id }
        ensures ok { IfOk result (PlansAsk self.now slot id ask) }
        ensures quiet { asks_for_memory ask ≡ false → IsOk result }
    {
        match ask {
            Ask::Start => Ok(self.plan_change(slot, id, Change::Start)),
            Ask::Pause => Ok(self.plan_change(slot, id, Change::Pause)),
            Ask::Resume => Ok(self.plan_change(slot, id, Change::Resume)),
            Ask::Kill { signal } => Ok(self.plan_kill(slot, id, signal)),
            Ask::Delete => Ok(self.plan_delete(slot, id)),
            Ask::State => Ok(Plan::Answered(Reply::State(self.state(id)))),
            Ask::Wait => Ok(self.plan_wait(id)),
            Ask::Output { stream } => self.plan_output(alloc, id, stream),
            Ask::Break { func, place } => self.plan_break(alloc, slot, id, func, place),
            Ask::Unbreak { func, place } => self.plan_unbreak(alloc, slot, id, func, place),
            Ask::Step { count } => Ok(self.plan_step(slot, id, count)),
            Ask::Inspect => self.plan_inspect(alloc, id),
            Ask::Peek { address, length } => self.plan_peek(alloc, id, address, length),
        }
    }

    // A change that the task's status alone allows.
    fn plan_change(&self, slot: usize, id: Text, change: Change) -> Plan
        requires { IsPlain change }
        ensures { PlansAsk self.now slot id (change_ask change) result }
    {
        if self.status().allows(change.call()) {
            Plan::Change { change, slot, id }
        } else {
            Plan::Refused(Refusal::WrongStatus)
        }
    }

    // A kill by the signal with a number.
    fn plan_kill(&self, slot: usize, id: Text, number: u64) -> Plan
        ensures { PlansAsk self.now slot id (ask.Kill number) result }
    {
        match Signal::from_number(number) {
            Some(signal) => self.plan_change(slot, id, Change::Kill(signal)),
            None => Plan::Refused(Refusal::OutOfRange),
        }
    }

    // A delete.
    fn plan_delete(&self, slot: usize, id: Text) -> Plan
        ensures { PlansAsk self.now slot id ask.Delete result }
    {
        if self.status().allows(TaskCall::Delete) {
            Plan::Delete { slot, id }
        } else {
            Plan::Refused(Refusal::WrongStatus)
        }
    }

    // A wait.
    fn plan_wait(&self, id: Text) -> Plan
        requires { id ≡ self.now.id }
        ensures { (slot : ℕ) → PlansAsk self.now slot id ask.Wait result }
    {
        if self.status().allows(TaskCall::Wait) {
            Plan::Answered(Reply::Wait(self.state(id)))
        } else {
            Plan::Refused(Refusal::Busy)
        }
    }

    // A question for what the task has written to the stream with a number. An error if a copy of that
    // cannot be allocated.
    fn plan_output(&self, alloc: Global, id: Text, number: u64) -> Result<Plan, AllocError>
        requires { id ≡ self.now.id }
        ensures { (slot : ℕ) → IfOk result (PlansAsk self.now slot id (ask.Output number)) }
    {
        let Some(stream) = Stream::from_number(number) else {
            return Ok(Plan::Refused(Refusal::OutOfRange));
        };
        let Some(written) = self.output(stream) else {
            return Ok(Plan::Refused(Refusal::Busy));
        };
        let size = written.len() as u64;
        let bytes = Sequence::new(Vec::from_slice(alloc, written)?);
        Ok(Plan::Answered(Reply::Output { bytes, id, size }))
    }

    // The instruction with these numbers, for a call that the task's status allows; or why not.
    fn place_for(&self, call: TaskCall, func: u64, place: u64) -> Result<Place, Refusal>
        ensures ok { IfOk result (λ p. (p ≡ place_of func place)
            × (first_refusal (place_refusals call func place self.now) ≡ None)) }
        ensures err { IfErr result
            (λ e. first_refusal (place_refusals call func place self.now) ≡ Some e) }
    {
        if !self.status().allows(call) {
            return Err(Refusal::WrongStatus);
        }
        match self.find_place(func, place) {
            Some(at) => Ok(at),
            None => Err(Refusal::OutOfRange),
        }
    }

    // A breakpoint that may be set or removed. An error if the breakpoints after it cannot be allocated.
    fn plan_mark(
        &self,
        alloc: Global,
        slot: usize,
        id: Text,
        mark: Mark,
    ) -> Result<Plan, AllocError>
        requires { IsAccepted (mark_ask mark) self.now }
        ensures { IfOk result (PlansAsk self.now slot id (mark_ask mark)) }
    {
        let now = self.breaks();
        // They are few.
        let _few = now.as_slice();
        let breaks = mark.breaks(alloc, now)?;
        Ok(Plan::Breaks {
            mark,
            slot,
            id,
            breaks,
        })
    }

    // A breakpoint more. An error if the breakpoints after it cannot be allocated.
    fn plan_break(
        &self,
        alloc: Global,
        slot: usize,
        id: Text,
        func: u64,
        place: u64,
    ) -> Result<Plan, AllocError>
        ensures { IfOk result (PlansAsk self.now slot id (ask.Break func place)) }
    {
        let at = match self.place_for(TaskCall::Break, func, place) {
            Ok(at) => at,
            Err(refusal) => return Ok(Plan::Refused(refusal)),
        };
        if self.breaks().has(at.func, place) {
            return Ok(Plan::Refused(Refusal::Exists));
        }
        if self.breaks().as_slice().len() >= MAX_BREAKPOINTS {
            return Ok(Plan::Refused(Refusal::TooMany));
        }
        self.plan_mark(alloc, slot, id, Mark::Set(at))
    }

    // A breakpoint less. An error if the breakpoints after it cannot be allocated.
    fn plan_unbreak(
        &self,
        alloc: Global,
        slot: usize,
        id: Text,
        func: u64,
        place: u64,
    ) -> Result<Plan, AllocError>
        ensures { IfOk result (PlansAsk self.now slot id (ask.Unbreak func place)) }
    {
        let at = match self.place_for(TaskCall::Unbreak, func, place) {
            Ok(at) => at,
            Err(refusal) => return Ok(Plan::Refused(refusal)),
        };
        if !self.breaks().has(at.func, place) {
            return Ok(Plan::Refused(Refusal::NotFound));
        }
        self.plan_mark(alloc, slot, id, Mark::Remove(at))
    }

    // A step.
    fn plan_step(&self, slot: usize, id: Text, count: u64) -> Plan
        ensures { PlansAsk self.now slot id (ask.Step count) result }
    {
        if !self.status().allows(TaskCall::Step) {
            return Plan::Refused(Refusal::WrongStatus);
        }
        if is_step(count) {
            Plan::Change {
                change: Change::Step(count),
                slot,
                id,
            }
        } else {
            Plan::Refused(Refusal::OutOfRange)
        }
    }

    // A question for the task's frames. An error if they cannot be allocated.
    fn plan_inspect(&self, alloc: Global, id: Text) -> Result<Plan, AllocError>
        requires { id ≡ self.now.id }
        ensures { (slot : ℕ) → IfOk result (PlansAsk self.now slot id ask.Inspect) }
    {
        let Some(machine) = self.machine() else {
            return Ok(Plan::Refused(Refusal::Busy));
        };
        let n = machine.turns();
        match inspect(alloc, machine) {
            Ok(shown) => {
                let frames = shown.frames;
                Ok(Plan::Answered(Reply::Inspect { frames, id, n }))
            }
            Err(_no_memory) => Err(AllocError),
        }
    }

    // A question for bytes of the task's memory. An error if they cannot be allocated.
    fn plan_peek(
        &self,
        alloc: Global,
        id: Text,
        address: u64,
        length: u64,
    ) -> Result<Plan, AllocError>
        requires { id ≡ self.now.id }
        ensures { (slot : ℕ) → IfOk result (PlansAsk self.now slot id (ask.Peek address length)) }
    {
        let Some(machine) = self.machine() else {
            return Ok(Plan::Refused(Refusal::Busy));
        };
        match peek(alloc, machine, address, length) {
            Ok(bytes) => {
                let bytes = Sequence::new(bytes);
                Ok(Plan::Answered(Reply::Peek { bytes, id }))
            }
            Err(Refusal::NoMemory) => Err(AllocError),
            Err(refusal) => Ok(Plan::Refused(refusal)),
        }
    }
}
