//! The changes that were prepared, made. No memory is taken.

ghost use Rattle.std.specs.Prelude.{◌≡◌, Some, None, Ok};
ghost use Rattle.task_requests.specs.declared.request.Request.{Request as RequestValue};
ghost use Rattle.task_requests.specs.declared.request.Request.TheVariants as request;
ghost use Rattle.task_board.specs.Refusals.{unless_allowed, own_refusals};
ghost use Rattle.task_board.specs.Step.{Answers, Step};
ghost use Rattle.task_board.specs.Tickets.{ticket_in};
ghost use Rattle.task_board.specs.Waiting.{running_ticket, waiting_after_call};
ghost use Rattle.task_board.specs.Inside.Plans.{CreatePrepared, CallPrepared, MarkPrepared};
ghost use Rattle.task_requests.specs.declared.request.Ask.TheVariants as ask;
ghost use Rattle.task_board.specs.Inside.Changes.{change_ask};
ghost use Rattle.task_board.specs.Inside.Marks.{mark_ask};
ghost use Rattle.task_board.specs.Inside.StoreChanges.{IsMadeFor, StorePrepared};
ghost use Rattle.task_board.specs.declared.mark.Mark.TheVariants as mark;

use crate::board::Board;
use crate::change::Change;
use crate::mark::{Mark, NewBreaks};
use crate::store_change::StoreChange;
use crate::task::Task;
use crate::ticket::Ticket;
use task_lifecycle::{Status, TaskCall};
use task_requests::Reply;
use wasm_ast::{Refusal, Text};

impl Board {
    // Changes the store.
    pub(crate) fn change_store(&mut self, change: StoreChange) -> Reply
        requires { StorePrepared self.old.state self.old.room change }
        ensures answers { (r : RequestValue) → IsMadeFor r change
            → Answers self.old.state r (Ok result) self.new.state }
        ensures waiting { self.new.waiting ≡ self.old.waiting }
    {
        change.make_and_drop(&mut self.store, &mut self.opened)
    }

    // Lets the task in; there are fewer than 64.
    pub(crate) fn add_task(&mut self, task: Task, id: Text) -> Reply
        requires { (r : RequestValue) × CreatePrepared self.old.state r task id }
        ensures answers { (r : RequestValue) → CreatePrepared self.old.state r task id
            → Answers self.old.state r (Ok result) self.new.state }
        ensures waiting { self.new.waiting ≡ self.old.waiting }
    {
        self.tasks.insert_reserved(task);
        self.creates += 1;
        Reply::Create {
            id,
            status: Status::Created,
        }
    }

    // Changes the task in a slot.
    fn change(&mut self, slot: usize, id: Text, change: Change) -> Reply
        requires { CallPrepared self.old.state (own_refusals (change_ask change)) slot id }
        ensures answers { Answers self.old.state
            (request.Task id (change_ask change)) (Ok result) self.new.state }
        ensures ticket { running_ticket id self.new.state.tasks
            ≡ ticket_in slot self.new.state.tasks }
        ensures waiting { self.new.waiting ≡ self.old.waiting }
    {
        let Some(task) = self.tasks.get_mut(slot) else {
            unreachable!();
        };
        task.change(change, id)
    }

    // A ticket of the task in a slot, if that is running.
    fn ticket_in(&self, slot: usize) -> Option<Ticket>
        ensures { result ≡ ticket_in slot self.now.state.tasks }
    {
        match self.tasks.get(slot) {
            Some(task) => task.ticket(slot),
            None => None,
        }
    }

    // Changes the task in a slot, which waits afterwards if it was started or resumed and is running.
    pub(crate) fn change_and_enter(&mut self, slot: usize, id: Text, change: Change) -> Reply
        requires { CallPrepared self.old.state (own_refusals (change_ask change)) slot id }
        ensures answers { Answers self.old.state
            (request.Task id (change_ask change)) (Ok result) self.new.state }
        ensures waiting { self.new.waiting
            ≡ waiting_after_call (request.Task id (change_ask change))
            self.new.state.tasks self.old.waiting }
    {
        let reply = self.change(slot, id, change);
        if change.enters() {
            if let Some(ticket) = self.ticket_in(slot) {
                self.waiting.enter(ticket);
            }
        }
        reply
    }

    // Removes the task in a slot.
    pub(crate) fn delete(&mut self, slot: usize, id: Text) -> Reply
        requires { CallPrepared self.old.state
            (unless_allowed TaskCall.Delete Refusal.WrongStatus) slot id }
        ensures answers { Answers self.old.state (request.Task id ask.Delete) (Ok result)
            self.new.state }
        ensures waiting { self.new.waiting
            ≡ waiting_after_call (request.Task id ask.Delete) self.new.state.tasks
            self.old.waiting }
    {
        let Some(task) = self.tasks.try_remove(slot) else {
            unreachable!();
        };
        self.waiting.keep_present(&self.tasks);
        self.opened.drop_idle(&self.store, &self.tasks);
        Reply::Delete(task.state(id))
    }

    // Gives the task in a slot other breakpoints.
    pub(crate) fn mark(&mut self, mark: Mark, slot: usize, id: Text, breaks: NewBreaks) -> Reply
        requires { MarkPrepared self.old.state mark slot id breaks }
        ensures answers { Answers self.old.state
            (request.Task id (mark_ask mark)) (Ok result) self.new.state }
        ensures waiting { self.new.waiting ≡ self.old.waiting }
    {
        let Some(task) = self.tasks.get_mut(slot) else {
            unreachable!();
        };
        task.set_breaks(breaks);
        mark.reply(id)
    }
}
