//! The tasks that wait for a worker.

ghost use Rattle.std.specs.Prelude.{◌≡◌, ◌<◌, ◌∷◌, ◌==◌, [], IfOk, IfSome, IfNone, length, filter, not, false};
ghost use Rattle.slab.specs.Slab.{entries};
ghost use Rattle.task_board.specs.Limits.{max_tasks};
ghost use Rattle.task_board.specs.Waiting.{is_ticket, is_waiting, is_present, enter, without};

use crate::task::{Task, is_present};
use crate::ticket::Ticket;
use slab::Slab;
use std::alloc::{AllocError, Global};
use std::marker::Model;

/// The tasks that wait, the oldest first, with room for as many as a board has.
#[derive(Drop)]
pub struct Waiting {
    tickets: Vec<Ticket>,
}

impl Model for Waiting {
    ghost use Rattle.std.specs.Prelude.{List, ◌≤◌, vec_capacity};
    ghost use Rattle.task_board.specs.declared.ticket.Ticket.{Ticket};

    ghost Value = { List Ticket };

    ghost view = { λ w. w.tickets.items };

    ghost invariant = { λ w. 64 ≤ vec_capacity w.tickets };
}

impl Waiting {
    /// None that waits. An error if the room for 64 cannot be allocated.
    pub fn new(alloc: Global) -> Result<Waiting, AllocError>
        ensures { IfOk result (λ w. w ≡ []) }
    {
        Ok(Waiting {
            tickets: Vec::with_capacity(alloc, 64)?,
        })
    }

    /// Whether none waits.
    pub fn is_empty(&self) -> bool
        ensures { result ≡ (length self.now == 0) }
    {
        self.tickets.is_empty()
    }

    /// Whether a ticket is among them.
    pub fn has(&self, ticket: Ticket) -> bool
        ensures { result ≡ is_waiting ticket self.now }
    {
        self.tickets.iter().any(|other| other.is(ticket))
    }

    /// Lets a task in after all others, unless it waits already. No memory is taken.
    pub fn enter(&mut self, ticket: Ticket)
        requires { is_waiting ticket self.old ≡ false → length self.old < max_tasks }
        ensures { self.new ≡ enter ticket self.old }
    {
        if !self.has(ticket) {
            self.tickets.push_reserved(ticket);
        }
    }

    /// Takes the oldest out.
    pub fn next(&mut self) -> Option<Ticket>
        ensures some { IfSome result (λ ticket. self.old ≡ ticket ∷ self.new) }
        ensures none { IfNone result ((self.old ≡ []) × (self.new ≡ [])) }
    {
        if self.tickets.is_empty() {
            None
        } else {
            Some(self.tickets.remove(0))
        }
    }

    /// Takes a ticket out, wherever it is.
    pub fn leave(&mut self, ticket: Ticket)
        ensures { self.new ≡ without ticket self.old }
    {
        self.tickets.retain(
            |other: &Ticket| -> bool
                ensures { result ≡ not (is_ticket other.now ticket) }
            { !other.is(ticket) },
        );
    }

    /// Drops the tickets of tasks that are not there.
    pub fn keep_present(&mut self, tasks: &Slab<Task>)
        ensures { self.new ≡ filter (is_present (entries tasks.now)) self.old }
    {
        self.tickets.retain(
            |ticket: &Ticket| -> bool
                ensures { result ≡ is_present (entries tasks.entry.now) ticket.now }
            { is_present(tasks, *ticket) },
        );
    }
}
