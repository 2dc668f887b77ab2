//! Tasks that are to run.

ghost use Rattle.std.specs.Prelude.{◌≡◌};

use std::marker::Model;
use task_board::Ticket;

/// A task that is running, in the hands of a thread: whoever holds it sees to the task's next slice. It is
/// neither copied nor let go of. It ends in a slice (`Book::take`), among the tasks that wait for a worker
/// (`Book::wait_again`), or as a ticket in a queue. Contracts see its ticket.
pub struct Runnable {
    ticket: Ticket,
}

impl Model for Runnable {
    ghost use Rattle.task_board.specs.declared.ticket.Ticket.{Ticket};

    ghost Value = { Ticket };

    ghost view = { λ r. r.ticket };
}

impl Runnable {
    /// The task of a ticket, which some list or queue held until now.
    pub fn of(ticket: Ticket) -> Runnable
        ensures { result ≡ ticket }
    {
        Runnable { ticket }
    }

    /// Its ticket, for a list or a queue that holds it from now on.
    pub fn into_ticket(self) -> Ticket
        ensures { result ≡ self }
    {
        let Runnable { ticket } = self;
        ticket
    }
}
