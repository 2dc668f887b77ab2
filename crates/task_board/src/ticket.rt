//! Tickets.

ghost use Rattle.std.specs.Prelude.{◌≡◌};
ghost use Rattle.task_board.specs.Waiting.{is_ticket};

/// A ticket of a task: its slot, and how many creates its board had accepted before it.
#[derive(Clone, Copy, PartialEq, Eq, Debug)]
pub struct Ticket {
    pub slot: usize,
    pub incarnation: u64,
}

impl Ticket {
    // Whether both are of one task.
    pub(crate) fn is(self, other: Ticket) -> bool
        ensures { result ≡ is_ticket self other }
    {
        self.slot == other.slot && self.incarnation == other.incarnation
    }
}
