//! Workers in threads of their own, which run slices of tasks, and the queue of tickets that they share.
#![tactic(auto)]

mod gate;
pub mod laws;
mod serving;
mod tickets;
mod working;

pub use gate::{Gate, OpenGate};
pub use serving::worker;
pub use tickets::{
    Another, Hand, MOST_TICKETS, Puts, Queue, Takes, Tickets, another_pass, next_runnable,
    next_ticket, put_runnable, put_ticket, ticket_queue,
};
pub use working::{with_gated_workers, with_workers};
