//! The board of tasks: requests and their replies, and the events that it goes through.
//!
//! # The state
//!
//! A `Board` (board.rt) is seen as the abstract board of specs/BoardState.antt: contents and leases, tasks
//! by their slots, and how many creates were accepted. Contracts also see the tasks that wait for a worker,
//! and how much fits with no memory taken. A task is plain data there; here it also has its machine, or has
//! lent it (task.rt, checkout.rt). Modules that were opened are kept beside (opened.rt).
//!
//! # The way of a request
//!
//! 1. `Board::prepare` finds the refusal, or makes a `Plan` (prepared.rt), for which it takes all memory.
//!    board/planning.rt has a function for each request to the store and for a create. What is asked of a
//!    task is prepared by the task itself, once it is found (asked.rt).
//! 2. `Board::apply` makes the change of the plan and the reply (board/applying.rt). It cannot fail.
//!
//! # The way of a slice
//!
//! `Board::next_waiting` gives the ticket of the task that has waited longest. `Board::take` lends the
//! machine of that task as a `Loan` (loan.rt), which runs away from the board. `Board::give_back` takes it
//! back if it still fits, and `Board::receive` where that is known. run.rt runs a list of events so.
//!
//! # Where to begin
//!
//! To believe a contract, read specs/Step.antt: `Answers` says what a request is answered and what it
//! changes, with the refusals of specs/Refusals.antt and the effects on one task of specs/Tasks.antt. To
//! change the code, read board.rt and prepared.rt first. laws.rt has the laws of the whole.
#![tactic(auto)]

mod asked;
mod board;
mod change;
mod checkout;
pub mod laws;
mod loan;
mod mark;
mod open;
mod opened;
mod prepared;
mod run;
mod store_change;
mod task;
mod ticket;
mod waiting;
pub mod worked_claims;

pub use board::Board;
pub use content_leases::digest_of;
pub use loan::Loan;
pub use prepared::Prepared;
pub use run::run_events;
pub use task_lifecycle::{ExitRecord, Signal, Status, TaskCall};
pub use task_requests::{Ask, Event, EventReply, MAX_BUDGET, Reply, Request, TaskState};
pub use ticket::Ticket;
pub use wasm_ast::{is_digest, is_id};
