//! The journal of the calls to a board: its entries, what replays them, and when a history is legal; the
//! cells that hold the entries, the seats of the callers that see them, and the shim that they share.
//!
//! # The state
//!
//! A `Shim` (shim.rt) is a `Book` under a lock, with the `Cells` that hold the journal beside the lock. The
//! book (book.rt) has the board, which is a replay of the journal, and what it has seen of the cells
//! (seen.rt): the whole journal. A `Seat` (seat.rt) belongs to one caller: its number, what it has seen,
//! and its share of the ledger, which counts its own calls. Each cell is written once, so what two seats
//! have seen are beginnings of one history (front.rt).
//!
//! # The way of a call
//!
//! `Shim::call` takes the lock and makes `Book::call`. The book looks whether the seat may call, takes all
//! memory, puts the entry into the next cell, applies the request to the board, and raises the seat's share.
//! shim.rt has a table of who sleeps, and who wakes them.
//!
//! # The way of a slice
//!
//! `Book::take` lends the machine of a task with a `Receipt`, and the desk keeps its counterpart (desk.rt,
//! receipt.rt). `Book::give_back` finds by the receipt, without comparing, that the loan fits. A `Runnable`
//! is a running task in the hands of a thread, which has to see to its next slice (runnable.rt).
//!
//! # Where to begin
//!
//! To believe a contract, read specs/Replay.antt (what a history is), then specs/Seats.antt and
//! specs/Books.antt (what a call does). To change the code, read book.rt and shim.rt. laws.rt has the laws
//! of histories.
#![tactic(auto)]

mod book;
mod cells;
mod desk;
mod entry;
mod finding;
mod front;
pub mod laws;
mod receipt;
mod returned;
mod row;
mod runnable;
mod seat;
mod seen;
mod shared;
mod shim;
mod start_error;

pub use book::{Book, MOST_SEATS};
pub use cells::{Cells, MOST_ENTRIES};
pub use desk::Desk;
pub use entry::{Entry, Found};
pub use receipt::Receipt;
pub use returned::Returned;
pub use row::Row;
pub use runnable::Runnable;
pub use seat::Seat;
pub use shim::Shim;
pub use start_error::StartError;
