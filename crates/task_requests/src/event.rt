//! The events that a board goes through.

use crate::request::{Reply, Request};
use wasm_ast::{Refusal, Text};

/// The most turns of a slice.
pub const MAX_BUDGET: u64 = 1_000_000;

/// How many turns a slice of `serve` has at most, whoever runs it.
pub const SLICE_TURNS: u64 = 10_000;

/// An event.
#[derive(Drop)]
pub enum Event {
    /// A request is called.
    Call(Request),
    /// A slice of the task with this id, of at most this number of turns, is taken.
    Take(Text, u64),
    /// The slice of the task with this id is run and given back.
    Return(Text),
}

/// What an event is answered.
#[derive(Drop)]
pub enum EventReply {
    /// The answer to the request.
    Called(Result<Reply, Refusal>),
    /// Whether a slice was taken.
    Taken(bool),
    /// Whether a slice was given back.
    Returned(bool),
}
