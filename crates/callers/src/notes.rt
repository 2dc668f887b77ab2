//! What is told the lines of a caller, and how they ended, beside its replies.

use crate::caller::Driven;
use call_journal::{Row, Seat, Shim};
use task_board::{ExitRecord, Reply};
use wasm_ast::{Refusal, Text};

/// What is told each line of a caller and its answer, in their order. What is answered and written is as
/// the clauses say, whatever it does.
pub trait Notes {
    /// A line, of which nothing is there if it is too long, is answered so, and its reply is
    /// written next. The seat is that of the caller after its call.
    fn note<J: Row>(
        &mut self,
        shim: &Shim<J>,
        seat: &Seat<J>,
        line: Option<&[u8]>,
        answer: &Result<Reply, Refusal>,
    );

    /// The task with this id has ended so, after this number of turns: in a slice that the caller ran before
    /// it waited, or by its kill. The line of the wait or of the kill is told next. No lock is held.
    fn ended(&mut self, id: &Text, turns: u64, end: ExitRecord);
}

/// What is told how the lines of a caller ended, whose replies are written to a W.
pub trait Report<R, W> {
    /// No line of the caller comes any more.
    fn lines_ended(&self);

    /// The lines of the caller with this reader and this writer ended so, and its replies are written, if
    /// they could be.
    fn report(&self, driven: Driven, reader: &R, writer: &W);
}

/// What is told of callers that were not answered.
pub trait Missing {
    /// No thread could be started for the caller with this number, from 0.
    fn report(&self, number: usize);
}

/// Takes no notes.
#[derive(Clone, Copy, Drop)]
pub struct NoNotes;

impl Notes for NoNotes {
    fn note<J: Row>(
        &mut self,
        _shim: &Shim<J>,
        _seat: &Seat<J>,
        _line: Option<&[u8]>,
        _answer: &Result<Reply, Refusal>,
    ) {}

    fn ended(&mut self, _id: &Text, _turns: u64, _end: ExitRecord) {}
}
