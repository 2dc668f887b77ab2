//! Answers the lines of one caller as they come.

ghost use Rattle.std.specs.Prelude.{◌≡◌, List, ℕ, Err, IfOk, option_map, string_bytes};
ghost use Rattle.task_requests.specs.declared.request.Request.TheVariants as Asked;
ghost use Rattle.request_lines.specs.Input.{IsKept};
ghost use Rattle.request_lines.specs.Reply.{json_of, line_text};
ghost use Rattle.callers.specs.Answered.{IsAnswered, IsCall, IsDue, IsServed};
ghost use Rattle.callers.specs.Driving.{Drives, IsTold};
ghost use Rattle.callers.specs.Inside.Told.{HasStopped, IsWait};
ghost use Rattle.callers.specs.Inside.Writing.{Writes};

use crate::notes::Notes;
use call_journal::{Row, Seat, Shim};
use request_lines::{
    LineReader, Sink, Source, Stop, answer_line, no_memory_line, read_request_line,
};
use std::alloc::{AllocError, Global};
use std::sync::Wait;
use task_board::Status;
use task_requests::{Ask, Reply, Request, SLICE_TURNS};
use wasm_ast::Refusal;

/// How many bytes are kept for the line of an answer: twice what the longest output and its making
/// take. They are address space alone until they are needed.
const SPARE_BYTES: usize = 1 << 20;

/// How the lines of a caller ended.
#[derive(Clone, Copy, PartialEq, Eq, Debug)]
pub enum Driven {
    /// The reader was at its end.
    End,
    /// The reader failed.
    ReadFault,
    /// The writer failed.
    WriteFault,
    /// Memory ran out for the lines that are read, or for a reply.
    NoMemory,
}

/// Why a reply was not written.
#[derive(Clone, Copy, PartialEq, Eq, Debug)]
pub(crate) enum WriteError {
    /// The writer failed.
    Stream,
    /// Memory ran out for the reply's line.
    OutOfMemory,
}

impl From<WriteError> for Driven {
    ghost use Rattle.callers.specs.Inside.Ends.{of_write};

    ghost from_gives = { λ error driven. driven ≡ of_write error };

    fn from(error: WriteError) -> Driven {
        match error {
            WriteError::Stream => Driven::WriteFault,
            WriteError::OutOfMemory => Driven::NoMemory,
        }
    }
}

impl From<Stop> for Driven {
    ghost use Rattle.callers.specs.Inside.Ends.{of_read};

    ghost from_gives = { λ stop driven. driven ≡ of_read stop };

    fn from(stop: Stop) -> Driven {
        match stop {
            Stop::Stream => Driven::ReadFault,
            Stop::OutOfMemory => Driven::NoMemory,
        }
    }
}

// Makes a call. A worker is told of the tasks that earlier calls started, but not of one that this call
// starts: the caller's next line may be a wait for that, which is made once it is due, and the first slice
// of a task that no worker has yet is run here. The notes are told if the task ended in that.
fn call<J: Row, H: Wait, N: Notes>(
    rt: &H,
    shim: &Shim<J>,
    seat: Seat<J>,
    request: Request,
    notes: &mut N,
) -> (Seat<J>, Result<Reply, Refusal>)
    ensures call { IsCall seat result.0 request result.1 }
    ensures due { IsDue request result.1 }
    ensures told { (IsWait request → ⊥) → notes.new ≡ notes.old }
{
    match request {
        Request::Task { id, ask: Ask::Wait } => {
            if let Some((turns, end)) = shim.run_waiting(rt, &id, SLICE_TURNS) {
                notes.ended(&id, turns, end);
            }
            shim.wait(rt, seat, id)
        }
        other => shim.call_quietly(rt, seat, other),
    }
}

// Answers a line, of which nothing is there if it is too long. One that is no request makes no call, so a
// worker is told here of the tasks that earlier calls started.
fn answer<J: Row, H: Wait, N: Notes>(
    rt: &H,
    alloc: Global,
    shim: &Shim<J>,
    seat: Seat<J>,
    line: Option<&[u8]>,
    notes: &mut N,
) -> (Seat<J>, Result<Reply, Refusal>)
    ensures { (text : List ℕ) → IsKept (option_map (λ b. b.now) line.entry) text
        → IsAnswered seat text result.1 result.0 }
{
    let Some(bytes) = line else {
        shim.wake(rt);
        return (seat, Err(Refusal::BadRequest));
    };
    match read_request_line(alloc, bytes) {
        Ok(request) => call(rt, shim, seat, request, notes),
        Err(error) => {
            shim.wake(rt);
            (seat, Err(Refusal::from(error)))
        }
    }
}

// Writes a text and flushes.
fn write_text<W: Sink>(writer: &mut W, text: &str) -> Result<(), WriteError>
    ensures text { Writes result text.now (W.contents writer.old) (W.contents writer.new) }
    ensures failed { result ≡ Err WriteError.Stream → W.has_failed writer.new }
{
    match writer.put(text.as_bytes()) {
        Ok(()) => Ok(()),
        Err(_) => Err(WriteError::Stream),
    }
}

// Memory that is kept for a line of an answer, so that most lines can be made where no other is left.
fn spare_memory(alloc: Global) -> Option<Vec<u8>> {
    Vec::with_capacity(alloc, SPARE_BYTES).ok()
}

// The line of an answer. Where memory runs out for it, the spare memory is given back, and the line
// is made once more.
fn line_of_answer(
    alloc: Global,
    answer: &Result<Reply, Refusal>,
    spare: &mut Option<Vec<u8>>,
) -> Result<String, AllocError>
    ensures { IfOk result (λ s. string_bytes s ≡ line_text (json_of answer.now)) }
{
    match answer_line(alloc, answer) {
        Ok(line) => Ok(line),
        Err(_) => {
            *spare = None;
            answer_line(alloc, answer)
        }
    }
}

// Writes the line of an answer. That of `NoMemory` needs no memory; any other is not written if memory runs
// out, since its request has been made.
fn write_answer<W: Sink>(
    alloc: Global,
    answer: &Result<Reply, Refusal>,
    spare: &mut Option<Vec<u8>>,
    writer: &mut W,
) -> Result<(), WriteError>
    ensures text { Writes result (line_text (json_of answer.now)) (W.contents writer.old)
        (W.contents writer.new) }
    ensures failed { result ≡ Err WriteError.Stream → W.has_failed writer.new }
{
    if let Err(Refusal::NoMemory) = answer {
        return write_text(writer, no_memory_line());
    }
    match line_of_answer(alloc, answer, spare) {
        Ok(line) => write_text(writer, line.as_str()),
        Err(_) => Err(WriteError::OutOfMemory),
    }
}

// Tells the notes that the task of a kill has ended, if it was idle, so that it has ended by that.
fn tell_killed<J: Row, H: Wait, N: Notes>(
    rt: &H,
    shim: &Shim<J>,
    answer: &Result<Reply, Refusal>,
    notes: &mut N,
)
    ensures told { (HasStopped answer.now → ⊥) → notes.new ≡ notes.old }
{
    let Ok(Reply::Kill { id, status }) = answer else {
        return;
    };
    if *status != Status::Stopped {
        return;
    }
    if let Some((turns, end)) = shim.ended(rt, id.as_str()) {
        notes.ended(id, turns, end);
    }
}

// Answers a line, tells the notes of both, and writes the line of the answer. If no other line is at hand, a
// worker is told first of the tasks that were started: the writer may block until somebody reads.
fn serve_line<J: Row, W: Sink, H: Wait, N: Notes>(
    rt: &H,
    alloc: Global,
    shim: &Shim<J>,
    seat: Seat<J>,
    line: Option<&[u8]>,
    is_last: bool,
    spare: &mut Option<Vec<u8>>,
    writer: &mut W,
    notes: &mut N,
) -> (Seat<J>, Result<(), WriteError>)
    ensures served { (text : List ℕ) → IsKept (option_map (λ b. b.now) line.entry) text
        → (reply : List ℕ) × IsServed seat text reply result.0
        × Writes result.1 reply (W.contents writer.old) (W.contents writer.new) }
    ensures failed { result.1 ≡ Err WriteError.Stream → W.has_failed writer.new }
{
    let (seat, answer) = answer(rt, alloc, shim, seat, line, notes);
    tell_killed(rt, shim, &answer, notes);
    notes.note(shim, &seat, line, &answer);
    if is_last {
        shim.wake(rt);
    }
    let written = write_answer(alloc, &answer, spare, writer);
    (seat, written)
}

/// Answers each line of a caller's reader by one line, written and flushed before the next line is
/// waited for, until the reader is at its end. A line that is no request is answered `BadRequest`.
/// If the reader fails, each line that it has given with its line feed is answered, and no other.
/// A fault of a stream is told only if that stream has failed. A worker is woken for a task that was
/// started before the reply is written, or, if another line is at hand, at the latest when that was
/// read and is no wait for that task. The seat is that of the caller, and is given back. The notes
/// are told each line and its answer, before its reply is written; what is answered and written is as
/// the clauses say, whatever they do.
pub fn drive<J: Row, R: Source, W: Sink, H: Wait, N: Notes>(
    rt: &H,
    alloc: Global,
    shim: &Shim<J>,
    seat: Seat<J>,
    reader: &mut R,
    writer: &mut W,
    notes: &mut N,
) -> (Seat<J>, Driven)
    ensures lines { Drives result.1 seat result.0 (R.remaining reader.old) (R.remaining reader.new)
        (W.contents writer.old) (W.contents writer.new) }
    ensures told { IsTold result.1 (R.has_failed reader.new) (W.has_failed writer.new) }
{
    let Ok(mut lines) = LineReader::new(alloc) else {
        return (seat, Driven::NoMemory);
    };
    let mut seat = seat;
    let mut spare = None;
    loop {
        if spare.is_none() {
            spare = spare_memory(alloc);
        }
        match lines.next(reader) {
            Ok(true) => {}
            Ok(false) => return (seat, Driven::End),
            Err(stop) => return (seat, Driven::from(stop)),
        }
        let (next, written) = serve_line(
            rt,
            alloc,
            shim,
            seat,
            lines.bytes(),
            !lines.has_line(),
            &mut spare,
            writer,
            notes,
        );
        seat = next;
        if let Err(error) = written {
            shim.wake(rt);
            return (seat, Driven::from(error));
        }
    }
}
