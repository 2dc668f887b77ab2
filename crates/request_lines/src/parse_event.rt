//! Lines to events.

ghost use Rattle.std.specs.Prelude.{◌≡◌, ◌<◌, ◌⊎◌, IfOk, IfErr, Ok, Err, Some, length};
ghost use Rattle.hex.specs.Hex.{decode_of};
ghost use Rattle.task_requests.specs.declared.event.Event.{Event};
ghost use Rattle.task_requests.specs.declared.event.Event.TheVariants.{Call};
ghost use Rattle.task_requests.specs.declared.request.Request.TheVariants as asked;
ghost use Rattle.request_lines.specs.Request.{IsEvent};
ghost use Rattle.request_lines.specs.Shape.{max_line_bytes};
ghost use Rattle.request_lines.specs.Inside.Parse.{Parses};
ghost use Rattle.request_lines.specs.Inside.Values.{put_read, take_read, event_read};

use crate::line_error::LineError;
use crate::members::{read_value, split_op};
use crate::table::Op;
use crate::values::{Values, take_values};
use hex::FromHexError;
use std::alloc::Global;
use task_requests::{Ask, Event, MAX_BUDGET, Request, SharedBytes};
use wasm_ast::{Bytes, Refusal, Sequence, Text};

/// Reads hexadecimal digits of either case, two to a byte.
fn read_hex(alloc: Global, digits: &str) -> Result<Bytes, LineError>
    ensures { Parses (λ b. decode_of digits.now ≡ Ok b) result }
{
    match hex::decode(alloc, digits) {
        Ok(bytes) => Ok(Sequence::new(bytes)),
        Err(FromHexError::OutOfMemory) => Err(LineError::OutOfMemory),
        Err(_) => Err(LineError::NoRequest),
    }
}

/// Makes the put of the bytes with these digits.
fn read_put(alloc: Global, digits: &Text) -> Result<Event, LineError>
    ensures { Parses (λ e. put_read (decode_of digits.now) ≡ Some e) result }
{
    let bytes = read_hex(alloc, digits.as_str())?;
    Ok(Event::Call(Request::Put {
        bytes: SharedBytes::new(alloc, bytes)?,
    }))
}

/// Makes the take of a slice, whose budget has to be from 1 to 1,000,000.
fn read_take(id: Text, budget: u64) -> Result<Event, LineError>
    ensures { Parses (λ e. take_read id budget ≡ Some e) result }
{
    if budget < 1 || budget > MAX_BUDGET {
        return Err(LineError::NoRequest);
    }
    Ok(Event::Take(id, budget))
}

/// Makes the event that asks this of a task.
fn of_task(id: Text, ask: Ask) -> Result<Event, LineError>
    ensures { result ≡ Ok (Call (asked.Task id ask)) }
{
    Ok(Event::Call(Request::Task { id, ask }))
}

/// Makes the event of these values. There is none if the digits of a put or the budget of a take
/// are malformed.
fn make_event(alloc: Global, op: Op, values: Values) -> Result<Event, LineError>
    ensures { Parses (λ e. event_read op values ≡ Some e) result }
{
    let Values {
        id,
        text,
        first,
        second,
    } = values;
    // The numbers of a line that has two, by their keys.
    let (func, place) = (first, second);
    let (address, length) = (first, second);
    match op {
        Op::Put => read_put(alloc, &text),
        Op::PutText => Ok(Event::Call(Request::PutText { text })),
        Op::Remove => Ok(Event::Call(Request::Remove { digest: text })),
        Op::LeaseCreate => Ok(Event::Call(Request::LeaseCreate { id })),
        Op::LeaseAdd => Ok(Event::Call(Request::LeaseAdd { digest: text, id })),
        Op::LeaseDelete => Ok(Event::Call(Request::LeaseDelete { id })),
        Op::Gc => Ok(Event::Call(Request::Gc)),
        Op::Create => Ok(Event::Call(Request::Create { config: text, id })),
        Op::Start => of_task(id, Ask::Start),
        Op::Pause => of_task(id, Ask::Pause),
        Op::Resume => of_task(id, Ask::Resume),
        Op::Kill => of_task(id, Ask::Kill { signal: first }),
        Op::Delete => of_task(id, Ask::Delete),
        Op::State => of_task(id, Ask::State),
        Op::Wait => of_task(id, Ask::Wait),
        Op::Output => of_task(id, Ask::Output { stream: first }),
        Op::Break => of_task(id, Ask::Break { func, place }),
        Op::Unbreak => of_task(id, Ask::Unbreak { func, place }),
        Op::Step => of_task(id, Ask::Step { count: first }),
        Op::Inspect => of_task(id, Ask::Inspect),
        Op::Peek => of_task(id, Ask::Peek { address, length }),
        Op::Take => read_take(id, first),
        Op::Return => Ok(Event::Return(id)),
    }
}

/// Reads a line as an event. `NoRequest` if it is none, `OutOfMemory` if memory runs out.
pub fn read_event_line(alloc: Global, line: &[u8]) -> Result<Event, LineError>
    ensures ok { IfOk result (λ e. IsEvent line.now e) }
    ensures none { result ≡ Err LineError.NoRequest → (e : Event) → IsEvent line.now e → ⊥ }
    ensures long { max_line_bytes < length line.now → result ≡ Err LineError.NoRequest }
{
    let value = read_value(alloc, line)?;
    let Some((word, members)) = split_op(value) else {
        return Err(LineError::NoRequest);
    };
    let Some(op) = Op::with_word(word.as_str()) else {
        return Err(LineError::NoRequest);
    };
    let Some(values) = take_values(alloc, op.keys(), members) else {
        return Err(LineError::NoRequest);
    };
    make_event(alloc, op, values)
}

/// Reads a line of a replay, given without its line feed, as an event: a request,
/// `{"op":"take","id":..,"budget":1 to 1000000}` or `{"op":"return","id":..}`, with exactly these keys.
///
/// `BadRequest` exactly if the line is no event, as `request_of` says of requests; `NoMemory` if memory
/// runs out.
pub fn event_of(alloc: Global, line: &[u8]) -> Result<Event, Refusal>
    ensures ok { IfOk result (λ e. IsEvent line.now e) }
    ensures bad { result ≡ Err Refusal.BadRequest → (e : Event) → IsEvent line.now e → ⊥ }
    ensures long { max_line_bytes < length line.now → result ≡ Err Refusal.BadRequest }
    ensures errors { IfErr result (λ e. (e ≡ Refusal.BadRequest) ⊎ (e ≡ Refusal.NoMemory)) }
{
    Ok(read_event_line(alloc, line)?)
}
