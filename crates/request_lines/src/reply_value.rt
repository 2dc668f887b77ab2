//! Replies as JSON values.

ghost use Rattle.std.specs.Prelude.{◌≡◌, IfOk, OnOk, codes, [], ◌∷◌, true, Some};
ghost use Rattle.hex.specs.Hex.{encode_lower};
ghost use Rattle.serde_json.specs.Data.{string, put, no_members};
ghost use Rattle.serde_json.specs.View.{view, members_view};
ghost use Rattle.task_lifecycle.specs.Names.{cause_name, exit_status};
ghost use Rattle.task_requests.specs.declared.request.Reply.TheVariants as reply;
ghost use Rattle.request_lines.specs.Shape.{count as count_data};
ghost use Rattle.request_lines.specs.Reply.{refusal_data, list_data, state_data, reply_data, json_of, event_data};
ghost use Rattle.request_lines.specs.Inside.States.{base_members, with_detail};

use crate::frame_value::inspect_value;
use crate::members::Members;
use crate::shown::{NOT_OK, OK, Shown, add, object};
use serde_json::{Map, Value, put};
use std::alloc::{AllocError, Global};
use task_requests::{EventReply, ExitRecord, Reply, Status, TaskState};
use wasm_ast::{Place, Refusal, Text};

// The value of a refusal.
fn refusal_value(alloc: Global, refusal: &Refusal) -> Result<Value, AllocError>
    ensures { IfOk result (λ v. view v ≡ refusal_data refusal.now) }
{
    let error = ("error", Shown::Text(refusal.name()));
    let number = ("number", Shown::Count(refusal.number()));
    match refusal {
        Refusal::BadText { line, column } => {
            let column = ("column", Shown::Count(*column));
            let line = ("line", Shown::Count(*line));
            object(alloc, &[column, error, line, number, NOT_OK])
        }
        Refusal::Invalid(Some(place)) => {
            let func = ("func", Shown::Count(u64::from(place.func)));
            let place = ("place", Shown::Count(u64::from(place.instr)));
            object(alloc, &[error, func, number, NOT_OK, place])
        }
        _ => object(alloc, &[error, number, NOT_OK]),
    }
}

// The value of a reply to a put.
fn put_value(alloc: Global, digest: &str, size: u64) -> Result<Value, AllocError>
    ensures { IfOk result (λ v. view v ≡ reply_data (reply.Put digest.now size)) }
{
    let digest = ("digest", Shown::Text(digest));
    object(alloc, &[digest, OK, ("size", Shown::Count(size))])
}

// The value of a reply to a removal.
fn digest_value(alloc: Global, digest: &str) -> Result<Value, AllocError>
    ensures { IfOk result (λ v. view v ≡ reply_data (reply.Remove digest.now)) }
{
    object(alloc, &[("digest", Shown::Text(digest)), OK])
}

// The value of a reply that is an id.
fn id_value(alloc: Global, id: &str) -> Result<Value, AllocError>
    ensures { IfOk result (λ v. view v ≡ reply_data (reply.LeaseCreate id.now)) }
{
    object(alloc, &[("id", Shown::Text(id)), OK])
}

// The value of a reply to an addition to a lease.
fn member_value<'a>(alloc: Global, digest: &'a str, id: &'a str) -> Result<Value, AllocError>
    ensures { IfOk result (λ v. view v ≡ reply_data (reply.LeaseAdd digest.now id.now)) }
{
    object(
        alloc,
        &[("digest", Shown::Text(digest)), ("id", Shown::Text(id)), OK],
    )
}

// The value of a list of texts.
fn texts_value(alloc: Global, texts: &[Text]) -> Result<Value, AllocError>
    ensures { IfOk result (λ v. view v ≡ list_data string texts.now) }
{
    let mut list = Vec::new(alloc);
    for text in texts {
        let value = Value::String(String::from_str(alloc, text.as_str())?);
        list.push(value)?;
    }
    Ok(Value::Array(list))
}

// The value of a reply to a removal of all contents that are not held.
fn removed_value(alloc: Global, digests: &[Text]) -> Result<Value, AllocError>
    ensures { IfOk result (λ v. view v ≡ reply_data (reply.Gc digests.now)) }
{
    let list = texts_value(alloc, digests)?;
    let mut members = Map::new(alloc);
    add(alloc, &mut members, &[OK])?;
    put(&mut members, alloc, "removed", list)?;
    Ok(Value::Object(members))
}

// The value of a reply that is a task's status.
fn status_value(alloc: Global, id: &str, status: Status) -> Result<Value, AllocError>
    ensures { IfOk result (λ v. view v ≡ reply_data (reply.Create id.now status)) }
{
    let id = ("id", Shown::Text(id));
    object(alloc, &[id, OK, ("status", Shown::Text(status.name()))])
}

/// Adds why a task ended: its cause and exit status.
fn put_cause(alloc: Global, members: &mut Members, end: &ExitRecord) -> Result<(), AllocError>
    ensures { OnOk result
        (members_view members.new.entries ≡ put (codes "exit") (count_data (exit_status end.now))
        (put (codes "cause") (string (cause_name end.now)) (members_view members.old.entries))) }
{
    let cause = ("cause", Shown::Text(end.cause()));
    add(alloc, members, &[cause, ("exit", Shown::Count(end.exit()))])
}

/// Adds the trap or the signal that ended a task.
fn put_detail(alloc: Global, members: &mut Members, end: &ExitRecord) -> Result<(), AllocError>
    ensures { OnOk result
        (members_view members.new.entries
        ≡ with_detail end.now (members_view members.old.entries)) }
{
    match end {
        ExitRecord::Trapped(trap) => { add(alloc, members, &[("trap", Shown::Text(trap.name()))]) }
        ExitRecord::Kill(signal) => {
            add(alloc, members, &[("signal", Shown::Count(signal.number()))])
        }
        ExitRecord::Return | ExitRecord::Exit(_) => Ok(()),
    }
}

/// The members that every state has.
fn base_members(alloc: Global, state: &TaskState) -> Result<Members, AllocError>
    ensures { IfOk result (λ m. members_view m.entries ≡ base_members state.now) }
{
    let mut members = Map::new(alloc);
    let id = ("id", Shown::Text(state.id.as_str()));
    let status = ("status", Shown::Text(state.status.name()));
    add(
        alloc,
        &mut members,
        &[id, ("n", Shown::Count(state.n)), OK, status],
    )?;
    Ok(members)
}

// The value of a state.
fn state_value(alloc: Global, state: &TaskState) -> Result<Value, AllocError>
    ensures { IfOk result (λ v. view v ≡ state_data state.now) }
{
    let mut members = base_members(alloc, state)?;
    if let Some(end) = &state.end {
        put_cause(alloc, &mut members, end)?;
        put_detail(alloc, &mut members, end)?;
    }
    Ok(Value::Object(members))
}

// The member of a reply that is bytes, in hexadecimal digits.
fn hex_member(alloc: Global, bytes: &[u8]) -> Result<Members, AllocError>
    ensures { IfOk result (λ m. members_view m.entries
        ≡ put (codes "hex") (string (encode_lower bytes.now)) no_members) }
{
    let digits = hex::encode(alloc, bytes)?;
    let mut members = Map::new(alloc);
    add(
        alloc,
        &mut members,
        &[("hex", Shown::Text(digits.as_str()))],
    )?;
    Ok(members)
}

// The value of a reply that is what a task has written.
fn output_value(alloc: Global, bytes: &[u8], id: &str, size: u64) -> Result<Value, AllocError>
    ensures { IfOk result (λ v. view v ≡ reply_data (reply.Output bytes.now id.now size)) }
{
    let mut members = hex_member(alloc, bytes)?;
    let id = ("id", Shown::Text(id));
    add(alloc, &mut members, &[id, OK, ("size", Shown::Count(size))])?;
    Ok(Value::Object(members))
}

// The value of a reply that is bytes of a task's memory.
fn peek_value(alloc: Global, bytes: &[u8], id: &str) -> Result<Value, AllocError>
    ensures { IfOk result (λ v. view v ≡ reply_data (reply.Peek bytes.now id.now)) }
{
    let mut members = hex_member(alloc, bytes)?;
    add(alloc, &mut members, &[("id", Shown::Text(id)), OK])?;
    Ok(Value::Object(members))
}

// The value of a reply.
fn reply_value(alloc: Global, reply: &Reply) -> Result<Value, AllocError>
    ensures { IfOk result (λ v. view v ≡ reply_data reply.now) }
{
    match reply {
        Reply::Put { digest, size } => put_value(alloc, digest.as_str(), *size),
        Reply::Remove { digest } => digest_value(alloc, digest.as_str()),
        Reply::LeaseCreate { id } => id_value(alloc, id.as_str()),
        Reply::LeaseAdd { digest, id } => member_value(alloc, digest.as_str(), id.as_str()),
        Reply::LeaseDelete { id } => id_value(alloc, id.as_str()),
        Reply::Break { id } => id_value(alloc, id.as_str()),
        Reply::Unbreak { id } => id_value(alloc, id.as_str()),
        Reply::Gc { removed } => removed_value(alloc, removed.as_slice()),
        Reply::Create { id, status } => status_value(alloc, id.as_str(), *status),
        Reply::Start { id, status } => status_value(alloc, id.as_str(), *status),
        Reply::Pause { id, status } => status_value(alloc, id.as_str(), *status),
        Reply::Resume { id, status } => status_value(alloc, id.as_str(), *status),
        Reply::Kill { id, status } => status_value(alloc, id.as_str(), *status),
        Reply::Delete(state) | Reply::State(state) | Reply::Wait(state) => {
            state_value(alloc, state)
        }
        Reply::Step(state) => state_value(alloc, state),
        Reply::Inspect { frames, id, n } => {
            inspect_value(alloc, frames.as_slice(), id.as_str(), *n)
        }
        Reply::Peek { bytes, id } => peek_value(alloc, bytes.as_slice(), id.as_str()),
        Reply::Output { bytes, id, size } => {
            output_value(alloc, bytes.as_slice(), id.as_str(), *size)
        }
    }
}

// The value of what a request is answered.
pub(crate) fn answer_value(
    alloc: Global,
    answer: &Result<Reply, Refusal>,
) -> Result<Value, AllocError>
    ensures { IfOk result (λ v. view v ≡ json_of answer.now) }
{
    match answer {
        Ok(reply) => reply_value(alloc, reply),
        Err(refusal) => refusal_value(alloc, refusal),
    }
}

// The value of what an event is answered.
pub(crate) fn event_value(alloc: Global, reply: &EventReply) -> Result<Value, AllocError>
    ensures { IfOk result (λ v. view v ≡ event_data reply.now) }
{
    match reply {
        EventReply::Called(answer) => answer_value(alloc, answer),
        EventReply::Taken(taken) => object(alloc, &[OK, ("taken", Shown::Flag(*taken))]),
        EventReply::Returned(returned) => object(
            alloc,
            &[OK, ("returned", Shown::Flag(*returned))],
        ),
    }
}
