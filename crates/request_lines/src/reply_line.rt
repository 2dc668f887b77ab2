//! Lines of replies.

ghost use Rattle.std.specs.Prelude.{◌≡◌, IfOk, IfErr, string_bytes, false};
ghost use Rattle.serde_json.specs.View.{view};
ghost use Rattle.serde_json.specs.Written.{has_float};
ghost use Rattle.request_lines.specs.Reply.{refusal_data, json_of, event_data, line_text};

use crate::reply_value::{answer_value, event_value};
use serde_json::Value;
use std::alloc::{AllocError, Global};
use task_requests::{EventReply, Reply};
use wasm_ast::Refusal;

// The line of a JSON value.
fn line_of_value(alloc: Global, value: &Value) -> Result<String, AllocError>
    requires { has_float (view value.now) ≡ false }
    ensures { IfOk result (λ s. string_bytes s ≡ line_text (view value.now)) }
{
    let mut line = value.to_string(alloc)?;
    line.push_str("\n")?;
    Ok(line)
}

/// The line of what a request is answered, with its line feed. An error only if memory runs out.
#[tactic(auto, using(crate::proofs::FloatLemmas::texts_have_none, crate::proofs::FloatLemmas::frames_have_none))]
pub fn answer_line(alloc: Global, answer: &Result<Reply, Refusal>) -> Result<String, AllocError>
    ensures { IfOk result (λ s. string_bytes s ≡ line_text (json_of answer.now)) }
{
    let value = answer_value(alloc, answer)?;
    line_of_value(alloc, &value)
}

/// The line of what an event is answered, with its line feed. An error only if memory runs out.
#[tactic(auto, using(crate::proofs::FloatLemmas::texts_have_none, crate::proofs::FloatLemmas::frames_have_none))]
pub fn event_line(alloc: Global, reply: &EventReply) -> Result<String, AllocError>
    ensures { IfOk result (λ s. string_bytes s ≡ line_text (event_data reply.now)) }
{
    let value = event_value(alloc, reply)?;
    line_of_value(alloc, &value)
}

/// The line of what a request is answered: compact JSON with its keys in byte order, and a line feed.
/// `NoMemory` if memory runs out, and no other refusal.
pub fn line_of(alloc: Global, reply: &Result<Reply, Refusal>) -> Result<String, Refusal>
    ensures ok { IfOk result (λ s. string_bytes s ≡ line_text (json_of reply.now)) }
    ensures errors { IfErr result (λ e. e ≡ Refusal.NoMemory) }
{
    Ok(answer_line(alloc, reply)?)
}

/// The line of what an event is answered, as `line_of` says of requests. That of a take or a return is
/// `{"ok":true,"taken":..}` or `{"ok":true,"returned":..}`.
pub fn event_line_of(alloc: Global, reply: &EventReply) -> Result<String, Refusal>
    ensures ok { IfOk result (λ s. string_bytes s ≡ line_text (event_data reply.now)) }
    ensures errors { IfErr result (λ e. e ≡ Refusal.NoMemory) }
{
    Ok(event_line(alloc, reply)?)
}

/// The line of the refusal `NoMemory`, which needs no memory.
pub fn no_memory_line() -> &'static str
    ensures { result.now ≡ line_text (refusal_data Refusal.NoMemory) }
{
    "{\"error\":\"NoMemory\",\"number\":17,\"ok\":false}\n"
}

/// The line of the refusal `BadRequest`, which needs no memory.
pub fn bad_request_line() -> &'static str
    ensures { result.now ≡ line_text (refusal_data Refusal.BadRequest) }
{
    "{\"error\":\"BadRequest\",\"number\":1,\"ok\":false}\n"
}
