//! The frames of a task as JSON values.

ghost use Rattle.std.specs.Prelude.{◌≡◌, IfOk, string_bytes};
ghost use Rattle.wasm_ast.specs.declared.values.Value.TheVariants as values;
ghost use Rattle.serde_json.specs.View.{view};
ghost use Rattle.task_requests.specs.declared.request.Reply.TheVariants as reply;
ghost use Rattle.request_lines.specs.Shape.{count};
ghost use Rattle.request_lines.specs.Reply.{value_text, values_data, list_data, next_data, frame_data, reply_data};

use crate::shown::{OK, Shown, add};
use serde_json::{Map, Value as Json, put};
use std::alloc::{AllocError, Global};
use wasm_ast::{ShownFrame, Value, push_signed32, push_signed64};

// The text of a value of 32 bits.
fn text_of_32(alloc: Global, number: u32) -> Result<String, AllocError>
    ensures { IfOk result (λ t. string_bytes t ≡ value_text (values.I32 number)) }
{
    let mut text = String::from_str(alloc, "i32:")?;
    push_signed32(&mut text, number)?;
    Ok(text)
}

// The text of a value of 64 bits.
fn text_of_64(alloc: Global, number: u64) -> Result<String, AllocError>
    ensures { IfOk result (λ t. string_bytes t ≡ value_text (values.I64 number)) }
{
    let mut text = String::from_str(alloc, "i64:")?;
    push_signed64(&mut text, number)?;
    Ok(text)
}

// The text of a value: its type, and its number read as signed.
fn text_of(alloc: Global, value: Value) -> Result<String, AllocError>
    ensures { IfOk result (λ t. string_bytes t ≡ value_text value) }
{
    match value {
        Value::I32(number) => text_of_32(alloc, number),
        Value::I64(number) => text_of_64(alloc, number),
    }
}

// The value of a list of values of a frame.
fn values_value(alloc: Global, values: &[Value]) -> Result<Json, AllocError>
    ensures { IfOk result (λ v. view v ≡ values_data values.now) }
{
    let mut list = Vec::with_capacity(alloc, values.len())?;
    for value in values {
        list.push(Json::String(text_of(alloc, *value)?))?;
    }
    Ok(Json::Array(list))
}

// The value of a list of places.
fn places_value(alloc: Global, places: &[u32]) -> Result<Json, AllocError>
    ensures { IfOk result (λ v. view v ≡ list_data count places.now) }
{
    let mut list = Vec::with_capacity(alloc, places.len())?;
    for place in places {
        list.push(Json::from(u64::from(*place)))?;
    }
    Ok(Json::Array(list))
}

// The value of the place that is next in a frame.
fn next_value(alloc: Global, next: Option<u32>) -> Result<Json, AllocError>
    ensures { IfOk result (λ v. view v ≡ next_data next) }
{
    match next {
        Some(place) => Ok(Json::from(u64::from(place))),
        None => Ok(Json::String(String::from_str(alloc, "end")?)),
    }
}

// The value of a frame.
fn frame_value(alloc: Global, frame: &ShownFrame) -> Result<Json, AllocError>
    ensures { IfOk result (λ v. view v ≡ frame_data frame.now) }
{
    let mut members = Map::new(alloc);
    let func = Json::from(u64::from(frame.func));
    put(&mut members, alloc, "func", func)?;
    let labels = places_value(alloc, frame.labels.as_slice())?;
    put(&mut members, alloc, "labels", labels)?;
    let locals = values_value(alloc, frame.locals.as_slice())?;
    put(&mut members, alloc, "locals", locals)?;
    let next = next_value(alloc, frame.next)?;
    put(&mut members, alloc, "next", next)?;
    let operands = values_value(alloc, frame.operands.as_slice())?;
    put(&mut members, alloc, "operands", operands)?;
    Ok(Json::Object(members))
}

// The value of a list of frames.
fn frames_value(alloc: Global, frames: &[ShownFrame]) -> Result<Json, AllocError>
    ensures { IfOk result (λ v. view v ≡ list_data frame_data frames.now) }
{
    let mut list = Vec::with_capacity(alloc, frames.len())?;
    for frame in frames {
        list.push(frame_value(alloc, frame)?)?;
    }
    Ok(Json::Array(list))
}

/// The value of a reply that is the frames of a task.
pub(crate) fn inspect_value(
    alloc: Global,
    frames: &[ShownFrame],
    id: &str,
    n: u64,
) -> Result<Json, AllocError>
    ensures { IfOk result (λ v. view v ≡ reply_data (reply.Inspect frames.now id.now n)) }
{
    let mut members = Map::new(alloc);
    let frames = frames_value(alloc, frames)?;
    put(&mut members, alloc, "frames", frames)?;
    let id = ("id", Shown::Text(id));
    add(alloc, &mut members, &[id, ("n", Shown::Count(n)), OK])?;
    Ok(Json::Object(members))
}
