//! Values of JSON, and what is said of one that is not as it has to be.

use crate::texts::{Shown, Told};
use serde_json::{Map, Value};
use std::alloc::{AllocError, Global};

/// What kind of value this is.
pub fn kind_of_value(value: &Value) -> &'static str {
    match value {
        Value::Null => "null",
        Value::Bool(_) => "true or false",
        Value::Number(_) => "a number",
        Value::String(_) => "a text",
        Value::Array(_) => "a list",
        Value::Object(_) => "an object",
    }
}

/// That there is nothing at a path, or a value of another kind than is wanted; an empty text if it is of that
/// kind. What is wanted begins with its kind.
pub fn why_kind(alloc: Global, path: &str, found: Option<&Value>, wanted: &str) -> Told {
    let Some(value) = found else {
        return format!(in alloc; "{path} is missing; it has to be {wanted}");
    };
    let kind = kind_of_value(value);
    if wanted.starts_with(kind) {
        return Ok(String::new(alloc));
    }
    format!(in alloc; "{path} is {kind}, and has to be {wanted}")
}

/// Reads a text as JSON: its value, or else why there is none. An error only if memory runs out.
pub fn parse(alloc: Global, text: &str) -> Result<Result<Value, String>, AllocError> {
    match Value::from_str(alloc, text) {
        Ok(value) => Ok(Ok(value)),
        Err(error) if error.is_memory() => Err(AllocError),
        Err(error) => Ok(Err(format!(in alloc; "{error}")?)),
    }
}

// The path to the first number of a value that is no integer of 64 bits, from the value on, and what is said
// of it; an empty text if it has none.
#[cycle(floats)]
fn in_value(alloc: Global, value: &Value) -> Told {
    match value {
        Value::Number(number) if number.is_f64() => {
            format!(in alloc; ": {number} is no whole number of 64 bits")
        }
        Value::Array(items) => in_items(alloc, items),
        Value::Object(members) => in_members(alloc, members),
        _ => Ok(String::new(alloc)),
    }
}

#[cycle(floats)]
fn in_items(alloc: Global, items: &Vec<Value>) -> Told {
    let mut index = 0u64;
    for item in items {
        let rest = in_value(alloc, item)?;
        if !rest.is_empty() {
            return format!(in alloc; "[{index}]{rest}");
        }
        index = index.saturating_add(1);
    }
    Ok(String::new(alloc))
}

#[cycle(floats)]
fn in_members(alloc: Global, members: &Map<String, Value>) -> Told {
    for (key, member) in members.iter() {
        let rest = in_value(alloc, member)?;
        if !rest.is_empty() {
            return format!(in alloc; ".{}{rest}", Shown(key.as_str()));
        }
    }
    Ok(String::new(alloc))
}

/// What is said of the first number in a value, wherever it is, that is no integer of 64 bits; an empty text
/// if there is none.
pub fn why_numbers(alloc: Global, value: &Value) -> Told {
    let text = in_value(alloc, value)?;
    match text.as_str().strip_prefix('.') {
        Some(path) => String::from_str(alloc, path),
        None => Ok(text),
    }
}
