//! Why a line is no request, or no event of a replay.

use crate::json::{kind_of_value, parse, why_kind};
use crate::texts::{Shown, Told, or, push_item};
use request_lines::{Key, Kind, MAX_LINE_BYTES, Op};
use serde_json::{Map, Number, Value};
use std::alloc::Global;
use std::str::from_utf8;
use task_requests::MAX_BUDGET;

/// Which lines are read.
#[derive(Clone, Copy, PartialEq, Eq, Debug)]
pub enum Lines {
    /// Requests, as `serve` reads them.
    Requests,
    /// Requests, takes and returns, as `replay` reads them.
    Events,
}

fn digits_text(alloc: Global, path: &str, digits: &str) -> Told {
    for (i, c) in digits.chars().enumerate() {
        if !c.is_ascii_hexdigit() {
            return format!(in alloc; "{path}: character {i}, from 0, is none of 0-9 a-f A-F");
        }
    }
    let count = digits.len();
    if count % 2 == 0 {
        return Ok(String::new(alloc));
    }
    format!(in alloc; "{path} has {count} digits, and has to have an even number of them")
}

// What is said of a number that is no whole one, or of turns and out of its range.
fn number_text(alloc: Global, path: &str, number: &Number, kind: Kind) -> Told {
    match number.as_u64() {
        None => format!(in alloc;
            "{path}: {number} is no whole number from 0 to 2^64 - 1 in digits alone"
        ),
        Some(budget) if kind == Kind::Budget && (budget == 0 || budget > MAX_BUDGET) => {
            format!(in alloc; "{path}: {budget} is not from 1 to {MAX_BUDGET}")
        }
        Some(_) => Ok(String::new(alloc)),
    }
}

// What is said of a key that is missing or has another value.
fn why_key(alloc: Global, op: Op, key: Key, members: &Map<String, Value>) -> Told {
    let path = format!(in alloc; "{}: {}", op.word(), key.name())?;
    let path = path.as_str();
    match (key.kind(), members.get(key.name())) {
        (Kind::Digits, Some(Value::String(text))) => digits_text(alloc, path, text.as_str()),
        (Kind::Number | Kind::Budget, Some(Value::Number(number))) => {
            number_text(alloc, path, number, key.kind())
        }
        (Kind::Text | Kind::Digits, found) => why_kind(alloc, path, found, "a text"),
        (Kind::Number | Kind::Budget, found) => why_kind(alloc, path, found, "a number"),
    }
}

// What is said of the first key that is missing or has another value.
fn why_keys(alloc: Global, op: Op, members: &Map<String, Value>) -> Told {
    for key in op.keys() {
        let text = why_key(alloc, op, *key, members)?;
        if !text.is_empty() {
            return Ok(text);
        }
    }
    Ok(String::new(alloc))
}

fn key_names(alloc: Global, op: Op) -> Told {
    let mut names = String::from_str(alloc, "op")?;
    for key in op.keys() {
        push_item(&mut names, ", ", key.name())?;
    }
    Ok(names)
}

fn has_key(op: Op, name: &str) -> bool {
    for key in op.keys() {
        if key.name() == name {
            return true;
        }
    }
    name == "op"
}

// What is said of the first key that the line does not have.
fn why_further(alloc: Global, op: Op, members: &Map<String, Value>) -> Told {
    for (key, _value) in members.iter() {
        if !has_key(op, key.as_str()) {
            let (word, key) = (op.word(), Shown(key.as_str()));
            let names = key_names(alloc, op)?;
            return format!(in alloc; "{word}: no key is named {key}; its keys are {names}");
        }
    }
    Ok(String::new(alloc))
}

fn why_op(alloc: Global, word: &str, members: &Map<String, Value>, lines: Lines) -> Told {
    match Op::with_word(word) {
        None => format!(in alloc; "op: there is no request \"{}\"", Shown(word)),
        Some(Op::Take | Op::Return) if lines == Lines::Requests => {
            format!(in alloc; "op: \"{word}\" is for replays alone")
        }
        Some(op) => or(
            why_keys(alloc, op, members),
            why_further(alloc, op, members),
        ),
    }
}

fn why_value(alloc: Global, value: &Value, lines: Lines) -> Told {
    let Value::Object(members) = value else {
        return format!(in alloc; "{}; a request is a JSON object", kind_of_value(value));
    };
    match members.get("op") {
        Some(Value::String(op)) => why_op(alloc, op.as_str(), members, lines),
        other => why_kind(alloc, "op", other, "a text"),
    }
}

fn why_text(alloc: Global, text: &str, lines: Lines) -> Told {
    if text.trim().is_empty() {
        return String::from_str(alloc, "an empty line; a request is a JSON object");
    }
    match parse(alloc, text)? {
        Ok(value) => why_value(alloc, &value, lines),
        Err(fault) => Ok(fault),
    }
}

/// Why a line, given without its line feed, is no request, or no event of a replay, in one line without its
/// line feed: what is missing, what is there that cannot be, or where it is no JSON; an empty text if it is
/// one. An error only if memory runs out.
pub fn why_line(alloc: Global, line: &[u8], lines: Lines) -> Told {
    let count = line.len();
    if count > MAX_LINE_BYTES {
        return format!(in alloc; "the line has {count} bytes, and the limit is {MAX_LINE_BYTES}");
    }
    match from_utf8(line) {
        Ok(text) => why_text(alloc, text, lines),
        Err(error) => format!(in alloc; "the byte at offset {} is no UTF-8", error.valid_up_to()),
    }
}
