//! Why a request of `serve` is refused.

ghost use Rattle.std.specs.Prelude.{◌≡◌, ◌≢◌, [], IfOk, IfSome, string_bytes, true};
ghost use Rattle.wasm_ast.specs.Identifiers.{is_id};

use crate::config::why_config;
use crate::json::parse;
use crate::limits::why_limit;
use crate::line::{Lines, why_line};
use crate::request_facts::said_of;
use crate::texts::{Shown, Told, push_item};
use crate::{bad_text, why_file};
use oci_config::read_config;
use request_lines::{Key, MAX_LINE_BYTES, Op};
use serde_json::Value;
use std::alloc::{AllocError, Global};
use std::str::from_utf8;
use wasm_ast::{Refusal, is_digest, is_id};

/// What is said if nothing else is known.
const OTHER: &str = "as docs/PROTOCOL.md says of this number";

/// Where the bytes of contents are looked up.
pub trait Contents {
    /// The bytes under a digest, if they are found. An error only if memory runs out.
    fn bytes_under(&self, alloc: Global, digest: &str) -> Result<Option<Vec<u8>>, AllocError>;
}

// The text that a request has under a key.
fn text_at<'a>(request: &'a Value, key: &str) -> Option<&'a str> {
    request.get(key)?.as_str()
}

fn key_text(alloc: Global, request: &Value, key: &str) -> Told {
    match request.get(key) {
        Some(Value::String(text)) => format!(in alloc; "{key} \"{}\"", Shown(text.as_str())),
        Some(Value::Number(number)) => format!(in alloc; "{key} {number}"),
        _ => format!(in alloc; "{key} "),
    }
}

fn keys_text(alloc: Global, request: &Value, keys: &[Key]) -> Told {
    let mut text = String::new(alloc);
    for key in keys {
        let shown = key_text(alloc, request, key.name())?;
        push_item(&mut text, ", ", shown.as_str())?;
    }
    Ok(text)
}

// What is said of a request by its name and the number of its refusal.
fn why_known(alloc: Global, op: Op, request: &Value, refusal: Refusal) -> Told {
    match said_of(op, refusal.number()) {
        None => Ok(String::new(alloc)),
        Some(([], text)) => String::from_str(alloc, text),
        Some((keys, text)) => {
            let keys = keys_text(alloc, request, keys)?;
            format!(in alloc; "{keys}: {text}")
        }
    }
}

fn why_names(alloc: Global, request: &Value) -> Told {
    match (text_at(request, "digest"), text_at(request, "id")) {
        (Some(digest), _) if !is_digest(digest) => format!(in alloc;
            "digest \"{}\": not sha256: and 64 digits 0-9 a-f after it",
            Shown(digest)
        ),
        (_, Some(id)) if !is_id(id) => format!(in alloc;
            "id \"{}\": not 1 to 64 characters A-Z a-z 0-9 . _ -, the first a letter or a digit",
            Shown(id)
        ),
        _ => Ok(String::new(alloc)),
    }
}

fn why_text(alloc: Global, request: &Value, refusal: Refusal) -> Told {
    let Some(text) = text_at(request, "text") else {
        return Ok(String::new(alloc));
    };
    match refusal {
        Refusal::BadText { line, column } => {
            bad_text::why_text(alloc, text.as_bytes(), line, column)
        }
        Refusal::Limit => why_file(alloc, text.as_bytes(), refusal),
        _ => why_known(alloc, Op::PutText, request, refusal),
    }
}

// Why no task can be made of the content that a config names.
fn why_content<C: Contents>(alloc: Global, config: &str, refusal: Refusal, contents: &C) -> Told {
    let process = match read_config(alloc, config.as_bytes()) {
        Ok(process) => process,
        Err(Refusal::NoMemory) => return Err(AllocError),
        Err(_) => return Ok(String::new(alloc)),
    };
    let most = u64::from(process.cap.pages());
    let by = "linux.resources.memory.limit";
    match contents.bytes_under(alloc, process.module.as_str())? {
        None => Ok(String::new(alloc)),
        Some(bytes) if refusal == Refusal::Limit => why_limit(alloc, bytes.as_slice(), most, by),
        Some(bytes) => why_file(alloc, bytes.as_slice(), refusal),
    }
}

// Why a create is refused: for the config, for what is known of it, or else for the content.
fn why_create<C: Contents>(alloc: Global, request: &Value, refusal: Refusal, contents: &C) -> Told {
    let Some(config) = text_at(request, "config") else {
        return Ok(String::new(alloc));
    };
    if refusal == Refusal::BadConfig {
        return why_config(alloc, config);
    }
    let known = why_known(alloc, Op::Create, request, refusal)?;
    if known.is_empty() {
        why_content(alloc, config, refusal, contents)
    } else {
        Ok(known)
    }
}

// Why a request is refused, after its name; an empty text if nothing is known.
fn why_value<C: Contents>(alloc: Global, request: &Value, refusal: Refusal, contents: &C) -> Told {
    let Some(op) = Op::with_word(text_at(request, "op").unwrap_or("")) else {
        return Ok(String::new(alloc));
    };
    let why = match (refusal, op) {
        (Refusal::BadId, _) => why_names(alloc, request),
        (_, Op::PutText) => why_text(alloc, request, refusal),
        (_, Op::Create) => why_create(alloc, request, refusal, contents),
        _ => why_known(alloc, op, request, refusal),
    }?;
    if why.is_empty() {
        return Ok(why);
    }
    format!(in alloc; "{}: {why}", op.word())
}

fn value_of(alloc: Global, line: &[u8]) -> Result<Option<Value>, AllocError> {
    match from_utf8(line) {
        Ok(text) => Ok(parse(alloc, text)?.ok()),
        Err(_) => Ok(None),
    }
}

// Why a line is refused; an empty text if nothing is known.
fn find_reason<C: Contents>(alloc: Global, line: Option<&[u8]>, refusal: Refusal, of: &C) -> Told {
    match (line, refusal) {
        (None, _) => format!(in alloc; "the line has more than {MAX_LINE_BYTES} bytes, the limit"),
        (Some(line), Refusal::BadRequest) => why_line(alloc, line, Lines::Requests),
        (Some(line), _) => match value_of(alloc, line)? {
            Some(request) => why_value(alloc, &request, refusal, of),
            None => Ok(String::new(alloc)),
        },
    }
}

/// Why the request of a line is refused so, in one line without its line feed, which is never empty: what has
/// to be another, by its key, and why. Of the line nothing is there if it is too long. For a create the bytes
/// of the content are looked up. An error only if memory runs out.
pub fn why_request<C: Contents>(
    alloc: Global,
    line: Option<&[u8]>,
    refusal: Refusal,
    contents: &C,
) -> Told
    ensures { IfOk result (λ s. string_bytes s ≢ []) }
{
    let reason = find_reason(alloc, line, refusal, contents)?;
    if reason.is_empty() {
        String::from_str(alloc, OTHER)
    } else {
        Ok(reason)
    }
}

/// The id that the request of a line names, if it names one that is well-formed. An error only if memory runs
/// out.
pub fn id_in(alloc: Global, line: &[u8]) -> Result<Option<String>, AllocError>
    ensures { IfOk result (λ found. IfSome found (λ s. is_id (string_bytes s) ≡ true)) }
{
    let Some(request) = value_of(alloc, line)? else {
        return Ok(None);
    };
    match text_at(&request, "id") {
        Some(id) if is_id(id) => Ok(Some(String::from_str(alloc, id)?)),
        _ => Ok(None),
    }
}
