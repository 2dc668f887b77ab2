//! Why a text is no config that the profile takes.

ghost use Rattle.std.specs.Prelude.{◌≡◌, ◌≢◌, [], IfOk, None, is_some, true, string_bytes};
ghost use Rattle.oci_config.specs.Config.{process_read};

use crate::json::{parse, why_kind, why_numbers};
use crate::process_texts::{Listed, why_args, why_bytes, why_env};
use crate::texts::{Shown, Told, or};
use oci_config::read_config;
use serde_json::Value;
use std::alloc::{AllocError, Global};
use wasm_ast::{Refusal, is_digest};

/// What is said of a text that is no config and meets all demands here, of which there is none.
const OTHER: &str = "it is no config as docs/PROTOCOL.md has them";

const ARGS: Listed = (["process.args has ", " items"], ["process.args[", "]"], 0);

const ENV: Listed = (["process.env has ", " items"], ["process.env[", "]"], 0);

const NO_ITEM: &str = "process.args has no item, and has to have one";

const DIGEST: &str = "annotations.dev.shim.module";

const LIMIT: &str = "linux.resources.memory.limit";

// That there is no text at a key, or one that does not begin so.
fn why_front(alloc: Global, path: &str, found: Option<&Value>, front: &str) -> Told {
    match found {
        Some(Value::String(text)) if text.as_str().starts_with(front) => Ok(String::new(alloc)),
        Some(Value::String(text)) => {
            format!(in alloc;
                "{path}: \"{}\" does not begin with {front}",
                Shown(text.as_str())
            )
        }
        _ => why_kind(alloc, path, found, "a text"),
    }
}

fn why_directory(alloc: Global, found: Option<&Value>) -> Told {
    let text = why_front(alloc, "process.cwd", found, "/");
    match found {
        Some(Value::String(path)) if path.as_bytes().contains(&0) => {
            or(text, String::from_str(alloc, "process.cwd has a NUL byte"))
        }
        _ => text,
    }
}

fn why_list(alloc: Global, path: &str, found: Option<&Value>) -> Told {
    let Some(Value::Array(items)) = found else {
        return why_kind(alloc, path, found, "a list of texts");
    };
    for (i, item) in items.iter().enumerate() {
        if !item.is_string() {
            let path = format!(in alloc; "{path}[{i}]")?;
            return why_kind(alloc, path.as_str(), Some(item), "a text");
        }
    }
    Ok(String::new(alloc))
}

fn texts_of<'a>(alloc: Global, list: Option<&'a Value>) -> Result<Vec<&'a str>, AllocError> {
    let mut texts = Vec::new(alloc);
    if let Some(Value::Array(items)) = list {
        for item in items {
            texts.push(item.as_str().unwrap_or(""))?;
        }
    }
    Ok(texts)
}

fn why_texts(alloc: Global, process: &Value) -> Told {
    let (args, env) = (process.get("args"), process.get("env"));
    let text = why_list(alloc, "process.args", args);
    let envs = match env {
        Some(_) => why_list(alloc, "process.env", env),
        None => Ok(String::new(alloc)),
    };
    let (args, env) = (texts_of(alloc, args)?, texts_of(alloc, env)?);
    let (args, env) = (args.as_slice(), env.as_slice());
    let text = if args.is_empty() {
        or(text, String::from_str(alloc, NO_ITEM))
    } else {
        or(text, why_args(alloc, ARGS, args))
    };
    let text = or(or(text, envs), why_env(alloc, ENV, env));
    let bytes = why_bytes(alloc, "process.args and process.env", " text", args, env);
    or(text, bytes)
}

fn why_process(alloc: Global, found: Option<&Value>) -> Told {
    let text = why_kind(alloc, "process", found, "an object");
    match found {
        Some(process) => {
            let text = or(text, why_directory(alloc, process.get("cwd")));
            or(text, why_texts(alloc, process))
        }
        None => text,
    }
}

fn why_annotations(alloc: Global, found: Option<&Value>) -> Told {
    let Some(Value::Object(members)) = found else {
        return why_kind(alloc, "annotations", found, "an object");
    };
    for (key, member) in members.iter() {
        if !member.is_string() {
            let path = format!(in alloc; "annotations.{}", Shown(key.as_str()))?;
            return why_kind(alloc, path.as_str(), Some(member), "a text");
        }
    }
    match members.get("dev.shim.module") {
        Some(Value::String(digest)) if is_digest(digest.as_str()) => Ok(String::new(alloc)),
        Some(Value::String(digest)) => format!(in alloc;
            "{DIGEST}: \"{}\" is not sha256: and 64 digits 0-9 a-f after it",
            Shown(digest.as_str())
        ),
        other => why_kind(alloc, DIGEST, other, "a text"),
    }
}

// Why the limit on memory, in bytes or -1, is none; each object around it may be missing.
fn why_limit(alloc: Global, config: &Value) -> Told {
    let mut part = config;
    for path in ["linux", "linux.resources", "linux.resources.memory"] {
        let key = path.rsplit_once('.').unwrap_or(("", path)).1;
        match part.get(key) {
            Some(found) if found.is_object() => part = found,
            Some(found) => return why_kind(alloc, path, Some(found), "an object"),
            None => return Ok(String::new(alloc)),
        }
    }
    let Some(limit) = part.get("limit") else {
        return Ok(String::new(alloc));
    };
    match limit.as_i64() {
        Some(number) if number < -1 => {
            format!(in alloc; "{LIMIT}: {number} is below 0; -1 alone means no limit")
        }
        _ => why_kind(alloc, LIMIT, Some(limit), "a number"),
    }
}

fn why_value(alloc: Global, config: &Value) -> Told {
    let version = why_front(alloc, "ociVersion", config.get("ociVersion"), "1.");
    let process = why_process(alloc, config.get("process"));
    let annotations = why_annotations(alloc, config.get("annotations"));
    let text = or(or(why_numbers(alloc, config), version), process);
    or(or(text, annotations), why_limit(alloc, config))
}

fn find_reason(alloc: Global, text: &str) -> Told {
    match parse(alloc, text)? {
        Ok(config) => why_value(alloc, &config),
        Err(fault) => Ok(fault),
    }
}

// The same, or what is said if it meets all.
fn why_refused(alloc: Global, text: &str) -> Told
    ensures { IfOk result (λ s. string_bytes s ≢ []) }
{
    let reason = find_reason(alloc, text)?;
    if reason.is_empty() {
        String::from_str(alloc, OTHER)
    } else {
        Ok(reason)
    }
}

/// Why a text is no config that the profile takes, in one line without its line feed: the path of the
/// property, what is there, and what has to be; an empty text exactly if it is one. Items of lists are
/// counted from 0. An error only if memory runs out.
pub fn why_config(alloc: Global, text: &str) -> Told
    ensures accepted { IfOk result
        (λ s. string_bytes s ≡ [] → is_some (process_read text.now) ≡ true) }
    ensures refused { IfOk result (λ s. string_bytes s ≢ [] → process_read text.now ≡ None) }
{
    match read_config(alloc, text.as_bytes()) {
        Ok(_process) => Ok(String::new(alloc)),
        Err(Refusal::BadConfig) => why_refused(alloc, text),
        Err(_) => Err(AllocError),
    }
}
