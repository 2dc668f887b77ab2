//! The arguments and the environment of a process.

ghost use Rattle.std.specs.Prelude.{◌≡◌, ◌+◌, ◌<◌, option_map, IfOk, IfSome, IfNone, nat_le, ◌==◌};
ghost use Rattle.std.specs.List.{list_any, list_all};
ghost use Rattle.serde_json.specs.View.{view, items_view};
ghost use Rattle.oci_config.specs.Limits.{max_text_bytes};
ghost use Rattle.oci_config.specs.Config.{is_plain, is_entry, texts_in, bytes_of, are_arguments, args_at, are_entries, entries_in, env_at};
ghost use Rattle.oci_config.specs.Setup.{are_taken};
ghost use Rattle.oci_config.specs.Inside.Parts.{texts_at};

use crate::properties::is_plain;
use serde_json::Value;
use std::alloc::{AllocError, Global};
use wasm_ast::Text;

/// The most arguments of a process.
const MAX_ARGS: usize = 64;

/// The most entries of its environment.
const MAX_ENTRIES: usize = 64;

/// The most bytes of all arguments and entries together, one more counted for each.
const MAX_TEXT_BYTES: usize = 65_536;

// The texts of a list, if all its items are texts.
fn texts_in(alloc: Global, items: &Vec<Value>) -> Result<Option<Vec<Text>>, AllocError>
    ensures { IfOk result (λ o. option_map (λ v. v.items) o
        ≡ texts_in (items_view items.now.items)) }
{
    let mut texts = Vec::with_capacity(alloc, items.len())?;
    for item in items {
        let Some(text) = item.as_str() else {
            return Ok(None);
        };
        texts.push(Text::from_str(alloc, text)?)?;
    }
    Ok(Some(texts))
}

fn are_plain(texts: &[Text]) -> bool
    ensures { result ≡ list_all is_plain texts.now }
{
    for text in texts {
        if !is_plain(text.as_str()) {
            return false;
        }
    }
    true
}

fn are_arguments(texts: &[Text]) -> bool
    ensures { result ≡ are_arguments texts.now }
{
    1 <= texts.len() && texts.len() <= MAX_ARGS && are_plain(texts)
}

// The arguments of a process, if it has them as the profile demands.
fn args_at(alloc: Global, process: &Value) -> Result<Option<Vec<Text>>, AllocError>
    ensures { IfOk result (λ o. option_map (λ v. v.items) o ≡ args_at (view process.now)) }
{
    let Some(Value::Array(items)) = process.get("args") else {
        return Ok(None);
    };
    match texts_in(alloc, items)? {
        Some(texts) if are_arguments(texts.as_slice()) => Ok(Some(texts)),
        _ => Ok(None),
    }
}

fn has_equals_sign(bytes: &[u8]) -> bool
    ensures { result ≡ list_any (λ byte. byte == 61) bytes.now }
{
    bytes.iter().any(|byte| *byte == b'=')
}

// Whether a text is an entry of an environment.
fn is_entry(text: &str) -> bool
    ensures { result ≡ is_entry text.now }
{
    match text.as_bytes().split_first() {
        Some((_first, rest)) => has_equals_sign(rest),
        None => false,
    }
}

fn are_named(texts: &[Text]) -> bool
    ensures { result ≡ list_all is_entry texts.now }
{
    for text in texts {
        if !is_entry(text.as_str()) {
            return false;
        }
    }
    true
}

fn are_entries(texts: &[Text]) -> bool
    ensures { result ≡ are_entries texts.now }
{
    texts.len() <= MAX_ENTRIES && are_plain(texts) && are_named(texts)
}

// The entries of an environment, if they are as the profile demands.
fn entries_in(alloc: Global, list: &Value) -> Result<Option<Vec<Text>>, AllocError>
    ensures { IfOk result (λ o. option_map (λ v. v.items) o ≡ entries_in (view list.now)) }
{
    let Value::Array(items) = list else {
        return Ok(None);
    };
    match texts_in(alloc, items)? {
        Some(texts) if are_entries(texts.as_slice()) => Ok(Some(texts)),
        _ => Ok(None),
    }
}

// The environment of a process, if it is as the profile demands.
fn env_at(alloc: Global, process: &Value) -> Result<Option<Vec<Text>>, AllocError>
    ensures { IfOk result (λ o. option_map (λ v. v.items) o ≡ env_at (view process.now)) }
{
    match process.get("env") {
        Some(list) => entries_in(alloc, list),
        None => Ok(Some(Vec::new(alloc))),
    }
}

// What is left of a number of bytes once the texts, with one byte more for each, are in them. None if
// they do not fit.
fn bytes_left(texts: &[Text], most: usize) -> Option<usize>
    ensures some { IfSome result (λ left. bytes_of texts.now + left ≡ most) }
    ensures none { IfNone result (most < bytes_of texts.now) }
{
    let mut left = most;
    for text in texts {
        let size = text.as_str().len();
        if left <= size {
            return None;
        }
        left -= size + 1;
    }
    Some(left)
}

// Whether arguments and entries, with one byte more for each, take at most 65,536 bytes.
fn fit(args: &[Text], env: &[Text]) -> bool
    ensures { result ≡ nat_le (bytes_of args.now + bytes_of env.now) max_text_bytes }
{
    match bytes_left(args, MAX_TEXT_BYTES) {
        Some(left) => bytes_left(env, left).is_some(),
        None => false,
    }
}

/// Whether a process may have these arguments with this environment.
pub fn are_taken(args: &[Text], env: &[Text]) -> bool
    ensures { result ≡ are_taken args.now env.now }
{
    are_arguments(args) && are_entries(env) && fit(args, env)
}

/// The arguments and the environment of a process, if they are as the profile demands. An error if
/// memory runs out.
pub fn texts_at(
    alloc: Global,
    process: &Value,
) -> Result<Option<(Vec<Text>, Vec<Text>)>, AllocError>
    ensures { IfOk result
        (λ o. option_map (λ t. (t.0.items, t.1.items)) o ≡ texts_at (view process.now)) }
{
    let Some(args) = args_at(alloc, process)? else {
        return Ok(None);
    };
    match env_at(alloc, process)? {
        Some(env) if fit(args.as_slice(), env.as_slice()) => Ok(Some((args, env))),
        _ => Ok(None),
    }
}
