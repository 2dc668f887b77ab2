//! The properties of a JSON value, and tests on them.

ghost use Rattle.std.specs.Prelude.{◌≡◌, ◌==◌, option_map};
ghost use Rattle.std.specs.List.{list_any};
ghost use Rattle.serde_json.specs.View.{view, items_view, members_view};
ghost use Rattle.serde_json.specs.Written.{has_float, items_have_float, members_have_float};
ghost use Rattle.oci_config.specs.Config.{text_at, object_at, part_at, begins, is_plain, are_texts};
ghost use Rattle.oci_config.specs.Inside.Parts.{part_of};

use serde_json::{Map, Value};

// ---- numbers: each is read as a u64 or an i64

/// Whether a number in a value is no integer of 64 bits.
#[cycle(floats)]
pub fn has_float(value: &Value) -> bool
    ensures { result ≡ has_float (view value.now) }
{
    match value {
        Value::Null | Value::Bool(_) | Value::String(_) => false,
        Value::Number(number) => number.is_f64(),
        Value::Array(items) => items_have_float(items),
        Value::Object(members) => members_have_float(members),
    }
}

#[cycle(floats)]
fn items_have_float(items: &Vec<Value>) -> bool
    ensures { result ≡ items_have_float (items_view items.now.items) }
{
    for item in items {
        if has_float(item) {
            return true;
        }
    }
    false
}

#[cycle(floats)]
fn members_have_float(members: &Map<String, Value>) -> bool
    ensures { result ≡ members_have_float (members_view members.now.entries) }
{
    for (_key, member) in members.iter() {
        if has_float(member) {
            return true;
        }
    }
    false
}

// ---- texts

/// The text at a key, if there is one.
pub fn text_at<'a>(value: &'a Value, key: &str) -> Option<&'a str>
    ensures { option_map (λ s. s.now) result ≡ text_at key.now (view value.now) }
{
    value.get(key)?.as_str()
}

/// Whether a text begins with another.
pub fn begins(text: &str, front: &str) -> bool
    ensures { result ≡ begins front.now text.now }
{
    text.as_bytes().starts_with(front.as_bytes())
}

fn has_nul(bytes: &[u8]) -> bool
    ensures { result ≡ list_any (λ byte. byte == 0) bytes.now }
{
    bytes.iter().any(|byte| *byte == 0)
}

/// Whether a text is without U+0000.
pub fn is_plain(text: &str) -> bool
    ensures { result ≡ is_plain text.now }
{
    !has_nul(text.as_bytes())
}

/// Whether all members are texts.
pub fn are_texts(members: &Map<String, Value>) -> bool
    ensures { result ≡ are_texts (members_view members.now.entries) }
{
    for (_key, member) in members.iter() {
        if !member.is_string() {
            return false;
        }
    }
    true
}

// ---- objects

/// The object at a key, if there is one.
pub fn object_at<'a>(value: &'a Value, key: &str) -> Option<&'a Value>
    ensures { option_map (λ v. view v.now) result ≡ object_at key.now (view value.now) }
{
    let found = value.get(key)?;
    if found.is_object() { Some(found) } else { None }
}

/// The optional object at a key of a part that may itself be missing. The inner None if it is missing,
/// the outer if it is present and no object.
pub fn part_at<'a>(whole: Option<&'a Value>, key: &str) -> Option<Option<&'a Value>>
    ensures { option_map (λ o. part_of (option_map (λ v. view v.now) o)) result
        ≡ part_at key.now (part_of (option_map (λ v. view v.now) whole.entry)) }
{
    let Some(whole) = whole else {
        return Some(None);
    };
    let Some(part) = whole.get(key) else {
        return Some(None);
    };
    if part.is_object() {
        Some(Some(part))
    } else {
        None
    }
}
