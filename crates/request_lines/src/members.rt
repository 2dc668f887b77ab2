//! The JSON value of a line, and the members of an object, taken one by one.

ghost use Rattle.std.specs.Prelude.{◌≡◌, ◌≢◌, ◌<◌, IfOk, IfSome, IfNone, Some, Err, option_map, codes, length, List, ℕ, true, false};
ghost use Rattle.serde_json.specs.Data.{Data, string, number, unsigned, object, Members, no_members, put};
ghost use Rattle.serde_json.specs.Find.{get_member};
ghost use Rattle.serde_json.specs.View.{view, members_view};
ghost use Rattle.request_lines.specs.Shape.{IsJson, max_line_bytes};
ghost use Rattle.request_lines.specs.Inside.Parse.{without};

use crate::line_error::LineError;
use serde_json::{Map, Value};
use std::alloc::Global;
use wasm_ast::Text;

/// Bytes of a line at most, its line feed not counted.
pub const MAX_LINE_BYTES: usize = 1_048_576;

/// The members of an object that are not taken yet.
pub(crate) type Members = Map<String, Value>;

/// Reads the value of a line.
pub(crate) fn read_value(alloc: Global, line: &[u8]) -> Result<Value, LineError>
    ensures value { IfOk result (λ v. IsJson line.now (view v)) }
    ensures none { result ≡ Err LineError.NoRequest → (d : Data) → IsJson line.now d → ⊥ }
    ensures long { max_line_bytes < length line.now → result ≡ Err LineError.NoRequest }
{
    if line.len() > MAX_LINE_BYTES {
        return Err(LineError::NoRequest);
    }
    match Value::from_slice(alloc, line) {
        Ok(value) => Ok(value),
        Err(error) if error.is_memory() => Err(LineError::OutOfMemory),
        Err(_) => Err(LineError::NoRequest),
    }
}

/// Takes the member of this key.
pub(crate) fn take_member(members: &mut Members, key: &str) -> Option<Value>
    ensures value { option_map view result ≡ get_member key.now (members_view members.old.entries) }
    ensures rest { members_view members.new.entries
        ≡ without key.now (members_view members.old.entries) }
    ensures whole { IfSome result (λ v.
        members_view members.old.entries
        ≡ put key.now (view v) (members_view members.new.entries)) }
{
    let _in_order = members.len();
    members.remove(key)
}

/// Takes the member of this key if it is a text. The member is gone if it is another value, too.
pub(crate) fn take_text(members: &mut Members, key: &str) -> Option<Text>
    ensures some { IfSome result (λ t.
        members_view members.old.entries
        ≡ put key.now (string t) (members_view members.new.entries)) }
    ensures none { IfNone result ((t : List ℕ) →
        get_member key.now (members_view members.old.entries) ≢ Some (string t)) }
    ensures rest { members_view members.new.entries
        ≡ without key.now (members_view members.old.entries) }
{
    match take_member(members, key) {
        Some(Value::String(text)) => Some(Text::new(text)),
        _ => None,
    }
}

/// Takes the member of this key if it is a number below 2^64 without sign or fraction. The member is
/// gone if it is another value, too.
pub(crate) fn take_number(members: &mut Members, key: &str) -> Option<u64>
    ensures some { IfSome result (λ n.
        members_view members.old.entries
        ≡ put key.now (number (unsigned n)) (members_view members.new.entries)) }
    ensures none { IfNone result ((n : ℕ) →
        get_member key.now (members_view members.old.entries) ≢ Some (number (unsigned n))) }
    ensures rest { members_view members.new.entries
        ≡ without key.now (members_view members.old.entries) }
{
    let value = take_member(members, key)?;
    value.as_u64()
}

/// Whether no member is left.
pub(crate) fn is_done(members: &Members) -> bool
    ensures done { result ≡ true → members_view members.now.entries ≡ no_members }
    ensures left { result ≡ false → members_view members.now.entries ≢ no_members }
{
    members.is_empty()
}

/// Takes the `op` of an object.
pub(crate) fn split_op(value: Value) -> Option<(Text, Members)>
    ensures some { IfSome result (λ r.
        view value ≡ object (put (codes "op") (string r.0) (members_view r.1.entries))) }
    ensures rest { IfSome result (λ r. (ms : Members) → view value ≡ object ms
        → members_view r.1.entries ≡ without (codes "op") ms) }
    ensures none { IfNone result ((op : List ℕ) (ms : Members) → view value ≡ object ms
        → get_member (codes "op") ms ≢ Some (string op)) }
{
    let Value::Object(mut members) = value else {
        return None;
    };
    let op = take_text(&mut members, "op")?;
    Some((op, members))
}
