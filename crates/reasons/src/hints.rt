//! How the text format of the profile writes what other assemblers take too.

use crate::first_bytes::row_at_front;

// Words after a parenthesis, each with what to write in its place.
const GROUPS: &[(&str, &str)] = rows! {
    "export" => "an export is a field of its own: (export \"f\" (func $f))";
    "import" => "an import is a field of its own, before functions, tables, memories and globals: (import \"m\" \"f\" (func (type $t)))";
    "param" => "a function names its type: (type $t (func (param i32))) and (func (type $t) (param i32) ..)";
    "result" => "a function names its type: (type $t (func (result i32))) and (func (type $t) (result i32) ..)";
    "local" => "a function names its type and then its locals, before its instructions: (func (type $t) (local i32) ..)";
    "then" => "arms are no groups: if .. else .. end";
    "else" => "arms are no groups: if .. else .. end";
    "data" => "a memory has its size, and data are a field: (memory 1) (data (offset i32.const 0) \"a\")";
    "elem" => "a table has its size, and elements are a field: (table 1 funcref) (elem (offset i32.const 0) $f)";
    "item" => "an element is the index of a function: (elem (offset i32.const 0) $f)";
    "ref.func" => "an element is the index of a function: (elem (offset i32.const 0) $f)";
};

// Words that are written otherwise, or elsewhere.
const OLD_WORDS: &[(&str, &str)] = rows! {
    "get_local" => "it is written local.get";
    "set_local" => "it is written local.set";
    "tee_local" => "it is written local.tee";
    "get_global" => "it is written global.get";
    "set_global" => "it is written global.set";
    "current_memory" => "it is written memory.size";
    "grow_memory" => "it is written memory.grow";
    "anyfunc" => "it is written funcref";
    "funcref" => "only a table has it, after its size: (table 1 funcref)";
};

// How words begin that are outside the profile.
const FRONTS: &[(&[u8], &str)] = rows! {
    b"f32" => "floats are outside the profile";
    b"f64" => "floats are outside the profile";
    b"i32.trunc" => "floats are outside the profile";
    b"i64.trunc" => "floats are outside the profile";
    b"v128" => "vectors of 128 bits are outside the profile";
    b"memory." => "of memory the profile has memory.size and memory.grow alone";
    b"data." => "bulk memory is outside the profile";
    b"table." => "reference types and bulk memory are outside the profile";
    b"ref." => "reference types are outside the profile";
    b"externref" => "reference types are outside the profile";
    b"return_call" => "tail calls are outside the profile";
};

// Instructions whose words have no full stop.
const CONTROL: &str =
    "unreachable nop block loop if br br_if br_table return call call_indirect drop select";

const FOLDED: &str =
    "an instruction is not in parentheses: i32.const 1 i32.const 2 i32.add, and block .. end";

const NO_TYPE: &str =
    "a function names its type first: (type $t (func (param i32))) and (func (type $t) ..)";

fn find(hints: &'static [(&'static str, &'static str)], word: &str) -> Option<&'static str> {
    for row in hints {
        if row.0 == word {
            return Some(row.1);
        }
    }
    None
}

fn is_instr(word: &str) -> bool {
    for each in CONTROL.split(' ') {
        if each == word {
            return true;
        }
    }
    word.contains('.')
}

// What is before the last parenthesis of a text, and after it; empty texts if it has none.
fn last_group(text: &str) -> (&str, &str) {
    text.rsplit_once('(').unwrap_or(("", ""))
}

// The word of a group that is open at the end of a text, if no more than ids are after it; else empty.
fn open_word(group: &str) -> &str {
    let mut words = group.split_whitespace();
    let first = words.next().unwrap_or("");
    for word in words {
        if !word.starts_with('$') {
            return "";
        }
    }
    if group.contains(')') { "" } else { first }
}

/// What has to be next, if this text ends where a field has to go on in one way.
pub fn field_hint(text: &str) -> Option<&'static str> {
    let (before, group) = last_group(text);
    let outer = last_group(before).1;
    let is_outer = !outer.contains(')');
    let outer = outer.trim_start();
    if is_outer && (outer.starts_with("type") || outer.starts_with("export")) {
        return None;
    }
    match open_word(group) {
        "func" => Some(NO_TYPE),
        "data" | "elem" => Some("an offset is written (offset i32.const 0)"),
        _ => None,
    }
}

/// How a word is written that is none of the profile.
pub fn word_hint(word: &str) -> Option<&'static str> {
    find(OLD_WORDS, word).or(row_at_front(FRONTS, word.as_bytes()))
}

/// How a group with this word is written, whose parenthesis follows this text.
pub fn group_hint(before: &str, word: &str) -> Option<&'static str> {
    if !before.contains("(module") {
        return Some("fields are inside (module ..)");
    }
    let hint = find(GROUPS, word).or(field_hint(before));
    hint.or(word_hint(word))
        .or(is_instr(word).then_some(FOLDED))
}
