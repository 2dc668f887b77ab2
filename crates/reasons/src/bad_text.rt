//! Why a text denotes no module.

use crate::first_bytes::kind_of;
use crate::hints::{field_hint, group_hint, word_hint};
use crate::texts::{Shown, Told};
use std::alloc::Global;
use std::str::from_utf8;
use text_assembler::readers::is_word_char;

const EMPTY: &str = "the text is empty; that of a module is (module ..)";

const END: &str = "the end of the text: a group or a block is not closed";

const OTHER: &str = "a character that no word, string or comment begins with";

const NO_GROUP: &str = "a group that cannot be here";

const NO_CLOSE: &str = "something is missing before it, or nothing is open";

const NO_STRING: &str =
    "a string that cannot be here, has a wrong character or escape, no end or no UTF-8, or touches a word";

// The word at the front of a text, which may be empty, and what follows it.
fn split_word(text: &str) -> (&str, &str) {
    for (end, byte) in text.as_bytes().iter().enumerate() {
        if !is_word_char(*byte) {
            return (text.get(..end).unwrap_or(""), text.get(end..).unwrap_or(""));
        }
    }
    (text, "")
}

// The string at the front of a text that begins with a quote, with its quotes if both are there. Escaped
// quotes end it too.
fn string_at(text: &str) -> &str {
    match text.strip_prefix('"').unwrap_or("").find('"') {
        Some(at) => text.get(..at.saturating_add(2)).unwrap_or(text),
        None => text,
    }
}

// How many bytes of the text are before the character at this line and column, both from 1; None if there is
// no character.
fn offset_at(text: &str, line: u64, column: u64) -> Option<usize> {
    let mut here = (1u64, 1u64);
    for (at, c) in text.char_indices() {
        if here == (line, column) {
            return Some(at);
        }
        here = if c == '\n' {
            (here.0.saturating_add(1), 1)
        } else {
            (here.0, here.1.saturating_add(1))
        };
    }
    None
}

fn word_reason(before: &str, word: &str) -> &'static str {
    if before.trim().is_empty() {
        return "the text of a module begins with (module";
    }
    let hint = match before.trim_end().strip_suffix('(') {
        Some(outside) => group_hint(outside, word),
        None => None,
    };
    let hint = hint.or(word_hint(word)).or(field_hint(before));
    hint.unwrap_or(lone_reason(word))
}

fn lone_reason(word: &str) -> &'static str {
    match word.as_bytes().first() {
        Some(b'$') => "an id that is declared nowhere, is declared twice, or cannot be here",
        Some(b'0'..=b'9' | b'+' | b'-') => "a number that is out of its range, or cannot be here",
        _ => "a word that cannot be here",
    }
}

// The token at the front of a text, and what is said of it after the text before it.
fn token_text(alloc: Global, before: &str, text: &str) -> Told {
    let (word, rest) = split_word(text);
    let hint = field_hint(before);
    let (front, word, reason) = match text.as_bytes() {
        [] if before.trim().is_empty() => return String::from_str(alloc, EMPTY),
        [] => return String::from_str(alloc, END),
        [b'(', b';', ..] => ("(", ";", "a comment without an end"),
        [b'(', ..] => {
            let word = split_word(text.get(1..).unwrap_or("").trim_start()).0;
            ("(", word, group_hint(before, word).unwrap_or(NO_GROUP))
        }
        [b')', ..] => ("", ")", hint.unwrap_or(NO_CLOSE)),
        [b'"', ..] => ("", string_at(text), hint.unwrap_or(NO_STRING)),
        _ if word.is_empty() => return String::from_str(alloc, OTHER),
        _ if rest.starts_with('"') => ("", word, "it touches the string after it"),
        _ => ("", word, word_reason(before, word)),
    };
    format!(in alloc; "`{front}{}`: {reason}", Shown(word))
}

fn why_utf8(alloc: Global, text: &str, line: u64, column: u64) -> Told {
    let at = offset_at(text, line, column).unwrap_or(text.len());
    let before = text.get(..at).unwrap_or("");
    token_text(alloc, before, text.get(at..).unwrap_or(""))
}

/// Why a file that is not in the binary format denotes no module, with this place of its fault.
pub fn why_text(alloc: Global, bytes: &[u8], line: u64, column: u64) -> Told {
    if let Some(kind) = kind_of(bytes) {
        return String::from_str(alloc, kind);
    }
    let offset = match from_utf8(bytes) {
        Ok(text) => return why_utf8(alloc, text, line, column),
        Err(error) => error.valid_up_to(),
    };
    match bytes.get(offset) {
        Some(&byte) => format!(in alloc;
            "byte 0x{byte:02x} at offset {offset} is no UTF-8; a binary module begins with 00"
        ),
        None => Ok(String::new(alloc)),
    }
}
