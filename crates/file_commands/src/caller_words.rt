//! The words of `--caller`.

ghost use Rattle.std.specs.Prelude.{◌≡◌, true, false, is_some, bytes_eq, map, MatchOption, string_bytes};
ghost use Rattle.std.specs.List.{list_any};
ghost use Rattle.file_commands.specs.Callers.{lines_file, replies_file, lacks_file, has_repeat, are_unfit};

use std::alloc::{AllocError, Global};

/// How many callers there are at most.
const MOST_CALLERS: usize = 130;

/// What is wrong with the words of `--caller`.
#[derive(Clone, Copy, Drop)]
pub(crate) enum CallerFault<'a> {
    /// There are SCRIPTs too.
    Scripts,
    /// There are more than 130.
    TooMany,
    /// This word does not name two files.
    NoPair(&'a str),
    /// Two words have the OUT of this one.
    Repeated(&'a str),
}

/// The file of lines and the file for replies that a word names: what is before its first colon, and
/// what is after it. None if it has no colon, or if one of the two is empty.
pub fn files_of(word: &str) -> Option<(&str, &str)>
    ensures { MatchOption result (lacks_file word.now ≡ true) (λ p. (lacks_file word.now ≡ false)
        × (p.0.now ≡ lines_file word.now) × (p.1.now ≡ replies_file word.now)) }
{
    let (lines, replies) = word.split_once(':')?;
    if lines.is_empty() || replies.is_empty() {
        None
    } else {
        Some((lines, replies))
    }
}

// The file for replies that a word names; empty if it has no colon.
fn replies_file(word: &str) -> &str
    ensures { result.now ≡ replies_file word.now }
{
    match word.split_once(':') {
        Some((_, replies)) => replies,
        None => "",
    }
}

// The first word that does not name two files.
fn find_no_pair(words: &[String]) -> Option<&str>
    ensures { is_some result ≡ list_any lacks_file (map string_bytes words.now) }
{
    for word in words {
        if files_of(word.as_str()).is_none() {
            return Some(word.as_str());
        }
    }
    None
}

// Whether one of the words has this file for replies.
fn has_replies(words: &[String], file: &str) -> bool
    ensures { result
        ≡ list_any (bytes_eq file.now) (map replies_file (map string_bytes words.now)) }
{
    for word in words {
        if file == replies_file(word.as_str()) {
            return true;
        }
    }
    false
}

// The first word of which a later one has the file for replies.
fn find_repeated(words: &[String]) -> Option<&str>
    ensures { is_some result ≡ has_repeat (map replies_file (map string_bytes words.now)) }
{
    let mut left = words;
    while let Some((word, rest)) = left.split_first() {
        if has_replies(rest, replies_file(word.as_str())) {
            return Some(word.as_str());
        }
        left = rest;
    }
    None
}

/// What is wrong with these words, beside these SCRIPTs.
pub(crate) fn caller_fault<'a>(scripts: &[String], words: &'a [String]) -> Option<CallerFault<'a>>
    ensures { is_some result
        ≡ are_unfit (map string_bytes scripts.now) (map string_bytes words.now) }
{
    if !scripts.is_empty() && !words.is_empty() {
        return Some(CallerFault::Scripts);
    }
    if words.len() > MOST_CALLERS {
        return Some(CallerFault::TooMany);
    }
    if let Some(word) = find_no_pair(words) {
        return Some(CallerFault::NoPair(word));
    }
    match find_repeated(words) {
        Some(word) => Some(CallerFault::Repeated(word)),
        None => None,
    }
}

// The first line of the message for a fault.
fn cause_text(alloc: Global, fault: CallerFault<'_>) -> Result<String, AllocError> {
    match fault {
        CallerFault::Scripts => String::from_str(
            alloc,
            "the argument '--caller <IN:OUT>' cannot be used with '[SCRIPT]...'",
        ),
        CallerFault::TooMany => String::from_str(
            alloc,
            "the argument '--caller <IN:OUT>' may be there 130 times at most",
        ),
        CallerFault::NoPair(word) => {
            format!(in alloc;
                "invalid value '{word}' for '--caller <IN:OUT>': two names with a colon between them are wanted"
            )
        }
        CallerFault::Repeated(word) => {
            format!(in alloc;
                "invalid value '{word}' for '--caller <IN:OUT>': another caller has its OUT"
            )
        }
    }
}

/// What is said of a fault. An error only if memory runs out.
pub(crate) fn fault_text(alloc: Global, fault: CallerFault<'_>) -> Result<String, AllocError> {
    let cause = cause_text(alloc, fault)?;
    format!(in alloc;
        "error: {cause}\n\nUsage: wasm-shim serve [OPTIONS] [SCRIPT]...\n\nFor more information, try '--help'.\n"
    )
}
