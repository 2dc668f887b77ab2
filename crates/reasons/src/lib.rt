//! Why the file of a module, the words of a command line, a config, a line or a request is refused, as a line
//! for a person.
//!
//! Nothing here decides what is refused. A reason is looked for after a refusal, in the bytes and with the
//! readers that the refusal came from.
#![tactic(auto)]

/// Tables, a row a line: what a row is of, and its text.
macro_rules! rows {
    ($($($of:expr),+ => $text:expr;)*) => { &[$(($($of),+, $text)),*] };
}

mod bad_text;
mod config;
mod ends;
mod fields;
mod first_bytes;
mod hints;
mod invalid;
mod json;
mod limits;
mod line;
mod located;
mod operands;
mod outside;
mod process_texts;
mod request;
mod request_facts;
mod spelling;
mod task;
mod texts;

use bad_text::why_text;
pub use config::why_config;
use invalid::why_invalid;
use limits::why_limit;
pub use line::{Lines, why_line};
pub use process_texts::TaskWords;
use process_texts::{pages_under, why_words};
pub use request::{Contents, id_in, why_request};
use spelling::why_bytes;
use std::alloc::Global;
use task::why_task;
use texts::Told;
use wasm_ast::Refusal;

/// Why a file with these bytes is refused so, in one line without its line feed; an empty text if there is
/// nothing to add to the refusal. An error only if memory runs out.
pub fn why_file(alloc: Global, bytes: &[u8], refusal: Refusal) -> Told {
    match refusal {
        Refusal::BadModule => why_bytes(alloc, bytes),
        Refusal::Invalid(at) => why_invalid(alloc, bytes, at),
        Refusal::Limit => why_limit(alloc, bytes, pages_under(alloc, None)?, "--memory"),
        Refusal::BadText { line, column } => why_text(alloc, bytes, line, column),
        Refusal::NoEntry | Refusal::BadImport | Refusal::SegmentOutOfBounds => {
            why_task(alloc, bytes, refusal)
        }
        _ => Ok(String::new(alloc)),
    }
}

/// Why no task can be made of a file with these bytes and what a command line gives it, in one line without
/// its line feed; an empty text if there is nothing to add to the refusal. An error only if memory runs out.
pub fn why_run(alloc: Global, bytes: &[u8], words: &TaskWords<'_>, refusal: Refusal) -> Told {
    match refusal {
        Refusal::BadConfig => why_words(alloc, words),
        Refusal::Limit => why_limit(alloc, bytes, pages_under(alloc, words.limit)?, "--memory"),
        _ => why_file(alloc, bytes, refusal),
    }
}
