//! What a reason is made of.

use std::alloc::AllocError;
use std::fmt;

/// What is said, in one line without its line feed; empty if there is nothing to say. An error only if memory
/// runs out.
pub type Told = Result<String, AllocError>;

/// How many characters of a word are shown.
const MOST: usize = 40;

/// A word of a file as a line shows it: at most 40 characters of it, with `?` for each control character.
#[derive(Clone, Copy)]
pub struct Shown<'a>(pub &'a str);

impl fmt::Display for Shown<'_> {
    fn fmt<W: fmt::Write>(&self, f: &mut fmt::Formatter<W>) -> fmt::Result {
        for (count, c) in self.0.chars().enumerate() {
            if count >= MOST {
                return f.write_str("..");
            }
            let is_plain = c >= ' ' && !('\u{7f}'..='\u{9f}').contains(&c);
            f.write_char(if is_plain { c } else { '?' })?;
        }
        Ok(())
    }
}

/// The first of two texts that is not empty.
pub fn or(first: Told, second: Told) -> Told {
    match first {
        Ok(text) if text.is_empty() => second,
        _ => first,
    }
}

/// Adds an item to a list of items with this between them.
pub fn push_item(list: &mut String, between: &str, item: &str) -> Result<(), AllocError> {
    if !list.is_empty() {
        list.push_str(between)?;
    }
    list.push_str(item)
}
