//! A line of the log as it grows.

use jiff::Timestamp;
use std::alloc::{AllocError, Global};
use std::time::Duration;

/// How lines are written.
#[derive(Clone, Copy, PartialEq, Eq)]
pub enum Format {
    /// `log: TIME SECONDS BY EVENT KEY=VALUE ..`
    Text,
    /// An object of JSON with the keys `time`, `seconds`, `event` and those of the event.
    Json,
}

impl Format {
    /// The format of a log, if one is wanted: JSON by the name `json`, else text.
    pub fn wanted(is_wanted: bool, name: &Option<String>) -> Option<Format> {
        match name {
            _ if !is_wanted => None,
            Some(name) if name.as_str() == "json" => Some(Format::Json),
            _ => Some(Format::Text),
        }
    }
}

/// When something happened. None where the clock failed.
#[derive(Clone, Copy)]
pub struct Moment {
    /// By the clock on the wall.
    pub wall: Option<Timestamp>,
    /// Since the program began.
    pub since: Option<Duration>,
}

/// Who made it happen.
#[derive(Clone, Copy)]
pub enum By<'a> {
    /// A worker.
    Worker,
    /// The line with this number of the caller of this name, which is empty for standard input and for one
    /// script.
    Line(&'a str, u64),
    /// The caller of this name itself.
    Caller(&'a str),
}

/// A line of the log. Its texts cannot end it or begin another: control characters are replaced.
#[derive(Drop)]
pub struct Line {
    text: String,
    format: Format,
}

// A text with `?` for each control character.
fn push_plain(text: &mut String, value: &str) -> Result<(), AllocError> {
    for c in value.chars() {
        text.push(if c.is_control() { '?' } else { c })?;
    }
    Ok(())
}

// A text as a string of JSON, with `?` for each control character.
fn push_quoted(text: &mut String, value: &str) -> Result<(), AllocError> {
    text.push('"')?;
    for c in value.chars() {
        if c == '"' || c == '\\' {
            text.push('\\')?;
        }
        text.push(if c.is_control() { '?' } else { c })?;
    }
    text.push('"')
}

// The time on the wall, in UTC (RFC 3339).
fn wall_text(alloc: Global, wall: Option<Timestamp>) -> Result<String, AllocError> {
    match wall {
        Some(wall) => format!(in alloc; "{wall:.6}"),
        None => String::from_str(alloc, "-"),
    }
}

// Seconds with six decimals.
fn seconds_text(alloc: Global, since: Option<Duration>, none: &str) -> Result<String, AllocError> {
    match since {
        Some(since) => {
            let seconds = since.as_secs();
            let micros = since.subsec_micros();
            format!(in alloc; "{seconds}.{micros:06}")
        }
        None => String::from_str(alloc, none),
    }
}

impl Line {
    // The beginning of a line of text.
    fn text(alloc: Global, moment: Moment, by: By<'_>, event: &str) -> Result<Line, AllocError> {
        let mut text = String::from_str(alloc, "log: ")?;
        text.push_str(wall_text(alloc, moment.wall)?.as_str())?;
        text.push(' ')?;
        text.push_str(seconds_text(alloc, moment.since, "-")?.as_str())?;
        text.push(' ')?;
        push_by(alloc, &mut text, by)?;
        text.push_str(event)?;
        Ok(Line {
            text,
            format: Format::Text,
        })
    }

    // The beginning of a line of JSON.
    fn json(alloc: Global, moment: Moment, by: By<'_>, event: &str) -> Result<Line, AllocError> {
        let mut text = String::from_str(alloc, "{\"time\":")?;
        push_quoted(&mut text, wall_text(alloc, moment.wall)?.as_str())?;
        text.push_str(",\"seconds\":")?;
        text.push_str(seconds_text(alloc, moment.since, "null")?.as_str())?;
        text.push_str(",\"event\":")?;
        push_quoted(&mut text, event)?;
        let line = Line {
            text,
            format: Format::Json,
        };
        line.with_by(alloc, by)
    }

    // The caller and the number of its line, as members of JSON.
    fn with_by(self, alloc: Global, by: By<'_>) -> Result<Line, AllocError> {
        match by {
            By::Worker => Ok(self),
            By::Line("", number) => self.with_number(alloc, "line", number),
            By::Line(name, number) => {
                let named = self.with_text("caller", name)?;
                named.with_number(alloc, "line", number)
            }
            By::Caller("") => Ok(self),
            By::Caller(name) => self.with_text("caller", name),
        }
    }

    /// The beginning of a line: an event of this name. An error only if memory runs out, as in all that
    /// follows.
    pub fn new(
        alloc: Global,
        format: Format,
        moment: Moment,
        by: By<'_>,
        event: &str,
    ) -> Result<Line, AllocError> {
        match format {
            Format::Text => Line::text(alloc, moment, by, event),
            Format::Json => Line::json(alloc, moment, by, event),
        }
    }

    // The key of a value.
    fn push_key(&mut self, key: &str) -> Result<(), AllocError> {
        match self.format {
            Format::Text => {
                self.text.push(' ')?;
                self.text.push_str(key)?;
                self.text.push('=')
            }
            Format::Json => {
                self.text.push(',')?;
                push_quoted(&mut self.text, key)?;
                self.text.push(':')
            }
        }
    }

    /// The line with a text under a key.
    pub fn with_text(mut self, key: &str, value: &str) -> Result<Line, AllocError> {
        self.push_key(key)?;
        match self.format {
            Format::Text => push_plain(&mut self.text, value)?,
            Format::Json => push_quoted(&mut self.text, value)?,
        }
        Ok(self)
    }

    /// The line with a number under a key.
    pub fn with_number(mut self, alloc: Global, key: &str, value: u64) -> Result<Line, AllocError> {
        self.push_key(key)?;
        self.text.push_str(format!(in alloc; "{value}")?.as_str())?;
        Ok(self)
    }

    /// The whole line, with its line feed.
    pub fn finish(mut self) -> Result<String, AllocError> {
        match self.format {
            Format::Text => self.text.push('\n')?,
            Format::Json => self.text.push_str("}\n")?,
        }
        Ok(self.text)
    }
}

// The caller and the number of its line, as words.
fn push_by(alloc: Global, text: &mut String, by: By<'_>) -> Result<(), AllocError> {
    match by {
        By::Worker => text.push_str("worker "),
        By::Line(name, number) => {
            push_name(text, name)?;
            text.push_str(format!(in alloc; "line {number} ")?.as_str())
        }
        By::Caller(name) => push_name(text, name),
    }
}

// The name of a caller, if it has one.
fn push_name(text: &mut String, name: &str) -> Result<(), AllocError> {
    if name.is_empty() {
        return Ok(());
    }
    push_plain(text, name)?;
    text.push(' ')
}
