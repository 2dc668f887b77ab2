//! What is said on standard error of the lines of a caller: why they are refused, a log, and how they ended.

ghost use Rattle.std.specs.Prelude.{◌≡◌};

use crate::said::{Failing, Streams, say_end};
use call_journal::{Row, Seat, Shim};
use callers::{Driven, Notes, Report, find_content};
use reasons::{Contents, id_in, why_request};
use shim_log::{By, Format, Log, Outlet};
use std::alloc::{AllocError, Global};
use task_board::{ExitRecord, Reply};
use wasm_ast::{Refusal, Text};

/// What is wanted on standard error beside why the program failed.
#[derive(Clone, Copy)]
pub struct Wanted<E> {
    pub(crate) alloc: Global,
    pub(crate) outlet: E,
    /// Why each refused request is refused.
    explain: bool,
    /// What becomes of tasks and callers.
    pub(crate) log: Log<E>,
}

impl<E: Outlet + Copy> Wanted<E> {
    /// Why requests are refused, if that is to be explained, and a log of this format or none.
    pub fn new(alloc: Global, outlet: E, explain: bool, format: Option<Format>) -> Wanted<E>
        ensures { (result.outlet ≡ outlet) × (result.explain ≡ explain) }
    {
        Wanted {
            alloc,
            outlet,
            explain,
            log: Log::new(alloc, outlet, format),
        }
    }
}

/// The contents that a seat has seen.
#[derive(Clone, Copy)]
struct Seen<'a, J: Row> {
    shim: &'a Shim<J>,
    seat: &'a Seat<J>,
}

impl<J: Row> Contents for Seen<'_, J> {
    fn bytes_under(&self, alloc: Global, digest: &str) -> Result<Option<Vec<u8>>, AllocError> {
        find_content(alloc, self.shim, self.seat, digest)
    }
}

/// What watches the lines of a caller. A line on standard error that cannot be written, or for
/// which there is no memory, is left out.
#[derive(Drop)]
pub struct Watch<E> {
    wanted: Wanted<E>,
    /// What the caller is called; empty for standard input and for one script.
    name: &'static str,
    streams: Streams,
    /// How many lines of the caller have been answered.
    lines: u64,
    /// How many entries of the journal the caller has seen.
    entries: usize,
}

// A name, with `?` for each control character.
fn plain_name(alloc: Global, name: &str) -> Result<String, AllocError> {
    let mut plain = String::new(alloc);
    for c in name.chars() {
        plain.push(if c.is_control() { '?' } else { c })?;
    }
    Ok(plain)
}

impl<E: Outlet + Eprint + Copy> Watch<E> {
    /// What watches the lines of the caller of this name, with these streams.
    pub fn new(wanted: Wanted<E>, name: &'static str, streams: Streams) -> Watch<E>
        ensures { (result.wanted ≡ wanted) × (result.lines ≡ 0) × (result.entries ≡ 0) }
    {
        Watch {
            wanted,
            name,
            streams,
            lines: 0,
            entries: 0,
        }
    }

    /// Logs that the lines of the caller have ended.
    pub fn log_end(&self) {
        self.wanted.log.caller_ended(self.name, self.lines);
    }

    // Which line of which caller it is.
    fn place(&self) -> Result<String, AllocError> {
        let alloc = self.wanted.alloc;
        let lines = self.lines;
        if self.name.is_empty() {
            return format!(in alloc; "line {lines}");
        }
        let name = plain_name(alloc, self.name)?;
        format!(in alloc; "{name} line {lines}")
    }

    // The line that says why a request is refused.
    fn why_line<J: Row>(
        &self,
        seen: &Seen<'_, J>,
        line: Option<&[u8]>,
        refusal: Refusal,
    ) -> Result<String, AllocError> {
        let alloc = self.wanted.alloc;
        let place = self.place()?;
        let number = refusal.number();
        let reason = why_request(alloc, line, refusal, seen)?;
        format!(in alloc; "why: {place}, {number} {refusal}: {reason}\n")
    }

    // Says why a request is refused, if that is wanted.
    fn explain<J: Row>(&self, seen: &Seen<'_, J>, line: Option<&[u8]>, refusal: Refusal) {
        if !self.wanted.explain {
            return;
        }
        if let Ok(line) = self.why_line(seen, line, refusal) {
            self.wanted.outlet.write(line.as_str());
        }
    }

    // The line that is being answered.
    fn by(&self) -> By<'static> {
        By::Line(self.name, self.lines)
    }

    // Logs a refusal, with the id that the line names, if it names one.
    fn log_refusal(&self, line: Option<&[u8]>, refusal: Refusal) {
        if !self.wanted.log.is_wanted() {
            return;
        }
        let found = match line {
            Some(line) => id_in(self.wanted.alloc, line),
            None => Ok(None),
        };
        match found {
            Ok(Some(id)) => self
                .wanted
                .log
                .refused(self.by(), Some(id.as_str()), refusal),
            _ => self.wanted.log.refused(self.by(), None, refusal),
        }
    }

    // Says what is wanted of an answer. How full the journal is, is said if the caller's call has made an
    // entry of it.
    fn say_answer<J: Row>(
        &mut self,
        seen: &Seen<'_, J>,
        line: Option<&[u8]>,
        answer: &Result<Reply, Refusal>,
    ) {
        match answer {
            Ok(reply) => self.wanted.log.accepted(self.by(), reply),
            Err(refusal) => {
                self.log_refusal(line, *refusal);
                self.explain(seen, line, *refusal);
            }
        }
        let entries = seen.seat.len();
        if entries != self.entries {
            self.entries = entries;
            self.wanted.log.filled(self.by(), entries);
        }
    }
}

impl<E: Outlet + Eprint + Copy> Notes for Watch<E> {
    fn note<J: Row>(
        &mut self,
        shim: &Shim<J>,
        seat: &Seat<J>,
        line: Option<&[u8]>,
        answer: &Result<Reply, Refusal>,
    ) {
        self.lines = self.lines.saturating_add(1);
        if self.wanted.explain || self.wanted.log.is_wanted() {
            self.say_answer(&Seen { shim, seat }, line, answer);
        }
    }

    fn ended(&mut self, id: &Text, turns: u64, end: ExitRecord) {
        let by = By::Line(self.name, self.lines.saturating_add(1));
        self.wanted.log.ended(by, id.as_str(), turns, end);
    }
}

impl<E: Outlet + Eprint + Copy, R: Failing, W: Failing> Report<R, W> for Watch<E> {
    fn lines_ended(&self) {
        self.log_end();
    }

    fn report(&self, driven: Driven, reader: &R, writer: &W) {
        say_end(&self.wanted.outlet, driven, self.streams, reader, writer);
    }
}
