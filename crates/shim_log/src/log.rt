//! The log: which events are lines of it, and what they say.

use crate::line::{By, Format, Line};
use crate::outlet::Outlet;
use std::alloc::{AllocError, Global};
use task_requests::{ExitRecord, Reply, Status, TaskState};
use wasm_ast::Refusal;

/// After how many entries of the journal a line says so: half of those that it takes, nine tenths, and all.
const JOURNAL_MARKS: &[usize] = &[8_192, 14_746, 16_384];

/// A log, if one is wanted. A line that cannot be written, or for which there is no memory, is left out.
#[derive(Clone, Copy)]
pub struct Log<E> {
    alloc: Global,
    outlet: E,
    /// None if no log is wanted.
    format: Option<Format>,
}

impl<E: Outlet> Log<E> {
    /// A log of this format, or none.
    pub fn new(alloc: Global, outlet: E, format: Option<Format>) -> Log<E> {
        Log {
            alloc,
            outlet,
            format,
        }
    }

    /// Whether a log is wanted.
    pub fn is_wanted(&self) -> bool {
        self.format.is_some()
    }

    // Writes a line.
    fn say(&self, line: Result<Line, AllocError>) {
        let Ok(line) = line else {
            return;
        };
        if let Ok(text) = line.finish() {
            self.outlet.write(text.as_str());
        }
    }

    // The beginning of a line.
    fn line(&self, format: Format, by: By<'_>, event: &str) -> Result<Line, AllocError> {
        Line::new(self.alloc, format, self.outlet.now(), by, event)
    }

    // The beginning of a line about a task.
    fn task_line(
        &self,
        format: Format,
        by: By<'_>,
        event: &str,
        id: &str,
    ) -> Result<Line, AllocError> {
        self.line(format, by, event)?.with_text("id", id)
    }

    // Adds a number.
    fn with_count(
        &self,
        line: Result<Line, AllocError>,
        key: &str,
        count: u64,
    ) -> Result<Line, AllocError> {
        line?.with_number(self.alloc, key, count)
    }

    // Adds a status.
    fn with_status(
        &self,
        line: Result<Line, AllocError>,
        status: Status,
    ) -> Result<Line, AllocError> {
        let alloc = self.alloc;
        line?.with_text("status", format!(in alloc; "{status}")?.as_str())
    }

    // Adds how a task ended.
    fn with_end(
        &self,
        line: Result<Line, AllocError>,
        end: ExitRecord,
    ) -> Result<Line, AllocError> {
        let alloc = self.alloc;
        let caused = line?.with_text("cause", end.cause())?;
        let exited = caused.with_number(alloc, "exit", end.exit())?;
        match end {
            ExitRecord::Trapped(trap) => {
                exited.with_text("trap", format!(in alloc; "{trap}")?.as_str())
            }
            _ => Ok(exited),
        }
    }

    // Adds the name of a refusal.
    fn with_cause(
        &self,
        line: Result<Line, AllocError>,
        refusal: Refusal,
    ) -> Result<Line, AllocError> {
        let alloc = self.alloc;
        line?.with_text("cause", format!(in alloc; "{refusal}")?.as_str())
    }

    // What was done to a task, and the status that it has then.
    fn done(&self, by: By<'_>, event: &str, id: &str, status: Status) {
        if let Some(format) = self.format {
            self.say(self.with_status(self.task_line(format, by, event, id), status));
        }
    }

    // What was done to a task that has no other status by that.
    fn made(&self, by: By<'_>, event: &str, id: &str) {
        if let Some(format) = self.format {
            self.say(self.task_line(format, by, event, id));
        }
    }

    // What was done to a task, which has made this many turns then.
    fn counted(&self, by: By<'_>, event: &str, id: &str, turns: u64) {
        if let Some(format) = self.format {
            let line = self.task_line(format, by, event, id);
            self.say(self.with_count(line, "turns", turns));
        }
    }

    // The turns of a step, and the end of the task if it ended in it.
    fn stepped(&self, by: By<'_>, state: &TaskState) {
        self.counted(by, "stepped", state.id.as_str(), state.n);
        if let Some(end) = state.end {
            self.ended(by, state.id.as_str(), state.n, end);
        }
    }

    /// A request was accepted and answered so. A line says what became of its task, if anything did.
    pub fn accepted(&self, by: By<'_>, reply: &Reply) {
        match reply {
            Reply::Create { id, .. } => self.counted(by, "created", id.as_str(), 0),
            Reply::Start { id, status } => self.done(by, "started", id.as_str(), *status),
            Reply::Pause { id, status } => self.done(by, "paused", id.as_str(), *status),
            Reply::Resume { id, status } => self.done(by, "resumed", id.as_str(), *status),
            Reply::Kill { id, status } => self.done(by, "killed", id.as_str(), *status),
            Reply::Delete(state) => self.made(by, "deleted", state.id.as_str()),
            Reply::Break { id } => self.made(by, "break-set", id.as_str()),
            Reply::Unbreak { id } => self.made(by, "break-removed", id.as_str()),
            Reply::Step(state) => self.stepped(by, state),
            _ => {}
        }
    }

    /// A request was refused, which names the task with this id, if it names one.
    pub fn refused(&self, by: By<'_>, id: Option<&str>, refusal: Refusal) {
        let Some(format) = self.format else {
            return;
        };
        let line = match id {
            Some(id) => self.task_line(format, by, "refused", id),
            None => self.line(format, by, "refused"),
        };
        let numbered = self.with_count(line, "number", u64::from(refusal.number()));
        self.say(self.with_cause(numbered, refusal));
    }

    /// A task has ended so, after this number of turns.
    pub fn ended(&self, by: By<'_>, id: &str, turns: u64, end: ExitRecord) {
        if let Some(format) = self.format {
            let line = self.with_count(self.task_line(format, by, "ended", id), "turns", turns);
            self.say(self.with_end(line, end));
        }
    }

    /// The journal has this many entries, of which a line says so at some numbers.
    pub fn filled(&self, by: By<'_>, entries: usize) {
        let Some(format) = self.format else {
            return;
        };
        if JOURNAL_MARKS.iter().any(|mark| *mark == entries) {
            let line = self.line(format, by, "journal");
            self.say(self.with_count(line, "entries", entries as u64));
        }
    }

    /// The lines of the caller of this name have ended, of which there were this many.
    pub fn caller_ended(&self, name: &str, lines: u64) {
        if let Some(format) = self.format {
            let line = self.line(format, By::Caller(name), "caller-ended");
            self.say(self.with_count(line, "lines", lines));
        }
    }
}
