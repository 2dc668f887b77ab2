//! How many callers answer a line just now, so that the program can end between replies.

ghost use Rattle.std.specs.Prelude.{◌≡◌};

use crate::caller::Driven;
use request_lines::{Source, StreamFailed};
use std::sync::{Condvar, Mutex, Wait};
use std::time::{Clock, Duration};

// What is counted of callers.
#[derive(Drop)]
struct Count {
    // How many answer lines.
    answering: u64,
    // How the lines of those that have ended did so: the first fault, if there is one.
    how: Driven,
    // No more lines are answered.
    is_closed: bool,
}

/// The callers that answer lines just now. A caller is one of them from the moment that it has read bytes
/// until it reads again.
#[derive(Drop)]
pub struct InFlight {
    count: Mutex<Count>,
    changed: Condvar,
}

impl InFlight {
    /// No callers.
    pub fn new() -> InFlight {
        InFlight {
            count: Mutex::new(Count {
                answering: 0,
                how: Driven::End,
                is_closed: false,
            }),
            changed: Condvar::new(),
        }
    }

    /// A caller answers lines from here on. Where no more are answered, it sleeps until the program ends.
    pub fn enter<H: Wait>(&self, rt: &H) {
        let count = self.count.lock(rt);
        let mut count = self.changed.wait_while(rt, count, |c| c.is_closed);
        count.answering = count.answering.wrapping_add(1);
    }

    /// A caller has answered the lines that it has read.
    pub fn leave<H: Wait>(&self, rt: &H) {
        let mut count = self.count.lock(rt);
        count.answering = count.answering.wrapping_sub(1);
        self.changed.notify_all();
    }

    /// The lines of a caller have ended so, and it answers no more.
    pub fn end<H: Wait>(&self, rt: &H, driven: Driven) {
        let mut count = self.count.lock(rt);
        count.how = count.how.first_fault(driven);
        count.answering = count.answering.wrapping_sub(1);
        self.changed.notify_all();
    }

    /// Waits until no caller answers a line, for this long at most; from then on none does. How the lines of
    /// all that have ended did so: the first fault, and the end if there is none.
    pub fn close<H: Wait + Clock>(&self, rt: &H, limit: Duration) -> Driven {
        let count = self.count.lock(rt);
        let (mut count, _) = self
            .changed
            .wait_timeout_while(rt, count, limit, |c| c.answering > 0);
        count.is_closed = true;
        count.how
    }
}

/// The reader of a caller, which counts as one that answers lines but while it reads.
#[derive(Drop)]
pub struct Attended<R, H> {
    reader: R,
    rt: H,
    flight: &'static InFlight,
}

impl<R, H> Attended<R, H> {
    /// This reader, of a caller that is among these.
    pub fn new(rt: H, flight: &'static InFlight, reader: R) -> Attended<R, H>
        ensures { result.reader ≡ reader }
    {
        Attended { reader, rt, flight }
    }

    /// The reader itself.
    pub fn reader(&self) -> &R
        ensures { result.now ≡ self.now.reader }
    {
        &self.reader
    }
}

impl<R: Source, H: Wait> Source for Attended<R, H> {
    ghost remaining = { λ a. R.remaining a.reader };

    ghost has_failed = { λ a. R.has_failed a.reader };

    ghost reads_left = { λ a. R.reads_left a.reader };

    fn read(&mut self, buf: &mut [u8]) -> Result<usize, StreamFailed> {
        self.flight.leave(&self.rt);
        let count = self.reader.read(buf);
        self.flight.enter(&self.rt);
        count
    }
}
