//! Where lines for the person go who runs the program, and the clocks that date them.

use crate::line::Moment;
use jiff::Timestamp;
use std::fmt::Display;
use std::io;
use std::io::Write;
use std::time::{Clock, Instant};

/// What is said to the person who runs the program is written to this: standard error, with the program's
/// clocks.
pub trait Outlet {
    /// Writes a text whole. One that cannot be written is left out.
    fn write(&self, text: &str);

    /// The time.
    fn now(&self) -> Moment;
}

/// The clocks of a program that has begun.
#[derive(Clone, Copy)]
pub struct Clocks<C> {
    clock: C,
    /// When the program began; None if the clock failed.
    start: Option<Instant>,
}

impl<C: Clock> Clocks<C> {
    /// The program begins now.
    pub fn new(clock: C) -> Clocks<C> {
        let start = Instant::now(&clock).ok();
        Clocks { clock, start }
    }

    /// The time.
    pub fn now(&self) -> Moment {
        Moment {
            wall: Timestamp::now(&self.clock).ok(),
            since: match self.start {
                Some(start) => start.elapsed(&self.clock).ok(),
                None => None,
            },
        }
    }
}

/// A stream for a person, as standard error is, with the clocks of the program.
#[derive(Clone, Copy)]
pub struct Terminal<S, C> {
    stream: S,
    clocks: Clocks<C>,
}

impl<S, C: Clock> Terminal<S, C> {
    /// The stream of a program that begins now.
    pub fn new(stream: S, clock: C) -> Terminal<S, C> {
        Terminal {
            stream,
            clocks: Clocks::new(clock),
        }
    }
}

impl<S: Write + Copy, C: Clock> Outlet for Terminal<S, C> {
    fn write(&self, text: &str) {
        let mut stream = self.stream;
        let _told = stream.write_all(text.as_bytes());
    }

    fn now(&self) -> Moment {
        self.clocks.now()
    }
}

impl<S: Eprint, C> Eprint for Terminal<S, C> {
    fn eprint<D: Display + Drop>(&self, value: D) -> io::Result<()> {
        self.stream.eprint(value)
    }

    fn eprintln<D: Display + Drop>(&self, value: D) -> io::Result<()> {
        self.stream.eprintln(value)
    }
}
