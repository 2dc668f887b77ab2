//! Rows of bytes that are compared with each other. Many are a few bytes again and again, and then only these
//! are compared.

ghost use Rattle.std.specs.Prelude.{◌≡◌, ◌+◌, ◌≤◌, IsTrue, length, take, drop};
ghost use Rattle.validator.specs.Inside.Periods.{Repeats};

use crate::comparisons::are_same_bytes;
use std::marker::Model;

/// Bytes that are there again after this many or more are compared one by one.
const MOST_PERIOD: usize = 16;

/// A row of bytes. Contracts see the bytes.
#[derive(Drop)]
pub struct Row {
    bytes: Vec<u8>,
    /// After how many bytes each is there again; 0 if that is not known.
    period: usize,
}

impl Model for Row {
    ghost use Rattle.std.specs.Prelude.{List, ℕ};
    ghost use Rattle.validator.specs.Inside.Periods.{Repeats};

    ghost Value = { List ℕ };

    ghost view = { λ r. r.bytes.items };

    ghost invariant = { λ r. Repeats r.period r.bytes.items };
}

impl Row {
    /// A row of these bytes. No memory is taken.
    pub fn new(bytes: Vec<u8>) -> Row
        ensures { result ≡ bytes.items }
    {
        let period = period_of(bytes.as_slice());
        Row { bytes, period }
    }

    /// How many bytes there are.
    pub fn len(&self) -> usize
        ensures { result ≡ length self.now }
    {
        self.bytes.len()
    }

    /// This number of bytes, from one on.
    pub fn part(&self, first: usize, count: usize) -> Part<'_>
        requires { first + count ≤ length self.now }
        ensures { result ≡ take count (drop first self.now) }
    {
        Part {
            bytes: &self.bytes[first..first + count],
            period: self.period,
        }
    }
}

/// Bytes of a row that follow each other. Contracts see them.
#[derive(Drop)]
pub struct Part<'a> {
    bytes: &'a [u8],
    /// After how many bytes each is there again; 0 if that is not known.
    period: usize,
}

impl<'a> Model for Part<'a> {
    ghost use Rattle.std.specs.Prelude.{List, ℕ};
    ghost use Rattle.validator.specs.Inside.Periods.{Repeats};

    ghost Value = { List ℕ };

    ghost view = { λ p. p.bytes.now };

    ghost invariant = { λ p. Repeats p.period p.bytes.now };
}

impl<'a> Part<'a> {
    /// Whether these are surely the same bytes as those.
    pub fn is_known_same(&self, other: &Part<'_>) -> bool
        ensures { IsTrue result → self.now ≡ other.now }
    {
        let period = self.period;
        if self.bytes.len() != other.bytes.len() {
            return false;
        }
        if 0 < period && period == other.period && period < self.bytes.len() {
            return are_same_bytes(&self.bytes[..period], &other.bytes[..period]);
        }
        are_same_bytes(self.bytes, other.bytes)
    }
}

// After how many of these bytes each is there again, if after few; else 0.
fn period_of(bytes: &[u8]) -> usize
    ensures { Repeats result bytes.now }
{
    for period in 1..MOST_PERIOD {
        if is_period(bytes, period) {
            return period;
        }
    }
    0
}

// Whether each of these bytes is there again after that number of them.
fn is_period(bytes: &[u8], period: usize) -> bool
    ensures { IsTrue result → Repeats period bytes.now }
{
    period < bytes.len() && are_same_bytes(&bytes[period..], &bytes[..bytes.len() - period])
}
