//! Entries of the journal.

use task_board::Request;

/// How a call found the task that it names.
#[derive(Clone, Copy, PartialEq, Eq, Debug)]
pub struct Found {
    /// How many turns the task had made; while its slice is out, how many it had made before.
    pub n: u64,
    /// The budget of its slice, while that is out.
    pub out: Option<u64>,
}

/// An entry: a call, by which seat it was made, and how it found the task that it names. There is nothing
/// found if the request names no task, or no task has the id.
#[derive(Drop)]
pub struct Entry {
    pub seat: u64,
    pub request: Request,
    pub found: Option<Found>,
}
