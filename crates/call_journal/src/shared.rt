//! What the lock of a shim keeps.

use crate::book::Book;
use crate::row::Row;

/// The book, and how many sleep until it changes.
#[derive(Drop)]
pub(crate) struct Shared<R: Row> {
    pub(crate) book: Book<R>,
    /// How many callers wait for a task.
    pub(crate) callers: u64,
    /// How many workers have no ticket.
    pub(crate) workers: u64,
}

impl<R: Row> Shared<R> {
    /// A book, for which nobody waits.
    pub(crate) fn new(book: Book<R>) -> Shared<R> {
        Shared {
            book,
            callers: 0,
            workers: 0,
        }
    }
}
