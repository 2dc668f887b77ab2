//! An execution that has not ended.

use crate::frame::Frame;
use crate::pile::Pile;
use crate::store::Store;
use step_machine::End;

/// The innermost frame, those that have called, the function that is invoked after the outermost has
/// ended, and the store.
#[derive(Drop)]
pub struct Run<'m> {
    pub top: Frame<'m>,
    pub callers: Pile<Frame<'m>>,
    pub pending: Option<u32>,
    pub store: Store,
}

/// All but the innermost frame.
#[derive(Drop)]
pub struct Outside<'m> {
    pub callers: Pile<Frame<'m>>,
    pub pending: Option<u32>,
    pub store: Store,
}

/// What the innermost frame is about to do.
#[derive(Clone, Copy, PartialEq, Eq, Debug)]
pub enum Doing {
    /// What follows in its innermost block.
    Next,
    /// A call of this function, imports counted first.
    Calls(u32),
    /// A branch to this label, the innermost one being 0.
    Branches(u32),
    /// A return.
    Returns,
}

/// What one reduction leads to.
#[derive(Drop)]
pub enum Step<'m> {
    /// The execution goes on so.
    Goes(Run<'m>, Doing),
    /// An instruction is next, for which a turn is due.
    Waits(Run<'m>),
    /// It has ended.
    Ends(End, Store),
    /// There is no rule, to which no valid module comes.
    Stuck,
}
