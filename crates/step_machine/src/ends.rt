//! How machines and slices end.

use wasm_ast::Trap;

/// How a machine has ended.
#[derive(Clone, Copy, PartialEq, Eq, Debug)]
pub enum End {
    /// The entry returned.
    Returned,
    /// `proc_exit` was called with this number.
    Exited(u32),
    /// A turn trapped (4.2.2).
    Trapped(Trap),
}

/// What ended a slice. A machine's own end goes before a breakpoint, and a breakpoint before the budget.
#[derive(Clone, Copy, PartialEq, Eq, Debug)]
pub enum SliceEnd {
    /// The budget is used up.
    Budget,
    /// The next instruction is at a breakpoint.
    Break,
    /// The entry returned.
    Returned,
    /// `proc_exit` was called with this number.
    Exited(u32),
    /// A turn trapped.
    Trapped(Trap),
}
