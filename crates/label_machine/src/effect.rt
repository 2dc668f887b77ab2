//! What an instruction comes to.

use wasm_ast::Trap;

/// What an instruction without a body comes to, once its operands are taken and its results are there.
#[derive(Clone, Copy, PartialEq, Eq, Debug)]
pub enum Effect {
    /// It is done.
    Done,
    /// A function is called, imports counted first.
    Calls(u32),
    /// A branch to this label, the innermost one being 0.
    Branches(u32),
    /// A return.
    Returns,
    /// The execution ends.
    Traps(Trap),
    /// There is no rule, to which no valid module comes.
    Stuck,
}
