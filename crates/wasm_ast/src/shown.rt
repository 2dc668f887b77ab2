//! A frame as a person sees it.

use crate::sequence::Sequence;
use crate::values::Value;

/// A frame, with the numbers of its operands and locals as values of their types.
#[derive(Drop)]
pub struct ShownFrame {
    /// Its function, imports counted first.
    pub func: u32,
    /// The place of the instruction that is next in it, found through the ends of its blocks; None at
    /// its end. In a frame that has called it is the one after the call.
    pub next: Option<u32>,
    /// The blocks that are open in it, each by its place, the innermost first.
    pub labels: Sequence<u32>,
    /// Its locals, parameters first.
    pub locals: Sequence<Value>,
    /// The operands of all its blocks, the oldest first.
    pub operands: Sequence<Value>,
}
