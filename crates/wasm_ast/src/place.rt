//! Places of instructions.

/// A place: a function, imports counted first, and the number of an instruction in its body. The
/// instructions of a body are numbered in written order from 0, those inside blocks included; `else` and
/// `end` have no number.
#[derive(Clone, Copy, PartialEq, Eq, Debug)]
pub struct Place {
    pub func: u32,
    pub instr: u32,
}
