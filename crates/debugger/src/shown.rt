//! What is shown of a machine.

use wasm_ast::{Sequence, ShownFrame};

/// The frames of a machine, the innermost first.
#[derive(Drop)]
pub struct Shown {
    pub frames: Sequence<ShownFrame>,
}
