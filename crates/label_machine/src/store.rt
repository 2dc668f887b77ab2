//! The store (4.2.3).

use linear_memory::LinearMemory;
use oci_config::Process;
use wasm_ast::Value;

/// Globals, memory and table, and the process, whose output streams are part of the store.
#[derive(Drop)]
pub struct Store {
    pub globals: Vec<Value>,
    pub memory: LinearMemory,
    pub table: Vec<Option<u32>>,
    pub process: Process,
}
