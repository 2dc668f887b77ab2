//! The abstract syntax of WebAssembly modules, and the words that every layer above shares: values,
//! traps and refusals.
//!
//! Sections are those of the WebAssembly Core Specification 1.0, but where Core 2.0 is named: the sign
//! extensions, several results and types of blocks by index are from there.
#![tactic(auto)]

mod constant;
mod func_types;
mod identifier;
mod instr;
pub mod laws;
mod module;
mod numerals;
mod operators;
mod place;
mod refusal;
mod same_types;
mod sequence;
mod shown;
mod text;
mod trap;
mod values;

pub use constant::Constant;
pub use identifier::{is_digest, is_id};
pub use instr::{Arms, BlockType, Body, GlobalOp, Instr, LocalOp, MemArg, Simple};
pub use module::{
    Element, Export, ExportKind, Func, Global, Import, Limits, MAX_FUNCTIONS, MAX_LOCALS,
    MAX_MEMORY_PAGES, MAX_MODULE_BYTES, MAX_NESTING, MAX_RESULTS, MAX_TABLE_ENTRIES, Module,
    Mutability, Segment,
};
pub use numerals::{push_decimal, push_signed32, push_signed64};
pub use operators::{BinaryOp, ConvertOp, LoadOp, RelationOp, StoreOp, TestOp, UnaryOp};
pub use place::Place;
pub use refusal::Refusal;
pub use same_types::{are_same_types, is_same_type};
pub use sequence::{Bytes, Labels, Sequence};
pub use shown::ShownFrame;
pub use text::Text;
pub use trap::Trap;
pub use values::{FuncType, ValType, Value};
