//! Which modules are valid (3). Sections are those of the WebAssembly Core Specification 1.0.
#![tactic(auto)]

mod access;
mod block_types;
mod bodies;
mod check_error;
mod comparisons;
mod each_place;
mod function;
mod groups;
mod labels;
pub mod laws;
mod module_parts;
mod needs;
mod operands;
mod packed;
mod packed_module;
mod places;
mod rows;
mod simple;
mod steps;
mod type_list;
mod types;
mod unchecked;
mod valid_module;
mod validation;
mod walk;

pub use needs::{Lack, Taken};
pub use types::{KnownOperands, Types};
pub use unchecked::{EndTypes, Unchecked};
pub use valid_module::{Valid, validate};
