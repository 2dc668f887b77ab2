//! Operations on integers, each equal to its definition on whole numbers (4.3.2, 4.3.4). Sections
//! are those of the WebAssembly Core Specification 1.0, but where Core 2.0 is named.
#![tactic(auto)]

mod conversions;
pub mod laws;
mod ops_32;
mod ops_64;
mod values;

pub use conversions::{
    extend_s, extend_u, extend8_32, extend8_64, extend16_32, extend16_64, extend32_64, wrap,
};
pub use ops_32::{binary_32, compare_32, test_32, unary_32};
pub use ops_64::{binary_64, compare_64, test_64, unary_64};
pub use values::{binary, compare, convert, test, unary};
