//! What a person sees of a machine that does not run: its frames, its memory, and which places it
//! has. Sections are those of the WebAssembly Core Specification 1.0.
#![tactic(auto)]

mod frame_places;
mod frames;
mod known_places;
pub mod laws;
mod memory;
mod open_blocks;
mod places;
mod shown;
mod types;
mod values;

pub use frames::inspect;
pub use memory::peek;
pub use places::place_exists;
pub use shown::Shown;
