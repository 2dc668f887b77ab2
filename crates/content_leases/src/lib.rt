//! Contents under their digests, and the leases that hold them.
#![tactic(auto)]

mod contents;
mod digest;
pub mod laws;
mod leases;
mod members;
mod store;

pub use digest::digest_of;
pub use members::Members;
pub use store::Store;
