//! The log of `serve`: which events are lines of it, and what happened, when, and by whose line, as text or
//! as JSON. Its lines are for operators, and nothing is decided by them.
#![tactic(auto)]

mod line;
mod log;
mod outlet;

pub use line::{By, Format, Line, Moment};
pub use log::Log;
pub use outlet::{Clocks, Outlet, Terminal};
