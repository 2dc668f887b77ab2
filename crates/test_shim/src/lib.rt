//! Tests over the public calls of all crates: that each can succeed, with answers that were worked out by
//! hand, and what no contract says. What a line can show is a row of `test_inputs`; callers and workers are
//! those of `test_callers`.
#![tactic(auto)]

#[cfg(test)]
mod boards;
#[cfg(test)]
mod bytes;
#[cfg(test)]
mod checks;
#[cfg(test)]
mod copies;
#[cfg(test)]
mod files;
#[cfg(test)]
mod runs;
#[cfg(test)]
mod stores;
#[cfg(test)]
mod writers;
