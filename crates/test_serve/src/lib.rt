//! Tests of `serve` over memory: scripts and live callers, how it ends, what is said on standard error, and
//! its workers.
#![tactic(auto)]

#[cfg(test)]
mod leaving;
#[cfg(test)]
mod living;
#[cfg(test)]
mod long_replies;
#[cfg(test)]
mod many_scripts;
#[cfg(test)]
mod serving;
#[cfg(test)]
mod waiting;
#[cfg(test)]
mod working;
