//! Tests of a shim that callers and workers share: what seats see, and calls and slices in several
//! threads.
#![tactic(auto)]

#[cfg(test)]
mod asking;
#[cfg(test)]
mod checks;
#[cfg(test)]
mod closing;
#[cfg(test)]
mod histories;
#[cfg(test)]
mod living;
#[cfg(test)]
mod offering;
#[cfg(test)]
mod scripts;
#[cfg(test)]
mod sharing;
#[cfg(test)]
mod stories;
#[cfg(test)]
mod storm;
#[cfg(test)]
mod unread;
#[cfg(test)]
mod waking;
#[cfg(test)]
mod workers;
