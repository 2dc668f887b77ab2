//! Tests of one caller's lines over memory (streams that fail or are interrupted, long lines, what notes are
//! told), and of the lines of the log.
#![tactic(auto)]

#[cfg(test)]
mod checks;
#[cfg(test)]
mod driven;
#[cfg(test)]
mod driving;
#[cfg(test)]
mod log_events;
#[cfg(test)]
mod log_lines;
#[cfg(test)]
mod long_lines;
#[cfg(test)]
mod long_replies;
#[cfg(test)]
mod missing;
#[cfg(test)]
mod noting;
