//! What commands for files tell.

use crate::written::{NAME, Written, written_by};
use anyhow::{Context, Result, bail};
use std::alloc::{AllocError, Global};

// A command line of these parts, with the file at its end if it is not named. Checks have their list.
fn joined(alloc: Global, command: &str, options: &str, rest: &str) -> Result<String, AllocError> {
    let list = if command == "check" { "--list" } else { "" };
    let is_named = rest.split_whitespace().any(|word| word == NAME);
    let file = if is_named { "" } else { NAME };
    format!(in alloc; "{command} {list} {options} {rest} {file}")
}

// A command line with these options after its command.
fn with_options(alloc: Global, line: &str, options: &str) -> Result<String, AllocError> {
    match line.split_once(' ') {
        Some((command, rest)) => joined(alloc, command, options, rest),
        None => joined(alloc, line, options, ""),
    }
}

// The reason in what follows a refusal's line; `none` if there is none.
fn reason_in(added: &str) -> Result<&str> {
    if added.is_empty() {
        return Ok("none");
    }
    let reason = added.strip_prefix("why: ").context("no reason")?;
    reason.strip_suffix('\n').context("no end of the line")
}

// The refusal and the reason in what a command writes without `--explain` and with it.
fn told_by(alloc: Global, plain: &Written, explained: &Written) -> Result<(String, String)> {
    if plain.out.as_slice() != explained.out.as_slice() || plain.status != explained.status {
        bail!("another answer");
    }
    let Some(added) = explained.err.as_slice().strip_prefix(plain.err.as_slice()) else {
        bail!("another first line");
    };
    let reason = String::from_str(alloc, reason_in(str::from_utf8(added)?)?)?;
    if plain.status == 0 {
        return Ok((String::from_str(alloc, "accepted")?, reason));
    }
    let refusal = String::from_utf8_lossy(alloc, plain.err.as_slice())?;
    Ok((
        String::from_str(alloc, refusal.as_str().trim_end())?,
        reason,
    ))
}

/// The refusal and the reason that a command tells of a file with these bytes; checks have their
/// list. An error if it writes or ends otherwise with `--explain`.
pub fn file_told(alloc: Global, line: &str, bytes: &[u8]) -> Result<(String, String)> {
    let line_without = with_options(alloc, line, "")?;
    let line_with = with_options(alloc, line, "--explain")?;
    let plain = written_by(alloc, line_without.as_str(), bytes)?;
    let explained = written_by(alloc, line_with.as_str(), bytes)?;
    told_by(alloc, &plain, &explained)
}
