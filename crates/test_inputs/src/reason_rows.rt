//! What is refused, and the reasons that are told with it.
//!
//! A line is a command, what it is given, and the reason that is wanted, with ` => ` between. The command is
//! that of a command line (`asm`, `check` or `run`, with options and perhaps the name `m` of the file and
//! arguments after it) for a file; `config` for the text of one; `request` or `event` for a line of `serve`
//! or `replay`; `refused NUMBER` for the line of a request that is refused so, with `at LINE COLUMN` after a
//! number 18, `at FUNC PLACE` after an 8, and `content HEX` if the config of a create names that content.
//! What it is given is in hexadecimal digits or, after `text `, as it is, with `\n` for a line feed. `ok
//! COUNT` is printed at the end: of how many lines the reason is the one that is wanted, and the command with
//! `--explain` writes what it writes without, and then the line of that reason. Each other line is printed
//! with what was found. Of a line without a reason the refusal and its reason are printed.

mod files;
mod requests;

use crate::reason_rows::files::file_told;
use crate::reason_rows::requests::refused_told;
use crate::written::bytes_of;
use anyhow::{Context, Result, bail};
use oci_config::read_config;
use reasons::{Lines, why_config, why_line};
use request_lines::{event_of, request_of};
use std::alloc::Global;
use std::str::from_utf8;
use wasm_ast::Refusal;

// The refusal of a text or a line, if it is refused.
fn refusal_text<T>(read: &Result<T, Refusal>) -> Result<&'static str> {
    match read {
        Ok(_) => Ok("accepted"),
        Err(Refusal::BadConfig) => Ok("refused 10 BadConfig"),
        Err(Refusal::BadRequest) => Ok("refused 1 BadRequest"),
        Err(_) => bail!("out of memory"),
    }
}

// How a refusal and a reason are told.
fn told(alloc: Global, refusal: &str, reason: String) -> Result<(String, String)> {
    if reason.as_str().contains('\n') {
        bail!("a reason of two lines");
    }
    let refusal = String::from_str(alloc, refusal)?;
    if reason.is_empty() {
        return Ok((refusal, String::from_str(alloc, "none")?));
    }
    Ok((refusal, reason))
}

fn config_told(alloc: Global, bytes: &[u8]) -> Result<(String, String)> {
    let reason = why_config(alloc, from_utf8(bytes)?)?;
    told(alloc, refusal_text(&read_config(alloc, bytes))?, reason)
}

fn request_told(alloc: Global, line: &[u8]) -> Result<(String, String)> {
    let reason = why_line(alloc, line, Lines::Requests)?;
    told(alloc, refusal_text(&request_of(alloc, line))?, reason)
}

fn event_told(alloc: Global, line: &[u8]) -> Result<(String, String)> {
    let reason = why_line(alloc, line, Lines::Events)?;
    told(alloc, refusal_text(&event_of(alloc, line))?, reason)
}

// The refusal and the reason that a command tells.
fn told_of(alloc: Global, command: &str, bytes: &[u8]) -> Result<(String, String)> {
    if let Some(written) = command.strip_prefix("refused ") {
        return refused_told(alloc, written, bytes);
    }
    match command {
        "config" => config_told(alloc, bytes),
        "request" => request_told(alloc, bytes),
        "event" => event_told(alloc, bytes),
        _ => file_told(alloc, command, bytes),
    }
}

/// Whether the reason of a row is the one that is wanted; else it is printed.
pub fn is_right(rt: &HostRuntime, row: &str) -> Result<bool> {
    let alloc = rt.alloc();
    let (command, rest) = row.split_once(" => ").context("a row without a file")?;
    let (written, wanted) = match rest.split_once(" => ") {
        Some((written, wanted)) => (written, wanted),
        None => (rest, ""),
    };
    let bytes = bytes_of(alloc, written)?;
    let (refusal, reason) = told_of(alloc, command, bytes.as_slice())?;
    if wanted == "" {
        println!(rt; "{refusal}\t{reason}")?;
        return Ok(false);
    }
    if reason.as_str() == wanted {
        return Ok(true);
    }
    println!(rt; "{row}\nin place of: {reason}")?;
    Ok(false)
}
