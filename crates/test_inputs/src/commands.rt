//! Command lines, and what they write.
//!
//! A line is a command line, the file of the name `m`, the status, and what is written to standard output and
//! to standard error, with ` => ` between. The file is in hexadecimal digits or, after `text `, as it is;
//! after `body ` it is the module of `BEFORE` and `AFTER` with this body. `\n` is a line feed, and
//! `nothing` is no byte at all. `ok COUNT` is printed at the end: of how many lines all three are
//! as wanted. Each other line is printed with what was found.

use crate::written::{Written, bytes_of, text_of, written_by};
use anyhow::{Context, Result};
use std::alloc::{AllocError, Global};

/// What is before the body of an entry, in a module that can end the task.
const BEFORE: &str =
    "(module (type $p (func (param i32))) (type $v (func)) (import \"wasi_snapshot_preview1\" \"proc_exit\" (func $exit (type $p))) (func $s (type $v) ";

/// What is after it.
const AFTER: &str = ") (export \"_start\" (func $s)))";

/// A command line, its file, and what is wanted of it.
#[derive(Clone, Copy)]
struct Row<'a> {
    command: &'a str,
    file: &'a str,
    status: u8,
    out: &'a str,
    err: &'a str,
}

// A part of a line.
fn part(written: &str) -> &str {
    if written == "nothing" { "" } else { written }
}

// What a line says.
fn row_of(line: &str) -> Result<Row<'_>> {
    let (command, rest) = line.split_once(" => ").context("no file")?;
    let (file, rest) = rest.split_once(" => ").context("no status")?;
    let (status, rest) = rest.split_once(" => ").context("no output")?;
    let (out, err) = rest.split_once(" => ").context("no error output")?;
    let status = status.parse::<u8>()?;
    Ok(Row {
        command,
        file: part(file),
        status,
        out: part(out),
        err: part(err),
    })
}

// The module with this body.
fn framed(alloc: Global, body: &str) -> Result<Vec<u8>, AllocError> {
    let mut text = String::from_str(alloc, BEFORE)?;
    text.push_str(body)?;
    text.push_str(AFTER)?;
    Ok(text.into_bytes())
}

// The file of a row.
fn file_in(alloc: Global, file: &str) -> Result<Vec<u8>> {
    match file.strip_prefix("body ") {
        Some(body) => Ok(framed(alloc, body)?),
        None => bytes_of(alloc, file),
    }
}

// Whether this is what is wanted.
fn is_wanted(alloc: Global, row: Row<'_>, found: &Written) -> Result<bool, AllocError> {
    let out = text_of(alloc, row.out)?;
    let err = text_of(alloc, row.err)?;
    let is_same = found.out.as_slice() == out.as_slice() && found.err.as_slice() == err.as_slice();
    Ok(is_same && found.status == row.status)
}

// Prints what a row comes to.
fn print_found(rt: &HostRuntime, line: &str, found: &Written) -> Result<()> {
    let out = String::from_utf8_lossy(rt.alloc(), found.out.as_slice())?;
    let err = String::from_utf8_lossy(rt.alloc(), found.err.as_slice())?;
    println!(rt; "{line}\nin place of: {} => {out} => {err}", found.status)?;
    Ok(())
}

/// Whether a command line writes what its line says; else what it writes is printed.
pub fn is_right(rt: &HostRuntime, line: &str) -> Result<bool> {
    let alloc = rt.alloc();
    let row = row_of(line)?;
    let file = file_in(alloc, row.file)?;
    let found = written_by(alloc, row.command, file.as_slice())?;
    if is_wanted(alloc, row, &found)? {
        return Ok(true);
    }
    print_found(rt, line, &found)?;
    Ok(false)
}
