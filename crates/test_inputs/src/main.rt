//! Runs what the lines of standard input name.
//!
//! A line `[rows]`, `[commands]`, `[reasons]`, `[machines]` or `[programs]` is a head. It is printed, and the
//! lines up to the next head are those of the module `rows`, `commands`, `reason_rows`, `machines` or
//! `programs`, which says what they are and what is printed of them. A line that is empty or begins with `#`
//! says something of the others.
#![tactic(auto)]

mod commands;
mod machines;
mod programs;
mod reason_rows;
mod rows;
mod written;

use anyhow::{Context, Result};

// What is said of a line of no part.
const HEADS: &str =
    "the heads of parts are [rows], [commands], [reasons], [machines] and [programs]";

/// What the lines of a part name.
#[derive(Clone, Copy)]
enum Part {
    Rows,
    Commands,
    Reasons,
    Machines,
    Programs,
}

// The part that a head begins.
fn part_of(head: &str) -> Option<Part> {
    match head {
        "[rows]" => Some(Part::Rows),
        "[commands]" => Some(Part::Commands),
        "[reasons]" => Some(Part::Reasons),
        "[machines]" => Some(Part::Machines),
        "[programs]" => Some(Part::Programs),
        _ => None,
    }
}

// Prints the head of a part.
fn begin(rt: &HostRuntime, head: &str) -> Result<Part> {
    let part = part_of(head).context(HEADS)?;
    println!(rt; "{head}")?;
    Ok(part)
}

// Runs what a line of a part names. 1 if it is as wanted and is to be counted.
fn run(rt: &HostRuntime, part: Part, line: &str) -> Result<u64> {
    match part {
        Part::Rows => rows::line(rt, line)?,
        Part::Commands => return Ok(u64::from(commands::is_right(rt, line)?)),
        Part::Reasons => return Ok(u64::from(reason_rows::is_right(rt, line)?)),
        Part::Machines => machines::line(rt, line)?,
        Part::Programs => programs::line(rt, line)?,
    }
    Ok(0)
}

// Ends a part, if one is open: prints how many of its lines were as wanted, if they are counted.
fn end(rt: &HostRuntime, open: Option<Part>, right: u64) -> Result<()> {
    if let Some(Part::Commands | Part::Reasons) = open {
        println!(rt; "ok {right}")?;
    }
    Ok(())
}

fn main(rt: HostRuntime) -> Result<()> {
    let mut open = None;
    let mut right = 0_u64;
    for line in rt.lines(rt.alloc()) {
        let line = line?;
        if line.starts_with('[') {
            end(&rt, open, right)?;
            open = Some(begin(&rt, line.as_str())?);
            right = 0;
        } else if !line.is_empty() && !line.starts_with('#') {
            right = right.saturating_add(run(&rt, open.context(HEADS)?, line.as_str())?);
        }
    }
    end(&rt, open, right)
}
