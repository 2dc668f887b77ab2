//! Scripts of lines, and what they are answered.
//!
//! A line names a script. The lines of `NAME.jsonl` are replayed, and `ok NAME` is printed if their answers
//! are `NAME.expected`; else the first line that differs is printed. In both files `<COUNT*TEXT>` is the
//! text repeated that number of times.

use anyhow::{Context, Result, bail};
use file_commands::replay_lines;
use std::alloc::Global;
use std::fs;

// Adds a part of a file that begins with a run, `COUNT*TEXT>`.
fn add_run(alloc: Global, lines: &mut String, part: &str) -> Result<()> {
    let (run, rest) = part.split_once('>').context("a run without an end")?;
    let (count, text) = run.split_once('*').context("a run without a count")?;
    let many = text.repeat(alloc, count.parse()?)?;
    lines.push_str(many.as_str())?;
    lines.push_str(rest)?;
    Ok(())
}

// The lines that a file spells.
fn lines_of(alloc: Global, script: &str) -> Result<String> {
    let Some((before, runs)) = script.split_once('<') else {
        return Ok(String::from_str(alloc, script)?);
    };
    let mut lines = String::from_str(alloc, before)?;
    for part in runs.split('<') {
        add_run(alloc, &mut lines, part)?;
    }
    Ok(lines)
}

// Prints the first line in which the answers differ from those that are wanted.
fn print_difference(rt: &HostRuntime, name: &str, answers: &str, wanted: &str) -> Result<()> {
    let mut left = wanted.lines();
    for found in answers.lines() {
        let line = left.next().unwrap_or("nothing");
        if found != line {
            println!(rt; "{name}: {found} in place of {line}")?;
            return Ok(());
        }
    }
    println!(rt; "{name}: answers are missing")?;
    Ok(())
}

/// Replays the script that a line names.
pub fn line(rt: &HostRuntime, name: &str) -> Result<()> {
    let alloc = rt.alloc();
    let script = fs::read_to_string(rt, format!(in alloc; "{name}.jsonl")?)?;
    let wanted = fs::read_to_string(rt, format!(in alloc; "{name}.expected")?)?;
    let lines = lines_of(alloc, script.as_str())?;
    let wanted = lines_of(alloc, wanted.as_str())?;
    let Ok(answers) = replay_lines(alloc, lines.as_bytes()) else {
        bail!("out of memory");
    };
    let answers = str::from_utf8(answers.as_slice())?;
    if answers == wanted.as_str() {
        println!(rt; "ok {name}")?;
        Ok(())
    } else {
        print_difference(rt, name, answers, wanted.as_str())
    }
}
