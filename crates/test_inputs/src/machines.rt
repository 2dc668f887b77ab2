//! Modules that run on both machines, the one with targets that are found before and the one that keeps
//! labels.
//!
//! A line is a module in hexadecimal digits, and counts of turns in rising order, each after a space. For
//! each count a line is printed when both machines have made that many turns, or have ended before: `same`
//! or `different`, and then what the machine that keeps labels shows, with a tab before each part: how it
//! has ended, what it has written to each stream in hexadecimal digits, and its turns and frames as the
//! reply to `inspect`. A refusal is printed as its reply, and nothing more of its module. An empty line
//! follows each module.

ghost use Rattle.std.specs.Prelude.{◌≡◌, [], IfOk};

use label_machine::{Control, LabelMachine};
use oci_config::{Process, Stream, process_under};
use request_lines::{line_of, no_memory_line};
use std::alloc::{AllocError, Global};
use std::io;
use step_machine::{Breaks, End, Machine};
use task_requests::Reply;
use validator::{Valid, validate};
use wasm_ast::{Refusal, Sequence, Text};
use wasm_binary::decode;

// The module whose bytes have these digits.
fn module_of(alloc: Global, digits: &str) -> Result<Valid, Refusal> {
    let Ok(bytes) = hex::decode(alloc, digits) else {
        return Err(Refusal::BadRequest);
    };
    validate(alloc, decode(alloc, bytes.as_slice())?)
}

fn arguments(alloc: Global) -> Result<Vec<Text>, AllocError> {
    let mut args = Vec::new(alloc);
    args.push(Text::from_str(alloc, "a")?)?;
    Ok(args)
}

/// The process of each machine.
pub fn process(alloc: Global) -> Result<Process, Refusal>
    ensures { IfOk result (λ p. (p.out ≡ []) × (p.err ≡ [])) }
{
    process_under(alloc, arguments(alloc)?, Vec::new(alloc), None)
}

/// How a machine has ended.
pub fn end_text(alloc: Global, end: Option<End>) -> Result<String, AllocError> {
    match end {
        None => String::from_str(alloc, "none"),
        Some(End::Returned) => String::from_str(alloc, "return"),
        Some(End::Exited(number)) => format!(in alloc; "exit {number}"),
        Some(End::Trapped(trap)) => format!(in alloc; "trap {trap}"),
    }
}

// The turns and the frames of a machine, as the line of the reply to `inspect`.
fn frames_line<C: Control>(alloc: Global, control: &C) -> Result<String, Refusal> {
    let frames = Sequence::new(control.frames(alloc)?);
    let id = Text::from_str(alloc, "a")?;
    let n = control.turns();
    line_of(alloc, &Ok(Reply::Inspect { frames, id, n }))
}

/// What a machine shows.
pub fn shown<C: Control>(alloc: Global, control: &C) -> Result<String, Refusal> {
    let end = end_text(alloc, control.halted())?;
    let out = hex::encode(alloc, control.output(Stream::Out))?;
    let err = hex::encode(alloc, control.output(Stream::Err))?;
    let frames = frames_line(alloc, control)?;
    Ok(format!(in alloc; "{end}\t{out}\t{err}\t{frames}")?)
}

/// A machine when it has made this many turns, or has ended before.
pub fn turned<C: Control + Drop>(control: C, turns: u64) -> Result<C, Refusal> {
    let mut control = control;
    for _ in control.turns()..turns {
        if control.halted().is_some() {
            return Ok(control);
        }
        control = control.turn()?;
    }
    Ok(control)
}

// Adds the line of what both machines show.
fn add_stop<A: Control, B: Control>(
    alloc: Global,
    lines: &mut String,
    machine: &A,
    labels: &B,
) -> Result<(), Refusal> {
    let wanted = shown(alloc, machine)?;
    let found = shown(alloc, labels)?;
    let is_same = wanted.as_str() == found.as_str();
    lines.push_str(if is_same { "same\t" } else { "different\t" })?;
    lines.push_str(found.as_str())?;
    Ok(())
}

// Adds a line for each count of turns.
fn add_stops<C: Control + Drop>(
    alloc: Global,
    lines: &mut String,
    counts: &str,
    machine: &mut Machine,
    labels: C,
) -> Result<(), Refusal> {
    let breaks = Breaks::none(alloc)?;
    let mut labels = labels;
    for count in counts.split(' ') {
        let Ok(turns) = count.parse::<u64>() else {
            return Err(Refusal::BadRequest);
        };
        let _end = machine.run(turns.saturating_sub(machine.turns()), &breaks);
        labels = turned(labels, turns)?;
        add_stop(alloc, lines, machine, &labels)?;
    }
    Ok(())
}

// Adds the lines of a module.
fn add_module(alloc: Global, lines: &mut String, line: &str) -> Result<(), Refusal> {
    let (digits, counts) = line.split_once(' ').unwrap_or((line, ""));
    let valid = module_of(alloc, digits)?;
    let mut machine = Machine::new(alloc, valid.share()?, process(alloc)?)?;
    let labels = LabelMachine::new(alloc, &valid, process(alloc)?)?;
    add_stops(alloc, lines, counts, &mut machine, labels)
}

// The lines of a module; the last one is that of a refusal, if there is one. `NoMemory` if memory for them
// runs out.
fn lines_of(alloc: Global, line: &str) -> Result<String, Refusal> {
    let mut lines = String::new(alloc);
    if let Err(refusal) = add_module(alloc, &mut lines, line) {
        let reply = line_of(alloc, &Err(refusal))?;
        lines.push_str(reply.as_str())?;
    }
    Ok(lines)
}

/// Prints the lines of a module.
pub fn line(rt: &HostRuntime, module: &str) -> io::Result<()> {
    match lines_of(rt.alloc(), module) {
        Ok(lines) => println!(rt; "{lines}"),
        Err(_) => println!(rt; "{}", no_memory_line()),
    }
}
