//! Programs that end as a line says, on both machines, which show the same before each of their turns.
//!
//! A line has what a program is, how it ends (`return`, `exit NUMBER` or `trap NAME`), the number of turns
//! after which it does, what it writes to standard output (`nothing`, if it writes nothing), and its
//! functions as text, with ` => ` between. Types, imports and exports are those of `BEFORE` and `AFTER`. `ok
//! WHAT` is printed; or, if a machine comes to something else, what both show after the first turn of which
//! this is so.

use crate::machines::{end_text, process, shown, turned};
use anyhow::{Context, Result, bail};
use label_machine::{Control, LabelMachine};
use oci_config::Stream;
use std::alloc::{AllocError, Global};
use step_machine::Machine;
use text_assembler::assemble;
use validator::{Valid, validate};
use wasm_ast::{Refusal, ShownFrame};
use wasm_binary::decode;

/// What is before the functions of a program: an import that ends the task.
const BEFORE: &str = "(module
  (type $p (func (param i32)))
  (type $v (func))
  (type $i (func (param i32) (result i32)))
  (type $a (func (param i32 i32) (result i32)))
  (type $t (func (result i32 i32)))
  (type $w (func (param i32 i32 i32 i32) (result i32)))
  (import \"wasi_snapshot_preview1\" \"proc_exit\" (func $exit (type $p)))
  (import \"wasi_snapshot_preview1\" \"fd_write\" (func $write (type $w)))
";

/// What is after them.
const AFTER: &str = "
  (export \"_start\" (func $s))
  (export \"memory\" (memory 0)))
";

/// A program, how it ends, and after how many turns.
#[derive(Clone, Copy)]
struct Program<'a> {
    what: &'a str,
    end: &'a str,
    turns: u64,
    out: &'a str,
    text: &'a str,
}

// What a line says of a program.
fn program_of(line: &str) -> Result<Program<'_>> {
    let (what, rest) = line.split_once(" => ").context("no end")?;
    let (end, rest) = rest.split_once(" => ").context("no turns")?;
    let (turns, rest) = rest.split_once(" => ").context("no output")?;
    let (out, text) = rest.split_once(" => ").context("no text")?;
    let out = if out == "nothing" { "" } else { out };
    let turns = turns.parse::<u64>()?;
    Ok(Program {
        what,
        end,
        turns,
        out,
        text,
    })
}

// The module of a program.
fn module_of(alloc: Global, text: &str) -> Result<Valid, Refusal> {
    let mut whole = String::from_str(alloc, BEFORE)?;
    whole.push_str(text)?;
    whole.push_str(AFTER)?;
    let bytes = assemble(alloc, whole.as_str())?;
    validate(alloc, decode(alloc, bytes.as_slice())?)
}

// Whether two frames are shown in the same way.
fn is_same_frame(frame: &ShownFrame, other: &ShownFrame) -> bool {
    frame.func == other.func
        && frame.next == other.next
        && frame.labels.as_slice() == other.labels.as_slice()
        && frame.locals.as_slice() == other.locals.as_slice()
        && frame.operands.as_slice() == other.operands.as_slice()
}

// Whether two machines show the same frames.
fn show_same<A: Control, B: Control>(
    alloc: Global,
    machine: &A,
    other: &B,
) -> Result<bool, AllocError> {
    let (frames, others) = (machine.frames(alloc)?, other.frames(alloc)?);
    for (frame, other) in frames.iter().zip(others.iter()) {
        if !is_same_frame(frame, other) {
            return Ok(false);
        }
    }
    Ok(frames.len() == others.len())
}

// Whether a machine has come to what is wanted after this many turns: it goes on, or has ended with this
// output.
fn is_wanted<C: Control>(
    alloc: Global,
    program: Program<'_>,
    turns: u64,
    control: &C,
) -> Result<bool, AllocError> {
    let end = end_text(alloc, control.halted())?;
    let wanted = if turns < program.turns {
        "none"
    } else {
        program.end
    };
    let is_out = turns < program.turns || control.output(Stream::Out) == program.out.as_bytes();
    Ok(end.as_str() == wanted && control.turns() == turns && is_out)
}

// What both machines show after this many turns, if they do not show the same, or not what is wanted.
fn differ<A: Control, B: Control>(
    alloc: Global,
    program: Program<'_>,
    turns: u64,
    machine: &A,
    labels: &B,
) -> Result<Option<String>, Refusal> {
    let is_right = is_wanted(alloc, program, turns, machine)?;
    let is_right = is_wanted(alloc, program, turns, labels)? && is_right;
    if show_same(alloc, machine, labels)? && is_right {
        return Ok(None);
    }
    let (found, other) = (shown(alloc, machine)?, shown(alloc, labels)?);
    Ok(Some(format!(in alloc; "after {turns} turns\n{found}\n{other}")?))
}

// Runs a program on two machines up to its end, and compares what they show before each turn and at the end.
// The first difference, if there is one.
fn compare<A: Control + Drop, B: Control + Drop>(
    alloc: Global,
    program: Program<'_>,
    machine: A,
    labels: B,
) -> Result<Option<String>, Refusal> {
    let (mut machine, mut labels) = (machine, labels);
    for turns in 0..=program.turns {
        machine = turned(machine, turns)?;
        labels = turned(labels, turns)?;
        let found = differ(alloc, program, turns, &machine, &labels)?;
        if found.is_some() {
            return Ok(found);
        }
    }
    Ok(None)
}

// Runs a program on both machines. The first difference, if there is one.
fn run(alloc: Global, program: Program<'_>) -> Result<Option<String>, Refusal> {
    let valid = module_of(alloc, program.text)?;
    let machine = Machine::new(alloc, valid.share()?, process(alloc)?)?;
    let labels = LabelMachine::new(alloc, &valid, process(alloc)?)?;
    compare(alloc, program, machine, labels)
}

/// Runs the program of a line.
pub fn line(rt: &HostRuntime, line: &str) -> Result<()> {
    let program = program_of(line)?;
    match run(rt.alloc(), program) {
        Ok(None) => println!(rt; "ok {}", program.what)?,
        Ok(Some(found)) => println!(rt; "{}: {found}", program.what)?,
        Err(_) => bail!("refused"),
    }
    Ok(())
}
