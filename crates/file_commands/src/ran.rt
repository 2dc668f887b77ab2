//! What a command writes, and the status that it ends with.

ghost use Rattle.std.specs.Prelude.{◌≡◌, ◌≢◌, ◌++◌, ◌∷◌, [], Ok, Some, IfOk, IfErr, OnOk, string_bytes};
ghost use Rattle.std.specs.Io.KnownBytes.{Appends};
ghost use Rattle.wasm_ast.specs.declared.refusal.Refusal.TheVariants as refusals;
ghost use Rattle.file_commands.specs.declared.ran.Ran.{Ran as RanValue};
ghost use Rattle.file_commands.specs.Ran.{line, succeeded, refusal_text, place_text, fault_text, refused, refused_run};

use crate::run_error::RunError;
use std::alloc::{AllocError, Global};
use std::io;
use std::io::Write;
use wasm_ast::{Bytes, Place, Refusal, Sequence, push_decimal};

/// The status of `asm` and `check` if they are refused.
const REFUSED: u8 = 3;

/// The status of `run` if there is no task.
const NO_TASK: u8 = 125;

/// What a command writes to standard output and to standard error, and the status that it ends with.
#[derive(Drop)]
pub struct Ran {
    pub out: Bytes,
    pub err: Bytes,
    pub status: u8,
}

impl Ran {
    /// Writes to both streams what the command writes, to `out` first, and flushes them. The answer is the
    /// status that it ends with. `StandardOutput` or `StandardError` if that stream failed; what was written
    /// stays written.
    pub fn write<O: Write, E: Write>(&self, out: &mut O, err: &mut E) -> Result<u8, RunError>
        ensures { IfOk result
            (λ status. Appends (O.contents out.old) (O.contents out.new) self.now.out
            × Appends (E.contents err.old) (E.contents err.new) self.now.err
            × (status ≡ self.now.status)) }
    {
        write_some(self.out.as_slice(), out).map_err(RunError::StandardOutput)?;
        write_some(self.err.as_slice(), err).map_err(RunError::StandardError)?;
        Ok(self.status)
    }

    // Of a command that has done what it was asked to, and writes these bytes.
    pub(crate) fn answered(alloc: Global, out: Vec<u8>) -> Ran
        ensures { result ≡ succeeded out.items }
    {
        Ran {
            out: Sequence::new(out),
            err: Sequence::new(Vec::new(alloc)),
            status: 0,
        }
    }

    // Of one that writes this text.
    pub(crate) fn succeeded(alloc: Global, out: String) -> Ran
        ensures { result ≡ succeeded (string_bytes out) }
    {
        Ran::answered(alloc, out.into_bytes())
    }

    // Of `asm` or `check`. `NoMemory` is handed on.
    pub(crate) fn refused(alloc: Global, refusal: Refusal) -> Result<Ran, Refusal>
        ensures ran { IfOk result (λ r. r ≡ refused refusal) }
        ensures told { OnOk result (refusal ≢ refusals.NoMemory) }
        ensures errors { IfErr result (λ e. e ≡ refusals.NoMemory) }
    {
        if refusal == Refusal::NoMemory {
            return Err(Refusal::NoMemory);
        }
        let mut text = String::new(alloc);
        push_refusal(&mut text, refusal)?;
        push_fault(&mut text, refusal)?;
        text.push_str("\n")?;
        Ok(without_out(alloc, text, REFUSED))
    }

    // Of `run`, if there is no task. `NoMemory` is handed on.
    pub(crate) fn refused_run(alloc: Global, refusal: Refusal) -> Result<Ran, Refusal>
        ensures ran { IfOk result (λ r. r ≡ refused_run refusal) }
        ensures told { OnOk result (refusal ≢ refusals.NoMemory) }
        ensures errors { IfErr result (λ e. e ≡ refusals.NoMemory) }
    {
        if refusal == Refusal::NoMemory {
            return Err(Refusal::NoMemory);
        }
        let mut text = String::new(alloc);
        push_refusal(&mut text, refusal)?;
        push_place(&mut text, refusal)?;
        text.push_str("\n")?;
        Ok(without_out(alloc, text, NO_TASK))
    }
}

/// Writes these bytes, if there are any, and flushes.
pub(crate) fn write_some<W: Write>(bytes: &[u8], writer: &mut W) -> io::Result<()>
    ensures { OnOk result (Appends (W.contents writer.old) (W.contents writer.new) bytes.now) }
{
    if bytes.is_empty() {
        return Ok(());
    }
    writer.write_all(bytes)?;
    writer.flush()
}

/// Writes what a command writes, and answers the status that it ends with. Of a refusal nothing is written:
/// memory ran out.
pub(crate) fn write<O: Write, E: Write>(
    ran: Result<Ran, Refusal>,
    out: &mut O,
    err: &mut E,
) -> Result<u8, RunError>
    ensures { IfOk result (λ status. (r : RanValue) × (ran ≡ Ok r)
        × Appends (O.contents out.old) (O.contents out.new) r.out
        × Appends (E.contents err.old) (E.contents err.new) r.err
        × (status ≡ r.status)) }
{
    match ran {
        Ok(ran) => ran.write(out, err),
        Err(_) => Err(RunError::OutOfMemory),
    }
}

// Of a command that writes to standard error alone.
fn without_out(alloc: Global, err: String, status: u8) -> Ran
    ensures { result ≡ record { out = []; err = string_bytes err; status = status } }
{
    Ran {
        out: Sequence::new(Vec::new(alloc)),
        err: Sequence::new(err.into_bytes()),
        status,
    }
}

// Pushes `refused NUMBER NAME`.
fn push_refusal(text: &mut String, refusal: Refusal) -> Result<(), AllocError>
    ensures { OnOk result (string_bytes text.new ≡ string_bytes text.old ++ refusal_text refusal) }
{
    text.push_str("refused ")?;
    push_decimal(text, refusal.number())?;
    text.push_str(" ")?;
    text.push_str(refusal.name())
}

// Pushes where the fault of a text or of a body is.
fn push_fault(text: &mut String, refusal: Refusal) -> Result<(), AllocError>
    ensures { OnOk result (string_bytes text.new ≡ string_bytes text.old ++ fault_text refusal) }
{
    match refusal {
        Refusal::BadText { line, column } => push_position(text, line, column),
        _ => push_place(text, refusal),
    }
}

// Pushes where the fault of a body is.
fn push_place(text: &mut String, refusal: Refusal) -> Result<(), AllocError>
    ensures { OnOk result (string_bytes text.new ≡ string_bytes text.old ++ place_text refusal) }
{
    match refusal {
        Refusal::Invalid(Some(place)) => push_body_place(text, place),
        _ => Ok(()),
    }
}

// Pushes a function and the number of an instruction.
fn push_body_place(text: &mut String, place: Place) -> Result<(), AllocError>
    ensures { OnOk result (string_bytes text.new
        ≡ string_bytes text.old ++ place_text (Refusal.Invalid (Some place))) }
{
    text.push_str(" func ")?;
    push_decimal(text, u64::from(place.func))?;
    text.push_str(" place ")?;
    push_decimal(text, u64::from(place.instr))
}

// Pushes a line and a column.
fn push_position(text: &mut String, line: u64, column: u64) -> Result<(), AllocError>
    ensures { OnOk result (string_bytes text.new
        ≡ string_bytes text.old ++ fault_text (Refusal.BadText line column)) }
{
    text.push_str(" line ")?;
    push_decimal(text, line)?;
    text.push_str(" column ")?;
    push_decimal(text, column)
}
