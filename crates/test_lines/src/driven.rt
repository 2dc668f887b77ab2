//! The lines of a reader, answered by a shim of their own.

ghost use Rattle.std.specs.Prelude.{◌≡◌, ◌+◌, IfOk};
ghost use Rattle.call_journal.specs.Desks.{AreIdle, spot_names};
ghost use Rattle.call_journal.specs.Seats.{most_seats};

use call_journal::{Cells, Desk, MOST_SEATS, Row, Shim};
use callers::{Driven, NoNotes, Notes, drive};
use request_lines::Watched;
use std::alloc::Global;
use std::io::{Read, Write};
use std::marker::Brand;
use std::sync::Wait;
use std::sync::ledger::Blank;
use wasm_ast::Refusal;

/// Cells for a shim.
pub fn cells(alloc: Global) -> Result<Cells, Refusal> {
    Cells::new(alloc).ok_or(Refusal::NoMemory)
}

/// An idle desk for a shim.
pub fn desk(alloc: Global) -> Result<Desk, Refusal>
    ensures { IfOk result (λ d. AreIdle d) }
{
    Desk::new(alloc).ok_or(Refusal::NoMemory)
}

/// A blank for a shim.
pub fn blank() -> Blank
    ensures { result.parts ≡ most_seats + 1 }
{
    Blank::new(MOST_SEATS + 1)
}

fn driven<J: Row, R: Read, W: Write, H: Wait, N: Notes>(
    rt: &H,
    alloc: Global,
    cells: Cells,
    desk: Desk,
    blank: Blank,
    reader: &mut R,
    writer: &mut W,
    notes: &mut N,
) -> Result<Driven, Refusal>
    requires row { cells ≡ J.cells }
    requires places { spot_names desk ≡ J.slots }
    requires idle { AreIdle desk }
    requires name { blank.name ≡ J.name }
    requires parts { (blank.parts ≡ J.parts) × (blank.parts ≡ most_seats + 1) }
{
    let shim: Shim<J> = Shim::new(alloc, cells, desk, blank)?;
    let seat = shim.seat(rt).ok_or(Refusal::NoMemory)?;
    let (mut from, mut to) = (Watched::new(reader), Watched::new(writer));
    let (_, driven) = drive(rt, alloc, &shim, seat, &mut from, &mut to, notes);
    Ok(driven)
}

/// Answers the lines of a reader by a shim of its own. How they ended.
pub fn drives<R: Read, W: Write, H: Wait>(
    rt: &H,
    alloc: Global,
    reader: &mut R,
    writer: &mut W,
) -> Result<Driven, Refusal> {
    drives_noted(rt, alloc, reader, writer, &mut NoNotes)
}

/// The same, and tells notes of the lines.
pub fn drives_noted<R: Read, W: Write, H: Wait, N: Notes>(
    rt: &H,
    alloc: Global,
    reader: &mut R,
    writer: &mut W,
    notes: &mut N,
) -> Result<Driven, Refusal> {
    let (cells, desk) = (cells(alloc)?, desk(alloc)?);
    driven::<Brand, R, W, H, N>(rt, alloc, cells, desk, blank(), reader, writer, notes)
}
