//! The command `replay`: it runs a file of lines.

ghost use Rattle.std.specs.Prelude.{◌≡◌, ◌<◌, ◌∷◌, ◌++◌, [], false, IfOk, IfErr, OnOk, length, List, Some, codes, string_bytes};
ghost use Rattle.clap.specs.Matches.{found_of};
ghost use Rattle.clap.specs.Simple.{shape_of};
ghost use Rattle.clap.specs.Walk.{rows_of};
ghost use Rattle.clap.specs.declared.builder.command.Command.TheViews.{out-Command as fields_of};
ghost use Rattle.file_commands.specs.Command.{replay_shape, IsRead};
ghost use Rattle.file_commands.specs.Ran.{succeeded};
ghost use Rattle.file_commands.specs.declared.replay.Mark.{Mark};
ghost use Rattle.request_lines.specs.Lines.{lines_of};
ghost use Rattle.file_commands.specs.Replay.{IsReplay};
ghost use Rattle.file_commands.specs.Inside.Script.{AreMarked, Adds, replay_text};
ghost use Rattle.file_commands.specs.Inside.Chosen.{IsComplete};

use crate::arguments::{file_arg, file_of};
use crate::command::{Command, bare_command};
use crate::ran::Ran;
use clap::{ArgMatches, Command as Parser};
use request_lines::{LineError, bad_request_line, event_line, read_event_line};
use std::alloc::{AllocError, Global};
use task_board::{Event, EventReply, run_events};
use wasm_ast::Refusal;

pub(crate) const NAME: &str = "replay";

/// `replay FILE`
pub(crate) fn parser<'a>(alloc: Global) -> Result<Parser<'a>, AllocError>
    ensures shape { IfOk result (λ p. shape_of p ≡ replay_shape) }
    ensures local { IfOk result (λ p. (fields_of p).has_globals ≡ false) }
{
    let command = bare_command(
        alloc,
        NAME,
        "Answer the requests, takes and returns of a file",
        "Example: wasm-shim replay examples/slices.replay.jsonl",
    );
    command.arg(file_arg(
        alloc,
        "The file of requests, takes and returns, a line each",
    ))
}

/// The command with the arguments that were found.
pub(crate) fn read(alloc: Global, found: &ArgMatches<'_>) -> Result<Command, AllocError>
    requires { IsComplete (codes "replay") (rows_of (found_of found.now)) }
    ensures { IfOk result (IsRead (codes "replay") (rows_of (found_of found.now))) }
{
    let file = file_of(alloc, found)?;
    Ok(Command::Replay { file })
}

/// What a line of a script is.
#[derive(Clone, Copy, PartialEq, Eq, Debug)]
pub(crate) enum Mark {
    /// An event.
    Event,
    /// No event.
    Bad,
}

/// The lines of a script that are read: a mark for each, and the events among them.
#[derive(Drop)]
pub(crate) struct Script {
    marks: Vec<Mark>,
    events: Vec<Event>,
}

/// Splits off the first line; the second part is what follows its line feed.
fn split_line(bytes: &[u8]) -> (&[u8], &[u8])
    requires { 0 < length bytes.now }
    ensures lines { lines_of bytes.now ≡ result.0.now ∷ lines_of result.1.now }
    ensures shorter { length result.1.now < length bytes.now }
{
    match memchr::memchr(b'\n', bytes) {
        Some(end) => (&bytes[..end], &bytes[end + 1..]),
        None => (bytes, &bytes[bytes.len()..]),
    }
}

impl Script {
    /// Adds a line that is no event.
    fn add_bad(&mut self) -> Result<(), AllocError>
        ensures ok { OnOk result (self.new.marks.items ≡ self.old.marks.items ++ Mark.Bad ∷ []) }
        ensures events { self.new.events ≡ self.old.events }
    {
        self.marks.push(Mark::Bad)?;
        Ok(())
    }

    /// Adds a line that is an event.
    fn add_event(&mut self, event: Event) -> Result<(), AllocError>
        ensures ok { OnOk result ((self.new.marks.items ≡ self.old.marks.items ++ Mark.Event ∷ [])
            × (self.new.events.items ≡ self.old.events.items ++ event ∷ [])) }
    {
        self.events.push(event)?;
        self.marks.push(Mark::Event)?;
        Ok(())
    }

    /// Reads a line and adds it.
    fn read(&mut self, alloc: Global, line: &[u8]) -> Result<(), AllocError>
        ensures { OnOk result (Adds line.now self.old.marks.items self.old.events.items
            self.new.marks.items self.new.events.items) }
    {
        match read_event_line(alloc, line) {
            Ok(event) => self.add_event(event),
            Err(LineError::NoRequest) => self.add_bad(),
            Err(LineError::OutOfMemory) => Err(AllocError),
        }
    }
}

/// Reads each line of a script.
fn read_script(alloc: Global, bytes: &[u8]) -> Result<Script, AllocError>
    ensures { IfOk result (λ s. AreMarked (lines_of bytes.now) s.marks.items s.events.items) }
{
    let mut script = Script {
        marks: Vec::new(alloc),
        events: Vec::new(alloc),
    };
    let mut left = bytes;
    while !left.is_empty() {
        let (line, rest) = split_line(left);
        script.read(alloc, line)?;
        left = rest;
    }
    Ok(script)
}

/// Writes the answer to a line with this mark, and gives the replies that are left.
fn write_answer<'a>(
    alloc: Global,
    mark: Mark,
    replies: &'a [EventReply],
    out: &mut Vec<u8>,
) -> Result<&'a [EventReply], AllocError>
    ensures { IfOk result (λ left. (marks : List Mark) → out.new.items ++ replay_text marks left.now
        ≡ out.old.items ++ replay_text (mark ∷ marks) replies.now) }
{
    match mark {
        Mark::Bad => {
            out.extend_from_slice(bad_request_line().as_bytes())?;
            Ok(replies)
        }
        Mark::Event => {
            let Some((reply, left)) = replies.split_first() else {
                return Ok(replies);
            };
            let line = event_line(alloc, reply)?;
            out.extend_from_slice(line.as_bytes())?;
            Ok(left)
        }
    }
}

/// Writes the answers to lines with these marks.
fn write_answers(
    alloc: Global,
    marks: &[Mark],
    replies: &[EventReply],
) -> Result<Vec<u8>, AllocError>
    ensures { IfOk result (λ v. v.items ≡ replay_text marks.now replies.now) }
{
    let mut out = Vec::new(alloc);
    let mut left = replies;
    for mark in marks {
        left = write_answer(alloc, *mark, left, &mut out)?;
    }
    Ok(out)
}

/// What `replay` writes for a file with these bytes.
pub(crate) fn replayed(alloc: Global, bytes: &[u8]) -> Result<Ran, Refusal>
    ensures { IfOk result (λ ran. IsReplay bytes.now ran.out × (ran ≡ succeeded ran.out)) }
{
    let answers = replay_lines(alloc, bytes)?;
    Ok(Ran::answered(alloc, answers))
}

/// The answers to the lines of a script, a line each, in their order. Its lines are run as one list of
/// events on a board of their own. A request that allocates is answered `NoMemory` if memory runs out
/// for it; no other line is.
///
/// `NoMemory`, and no other refusal, if memory runs out for anything but such a request.
pub fn replay_lines(alloc: Global, bytes: &[u8]) -> Result<Vec<u8>, Refusal>
    ensures ok { IfOk result (λ v. IsReplay bytes.now v.items) }
    ensures errors { IfErr result (λ e. e ≡ Refusal.NoMemory) }
{
    let Script { marks, events } = read_script(alloc, bytes)?;
    let replies = run_events(alloc, events)?;
    Ok(write_answers(alloc, marks.as_slice(), replies.as_slice())?)
}
