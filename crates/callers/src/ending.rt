//! How the lines of callers ended, which status the program has then, and the replies that are kept until
//! all have ended.

ghost use Rattle.std.specs.Prelude.{◌≡◌, ◌≤◌, ◌↔◌, [], ◌∷◌};
ghost use Rattle.std.specs.Io.KnownBytes.{Appends};
ghost use Rattle.callers.specs.Ends.{AllEnded, all_replies};

use crate::answering::Answered;
use crate::caller::Driven;
use crate::notes::{Missing, Report};
use call_journal::Row;
use request_lines::{Sink, Source};

impl Driven {
    /// How these lines and others ended: the first fault of both, and the end if there is none.
    pub fn first_fault(self, others: Driven) -> Driven
        ensures { (result ≡ Driven.End) ↔ ((self ≡ Driven.End) × (others ≡ Driven.End)) }
    {
        match self {
            Driven::End => others,
            _ => self,
        }
    }

    /// The status of a program whose callers' lines ended so: 0 exactly if they came to their end, else 1.
    pub fn status(self) -> u8
        ensures well { (result ≡ 0) ↔ (self ≡ Driven.End) }
        ensures two { result ≤ 1 }
    {
        match self {
            Driven::End => 0,
            _ => 1,
        }
    }
}

// How the lines of a caller ended whose replies were kept in memory: if their writer failed there was no more
// of that.
fn kept_end(driven: Driven) -> Driven
    ensures { result ≡ Driven.End → driven ≡ Driven.End }
{
    match driven {
        Driven::WriteFault => Driven::NoMemory,
        _ => driven,
    }
}

// Writes the replies of a caller, and reports how its lines ended: as they did, or by a fault of this writer.
fn write_kept<J: Row, R: Source, W: Sink, N: Report<R, W>>(
    answered: &Answered<J, R, N>,
    writer: &mut W,
) -> Driven
    ensures ended { result ≡ Driven.End → answered.now.driven ≡ Driven.End }
    ensures written { result ≡ Driven.End
        → Appends (W.contents writer.old) (W.contents writer.new) answered.now.replies.items }
{
    let notes = &answered.caller.notes;
    notes.lines_ended();
    let how = match writer.put(answered.replies.as_slice()) {
        Ok(()) => kept_end(answered.driven),
        Err(_) => Driven::WriteFault,
    };
    notes.report(how, &answered.caller.reader, writer);
    how
}

// The same of a caller that may be missing: none of its lines was read.
fn write_answer<J: Row, R: Source + Drop, W: Sink, N: Report<R, W> + Drop, M: Missing>(
    answered: Option<Answered<J, R, N>>,
    writer: &mut W,
    missing: &M,
    number: usize,
) -> Driven
    ensures ended { result ≡ Driven.End → AllEnded (λ a. a.driven) (answered ∷ []) }
    ensures written { result ≡ Driven.End → Appends (W.contents writer.old) (W.contents writer.new)
        (all_replies (λ a. a.replies.items) (answered ∷ [])) }
{
    match answered {
        Some(answered) => write_kept(&answered, writer),
        None => {
            missing.report(number);
            Driven::ReadFault
        }
    }
}

/// Writes the replies of callers that have ended, in the order of the callers, and reports of each how its
/// lines ended; of one that was not answered, that it is missing. The first fault of all: there is
/// none only if each has come to its end and all replies are written.
pub fn write_answers<J: Row, R: Source + Drop, W: Sink, N: Report<R, W> + Drop, M: Missing>(
    all: Vec<Option<Answered<J, R, N>>>,
    writer: &mut W,
    missing: &M,
) -> Driven
    ensures ended { result ≡ Driven.End → AllEnded (λ a. a.driven) all.items }
    ensures written { result ≡ Driven.End → Appends (W.contents writer.old) (W.contents writer.new)
        (all_replies (λ a. a.replies.items) all.items) }
{
    let mut how = Driven::End;
    let mut number: usize = 0;
    for answered in all {
        let one = write_answer(answered, writer, missing, number);
        how = how.first_fault(one);
        number = number.wrapping_add(1);
    }
    how
}
