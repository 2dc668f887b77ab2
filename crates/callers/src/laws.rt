//! What is proved of the answers to lines. Each function does nothing, and its contract is the law.

ghost use Rattle.std.specs.Prelude.{◌≡◌, ◌≢◌, ◌<◌, ◌⊎◌, ◌++◌, [], ◌∷◌, ⊤, List, ℕ, length, Option, Some, Err, true, false};
ghost use Rattle.std.specs.List.{concat};
ghost use Rattle.wasm_ast.specs.declared.refusal.Refusal.TheVariants as refusal;
ghost use Rattle.task_requests.specs.declared.request.Request.{Request};
ghost use Rattle.task_requests.specs.declared.request.Request.TheVariants as request;
ghost use Rattle.task_requests.specs.declared.request.Ask.TheVariants as ask;
ghost use Rattle.task_board.specs.Step.{Answer};
ghost use Rattle.request_lines.specs.Request.{IsRequest};
ghost use Rattle.request_lines.specs.Input.{HasNoFeed};
ghost use Rattle.request_lines.specs.Lines.{lines_of};
ghost use Rattle.request_lines.specs.Session.{Session};
ghost use Rattle.request_lines.specs.Shape.{max_line_bytes};
ghost use Rattle.call_journal.specs.Books.{is_journalled};
ghost use Rattle.call_journal.specs.Fronts.{Begins};
ghost use Rattle.call_journal.specs.Seats.{Known, Extends};
ghost use Rattle.callers.specs.Answered.{IsAnswered, IsServed};
ghost use Rattle.callers.specs.Driving.{Drives, IsTold, fed};
ghost use Rattle.callers.specs.declared.caller.Driven.TheVariants as driven;

use request_lines::laws::{one_event_to_a_line, requests_are_events};

/// A line that is too long is refused as no request, and the seat has seen what it had seen.
pub fn long_lines_are_no_requests()
    ensures { (was : Known) (line : List ℕ) (a : Answer) (now : Known)
        → max_line_bytes < length line → IsAnswered was line a now
        → (a ≡ Err refusal.BadRequest) × (now ≡ was) }
{}

/// A line that is a request is one call of the seat: its history goes on by that, if the answer is
/// journalled, and else is what it was.
pub fn lines_are_calls()
    ensures journalled { (was : Known) (line : List ℕ) (a : Answer) (now : Known) (r : Request)
        → IsAnswered was line a now → IsRequest line r → is_journalled a ≡ true
        → Extends was now r a }
    ensures same { (was : Known) (line : List ℕ) (a : Answer) (now : Known) (r : Request)
        → IsAnswered was line a now → IsRequest line r → is_journalled a ≡ false → now ≡ was }
{
    one_event_to_a_line();
    requests_are_events();
}

/// A line that is a wait is answered once its task is created, paused or stopped, or for another reason: it
/// is never answered that its task is busy.
pub fn waits_are_never_busy()
    ensures { (was : Known) (line : List ℕ) (a : Answer) (now : Known) (id : List ℕ)
        → IsAnswered was line a now → IsRequest line (request.Task id ask.Wait)
        → a ≢ Err refusal.Busy }
{
    one_event_to_a_line();
    requests_are_events();
}

/// A line and the lines after it are answered one after another, each by one text: the second from
/// what the seat has seen after the first.
pub fn lines_are_answered_in_their_order()
    ensures none { (was : Known) (texts : List (List ℕ)) (now : Known)
        → Session IsServed was [] texts now → (texts ≡ []) × (now ≡ was) }
    ensures some { (was : Known) (line : List ℕ) (lines texts : List (List ℕ)) (now : Known)
        → Session IsServed was (line ∷ lines) texts now
        → (text : List ℕ) × (rest : List (List ℕ)) × (mid : Known) × (texts ≡ text ∷ rest)
        × IsServed was line text mid × Session IsServed mid lines rest now }
{}

/// At the end of the input all its lines have been answered, and all texts are written.
pub fn all_lines_are_answered_at_the_end()
    ensures { (was now : Known) (input before after : List ℕ) (left : Option (List ℕ))
        → (d : Drives driven.End was now (Some input) left (Some before) (Some after))
        → (d.lines ≡ lines_of input) × (after ≡ before ++ concat d.texts) }
{}

/// Where the reader fails first lines have been answered, and all texts are written. They are all that the
/// reader has given with their line feeds: what it has given of another line has none.
pub fn first_lines_are_answered_where_the_reader_fails()
    ensures first { (was now : Known) (input before after : List ℕ) (left : Option (List ℕ))
        → (d : Drives driven.ReadFault was now (Some input) left (Some before) (Some after))
        → Begins d.lines (lines_of input) × (after ≡ before ++ concat d.texts) }
    ensures whole { (was now : Known) (input left before after : List ℕ)
        → (d : Drives driven.ReadFault was now (Some input) (Some left) (Some before) (Some after))
        → (part : List ℕ) × HasNoFeed part × (input ≡ (fed d.lines ++ part) ++ left) }
{}

/// Where the writer fails first lines have been answered, and a beginning of the texts is written.
pub fn first_lines_are_answered_where_the_writer_fails()
    ensures { (was now : Known) (input before after : List ℕ) (left : Option (List ℕ))
        → (d : Drives driven.WriteFault was now (Some input) left (Some before) (Some after))
        → (front : List ℕ) × Begins d.lines (lines_of input) × Begins front (concat d.texts)
        × (after ≡ before ++ front) }
{}

/// Where memory runs out first lines have been answered, and all texts are written, or all but the last.
pub fn first_lines_are_answered_where_memory_runs_out()
    ensures lines { (was now : Known) (input before after : List ℕ) (left : Option (List ℕ))
        → (d : Drives driven.NoMemory was now (Some input) left (Some before) (Some after))
        → Begins d.lines (lines_of input) }
    ensures texts { (was now : Known) (input before after : List ℕ) (left : Option (List ℕ))
        → (d : Drives driven.NoMemory was now (Some input) left (Some before) (Some after))
        → (after ≡ before ++ concat d.texts)
        ⊎ ((all : List (List ℕ)) × (last : List ℕ) × (d.texts ≡ all ++ last ∷ [])
        × (after ≡ before ++ concat all)) }
{}

/// A fault is told of no stream that is well.
pub fn faults_are_told_of_streams_that_failed()
    ensures read { IsTold driven.ReadFault ⊥ ⊤ → ⊥ }
    ensures write { IsTold driven.WriteFault ⊤ ⊥ → ⊥ }
{}
