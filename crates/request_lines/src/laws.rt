//! Laws of lines. Each function is nothing but its contract.

ghost use Rattle.std.specs.Prelude.{◌≡◌, ◌↔◌, List, ℕ};
ghost use Rattle.task_requests.specs.declared.event.Event.{Event};
ghost use Rattle.task_requests.specs.declared.event.Event.TheVariants.{Call};
ghost use Rattle.task_requests.specs.declared.request.Request.{Request};
ghost use Rattle.request_lines.specs.Examples.{PutExample, TextExample, FaultExample, LeaseExample, TwiceExample, TakeExample, RemovedExample, StoppedExample, OutputExample, WrittenExample, BreakExample, StepExample, PeekExample, ShownExample, InspectExample, FramesExample};
ghost use Rattle.request_lines.specs.Request.{event_op, IsRequest, IsEvent};
ghost use Rattle.request_lines.specs.declared.table.Op.{Op};
ghost use Rattle.request_lines.specs.declared.values.Values.{Values};
ghost use Rattle.request_lines.specs.Table.{event_with, op_word};

/// A line is at most one event.
pub fn one_event_to_a_line()
    ensures { (line : List ℕ) (a b : Event) → IsEvent line a → IsEvent line b → a ≡ b }
{}

/// A line is the event of a request exactly where it is that request.
pub fn requests_are_events()
    ensures { (line : List ℕ) (r : Request) → IsRequest line r ↔ IsEvent line (Call r) }
{}

/// The word of an op is that of all its events, and no other op has it.
pub fn ops_have_their_words()
    ensures own { (op : Op) (bytes : List ℕ) (values : Values) →
        event_op (event_with op bytes values) ≡ op_word op }
    ensures differ { (a b : Op) → op_word a ≡ op_word b → a ≡ b }
{}

/// Lines that are read so, and some that are written so.
pub fn examples()
    ensures put { PutExample }
    ensures text { TextExample }
    ensures fault { FaultExample }
    ensures lease { LeaseExample }
    ensures twice { TwiceExample }
    ensures take { TakeExample }
    ensures output { OutputExample }
    ensures removed { RemovedExample }
    ensures written { WrittenExample }
    ensures stopped { StoppedExample }
    ensures break_line { BreakExample }
    ensures step { StepExample }
    ensures peek { PeekExample }
    ensures shown { ShownExample }
    ensures inspect { InspectExample }
    ensures frames { FramesExample }
{}
