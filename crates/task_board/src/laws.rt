//! Laws of the abstract board. Each function is nothing but its contract.

ghost use Rattle.std.specs.Prelude.{◌≡◌, ◌↔◌, ◌⊎◌, ℕ, ◌+◌, ◌^◌, ◌<◌, ◌≤◌, List, length, Option, Some, None, is_some, true, false, Ok, Err};
ghost use Rattle.wasm_ast.specs.declared.module.Module.{Module};
ghost use Rattle.wasm_ast.specs.declared.place.Place.{Place};
ghost use Rattle.oci_config.specs.declared.process.ProcessConfig.{ProcessConfig};
ghost use Rattle.step_machine.specs.declared.ends.End.{End as EndValue};
ghost use Rattle.step_machine.specs.Instantiation.{ended};
ghost use Rattle.step_machine.specs.Limits.{max_breakpoints};
ghost use Rattle.step_machine.specs.Slices.{ends_slice};
ghost use Rattle.validator.specs.Typing.{ValidModule};
ghost use Rattle.wasm_ast.specs.declared.refusal.Refusal.{Refusal as Reason};
ghost use Rattle.task_requests.specs.declared.event.Event.{Event};
ghost use Rattle.task_requests.specs.declared.event.Event.TheVariants as event;
ghost use Rattle.task_requests.specs.declared.event.EventReply.{EventReply};
ghost use Rattle.task_requests.specs.declared.event.EventReply.TheVariants as answer;
ghost use Rattle.task_requests.specs.declared.request.Request.{Request as RequestValue};
ghost use Rattle.task_requests.specs.declared.request.Request.TheVariants as request;
ghost use Rattle.task_requests.specs.declared.request.Ask.{Ask as AskValue};
ghost use Rattle.task_requests.specs.declared.request.Ask.TheVariants as ask;
ghost use Rattle.task_requests.specs.declared.request.Reply.{Reply as ReplyValue};
ghost use Rattle.content_leases.specs.StoreState.{content_in, is_leased, is_held};
ghost use Rattle.task_board.specs.BoardState.{Task, Entries, BoardState, empty, used_by, task_in, task_of};
ghost use Rattle.task_board.specs.Claims.{asked_of, told_on, SaysTruly};
ghost use Rattle.task_board.specs.Choices.{IsDetermined, AgreeOnCreate, AgreeOnText};
ghost use Rattle.task_lifecycle.specs.declared.status.Signal.{Signal as SignalValue};
ghost use Rattle.task_lifecycle.specs.declared.status.ExitRecord.{ExitRecord as RecordValue};
ghost use Rattle.task_lifecycle.specs.Lifecycle.{after, takes_turns, is_going};
ghost use Rattle.task_board.specs.Limits.{max_tasks, max_creates, max_step};
ghost use Rattle.task_requests.specs.Limits.{max_budget};
ghost use Rattle.task_board.specs.Moves.{MakeTurns, Becomes, IsStepOf};
ghost use Rattle.wasm_binary.specs.Spelled.{IsSpelled};
ghost use Rattle.task_board.specs.Refusals.{CannotOpen};
ghost use Rattle.task_requests.specs.Memory.{takes_memory, asks_for_memory};
ghost use Rattle.task_board.specs.Run.{met_no_memory, Happens, Run};
ghost use Rattle.task_board.specs.Sound.{AreDistinct, AreRising, slots_of, IsSound, IsBoard};
ghost use Rattle.task_board.specs.Step.{Answer, Answers, Step};
ghost use Rattle.task_board.specs.Loans.{Lent, Fits};
ghost use Rattle.task_board.specs.Tickets.{Lends};
ghost use Rattle.task_board.specs.declared.ticket.Ticket.{Ticket as TicketValue};
ghost use Rattle.text_assembler.specs.Modules.{Denotes, IsTooDeep, IsBadText};
ghost use Rattle.wasm_binary.specs.Canonical.{canon, FitsLimits};
ghost use Rattle.task_board.specs.Texts.{DenotesNone};
ghost use Rattle.task_board.specs.Tasks.{execution_at, exit_of, EndsSo, is_break_at, situation_at, started, paused, resumed, killed, can_lend, slice_turns, MayAdvance, HasReturned, stepped};

use step_machine::laws::{slices_commute, slices_go_forward, slices_stop_first};
use task_lifecycle::{ExitRecord, Status, TaskCall};
use text_assembler::laws::{denotes_one, too_deep_denotes_none_within};
use validator::laws::invalid_modules_are_not_valid;
use wasm_ast::Refusal;
use wasm_binary::laws::spells_one;

/// Every board that events lead to is sound, and an event leaves a sound board sound.
pub fn boards_are_sound()
    ensures reached { (es : List Event) (rs : List EventReply) (s : BoardState)
        → Run empty es rs s → IsBoard s }
    ensures kept { (s : BoardState) (e : Event) (r : EventReply) (s' : BoardState)
        → IsBoard s → Happens s e r s' → IsBoard s' }
{}

/// A task is removed only if it is stopped. What else an event makes of a task is that it stays
/// as it is, that it is started, paused, resumed or killed, makes a step, or gets or loses a breakpoint,
/// each only if its status allows it, that its slice is taken, which only that of a running idle one is,
/// or that its slice returns.
pub fn tasks_move()
    ensures { (s : BoardState) (e : Event) (r : EventReply) (s' : BoardState)
        → AreRising (slots_of s.tasks)
        → Happens s e r s' → (k : ℕ) (t : Task) → task_in k s.tasks ≡ Some t
        → Becomes t (task_in k s'.tasks) }
{}

/// Start, pause, resume, kill and step change the status of a task as the lifecycle's table says.
pub fn calls_follow_the_table()
    ensures start { (t : Task)
        → (started t).status ≡ after TaskCall.Start (situation_at t t.turns) t.status }
    ensures pause { (t : Task)
        → (paused t).status ≡ after TaskCall.Pause (situation_at t t.turns) t.status }
    ensures resume { (t : Task)
        → (resumed t).status ≡ after TaskCall.Resume (situation_at t t.turns) t.status }
    ensures kill { (t : Task) (signal : SignalValue)
        → (killed signal t).status ≡ after TaskCall.Kill (situation_at t t.turns) t.status }
    ensures step { (t : Task) (count : ℕ) → (stepped t count).status
        ≡ after TaskCall.Step (situation_at t (t.turns + slice_turns t count)) t.status }
{}

/// A step of a task that has not ended makes as many turns as it counts, or fewer only if the task has
/// ended or is at a breakpoint then. None of the turns before the last one leads to either.
pub fn steps_stop_first()
    ensures no_more { (t : Task) (count : ℕ) → (stepped t count).turns ≤ t.turns + count }
    ensures fewer { (t : Task) (count : ℕ) → ended (execution_at t t.turns) ≡ None
        → (stepped t count).turns < t.turns + count
        → ends_slice t.breaks (execution_at t (stepped t count).turns) ≡ true }
    ensures not_before { (t : Task) (count n : ℕ) → t.turns < n → n < (stepped t count).turns
        → ends_slice t.breaks (execution_at t n) ≡ false }
{
    slices_go_forward();
    slices_stop_first();
}

/// A step of j turns and then one of k are one of j + k, if the first neither ended the task nor came to a
/// breakpoint.
pub fn steps_add_up()
    ensures { (t : Task) (j k : ℕ) → ended (execution_at t (stepped t j).turns) ≡ None
        → is_break_at t (stepped t j).turns ≡ false
        → stepped (stepped t j) k ≡ stepped t (j + k) }
{
    slices_commute();
}

/// On every board that events lead to, a task has at most 32 breakpoints, and none twice.
pub fn breakpoints_are_few()
    ensures few { (es : List Event) (rs : List EventReply) (s : BoardState) → Run empty es rs s
        → (k : ℕ) (t : Task) → task_in k s.tasks ≡ Some t → length t.breaks ≤ max_breakpoints }
    ensures distinct { (es : List Event) (rs : List EventReply) (s : BoardState) → Run empty es rs s
        → (k : ℕ) (t : Task) → task_in k s.tasks ≡ Some t → AreDistinct t.breaks }
{}

/// A task whose slice returns is stopped by its own end if that has come, whatever signal is pending; else
/// by the signal that is pending, if one is.
pub fn pending_signals_end_tasks()
    ensures own { (t t' : Task) (e : EndValue) → HasReturned t t'
        → ended (execution_at t' t'.turns) ≡ Some e
        → (t'.status ≡ Status.Stopped) × (t'.end ≡ Some (exit_of e)) }
    ensures signal { (t t' : Task) (signal : SignalValue) → HasReturned t t'
        → t.signal ≡ Some signal → ended (execution_at t' t'.turns) ≡ None
        → (t'.status ≡ Status.Stopped) × (t'.end ≡ Some (ExitRecord.Kill signal)) }
{}

/// A task whose slice returns, which has not ended and has no signal pending, is paused if a pause came
/// meanwhile or its next instruction is at a breakpoint; else it is running.
pub fn returned_tasks_pause()
    ensures pausing { (t t' : Task) → HasReturned t t' → ended (execution_at t' t'.turns) ≡ None
        → t.signal ≡ None → t.status ≡ Status.Pausing → t'.status ≡ Status.Paused }
    ensures at_break { (t t' : Task) → HasReturned t t' → ended (execution_at t' t'.turns) ≡ None
        → t.signal ≡ None → is_break_at t' t'.turns ≡ true → t'.status ≡ Status.Paused }
    ensures running { (t t' : Task) → HasReturned t t' → ended (execution_at t' t'.turns) ≡ None
        → t.signal ≡ None → t.status ≡ Status.Running → is_break_at t' t'.turns ≡ false
        → t'.status ≡ Status.Running }
{}

/// On every board that events lead to, the record of a stopped task is true of its execution after its
/// turns: that has ended so; or a signal ended the task, and no turn has ended its execution. A task that
/// is running, pausing or paused is ended by a signal only where its execution has not ended.
pub fn exit_records_are_true()
    ensures record { (es : List Event) (rs : List EventReply) (s : BoardState) → Run empty es rs s
        → (k : ℕ) (t : Task) → task_in k s.tasks ≡ Some t
        → (e : RecordValue) → t.end ≡ Some e → EndsSo t e }
    ensures signal { (es : List Event) (rs : List EventReply) (s : BoardState) → Run empty es rs s
        → (e : Event) (r : EventReply) (s' : BoardState) → Happens s e r s'
        → (k : ℕ) (t : Task) → task_in k s.tasks ≡ Some t → is_going t.status ≡ true
        → (t' : Task) → task_in k s'.tasks ≡ Some t'
        → (signal : SignalValue) → t'.end ≡ Some (ExitRecord.Kill signal)
        → ended (execution_at t' t'.turns) ≡ None }
{}

/// What a reply says of a task is true of the reduction of the module that the task's stored bytes encode,
/// after as many turns as the task has made: its turns, its status, its end, its output, its frames and
/// bytes of its memory (`reply`). Which module that is, and under which process, is settled by its create
/// and never changes (`same`). A task that is created, paused or stopped takes no turn but by a step
/// (`idle`).
pub fn replies_are_true()
    ensures reply { (es : List Event) (rs : List EventReply) (s : BoardState) → Run empty es rs s
        → (q : RequestValue) (a : ReplyValue) (s' : BoardState)
        → Happens s (event.Call q) (answer.Called (Ok a)) s'
        → (id : List ℕ) → asked_of q ≡ Some id
        → (t : Task) × (task_of id (told_on q s s').tasks ≡ Some t)
        × SaysTruly (told_on q s s').store t q a }
    ensures same { (es : List Event) (rs : List EventReply) (s : BoardState) → Run empty es rs s
        → (e : Event) (r : EventReply) (s' : BoardState) → Happens s e r s'
        → (k : ℕ) (t : Task) → task_in k s.tasks ≡ Some t
        → (t' : Task) → task_in k s'.tasks ≡ Some t'
        → (t'.id ≡ t.id) × (t'.module ≡ t.module) × (t'.process ≡ t.process)
        × (t'.bytes ≡ t.bytes) }
    ensures idle { (es : List Event) (rs : List EventReply) (s : BoardState) → Run empty es rs s
        → (e : Event) (r : EventReply) (s' : BoardState) → Happens s e r s'
        → (k : ℕ) (t : Task) → task_in k s.tasks ≡ Some t → takes_turns t.status ≡ false
        → (IsStepOf e t → ⊥)
        → (t' : Task) → task_in k s'.tasks ≡ Some t' → t'.turns ≡ t.turns }
{}

/// A second kill while the slice is out does not replace the signal of the first.
pub fn the_first_signal_is_kept()
    ensures { (t : Task) (first second : SignalValue) (budget : ℕ) → t.out ≡ Some budget
        → t.signal ≡ Some first → killed second t ≡ t }
{}

/// On every board that events lead to, a task that is created, paused or stopped takes no turn, unless the
/// event is a step of it.
pub fn idle_tasks_take_no_turn()
    ensures { (es : List Event) (rs : List EventReply) (s : BoardState) → Run empty es rs s
        → (e : Event) (r : EventReply) (s' : BoardState) → Happens s e r s'
        → (k : ℕ) (t : Task) → task_in k s.tasks ≡ Some t → takes_turns t.status ≡ false
        → (IsStepOf e t → ⊥)
        → (t' : Task) → task_in k s'.tasks ≡ Some t' → t'.turns ≡ t.turns }
{}

/// The slice of a sound task advances it legally.
pub fn slices_advance_legally()
    ensures { (creates : ℕ) (t : Task) (budget : ℕ) → IsSound creates t → t.out ≡ Some budget
        → MayAdvance t (slice_turns t budget) }
{
    slices_go_forward();
    slices_stop_first();
}

/// How far a sound task that is running and idle may advance: by k turns exactly if slices make k turns in
/// all, of which each but the last returns the task running.
pub fn advances_are_slices()
    ensures slices { (creates : ℕ) (t : Task) (k : ℕ) → IsSound creates t → can_lend t ≡ true
        → MayAdvance t k → (budgets : List ℕ) × MakeTurns t budgets k }
    ensures advance { (creates : ℕ) (t : Task) (k : ℕ) → IsSound creates t → can_lend t ≡ true
        → (budgets : List ℕ) → MakeTurns t budgets k → MayAdvance t k }
{
    slices_go_forward();
    slices_stop_first();
}

/// A held content is never removed: no event takes the bytes of a digest that a lease or a task names. So on
/// every board that events lead to, what a lease names is stored, and of each task the bytes that it was
/// created from.
pub fn held_contents_stay()
    ensures event { (s : BoardState) (e : Event) (r : EventReply) (s' : BoardState)
        → Happens s e r s' → (digest bytes : List ℕ)
        → is_held (used_by s.tasks) s.store.leases digest ≡ true
        → content_in s.store.contents digest ≡ Some bytes
        → content_in s'.store.contents digest ≡ Some bytes }
    ensures leased { (es : List Event) (rs : List EventReply) (s : BoardState)
        → Run empty es rs s → (digest : List ℕ) → is_leased s.store.leases digest ≡ true
        → is_some (content_in s.store.contents digest) ≡ true }
    ensures tasks { (es : List Event) (rs : List EventReply) (s : BoardState)
        → Run empty es rs s → (k : ℕ) (t : Task) → task_in k s.tasks ≡ Some t
        → content_in s.store.contents t.process.module ≡ Some t.bytes }
{}

/// A loan fits from its take to its return, whatever happens in between, and no longer: a loan that is taken
/// fits, it goes on to fit after each event but the return of its task's slice, whether its slice has been
/// run or not, and after that it does not fit. Two loans that fit and are of one task are of one slot.
pub fn loans_fit_until_they_return()
    ensures taken { (s : BoardState) (ticket : TicketValue) (budget : ℕ) (l : Lent)
        (s' : BoardState)
        → IsBoard s → Lends s ticket budget l s' → Fits l s'.tasks }
    ensures stay { (s : BoardState) (e : Event) (r : EventReply) (s' : BoardState) (l : Lent)
        → IsBoard s → Step s e r s' → (e ≡ event.Return l.id → ⊥) → Fits l s.tasks
        → Fits l s'.tasks }
    ensures run { (ts : Entries) (l : Lent) → Fits l ts → Fits (record l { ran = true }) ts }
    ensures returned { (s s' : BoardState) (l : Lent) → IsBoard s → Fits l s.tasks
        → Step s (event.Return l.id) (answer.Returned true) s' → Fits l s'.tasks → ⊥ }
    ensures one { (s : BoardState) (l m : Lent) → IsBoard s → Fits l s.tasks → Fits m s.tasks
        → l.id ≡ m.id → l.slot ≡ m.slot }
{}

/// The answer to an event, and the board that it leaves, are determined by the board and the event, unless
/// it is a create or a put of a text, or runs out of memory.
pub fn events_are_determined()
    ensures { (s : BoardState) (e : Event)
        (r : EventReply) (s1 : BoardState) (r' : EventReply) (s2 : BoardState)
        → IsDetermined e → met_no_memory e r ≡ false → met_no_memory e r' ≡ false
        → Happens s e r s1 → Happens s e r' s2 → (r ≡ r') × (s1 ≡ s2) }
{}

/// Whether a create is accepted is determined, and so are its task and its refusal, but for the
/// choices that are open: the slot of the task, whether bytes that encode no module and pass a limit are
/// refused as `BadModule` or as `Limit`, and which fault of a module that is not valid is named.
pub fn creates_are_determined()
    ensures { (s : BoardState) (config id : List ℕ)
        (r : Answer) (s1 : BoardState) (r' : Answer) (s2 : BoardState)
        → Answers s (request.Create config id) r s1 → Answers s (request.Create config id) r' s2
        → AgreeOnCreate s r s1 r' s2 }
{
    spells_one();
    invalid_modules_are_not_valid();
}

/// A text that denotes a module within the limits is answered as a put of the canonical encoding of
/// that module.
pub fn texts_are_put()
    ensures { (s : BoardState) (text : List ℕ) (m : Module) (r : Answer) (s' : BoardState)
        → Denotes text m → FitsLimits m
        → Answers s (request.PutText text) r s' → Answers s (request.Put (canon m)) r s' }
{
    denotes_one();
    too_deep_denotes_none_within();
}

/// A text that denotes no module within the limits leaves the board. It is refused as `Limit` if it denotes a
/// module, and as `BadText` if it denotes none and no more than 256 blocks are open in it.
pub fn bad_texts_are_refused()
    ensures stays { (s : BoardState) (text : List ℕ) (r : Answer) (s' : BoardState)
        → ((m : Module) → Denotes text m → FitsLimits m → ⊥)
        → Answers s (request.PutText text) r s' → s' ≡ s }
    ensures limit { (s : BoardState) (text : List ℕ) (m : Module) (r : Answer) (s' : BoardState)
        → Denotes text m → (FitsLimits m → ⊥)
        → Answers s (request.PutText text) r s' → r ≡ Err Refusal.Limit }
    ensures bad { (s : BoardState) (text : List ℕ) (r : Answer) (s' : BoardState)
        → DenotesNone text → (IsTooDeep text → ⊥)
        → Answers s (request.PutText text) r s' → (e : Reason) × (r ≡ Err e) × IsBadText e }
{
    denotes_one();
}

/// The answer to a put of a text is determined but for the choices that are open: the line and the
/// column of a fault, and whether a text that denotes no module, with more than 256 blocks open, is
/// refused as `BadText` or as `Limit`. The board that it leaves is determined.
pub fn texts_are_determined()
    ensures { (s : BoardState) (text : List ℕ)
        (r : Answer) (s1 : BoardState) (r' : Answer) (s2 : BoardState)
        → Answers s (request.PutText text) r s1 → Answers s (request.PutText text) r' s2
        → AgreeOnText text r r' × (s1 ≡ s2) }
{
    denotes_one();
    too_deep_denotes_none_within();
}

/// Only put, put_text, lease_create, lease_add, gc, create, output, break, unbreak, inspect and peek
/// allocate: no other request, no take and no return may be left out for lack of memory.
pub fn few_requests_allocate()
    ensures requests { (r : RequestValue) → (takes_memory r ≡ true)
        ↔ (((bytes : List ℕ) × (r ≡ request.Put bytes))
        ⊎ ((text : List ℕ) × (r ≡ request.PutText text))
        ⊎ ((id : List ℕ) × (r ≡ request.LeaseCreate id))
        ⊎ ((digest : List ℕ) × (id : List ℕ) × (r ≡ request.LeaseAdd digest id))
        ⊎ (r ≡ request.Gc)
        ⊎ ((config : List ℕ) × (id : List ℕ) × (r ≡ request.Create config id))
        ⊎ ((id : List ℕ) × (a : AskValue) × (r ≡ request.Task id a)
        × (asks_for_memory a ≡ true))) }
    ensures asked { (a : AskValue) → (asks_for_memory a ≡ true)
        ↔ (((stream : ℕ) × (a ≡ ask.Output stream))
        ⊎ ((func : ℕ) × (place : ℕ) × (a ≡ ask.Break func place))
        ⊎ ((func : ℕ) × (place : ℕ) × (a ≡ ask.Unbreak func place))
        ⊎ (a ≡ ask.Inspect)
        ⊎ ((address : ℕ) × (length : ℕ) × (a ≡ ask.Peek address length))) }
    ensures call { (r : RequestValue) (reply : EventReply)
        → met_no_memory (event.Call r) reply ≡ true → takes_memory r ≡ true }
    ensures take { (id : List ℕ) (n : ℕ) (r : EventReply)
        → met_no_memory (event.Take id n) r ≡ false }
    ensures give_back { (id : List ℕ) (r : EventReply) → met_no_memory (event.Return id) r ≡ false }
{}

/// A valid module is never refused as invalid, at whatever place.
pub fn valid_modules_are_not_invalid()
    ensures { (bytes : List ℕ) (p : ProcessConfig) (m : Module) (at : Option Place)
        → IsSpelled bytes m → ValidModule m
        → CannotOpen bytes p (Refusal.Invalid at) → ⊥ }
{
    spells_one();
    invalid_modules_are_not_valid();
}

/// The limits of a board: tasks, creates, turns of a slice, breakpoints of a task, and turns of a step.
pub fn limits_are_these()
    ensures tasks { max_tasks ≡ 64 }
    ensures creates { max_creates ≡ 2 ^ 60 }
    ensures breaks { max_breakpoints ≡ 32 }
    ensures steps { max_step ≡ 1000 }
{}
