//! Laws of histories. Each function is nothing but its contract.

ghost use Rattle.std.specs.Prelude.{◌≡◌, ◌⊎◌, ◌<◌, ◌+◌, ◌++◌, ℕ, List, [], ◌∷◌, Option, Some, option_map, true, false};
ghost use Rattle.task_requests.specs.declared.request.Request.{Request};
ghost use Rattle.task_requests.specs.declared.event.Event.{Event};
ghost use Rattle.task_requests.specs.declared.event.EventReply.{EventReply};
ghost use Rattle.task_board.specs.BoardState.{Task, BoardState, empty, task_of};
ghost use Rattle.task_board.specs.Run.{Run};
ghost use Rattle.task_board.specs.Step.{Answer, Answers, Step, is_budget};
ghost use Rattle.task_board.specs.Tasks.{can_lend, lent, HasReturned};
ghost use Rattle.call_journal.specs.declared.entry.Entry.{Entry as EntryValue};
ghost use Rattle.call_journal.specs.declared.entry.Found.{Found as FoundValue};
ghost use Rattle.task_board.specs.Waiting.{waiting_after};
ghost use Rattle.call_journal.specs.Books.{BookValue, HasCalled, is_due, is_full, is_journalled, settles};
ghost use Rattle.task_board.specs.Claims.{asked_of};
ghost use Rattle.call_journal.specs.Finding.{found_in};
ghost use Rattle.call_journal.specs.Fronts.{Begins};
ghost use Rattle.call_journal.specs.Records.{entry_on, IsOfSlice, Records};
ghost use Rattle.call_journal.specs.Replay.{ComesTo, Finds, Replays, IsLegal, MayAnswer, IsSince, IsReplay, IsAlike};
ghost use Rattle.call_journal.specs.Seats.{Known, Extends, own_calls};

use task_board::laws::{advances_are_slices, slices_advance_legally, texts_are_determined};
use validator::laws::invalid_modules_are_not_valid;
use wasm_binary::laws::spells_one;

/// The empty history is legal, and so is each beginning of a legal history.
pub fn histories_have_legal_beginnings()
    ensures empty { IsLegal [] }
    ensures front { (front back : List EntryValue) → IsLegal (front ++ back) → IsLegal front }
{}

/// A history goes on by a call, which finds what its entry says and then is answered. A longer history is
/// legal exactly if its last call may be answered, in some way, after those before it.
pub fn histories_go_on()
    ensures more { (s last mid next : BoardState) (h : List EntryValue)
        (e : EntryValue) (a : Answer)
        → Replays s h last → Finds last e.request e.found mid → Answers mid e.request a next
        → Replays s (h ++ e ∷ []) next }
    ensures cut { (s s' : BoardState) (front back : List EntryValue) → Replays s (front ++ back) s'
        → (mid : BoardState) × Replays s front mid × Replays mid back s' }
    ensures join { (s mid s' : BoardState) (front back : List EntryValue) → Replays s front mid
        → Replays mid back s' → Replays s (front ++ back) s' }
    ensures legal { (h : List EntryValue) (e : EntryValue) (a : Answer) → MayAnswer h e a
        → IsLegal (h ++ e ∷ []) }
    ensures last { (h : List EntryValue) (e : EntryValue) → IsLegal (h ++ e ∷ [])
        → (a : Answer) × MayAnswer h e a }
{}

/// What a call found tells how far its task has come: the boards on which two calls of one request found the
/// same are the same, if they were the same before.
pub fn entries_fix_the_count()
    ensures { (s : BoardState) (r : Request) (found : Option FoundValue) (mid mid' : BoardState)
        → Finds s r found mid → Finds s r found mid' → mid ≡ mid' }
{}

/// Whatever a board may answer is journalled: a full or closed journal, one at fault, and memory
/// that runs out are no answers of a board.
pub fn answers_are_journalled()
    ensures { (s : BoardState) (r : Request) (a : Answer) (s' : BoardState) → Answers s r a s'
        → is_journalled a ≡ true }
{}

/// A seat whose call was journalled has seen all that it had seen, then calls of other seats, and
/// last its own: it has one call of its own more, and that was answered as it may be after the
/// entries before it.
pub fn calls_extend_histories()
    ensures front { (was now : Known) (r : Request) (a : Answer) → Extends was now r a
        → Begins was.history now.history }
    ensures own { (was now : Known) (r : Request) (a : Answer) → Extends was now r a
        → own_calls was.number now.history ≡ own_calls was.number was.history + 1 }
    ensures last { (was now : Known) (r : Request) (a : Answer) → Extends was now r a
        → (before : List EntryValue) × (e : EntryValue) × (now.history ≡ before ++ e ∷ [])
        × (e.seat ≡ was.number) × (e.request ≡ r) × MayAnswer before e a }
    ensures seat { (was now : Known) (r : Request) (a : Answer) → Extends was now r a
        → (now.number ≡ was.number) × (now.share ≡ was.share + 1) }
{}

/// A call of a book that was journalled is one call of its board, and one entry more. Nothing else
/// of the book changes but the tasks that wait for a worker, and the seat has seen the whole
/// journal.
pub fn calls_are_the_boards()
    ensures board { (old new : BookValue) (was now : Known) (r : Request) (a : Answer)
        → HasCalled old new was now r a → Answers old.board r a new.board }
    ensures journal { (old new : BookValue) (was now : Known) (r : Request) (a : Answer)
        → HasCalled old new was now r a
        → (new.journal ≡ old.journal ++ entry_on old.board was.number r ∷ [])
        × (now.history ≡ new.journal) × (new.total ≡ old.total + 1) }
    ensures waiting { (old new : BookValue) (was now : Known) (r : Request) (a : Answer)
        → HasCalled old new was now r a
        → new.waiting ≡ waiting_after r a new.board.tasks old.waiting }
    ensures same { (old new : BookValue) (was now : Known) (r : Request) (a : Answer)
        → HasCalled old new was now r a → (new.closed ≡ old.closed) × (new.seats ≡ old.seats) }
    ensures seat { (old new : BookValue) (was now : Known) (r : Request) (a : Answer)
        → HasCalled old new was now r a → Extends was now r a }
{}

/// A call changes no task but the one that it names.
pub fn calls_change_the_task_they_name()
    ensures { (s : BoardState) (r : Request) (a : Answer) (s' : BoardState) (id : List ℕ)
        → Answers s r a s' → (asked_of r ≡ Some id → ⊥) → task_of id s'.tasks ≡ task_of id s.tasks }
{}

/// A wait that a call makes due is for a task that the call has paused or killed, or the call fills the
/// journal. So callers that sleep need not be told of another call.
pub fn few_calls_make_waits_due()
    ensures { (old new : BookValue) (was now : Known) (r : Request) (a : Answer) (id : List ℕ)
        → HasCalled old new was now r a → is_due old id ≡ false → is_due new id ≡ true
        → (settles a ≡ true) ⊎ (is_full new ≡ true) }
{}

/// What takes and returns make of a task, one after another, is one advance at most, and then perhaps a take.
pub fn slices_come_together()
    ensures take { (t : Task) (budget : ℕ) → can_lend t ≡ true → is_budget budget ≡ true
        → ComesTo t (lent t budget) }
    ensures give_back { (t t' : Task) → HasReturned t t' → ComesTo t t' }
    ensures again { (t t' t'' : Task) → ComesTo t t' → ComesTo t' t'' → ComesTo t t'' }
{}

/// A slice that returns has made at least one turn.
pub fn returns_make_turns()
    ensures { (t t' : Task) → HasReturned t t' → t.turns < t'.turns }
{}

/// Slices of tasks commute with the calls that do not name them: a call before such slices is answered as it
/// may be after them, and a call after them as it may be before; and then there are again only those slices
/// between the boards that it leaves.
pub fn calls_commute_with_slices()
    ensures before { (s now : BoardState) (r : Request) (a : Answer) (now' : BoardState)
        → IsSince s now
        → ((id : List ℕ) → asked_of r ≡ Some id → task_of id s.tasks ≡ task_of id now.tasks)
        → Answers now r a now'
        → (s' : BoardState) × Answers s r a s' × IsSince s' now' }
    ensures after { (s now : BoardState) (r : Request) (a : Answer) (s' : BoardState)
        → IsSince s now
        → ((id : List ℕ) → asked_of r ≡ Some id → task_of id s.tasks ≡ task_of id now.tasks)
        → Answers s r a s'
        → (now' : BoardState) × Answers now r a now' × IsSince s' now' }
{}

/// A history determines its board but for slots: two replays lead to boards that are the same but for the
/// slots that creates chose, and two boards of one history are if each task has the same count and
/// mark on both.
pub fn replays_agree()
    ensures history { (h : List EntryValue) (s s' : BoardState) → Replays empty h s
        → Replays empty h s'
        → IsAlike s s' }
    ensures present { (h : List EntryValue) (now now' : BoardState) → IsReplay h now
        → IsReplay h now'
        → ((id : List ℕ) → option_map found_in (task_of id now.tasks)
        ≡ option_map found_in (task_of id now'.tasks))
        → IsAlike now now' }
{
    slices_advance_legally();
    advances_are_slices();
    spells_one();
    invalid_modules_are_not_valid();
    texts_are_determined();
}

/// The board of a history stays its board: a take or a return adds nothing to the history, and a call adds
/// one entry, with what it finds. What the board answers, the history allows.
pub fn replays_go_on()
    ensures empty { IsReplay [] empty }
    ensures slice { (h : List EntryValue) (s : BoardState) (e : Event) (a : EventReply)
        (s' : BoardState)
        → IsReplay h s → IsOfSlice e → Step s e a s' → IsReplay h s' }
    ensures call { (h : List EntryValue) (s : BoardState) (seat : ℕ) (r : Request) (a : Answer)
        (s' : BoardState) → IsReplay h s → Answers s r a s'
        → IsReplay (h ++ entry_on s seat r ∷ []) s' }
    ensures answer { (h : List EntryValue) (s : BoardState) (seat : ℕ) (r : Request) (a : Answer)
        (s' : BoardState) → IsReplay h s → Answers s r a s' → MayAnswer h (entry_on s seat r) a }
{}

/// The calls of any run of events, with what they found, replay to the board that the events lead to.
pub fn runs_replay()
    ensures replay { (es : List Event) (rs : List EventReply) (h : List EntryValue) (s : BoardState)
        → Records empty es rs h s → IsReplay h s }
    ensures run { (es : List Event) (rs : List EventReply) (h : List EntryValue) (s : BoardState)
        → Records empty es rs h s → Run empty es rs s }
    ensures journal { (es : List Event) (rs : List EventReply) (s : BoardState) → Run empty es rs s
        → (h : List EntryValue) × Records empty es rs h s }
{}

/// What replays is what may have happened: each history that replays to a board is the journal of some run of
/// events to that board, and each legal history is the journal of some run.
pub fn replays_are_runs()
    ensures replay { (h : List EntryValue) (s : BoardState) → IsReplay h s
        → (es : List Event) × (rs : List EventReply) × Records empty es rs h s }
    ensures legal { (h : List EntryValue) → IsLegal h → (s : BoardState) × (es : List Event)
        × (rs : List EventReply) × Records empty es rs h s }
{
    slices_advance_legally();
    advances_are_slices();
}
