//! The book: the board, its journal, which is in the first cells of a row, and the ledger.
ghost use Rattle.std.specs.Prelude.{◌≡◌, ◌↔◌, ◌≢◌, ◌⊎◌, ◌+◌, ◌<◌, ◌≤◌, ◌==◌, [], ◌∷◌, ◌++◌, length, true, false, Err, Some, None, IfOk, IfSome, IfNone, IsSome, IsOk, IfErr, OnErr};
ghost use Rattle.call_journal.specs.Books.{is_due, is_full, is_idle, is_refused, is_journalled, HasCalled, IsUnchanged};
ghost use Rattle.call_journal.specs.Replay.{IsReplay, IsLegal};
ghost use Rattle.task_requests.specs.declared.request.Request.{Request as RequestValue};
ghost use Rattle.task_requests.specs.declared.request.Request.TheVariants as request;
ghost use Rattle.task_requests.specs.declared.request.Ask.TheVariants as ask;
ghost use Rattle.task_requests.specs.declared.event.Event.TheVariants as event;
ghost use Rattle.task_requests.specs.declared.event.EventReply.TheVariants as answer;
ghost use Rattle.task_requests.specs.Limits.{max_budget};
ghost use Rattle.task_board.specs.BoardState.{Task as TaskValue, empty};
ghost use Rattle.task_board.specs.Loans.{Fits};
ghost use Rattle.task_board.specs.Sound.{IsBoard};
ghost use Rattle.task_board.specs.Step.{Step};
ghost use Rattle.task_board.specs.Tickets.{CanLend, Lends, ticket_in};
ghost use Rattle.task_board.specs.declared.ticket.Ticket.{Ticket as TicketValue};
ghost use Rattle.task_board.specs.Waiting.{enter_again, waiting_ticket, without};
ghost use Rattle.call_journal.specs.Desks.{AreIdle, spot_names};
ghost use Rattle.call_journal.specs.Seats.{most_entries, most_seats, GoesOn};
ghost use Rattle.call_journal.specs.Inside.Calls.{IsEntered};

use crate::cells::{Cells, MOST_ENTRIES};
use crate::desk::Desk;
use crate::entry::Entry;
use crate::finding::{copy, found};
use crate::laws::{answers_are_journalled, replays_go_on};
use crate::receipt::Receipt;
use crate::row::Row;
use crate::runnable::Runnable;
use crate::seat::Seat;
use crate::seen::Seen;
use std::alloc::Global;
use std::marker::Model;
use std::sync::ledger;
use std::sync::ledger::{Blank, Share};
use task_board::{Ask, Board, Loan, Prepared, Reply, Request, Ticket};
use wasm_ast::{Refusal, Text};

/// How many seats there are at most.
pub const MOST_SEATS: u64 = 1 << 60;

/// The board and its journal, of which the board is a replay; the desk; the ledger that counts the entries,
/// and what is left of its parts; and how many seats there are. The first cells of the row hold the journal.
#[derive(Drop)]
pub struct Book<R: Row> {
    alloc: Global,
    board: Board,
    seen: Seen<R>,
    closed: bool,
    desk: Desk,
    count: ledger::Book<R>,
    rest: Share<R>,
    seats: u64,
}

impl<R: Row> Model for Book<R> {
    ghost use Rattle.std.specs.Prelude.{◌≡◌, ◌≤◌, ◌+◌, length};
    ghost use Rattle.call_journal.specs.Inside.Code.{book_code};
    ghost use Rattle.call_journal.specs.Books.{BookValue};
    ghost use Rattle.call_journal.specs.Replay.{IsReplay};
    ghost use Rattle.call_journal.specs.Seats.{most_entries, most_seats};
    ghost use Rattle.call_journal.specs.Desks.{spot_names};
    ghost use Rattle.call_journal.specs.Inside.Desks.{AllFit};

    ghost Value = { BookValue };

    ghost coded = { book_code };

    ghost view = { λ b. record {
      board = b.board.state;
      waiting = b.board.waiting;
      room = b.board.room;
      journal = b.seen;
      closed = b.closed;
      seats = b.seats;
      total = b.count.total;
    } };

    ghost invariant = { λ b. record {
      replay : IsReplay b.seen b.board.state;
      few : length b.seen ≤ most_entries;
      total : b.count.total ≡ length b.seen;
      parts : b.rest.parts + b.seats ≡ most_seats + 1;
      seats : b.seats ≤ most_seats;
      unused : b.rest.amount ≡ 0;
      places : spot_names b.desk ≡ R.slots;
      fit : AllFit b.desk b.board.state.tasks;
    } };
}

// The task of a ticket, if there is one.
fn runnable(ticket: Option<Ticket>) -> Option<Runnable>
    ensures { result ≡ ticket }
{
    match ticket {
        Some(ticket) => Some(Runnable::of(ticket)),
        None => None,
    }
}

impl<R: Row> Book<R> {
    /// A book over an empty board, for the row that the type names. `NoMemory` if it cannot be allocated.
    pub fn new(alloc: Global, desk: Desk, blank: Blank) -> Result<Book<R>, Refusal>
        requires places { spot_names desk ≡ R.slots }
        requires idle { AreIdle desk }
        requires name { blank.name ≡ R.name }
        requires parts { (blank.parts ≡ R.parts) × (blank.parts ≡ most_seats + 1) }
        ensures empty { IfOk result (λ b. (b.board ≡ empty) × (b.journal ≡ [])
            × (b.closed ≡ false) × (b.seats ≡ 0) × (b.total ≡ 0)) }
        ensures err { OnErr result (result ≡ Err Refusal.NoMemory) }
    {
        replays_go_on();
        let board = Board::new(alloc)?;
        let (count, rest) = blank.open::<R>();
        Ok(Book {
            alloc,
            board,
            seen: Seen::none(),
            closed: false,
            desk,
            count,
            rest,
            seats: 0,
        })
    }

    /// A seat with a number of its own, which has seen nothing. None if the numbers are used up.
    pub fn seat(&mut self) -> Option<Seat<R>>
        ensures some { IfSome result
            (λ s. s ≡ record { number = self.old.seats; history = []; share = 0 }) }
        ensures more { IsSome result → self.new ≡ record self.old { seats = self.old.seats + 1 } }
        ensures none { IfNone result ((self.old.seats ≡ most_seats) × (self.new ≡ self.old)) }
    {
        if self.seats >= MOST_SEATS {
            return None;
        }
        let mine = self.rest.split_off(1, 0);
        let seat = Seat::new(self.seats, mine);
        self.seats += 1;
        Some(seat)
    }

    /// What holds of every book: its board is a replay of its journal, which is a legal history, and the
    /// ledger's total is its length. It does nothing.
    pub fn sound(&self)
        ensures replay { IsReplay self.now.journal self.now.board }
        ensures legal { IsLegal self.now.journal }
        ensures total { self.now.total ≡ length self.now.journal }
        ensures few { length self.now.journal ≤ most_entries }
        ensures board { IsBoard self.now.board }
    {
        self.board.sound();
    }

    /// The board.
    pub(crate) fn board(&self) -> &Board
        ensures state { result.now.state ≡ self.now.board }
        ensures waiting { result.now.waiting ≡ self.now.waiting }
    {
        &self.board
    }

    /// Makes the call of a seat of these cells. The answers JournalFull, NoMemory, Closed and
    /// JournalFault change nothing. Every other answer is journalled, and the seat has then seen
    /// the whole journal, which ends with the call's entry.
    pub fn call(
        &mut self,
        cells: &Cells,
        seat: &mut Seat<R>,
        request: Request,
    ) -> Result<Reply, Refusal>
        requires { cells.now ≡ R.cells }
        ensures called { is_journalled result ≡ true
            → HasCalled self.old self.new seat.old seat.new request result }
        ensures same { is_journalled result ≡ false
            → IsUnchanged self.old self.new × (seat.new ≡ seat.old) }
        ensures closed { (result ≡ Err Refusal.Closed) ↔ (self.old.closed ≡ true) }
        ensures full { (result ≡ Err Refusal.JournalFull) ↔ ((self.old.closed ≡ false)
            × (length self.old.journal ≡ most_entries)) }
    {
        self.may_go(cells, seat)?;
        let (seen, prepared) = self.announce(cells, seat.number(), request)?;
        self.enter(seat, seen, prepared)
    }

    /// Makes the call `wait` of a seat, for a task for which it is due. It is not answered Busy.
    pub fn call_due(
        &mut self,
        cells: &Cells,
        seat: &mut Seat<R>,
        id: Text,
    ) -> Result<Reply, Refusal>
        requires row { cells.now ≡ R.cells }
        requires due { is_due self.old id ≡ true }
        ensures called { is_journalled result ≡ true
            → HasCalled self.old self.new seat.old seat.new (request.Task id ask.Wait) result }
        ensures same { is_journalled result ≡ false
            → IsUnchanged self.old self.new × (seat.new ≡ seat.old) }
        ensures answered { result ≢ Err Refusal.Busy }
    {
        self.call(cells, seat, Request::Task { id, ask: Ask::Wait })
    }

    // Whether a seat may make a call: `Closed`, `JournalFull`, or `JournalFault` where the journal
    // does not go on from what it has seen with calls of others.
    fn may_go(&self, cells: &Cells, seat: &Seat<R>) -> Result<(), Refusal>
        requires { cells.now ≡ R.cells }
        ensures room { IsOk result → length self.now.journal < most_entries }
        ensures on { IsOk result → GoesOn seat.now.number seat.now.history self.now.journal }
        ensures closed { (result ≡ Err Refusal.Closed) ↔ (self.now.closed ≡ true) }
        ensures full { (result ≡ Err Refusal.JournalFull) ↔ ((self.now.closed ≡ false)
            × (length self.now.journal ≡ most_entries)) }
        ensures err { IfErr result (λ e. is_refused e ≡ true) }
        ensures fault { result ≡ Err Refusal.JournalFault
            → GoesOn seat.now.number seat.now.history self.now.journal → ⊥ }
    {
        if self.closed {
            return Err(Refusal::Closed);
        }
        if self.seen.len() >= MOST_ENTRIES {
            return Err(Refusal::JournalFull);
        }
        if !seat.may_follow(cells, &self.seen) {
            return Err(Refusal::JournalFault);
        }
        Ok(())
    }

    // Takes all memory that a seat's call needs, and puts its entry into the next cell.
    fn announce(
        &mut self,
        cells: &Cells,
        number: u64,
        request: Request,
    ) -> Result<(Seen<R>, Prepared), Refusal>
        requires row { cells.now ≡ R.cells }
        requires room { length self.old.journal < most_entries }
        ensures same { IsUnchanged self.old self.new }
        ensures entered { IfOk result (λ p. IsEntered self.new number request p.1 p.0) }
        ensures err { OnErr result
            ((result ≡ Err Refusal.NoMemory) ⊎ (result ≡ Err Refusal.JournalFault)) }
    {
        let entry = Entry {
            seat: number,
            found: found(&self.board, &request),
            request: copy(self.alloc, &request)?,
        };
        let prepared = self.board.prepare(request)?;
        match self.add(cells, entry) {
            Ok(seen) => Ok((seen, prepared)),
            Err(refusal) => {
                prepared.discard();
                Err(refusal)
            }
        }
    }

    // Puts an entry into the next cell.
    fn add(&self, cells: &Cells, entry: Entry) -> Result<Seen<R>, Refusal>
        requires row { cells.now ≡ R.cells }
        requires room { length self.now.journal < most_entries }
        ensures ok { IfOk result (λ seen. seen ≡ self.now.journal ++ entry ∷ []) }
        ensures err { OnErr result
            ((result ≡ Err Refusal.NoMemory) ⊎ (result ≡ Err Refusal.JournalFault)) }
    {
        let Ok(entry) = Box::new(self.alloc, entry) else {
            return Err(Refusal::NoMemory);
        };
        self.seen.add(cells, entry).ok_or(Refusal::JournalFault)
    }

    // Makes the call that was prepared for a seat, of which the entry is in its cell: the board
    // has made it, with one entry more, and the seat has seen the whole journal.
    fn enter(
        &mut self,
        seat: &mut Seat<R>,
        seen: Seen<R>,
        prepared: Prepared,
    ) -> Result<Reply, Refusal>
        requires call { (r : RequestValue) × IsEntered self.old seat.old.number r prepared seen }
        requires room { length self.old.journal < most_entries }
        requires on { GoesOn seat.old.number seat.old.history self.old.journal }
        ensures called { (r : RequestValue) → IsEntered self.old seat.old.number r prepared seen
            → HasCalled self.old self.new seat.old seat.new r result }
        ensures journalled { is_journalled result ≡ true }
    {
        replays_go_on();
        answers_are_journalled();
        self.board.sound();
        let answer = self.board.apply(prepared);
        seat.made(&mut self.count, seen.again());
        self.seen = seen;
        answer
    }

    /// Whether the journal takes no other call.
    pub fn is_full(&self) -> bool
        ensures { result ≡ is_full self.now }
    {
        self.seen.len() == MOST_ENTRIES
    }

    /// Whether the book is closed.
    pub fn is_closed(&self) -> bool
        ensures { result ≡ self.now.closed }
    {
        self.closed
    }

    /// Whether a call `wait` for the task with an id is not answered Busy: the book is closed, its journal is
    /// full, or the task is not there, or it is created, paused or stopped.
    pub fn is_due(&self, id: &Text) -> bool
        ensures { result ≡ is_due self.now id.now }
    {
        self.closed || self.is_full() || self.board.is_settled(id.as_str())
    }

    /// Whether a worker has nothing to do: the book is not closed, and no task waits for a worker.
    pub fn is_idle(&self) -> bool
        ensures { result ≡ is_idle self.now }
    {
        !self.closed && !self.board.has_waiting()
    }

    /// Lends the machine of a task for a slice of at most `budget` turns. None, and nothing has
    /// changed, exactly if the book is closed, or that task is gone, of another incarnation, not running, or
    /// out.
    pub fn take(&mut self, task: Runnable, budget: u64) -> Option<(Loan, Receipt<R>)>
        requires { (1 ≤ budget) × (budget ≤ max_budget) }
        ensures some { IfSome result
            (λ p. Lends self.old.board task budget p.0 self.new.board) }
        ensures receipt { IfSome result (λ p. p.1 ≡ p.0) }
        ensures opened { IfSome result (λ p. self.old.closed ≡ false) }
        ensures none { IfNone result (self.old.closed ≡ false
            → (t : TaskValue) → CanLend task self.old.board.tasks t → ⊥) }
        ensures same { IfNone result (self.new ≡ self.old) }
        ensures rest { self.new
            ≡ record self.old { board = self.new.board; room = self.new.room } }
    {
        let ticket = task.into_ticket();
        if self.closed {
            return None;
        }
        replays_go_on();
        self.board.sound();
        let loan = self.board.take(ticket, budget)?;
        let slip = self.desk.lend(ticket.slot, &loan);
        let receipt = Receipt::new(ticket.slot, &loan, slip);
        Some((loan, receipt))
    }

    /// Lends the machine of the task with an id for a slice of at most `budget` turns, if that waits for a
    /// worker, which it does no more.
    pub fn take_waiting(&mut self, id: &Text, budget: u64) -> Option<(Loan, Receipt<R>)>
        requires { (1 ≤ budget) × (budget ≤ max_budget) }
        ensures id { IfSome result (λ p. p.0.id ≡ id.now) }
        ensures some { (t : TicketValue)
            → waiting_ticket id.now self.old.board.tasks self.old.waiting ≡ Some t
            → IfSome result (λ p. Lends self.old.board t budget p.0 self.new.board) }
        ensures none { waiting_ticket id.now self.old.board.tasks self.old.waiting ≡ None
            → (result ≡ None) × (self.new ≡ self.old) }
        ensures rest { self.new ≡ record self.old {
          board = self.new.board;
          room = self.new.room;
          waiting = self.new.waiting;
        } }
        ensures loan { IfSome result (λ p. (p.0.ran ≡ false) × (p.0.budget ≡ budget)) }
        ensures receipt { IfSome result (λ p. p.1 ≡ p.0) }
    {
        self.board.sound();
        let task = self.leave_waiting(id)?;
        self.take(task, budget)
    }

    /// Takes back the machine of a loan that has been run, with its receipt: so nothing is compared. A loan
    /// that does not fit is ended, and changes nothing. The task comes exactly if the loan fits and it
    /// is running afterwards.
    pub fn give_back(&mut self, loan: Loan, receipt: Receipt<R>) -> Option<Runnable>
        requires ran { loan.ran ≡ true }
        requires receipt { loan ≡ record receipt { ran = true } }
        ensures step { Fits loan self.old.board.tasks → Step self.old.board
            (event.Return loan.id) (answer.Returned true) self.new.board }
        ensures ticket { Fits loan self.old.board.tasks
            → result ≡ ticket_in loan.slot self.new.board.tasks }
        ensures unfit { (Fits loan self.old.board.tasks → ⊥)
            → (self.new ≡ self.old) × (result ≡ None) }
        ensures rest { self.new
            ≡ record self.old { board = self.new.board; room = self.new.room } }
    {
        replays_go_on();
        self.board.sound();
        if receipt.end(&mut self.desk) {
            runnable(self.board.receive(loan))
        } else if self.board.fits(&loan) {
            runnable(self.board.receive(loan))
        } else {
            runnable(self.board.give_back(loan))
        }
    }

    /// The task that has waited longest for a worker, which waits no more. None if none waits.
    pub fn next_waiting(&mut self) -> Option<Runnable>
        ensures some { IfSome result (λ ticket. self.old.waiting ≡ ticket ∷ self.new.waiting) }
        ensures none { IfNone result ((self.old.waiting ≡ []) × (self.new ≡ self.old)) }
        ensures rest { self.new ≡ record self.old { waiting = self.new.waiting } }
    {
        runnable(self.board.next_waiting())
    }

    /// The task with an id, which waits for a worker and now no more. None, and
    /// nothing has changed, if no task has the id or that does not wait.
    pub fn leave_waiting(&mut self, id: &Text) -> Option<Runnable>
        ensures ticket { result ≡ waiting_ticket id.now self.old.board.tasks self.old.waiting }
        ensures some { IfSome result
            (λ t. self.new ≡ record self.old { waiting = without t self.old.waiting }) }
        ensures none { IfNone result (self.new ≡ self.old) }
    {
        runnable(self.board.leave_waiting(id.as_str()))
    }

    /// Lets a task wait for a worker, after all that wait, unless it waits already. One that is
    /// gone is dropped.
    pub fn wait_again(&mut self, task: Runnable)
        ensures { self.new ≡ record self.old {
          waiting = enter_again self.old.board.tasks task self.old.waiting;
        } }
    {
        self.board.wait_again(task.into_ticket());
    }

    /// Closes the book: no call is made any more, and no machine is lent.
    pub fn close(&mut self)
        ensures { self.new ≡ record self.old { closed = true } }
    {
        self.closed = true;
    }
}
