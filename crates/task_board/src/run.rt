//! Whole lists of events.

ghost use Rattle.std.specs.Prelude.{◌≡◌, ◌+◌, ◌<◌, ◌++◌, ◌∷◌, ◌↔◌, IsTrue, [], IfOk, OnOk, OnErr, IfSome, IfNone, Some, None, Ok, Err, length, vec_len, true, false};
ghost use Rattle.task_requests.specs.declared.event.Event.TheVariants as event;
ghost use Rattle.task_requests.specs.declared.event.EventReply.{EventReply as ReplyValue};
ghost use Rattle.task_requests.specs.declared.event.EventReply.TheVariants as answer;
ghost use Rattle.task_board.specs.BoardState.{BoardState, empty};
ghost use Rattle.task_board.specs.Step.{Step};
ghost use Rattle.task_board.specs.Run.{Happens, Run};
ghost use Rattle.task_board.specs.Inside.Covers.{Covered, IsFitting, FitsAt, NoneFits};

use crate::board::Board;
use crate::loan::Loan;
use std::alloc::{AllocError, Global};
use task_requests::{Event, EventReply, MAX_BUDGET};
use wasm_ast::{Refusal, Text};

fn is_fitting(board: &Board, loan: &Loan, slot: usize) -> bool
    ensures { IsTrue result ↔ IsFitting board.now.state.tasks slot loan.now }
{
    loan.slot() == slot && board.fits(loan)
}

// The index of the first loan that is of this slot and fits.
fn find_fitting(board: &Board, loans: &[Loan], slot: usize) -> Option<usize>
    ensures some { IfSome result (λ i. FitsAt board.now.state.tasks slot loans.now i) }
    ensures none { IfNone result (NoneFits board.now.state.tasks slot loans.now) }
{
    for (i, loan) in loans.iter().enumerate() {
        if is_fitting(board, loan, slot) {
            return Some(i);
        }
    }
    None
}

// Ends all loans.
fn end_all(mut loans: Vec<Loan>) {
    while let Some(loan) = loans.pop() {
        loan.end();
    }
    loans.destroy_empty();
}

// A take: whether the task's slice was taken.
fn take(board: &mut Board, loans: &mut Vec<Loan>, id: Text, budget: u64) -> Result<bool, AllocError>
    ensures taken { IfOk result
        (λ b. Step board.old.state (event.Take id budget) (answer.Taken b) board.new.state) }
    ensures covered { OnOk result (Covered loans.old.items board.old.state.tasks
        → Covered loans.new.items board.new.state.tasks) }
{
    if budget < 1 || budget > MAX_BUDGET {
        return Ok(false);
    }
    let Some(ticket) = board.ticket(id.as_str()) else {
        return Ok(false);
    };
    board.sound();
    loans.reserve(1)?;
    let Some(loan) = board.take(ticket, budget) else {
        return Ok(false);
    };
    loans.push_reserved(loan);
    Ok(true)
}

// A return: whether the task was out; its slice is run and given back.
fn give_back(board: &mut Board, loans: &mut Vec<Loan>, id: Text) -> bool
    requires { Covered loans.old.items board.old.state.tasks }
    ensures returned { Step board.old.state
        (event.Return id) (answer.Returned result) board.new.state }
    ensures covered { Covered loans.new.items board.new.state.tasks }
{
    let Some(ticket) = board.ticket(id.as_str()) else {
        return false;
    };
    board.sound();
    let Some(i) = find_fitting(board, loans.as_slice(), ticket.slot) else {
        return false;
    };
    let mut loan = loans.remove(i);
    loan.run();
    let _again = board.receive(loan);
    true
}

// One event.
fn happen(board: &mut Board, loans: &mut Vec<Loan>, event: Event) -> Result<EventReply, AllocError>
    requires { Covered loans.old.items board.old.state.tasks }
    ensures happens { IfOk result (λ r. Happens board.old.state event r board.new.state) }
    ensures covered { OnOk result (Covered loans.new.items board.new.state.tasks) }
{
    match event {
        Event::Call(request) => {
            board.sound();
            Ok(EventReply::Called(board.call(request)))
        }
        Event::Take(id, budget) => Ok(EventReply::Taken(take(board, loans, id, budget)?)),
        Event::Return(id) => Ok(EventReply::Returned(give_back(board, loans, id))),
    }
}

fn run_all(
    alloc: Global,
    board: &mut Board,
    loans: &mut Vec<Loan>,
    events: Vec<Event>,
) -> Result<Vec<EventReply>, AllocError>
    requires { Covered loans.old.items board.old.state.tasks }
    ensures run { IfOk result (λ v. Run board.old.state events.items v.items board.new.state) }
{
    let mut replies = Vec::with_capacity(alloc, events.len())?;
    for event in events {
        let reply = happen(board, loans, event)?;
        replies.push(reply)?;
    }
    Ok(replies)
}

/// Runs events from an empty board, and answers each. Slices that are still out at the end are ended
/// with the board. `NoMemory` if the board, the replies or the loans cannot be allocated.
pub fn run_events(alloc: Global, events: Vec<Event>) -> Result<Vec<EventReply>, Refusal>
    ensures run { IfOk result (λ v. (last : BoardState) × Run empty events.items v.items last) }
    ensures err { OnErr result (result ≡ Err Refusal.NoMemory) }
{
    let mut board = Board::new(alloc)?;
    let mut loans = Vec::new(alloc);
    let replies = run_all(alloc, &mut board, &mut loans, events);
    end_all(loans);
    Ok(replies?)
}
