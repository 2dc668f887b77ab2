//! What no line can show of a board: its loans and tickets, who waits for a worker, and takes that no line
//! asks for.

use crate::checks::check_text;
use request_lines::{event_line_of, event_of, request_of};
use std::alloc::Global;
use std::process::Abort;
use std::test::Fail;
use task_board::{Board, Event, EventReply, Loan, Ticket, run_events};
use wasm_ast::Text;

/// Stores a module whose entry calls `proc_exit` with 7.
const PUT_EXIT_SEVEN: &str =
    r#"{"op":"put","hex":"0061736d0100000001080260017f0060000002240116776173695f736e617073686f745f70726576696577310970726f635f65786974000003020101070a01065f737461727400010a08010600410710000b"}"#;

const CREATE_EXIT_SEVEN: &str =
    r#"{"op":"create","id":"a","config":"{\"ociVersion\":\"1.0.2\",\"process\":{\"args\":[\"a\"],\"cwd\":\"/\"},\"annotations\":{\"dev.shim.module\":\"sha256:2194f0d23626e6104d4a7a891350fbd0e82a54a29dd596a672d41474e9b6ee0a\"}}"}"#;

/// Stores a module whose entry never ends.
const PUT_LOOP: &str =
    r#"{"op":"put_text","text":"(module (type $p (func (param i32))) (type $v (func)) (import \"wasi_snapshot_preview1\" \"proc_exit\" (func $exit (type $p))) (func $s (type $v) loop br 0 end) (export \"_start\" (func $s)))"}"#;

const CREATE_LOOP: &str =
    r#"{"op":"create","id":"a","config":"{\"ociVersion\":\"1.0.2\",\"process\":{\"args\":[\"a\"],\"cwd\":\"/\"},\"annotations\":{\"dev.shim.module\":\"sha256:6562dc6051eacfa9e16454a65e6442a418b51e1faf0d637f3a9623de4037491c\"}}"}"#;

const START: &str = r#"{"op":"start","id":"a"}"#;

const KILL: &str = r#"{"op":"kill","id":"a","signal":9}"#;

const DELETE: &str = r#"{"op":"delete","id":"a"}"#;

fn new_board(alloc: Global) -> Result<Box<Board>, Fail> {
    let board = Board::new(alloc)?;
    Ok(Box::new(alloc, board)?)
}

fn call(alloc: Global, board: &mut Board, line: &str) -> Result<(), Fail> {
    board.call(request_of(alloc, line.as_bytes())?)?;
    Ok(())
}

// Makes the calls, each of which is accepted, and gives a ticket of the task.
fn called(alloc: Global, board: &mut Board, lines: &[&str]) -> Result<Option<Ticket>, Fail> {
    for line in lines {
        call(alloc, board, line)?;
    }
    Ok(board.ticket("a"))
}

fn lend(board: &mut Board, ticket: Option<Ticket>) -> Option<Loan> {
    board.take(ticket?, 1)
}

// Whether the loan fits; it is run and given back.
fn is_fitting(board: &mut Board, loan: Option<Loan>) -> bool {
    let Some(mut loan) = loan else {
        return false;
    };
    let fits = board.fits(&loan);
    loan.run();
    let _again = board.give_back(loan);
    fits
}

// A loan of a task with another module does not fit, though slot, incarnation, id, turns and budget
// are the same.
#[test]
fn loans_of_other_modules_do_not_fit(rt: HostRuntime) -> Result<(), Fail> {
    let alloc = rt.alloc();
    let mut board = new_board(alloc)?;
    let ticket = called(
        alloc,
        &mut board,
        &[PUT_EXIT_SEVEN, CREATE_EXIT_SEVEN, START],
    )?;
    let mut other = new_board(alloc)?;
    let same = called(alloc, &mut other, &[PUT_LOOP, CREATE_LOOP, START])?;
    assert!(rt; ticket == same);
    let own = lend(&mut board, ticket);
    let foreign = lend(&mut other, same);
    let foreign_fits = is_fitting(&mut board, foreign);
    let own_fits = is_fitting(&mut board, own);
    assert!(rt; !foreign_fits);
    assert!(rt; own_fits);
    Ok(())
}

// Whether a slice is taken by the ticket.
fn is_served(board: &mut Board, ticket: Option<Ticket>) -> bool {
    let Some(mut loan) = lend(board, ticket) else {
        return false;
    };
    loan.run();
    let _again = board.give_back(loan);
    true
}

// The ticket of a task that was deleted is not served to a later task of the same id.
#[test]
fn tickets_of_deleted_tasks_are_not_served(rt: HostRuntime) -> Result<(), Fail> {
    let alloc = rt.alloc();
    let mut board = new_board(alloc)?;
    let earlier = called(
        alloc,
        &mut board,
        &[PUT_EXIT_SEVEN, CREATE_EXIT_SEVEN, START],
    )?;
    let later = called(alloc, &mut board, &[KILL, DELETE, CREATE_EXIT_SEVEN, START])?;
    assert!(rt; !is_served(&mut board, earlier));
    assert!(rt; is_served(&mut board, later));
    Ok(())
}

// The task that waits longest, which waits no more; whether it is the one of this ticket.
fn is_next(board: &mut Board, ticket: Option<Ticket>) -> bool {
    board.next_waiting() == ticket
}

// A task that is started waits for a worker, once; a deleted one leaves, and its ticket is dropped.
#[test]
fn started_tasks_wait_once(rt: HostRuntime) -> Result<(), Fail> {
    let alloc = rt.alloc();
    let mut board = new_board(alloc)?;
    let ticket = called(
        alloc,
        &mut board,
        &[PUT_EXIT_SEVEN, CREATE_EXIT_SEVEN, START],
    )?;
    if let Some(again) = ticket {
        board.wait_again(again);
    }
    assert!(rt; is_next(&mut board, ticket));
    assert!(rt; is_next(&mut board, None));
    if let Some(again) = ticket {
        board.wait_again(again);
        called(alloc, &mut board, &[KILL, DELETE])?;
        board.wait_again(again);
    }
    assert!(rt; is_next(&mut board, None));
    Ok(())
}

/// Budgets, and what a take of that many turns is answered.
const TAKES: &[(u64, &str)] = &[
    (0, "{\"ok\":true,\"taken\":false}\n"),
    (1_000_001, "{\"ok\":true,\"taken\":false}\n"),
    (1_000_000, "{\"ok\":true,\"taken\":true}\n"),
];

// Adds the calls that start a task.
fn add_calls(alloc: Global, events: &mut Vec<Event>) -> Result<(), Fail> {
    for line in [PUT_EXIT_SEVEN, CREATE_EXIT_SEVEN, START] {
        events.push(event_of(alloc, line.as_bytes())?)?;
    }
    Ok(())
}

fn add_takes(alloc: Global, events: &mut Vec<Event>) -> Result<(), Fail> {
    for &(budget, _) in TAKES {
        events.push(Event::Take(Text::from_str(alloc, "a")?, budget))?;
    }
    Ok(())
}

fn check_reply(rt: &impl Abort, alloc: Global, reply: &EventReply, line: &str) -> Result<(), Fail> {
    let found = event_line_of(alloc, reply)?;
    check_text(rt, "the line of a take", found.as_str(), line);
    Ok(())
}

// Asserts that the takes are answered so.
fn check_takes(rt: &impl Abort, alloc: Global, replies: &[EventReply]) -> Result<(), Fail> {
    for (reply, &(_, line)) in replies.iter().zip(TAKES) {
        check_reply(rt, alloc, reply, line)?;
    }
    Ok(())
}

// A budget that is too small or too large lends nothing, and a line with one is no event.
#[test]
fn budgets_out_of_range_lend_nothing(rt: HostRuntime) -> Result<(), Fail> {
    let alloc = rt.alloc();
    let mut events = Vec::new(alloc);
    add_calls(alloc, &mut events)?;
    add_takes(alloc, &mut events)?;
    let replies = run_events(alloc, events)?;
    assert_eq!(rt; replies.len(), 6);
    let (_, taken) = replies.as_slice().split_at(3);
    check_takes(&rt, alloc, taken)
}
