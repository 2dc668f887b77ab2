//! Calls of one caller, and what it has seen of the others'.

use call_journal::{Row, Seat, Shim};
use request_lines::request_of;
use std::alloc::Global;
use std::sync::Wait;
use task_requests::{Reply, Request};
use test_streams::STATE;
use wasm_ast::Refusal;

/// Why a call was refused; None if it was accepted.
pub fn refusal_of(answer: Result<Reply, Refusal>) -> Option<Refusal> {
    match answer {
        Ok(_) => None,
        Err(refusal) => Some(refusal),
    }
}

/// Makes a call. The seat, and why the call was refused.
pub fn make<R: Row, W: Wait>(
    rt: &W,
    shim: &Shim<R>,
    seat: Seat<R>,
    request: Request,
) -> (Seat<R>, Option<Refusal>) {
    let (seat, answer) = shim.call(rt, seat, request);
    (seat, refusal_of(answer))
}

/// Makes the call of a line. The seat, and why the call was refused. None if the line is no request.
pub fn ask<R: Row, W: Wait>(
    rt: &W,
    alloc: Global,
    shim: &Shim<R>,
    seat: Seat<R>,
    line: &str,
) -> Option<(Seat<R>, Option<Refusal>)> {
    match request_of(alloc, line.as_bytes()) {
        Ok(request) => Some(make(rt, shim, seat, request)),
        Err(_) => None,
    }
}

/// Makes the call of a line, which is to be accepted. None if it is refused.
pub fn accepted<R: Row, W: Wait>(
    rt: &W,
    alloc: Global,
    shim: &Shim<R>,
    seat: Seat<R>,
    line: &str,
) -> Option<Seat<R>> {
    let (seat, refusal) = ask(rt, alloc, shim, seat, line)?;
    match refusal {
        None => Some(seat),
        Some(_) => None,
    }
}

/// Makes the call of a line, which is to be refused for this reason. None if it is answered otherwise.
pub fn refused<R: Row, W: Wait>(
    rt: &W,
    alloc: Global,
    shim: &Shim<R>,
    seat: Seat<R>,
    line: &str,
    reason: Refusal,
) -> Option<Seat<R>> {
    let (seat, refusal) = ask(rt, alloc, shim, seat, line)?;
    if refusal? == reason { Some(seat) } else { None }
}

/// Makes this many calls, each of which finds no task. None if one is answered otherwise.
pub fn find_nothing<R: Row, W: Wait>(
    rt: &W,
    alloc: Global,
    shim: &Shim<R>,
    seat: Seat<R>,
    count: usize,
) -> Option<Seat<R>> {
    let mut seat = seat;
    for _ in 0..count {
        seat = refused(rt, alloc, shim, seat, STATE, Refusal::NotFound)?;
    }
    Some(seat)
}

/// How many calls of the seat with a number a seat has seen.
pub fn seen_of<R: Row>(shim: &Shim<R>, seat: &Seat<R>, number: u64) -> usize {
    let mut count: usize = 0;
    for i in 0..seat.len() {
        if let Some(entry) = shim.entry(seat, i) {
            if entry.seat == number {
                count = count.wrapping_add(1);
            }
        }
    }
    count
}
