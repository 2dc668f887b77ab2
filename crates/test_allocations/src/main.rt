//! A script of requests for a machine on which memory may be refused at any growth.
//!
//! What is refused for memory is tried again at once, and only the answers without those refusals are
//! printed: a refusal for memory changes nothing, so they are the same however often memory was refused.
//! How often that was goes to standard error. Requests that take no memory are made only once.
//!
//! Then a shorter script goes through a shim, and the number of the entries in its journal is printed: a call
//! that is refused for memory has none.
#![tactic(auto)]

mod journal;
mod session;

use crate::journal::ask_shim;
use crate::session::{Session, TRIES};
use std::process::ExitCode;
use task_board::Board;

/// Stores a module whose entry calls `proc_exit` with 7.
const PUT_EXIT_SEVEN: &str =
    r#"{"op":"put","hex":"0061736d0100000001080260017f0060000002240116776173695f736e617073686f745f70726576696577310970726f635f65786974000003020101070a01065f737461727400010a08010600410710000b"}"#;

/// Stores a module with no entry.
const PUT_NO_ENTRY: &str = r#"{"op":"put","hex":"0061736d01000000"}"#;

/// Stores the first module without its last byte.
const PUT_CUT_SHORT: &str =
    r#"{"op":"put","hex":"0061736d0100000001080260017f0060000002240116776173695f736e617073686f745f70726576696577310970726f635f65786974000003020101070a01065f737461727400010a0801060041071000"}"#;

/// Stores a module whose entry leaves a value.
const PUT_INVALID: &str =
    r#"{"op":"put","hex":"0061736d0100000001080260017f0060000002240116776173695f736e617073686f745f70726576696577310970726f635f65786974000003020101070a01065f737461727400010a0601040041070b"}"#;

const CREATE_A: &str =
    r#"{"op":"create","id":"a","config":"{\"ociVersion\":\"1.0.2\",\"process\":{\"args\":[\"a\"],\"cwd\":\"/\"},\"annotations\":{\"dev.shim.module\":\"sha256:2194f0d23626e6104d4a7a891350fbd0e82a54a29dd596a672d41474e9b6ee0a\"}}"}"#;

const CREATE_NO_ENTRY: &str =
    r#"{"op":"create","id":"b","config":"{\"ociVersion\":\"1.0.2\",\"process\":{\"args\":[\"a\"],\"cwd\":\"/\"},\"annotations\":{\"dev.shim.module\":\"sha256:93a44bbb96c751218e4c00d479e4c14358122a389acca16205b1e4d0dc5f9476\"}}"}"#;

const CREATE_CUT_SHORT: &str =
    r#"{"op":"create","id":"b","config":"{\"ociVersion\":\"1.0.2\",\"process\":{\"args\":[\"a\"],\"cwd\":\"/\"},\"annotations\":{\"dev.shim.module\":\"sha256:1f1ad1cebb0e45369a20f1ffda3da01c9779f844895a58e39ee69ebab768ecc2\"}}"}"#;

const CREATE_INVALID: &str =
    r#"{"op":"create","id":"b","config":"{\"ociVersion\":\"1.0.2\",\"process\":{\"args\":[\"a\"],\"cwd\":\"/\"},\"annotations\":{\"dev.shim.module\":\"sha256:52d823b59bfc8240241114aa4200f6b5bad2d999333a9dfe886f0452c66c9040\"}}"}"#;

const CREATE_NO_CONTENT: &str =
    r#"{"op":"create","id":"b","config":"{\"ociVersion\":\"1.0.2\",\"process\":{\"args\":[\"a\"],\"cwd\":\"/\"},\"annotations\":{\"dev.shim.module\":\"sha256:6e340b9cffb37a989ca544e6bb780a2c78901d3fb33738768511a30617afa01d\"}}"}"#;

const CREATE_NO_CONFIG: &str = r#"{"op":"create","id":"b","config":"{}"}"#;

const CREATE_B: &str =
    r#"{"op":"create","id":"b","config":"{\"ociVersion\":\"1.0.2\",\"process\":{\"args\":[\"a\"],\"cwd\":\"/\",\"env\":[\"B=1\"]},\"annotations\":{\"dev.shim.module\":\"sha256:2194f0d23626e6104d4a7a891350fbd0e82a54a29dd596a672d41474e9b6ee0a\"},\"linux\":{\"resources\":{\"memory\":{\"limit\":65536}}}}"}"#;

const START_A: &str = r#"{"op":"start","id":"a"}"#;

const STATE_A: &str = r#"{"op":"state","id":"a"}"#;

const WAIT_A: &str = r#"{"op":"wait","id":"a"}"#;

const OUTPUT_A: &str = r#"{"op":"output","id":"a","stream":1}"#;

const PAUSE_A: &str = r#"{"op":"pause","id":"a"}"#;

const RESUME_A: &str = r#"{"op":"resume","id":"a"}"#;

const START_B: &str = r#"{"op":"start","id":"b"}"#;

const KILL_B: &str = r#"{"op":"kill","id":"b","signal":9}"#;

const KILL_A: &str = r#"{"op":"kill","id":"a","signal":15}"#;

const DELETE_A: &str = r#"{"op":"delete","id":"a"}"#;

const DELETE_B: &str = r#"{"op":"delete","id":"b"}"#;

const REMOVE_EXIT_SEVEN: &str =
    r#"{"op":"remove","digest":"sha256:2194f0d23626e6104d4a7a891350fbd0e82a54a29dd596a672d41474e9b6ee0a"}"#;

const REMOVE_NO_ENTRY: &str =
    r#"{"op":"remove","digest":"sha256:93a44bbb96c751218e4c00d479e4c14358122a389acca16205b1e4d0dc5f9476"}"#;

const LEASE_CREATE_L: &str = r#"{"op":"lease_create","id":"l"}"#;

const BREAK_B: &str = r#"{"op":"break","func":1,"id":"b","place":0}"#;

const BREAK_CALL_B: &str = r#"{"op":"break","func":1,"id":"b","place":1}"#;

const UNBREAK_CALL_B: &str = r#"{"op":"unbreak","func":1,"id":"b","place":1}"#;

const STEP_B: &str = r#"{"op":"step","count":1,"id":"b"}"#;

const PEEK_NOTHING_B: &str = r#"{"op":"peek","address":0,"id":"b","length":0}"#;

const PEEK_B: &str = r#"{"op":"peek","address":0,"id":"b","length":1}"#;

const INSPECT_A: &str = r#"{"op":"inspect","id":"a"}"#;

const INSPECT_B: &str = r#"{"op":"inspect","id":"b"}"#;

const INSPECT_C: &str = r#"{"op":"inspect","id":"c"}"#;

const INSPECT_NO_ID: &str = r#"{"op":"inspect","id":""}"#;

const CREATE_C: &str =
    r#"{"op":"create","id":"c","config":"{\"ociVersion\":\"1.0.2\",\"process\":{\"args\":[\"c\"],\"cwd\":\"/\"},\"annotations\":{\"dev.shim.module\":\"sha256:54f724103a7599cf47eacfd7123d5e346b602c75133788dca6ae1def2165c76b\"}}"}"#;

const START_C: &str = r#"{"op":"start","id":"c"}"#;

const PAUSE_C: &str = r#"{"op":"pause","id":"c"}"#;

const STEP_C: &str = r#"{"op":"step","count":6,"id":"c"}"#;

const LEASE_ADD_NO_ENTRY: &str =
    r#"{"op":"lease_add","id":"l","digest":"sha256:93a44bbb96c751218e4c00d479e4c14358122a389acca16205b1e4d0dc5f9476"}"#;

const LEASE_DELETE_L: &str = r#"{"op":"lease_delete","id":"l"}"#;

/// Stores the text of a module with names, locals, a block and a call.
const PUT_TEXT: &str =
    r#"{"op":"put_text","text":"(module (type $p (func (param i32))) (type $v (func)) (import \"wasi_snapshot_preview1\" \"proc_exit\" (func $exit (type $p))) (func $s (type $v) (local i32 i64) i64.const -1 local.set 1 i32.const 5 block (result i32) i32.const 6 call $f end drop drop) (func $f (type $v) nop) (export \"_start\" (func $s)))"}"#;

/// A text with a word that is no instruction.
const PUT_TEXT_FAULT: &str =
    r#"{"op":"put_text","text":"(module (type (func)) (func (type 0) i32.cons 1))"}"#;

/// A text of a memory that is too large.
const PUT_TEXT_TOO_LARGE: &str = r#"{"op":"put_text","text":"(module (memory 257))"}"#;

const GC: &str = r#"{"op":"gc"}"#;

/// What is asked before the first slice.
const FIRST: [&str; 8] = [
    PUT_EXIT_SEVEN,
    PUT_EXIT_SEVEN,
    CREATE_A,
    CREATE_A,
    START_A,
    STATE_A,
    PAUSE_A,
    RESUME_A,
];

/// What is asked while a slice is out.
const OUT: [&str; 1] = [INSPECT_A];

/// What is asked after a slice.
const AFTER: [&str; 4] = [STATE_A, WAIT_A, OUTPUT_A, INSPECT_A];

/// What is asked last: one create after creates that are refused for other reasons.
const LAST: [&str; 9] = [
    PUT_NO_ENTRY,
    CREATE_NO_ENTRY,
    PUT_CUT_SHORT,
    CREATE_CUT_SHORT,
    PUT_INVALID,
    CREATE_INVALID,
    CREATE_NO_CONTENT,
    CREATE_NO_CONFIG,
    CREATE_B,
];

/// What is asked of the task that was created last.
const END: [&str; 5] = [START_B, KILL_B, DELETE_B, DELETE_B, CREATE_B];

/// What is asked to debug that task.
const DEBUG: [&str; 9] = [
    BREAK_B,
    BREAK_B,
    BREAK_CALL_B,
    UNBREAK_CALL_B,
    START_B,
    STEP_B,
    INSPECT_B,
    PEEK_NOTHING_B,
    PEEK_B,
];

/// What is asked while a lease and a task hold contents, and when they do no more.
const HOLD: [&str; 17] = [
    REMOVE_EXIT_SEVEN,
    LEASE_CREATE_L,
    LEASE_CREATE_L,
    LEASE_ADD_NO_ENTRY,
    LEASE_ADD_NO_ENTRY,
    REMOVE_NO_ENTRY,
    GC,
    LEASE_DELETE_L,
    LEASE_DELETE_L,
    GC,
    REMOVE_NO_ENTRY,
    KILL_B,
    DELETE_B,
    KILL_A,
    DELETE_A,
    REMOVE_EXIT_SEVEN,
    PUT_EXIT_SEVEN,
];

/// What is asked with texts: one that is stored, the same again, and two that are refused.
const TEXTS: [&str; 4] = [PUT_TEXT, PUT_TEXT, PUT_TEXT_FAULT, PUT_TEXT_TOO_LARGE];

/// What is asked of the module of that text, as a task that is looked at inside its call.
const FRAMES: [&str; 7] = [
    INSPECT_NO_ID,
    INSPECT_C,
    CREATE_C,
    START_C,
    PAUSE_C,
    STEP_C,
    INSPECT_C,
];

// A board, and how often memory was refused for it.
fn open(rt: &HostRuntime) -> Option<Session<'_, Board>> {
    for refused in 0..TRIES {
        if let Ok(board) = Board::new(rt.alloc()) {
            return Some(Session {
                rt,
                asked: board,
                refused,
            });
        }
    }
    None
}

impl Session<'_, Board> {
    // Prints which create made the task with an id.
    fn tell(&self, id: &str) {
        let _printed = match self.asked.ticket(id) {
            Some(ticket) => {
                let incarnation = ticket.incarnation;
                println!(self.rt; "{id}: incarnation {incarnation}")
            }
            None => println!(self.rt; "{id}: no task"),
        };
    }

    // Prints which task has waited longest for a worker, and lets it wait again.
    fn tell_waiting(&mut self) {
        let _printed = match self.asked.next_waiting() {
            Some(ticket) => {
                let incarnation = ticket.incarnation;
                self.asked.wait_again(ticket);
                println!(self.rt; "waiting: incarnation {incarnation}")
            }
            None => println!(self.rt; "waiting: no task"),
        };
    }

    // Runs a slice of one turn, makes requests while it is out, and prints whether the task goes on.
    fn slice(&mut self, id: &str, lines: &[&str]) {
        let Some(ticket) = self.asked.ticket(id) else {
            return;
        };
        let Some(mut loan) = self.asked.take(ticket, 1) else {
            return;
        };
        self.ask(lines);
        loan.run();
        let again = self.asked.give_back(loan);
        let _printed = if again == Some(ticket) {
            println!(self.rt; "{id}: one turn, and it goes on")
        } else {
            println!(self.rt; "{id}: one turn, and it does not go on")
        };
    }
}

fn main(rt: HostRuntime) -> ExitCode {
    let Some(mut session) = open(&rt) else {
        return ExitCode::FAILURE;
    };
    session.ask(&FIRST);
    session.tell("a");
    session.tell_waiting();
    session.slice("a", &OUT);
    session.ask(&AFTER);
    session.slice("a", &OUT);
    session.ask(&AFTER);
    session.ask(&LAST);
    session.tell("b");
    session.ask(&END);
    session.tell("b");
    session.tell_waiting();
    session.ask(&DEBUG);
    session.ask(&HOLD);
    session.ask(&TEXTS);
    session.tell_waiting();
    session.ask(&FRAMES);
    let Some(of_shim) = ask_shim(&rt, &rt) else {
        return ExitCode::FAILURE;
    };
    let refused = session.refused.saturating_add(of_shim);
    let _told = eprintln!(rt; "refused for memory: {refused}");
    ExitCode::SUCCESS
}
