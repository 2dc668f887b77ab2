//! A script of calls on a shim, whose journal has an entry for each that is not refused for memory.

ghost use Rattle.std.specs.Prelude.{◌≡◌, ◌+◌};
ghost use Rattle.call_journal.specs.Desks.{AreIdle, spot_names};
ghost use Rattle.call_journal.specs.Seats.{most_seats};

use crate::session::{Answering, Session, TRIES};
use call_journal::{Cells, Desk, MOST_ENTRIES, MOST_SEATS, Row, Seat, Shim};
use std::marker::Brand;
use std::sync::Wait;
use std::sync::ledger::Blank;
use task_board::{Reply, Request};
use wasm_ast::Refusal;

/// What is asked: two contents, a lease, two tasks, of which one is debugged, killed and deleted.
const SCRIPT: [&str; 15] = [
    r#"{"op":"put","hex":"0061736d0100000001080260017f0060000002240116776173695f736e617073686f745f70726576696577310970726f635f65786974000003020101070a01065f737461727400010a08010600410710000b"}"#,
    r#"{"op":"put_text","text":"(module (type $p (func (param i32))) (type $v (func)) (import \"wasi_snapshot_preview1\" \"proc_exit\" (func $exit (type $p))) (memory 1) (func $s (type $v) (local i32 i64) i64.const -1 local.set 1 i32.const 5 block (result i32) i32.const 6 call $f end drop drop) (func $f (type $v) nop) (export \"_start\" (func $s)))"}"#,
    r#"{"op":"lease_create","id":"l"}"#,
    r#"{"op":"lease_add","id":"l","digest":"sha256:2194f0d23626e6104d4a7a891350fbd0e82a54a29dd596a672d41474e9b6ee0a"}"#,
    r#"{"op":"create","id":"a","config":"{\"ociVersion\":\"1.0.2\",\"process\":{\"args\":[\"a\"],\"cwd\":\"/\"},\"annotations\":{\"dev.shim.module\":\"sha256:2194f0d23626e6104d4a7a891350fbd0e82a54a29dd596a672d41474e9b6ee0a\"}}"}"#,
    r#"{"op":"create","id":"b","config":"{\"ociVersion\":\"1.0.2\",\"process\":{\"args\":[\"b\"],\"cwd\":\"/\"},\"annotations\":{\"dev.shim.module\":\"sha256:80d801da873e276c47ccff01cd62b93ca1073a59e6b97274a33ee308cf5a7f38\"}}"}"#,
    r#"{"op":"break","func":1,"id":"b","place":0}"#,
    r#"{"op":"start","id":"b"}"#,
    r#"{"op":"step","count":1,"id":"b"}"#,
    r#"{"op":"inspect","id":"b"}"#,
    r#"{"op":"peek","address":0,"id":"b","length":256}"#,
    r#"{"op":"output","id":"b","stream":1}"#,
    r#"{"op":"gc"}"#,
    r#"{"op":"kill","id":"b","signal":9}"#,
    r#"{"op":"delete","id":"b"}"#,
];

/// A shim and the seat of its one caller.
#[derive(Drop)]
struct Caller<'a, J: Row, W> {
    threads: &'a W,
    shim: Shim<J>,
    seat: Option<Seat<J>>,
}

impl<J: Row, W: Wait> Answering for Caller<'_, J, W> {
    // Each call needs an entry of the journal.
    fn takes_memory(&self, _request: &Request) -> bool {
        true
    }

    fn answer(&mut self, request: Request) -> Result<Reply, Refusal> {
        let Some(seat) = self.seat.take() else {
            return Err(Refusal::Closed);
        };
        let (seat, answer) = self.shim.call(self.threads, seat, request);
        self.seat = Some(seat);
        answer
    }
}

impl<J: Row, W: Wait> Caller<'_, J, W> {
    // How many entries the journal has that the seat has seen.
    fn entries(&self) -> usize {
        let Some(seat) = &self.seat else {
            return 0;
        };
        for i in 0..MOST_ENTRIES {
            if self.shim.entry(seat, i).is_none() {
                return i;
            }
        }
        MOST_ENTRIES
    }
}

// Asks the script of a shim over these cells, and prints how many entries there are. How often memory was
// refused; None if the shim cannot be made.
fn ask_over<J: Row, W: Wait>(
    rt: &HostRuntime,
    threads: &W,
    cells: Cells,
    desk: Desk,
    blank: Blank,
    refused: u64,
) -> Option<u64>
    requires row { cells ≡ J.cells }
    requires places { spot_names desk ≡ J.slots }
    requires idle { AreIdle desk }
    requires name { blank.name ≡ J.name }
    requires parts { (blank.parts ≡ J.parts) × (blank.parts ≡ most_seats + 1) }
{
    let shim = Shim::<J>::new(rt.alloc(), cells, desk, blank).ok()?;
    let seat = shim.seat(threads);
    let asked = Caller {
        threads,
        shim,
        seat,
    };
    let mut session = Session { rt, asked, refused };
    session.ask(&SCRIPT);
    let entries = session.asked.entries();
    let _printed = println!(rt; "entries: {entries}");
    Some(session.refused)
}

/// Asks the script of a shim. How often memory was refused; None if that was each time that a shim was to be
/// made.
pub fn ask_shim<W: Wait>(rt: &HostRuntime, threads: &W) -> Option<u64> {
    for refused in 0..TRIES {
        let Some(cells) = Cells::new(rt.alloc()) else {
            continue;
        };
        let Some(desk) = Desk::new(rt.alloc()) else {
            continue;
        };
        let blank = Blank::new(MOST_SEATS + 1);
        if let Some(told) = ask_over::<Brand, _>(rt, threads, cells, desk, blank, refused) {
            return Some(told);
        }
    }
    None
}
