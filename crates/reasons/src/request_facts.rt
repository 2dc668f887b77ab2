//! What is said of a refused request whose reason is not in a content, a text or a config, as
//! docs/PROTOCOL.md has it.

use request_lines::{Key, Op};

const ALL: &[Op] = &[];

const PUTS: &[Op] = &[Op::Put, Op::PutText];

const MARKS: &[Op] = &[Op::Break, Op::Unbreak];

const NO_KEYS: &[Key] = &[];

const ID: &[Key] = &[Key::Id];

const DIGEST: &[Key] = &[Key::Digest];

const PLACE: &[Key] = &[Key::Func, Key::Place];

// What is said of requests that are refused with one number: the number, the requests (none: all of them),
// the keys that it is said of, and the text. The first row with the number and the request counts.
const FACTS: &[(u64, &[Op], &[Key], &str)] = rows! {
    3, PUTS, NO_KEYS => "the content is stored already";
    3, &[Op::LeaseCreate], ID => "a lease has that id";
    3, &[Op::LeaseAdd], DIGEST => "the lease has that member already";
    3, &[Op::Create], ID => "a task has that id, until it is deleted";
    3, &[Op::Break], PLACE => "that breakpoint is set already";
    4, &[Op::LeaseAdd, Op::LeaseDelete], ID => "no lease has that id";
    4, &[Op::Unbreak], &[Key::Id, Key::Func, Key::Place] => "no task has that id, or that breakpoint of it is not set";
    4, ALL, ID => "no task has that id";
    5, &[Op::Create], NO_KEYS => "annotations.dev.shim.module: no content is stored under that digest; a put stores one";
    5, ALL, DIGEST => "no content is stored under that digest; a put stores one";
    6, ALL, DIGEST => "a lease has it as a member, or a task that was made of it is not deleted";
    9, &[Op::Put], NO_KEYS => "a content has at most 262144 bytes";
    11, &[Op::Start], ID => "the task is not created: it has been started, or has ended";
    11, &[Op::Pause], ID => "the task is not running";
    11, &[Op::Resume], ID => "the task is not paused";
    11, &[Op::Kill], ID => "the task is stopped already";
    11, &[Op::Delete], ID => "the task is not stopped: wait for its end, or kill it and wait";
    11, MARKS, ID => "the task is neither created nor paused: pause it and wait";
    11, &[Op::Step], ID => "the task is not paused: pause it and wait";
    12, ALL, ID => "a slice of the task is out: pause it and wait, and then ask again";
    13, &[Op::Kill], &[Key::Signal] => "it is neither 9 nor 15";
    13, &[Op::Output], &[Key::Stream] => "it is neither 1 nor 2";
    13, MARKS, PLACE => "the module has no such instruction; check --list shows all";
    13, &[Op::Step], &[Key::Count] => "it is not from 1 to 1000";
    13, &[Op::Peek], &[Key::Address, Key::Length] => "more than 256 bytes are asked for, or one of them is outside the memory";
    14, PUTS, NO_KEYS => "there are 256 contents, the most that there may be: remove or gc makes room";
    14, &[Op::LeaseCreate], NO_KEYS => "there are 64 leases, the most that there may be: lease_delete makes room";
    14, &[Op::LeaseAdd], ID => "the lease has 64 members, the most that there may be";
    14, &[Op::Create], NO_KEYS => "there are 64 tasks, stopped ones counted, the most that there may be: delete makes room";
    14, &[Op::Break], ID => "the task has 32 breakpoints, the most that there may be: unbreak makes room";
    15, ALL, NO_KEYS => "the board has answered 16384 requests, the most that it does: begin another serve";
    16, ALL, NO_KEYS => "other bytes are stored under the digest of these";
    17, ALL, NO_KEYS => "an allocation failed: delete tasks, remove contents, or let the program have more memory";
    19, ALL, NO_KEYS => "the shim is closed";
    20, ALL, NO_KEYS => "the journal and its cells differ";
};

fn is_of(ops: &[Op], op: Op) -> bool {
    for each in ops {
        if each.word() == op.word() {
            return true;
        }
    }
    ops.is_empty()
}

/// What is said of a request with this `op` that is refused with this number: of these keys, if there are
/// any, and the text.
pub fn said_of(op: Op, number: u64) -> Option<(&'static [Key], &'static str)> {
    for row in FACTS {
        if row.0 == number && is_of(row.1, op) {
            return Some((row.2, row.3));
        }
    }
    None
}
