//! Callers in threads of their own.

ghost use Rattle.std.specs.Prelude.{◌≡◌, ◌++◌, [], ⊤, option_map, Some, IfSome, IfOk};
ghost use Rattle.std.specs.Thread.{IsSend, IsSync};
ghost use Rattle.callers.specs.Driving.{Drives, IsTold};
ghost use Rattle.std.specs.List.{AllZip};

use crate::caller::{Driven, drive};
use crate::notes::Notes;
use call_journal::{Row, Seat, Shim};
use request_lines::{Source, Watched};
use std::alloc::{AllocError, Global};
use std::snapshot::Snapshot;
use std::sync::Wait;
use std::thread;
use std::thread::{Promise, PromisedHandle, Threads};

/// A caller: its seat, what it reads its lines from, and its notes.
#[derive(Drop)]
pub struct Caller<J: Row, R, N> {
    pub seat: Seat<J>,
    pub reader: R,
    pub notes: N,
}

/// What a caller was answered.
#[derive(Drop)]
pub struct Answered<J: Row, R, N> {
    /// The caller afterwards.
    pub caller: Caller<J, R, N>,
    /// The lines of the replies.
    pub replies: Vec<u8>,
    /// How its lines ended.
    pub driven: Driven,
}

// What a thread is to answer.
#[derive(Drop)]
struct Asked<J: Row, R: Source, N> {
    caller: Snapshot<Caller<J, R, N>>,
}

impl<J: Row, R: Source, N> Promise<Answered<J, R, N>> for Asked<J, R, N> {
    ghost kept_by = { λ p a. Drives a.driven p.caller.value.seat a.caller.seat
        (R.remaining p.caller.value.reader) (R.remaining a.caller.reader) (Some [])
        (Some a.replies.items)
        × IsTold a.driven (R.has_failed a.caller.reader) ⊤ };
}

// Answers the lines of a caller.
fn answer<J: Row, H: Wait, R: Source + Drop, N: Notes + Drop>(
    rt: &H,
    alloc: Global,
    shim: &Shim<J>,
    caller: Caller<J, R, N>,
) -> Answered<J, R, N>
    ensures lines { Drives result.driven caller.seat result.caller.seat
        (R.remaining caller.reader) (R.remaining result.caller.reader) (Some [])
        (Some result.replies.items) }
    ensures told { IsTold result.driven (R.has_failed result.caller.reader) ⊤ }
{
    let Caller {
        seat,
        mut reader,
        mut notes,
    } = caller;
    let mut replies = Watched::new(Vec::new(alloc));
    let (seat, driven) = drive(rt, alloc, shim, seat, &mut reader, &mut replies, &mut notes);
    Answered {
        caller: Caller {
            seat,
            reader,
            notes,
        },
        replies: replies.into_stream(),
        driven,
    }
}

// Waits for the thread of a caller, if it was started.
fn finish<J: Row, H: Threads, R: Source, N: Notes>(
    rt: &H,
    thread: Option<PromisedHandle<Answered<J, R, N>, Asked<J, R, N>>>,
) -> Option<Answered<J, R, N>>
    ensures { IfSome result (λ a. (p : _) × (option_map (λ t. t.promise) thread ≡ Some p)
        × (Drives a.driven p.caller.value.seat a.caller.seat
        (R.remaining p.caller.value.reader) (R.remaining a.caller.reader) (Some [])
        (Some a.replies.items)
        × IsTold a.driven (R.has_failed a.caller.reader) ⊤)) }
{
    match thread {
        Some(thread) => Some(thread.join(rt)),
        None => None,
    }
}

/// Answers the lines of all callers, each in a thread of its own, as `drive` does. None
/// for one whose thread could not be started. An error if memory runs out for the lists of threads
/// and answers. `ReadFault` is told only of a reader that has failed.
pub fn answer_all<
    J: Row + Send + Sync,
    H: Threads + Wait + Sync,
    R: Source + Send + Drop,
    N: Notes + Send + Drop,
>(
    rt: &H,
    alloc: Global,
    shim: &Shim<J>,
    callers: Vec<Caller<J, R, N>>,
) -> Result<Vec<Option<Answered<J, R, N>>>, AllocError>
    ensures { IfOk result (λ all. AllZip
        (λ c a. IfSome a (λ a. Drives a.driven c.seat a.caller.seat (R.remaining c.reader)
        (R.remaining a.caller.reader) (Some []) (Some a.replies.items)
        × IsTold a.driven (R.has_failed a.caller.reader) ⊤))
        callers.items all.items) }
{
    thread::scope(
        thread::scope_env(),
        rt,
        move |scope| -> Result<Vec<Option<Answered<J, R, N>>>, AllocError>
            requires { IsSend J.row × IsSync J.row × IsSync H.row × IsSend R.row × IsSend N.row }
            ensures { IfOk result (λ all. AllZip
                (λ c a. IfSome a (λ a. Drives a.driven c.seat a.caller.seat (R.remaining c.reader)
                (R.remaining a.caller.reader) (Some []) (Some a.replies.items)
                × IsTold a.driven (R.has_failed a.caller.reader) ⊤))
                callers.items all.items) }
        {
            let mut threads = Vec::with_capacity(alloc, callers.len())?;
            for caller in callers {
                let asked = Asked {
                    caller: Snapshot::of(&caller),
                };
                threads.push(
                    scope
                        .spawn_with(asked, move || answer(rt, alloc, shim, caller))
                        .ok(),
                )?;
            }
            let mut all = Vec::with_capacity(alloc, threads.len())?;
            for thread in threads {
                all.push(finish(rt, thread))?;
            }
            Ok(all)
        },
    )
}
