//! What `run` writes to two streams as it comes, and streams that fail.

use crate::checks::{check_bytes, check_text};
use crate::writers::FailingWriter;
use file_commands::{Command, CommandError, Ran, RunError, Settings, perform, run_file};
use std::alloc::{AllocError, Global};
use std::process::Abort;
use std::test::Fail;

/// What is before the body of an entry, which may have a local: a function that writes `x` to a stream.
const BEFORE: &str = "(module
  (type $w (func (param i32 i32 i32 i32) (result i32)))
  (type $p (func (param i32)))
  (type $v (func))
  (import \"wasi_snapshot_preview1\" \"fd_write\" (func $write (type $w)))
  (memory 1)
  (data (offset i32.const 0) \"\\08\\00\\00\\00\\01\\00\\00\\00x\")
  (func $put (type $p) local.get 0 i32.const 0 i32.const 1 i32.const 32 call $write drop)
  (func $s (type $v) (local i32)
";

/// What is after it.
const AFTER: &str = ")
  (export \"_start\" (func $s))
  (export \"memory\" (memory 0)))
";

/// A body that writes to both streams, makes 2,000,000 turns, writes to both again, and traps.
const BOTH_AND_TRAP: &str = "
  i32.const 1 call $put i32.const 2 call $put
  i32.const 400000 local.set 0
  loop local.get 0 i32.const 1 i32.sub local.tee 0 br_if 0 end
  i32.const 1 call $put i32.const 2 call $put unreachable
";

/// One that writes to standard output, makes 2,000,000 turns, writes to standard error and goes on for ever.
const BOTH_IN_TURN: &str = "
  i32.const 1 call $put
  i32.const 400000 local.set 0
  loop local.get 0 i32.const 1 i32.sub local.tee 0 br_if 0 end
  i32.const 2 call $put
  loop br 0 end
";

/// Bodies that write to both streams in one slice, in each order.
const OUTPUT_FIRST: &str = "i32.const 1 call $put i32.const 2 call $put unreachable";

const ERROR_FIRST: &str = "i32.const 2 call $put i32.const 1 call $put unreachable";

/// One that writes in its turns 7 and 1,000,001.
const TWO_SLICES: &str = "
  i32.const 1 call $put
  i32.const 166664 local.set 0
  loop local.get 0 i32.const 1 i32.sub local.tee 0 br_if 0 end
  i32.const 1 call $put
";

/// A task whose stream fails after some bytes, and what was written before that.
struct Failure {
    body: &'static str,
    out_room: usize,
    err_room: usize,
    cause: &'static str,
    out: &'static str,
    err: &'static str,
}

const FAILURES: &[Failure] = &[
    Failure {
        body: "i32.const 1 call $put loop br 0 end",
        out_room: 0,
        err_room: 0,
        cause: "standard output",
        out: "",
        err: "",
    },
    Failure {
        body: "i32.const 2 call $put loop br 0 end",
        out_room: 0,
        err_room: 0,
        cause: "standard error",
        out: "",
        err: "",
    },
    Failure {
        body: BOTH_IN_TURN,
        out_room: 1,
        err_room: 0,
        cause: "standard error",
        out: "x",
        err: "",
    },
    // Standard output comes first, whichever the task wrote to first.
    Failure {
        body: OUTPUT_FIRST,
        out_room: 0,
        err_room: 1,
        cause: "standard output",
        out: "",
        err: "",
    },
    Failure {
        body: ERROR_FIRST,
        out_room: 0,
        err_room: 1,
        cause: "standard output",
        out: "",
        err: "",
    },
    Failure {
        body: ERROR_FIRST,
        out_room: 1,
        err_room: 0,
        cause: "standard error",
        out: "x",
        err: "",
    },
    Failure {
        body: "unreachable",
        out_room: 0,
        err_room: 3,
        cause: "standard error",
        out: "",
        err: "tra",
    },
    Failure {
        body: "call 9",
        out_room: 0,
        err_room: 7,
        cause: "standard error",
        out: "",
        err: "refused",
    },
];

fn framed(alloc: Global, body: &str) -> Result<String, AllocError> {
    let mut text = String::from_str(alloc, BEFORE)?;
    text.push_str(body)?;
    text.push_str(AFTER)?;
    Ok(text)
}

// The command `run m`.
fn run_command(alloc: Global) -> Result<Command, AllocError> {
    Ok(Command::Run {
        module: String::from_str(alloc, "m")?,
        args: Vec::new(alloc),
        settings: Settings::none(alloc),
        explain: false,
    })
}

// Why a run was given up.
fn cause(ran: &Result<u8, RunError>) -> &'static str {
    match ran {
        Ok(_) => "none",
        Err(RunError::OutOfMemory) => "out of memory",
        Err(RunError::StandardOutput(_)) => "standard output",
        Err(RunError::StandardError(_)) => "standard error",
    }
}

fn check_failure(rt: &impl Abort, alloc: Global, at: usize, row: &Failure) -> Result<(), Fail> {
    let file = framed(alloc, row.body)?;
    let mut out = FailingWriter::new(alloc, row.out_room);
    let mut err = FailingWriter::new(alloc, row.err_room);
    let command = run_command(alloc)?;
    let ran = perform(alloc, &command, file.as_bytes(), &mut out, &mut err);
    check_text(rt, row.body, cause(&ran), row.cause);
    check_bytes(rt, at, out.as_slice(), row.out.as_bytes());
    assert!(rt; out.is_flushed(), "{at}");
    check_bytes(rt, at, err.as_slice(), row.err.as_bytes());
    Ok(())
}

// A task goes on only as long as its streams take what it writes: most of these would never end.
#[test]
fn a_stream_fails_while_its_task_runs(rt: HostRuntime) -> Result<(), Fail> {
    for (at, row) in FAILURES.iter().enumerate() {
        check_failure(&rt, rt.alloc(), at, row)?;
    }
    Ok(())
}

fn check_ran(rt: &impl Abort, alloc: Global, file: &str, wanted: &Ran) -> Result<(), Fail> {
    let mut out = FailingWriter::new(alloc, usize::MAX);
    let mut err = FailingWriter::new(alloc, usize::MAX);
    let command = run_command(alloc)?;
    let status = perform(alloc, &command, file.as_bytes(), &mut out, &mut err)?;
    assert_eq!(rt; status, wanted.status, "{file}");
    check_bytes(rt, 0, out.as_slice(), wanted.out.as_slice());
    check_bytes(rt, 0, err.as_slice(), wanted.err.as_slice());
    assert!(rt; out.is_flushed() && err.is_flushed(), "{file}");
    Ok(())
}

// A slice has at most 1,000,000 turns: what is written after them comes by itself.
#[test]
fn a_slice_of_a_run_ends(rt: HostRuntime) -> Result<(), Fail> {
    let alloc = rt.alloc();
    let file = framed(alloc, TWO_SLICES)?;
    let mut out = FailingWriter::new(alloc, usize::MAX);
    let mut err = FailingWriter::new(alloc, usize::MAX);
    let command = run_command(alloc)?;
    let status = perform(alloc, &command, file.as_bytes(), &mut out, &mut err)?;
    assert_eq!(rt; status, 0);
    check_bytes(&rt, 0, out.as_slice(), b"xx");
    assert_eq!(rt; out.writes(), 2);
    Ok(())
}

#[test]
fn streams_are_those_of_the_file(rt: HostRuntime) -> Result<(), Fail> {
    let alloc = rt.alloc();
    let file = framed(alloc, BOTH_AND_TRAP)?;
    let wanted = run_file(alloc, "m", file.as_bytes(), &[], &Settings::none(alloc))?;
    assert_eq!(rt; wanted.status, 134);
    check_bytes(&rt, 0, wanted.out.as_slice(), b"xx");
    check_bytes(&rt, 0, wanted.err.as_slice(), b"xxtrap: unreachable\n");
    check_ran(&rt, alloc, file.as_str(), &wanted)
}

/// Writes 65,536 zeros to standard output and traps.
const FILL_AND_TRAP: &str =
    "(module (type $w (func (param i32 i32 i32 i32) (result i32))) (type $v (func)) (import \"wasi_snapshot_preview1\" \"fd_write\" (func $write (type $w))) (memory 2) (data (offset i32.const 65536) \"\\00\\00\\00\\00\\00\\00\\01\\00\") (func $s (type $v) i32.const 1 i32.const 65536 i32.const 1 i32.const 65552 call $write drop unreachable) (export \"_start\" (func $s)) (export \"memory\" (memory 0)))";

#[test]
fn a_full_stream_is_told(rt: HostRuntime) -> Result<(), Fail> {
    let alloc = rt.alloc();
    let settings = Settings::none(alloc);
    let ran = run_file(alloc, "m", FILL_AND_TRAP.as_bytes(), &[], &settings)?;
    assert_eq!(rt; ran.status, 134);
    assert_eq!(rt; ran.out.len(), 65_536);
    check_bytes(
        &rt,
        0,
        ran.err.as_slice(),
        b"trap: unreachable\nstandard output is full: 65536 bytes\n",
    );
    check_ran(&rt, alloc, FILL_AND_TRAP, &ran)
}

#[test]
fn a_refused_file_is_one_line(rt: HostRuntime) -> Result<(), Fail> {
    let alloc = rt.alloc();
    let wanted = run_file(alloc, "m", b"(module", &[], &Settings::none(alloc))?;
    assert_eq!(rt; wanted.status, 125);
    check_bytes(&rt, 0, wanted.out.as_slice(), b"");
    check_bytes(&rt, 0, wanted.err.as_slice(), b"refused 18 BadText\n");
    check_ran(&rt, alloc, "(module", &wanted)
}

#[test]
fn a_command_names_the_stream_that_failed(rt: HostRuntime) -> Result<(), Fail> {
    let alloc = rt.alloc();
    let mut full = FailingWriter::new(alloc, 0);
    let mut other = FailingWriter::new(alloc, usize::MAX);
    let show = Command::Show {
        text: String::from_str(alloc, "x")?,
    };
    let shown = perform(alloc, &show, &[], &mut full, &mut other);
    check_text(
        &rt,
        "a text that is shown",
        cause(&shown),
        "standard output",
    );
    let asm = Command::Asm {
        file: String::from_str(alloc, "m")?,
        output: None,
        explain: false,
    };
    let refused = perform(alloc, &asm, b"(module", &mut other, &mut full);
    check_text(&rt, "a refused file", cause(&refused), "standard error");
    Ok(())
}

#[test]
fn memory_that_ran_out_is_told(rt: HostRuntime) -> Result<(), Fail> {
    let text = CommandError::OutOfMemory.to_string(rt.alloc())?;
    check_text(&rt, "no memory", text.as_str(), "out of memory");
    Ok(())
}

/// How many lines that are no requests a replay answers: some 350 KB.
const MANY_LINES: usize = 8_000;

#[test]
fn a_replay_may_write_much(rt: HostRuntime) -> Result<(), Fail> {
    let alloc = rt.alloc();
    let mut lines = Vec::new(alloc);
    for _ in 0..MANY_LINES {
        lines.extend_from_slice(b"{}\n")?;
    }
    let mut out = FailingWriter::new(alloc, usize::MAX);
    let mut err = FailingWriter::new(alloc, usize::MAX);
    let replay = Command::Replay {
        file: String::from_str(alloc, "m")?,
    };
    let status = perform(alloc, &replay, lines.as_slice(), &mut out, &mut err)?;
    assert_eq!(rt; status, 0);
    let reply = b"{\"error\":\"BadRequest\",\"number\":1,\"ok\":false}\n";
    assert_eq!(rt; out.as_slice().len(), MANY_LINES * reply.len());
    assert!(rt; out.as_slice().starts_with(reply));
    Ok(())
}
