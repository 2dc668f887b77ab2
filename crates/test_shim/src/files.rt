//! What `asm` and `check` answer for bytes at hand, without a command line.

use crate::checks::check_bytes;
use file_commands::{Ran, asm_file, check_file};
use std::process::Abort;
use std::test::Fail;

/// A module of a type, and a function that gives an i32.
const SEVEN: &[u8] = b"(module (type (func (result i32))) (func (type 0) i32.const 7))";

/// Its encoding: the preamble, and the type, function and code section.
const SEVEN_ENCODED: &[u8] = b"0061736d010000000105016000017f030201000a0601040041070b\n";

// Asserts that a file was accepted, and that this was written to standard output.
fn check_accepted(rt: &impl Abort, ran: &Ran, wanted: &[u8]) {
    assert_eq!(rt; ran.status, 0);
    check_bytes(rt, 0, ran.out.as_slice(), wanted);
    check_bytes(rt, 1, ran.err.as_slice(), b"");
}

#[test]
fn bytes_are_assembled(rt: HostRuntime) -> Result<(), Fail> {
    let ran = asm_file(rt.alloc(), SEVEN)?;
    check_accepted(&rt, &ran, SEVEN_ENCODED);
    Ok(())
}

#[test]
fn bytes_are_checked(rt: HostRuntime) -> Result<(), Fail> {
    let ran = check_file(rt.alloc(), SEVEN, false)?;
    check_accepted(&rt, &ran, b"ok\n");
    Ok(())
}

#[test]
fn instructions_are_listed(rt: HostRuntime) -> Result<(), Fail> {
    let ran = check_file(rt.alloc(), SEVEN, true)?;
    check_accepted(&rt, &ran, b"ok\n0 0 i32.const 7\n");
    Ok(())
}
