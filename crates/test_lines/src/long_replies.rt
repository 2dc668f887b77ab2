//! Long replies: none is held back.

use crate::checks::check_count;
use crate::driven::drives;
use callers::Driven;
use std::alloc::Global;
use std::cell::Cell;
use std::process::Abort;
use std::sync::Wait;
use std::test::Fail;
use test_streams::{CountingWriter, PoliteReader, output_lines};

// A client that has asked for an output asks no more before it has read that.
fn check_polite<H: Wait + Abort>(rt: &H, alloc: Global, lines: &[u8]) -> Result<(), Fail> {
    let flushed = Cell::new(0);
    let mut reader = PoliteReader::new(lines, &flushed);
    let mut writer = CountingWriter::new(&flushed);
    let driven = drives(rt, alloc, &mut reader, &mut writer)?;
    assert_eq!(rt; driven, Driven::End);
    check_count(rt, "replies", flushed.get(), 6);
    Ok(())
}

#[test]
fn no_long_reply_is_held_back(rt: HostRuntime) -> Result<(), Fail> {
    let lines = output_lines(rt.alloc(), 2)?;
    check_polite(&rt, rt.alloc(), lines.as_slice())
}
