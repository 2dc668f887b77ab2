//! Lines of the log that were written out by hand.

use jiff::Timestamp;
use shim_log::{By, Format, Line, Moment};
use std::alloc::{AllocError, Global};
use std::process::Abort;
use std::time::Duration;

// Why a test could not be run to its end.
#[derive(Debug, Drop)]
enum Fail {
    Alloc,
    Time,
}

impl From<AllocError> for Fail {
    fn from(_error: AllocError) -> Fail {
        Fail::Alloc
    }
}

impl From<jiff::Error> for Fail {
    fn from(_error: jiff::Error) -> Fail {
        Fail::Time
    }
}

// Half a second past nine in the morning of 28 November 2026, and 72 seconds and 271 microseconds after the
// program began.
fn moment() -> Result<Moment, Fail> {
    Ok(Moment {
        wall: Some(Timestamp::from_microsecond(1_795_856_400_500_000)?),
        since: Some(Duration::from_micros(72_000_271)),
    })
}

// When no clock can be read.
fn never() -> Moment {
    Moment {
        wall: None,
        since: None,
    }
}

// The line of a task's end.
fn end_line(
    alloc: Global,
    format: Format,
    moment: Moment,
    by: By<'_>,
) -> Result<String, AllocError> {
    let line = Line::new(alloc, format, moment, by, "ended")?;
    let named = line.with_text("id", "a")?;
    named.with_number(alloc, "turns", 2)?.finish()
}

// Asserts that the line of a task's end is the one that is wanted.
fn check_end(
    rt: &impl Abort,
    alloc: Global,
    format: Format,
    moment: Moment,
    by: By<'_>,
    wanted: &str,
) -> Result<(), Fail> {
    let line = end_line(alloc, format, moment, by)?;
    assert_eq!(rt; line.as_str(), wanted);
    Ok(())
}

// The same, at a moment that is known.
fn check_now(
    rt: &impl Abort,
    alloc: Global,
    format: Format,
    by: By<'_>,
    wanted: &str,
) -> Result<(), Fail> {
    let now = moment()?;
    check_end(rt, alloc, format, now, by, wanted)
}

// The line of an event with this text.
fn text_line(alloc: Global, format: Format, name: &str, value: &str) -> Result<String, AllocError> {
    let line = Line::new(alloc, format, never(), By::Caller(name), "refused")?;
    line.with_text("id", value)?.finish()
}

// Asserts that the line of a text is the one that is wanted.
fn check_text(
    rt: &impl Abort,
    alloc: Global,
    format: Format,
    name: &str,
    value: &str,
    wanted: &str,
) -> Result<(), Fail> {
    let line = text_line(alloc, format, name, value)?;
    assert_eq!(rt; line.as_str(), wanted);
    Ok(())
}

#[test]
fn a_line_of_the_one_caller(rt: HostRuntime) -> Result<(), Fail> {
    let wanted = "log: 2026-11-28T09:00:00.500000Z 72.000271 line 4 ended id=a turns=2\n";
    check_now(&rt, rt.alloc(), Format::Text, By::Line("", 4), wanted)
}

#[test]
fn a_line_of_a_caller_with_a_name(rt: HostRuntime) -> Result<(), Fail> {
    let wanted = "log: 2026-11-28T09:00:00.500000Z 72.000271 x.jsonl line 4 ended id=a turns=2\n";
    check_now(
        &rt,
        rt.alloc(),
        Format::Text,
        By::Line("x.jsonl", 4),
        wanted,
    )
}

#[test]
fn a_line_of_a_worker(rt: HostRuntime) -> Result<(), Fail> {
    let wanted = "log: 2026-11-28T09:00:00.500000Z 72.000271 worker ended id=a turns=2\n";
    check_now(&rt, rt.alloc(), Format::Text, By::Worker, wanted)
}

#[test]
fn json_of_a_caller_with_a_name(rt: HostRuntime) -> Result<(), Fail> {
    let wanted =
        "{\"time\":\"2026-11-28T09:00:00.500000Z\",\"seconds\":72.000271,\"event\":\"ended\",\"caller\":\"x.jsonl\",\"line\":4,\"id\":\"a\",\"turns\":2}\n";
    check_now(
        &rt,
        rt.alloc(),
        Format::Json,
        By::Line("x.jsonl", 4),
        wanted,
    )
}

#[test]
fn json_of_a_worker(rt: HostRuntime) -> Result<(), Fail> {
    let wanted =
        "{\"time\":\"2026-11-28T09:00:00.500000Z\",\"seconds\":72.000271,\"event\":\"ended\",\"id\":\"a\",\"turns\":2}\n";
    check_now(&rt, rt.alloc(), Format::Json, By::Worker, wanted)
}

#[test]
fn clocks_that_fail(rt: HostRuntime) -> Result<(), Fail> {
    let wanted = "log: - - x.jsonl ended id=a turns=2\n";
    check_end(
        &rt,
        rt.alloc(),
        Format::Text,
        never(),
        By::Caller("x.jsonl"),
        wanted,
    )
}

#[test]
fn clocks_that_fail_in_json(rt: HostRuntime) -> Result<(), Fail> {
    let wanted = "{\"time\":\"-\",\"seconds\":null,\"event\":\"ended\",\"id\":\"a\",\"turns\":2}\n";
    check_end(
        &rt,
        rt.alloc(),
        Format::Json,
        never(),
        By::Caller(""),
        wanted,
    )
}

// Neither a name nor a value ends a line.
#[test]
fn nothing_is_forged(rt: HostRuntime) -> Result<(), Fail> {
    let wanted = "log: - - x?log:  refused id=a?[2J??\n";
    check_text(
        &rt,
        rt.alloc(),
        Format::Text,
        "x\nlog: ",
        "a\u{1b}[2J\r\n",
        wanted,
    )
}

// Neither ends a string of JSON.
#[test]
fn nothing_is_forged_in_json(rt: HostRuntime) -> Result<(), Fail> {
    let wanted =
        "{\"time\":\"-\",\"seconds\":null,\"event\":\"refused\",\"caller\":\"x\\\"\\\\?\",\"id\":\"\\\"}\"}\n";
    check_text(&rt, rt.alloc(), Format::Json, "x\"\\\n", "\"}", wanted)
}
