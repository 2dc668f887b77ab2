//! Long replies: any number of them is kept for a script.

use crate::serving::{Told, check_text, empty_text, names, served};
use serve_command::Work;
use std::alloc::Global;
use std::cell::Cell;
use std::process::Abort;
use std::sync::Wait;
use std::test::Fail;
use std::thread::Threads;
use std::time::Clock;
use test_streams::{ChunkedReader, CountingWriter, FailingWriter, output_lines};

/// How many replies with the output of a task are more than 16 MiB.
const MANY: usize = 130;

// Two scripts, of which the first has more than 16 MiB of replies.
fn check_kept<H: Threads + Wait + Clock + Abort + Copy + Send + Sync + 'static>(
    rt: H,
    alloc: Global,
    long: &'static [u8],
) -> Result<(), Fail> {
    let (count, said) = (Cell::new(0), empty_text(alloc)?);
    let mut readers = Vec::new(alloc);
    readers.push(ChunkedReader::new(long))?;
    readers.push(ChunkedReader::new(b"{}\n".as_slice()))?;
    let output = CountingWriter::new(&count);
    let names = names(alloc, ["x", "y"].as_slice())?;
    let work: Work<ChunkedReader<'static>, FailingWriter, CountingWriter<'_>> = Work::Scripts(
        names, readers, output,
    );
    assert_eq!(rt; served(rt, alloc, said, Told::Nothing, work), 0);
    check_text(rt, said, "");
    assert_eq!(rt; count.get(), MANY + 5);
    Ok(())
}

#[test]
fn a_script_may_have_many_long_replies(rt: HostRuntime) -> Result<(), Fail> {
    let long = output_lines(rt.alloc(), MANY)?;
    check_kept(rt, rt.alloc(), long.leak())
}
