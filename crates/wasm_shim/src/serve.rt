//! `serve`: its files and streams, opened.

use serve_command::{OUT_OF_MEMORY, Work, failed, stream_failed};
use shim_service::files_of;
use std::fs::File;
use std::io;
use std::io::{Read, Stdin, Stdout};

/// What lines are read from.
#[derive(Drop)]
pub enum Input {
    File(File),
    Standard(Stdin),
}

impl Read for Input {
    fn read(&mut self, buf: &mut [u8]) -> io::Result<usize> {
        match self {
            Input::File(file) => file.read(buf),
            Input::Standard(stdin) => stdin.read(buf),
        }
    }
}

/// What is to be answered, over files and standard streams.
pub type Opened = Work<Input, File, Stdout>;

// What was opened by this name; or it is said why it was not, and the status of the program comes back.
fn opened<T: Drop>(rt: &HostRuntime, name: &str, file: io::Result<T>) -> Result<T, u8> {
    match file {
        Ok(file) => Ok(file),
        Err(error) => Err(stream_failed(rt, name, &error)),
    }
}

/// Opens the file of each script, in order, or standard input if there is none. The status of the program if
/// one cannot be opened.
pub fn open_scripts(rt: &HostRuntime, scripts: &'static [String]) -> Result<Opened, u8> {
    let mut inputs = Vec::new(rt.alloc());
    for script in scripts {
        let file = opened(rt, script.as_str(), File::open(rt, script.as_str()))?;
        if inputs.push(Input::File(file)).is_err() {
            return Err(failed(rt, OUT_OF_MEMORY));
        }
    }
    if scripts.len() > 1 {
        return Ok(Work::Scripts(scripts, inputs, rt.stdout()));
    }
    match (scripts.first(), inputs.pop()) {
        (Some(name), Some(input)) => Ok(Work::Stream(name.as_str(), input, rt.stdout())),
        _ => {
            let input = Input::Standard(rt.stdin());
            Ok(Work::Stream("standard input", input, rt.stdout()))
        }
    }
}

/// Opens the two files of each word, in order: that of the lines of a caller, and that for its
/// replies, which is made or emptied. The status of the program if one cannot be opened.
pub fn open_callers(rt: &HostRuntime, words: &'static [String]) -> Result<Opened, u8> {
    let mut callers = Vec::new(rt.alloc());
    for word in words {
        let Some((lines, replies)) = files_of(word.as_str()) else {
            return Err(stream_failed(rt, word.as_str(), &"it names no two files"));
        };
        let input = Input::File(opened(rt, lines, File::open(rt, lines))?);
        let output = opened(rt, replies, File::create(rt, replies))?;
        if callers.push(((lines, replies), input, output)).is_err() {
            return Err(failed(rt, OUT_OF_MEMORY));
        }
    }
    Ok(Work::Live(callers))
}
