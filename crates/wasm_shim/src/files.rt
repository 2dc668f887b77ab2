//! The commands that read a file, or none.

use serve_command::{OUT_OF_MEMORY, failed, stream_failed};
use shim_service::{Command, RunError, file_of, perform};
use std::fs::File;
use std::io::{Read, Write};
use std::{fs, io};

// One byte more than a module in the binary format may have.
const MODULE_FRONT: u64 = 262_145;

// Reads a file to its end, but of a module in the binary format no more than it takes to see that it is
// too long: such a file may be of any size, and is refused all the same.
fn read_module(rt: &HostRuntime, file: &str) -> io::Result<Vec<u8>> {
    let mut bytes = Vec::new(rt.alloc());
    let mut front = File::open(rt, file)?.take(MODULE_FRONT);
    front.read_to_end(&mut bytes)?;
    if bytes.first() == Some(&0) {
        return Ok(bytes);
    }
    front.into_inner().read_to_end(&mut bytes)?;
    Ok(bytes)
}

// The bytes of the file that a command reads, or the status of the program that cannot read it.
fn bytes_for(rt: &HostRuntime, command: &Command) -> Result<Vec<u8>, u8> {
    let Some(file) = file_of(command) else {
        return Ok(Vec::new(rt.alloc()));
    };
    let read = match command {
        Command::Replay { .. } => fs::read(rt, file),
        _ => read_module(rt, file),
    };
    match read {
        Ok(bytes) => Ok(bytes),
        Err(error) => Err(stream_failed(rt, file, &error)),
    }
}

// Ends with what a command came to. If standard error failed, there is nowhere to say so.
fn finish(rt: &HostRuntime, ran: Result<u8, RunError>) -> u8 {
    match ran {
        Ok(status) => status,
        Err(RunError::StandardError(_)) => 1,
        Err(RunError::StandardOutput(error)) => stream_failed(rt, "standard output", &error),
        Err(RunError::OutOfMemory) => failed(rt, OUT_OF_MEMORY),
    }
}

// Writes the bytes that a line of hexadecimal digits stands for to the file of this name, which is made or
// emptied.
fn write_digits(rt: &HostRuntime, name: &str, line: &[u8]) -> u8 {
    let digits = line.strip_suffix(b"\n").unwrap_or(line);
    let Ok(bytes) = hex::decode(rt.alloc(), digits) else {
        return failed(rt, OUT_OF_MEMORY);
    };
    let written = match File::create(rt, name) {
        Ok(mut file) => file.write_all(bytes.as_slice()),
        Err(error) => Err(error),
    };
    match written {
        Ok(()) => 0,
        Err(error) => stream_failed(rt, name, &error),
    }
}

/// Carries out a command that reads a file, or none. The status of the program. An `asm -o` writes
/// the bytes of the module to that file; of a refused module nothing is written, and the file is
/// left as it is.
#[inline(never)]
pub fn carry_out(rt: &HostRuntime, command: &Command) -> u8 {
    let bytes = match bytes_for(rt, command) {
        Ok(bytes) => bytes,
        Err(status) => return status,
    };
    let mut err = rt.stderr();
    if let Command::Asm {
        output: Some(name),
        ..
    } = command
    {
        let mut line = Vec::new(rt.alloc());
        return match perform(rt.alloc(), command, bytes.as_slice(), &mut line, &mut err) {
            Ok(0) => write_digits(rt, name.as_str(), line.as_slice()),
            ran => finish(rt, ran),
        };
    }
    let mut out = rt.stdout();
    let ran = perform(rt.alloc(), command, bytes.as_slice(), &mut out, &mut err);
    finish(rt, ran)
}
