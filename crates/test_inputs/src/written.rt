//! What command lines write, and bytes and texts as lines of the input have them.

use anyhow::{Result, bail};
use file_commands::{Command, CommandError, command_of, file_of, perform};
use std::alloc::{AllocError, Global};

/// The name of each file.
pub const NAME: &str = "m";

/// The status of a command line that is refused.
const USAGE: u8 = 2;

/// What a command line writes to each stream, and its status.
#[derive(Drop)]
pub struct Written {
    pub out: Vec<u8>,
    pub err: Vec<u8>,
    pub status: u8,
}

/// The bytes of a text in which `\n` is a line feed.
pub fn text_of(alloc: Global, text: &str) -> Result<Vec<u8>, AllocError> {
    let mut bytes = Vec::new(alloc);
    for (i, line) in text.split("\\n").enumerate() {
        bytes.extend_from_slice(if i == 0 { b"" } else { b"\n" })?;
        bytes.extend_from_slice(line.as_bytes())?;
    }
    Ok(bytes)
}

/// Bytes in hexadecimal digits or, after `text `, as a text.
pub fn bytes_of(alloc: Global, written: &str) -> Result<Vec<u8>> {
    if let Some(text) = written.strip_prefix("text ") {
        return Ok(text_of(alloc, text)?);
    }
    match hex::decode(alloc, written) {
        Ok(bytes) => Ok(bytes),
        Err(_) => bail!("digits"),
    }
}

// The program's name and the words of a command line.
fn words_of(alloc: Global, line: &str) -> Result<Vec<String>, AllocError> {
    let mut words = Vec::new(alloc);
    words.push(String::from_str(alloc, "wasm-shim")?)?;
    for word in line.split_whitespace() {
        words.push(String::from_str(alloc, word)?)?;
    }
    Ok(words)
}

// What a command writes. Its file has these bytes, if it is the one that has a name.
fn performed(alloc: Global, command: &Command, bytes: &[u8]) -> Result<Written> {
    let bytes = if file_of(command) == Some(NAME) {
        bytes
    } else {
        &[]
    };
    let mut out = Vec::new(alloc);
    let mut err = Vec::new(alloc);
    let status = perform(alloc, command, bytes, &mut out, &mut err)?;
    Ok(Written { out, err, status })
}

// What the program writes of a command line that is refused.
fn refused(alloc: Global, error: &CommandError) -> Result<Written> {
    let text = format!(in alloc; "{error}")?;
    Ok(Written {
        out: Vec::new(alloc),
        err: text.into_bytes(),
        status: USAGE,
    })
}

/// What a command line writes. The file of the name `m` has these bytes.
pub fn written_by(alloc: Global, line: &str, bytes: &[u8]) -> Result<Written> {
    let words = words_of(alloc, line)?;
    match command_of(alloc, words.as_slice()) {
        Ok(command) => performed(alloc, &command, bytes),
        Err(error) => refused(alloc, &error),
    }
}
