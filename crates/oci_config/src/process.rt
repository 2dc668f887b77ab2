//! What a task is run with, and what it writes.

ghost use Rattle.std.specs.Prelude.{◌≡◌, ◌≤◌, ◌+◌, ◌-◌, ◌++◌, IfOk, [], length, take, true, false};
ghost use Rattle.oci_config.specs.Limits.{max_output};
ghost use Rattle.oci_config.specs.Processes.{config_of};

use crate::page_cap::PageCap;
use std::alloc::{AllocError, Global};
use std::marker::Model;
use wasm_ast::{Sequence, Text};

/// The most bytes that an output stream takes.
const MAX_OUTPUT: usize = 65_536;

/// What was written to an output stream: at most 65,536 bytes, for which there is room from the start.
/// Contracts see the bytes.
#[derive(Drop)]
pub struct Output {
    bytes: Vec<u8>,
}

impl Model for Output {
    ghost use Rattle.std.specs.Prelude.{List, ℕ, ◌≤◌, vec_len, vec_capacity};
    ghost use Rattle.oci_config.specs.Limits.{max_output};

    ghost Value = { List ℕ };

    ghost view = { λ o. o.bytes.items };

    ghost invariant = { λ o. (vec_len o.bytes ≤ max_output) × (max_output ≤ vec_capacity o.bytes) };
}

impl Output {
    /// A stream to which nothing has been written. An error if its room cannot be allocated.
    pub fn new(alloc: Global) -> Result<Output, AllocError>
        ensures { IfOk result (λ o. o ≡ []) }
    {
        let bytes = Vec::with_capacity(alloc, MAX_OUTPUT)?;
        Ok(Output { bytes })
    }

    /// What was written.
    pub fn as_slice(&self) -> &[u8]
        ensures { result.now ≡ self.now }
    {
        self.bytes.as_slice()
    }

    /// How many more bytes it takes.
    pub fn room(&self) -> usize
        ensures room { result ≡ max_output - length self.now }
        ensures within { length self.now ≤ max_output }
    {
        MAX_OUTPUT - self.bytes.len()
    }

    /// Appends as many of these bytes as it takes, from the front. No memory is taken.
    pub fn append(&mut self, bytes: &[u8])
        ensures { self.new ≡ self.old ++ take (max_output - length self.old) bytes.now }
    {
        let taken = bytes.len().min(self.room());
        self.bytes.extend_from_slice(&bytes[..taken]).unwrap();
    }
}

/// A process: the digest of its module, its arguments, its environment, the most pages that its memory
/// may have, and what it has written to its two output streams.
#[derive(Drop)]
pub struct Process {
    pub module: Text,
    pub args: Sequence<Text>,
    pub env: Sequence<Text>,
    pub cap: PageCap,
    pub out: Output,
    pub err: Output,
}

impl Process {
    /// What it was configured with. An error if that cannot be allocated.
    pub fn config(&self, alloc: Global) -> Result<ProcessConfig, AllocError>
        ensures { IfOk result (λ p. p ≡ config_of self.now) }
    {
        Ok(ProcessConfig {
            module: self.module.copy(alloc)?,
            args: Sequence::new(copy_texts(alloc, self.args.as_slice())?),
            env: Sequence::new(copy_texts(alloc, self.env.as_slice())?),
            cap: self.cap.pages(),
        })
    }
}

/// A process as it is configured: the digest of its module, its arguments, its environment, and the
/// most pages that its memory may have.
#[derive(Drop)]
pub struct ProcessConfig {
    pub module: Text,
    pub args: Sequence<Text>,
    pub env: Sequence<Text>,
    pub cap: u32,
}

impl ProcessConfig {
    /// The same configuration, in memory of its own. An error if that cannot be allocated.
    pub fn copy(&self, alloc: Global) -> Result<ProcessConfig, AllocError>
        ensures { IfOk result (λ p. p ≡ self.now) }
    {
        Ok(ProcessConfig {
            module: self.module.copy(alloc)?,
            args: Sequence::new(copy_texts(alloc, self.args.as_slice())?),
            env: Sequence::new(copy_texts(alloc, self.env.as_slice())?),
            cap: self.cap,
        })
    }

    /// Whether both are the same configuration.
    pub fn is(&self, other: &ProcessConfig) -> bool
        ensures same { result ≡ true → self.now ≡ other.now }
        ensures different { result ≡ false → self.now ≡ other.now → ⊥ }
    {
        self.module.is(&other.module)
            && are_same(self.args.as_slice(), other.args.as_slice())
            && are_same(self.env.as_slice(), other.env.as_slice())
            && self.cap == other.cap
    }
}

fn are_same(texts: &[Text], others: &[Text]) -> bool
    ensures same { result ≡ true → texts.now ≡ others.now }
    ensures different { result ≡ false → texts.now ≡ others.now → ⊥ }
{
    if texts.len() != others.len() {
        return false;
    }
    for i in 0..texts.len() {
        if !texts[i].is(&others[i]) {
            return false;
        }
    }
    true
}

fn copy_texts(alloc: Global, texts: &[Text]) -> Result<Vec<Text>, AllocError>
    ensures { IfOk result (λ v. v.items ≡ texts.now) }
{
    let mut copies = Vec::with_capacity(alloc, texts.len())?;
    for text in texts {
        copies.push(text.copy(alloc)?)?;
    }
    Ok(copies)
}
