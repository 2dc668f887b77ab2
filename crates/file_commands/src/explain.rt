//! The line that says why a file was refused.

ghost use Rattle.std.specs.Prelude.{◌≡◌, ◌≢◌, ◌++◌, List, ℕ, IsTrue, IfOk, IfErr, IfSome, OnOk, codes, string_bytes};
ghost use Rattle.wasm_ast.specs.declared.refusal.Refusal.TheVariants as refusals;
ghost use Rattle.file_commands.specs.Ran.{line, refused, refused_run};
ghost use Rattle.file_commands.specs.Explained.{IsOneLine, IsToldWhy};
ghost use Rattle.file_commands.specs.Inside.Written.{IsTold};

use crate::ran::Ran;
use reasons::{TaskWords, why_file, why_run};
use std::alloc::{AllocError, Global};
use wasm_ast::{Refusal, Sequence};

// `why: REASON`, as a line.
fn why_line(alloc: Global, reason: &str) -> Result<String, AllocError>
    ensures { IfOk result (λ s. string_bytes s ≡ line (codes "why: " ++ reason.now)) }
{
    let mut text = String::from_str(alloc, "why: ")?;
    text.push_str(reason)?;
    text.push_str("\n")?;
    Ok(text)
}

// Whether a text has no line feed.
fn is_one_line(text: &str) -> bool
    ensures { IsTrue result → IsOneLine text.now }
{
    !text.as_bytes().contains(&b'\n')
}

// Why a file with these bytes is refused so or, if it was to be a task, why none can be made of it with what
// the command line gives it; an empty text if no reason is found, or no memory for it.
fn reason_of(
    alloc: Global,
    bytes: &[u8],
    task: Option<&TaskWords<'_>>,
    refusal: Refusal,
) -> String {
    let found = match task {
        Some(words) => why_run(alloc, bytes, words, refusal),
        None => why_file(alloc, bytes, refusal),
    };
    match found {
        Ok(reason) => reason,
        Err(_) => String::new(alloc),
    }
}

// The line of a reason, if there is one and memory for it.
fn reason_line(alloc: Global, reason: &str) -> Option<String>
    ensures { IfSome result (λ s. (reason : List ℕ) × IsOneLine reason
        × (string_bytes s ≡ line (codes "why: " ++ reason))) }
{
    if reason.is_empty() || !is_one_line(reason) {
        return None;
    }
    match why_line(alloc, reason) {
        Ok(text) => Some(text),
        Err(_) => None,
    }
}

// What a command writes, with this line after it if there is memory for it.
fn with_line(plain: Ran, text: &str) -> Ran
    ensures { (reason : List ℕ) → IsOneLine reason → text.now ≡ line (codes "why: " ++ reason)
        → IsToldWhy plain result }
{
    let Ran { out, err, status } = plain;
    let mut err = err.into_vec();
    let _added = err.extend_from_slice(text.as_bytes());
    Ran {
        out,
        err: Sequence::new(err),
        status,
    }
}

// What a refused command writes, with the line of a reason if it is not empty and there is memory for it.
fn with_reason(alloc: Global, plain: Ran, reason: &str) -> Ran
    ensures { IsToldWhy plain result }
{
    match reason_line(alloc, reason) {
        Some(line) => with_line(plain, line.as_str()),
        None => plain,
    }
}

// What a refused command writes: `plain` and, if `explain` holds, the line of the reason, if one is found.
fn told(
    alloc: Global,
    plain: Ran,
    bytes: &[u8],
    task: Option<&TaskWords<'_>>,
    refusal: Refusal,
    explain: bool,
) -> Ran
    ensures { IsTold explain plain result }
{
    if explain {
        let reason = reason_of(alloc, bytes, task, refusal);
        with_reason(alloc, plain, reason.as_str())
    } else {
        plain
    }
}

/// Of `asm` or `check`, for a file with these bytes; with the line of a reason if `explain` holds and one is
/// found. `NoMemory` is handed on.
pub(crate) fn refused_why(
    alloc: Global,
    bytes: &[u8],
    task: Option<&TaskWords<'_>>,
    refusal: Refusal,
    explain: bool,
) -> Result<Ran, Refusal>
    ensures ran { IfOk result (IsTold explain (refused refusal)) }
    ensures told { OnOk result (refusal ≢ refusals.NoMemory) }
    ensures errors { IfErr result (λ e. e ≡ refusals.NoMemory) }
{
    match Ran::refused(alloc, refusal) {
        Ok(plain) => Ok(told(alloc, plain, bytes, task, refusal, explain)),
        Err(error) => Err(error),
    }
}

/// Of `run`, if there is no task; with the line of a reason if `explain` holds and one is found.
/// `NoMemory` is handed on.
pub(crate) fn refused_run_why(
    alloc: Global,
    bytes: &[u8],
    task: &TaskWords<'_>,
    refusal: Refusal,
    explain: bool,
) -> Result<Ran, Refusal>
    ensures ran { IfOk result (IsTold explain (refused_run refusal)) }
    ensures told { OnOk result (refusal ≢ refusals.NoMemory) }
    ensures errors { IfErr result (λ e. e ≡ refusals.NoMemory) }
{
    match Ran::refused_run(alloc, refusal) {
        Ok(plain) => Ok(told(alloc, plain, bytes, Some(task), refusal, explain)),
        Err(error) => Err(error),
    }
}
