//! What the arguments and the environment of a process have to be, and what a command line gives a task.

use crate::texts::{Told, or};
use oci_config::process_under;
use std::alloc::{AllocError, Global};
use wasm_ast::Text;

/// The most arguments of a process, and the most entries of its environment.
const MOST_TEXTS: usize = 64;

/// The most bytes of all arguments and entries together, one more counted for each.
const MOST_TEXT_BYTES: usize = 65_536;

/// What a reason says before and after the count of a list of texts, and before and after the number of a
/// text; and the number of the first text.
pub type Listed = ([&'static str; 2], [&'static str; 2], usize);

// What is said of a text that is no entry of an environment.
fn entry_fault(text: &str) -> &'static str {
    match text.as_bytes().split_first() {
        Some((_first, rest)) if rest.contains(&b'=') => "",
        Some((b'=', _rest)) => ": nothing before \"=\"",
        _ => ": no \"=\"",
    }
}

// The first of these texts with a NUL byte or, if they are to be `named`, that is no entry of an environment.
fn why_text(alloc: Global, of: Listed, texts: &[&str], named: bool) -> Told {
    for (i, text) in texts.iter().enumerate() {
        let fault = match named {
            true => entry_fault(*text),
            false if text.as_bytes().contains(&0) => " has a NUL byte",
            false => "",
        };
        if !fault.is_empty() {
            let (_, [before, after], first) = of;
            let number = i.saturating_add(first);
            return format!(in alloc; "{before}{number}{after}{fault}");
        }
    }
    Ok(String::new(alloc))
}

/// Why these are no arguments of a process; an empty text if they can be.
pub fn why_args(alloc: Global, of: Listed, texts: &[&str]) -> Told {
    let ([before, after], _, _) = of;
    let count = texts.len();
    if count > MOST_TEXTS {
        return format!(in alloc; "{before}{count}{after}, and the limit is {MOST_TEXTS}");
    }
    why_text(alloc, of, texts, false)
}

/// Why these are not the entries of an environment; an empty text if they can be.
pub fn why_env(alloc: Global, of: Listed, texts: &[&str]) -> Told {
    or(why_args(alloc, of, texts), why_text(alloc, of, texts, true))
}

// The bytes of texts, one more counted for each.
fn bytes_of(texts: &[&str]) -> usize {
    let mut bytes = texts.len();
    for text in texts {
        bytes = bytes.saturating_add(text.len());
    }
    bytes
}

/// That arguments and environment, by this name and each a text of this kind, have too many bytes; an empty
/// text if they have not.
pub fn why_bytes(alloc: Global, name: &str, kind: &str, args: &[&str], env: &[&str]) -> Told {
    let bytes = bytes_of(args).saturating_add(bytes_of(env));
    if bytes <= MOST_TEXT_BYTES {
        return Ok(String::new(alloc));
    }
    format!(in alloc;
        "{name} have {bytes} bytes, one more counted for each{kind}, and the limit is {MOST_TEXT_BYTES}"
    )
}

/// What a command line gives a task: the name of its file, the words after it, the entries of its
/// environment, and the limit on its memory in bytes, if there is one.
#[derive(Clone, Copy)]
pub struct TaskWords<'a> {
    pub name: &'a str,
    pub args: &'a [String],
    pub env: &'a [String],
    pub limit: Option<u64>,
}

const COUNTED: &str = " arguments, the name of the module counted";

const ARGS: Listed = (["", COUNTED], ["argument ", ""], 0);

const ENV: Listed = (["", " times --env"], ["--env ", ""], 1);

/// The most pages of a memory under a limit in bytes, if there is one: those of a process with one argument.
pub fn pages_under(alloc: Global, limit: Option<u64>) -> Result<u64, AllocError> {
    let mut args = Vec::new(alloc);
    args.push(Text::new(String::new(alloc)))?;
    match process_under(alloc, args, Vec::new(alloc), limit) {
        Ok(process) => Ok(u64::from(process.cap.pages())),
        Err(_) => Err(AllocError),
    }
}

fn add<'a>(list: &mut Vec<&'a str>, texts: &'a [String]) -> Result<(), AllocError> {
    for text in texts {
        list.push(text.as_str())?;
    }
    Ok(())
}

/// Why no process can have these words, in one line without its line feed; an empty text if one can.
/// Arguments are counted from 0, the name of the file, and entries from 1.
pub fn why_words(alloc: Global, words: &TaskWords<'_>) -> Told {
    let mut args = Vec::new(alloc);
    args.push(words.name)?;
    add(&mut args, words.args)?;
    let mut env = Vec::new(alloc);
    add(&mut env, words.env)?;
    let (args, env) = (args.as_slice(), env.as_slice());
    let bytes = why_bytes(alloc, "arguments and environment", "", args, env);
    let text = or(why_args(alloc, ARGS, args), why_env(alloc, ENV, env));
    or(text, bytes)
}
