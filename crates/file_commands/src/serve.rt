//! The command `serve`, as the command line has it. Its lines are answered by the program.

ghost use Rattle.std.specs.Prelude.{◌≡◌, ◌∷◌, [], IfOk, Option, is_some, option_map, map, string_bytes, false, ◌||◌, codes};
ghost use Rattle.clap.specs.Matches.{found_of};
ghost use Rattle.clap.specs.Simple.{shape_of};
ghost use Rattle.clap.specs.Walk.{rows_of, rule_of};
ghost use Rattle.clap.specs.declared.builder.command.Command.TheViews.{out-Command as fields_of};
ghost use Rattle.file_commands.specs.Command.{flag_rule, option_rule, number_rule, repeated_rule, script_rule, command_shape, serve_shape, workers_in, is_no_count, is_no_format, IsRead};
ghost use Rattle.file_commands.specs.Inside.Chosen.{IsNumberIn, IsComplete};
ghost use Rattle.file_commands.specs.Callers.{are_unfit};

use crate::arguments::{
    explain_arg, flag_arg, has_flag, number_of, repeated_arg, value_of, words_of,
};
use crate::caller_words::{caller_fault, fault_text};
use crate::command::{Command, bare_command};
use clap::builder::ValueParser;
use clap::{Arg, ArgMatches, Command as Parser};
use std::alloc::{AllocError, Global};

pub(crate) const NAME: &str = "serve";

/// How many workers there are at most.
const MOST_WORKERS: u64 = 16;

/// How many workers there are if no number is given.
const USUAL_WORKERS: u64 = 2;

// What is said of a number of workers that there cannot be.
const OTHER_COUNT: &str =
    "error: the value of '--workers <N>' is a number from 1 to 16\n\nUsage: wasm-shim serve [OPTIONS] [SCRIPT]...\n\nFor more information, try '--help'.\n";

// What is said of a format that the log does not have.
const OTHER_FORMAT: &str =
    "error: the value of '--log-format <FORMAT>' is text or json\n\nUsage: wasm-shim serve [OPTIONS] [SCRIPT]...\n\nFor more information, try '--help'.\n";

// The option `--workers`.
fn workers_arg<'a>(alloc: Global) -> Arg<'a>
    ensures rule { rule_of result ≡ number_rule (codes "workers") 1 16 }
    ensures local { result.global ≡ false }
{
    Arg::new(alloc, "workers")
        .long("workers")
        .value_name("N")
        .value_parser(ValueParser::Unsigned(1, MOST_WORKERS))
        .help("How many workers run the tasks, 1 to 16; 2 without this option")
}

// The flag `--log`.
fn log_arg<'a>(alloc: Global) -> Arg<'a>
    ensures rule { rule_of result ≡ flag_rule (codes "log") }
    ensures local { result.global ≡ false }
{
    flag_arg(
        alloc,
        "log",
        "Also log what becomes of tasks and callers, in lines on standard error",
    )
}

// The option `--log-format`.
fn format_arg<'a>(alloc: Global) -> Arg<'a>
    ensures rule { rule_of result ≡ option_rule (codes "log-format") }
    ensures local { result.global ≡ false }
{
    Arg::new(alloc, "log-format")
        .long("log-format")
        .value_name("FORMAT")
        .help("The format of the log: text, or json; text without this option")
}

// The option `--caller`.
fn caller_arg<'a>(alloc: Global) -> Arg<'a>
    ensures rule { rule_of result ≡ repeated_rule (codes "caller") }
    ensures local { result.global ≡ false }
{
    repeated_arg(
        alloc,
        "caller",
        "IN:OUT",
        "A caller: the lines of IN are answered on OUT, each at once; up to 130 times, and the first owns the shim",
    )
}

// The argument SCRIPT, of which there may be several.
fn script_arg<'a>(alloc: Global) -> Arg<'a>
    ensures rule { rule_of result ≡ script_rule }
    ensures local { result.global ≡ false }
{
    Arg::new(alloc, "SCRIPT").num_args(1..).help(
        "The file of a caller's requests, a line each; without one, standard input is the one caller",
    )
}

// The command with its options for the workers and for standard error.
fn options<'a>(alloc: Global) -> Result<Parser<'a>, AllocError>
    ensures shape { IfOk result (λ p. shape_of p ≡ command_shape (codes "serve")
        (number_rule (codes "workers") 1 16 ∷ flag_rule (codes "explain") ∷ flag_rule (codes "log")
        ∷ option_rule (codes "log-format") ∷ [])) }
    ensures local { IfOk result (λ p. (fields_of p).has_globals ≡ false) }
{
    let command = bare_command(
        alloc,
        NAME,
        "Answer the requests of standard input, or of files, on standard output",
        "Example: wasm-shim serve < examples/first_run.jsonl",
    );
    let counted = command.arg(workers_arg(alloc))?;
    let explained = counted.arg(explain_arg(alloc))?;
    let logged = explained.arg(log_arg(alloc))?;
    logged.arg(format_arg(alloc))
}

/// `serve [--workers N] [--explain] [--log] [--log-format FORMAT] [--caller IN:OUT]* [SCRIPT..]`
pub(crate) fn parser<'a>(alloc: Global) -> Result<Parser<'a>, AllocError>
    ensures shape { IfOk result (λ p. shape_of p ≡ serve_shape) }
    ensures local { IfOk result (λ p. (fields_of p).has_globals ≡ false) }
{
    let called = options(alloc)?.arg(caller_arg(alloc))?;
    called.arg(script_arg(alloc))
}

// The number of workers that was found.
fn workers_of(found: &ArgMatches<'_>) -> u64
    requires { IsNumberIn (rows_of (found_of found.now)) (codes "workers") }
    ensures { workers_in (rows_of (found_of found.now)) ≡ result }
{
    number_of(found, "workers").unwrap_or(USUAL_WORKERS)
}

/// The command with the arguments that were found.
pub(crate) fn read(alloc: Global, found: &ArgMatches<'_>) -> Result<Command, AllocError>
    requires { IsComplete (codes "serve") (rows_of (found_of found.now)) }
    ensures { IfOk result (IsRead (codes "serve") (rows_of (found_of found.now))) }
{
    let workers = workers_of(found);
    let scripts = words_of(alloc, found, "SCRIPT")?;
    let callers = words_of(alloc, found, "caller")?;
    let format = value_of(alloc, found, "log-format")?;
    Ok(Command::Serve {
        workers,
        scripts,
        callers,
        explain: has_flag(found, "explain"),
        log: has_flag(found, "log"),
        format,
    })
}

// What is said of callers that do not fit. None if they do.
fn caller_text(
    alloc: Global,
    scripts: &[String],
    callers: &[String],
) -> Result<Option<String>, AllocError>
    ensures { IfOk result (λ t. is_some t
        ≡ are_unfit (map string_bytes scripts.now) (map string_bytes callers.now)) }
{
    match caller_fault(scripts, callers) {
        Some(fault) => {
            let text = fault_text(alloc, fault)?;
            Ok(Some(text))
        }
        None => Ok(None),
    }
}

// What is said of a format that the log does not have. None if it has it.
fn format_text(alloc: Global, format: &Option<String>) -> Result<Option<String>, AllocError>
    ensures { IfOk result (λ t. is_some t ≡ is_no_format (option_map string_bytes format.now)) }
{
    let Some(name) = format else {
        return Ok(None);
    };
    if name.as_str() == "text" || name.as_str() == "json" {
        return Ok(None);
    }
    let text = String::from_str(alloc, OTHER_FORMAT)?;
    Ok(Some(text))
}

// A number of workers that there cannot be.
fn is_no_count(workers: u64) -> bool
    ensures { result ≡ is_no_count workers }
{
    !(1 <= workers && workers <= MOST_WORKERS)
}

/// What is said of workers, of callers, or else of a format of the log, that do not fit. None if they do.
pub(crate) fn unfit_text(
    alloc: Global,
    workers: u64,
    scripts: &[String],
    callers: &[String],
    format: &Option<String>,
) -> Result<Option<String>, AllocError>
    ensures { IfOk result (λ t. is_some t ≡ (is_no_count workers
        || are_unfit (map string_bytes scripts.now) (map string_bytes callers.now)
        || is_no_format (option_map string_bytes format.now))) }
{
    if is_no_count(workers) {
        let text = String::from_str(alloc, OTHER_COUNT)?;
        return Ok(Some(text));
    }
    match caller_text(alloc, scripts, callers)? {
        Some(text) => Ok(Some(text)),
        None => format_text(alloc, format),
    }
}
