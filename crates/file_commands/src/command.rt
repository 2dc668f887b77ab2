//! Command lines.

ghost use Rattle.std.specs.Prelude.{◌≡◌, List, [], IfOk, IfErr, Option, Some, is_some, map, string_bytes, false};
ghost use Rattle.clap.specs.Simple.{app_of, shape_of, subcommand_rows_of};
ghost use Rattle.clap.specs.Values.{kind_of};
ghost use Rattle.clap.specs.Matches.{found_of};
ghost use Rattle.clap.specs.Walk.{Row, Text, rows_of};
ghost use Rattle.clap.specs.declared.builder.command.Command.TheViews.{out-Command as fields_of};
ghost use Rattle.file_commands.specs.Command.{command_shape, bare_program, program, is_unfit, IsRead, IsCommand, Name, AreFaulty};
ghost use Rattle.file_commands.specs.Inside.Chosen.{IsShown, IsRefusedFor, IsOfArguments, IsFound};

use crate::row::{ROWS, find_row, with_rows};
use crate::settings::Settings;
use crate::{check, serve};
use clap::error::ErrorKind;
use clap::{ArgMatches, Command as Parser};
use std::alloc::{AllocError, Global};
use thiserror::Error;

/// What the program is to do.
#[derive(Drop)]
pub enum Command {
    /// Answers the lines of the files of these names, each a caller of its own, or those of the callers of
    /// these words, which name a file of lines and a file for replies each, or else those of standard input;
    /// this many workers run the tasks. Refusals are explained and a log is written if that is wanted, the
    /// log in the format of this name, `text` or `json`.
    Serve {
        workers: u64,
        scripts: Vec<String>,
        callers: Vec<String>,
        explain: bool,
        log: bool,
        format: Option<String>,
    },
    /// Runs the lines of the file of this name, and writes their answers to standard output.
    Replay {
        file: String,
    },
    /// Writes the encoding of the module in the file of this name: in hexadecimal to standard output, or
    /// its bytes to the file `output`. A refusal is explained if that is wanted.
    Asm {
        file: String,
        output: Option<String>,
        explain: bool,
    },
    /// Says whether the module in the file of this name is valid and, if `task` holds, whether a task can
    /// be made of it under this limit on its memory in bytes, which no other check has. Lists its
    /// instructions if that is wanted. A refusal is explained if that is wanted.
    Check {
        file: String,
        list: bool,
        task: bool,
        memory: Option<u64>,
        explain: bool,
    },
    /// Runs the module in the file of this name as one task, with these arguments and settings. A refusal is
    /// explained if that is wanted.
    Run {
        module: String,
        args: Vec<String>,
        settings: Settings,
        explain: bool,
    },
    /// Writes this text, which is help or a version, to standard output.
    Show {
        text: String,
    },
}

/// Why a command line names no command.
#[derive(Debug, Drop, Error)]
pub enum CommandError {
    #[error("out of memory")]
    OutOfMemory,
    /// The arguments are those of no command; the text says why, and how the program is used.
    #[error("{text}")]
    Arguments { text: String },
}

impl From<AllocError> for CommandError {
    ghost use Rattle.file_commands.specs.declared.command.CommandError.TheVariants.{OutOfMemory};

    ghost from_gives = { λ _ error. error ≡ OutOfMemory };

    fn from(_error: AllocError) -> CommandError {
        CommandError::OutOfMemory
    }
}

const VERSION: &str = "0.2.0 (protocol 1)";

/// A command without its arguments.
pub(crate) fn bare_command<'a>(
    alloc: Global,
    name: &'a str,
    about: &'a str,
    example: &'a str,
) -> Parser<'a>
    ensures shape { shape_of result ≡ command_shape name.now [] }
    ensures local { (fields_of result).has_globals ≡ false }
{
    Parser::new(alloc, name)
        .about(about)
        .version(VERSION)
        .after_help(example)
}

// The program's name and options, without its commands.
fn bare_parser<'a>(alloc: Global) -> Parser<'a>
    ensures { app_of result ≡ bare_program }
{
    Parser::new(alloc, "wasm-shim")
        .about("Run WebAssembly modules as container tasks")
        .version(VERSION)
        .subcommand_required(true)
}

// The arguments of the program.
fn parser<'a>(alloc: Global) -> Result<Parser<'a>, AllocError>
    ensures { IfOk result (λ p. app_of p ≡ program) }
{
    with_rows(alloc, bare_parser(alloc), ROWS)
}

// What is done where the arguments did not name a command with its arguments.
fn unmatched(alloc: Global, error: &clap::Error) -> Result<Command, CommandError>
    ensures ok { IfOk result (IsShown (kind_of error.now)) }
    ensures err { IfErr result (IsOfArguments (kind_of error.now)) }
{
    if let ErrorKind::OutOfMemory = error.kind() {
        return Err(CommandError::OutOfMemory);
    }
    let text = format!(in alloc; "{error}")?;
    if error.use_stderr() {
        Err(CommandError::Arguments { text })
    } else {
        Ok(Command::Show { text })
    }
}

// What is said of a command that is unfit. None if it is fit.
fn unfit_text(alloc: Global, command: &Command) -> Result<Option<String>, AllocError>
    ensures { IfOk result (λ t. is_some t ≡ is_unfit command.now) }
{
    match command {
        Command::Serve {
            workers,
            scripts,
            callers,
            format,
            ..
        } => serve::unfit_text(
            alloc,
            *workers,
            scripts.as_slice(),
            callers.as_slice(),
            format,
        ),
        Command::Check { task, memory, .. } => check::unfit_text(alloc, *memory, *task),
        _ => Ok(None),
    }
}

// A command, if it is not unfit.
fn complete(alloc: Global, command: Command) -> Result<Command, CommandError>
    ensures ok { (found : Option (Text × List Row)) → IsCommand found command
        → IfOk result (λ c. IsCommand found c × (is_unfit c ≡ false)) }
    ensures err { (found : Option (Text × List Row)) → IsCommand found command
        → IfErr result (IsRefusedFor found) }
{
    match unfit_text(alloc, &command)? {
        Some(text) => Err(CommandError::Arguments { text }),
        None => Ok(command),
    }
}

// The command of this name, with what was found of its arguments.
fn named(alloc: Global, name: &str, found: &ArgMatches<'_>) -> Result<Command, AllocError>
    requires { IsFound (Some (name.now, rows_of (found_of found.now))) }
    ensures { IfOk result (IsRead name.now (rows_of (found_of found.now))) }
{
    match find_row(ROWS, name) {
        Some(row) => row.read(alloc, found),
        None => unreachable!(),
    }
}

// The command whose arguments were found.
fn chosen(alloc: Global, matches: &ArgMatches<'_>) -> Result<Command, AllocError>
    requires { IsFound (subcommand_rows_of matches.now) }
    ensures { IfOk result (IsCommand (subcommand_rows_of matches.now)) }
{
    match matches.subcommand() {
        Some((name, found)) => named(alloc, name, found),
        None => unreachable!(),
    }
}

// The command whose arguments were found, if it is not unfit.
fn whole(alloc: Global, matches: &ArgMatches<'_>) -> Result<Command, CommandError>
    requires { IsFound (subcommand_rows_of matches.now) }
    ensures ok { IfOk result
        (λ c. IsCommand (subcommand_rows_of matches.now) c × (is_unfit c ≡ false)) }
    ensures err { IfErr result (IsRefusedFor (subcommand_rows_of matches.now)) }
{
    let command = chosen(alloc, matches)?;
    complete(alloc, command)
}

/// The command that the arguments name. The first word is the program's own name.
///
/// `serve [--workers N] [--explain] [--log] [--log-format FORMAT] [--caller IN:OUT]* [SCRIPT..]`, with N
/// from 1 to 16, FORMAT `text` or `json`, up to 130 callers, no two with one OUT, and none beside
/// SCRIPTs, `replay FILE`, `asm [-o OUTPUT] [--explain] FILE`, `check [--task [--memory BYTES]]
/// [--list] [--explain] FILE` and `run [--env NAME=VALUE]* [--memory BYTES] [--explain] MODULE
/// [ARG..]` are the commands, BYTES a number below 2^64. Every word after MODULE is an ARG, one
/// that begins with a dash too. `--help` and `--version`, alone or after a command, and `help` are
/// shown. All else is `CommandError::Arguments`, and `CommandError::OutOfMemory` comes if memory
/// ran out.
pub fn command_of(alloc: Global, arguments: &[String]) -> Result<Command, CommandError>
    ensures ok { IfOk result (Name (map string_bytes arguments.now)) }
    ensures err { IfErr result (AreFaulty (map string_bytes arguments.now)) }
{
    let parser = parser(alloc)?;
    match parser.try_get_matches_from(arguments) {
        Ok(matches) => whole(alloc, &matches),
        Err(error) => unmatched(alloc, &error),
    }
}
