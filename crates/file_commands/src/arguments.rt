//! What commands share of the command line: the arguments of several, and what is read of those
//! that were found.

ghost use Rattle.std.specs.Prelude.{◌≡◌, Some, IfOk, false, codes, map, option_map, string_bytes};
ghost use Rattle.clap.specs.Matches.{found_of};
ghost use Rattle.clap.specs.Walk.{first_of, rows_of, rule_of};
ghost use Rattle.file_commands.specs.Inside.Chosen.{Has, IsNumberIn};
ghost use Rattle.file_commands.specs.Command.{file_rule, flag_rule, number_rule, repeated_rule, memory_rule, file_in, has_flag, texts_in, number_in};

use clap::builder::ValueParser;
use clap::{Arg, ArgAction, ArgMatches};
use std::alloc::{AllocError, Global};

// What FILE is in the commands that read a module.
const MODULE_FILE: &str = "The file of the module, in the binary or the text format";

/// The argument FILE.
pub(crate) fn file_arg<'a>(alloc: Global, help: &'a str) -> Arg<'a>
    ensures rule { rule_of result ≡ file_rule }
    ensures local { result.global ≡ false }
{
    Arg::new(alloc, "FILE").required(true).help(help)
}

/// The argument FILE of a command that reads a module.
pub(crate) fn module_file_arg<'a>(alloc: Global) -> Arg<'a>
    ensures rule { rule_of result ≡ file_rule }
    ensures local { result.global ≡ false }
{
    file_arg(alloc, MODULE_FILE)
}

/// The flag of this name.
pub(crate) fn flag_arg<'a>(alloc: Global, name: &'a str, help: &'a str) -> Arg<'a>
    ensures rule { rule_of result ≡ flag_rule name.now }
    ensures local { result.global ≡ false }
{
    Arg::new(alloc, name)
        .long(name)
        .action(ArgAction::SetTrue)
        .help(help)
}

/// The flag `--explain`.
pub(crate) fn explain_arg<'a>(alloc: Global) -> Arg<'a>
    ensures rule { rule_of result ≡ flag_rule (codes "explain") }
    ensures local { result.global ≡ false }
{
    flag_arg(
        alloc,
        "explain",
        "After a refusal, also say why, in a line on standard error",
    )
}

/// The option of this name that may be given several times; the help calls its value so.
pub(crate) fn repeated_arg<'a>(
    alloc: Global,
    name: &'a str,
    value: &'a str,
    help: &'a str,
) -> Arg<'a>
    ensures rule { rule_of result ≡ repeated_rule name.now }
    ensures local { result.global ≡ false }
{
    Arg::new(alloc, name)
        .long(name)
        .value_name(value)
        .action(ArgAction::Append)
        .help(help)
}

/// The option `--memory`.
pub(crate) fn memory_arg<'a>(alloc: Global) -> Arg<'a>
    ensures rule { rule_of result ≡ memory_rule }
    ensures local { result.global ≡ false }
{
    Arg::new(alloc, "memory")
        .long("memory")
        .value_name("BYTES")
        .value_parser(ValueParser::Unsigned(0, u64::MAX))
        .help(
            "The limit on the task's memory, of whole pages of 65536 bytes; 16 pages without this option",
        )
}

/// The argument FILE that was found.
pub(crate) fn file_of(alloc: Global, found: &ArgMatches<'_>) -> Result<String, AllocError>
    requires { Has (codes "FILE") (rows_of (found_of found.now)) }
    ensures { IfOk result (λ f. file_in (rows_of (found_of found.now)) ≡ Some (string_bytes f)) }
{
    let Some(name) = found.get_str("FILE") else {
        unreachable!();
    };
    let file = String::from_str(alloc, name)?;
    Ok(file)
}

/// Whether the flag of this name was found.
pub(crate) fn has_flag(found: &ArgMatches<'_>, name: &str) -> bool
    ensures { has_flag name.now (rows_of (found_of found.now)) ≡ result }
{
    match found.get_str(name) {
        Some(value) => value == "true",
        None => false,
    }
}

/// The number that the option of this name has, if it was found.
pub(crate) fn number_of(found: &ArgMatches<'_>, name: &str) -> Option<u64>
    requires { IsNumberIn (rows_of (found_of found.now)) name.now }
    ensures { number_in name.now (rows_of (found_of found.now)) ≡ result }
{
    let Some(text) = found.get_str(name) else {
        return None;
    };
    match text.parse::<u64>() {
        Ok(number) => Some(number),
        Err(_) => unreachable!(),
    }
}

/// Copies of these words.
pub(crate) fn copies(alloc: Global, words: &[&str]) -> Result<Vec<String>, AllocError>
    ensures { IfOk result (λ v. map string_bytes v.items ≡ map (λ w. w.now) words.now) }
{
    let mut copies = Vec::new(alloc);
    for word in words {
        copies.push(String::from_str(alloc, word)?)?;
    }
    Ok(copies)
}

/// The values of the argument of this name that were found, of which there may be none.
pub(crate) fn words_of(
    alloc: Global,
    found: &ArgMatches<'_>,
    name: &str,
) -> Result<Vec<String>, AllocError>
    ensures { IfOk result
        (λ v. texts_in name.now (rows_of (found_of found.now)) ≡ map string_bytes v.items) }
{
    match found.get_strs(name) {
        Some(words) => copies(alloc, words),
        None => Ok(Vec::new(alloc)),
    }
}

/// The value of the option of this name that was found, if there is one.
pub(crate) fn value_of(
    alloc: Global,
    found: &ArgMatches<'_>,
    name: &str,
) -> Result<Option<String>, AllocError>
    ensures { IfOk result (λ f. first_of name.now (rows_of (found_of found.now))
        ≡ option_map string_bytes f) }
{
    let Some(text) = found.get_str(name) else {
        return Ok(None);
    };
    let value = String::from_str(alloc, text)?;
    Ok(Some(value))
}
