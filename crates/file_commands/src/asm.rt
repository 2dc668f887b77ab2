//! The command `asm`.

ghost use Rattle.std.specs.Prelude.{◌≡◌, ◌⊎◌, IfOk, IfErr, string_bytes, codes, false, true};
ghost use Rattle.clap.specs.Matches.{found_of};
ghost use Rattle.clap.specs.Simple.{shape_of};
ghost use Rattle.clap.specs.Walk.{rows_of, rule_of};
ghost use Rattle.clap.specs.declared.builder.command.Command.TheViews.{out-Command as fields_of};
ghost use Rattle.hex.specs.Hex.{encode_lower};
ghost use Rattle.wasm_ast.specs.declared.module.Module.{Module as ModuleValue};
ghost use Rattle.wasm_ast.specs.declared.refusal.Refusal.TheVariants as refusal;
ghost use Rattle.wasm_binary.specs.Canonical.{canon, FitsLimits};
ghost use Rattle.file_commands.specs.Command.{output_rule, asm_shape, IsRead};
ghost use Rattle.file_commands.specs.Source.{IsSource, IsNoSource};
ghost use Rattle.file_commands.specs.Ran.{line, refused};
ghost use Rattle.file_commands.specs.Explained.{IsExplained, IsToldBy};
ghost use Rattle.file_commands.specs.Assembled.{IsAssembled};
ghost use Rattle.file_commands.specs.Inside.Written.{CannotAssemble};
ghost use Rattle.file_commands.specs.Inside.Chosen.{IsComplete};

use crate::arguments::{explain_arg, file_of, has_flag, module_file_arg, value_of};
use crate::command::{Command, bare_command};
use crate::explain::refused_why;
use crate::ran::Ran;
use crate::source::module_of;
use clap::{Arg, ArgMatches, Command as Parser};
use std::alloc::{AllocError, Global};
use wasm_ast::Refusal;
use wasm_binary::encode;

pub(crate) const NAME: &str = "asm";

// The option `-o`.
fn output_arg<'a>(alloc: Global) -> Arg<'a>
    ensures rule { rule_of result ≡ output_rule }
    ensures local { result.global ≡ false }
{
    Arg::new(alloc, "output")
        .long("output")
        .short('o')
        .value_name("OUTPUT")
        .help("Write the bytes to this file, and nothing to standard output")
}

/// `asm [-o OUTPUT] [--explain] FILE`
pub(crate) fn parser<'a>(alloc: Global) -> Result<Parser<'a>, AllocError>
    ensures shape { IfOk result (λ p. shape_of p ≡ asm_shape) }
    ensures local { IfOk result (λ p. (fields_of p).has_globals ≡ false) }
{
    let command = bare_command(
        alloc,
        NAME,
        "Write the binary format of the module of a file, in hexadecimal",
        "Example: wasm-shim asm -o hello.wasm examples/hello.wat",
    );
    let put_out = command.arg(output_arg(alloc))?;
    let explained = put_out.arg(explain_arg(alloc))?;
    explained.arg(module_file_arg(alloc))
}

/// The command with the arguments that were found.
pub(crate) fn read(alloc: Global, found: &ArgMatches<'_>) -> Result<Command, AllocError>
    requires { IsComplete (codes "asm") (rows_of (found_of found.now)) }
    ensures { IfOk result (IsRead (codes "asm") (rows_of (found_of found.now))) }
{
    let file = file_of(alloc, found)?;
    let output = value_of(alloc, found, "output")?;
    Ok(Command::Asm {
        file,
        output,
        explain: has_flag(found, "explain"),
    })
}

// The line of these bytes in hexadecimal.
fn hexadecimal(alloc: Global, bytes: &[u8]) -> Result<String, AllocError>
    ensures { IfOk result (λ s. string_bytes s ≡ line (encode_lower bytes.now)) }
{
    let mut digits = hex::encode(alloc, bytes)?;
    digits.push_str("\n")?;
    Ok(digits)
}

// The canonical encoding of the module in a file, as a line.
fn encoding_line(alloc: Global, bytes: &[u8]) -> Result<String, Refusal>
    ensures ok { IfOk result (λ s. (m : ModuleValue) × IsSource bytes.now m × FitsLimits m
        × (string_bytes s ≡ line (encode_lower (canon m)))) }
    ensures err { IfErr result (λ e. (e ≡ refusal.NoMemory) ⊎ CannotAssemble bytes.now e) }
{
    let module = module_of(alloc, bytes)?;
    let encoded = encode(alloc, &module)?;
    Ok(hexadecimal(alloc, encoded.as_slice())?)
}

/// What `asm` writes for a file with these bytes, with or without the reason of a refusal.
pub(crate) fn assembled(alloc: Global, bytes: &[u8], explain: bool) -> Result<Ran, Refusal>
    ensures ran { IfOk result (IsToldBy explain refused (IsAssembled bytes.now)) }
    ensures errors { IfErr result (λ e. e ≡ refusal.NoMemory) }
{
    match encoding_line(alloc, bytes) {
        Ok(line) => Ok(Ran::succeeded(alloc, line)),
        Err(refusal) => refused_why(alloc, bytes, None, refusal, explain),
    }
}

/// What `asm` writes for a file with these bytes: the canonical encoding of its module in lower-case
/// hexadecimal, as a line. Nothing is validated. If it is refused, that is a line on standard error, and the
/// status is 3. `NoMemory`, and no other refusal, if memory runs out.
pub fn asm_file(alloc: Global, bytes: &[u8]) -> Result<Ran, Refusal>
    ensures ran { IfOk result (IsAssembled bytes.now) }
    ensures errors { IfErr result (λ e. e ≡ refusal.NoMemory) }
{
    assembled(alloc, bytes, false)
}
