//! The command `check`.

ghost use Rattle.std.specs.Prelude.{◌≡◌, ◌⊎◌, ◌+◌, ◌++◌, ◌∷◌, [], false, true, not, ◌&&◌, is_some, All, IfOk, IfErr, OnOk, codes, string_bytes};
ghost use Rattle.clap.specs.Matches.{found_of};
ghost use Rattle.clap.specs.Simple.{shape_of};
ghost use Rattle.clap.specs.Walk.{rows_of, rule_of};
ghost use Rattle.clap.specs.declared.builder.command.Command.TheViews.{out-Command as fields_of};
ghost use Rattle.wasm_ast.specs.declared.module.Module.{Module as ModuleValue};
ghost use Rattle.wasm_ast.specs.declared.refusal.Refusal.TheVariants as refusal;
ghost use Rattle.wasm_ast.specs.Syntax.{count, ops_count};
ghost use Rattle.wasm_ast.specs.View.{op_of};
ghost use Rattle.text_assembler.specs.Lines.{IsAligned, line_of};
ghost use Rattle.validator.specs.Typing.{ValidModule};
ghost use Rattle.file_commands.specs.Command.{flag_rule, memory_rule, command_shape, check_shape, IsRead};
ghost use Rattle.file_commands.specs.Source.{IsSource};
ghost use Rattle.file_commands.specs.Ran.{line, refused};
ghost use Rattle.file_commands.specs.Explained.{IsExplained, IsToldBy};
ghost use Rattle.file_commands.specs.Checked.{instr_line, op_lines, ops_lines, func_lines, listing, list_if, IsChecked, IsCheck};
ghost use Rattle.file_commands.specs.Inside.Written.{CannotCheck, OpAligned, OpsAligned};
ghost use Rattle.file_commands.specs.Inside.Chosen.{IsComplete};

use crate::arguments::{
    explain_arg, file_of, flag_arg, has_flag, memory_arg, module_file_arg, number_of,
};
use crate::command::{Command, bare_command};
use crate::explain::refused_why;
use crate::ran::Ran;
use crate::settings::Settings;
use crate::source::module_of;
use crate::task_check::task_checked;
use clap::{Arg, ArgMatches, Command as Parser};
use std::alloc::{AllocError, Global};
use text_assembler::instr_text;
use validator::{Valid, validate};
use wasm_ast::{Arms, Body, Func, Instr, Module, Refusal, push_decimal};

pub(crate) const NAME: &str = "check";

// What is said of a check with `--memory` and without `--task`.
const LONE_MEMORY: &str =
    "error: the argument '--memory <BYTES>' is for '--task' alone\n\nUsage: wasm-shim check [OPTIONS] <FILE>\n\nFor more information, try '--help'.\n";

// The flag `--task`.
fn task_arg<'a>(alloc: Global) -> Arg<'a>
    ensures rule { rule_of result ≡ flag_rule (codes "task") }
    ensures local { result.global ≡ false }
{
    flag_arg(
        alloc,
        "task",
        "Also check whether a task can be made of the module, as run makes one",
    )
}

// The flag `--list`.
fn list_arg<'a>(alloc: Global) -> Arg<'a>
    ensures rule { rule_of result ≡ flag_rule (codes "list") }
    ensures local { result.global ≡ false }
{
    flag_arg(
        alloc,
        "list",
        "Also list the instructions, a line each: function, place, instruction",
    )
}

// The command with its options for tasks alone.
fn task_options<'a>(alloc: Global) -> Result<Parser<'a>, AllocError>
    ensures shape { IfOk result (λ p. shape_of p
        ≡ command_shape (codes "check") (flag_rule (codes "task") ∷ memory_rule ∷ [])) }
    ensures local { IfOk result (λ p. (fields_of p).has_globals ≡ false) }
{
    let command = bare_command(
        alloc,
        NAME,
        "Check whether the module of a file is valid",
        "Example: wasm-shim check --list examples/sum.wat",
    );
    let with_task = command.arg(task_arg(alloc))?;
    with_task.arg(memory_arg(alloc))
}

/// `check [--task [--memory BYTES]] [--list] [--explain] FILE`
pub(crate) fn parser<'a>(alloc: Global) -> Result<Parser<'a>, AllocError>
    ensures shape { IfOk result (λ p. shape_of p ≡ check_shape) }
    ensures local { IfOk result (λ p. (fields_of p).has_globals ≡ false) }
{
    let listed = task_options(alloc)?.arg(list_arg(alloc))?;
    let explained = listed.arg(explain_arg(alloc))?;
    explained.arg(module_file_arg(alloc))
}

/// The command with the arguments that were found.
pub(crate) fn read(alloc: Global, found: &ArgMatches<'_>) -> Result<Command, AllocError>
    requires { IsComplete (codes "check") (rows_of (found_of found.now)) }
    ensures { IfOk result (IsRead (codes "check") (rows_of (found_of found.now))) }
{
    let file = file_of(alloc, found)?;
    let memory = number_of(found, "memory");
    Ok(Command::Check {
        file,
        list: has_flag(found, "list"),
        task: has_flag(found, "task"),
        memory,
        explain: has_flag(found, "explain"),
    })
}

/// What is said of a limit on the memory of a task that is not asked for. None if there is none.
pub(crate) fn unfit_text(
    alloc: Global,
    memory: Option<u64>,
    task: bool,
) -> Result<Option<String>, AllocError>
    ensures { IfOk result (λ t. is_some t ≡ (is_some memory && not task)) }
{
    if memory.is_some() && !task {
        let text = String::from_str(alloc, LONE_MEMORY)?;
        Ok(Some(text))
    } else {
        Ok(None)
    }
}

// One more. No number of instructions or functions comes near 2^64: memory ends first.
fn next(number: u64) -> Result<u64, AllocError>
    ensures { IfOk result (λ n. n ≡ number + 1) }
{
    let next = number.checked_add(1).ok_or(AllocError)?;
    Ok(next)
}

// The text of an instruction.
fn text_of(alloc: Global, instr: &Instr) -> Result<String, AllocError>
    requires { IsAligned (op_of instr.now) }
    ensures { IfOk result (λ s. string_bytes s ≡ line_of (op_of instr.now)) }
{
    instr_text(alloc, instr).map_err(|_| AllocError)
}

// Pushes `FUNC PLACE TEXT`.
fn push_line(
    alloc: Global,
    list: &mut String,
    func: u64,
    place: u64,
    instr: &Instr,
) -> Result<(), AllocError>
    requires { OpAligned (op_of instr.now) }
    ensures { OnOk result (string_bytes list.new
        ≡ string_bytes list.old ++ instr_line func place (op_of instr.now)) }
{
    let text = text_of(alloc, instr)?;
    push_decimal(list, func)?;
    list.push_str(" ")?;
    push_decimal(list, place)?;
    list.push_str(" ")?;
    list.push_str(text.as_str())?;
    list.push_str("\n")
}

/// Pushes the lines of an instruction at this place, and gives the place after it. Recursion is as deep as
/// its blocks are nested, which is as deep as that of dropping it.
#[cycle(push)]
fn push_instr(
    alloc: Global,
    list: &mut String,
    func: u64,
    place: u64,
    instr: &Instr,
) -> Result<u64, AllocError>
    requires { OpAligned (op_of instr.now) }
    ensures lines { OnOk result (string_bytes list.new
        ≡ string_bytes list.old ++ op_lines func place (op_of instr.now)) }
    ensures place { IfOk result (λ n. n ≡ place + count (op_of instr.now)) }
{
    push_line(alloc, list, func, place, instr)?;
    let inside = next(place)?;
    match instr {
        Instr::Simple(_) => Ok(inside),
        Instr::Block(_, body) | Instr::Loop(_, body) => {
            push_body(alloc, list, func, inside, body)
        }
        Instr::If(_, arms) => {
            let Arms { then_arm, else_arm } = &**arms;
            let other = push_body(alloc, list, func, inside, then_arm)?;
            push_body(alloc, list, func, other, else_arm)
        }
    }
}

#[cycle(push)]
fn push_body(
    alloc: Global,
    list: &mut String,
    func: u64,
    place: u64,
    body: &Body,
) -> Result<u64, AllocError>
    requires { OpsAligned body.now }
    ensures lines { OnOk result (string_bytes list.new
        ≡ string_bytes list.old ++ ops_lines func place body.now) }
    ensures place { IfOk result (λ n. n ≡ place + ops_count body.now) }
{
    let mut here = place;
    for instr in body.as_slice() {
        here = push_instr(alloc, list, func, here, instr)?;
    }
    Ok(here)
}

// Pushes the lines of functions, of which the first has this index.
fn push_funcs(
    alloc: Global,
    list: &mut String,
    first: u64,
    funcs: &[Func],
) -> Result<(), AllocError>
    requires { All (λ f. OpsAligned f.body) funcs.now }
    ensures { OnOk result (string_bytes list.new
        ≡ string_bytes list.old ++ func_lines first funcs.now) }
{
    let mut func = first;
    for each in funcs {
        push_body(alloc, list, func, 0, &each.body)?;
        func = next(func)?;
    }
    Ok(())
}

// Pushes the lines of a module's own functions.
fn push_listing(alloc: Global, list: &mut String, module: &Module) -> Result<(), AllocError>
    requires { ValidModule «module».now }
    ensures { OnOk result (string_bytes list.new ≡ string_bytes list.old ++ listing «module».now) }
{
    let first = module.imports.len() as u64;
    push_funcs(alloc, list, first, module.funcs.as_slice())
}

/// `ok`, and the list of instructions if it is wanted.
pub(crate) fn checked_text(alloc: Global, valid: &Valid, list: bool) -> Result<String, AllocError>
    ensures { IfOk result (λ s. string_bytes s ≡ line (codes "ok") ++ list_if list valid.now) }
{
    let mut text = String::from_str(alloc, "ok\n")?;
    if list {
        push_listing(alloc, &mut text, valid.module())?;
    }
    Ok(text)
}

// What is written for the module in a file, if it is valid.
fn checked(alloc: Global, bytes: &[u8], list: bool) -> Result<String, Refusal>
    ensures ok { IfOk result (λ s. (m : ModuleValue) × IsSource bytes.now m × ValidModule m
        × (string_bytes s ≡ line (codes "ok") ++ list_if list m)) }
    ensures err { IfErr result (λ e. (e ≡ refusal.NoMemory) ⊎ CannotCheck bytes.now e) }
{
    let module = module_of(alloc, bytes)?;
    let valid = validate(alloc, module)?;
    valid.module();
    Ok(checked_text(alloc, &valid, list)?)
}

// What `check` writes for a file with these bytes, with or without the reason of a refusal.
fn file_checked(alloc: Global, bytes: &[u8], list: bool, explain: bool) -> Result<Ran, Refusal>
    ensures ran { IfOk result (IsToldBy explain refused (IsChecked bytes.now list)) }
    ensures errors { IfErr result (λ e. e ≡ refusal.NoMemory) }
{
    match checked(alloc, bytes, list) {
        Ok(text) => Ok(Ran::succeeded(alloc, text)),
        Err(refusal) => refused_why(alloc, bytes, None, refusal, explain),
    }
}

/// What `check` writes for a file of this name with these bytes, with or without a task under this
/// limit on its memory, and with or without the reason of a refusal.
pub(crate) fn check(
    alloc: Global,
    name: &str,
    bytes: &[u8],
    list: bool,
    task: bool,
    memory: Option<u64>,
    explain: bool,
) -> Result<Ran, Refusal>
    ensures { IfOk result (IsToldBy explain refused (IsCheck task name.now bytes.now list memory)) }
{
    if !task {
        return file_checked(alloc, bytes, list, explain);
    }
    let settings = Settings {
        env: Vec::new(alloc),
        memory,
    };
    task_checked(alloc, name, bytes, list, &settings, explain)
}

/// What `check` writes for a file with these bytes: `ok` if its module is valid, and then, if `list` holds,
/// a line `FUNC PLACE TEXT` for each instruction of its functions, in the order of functions and places. If
/// it is refused, that is a line on standard error, and the status is 3. `NoMemory`, and no other refusal,
/// if memory runs out.
pub fn check_file(alloc: Global, bytes: &[u8], list: bool) -> Result<Ran, Refusal>
    ensures ran { IfOk result (IsChecked bytes.now list) }
    ensures errors { IfErr result (λ e. e ≡ refusal.NoMemory) }
{
    file_checked(alloc, bytes, list, false)
}
