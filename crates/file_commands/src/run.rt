//! The command `run`.

ghost use Rattle.std.specs.Prelude.{◌≡◌, ◌≢◌, ◌-◌, ◌<◌, ◌≤◌, ◌%◌, ◌∷◌, ◌++◌, [], List, ℕ, map, drop, length, IfOk, IfErr, OnOk, Some, None, true, false, codes, string_bytes};
ghost use Rattle.clap.specs.Matches.{found_of};
ghost use Rattle.clap.specs.Simple.{shape_of};
ghost use Rattle.clap.specs.Walk.{rows_of, rule_of};
ghost use Rattle.clap.specs.declared.builder.command.Command.TheViews.{out-Command as fields_of};
ghost use Rattle.std.specs.Io.KnownBytes.{Appends};
ghost use Rattle.wasm_ast.specs.declared.refusal.Refusal.TheVariants as refusal;
ghost use Rattle.oci_config.specs.Processes.{config_of};
ghost use Rattle.validator.specs.Typing.{ValidModule};
ghost use Rattle.step_machine.specs.Instantiation.{instantiation_refusal, ended};
ghost use Rattle.step_machine.specs.Limits.{last_turn};
ghost use Rattle.step_machine.specs.MachineView.{state_of, output_of};
ghost use Rattle.task_lifecycle.specs.Names.{exit_status};
ghost use Rattle.task_board.specs.Tasks.{exit_of};
ghost use Rattle.file_commands.specs.Command.{repeated_rule, module_rule, run_shape, module_in, texts_in, number_in, IsRead};
ghost use Rattle.file_commands.specs.Ran.{line, refused_run};
ghost use Rattle.file_commands.specs.Explained.{IsExplained, IsToldBy};
ghost use Rattle.file_commands.specs.TaskRun.{given, can_have, process_given, trap_line, full_line, end_lines, CannotRun, IsRun, IsWritten, HasEnded};
ghost use Rattle.file_commands.specs.Inside.Written.{CannotStart, IsOpened};
ghost use Rattle.file_commands.specs.Inside.Chosen.{Has, IsNumberIn, IsComplete};

use crate::arguments::{
    copies, explain_arg, has_flag, memory_arg, number_of, repeated_arg, words_of,
};
use crate::command::{Command, bare_command};
use crate::explain::refused_run_why;
use crate::ran::{Ran, write, write_some};
use crate::run_error::RunError;
use crate::settings::Settings;
use crate::source::module_of;
use clap::{Arg, ArgMatches, Command as Parser};
use oci_config::{Process, Stream, process_under};
use std::alloc::{AllocError, Global};
use std::io;
use std::io::Write;
use step_machine::laws::{outputs_grow, slices_go_forward, turns_are_limited};
use step_machine::{Breaks, End, Machine, validate};
use wasm_ast::{Module, Refusal, Sequence, Text};

// ---- its row

pub(crate) const NAME: &str = "run";

// The option `--env`.
fn env_arg<'a>(alloc: Global) -> Arg<'a>
    ensures rule { rule_of result ≡ repeated_rule (codes "env") }
    ensures local { result.global ≡ false }
{
    repeated_arg(
        alloc,
        "env",
        "NAME=VALUE",
        "An entry of the task's environment; may be given several times",
    )
}

// The arguments MODULE and ARG. They are one argument with several values, so that after the name of the
// module a word that begins with a dash is one of the values.
fn module_arg<'a>(alloc: Global) -> Arg<'a>
    ensures rule { rule_of result ≡ module_rule }
    ensures local { result.global ≡ false }
{
    Arg::new(alloc, "MODULE")
        .required(true)
        .num_args(1..)
        .trailing_var_arg(true)
        .value_names(&["MODULE", "ARG"])
        .help("The file of the module, and the arguments of the task after its name")
}

/// `run [--env NAME=VALUE]* [--memory BYTES] [--explain] MODULE [ARG..]`
pub(crate) fn parser<'a>(alloc: Global) -> Result<Parser<'a>, AllocError>
    ensures shape { IfOk result (λ p. shape_of p ≡ run_shape) }
    ensures local { IfOk result (λ p. (fields_of p).has_globals ≡ false) }
{
    let command = bare_command(
        alloc,
        NAME,
        "Run the module of a file as one task, and end with its status",
        "Example: wasm-shim run --env LANG=C examples/hello.wat --any words",
    );
    let with_env = command.arg(env_arg(alloc))?;
    let with_memory = with_env.arg(memory_arg(alloc))?;
    let explained = with_memory.arg(explain_arg(alloc))?;
    explained.arg(module_arg(alloc))
}

// The settings of a task that were found.
fn settings_of(alloc: Global, found: &ArgMatches<'_>) -> Result<Settings, AllocError>
    requires { IsNumberIn (rows_of (found_of found.now)) (codes "memory") }
    ensures env { IfOk result (λ s. texts_in (codes "env") (rows_of (found_of found.now))
        ≡ map string_bytes s.env.items) }
    ensures memory { IfOk result
        (λ s. number_in (codes "memory") (rows_of (found_of found.now)) ≡ s.memory) }
{
    let env = words_of(alloc, found, "env")?;
    let memory = number_of(found, "memory");
    Ok(Settings { env, memory })
}

// The first of these words, and those after it.
fn split_words(alloc: Global, words: &[&str]) -> Result<(String, Vec<String>), AllocError>
    requires { 0 < length words.now }
    ensures { IfOk result (λ p. map (λ w. w.now) words.now
        ≡ string_bytes p.0 ∷ map string_bytes p.1.items) }
{
    let Some((name, rest)) = words.split_first() else {
        unreachable!();
    };
    let module = String::from_str(alloc, name)?;
    let args = copies(alloc, rest)?;
    Ok((module, args))
}

// The words MODULE and ARGs that were found.
fn module_words(alloc: Global, found: &ArgMatches<'_>) -> Result<(String, Vec<String>), AllocError>
    requires { Has (codes "MODULE") (rows_of (found_of found.now)) }
    ensures { IfOk result (λ p. module_in (rows_of (found_of found.now))
        ≡ Some (string_bytes p.0 ∷ map string_bytes p.1.items)) }
{
    match found.get_strs("MODULE") {
        Some(words) => split_words(alloc, words),
        None => unreachable!(),
    }
}

/// The command with the arguments that were found.
pub(crate) fn read(alloc: Global, found: &ArgMatches<'_>) -> Result<Command, AllocError>
    requires { IsComplete (codes "run") (rows_of (found_of found.now)) }
    ensures { IfOk result (IsRead (codes "run") (rows_of (found_of found.now))) }
{
    let settings = settings_of(alloc, found)?;
    let (module, args) = module_words(alloc, found)?;
    Ok(Command::Run {
        module,
        args,
        settings,
        explain: has_flag(found, "explain"),
    })
}

// ---- how it runs

/// The most bytes that an output stream takes.
const MAX_OUTPUT: usize = 65_536;

/// Turns of a slice at most.
const SLICE_BUDGET: u64 = 1_000_000;

// ---- the task

// The arguments of the task: the name of its file, and the words after it.
fn texts(alloc: Global, name: &str, args: &[String]) -> Result<Vec<Text>, AllocError>
    ensures { IfOk result (λ v. v.items ≡ name.now ∷ map string_bytes args.now) }
{
    let mut texts = Vec::new(alloc);
    texts.push(Text::from_str(alloc, name)?)?;
    for arg in args {
        texts.push(Text::from_str(alloc, arg.as_str())?)?;
    }
    Ok(texts)
}

// The environment of the task: these entries.
fn entries(alloc: Global, env: &[String]) -> Result<Vec<Text>, AllocError>
    ensures { IfOk result (λ v. v.items ≡ map string_bytes env.now) }
{
    let mut entries = Vec::new(alloc);
    for entry in env {
        entries.push(Text::from_str(alloc, entry.as_str())?)?;
    }
    Ok(entries)
}

// The process of the task, if it can have these arguments and these settings.
fn process_of(
    alloc: Global,
    name: &str,
    args: &[String],
    settings: &Settings,
) -> Result<Process, Refusal>
    ensures process { IfOk result (λ p. config_of p
        ≡ process_given (given name.now (map string_bytes args.now) settings.now)) }
    ensures nothing_written { IfOk result (λ p. (p.out ≡ []) × (p.err ≡ [])) }
    ensures taken { OnOk result
        (can_have (given name.now (map string_bytes args.now) settings.now) ≡ true) }
    ensures err { IfErr result (λ e. e ≢ refusal.NoMemory → (e ≡ refusal.BadConfig)
        × (can_have (given name.now (map string_bytes args.now) settings.now) ≡ false)) }
{
    let words = texts(alloc, name, args)?;
    let env = entries(alloc, settings.env.as_slice())?;
    process_under(alloc, words, env, settings.memory)
}

// A machine of a module, if it is valid and can be instantiated.
fn machine_of(alloc: Global, unchecked: Module, process: Process) -> Result<Machine, Refusal>
    requires nothing_written { (process.out ≡ []) × (process.err ≡ []) }
    ensures valid { OnOk result (ValidModule unchecked) }
    ensures opens { OnOk result (instantiation_refusal unchecked (config_of process) ≡ None) }
    ensures machine { IfOk result
        (λ m. m ≡ record { «module» = unchecked; process = config_of process; turns = 0 }) }
    ensures err { IfErr result
        (λ e. e ≢ refusal.NoMemory → CannotStart unchecked (config_of process) e) }
{
    let valid = validate(alloc, unchecked)?;
    valid.module();
    Machine::new(alloc, valid, process)
}

/// The task that runs a file with these arguments and settings, before its first turn.
pub(crate) fn task_of(
    alloc: Global,
    name: &str,
    bytes: &[u8],
    args: &[String],
    settings: &Settings,
) -> Result<Machine, Refusal>
    ensures ok { IfOk result
        (IsOpened bytes.now (given name.now (map string_bytes args.now) settings.now)) }
    ensures err { IfErr result (λ e. e ≢ refusal.NoMemory
        → CannotRun bytes.now (given name.now (map string_bytes args.now) settings.now) e) }
{
    let module = module_of(alloc, bytes)?;
    let process = process_of(alloc, name, args, settings)?;
    machine_of(alloc, module, process)
}

// ---- what it writes

// How many bytes of each of a task's streams have been written.
#[derive(Drop)]
struct Progress {
    out: usize,
    err: usize,
}

// Writes what is new on the streams of a task.
fn write_new<O: Write, E: Write>(
    machine: &Machine,
    written: &mut Progress,
    out: &mut O,
    err: &mut E,
) -> Result<(), RunError>
    requires out { written.old.out ≤ length (output_of machine.now Stream.Out) }
    requires err { written.old.err ≤ length (output_of machine.now Stream.Err) }
    ensures out { OnOk result (Appends (O.contents out.old) (O.contents out.new)
        (drop written.old.out (output_of machine.now Stream.Out))) }
    ensures err { OnOk result (Appends (E.contents err.old) (E.contents err.new)
        (drop written.old.err (output_of machine.now Stream.Err))) }
    ensures all_out { OnOk result (written.new.out ≡ length (output_of machine.now Stream.Out)) }
    ensures all_err { OnOk result (written.new.err ≡ length (output_of machine.now Stream.Err)) }
{
    let on_out = machine.output(Stream::Out);
    write_some(&on_out[written.out..], out).map_err(RunError::StandardOutput)?;
    let on_err = machine.output(Stream::Err);
    write_some(&on_err[written.err..], err).map_err(RunError::StandardError)?;
    written.out = on_out.len();
    written.err = on_err.len();
    Ok(())
}

// ---- its turns

// Makes a slice of a task that has not ended.
fn run_slice(machine: &mut Machine, none: &Breaks)
    requires { ended (state_of machine.old) ≡ None }
    ensures same_module { machine.new.module ≡ machine.old.module }
    ensures same_process { machine.new.process ≡ machine.old.process }
    ensures fewer { last_turn - machine.new.turns < last_turn - machine.old.turns }
    ensures grown { (s : Stream) → (later : List ℕ)
        × (output_of machine.new s ≡ output_of machine.old s ++ later) }
{
    turns_are_limited();
    slices_go_forward();
    outputs_grow();
    machine.run(SLICE_BUDGET, none);
}

// Makes all turns of a task, slice by slice, and writes after each what is new.
fn run_to_end<O: Write, E: Write>(
    machine: &mut Machine,
    none: &Breaks,
    out: &mut O,
    err: &mut E,
) -> Result<End, RunError>
    ensures same_module { machine.new.module ≡ machine.old.module }
    ensures same_process { machine.new.process ≡ machine.old.process }
    ensures end { IfOk result (λ e. ended (state_of machine.new) ≡ Some e) }
    ensures out { OnOk result
        (Appends (O.contents out.old) (O.contents out.new) (output_of machine.new Stream.Out)) }
    ensures err { OnOk result
        (Appends (E.contents err.old) (E.contents err.new) (output_of machine.new Stream.Err)) }
{
    let mut written = Progress { out: 0, err: 0 };
    loop {
        write_new(machine, &mut written, out, err)?;
        if let Some(end) = machine.halted() {
            return Ok(end);
        }
        run_slice(machine, none);
    }
}

// ---- its end

// The status of a program whose task has ended so.
fn status_of(end: End) -> u8
    ensures { result ≡ exit_status (exit_of end) % 256 }
{
    match end {
        End::Returned => 0,
        End::Exited(code) => (code % 256) as u8,
        End::Trapped(_) => 134,
    }
}

// Adds the line of a trap.
fn push_trap(err: &mut Vec<u8>, end: End) -> Result<(), AllocError>
    ensures { OnOk result (err.new.items ≡ err.old.items ++ trap_line end) }
{
    let End::Trapped(trap) = end else {
        return Ok(());
    };
    err.extend_from_slice(b"trap: ")?;
    err.extend_from_slice(trap.name().as_bytes())?;
    err.extend_from_slice(b"\n")
}

// Adds the line that a stream of this name is full.
fn push_line(err: &mut Vec<u8>, name: &str) -> Result<(), AllocError>
    ensures { OnOk result (err.new.items
        ≡ err.old.items ++ line (name.now ++ codes " is full: 65536 bytes")) }
{
    err.extend_from_slice(name.as_bytes())?;
    err.extend_from_slice(b" is full: 65536 bytes")?;
    err.extend_from_slice(b"\n")
}

// Adds the line of a stream that has taken all the bytes that it takes.
fn push_full(err: &mut Vec<u8>, name: &str, count: usize) -> Result<(), AllocError>
    ensures { OnOk result (err.new.items ≡ err.old.items ++ full_line name.now count) }
{
    if count < MAX_OUTPUT {
        Ok(())
    } else {
        push_line(err, name)
    }
}

// The lines that are added at the end of a task.
fn end_lines(alloc: Global, machine: &Machine, end: End) -> Result<Vec<u8>, AllocError>
    ensures { IfOk result (λ v. v.items
        ≡ end_lines (output_of machine.now Stream.Out) (output_of machine.now Stream.Err) end) }
{
    let mut lines = Vec::new(alloc);
    push_trap(&mut lines, end)?;
    push_full(
        &mut lines,
        "standard output",
        machine.output(Stream::Out).len(),
    )?;
    push_full(
        &mut lines,
        "standard error",
        machine.output(Stream::Err).len(),
    )?;
    Ok(lines)
}

// Writes the lines that are added at the end of a task.
fn write_end<W: Write>(
    alloc: Global,
    machine: &Machine,
    end: End,
    err: &mut W,
) -> Result<(), RunError>
    ensures { OnOk result (Appends (W.contents err.old) (W.contents err.new)
        (end_lines (output_of machine.now Stream.Out) (output_of machine.now Stream.Err) end)) }
{
    let lines = end_lines(alloc, machine, end)?;
    write_some(lines.as_slice(), err).map_err(RunError::StandardError)
}

// Runs a task to its end, and writes what it writes.
fn run_task<O: Write, E: Write>(
    alloc: Global,
    machine: &mut Machine,
    out: &mut O,
    err: &mut E,
) -> Result<u8, RunError>
    ensures { IfOk result (IsWritten (HasEnded machine.old.module machine.old.process)
        (O.contents out.old) (O.contents out.new) (E.contents err.old) (E.contents err.new)) }
{
    let none = Breaks::none(alloc)?;
    let end = run_to_end(machine, &none, out, err)?;
    write_end(alloc, machine, end, err)?;
    Ok(status_of(end))
}

/// The command `run` for a file of this name with these bytes, as `run_file` says, over two streams that are
/// written to while the task runs, with or without the reason of a refusal. It makes slices of at most
/// 1,000,000 turns; what a slice has written is written to `out` and then to `err`, and flushed, before the
/// next one begins. The answer is the status.
///
/// `StandardOutput` or `StandardError` if that stream failed: the task goes no further. `OutOfMemory` if
/// memory runs out for anything but what the task itself may be refused. What was written stays written.
pub(crate) fn run<O: Write, E: Write>(
    alloc: Global,
    name: &str,
    bytes: &[u8],
    args: &[String],
    settings: &Settings,
    explain: bool,
    out: &mut O,
    err: &mut E,
) -> Result<u8, RunError>
    ensures { IfOk result (IsWritten (IsToldBy explain refused_run
        (IsRun bytes.now (given name.now (map string_bytes args.now) settings.now)))
        (O.contents out.old) (O.contents out.new) (E.contents err.old) (E.contents err.new)) }
{
    match task_of(alloc, name, bytes, args, settings) {
        Ok(mut machine) => run_task(alloc, &mut machine, out, err),
        Err(refusal) => {
            let words = settings.words(name, args);
            let told = refused_run_why(alloc, bytes, &words, refusal, explain);
            write(told, out, err)
        }
    }
}

/// What `run` writes for a file of this name with these bytes: one task whose arguments are the name and
/// `args`, with the environment and the limit of the settings, is run to its end. A trap adds a line to
/// standard error, and so does each of its two streams that has taken all the bytes that it takes.
/// The status is the lowest 8 bits of the task's exit status. If there is no task, that is a line
/// on standard error, and the status is 125. `NoMemory`, and no other refusal, if memory runs out
/// for anything but what the task itself may be refused.
pub fn run_file(
    alloc: Global,
    name: &str,
    bytes: &[u8],
    args: &[String],
    settings: &Settings,
) -> Result<Ran, Refusal>
    ensures ran { IfOk result
        (IsRun bytes.now (given name.now (map string_bytes args.now) settings.now)) }
    ensures errors { IfErr result (λ e. e ≡ refusal.NoMemory) }
{
    let mut out = Vec::new(alloc);
    let mut err = Vec::new(alloc);
    match run(
        alloc, name, bytes, args, settings, false, &mut out, &mut err,
    ) {
        Ok(status) => Ok(Ran {
            out: Sequence::new(out),
            err: Sequence::new(err),
            status,
        }),
        Err(_) => Err(Refusal::NoMemory),
    }
}
