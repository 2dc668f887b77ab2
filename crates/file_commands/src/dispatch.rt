//! Carries out a command that reads one file, or none, and comes to an end by itself.

ghost use Rattle.std.specs.Prelude.{◌≡◌, IfOk, MatchOption, None, Some};
ghost use Rattle.file_commands.specs.Ran.{succeeded};
ghost use Rattle.file_commands.specs.TaskRun.{IsWritten};
ghost use Rattle.file_commands.specs.Performed.{file_of, IsPerformed};

use crate::asm::assembled;
use crate::check::check;
use crate::command::Command;
use crate::ran::{Ran, write};
use crate::replay::replayed;
use crate::run::run;
use crate::run_error::RunError;
use std::alloc::Global;
use std::io::Write;
use wasm_ast::Refusal;

/// The name of the file that a command reads, if it reads one.
pub fn file_of(command: &Command) -> Option<&str>
    ensures { MatchOption result
        (file_of command.now ≡ None)
        (λ f. file_of command.now ≡ Some f.now) }
{
    match command {
        Command::Replay { file } => Some(file.as_str()),
        Command::Asm { file, .. } => Some(file.as_str()),
        Command::Check { file, .. } => Some(file.as_str()),
        Command::Run { module, .. } => Some(module.as_str()),
        Command::Serve { .. } | Command::Show { .. } => None,
    }
}

// What is shown.
fn shown(alloc: Global, text: &str) -> Result<Ran, Refusal>
    ensures { IfOk result (λ ran. ran ≡ succeeded text.now) }
{
    Ok(Ran::succeeded(alloc, String::from_str(alloc, text)?))
}

/// Carries out a command whose file has these bytes: writes what it writes to both streams, and flushes them.
/// The answer is the status that the program ends with. `run` writes while its task runs. Of `serve`, which
/// answers its lines as they come, nothing is done here.
///
/// `StandardOutput` or `StandardError` if that stream failed. `OutOfMemory` if memory runs out for anything
/// but what a task itself, or a request of a script, may be refused. What was written stays written.
pub fn perform<O: Write, E: Write>(
    alloc: Global,
    command: &Command,
    bytes: &[u8],
    out: &mut O,
    err: &mut E,
) -> Result<u8, RunError>
    ensures { IfOk result (IsWritten (IsPerformed command.now bytes.now)
        (O.contents out.old) (O.contents out.new) (E.contents err.old) (E.contents err.new)) }
{
    match command {
        Command::Serve { .. } => write(Ok(Ran::answered(alloc, Vec::new(alloc))), out, err),
        Command::Replay { .. } => write(replayed(alloc, bytes), out, err),
        Command::Asm { explain, .. } => write(assembled(alloc, bytes, *explain), out, err),
        Command::Check {
            file,
            list,
            task,
            memory,
            explain,
        } => write(
            check(alloc, file.as_str(), bytes, *list, *task, *memory, *explain),
            out,
            err,
        ),
        Command::Run {
            module,
            args,
            settings,
            explain,
        } => run(
            alloc,
            module.as_str(),
            bytes,
            args.as_slice(),
            settings,
            *explain,
            out,
            err,
        ),
        Command::Show { text } => write(shown(alloc, text.as_str()), out, err),
    }
}
