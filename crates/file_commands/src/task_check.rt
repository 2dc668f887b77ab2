//! The command `check --task`.

ghost use Rattle.std.specs.Prelude.{◌≡◌, ◌≢◌, ◌++◌, [], false, true, IfOk, IfErr, codes, string_bytes};
ghost use Rattle.wasm_ast.specs.declared.refusal.Refusal.TheVariants as refusal;
ghost use Rattle.step_machine.specs.MachineView.{MachineView};
ghost use Rattle.file_commands.specs.Ran.{line, refused};
ghost use Rattle.file_commands.specs.Explained.{IsExplained, IsToldBy};
ghost use Rattle.file_commands.specs.Checked.{list_if, IsTaskChecked};
ghost use Rattle.file_commands.specs.TaskRun.{given, CannotRun};
ghost use Rattle.file_commands.specs.Inside.Written.{IsOpened};

use crate::check::checked_text;
use crate::explain::refused_why;
use crate::ran::Ran;
use crate::run::task_of;
use crate::settings::Settings;
use std::alloc::Global;
use wasm_ast::Refusal;

// What is written for the module in a file, if a task can be made of it. The task makes no turn.
fn opened_text(
    alloc: Global,
    name: &str,
    bytes: &[u8],
    list: bool,
    settings: &Settings,
) -> Result<String, Refusal>
    ensures ok { IfOk result
        (λ s. (v : MachineView) × IsOpened bytes.now (given name.now [] settings.now) v
        × (string_bytes s ≡ line (codes "ok") ++ list_if list v.module)) }
    ensures err { IfErr result
        (λ e. e ≢ refusal.NoMemory → CannotRun bytes.now (given name.now [] settings.now) e) }
{
    let machine = task_of(alloc, name, bytes, &[], settings)?;
    Ok(checked_text(alloc, machine.flat().valid(), list)?)
}

/// What `check --task` writes, with or without the reason of a refusal.
pub(crate) fn task_checked(
    alloc: Global,
    name: &str,
    bytes: &[u8],
    list: bool,
    settings: &Settings,
    explain: bool,
) -> Result<Ran, Refusal>
    ensures ran { IfOk result (IsToldBy explain refused
        (IsTaskChecked bytes.now (given name.now [] settings.now) list)) }
    ensures errors { IfErr result (λ e. e ≡ refusal.NoMemory) }
{
    match opened_text(alloc, name, bytes, list, settings) {
        Ok(text) => Ok(Ran::succeeded(alloc, text)),
        Err(refusal) => {
            let words = settings.words(name, &[]);
            refused_why(alloc, bytes, Some(&words), refusal, explain)
        }
    }
}
