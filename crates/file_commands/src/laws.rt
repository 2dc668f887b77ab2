//! What is proved of the definitions of the commands.

ghost use Rattle.std.specs.Prelude.{◌≡◌, ◌≢◌, ◌≤◌, ◌∷◌, ℕ, List, Bool, Option, Some, Err, codes, map, string_bytes};
ghost use Rattle.clap.specs.Walk.{Row, Text};
ghost use Rattle.file_commands.specs.Command.{command_in, file_in, module_in, Name};
ghost use Rattle.file_commands.specs.declared.command.Command.TheVariants as command;
ghost use Rattle.wasm_ast.specs.declared.module.Module.{Module};
ghost use Rattle.wasm_ast.specs.declared.refusal.Refusal.{Refusal};
ghost use Rattle.wasm_ast.specs.declared.refusal.Refusal.TheVariants as refusal;
ghost use Rattle.task_requests.specs.declared.event.Event.{Event};
ghost use Rattle.task_board.specs.BoardState.{BoardState};
ghost use Rattle.task_board.specs.Choices.{IsDetermined};
ghost use Rattle.request_lines.specs.Reply.{json_of, line_text};
ghost use Rattle.request_lines.specs.Request.{IsEvent};
ghost use Rattle.file_commands.specs.declared.ran.Ran.{Ran};
ghost use Rattle.file_commands.specs.Source.{IsSource, IsNoSource};
ghost use Rattle.file_commands.specs.Assembled.{IsAssembled};
ghost use Rattle.file_commands.specs.Checked.{IsChecked, IsTaskChecked};
ghost use Rattle.file_commands.specs.Ran.{refused, refused_run};
ghost use Rattle.file_commands.specs.TaskRun.{Given, IsRun};
ghost use Rattle.file_commands.specs.Explained.{IsExplained, AnswersAs};
ghost use Rattle.file_commands.specs.Replay.{IsReplied};

use step_machine::laws::{cuts_commute, halted_stays};
use task_board::laws::events_are_determined;
use text_assembler::laws::denotes_one;
use wasm_binary::laws::{over_spells_none_within, spells_one};

/// What a command line names: `serve` a number of workers from 1 to 16; `replay`, `asm` and `check` the FILE
/// among their arguments; `run` the MODULE among its arguments with the words after it.
pub fn commands_name_what_they_take()
    ensures workers { (arguments : List Text) (workers : ℕ) (scripts callers : _)
        (explain log : Bool) (format : _)
        → Name arguments (command.Serve workers scripts callers explain log format)
        → (1 ≤ workers) × (workers ≤ 16) }
    ensures replay { (arguments : List Text) (file : _)
        → Name arguments (command.Replay file)
        → (rows : List Row) × (command_in arguments ≡ Some (codes "replay", rows))
        × (file_in rows ≡ Some (string_bytes file)) }
    ensures asm { (arguments : List Text) (file output : _) (explain : Bool)
        → Name arguments (command.Asm file output explain)
        → (rows : List Row) × (command_in arguments ≡ Some (codes "asm", rows))
        × (file_in rows ≡ Some (string_bytes file)) }
    ensures check { (arguments : List Text) (file : _) (list task : Bool) (memory : Option ℕ)
        (explain : Bool)
        → Name arguments (command.Check file list task memory explain)
        → (rows : List Row) × (command_in arguments ≡ Some (codes "check", rows))
        × (file_in rows ≡ Some (string_bytes file)) }
    ensures run { (arguments : List Text) (name args settings : _) (explain : Bool)
        → Name arguments (command.Run name args settings explain)
        → (rows : List Row) × (command_in arguments ≡ Some (codes "run", rows))
        × (module_in rows ≡ Some (string_bytes name ∷ map string_bytes args.items)) }
{}

/// A file has at most one module, and one that has a module is not refused for having none.
pub fn one_module_to_a_file()
    ensures one { (bytes : List ℕ) (m n : Module) → IsSource bytes m → IsSource bytes n → m ≡ n }
    ensures either { (bytes : List ℕ) (m : Module) (e : Refusal) → IsSource bytes m
        → IsNoSource bytes e → ⊥ }
{
    spells_one();
    over_spells_none_within();
    denotes_one();
}

/// What `asm` writes to standard output and its status are determined by the bytes of the file.
pub fn encodings_are_determined()
    ensures { (bytes : List ℕ) (r s : Ran) → IsAssembled bytes r → IsAssembled bytes s
        → (r.out ≡ s.out) × (r.status ≡ s.status) }
{
    one_module_to_a_file();
}

/// What `check` writes to standard output and its status are determined by the bytes of the file.
pub fn checks_are_determined()
    ensures { (bytes : List ℕ) (list : Bool) (r s : Ran) → IsChecked bytes list r
        → IsChecked bytes list s → (r.out ≡ s.out) × (r.status ≡ s.status) }
{
    one_module_to_a_file();
}

/// What `check --task` writes to standard output and its status are determined by the bytes of the
/// file and by what the task is given.
pub fn task_checks_are_determined()
    ensures { (bytes : List ℕ) (g : Given) (list : Bool) (r s : Ran) → IsTaskChecked bytes g list r
        → IsTaskChecked bytes g list s → (r.out ≡ s.out) × (r.status ≡ s.status) }
{
    one_module_to_a_file();
}

/// What `run` writes to standard output and its status are determined by the bytes of the file and by what
/// the task is given: a task has one end.
pub fn runs_are_determined()
    ensures { (bytes : List ℕ) (g : Given) (r s : Ran) → IsRun bytes g r → IsRun bytes g s
        → (r.out ≡ s.out) × (r.status ≡ s.status) }
{
    one_module_to_a_file();
    halted_stays();
    cuts_commute();
}

/// With `--explain` each command has a standard output and a status that it may have without, and
/// its standard error begins with what it writes there without.
pub fn reasons_change_nothing()
    ensures asm { (bytes : List ℕ) (r : Ran) → IsExplained refused (IsAssembled bytes) r
        → AnswersAs (IsAssembled bytes) r }
    ensures check { (bytes : List ℕ) (list : Bool) (r : Ran)
        → IsExplained refused (IsChecked bytes list) r → AnswersAs (IsChecked bytes list) r }
    ensures task { (bytes : List ℕ) (g : Given) (list : Bool) (r : Ran)
        → IsExplained refused (IsTaskChecked bytes g list) r
        → AnswersAs (IsTaskChecked bytes g list) r }
    ensures run { (bytes : List ℕ) (g : Given) (r : Ran)
        → IsExplained refused_run (IsRun bytes g) r → AnswersAs (IsRun bytes g) r }
{}

/// What a line of a script is answered, and the board that it leaves, are determined by the line and the
/// board, unless the line is a create or a put of a text, or memory ran out.
pub fn script_lines_are_determined()
    ensures { (s : BoardState) (line : List ℕ)
        (text : List ℕ) (s1 : BoardState) (text' : List ℕ) (s2 : BoardState)
        → ((e : Event) → IsEvent line e → IsDetermined e)
        → text ≢ line_text (json_of (Err refusal.NoMemory))
        → text' ≢ line_text (json_of (Err refusal.NoMemory))
        → IsReplied s line text s1 → IsReplied s line text' s2 → (text ≡ text') × (s1 ≡ s2) }
{
    events_are_determined();
}
