//! What definitions come to, computed. Each function has a contract and no body.

ghost use Rattle.std.specs.Prelude.{◌≡◌, ◌∷◌, [], Some, None, true, false, codes};
ghost use Rattle.file_commands.specs.Command.{number_from};
ghost use Rattle.step_machine.specs.declared.ends.End.TheVariants as ends;
ghost use Rattle.file_commands.specs.Ran.{line};
ghost use Rattle.file_commands.specs.TaskRun.{can_have, full_line, end_lines};

/// The numbers that the words of a command line give.
pub fn limits_are_numbers()
    ensures none { number_from None ≡ None }
    ensures nothing { number_from (Some (codes "0")) ≡ Some 0 }
    ensures bytes { number_from (Some (codes "65536")) ≡ Some 65536 }
{}

/// What a task can be given.
pub fn tasks_are_given_what_configs_give()
    ensures alone { can_have (record { args = codes "m" ∷ []; env = []; limit = None }) ≡ true }
    ensures entry { can_have
        (record { args = codes "m" ∷ []; env = codes "a=" ∷ []; limit = Some 0 })
        ≡ true }
    ensures no_entry { can_have
        (record { args = codes "m" ∷ []; env = codes "a" ∷ []; limit = None })
        ≡ false }
{}

/// The lines of streams that are full.
pub fn full_streams_are_told()
    ensures below { full_line (codes "it") 65535 ≡ [] }
    ensures full { full_line (codes "it") 65536 ≡ line (codes "it is full: 65536 bytes") }
    ensures neither { end_lines [] [] ends.Returned ≡ [] }
{}
