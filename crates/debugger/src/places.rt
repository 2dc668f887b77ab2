//! Places of instructions.

ghost use Rattle.std.specs.Prelude.{◌≡◌};
ghost use Rattle.step_machine.specs.Places.{has_place};

use step_machine::Machine;

/// Whether a function of the machine's module, imports counted first, has an instruction with this
/// number in its body. An import has none. The time is linear in the module.
pub fn place_exists(machine: &Machine, func: u64, place: u64) -> bool
    ensures { result ≡ has_place machine.now.module func place }
{
    machine.flat().find_place(func, place).is_some()
}
