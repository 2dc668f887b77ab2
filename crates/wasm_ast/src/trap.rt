//! Why a computation was cut off.

ghost use Rattle.std.specs.Prelude.{◌≡◌, Some};
ghost use Rattle.wasm_ast.specs.Names.{trap_name};

use std::fmt;

/// A trap (4.2.2). The last two are limits of this profile.
#[derive(Clone, Copy, PartialEq, Eq, Debug)]
pub enum Trap {
    Unreachable,
    IntegerDivideByZero,
    IntegerOverflow,
    OutOfBoundsMemoryAccess,
    UndefinedElement,
    UninitializedElement,
    IndirectCallTypeMismatch,
    /// More frames or more values than the profile allows.
    Exhausted,
    /// The turn with the last number was reached.
    TurnLimit,
}

impl Trap {
    /// The name, as replies print it.
    pub fn name(&self) -> &'static str
        ensures { result.now ≡ trap_name self.now }
    {
        match self {
            Trap::Unreachable => "unreachable",
            Trap::IntegerDivideByZero => "integer divide by zero",
            Trap::IntegerOverflow => "integer overflow",
            Trap::OutOfBoundsMemoryAccess => "out of bounds memory access",
            Trap::UndefinedElement => "undefined element",
            Trap::UninitializedElement => "uninitialized element",
            Trap::IndirectCallTypeMismatch => "indirect call type mismatch",
            Trap::Exhausted => "exhausted",
            Trap::TurnLimit => "turn_limit",
        }
    }
}

impl fmt::Display for Trap {
    ghost use Rattle.std.specs.Prelude.{Some};
    ghost use Rattle.wasm_ast.specs.Names.{trap_name};

    ghost output = { λ t. Some (trap_name t) };

    fn fmt<W: fmt::Write>(&self, f: &mut fmt::Formatter<W>) -> fmt::Result {
        f.write_str(self.name())
    }
}
