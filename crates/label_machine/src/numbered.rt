//! Whether 32 bits number the instructions of bodies.

ghost use Rattle.std.specs.Prelude.{All, OnOk};
ghost use Rattle.label_machine.specs.Inside.Sound.{IsNumbered};

use crate::places::places_in;
use std::alloc::AllocError;
use wasm_ast::Func;

fn number(func: &Func) -> Result<(), AllocError>
    ensures { OnOk result (IsNumbered func.now) }
{
    match places_in(&func.body) {
        Some(_count) => Ok(()),
        None => Err(AllocError),
    }
}

/// Shows that each body has fewer than 2^32 instructions. An error if one has not.
pub fn number_all(funcs: &[Func]) -> Result<(), AllocError>
    ensures { OnOk result (All IsNumbered funcs.now) }
{
    for func in funcs {
        number(func)?;
    }
    Ok(())
}
