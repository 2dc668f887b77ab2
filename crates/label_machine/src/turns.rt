//! What makes turns, whichever way it keeps control.

ghost use Rattle.std.specs.Prelude.{◌≡◌, ◌+◌, IfOk, None};
ghost use Rattle.step_machine.specs.Instantiation.{ended};
ghost use Rattle.step_machine.specs.MachineView.{MachineView, state_of, output_of};
ghost use Rattle.step_machine.specs.Shown.{shown};

use crate::machine::LabelMachine;
use debugger::inspect;
use oci_config::Stream;
use std::alloc::{AllocError, Global};
use step_machine::{End, Machine};
use wasm_ast::ShownFrame;

/// A machine by how it makes turns (4.2.13, 4.4): with targets that are found before it runs, or with
/// labels that it keeps. The contract of each is the reduction's: its store, its frames, its outputs and its
/// end are those of the configuration after its turns, whichever it is.
pub trait Control: Sized {
    // what contracts see of a machine
    ghost seen: { Self → MachineView };

    /// How it has ended, if it has.
    fn halted(&self) -> Option<End>
        ensures { result ≡ ended (state_of (seen self.now)) };

    /// How many turns it has made.
    fn turns(&self) -> u64
        ensures { result ≡ (seen self.now).turns };

    /// What it has written to an output stream.
    fn output(&self, stream: Stream) -> &[u8]
        ensures { result.now ≡ output_of (seen self.now) stream };

    /// Its frames, the innermost first; none if it has ended. An error if memory for them runs out.
    fn frames(&self, alloc: Global) -> Result<Vec<ShownFrame>, AllocError>
        ensures { IfOk result (λ v. v.items ≡ shown (state_of (seen self.now))) };

    /// Makes one turn. An error if memory runs out: then the machine is lost.
    fn turn(self) -> Result<Self, AllocError>
        requires { ended (state_of (seen self)) ≡ None }
        ensures { IfOk result
            (λ m. seen m ≡ record (seen self) { turns = (seen self).turns + 1 }) };
}

impl Control for Machine {
    ghost seen = { λ m. m };

    fn halted(&self) -> Option<End> {
        Machine::halted(self)
    }

    fn turns(&self) -> u64 {
        Machine::turns(self)
    }

    fn output(&self, stream: Stream) -> &[u8] {
        Machine::output(self, stream)
    }

    fn frames(&self, alloc: Global) -> Result<Vec<ShownFrame>, AllocError> {
        match inspect(alloc, self) {
            Ok(shown) => Ok(shown.frames.into_vec()),
            Err(_) => Err(AllocError),
        }
    }

    fn turn(self) -> Result<Machine, AllocError> {
        let mut machine = self;
        Machine::turn(&mut machine);
        Ok(machine)
    }
}

impl<'m> Control for LabelMachine<'m> {
    ghost seen = { λ m. m };

    fn halted(&self) -> Option<End> {
        LabelMachine::halted(self)
    }

    fn turns(&self) -> u64 {
        LabelMachine::turns(self)
    }

    fn output(&self, stream: Stream) -> &[u8] {
        LabelMachine::output(self, stream)
    }

    fn frames(&self, alloc: Global) -> Result<Vec<ShownFrame>, AllocError> {
        LabelMachine::frames(self, alloc)
    }

    fn turn(self) -> Result<LabelMachine<'m>, AllocError> {
        LabelMachine::turn(self)
    }
}
