//! What a task gives away while its slice is out, and gets back.

ghost use Rattle.std.specs.Prelude.{[], ◌≡◌, ◌||◌, IfOk};
ghost use Rattle.std.specs.Arc.{arc_value};
ghost use Rattle.step_machine.specs.Instantiation.{ended};
ghost use Rattle.step_machine.specs.MachineView.{state_of};
ghost use Rattle.step_machine.specs.Slices.{at_break};
ghost use Rattle.task_board.specs.Tasks.{exit_of, landing};

use oci_config::ProcessConfig;
use std::alloc::{AllocError, Global};
use std::sync::Arc;
use step_machine::{Breaks, End, FlatModule, Machine};
use task_lifecycle::{ExitRecord, Signal, Status};
use wasm_ast::{Bytes, Text};

/// What a task shares with the worker that runs a slice of it.
#[derive(Drop)]
pub struct Shared {
    pub id: Text,
    pub bytes: Arc<Bytes>,
    pub flat: FlatModule,
    pub process: ProcessConfig,
}

/// A machine, what its task shares with the worker that runs it, and the breakpoints that end its slices.
#[derive(Drop)]
pub struct Checkout {
    pub machine: Box<Machine>,
    pub shared: Arc<Shared>,
    pub breaks: Arc<Breaks>,
}

impl Checkout {
    /// A machine without breakpoints, and what its task shares. An error if memory runs out.
    pub fn new(
        alloc: Global,
        machine: Box<Machine>,
        shared: &Arc<Shared>,
    ) -> Result<Checkout, AllocError>
        ensures { IfOk result (λ c. (c.machine ≡ machine)
            × (arc_value c.shared ≡ arc_value shared.now) × (arc_value c.breaks ≡ [])) }
    {
        let breaks = no_breaks(alloc)?;
        let shared = Arc::try_clone(shared)?;
        Ok(Checkout {
            machine,
            shared,
            breaks,
        })
    }

    /// Where its task lands, with this signal pending, if anything else pauses it or not.
    pub fn landing(&self, signal: Option<Signal>, pauses: bool) -> (Status, Option<ExitRecord>)
        ensures { let state = state_of self.now.machine.value in result
            ≡ landing (ended state) signal (pauses || at_break (arc_value self.now.breaks) state) }
    {
        let halted = self.machine.halted();
        let pauses = pauses || (halted.is_none() && self.machine.is_at(&self.breaks));
        landing(halted, signal, pauses)
    }
}

fn exit_of(end: End) -> ExitRecord
    ensures { result ≡ exit_of end }
{
    match end {
        End::Returned => ExitRecord::Return,
        End::Exited(code) => ExitRecord::Exit(code),
        End::Trapped(trap) => ExitRecord::Trapped(trap),
    }
}

// Where a task lands that is idle again.
fn landing(
    halted: Option<End>,
    signal: Option<Signal>,
    pauses: bool,
) -> (Status, Option<ExitRecord>)
    ensures { result ≡ landing halted signal pauses }
{
    match (halted, signal) {
        (Some(end), _) => (Status::Stopped, Some(exit_of(end))),
        (None, Some(signal)) => (Status::Stopped, Some(ExitRecord::Kill(signal))),
        (None, None) => if pauses {
            (Status::Paused, None)
        } else {
            (Status::Running, None)
        },
    }
}

// The breakpoints of a new task.
fn no_breaks(alloc: Global) -> Result<Arc<Breaks>, AllocError>
    ensures { IfOk result (λ b. arc_value b ≡ []) }
{
    let breaks = Arc::new(alloc, Breaks::none(alloc)?)?;
    Ok(breaks)
}
