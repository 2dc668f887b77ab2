//! The machine.

ghost use Rattle.label_machine.specs.declared.machine.State.TheVariants.{Going as going};
ghost use Rattle.std.specs.Prelude.{◌≡◌, ◌≢◌, ◌+◌, ◌&&◌, ℕ, IfOk, OnOk, Err, Some, None, is_some, [], length, true};
ghost use Rattle.wasm_ast.specs.declared.refusal.Refusal.{Refusal as Reason};
ghost use Rattle.wasm_ast.specs.declared.refusal.Refusal.TheVariants as refusal;
ghost use Rattle.oci_config.specs.Processes.{config_of};
ghost use Rattle.oci_config.specs.declared.process.ProcessConfig.{ProcessConfig};
ghost use Rattle.step_machine.specs.Instantiation.{ended, instantiation_refusal, initial, entry as entry_of, zero_memory, empty_table, are_pages_within, are_elements_inside, are_segments_inside};
ghost use Rattle.step_machine.specs.HostCalls.{all_known};
ghost use Rattle.step_machine.specs.MachineView.{state_of, output_of};
ghost use Rattle.step_machine.specs.Program.{program};
ghost use Rattle.step_machine.specs.Shown.{shown};
ghost use Rattle.label_machine.specs.Inside.Runs.{LeadsTo};
ghost use Rattle.label_machine.specs.Inside.Reached.{state_from, kept_by, Reached as reached_by, IsFirst};
ghost use Rattle.label_machine.specs.Inside.Sound.{IsSound, AreInvoked};

use crate::execute::execute;
use crate::first_store::first_store;
use crate::numbered::number_all;
use crate::outermost::begin;
use crate::run::{Run, Step};
use crate::settle::settle;
use crate::shown::shown_frames;
use crate::sound::sound;
use crate::store::Store;
use oci_config::{Process, Stream};
use std::alloc::{AllocError, Global};
use std::marker::Model;
use step_machine::{End, LAST_TURN, find_entry};
use validator::Valid;
use wasm_ast::{Module, Refusal, ShownFrame, Trap};

/// How far a machine has come: before an instruction, or at an end.
#[derive(Drop)]
pub enum State<'m> {
    Going(Run<'m>),
    Ended(End, Store),
}

/// A machine that keeps its labels. Contracts see what they see of any machine: its module, its process
/// as configured and how many turns it has made.
#[derive(Drop)]
pub struct LabelMachine<'m> {
    alloc: Global,
    of: &'m Module,
    state: State<'m>,
    turns: u64,
}

impl<'m> Model for LabelMachine<'m> {
    ghost use Rattle.step_machine.specs.MachineView.{MachineView};

    ghost Value = { MachineView };

    ghost use Rattle.step_machine.specs.Inside.Code.{machine_code};

    ghost coded = { machine_code };

    ghost use Rattle.label_machine.specs.Inside.Reached.{process_of, Reached};
    ghost use Rattle.label_machine.specs.Inside.Sound.{IsSound};

    ghost view = { λ m. record { «module» = m.of.now; process = process_of m.state; turns = m.turns } };

    ghost invariant = { λ m. Reached m.of.now (process_of m.state) m.turns m.state
        × IsSound m.of.now (process_of m.state) };
}

/// What data that are settled have come to.
fn state_from(step: Step) -> State
    requires { is_some (state_from step) ≡ true }
    ensures { state_from step.entry ≡ Some result }
{
    match step {
        Step::Waits(run) => State::Going(run),
        Step::Ends(end, store) => State::Ended(end, store),
        Step::Goes(_, _) | Step::Stuck => unreachable!(),
    }
}

/// Invokes the start function, if there is one, and else the entry, which is pending after it.
fn first_step<'m>(
    alloc: Global,
    of: &'m Module,
    entry: u32,
    store: Store,
) -> Result<Step<'m>, AllocError>
    ensures { (p : ProcessConfig) → IfOk result (λ s. entry_of of.now ≡ Some entry
        → IsFirst of.now p store → AreInvoked of.now p
        → LeadsTo (program of.now p) (initial of.now p) s) }
{
    match of.start {
        Some(func) => begin(alloc, of, func, Some(entry), store),
        None => begin(alloc, of, entry, None, store),
    }
}

/// The store that a machine has.
fn store_of<'a>(state: &'a State) -> &'a Store
    ensures { result.now ≡ kept_by state.now }
{
    match state {
        State::Going(run) => &run.store,
        State::Ended(_, store) => store,
    }
}

/// The turn with this number.
fn next_state<'m>(
    alloc: Global,
    of: &'m Module,
    run: Run<'m>,
    number: u64,
) -> Result<State<'m>, AllocError>
    requires reached { (p : ProcessConfig) × (n : ℕ) × (number ≡ n + 1)
        × reached_by of.now p n (going run) × IsSound of.now p }
    ensures { (p : ProcessConfig) (n : ℕ) → number ≡ n + 1
        → IfOk result
        (λ s. reached_by of.now p n (going run.entry) → reached_by of.now p number s) }
{
    if number == LAST_TURN {
        return Ok(State::Ended(End::Trapped(Trap::TurnLimit), run.store));
    }
    let step = settle(alloc, of, execute(alloc, of, run)?)?;
    Ok(state_from(step))
}

impl<'m> LabelMachine<'m> {
    /// Instantiates a module as a task under a process that has written nothing (4.5.4), with no turn made.
    /// The first of these refusals that holds: `NoEntry`, `BadImport`, `Limit` and `SegmentOutOfBounds`,
    /// as of any machine. If none holds, `NoMemory` if memory cannot be allocated, or if a body has more
    /// instructions than 32 bits can number.
    pub fn new(
        alloc: Global,
        valid: &'m Valid,
        process: Process,
    ) -> Result<LabelMachine<'m>, Refusal>
        requires nothing_written { (process.out ≡ []) × (process.err ≡ []) }
        ensures machine { IfOk result (λ m. m
            ≡ record { «module» = valid.now; process = config_of process; turns = 0 }) }
        ensures opens { OnOk result (instantiation_refusal valid.now (config_of process) ≡ None) }
        ensures first { (e : Reason) → instantiation_refusal valid.now (config_of process) ≡ Some e
            → result ≡ Err e }
        ensures refused { (e : Reason) → result ≡ Err e → e ≢ refusal.NoMemory
            → instantiation_refusal valid.now (config_of process) ≡ Some e }
    {
        let of = valid.module();
        let entry = find_entry(of, of.is_within_limits(), process.cap)?;
        Ok(LabelMachine::from_entry(alloc, valid, entry, process)?)
    }

    // A machine of a module that can be instantiated, with this entry.
    fn from_entry(
        alloc: Global,
        valid: &'m Valid,
        entry: u32,
        process: Process,
    ) -> Result<LabelMachine<'m>, AllocError>
        requires entry { entry_of valid.now ≡ Some entry }
        requires nothing_written { (process.out ≡ []) × (process.err ≡ []) }
        requires pages { are_pages_within valid.now.memories process.cap ≡ true }
        requires inside { are_elements_inside (length (empty_table valid.now.tables))
            valid.now.elements
            && are_segments_inside (zero_memory valid.now.memories process.cap) valid.now.segments
            ≡ true }
        requires opens { instantiation_refusal valid.now (config_of process) ≡ None }
        requires known { all_known valid.now.types valid.now.imports ≡ true }
        ensures { IfOk result (λ m. m
            ≡ record { «module» = valid.now; process = config_of process; turns = 0 }) }
    {
        let of = valid.module();
        number_all(of.funcs.as_slice())?;
        sound(valid, &process);
        let store = first_store(alloc, of, process)?;
        let first = first_step(alloc, of, entry, store)?;
        let settled = settle(alloc, of, first)?;
        Ok(LabelMachine {
            alloc,
            of,
            state: state_from(settled),
            turns: 0,
        })
    }

    /// How it has ended, if it has.
    pub fn halted(&self) -> Option<End>
        ensures { result ≡ ended (state_of self.now) }
    {
        match &self.state {
            State::Going(_) => None,
            State::Ended(end, _) => Some(*end),
        }
    }

    /// How many turns it has made.
    pub fn turns(&self) -> u64
        ensures { result ≡ self.now.turns }
    {
        self.turns
    }

    /// What it has written to an output stream.
    pub fn output(&self, stream: Stream) -> &[u8]
        ensures { result.now ≡ output_of self.now stream }
    {
        let process = &store_of(&self.state).process;
        match stream {
            Stream::Out => process.out.as_slice(),
            Stream::Err => process.err.as_slice(),
        }
    }

    /// Its frames, the innermost first; none if it has ended. An error if memory for them cannot be
    /// allocated.
    pub fn frames(&self, alloc: Global) -> Result<Vec<ShownFrame>, AllocError>
        ensures { IfOk result (λ v. v.items ≡ shown (state_of self.now)) }
    {
        match &self.state {
            State::Going(run) => shown_frames(alloc, run),
            State::Ended(_, _) => Ok(Vec::new(alloc)),
        }
    }

    /// Makes one turn. An error if memory runs out: then the machine is lost.
    pub fn turn(self) -> Result<LabelMachine<'m>, AllocError>
        requires { ended (state_of self) ≡ None }
        ensures { IfOk result (λ m. m ≡ record self.entry { turns = self.entry.turns + 1 }) }
    {
        let LabelMachine {
            alloc,
            of,
            state,
            turns,
        } = self;
        let State::Going(run) = state else {
            unreachable!();
        };
        let turns = turns + 1;
        Ok(LabelMachine {
            alloc,
            of,
            state: next_state(alloc, of, run, turns)?,
            turns,
        })
    }
}
