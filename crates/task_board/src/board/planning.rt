//! What requests are prepared as. Nothing that a call can see changes here.

ghost use Rattle.std.specs.Prelude.{◌≡◌, ◌≢◌, [], Some, None, Ok, Err, IfOk, IsOk, option_map, false, ◌<◌, OnOk};
ghost use Rattle.std.specs.Arc.{arc_value};
ghost use Rattle.oci_config.specs.Processes.{config_of};
ghost use Rattle.oci_config.specs.declared.process.ProcessConfig.{ProcessConfig as ProcessValue};
ghost use Rattle.task_requests.specs.declared.request.Request.TheVariants as request;
ghost use Rattle.task_board.specs.Refusals.{Openable, is_full, CannotOpen, id_refusals};
ghost use Rattle.task_requests.specs.Memory.{asks_for_memory};
ghost use Rattle.task_board.specs.Step.{Step};
ghost use Rattle.task_board.specs.Inside.Machines.{IsMachine};
ghost use Rattle.task_board.specs.Inside.Plans.{Plans, PlansTask};
ghost use Rattle.task_board.specs.Inside.OpenedModules.{IsOpen};
ghost use Rattle.content_leases.specs.StoreState.{content_in};
ghost use Rattle.task_requests.specs.declared.request.Ask.TheVariants as ask;
ghost use Rattle.content_leases.specs.Digests.{digest_of};
ghost use Rattle.content_leases.specs.Refusals.{first_refusal};
ghost use Rattle.wasm_ast.specs.declared.refusal.Refusal.{Refusal as Reason};

use crate::board::{Board, MAX_TASKS};
use crate::checkout::Shared;
use crate::open::{instantiate, module_of};
use crate::prepared::Plan;
use crate::store_change::StoreChange;
use crate::task::{Task, find_task, is_used, used_digests};
use content_leases::{Members, Store, digest_of};
use oci_config::{Process, ProcessConfig, read_config};
use std::alloc::{AllocError, Global};
use std::sync::Arc;
use step_machine::{FlatModule, Machine};
use task_requests::{Ask, Request, SharedBytes};
use text_assembler::assemble;
use wasm_ast::{Bytes, Refusal, Sequence, Text, is_id};

/// The most creates that a board accepts.
const MAX_CREATES: u64 = 1 << 60;

// These bytes, for several owners.
fn shared(alloc: Global, bytes: Vec<u8>) -> Result<SharedBytes, AllocError>
    ensures { IfOk result (λ b. b ≡ bytes.items) }
{
    SharedBytes::new(alloc, Sequence::new(bytes))
}

impl Board {
    // What is asked of the task with an id is prepared as this.
    pub(crate) fn plan_ask(&self, id: Text, ask: Ask) -> Result<Plan, AllocError>
        ensures ok { IfOk result
            (λ p. Plans self.now.state self.now.room (request.Task id ask) p) }
        ensures quiet { asks_for_memory ask ≡ false → IsOk result }
    {
        if !is_id(id.as_str()) {
            return Ok(Plan::Refused(Refusal::BadId));
        }
        match find_task(&self.tasks, id.as_str()) {
            Some((slot, task)) => task.plan(self.alloc, slot, id, ask),
            None => Ok(Plan::Refused(Refusal::NotFound)),
        }
    }

    // Makes room for one content more. An error if that cannot be allocated.
    fn reserve_content(&mut self) -> Result<(), AllocError>
        ensures same { (self.new.state ≡ self.old.state) × (self.new.waiting ≡ self.old.waiting) }
        ensures room { OnOk result (0 < self.new.room.contents) }
    {
        self.store.reserve_content()
    }

    // What a put is prepared as.
    pub(crate) fn prepare_put(&mut self, bytes: SharedBytes) -> Result<Plan, AllocError>
        ensures same { (self.new.state ≡ self.old.state) × (self.new.waiting ≡ self.old.waiting) }
        ensures ok { IfOk result
            (λ p. Plans self.new.state self.new.room (request.Put bytes) p) }
    {
        let digest = digest_of(self.alloc, bytes.as_bytes().as_slice())?;
        if let Some(refusal) = self.store.refusal_of_put(&digest, bytes.as_bytes()) {
            return Ok(Plan::Refused(refusal));
        }
        self.reserve_content()?;
        let key = String::from_str(self.alloc, digest.as_str())?;
        let bytes = bytes.into_arc();
        Ok(Plan::Store(StoreChange::Put { key, bytes, digest }))
    }

    // What a put of a text is prepared as: a put of the bytes that it is assembled to.
    pub(crate) fn prepare_put_text(&mut self, text: Text) -> Result<Plan, AllocError>
        ensures same { (self.new.state ≡ self.old.state) × (self.new.waiting ≡ self.old.waiting) }
        ensures ok { IfOk result
            (λ p. Plans self.new.state self.new.room (request.PutText text) p) }
    {
        match assemble(self.alloc, text.as_str()) {
            Ok(bytes) => {
                let bytes = shared(self.alloc, bytes)?;
                self.prepare_put(bytes)
            }
            Err(Refusal::NoMemory) => Err(AllocError),
            Err(refusal) => Ok(Plan::Refused(refusal)),
        }
    }

    // What a removal of the content under a digest is prepared as.
    pub(crate) fn plan_remove(&self, digest: Text) -> Plan
        ensures { Plans self.now.state self.now.room (request.Remove digest) result }
    {
        let is_used = is_used(&self.tasks, digest.as_str());
        match self.store.refusal_of_remove(digest.as_str(), is_used) {
            Some(refusal) => Plan::Refused(refusal),
            None => Plan::Store(StoreChange::Remove { digest }),
        }
    }

    // Makes room for one lease more. An error if that cannot be allocated.
    fn reserve_lease(&mut self) -> Result<(), AllocError>
        ensures same { (self.new.state ≡ self.old.state) × (self.new.waiting ≡ self.old.waiting) }
        ensures room { OnOk result (0 < self.new.room.leases) }
    {
        self.store.reserve_lease()
    }

    // What a lease's creation is prepared as.
    pub(crate) fn prepare_lease_create(&mut self, id: Text) -> Result<Plan, AllocError>
        ensures same { (self.new.state ≡ self.old.state) × (self.new.waiting ≡ self.old.waiting) }
        ensures ok { IfOk result
            (λ p. Plans self.new.state self.new.room (request.LeaseCreate id) p) }
    {
        if let Some(refusal) = self.store.refusal_of_lease_create(id.as_str()) {
            return Ok(Plan::Refused(refusal));
        }
        self.reserve_lease()?;
        let key = String::from_str(self.alloc, id.as_str())?;
        let members = Members::new(self.alloc)?;
        Ok(Plan::Store(StoreChange::LeaseCreate { key, members, id }))
    }

    // What an addition to a lease is prepared as.
    pub(crate) fn prepare_lease_add(&self, digest: Text, id: Text) -> Result<Plan, AllocError>
        ensures { IfOk result
            (λ p. Plans self.now.state self.now.room (request.LeaseAdd digest id) p) }
    {
        if let Some(refusal) = self
            .store
            .refusal_of_lease_add(digest.as_str(), id.as_str())
        {
            return Ok(Plan::Refused(refusal));
        }
        let key = String::from_str(self.alloc, digest.as_str())?;
        Ok(Plan::Store(StoreChange::LeaseAdd { key, digest, id }))
    }

    // What the end of a lease is prepared as.
    pub(crate) fn plan_lease_delete(&self, id: Text) -> Plan
        ensures { Plans self.now.state self.now.room (request.LeaseDelete id) result }
    {
        match self.store.refusal_of_lease_delete(id.as_str()) {
            Some(refusal) => Plan::Refused(refusal),
            None => Plan::Store(StoreChange::LeaseDelete { id }),
        }
    }

    // What a removal of all contents that are not held is prepared as.
    pub(crate) fn prepare_gc(&self) -> Result<Plan, AllocError>
        ensures { IfOk result (λ p. Plans self.now.state self.now.room request.Gc p) }
    {
        let used = used_digests(self.alloc, &self.tasks)?;
        let removed = Sequence::new(self.store.unheld(used.as_slice())?);
        Ok(Plan::Store(StoreChange::Gc { used, removed }))
    }

    // Whether no other task can be created.
    #[tactic(auto, using(crate::proofs::SlabLemmas::count))]
    fn is_full(&self) -> bool
        ensures { result ≡ is_full self.now.state }
    {
        self.tasks.len() >= MAX_TASKS || self.creates >= MAX_CREATES
    }

    // Why no task with this id can be created, whatever its config is.
    fn refusal_of_id(&self, id: &str) -> Option<Refusal>
        ensures { result ≡ first_refusal (id_refusals self.now.state id.now) }
    {
        if !is_id(id) {
            Some(Refusal::BadId)
        } else if find_task(&self.tasks, id).is_some() {
            Some(Refusal::Exists)
        } else if self.is_full() {
            Some(Refusal::TooMany)
        } else {
            None
        }
    }

    // The stored bytes under a digest, shared.
    fn shared_content(&self, digest: &str) -> Result<Option<Arc<Bytes>>, AllocError>
        ensures { IfOk result (λ o. option_map (λ b. arc_value b) o
            ≡ content_in self.now.state.store.contents digest.now) }
    {
        match self.store.content(digest) {
            Some(bytes) => Ok(Some(Arc::try_clone(bytes)?)),
            None => Ok(None),
        }
    }

    // The valid module that the content under a digest spells, with its flat code. That is made once, and
    // again after it was dropped. Each refusal but `NoMemory` is a reason why there is none.
    fn open(&mut self, digest: &str, bytes: &Arc<Bytes>) -> Result<FlatModule, Refusal>
        requires { content_in self.old.state.store.contents digest.now
            ≡ Some (arc_value bytes.now) }
        ensures same { self.new ≡ self.old }
        ensures ok { IfOk result (λ m. IsOpen (arc_value bytes.now) m) }
        ensures refused { (e : Reason) (p : ProcessValue) → result ≡ Err e → e ≢ Refusal.NoMemory
            → CannotOpen (arc_value bytes.now) p e }
    {
        if let Some(flat) = self.opened.get(digest) {
            return Ok(flat.share()?);
        }
        self.opened.drop_idle(&self.store, &self.tasks);
        let flat = module_of(self.alloc, bytes.as_slice())?;
        self.opened.add(self.alloc, digest, flat.share()?)?;
        Ok(flat)
    }

    // What a create is prepared as, once there is a machine for its task.
    fn plan_create(
        &self,
        id: Text,
        process: ProcessConfig,
        bytes: Arc<Bytes>,
        machine: Machine,
    ) -> Result<Plan, AllocError>
        requires opens { Openable (arc_value bytes) process machine.module }
        requires fresh { IsMachine machine machine.module process 0 }
        ensures { IfOk result (λ p. PlansTask self.now.state id (arc_value bytes) process p) }
    {
        let answered = id.copy(self.alloc)?;
        let flat = machine.flat().share()?;
        let machine = Box::new(self.alloc, machine)?;
        let shared = Shared {
            id,
            bytes,
            flat,
            process,
        };
        let task = Task::new(self.alloc, shared, self.creates, machine)?;
        Ok(Plan::Create { task, id: answered })
    }

    // What a create is prepared as, from stored bytes and the module that they spell.
    fn prepare_task(
        &self,
        id: Text,
        process: Process,
        bytes: Arc<Bytes>,
        flat: FlatModule,
    ) -> Result<Plan, AllocError>
        requires nothing_written { (process.out ≡ []) × (process.err ≡ []) }
        requires opened { IsOpen (arc_value bytes) flat }
        ensures { IfOk result
            (λ p. PlansTask self.now.state id (arc_value bytes) (config_of process) p) }
    {
        let config = process.config(self.alloc)?;
        match instantiate(self.alloc, flat, process) {
            Ok(machine) => self.plan_create(id, config, bytes, machine),
            Err(Refusal::NoMemory) => Err(AllocError),
            Err(refusal) => Ok(Plan::Refused(refusal)),
        }
    }

    // What a create is prepared as, from stored bytes.
    fn prepare_opened(
        &mut self,
        id: Text,
        process: Process,
        bytes: Arc<Bytes>,
    ) -> Result<Plan, AllocError>
        requires nothing_written { (process.out ≡ []) × (process.err ≡ []) }
        requires stored { content_in self.old.state.store.contents process.module
            ≡ Some (arc_value bytes) }
        ensures same { self.new ≡ self.old }
        ensures ok { IfOk result
            (λ p. PlansTask self.old.state id (arc_value bytes) (config_of process) p) }
    {
        match self.open(process.module.as_str(), &bytes) {
            Ok(flat) => self.prepare_task(id, process, bytes, flat),
            Err(Refusal::NoMemory) => Err(AllocError),
            Err(refusal) => Ok(Plan::Refused(refusal)),
        }
    }

    // What a create is prepared as.
    pub(crate) fn prepare_create(&mut self, config: Text, id: Text) -> Result<Plan, AllocError>
        ensures same { self.new ≡ self.old }
        ensures ok { IfOk result
            (λ p. Plans self.old.state self.old.room (request.Create config id) p) }
    {
        if let Some(refusal) = self.refusal_of_id(id.as_str()) {
            return Ok(Plan::Refused(refusal));
        }
        let process = match read_config(self.alloc, config.as_str().as_bytes()) {
            Ok(process) => process,
            Err(Refusal::NoMemory) => return Err(AllocError),
            Err(refusal) => return Ok(Plan::Refused(refusal)),
        };
        match self.shared_content(process.module.as_str())? {
            Some(bytes) => self.prepare_opened(id, process, bytes),
            None => Ok(Plan::Refused(Refusal::NoContent)),
        }
    }
}
