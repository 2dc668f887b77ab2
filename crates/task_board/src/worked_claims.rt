//! What a reply says of its task, one request at a time: the tables of the claim, written out. Each function
//! has a contract and no body.

ghost use Rattle.std.specs.Prelude.{◌≡◌, ◌≢◌, ℕ, List, length, Option, Some, None, is_some, true};
ghost use Rattle.wasm_binary.specs.Spelled.{IsSpelled};
ghost use Rattle.validator.specs.Typing.{ValidModule};
ghost use Rattle.oci_config.specs.Config.{process_read};
ghost use Rattle.oci_config.specs.Streams.{stream_of};
ghost use Rattle.oci_config.specs.declared.stream.Stream.{Stream as StreamValue};
ghost use Rattle.content_leases.specs.StoreState.{StoreState, content_in};
ghost use Rattle.step_machine.specs.Instantiation.{after, ended};
ghost use Rattle.step_machine.specs.MachineView.{written_to};
ghost use Rattle.step_machine.specs.Shown.{shown};
ghost use Rattle.wasm_ast.specs.declared.shown.ShownFrame.{ShownFrame};
ghost use Rattle.debugger.specs.Peek.{peeked};
ghost use Rattle.task_lifecycle.specs.declared.status.Status.{Status as StatusValue};
ghost use Rattle.task_lifecycle.specs.declared.status.ExitRecord.{ExitRecord as RecordValue};
ghost use Rattle.task_lifecycle.specs.Lifecycle.{is_going};
ghost use Rattle.task_requests.specs.declared.request.Request.{Request as RequestValue};
ghost use Rattle.task_requests.specs.declared.request.Request.TheVariants as request;
ghost use Rattle.task_requests.specs.declared.request.Ask.{Ask as AskValue};
ghost use Rattle.task_requests.specs.declared.request.Ask.TheVariants as ask;
ghost use Rattle.task_requests.specs.declared.request.Reply.{Reply as ReplyValue};
ghost use Rattle.task_requests.specs.declared.request.Reply.TheVariants as reply;
ghost use Rattle.task_requests.specs.declared.request.TaskState.{TaskState as StateValue};
ghost use Rattle.task_board.specs.BoardState.{Task, BoardState};
ghost use Rattle.task_board.specs.Claims.{asked_of, told_on, SaysTruly};
ghost use Rattle.task_board.specs.Step.{does, LeavesTask};
ghost use Rattle.task_board.specs.Tasks.{IsTrueOf};

use task_lifecycle::Status;

/// Whatever a reply says of a task: its module is valid, and the one that the bytes encode that are stored
/// under its config's digest; its process is the one that the config of its create asks for.
pub fn modules_are_stored()
    ensures module { (store : StoreState) (t : Task) (q : RequestValue) (a : ReplyValue)
        → SaysTruly store t q a → (content_in store.contents t.process.module ≡ Some t.bytes)
        × IsSpelled t.bytes t.module × ValidModule t.module }
    ensures process { (store : StoreState) (t : Task) (config id : List ℕ) (a : ReplyValue)
        → SaysTruly store t (request.Create config id) a
        → process_read config ≡ Some t.process }
{}

/// Which requests are about a task: each names it by its id.
pub fn requests_name_their_task()
    ensures created { (config id : List ℕ) → asked_of (request.Create config id) ≡ Some id }
    ensures asked { (id : List ℕ) (k : AskValue) → asked_of (request.Task id k) ≡ Some id }
    ensures deleted { (id : List ℕ) (found left : BoardState)
        → told_on (request.Task id ask.Delete) found left ≡ found }
    ensures left { (q : RequestValue) (found left : BoardState)
        → ((id : List ℕ) → q ≢ request.Task id ask.Delete) → told_on q found left ≡ left }
{}

/// A reply with a state says the task's id, how many turns it has made, its status, and how it has ended: by
/// the reduction, or by a kill that no turn has forestalled. Exactly a stopped task has an end.
pub fn states_are_true()
    ensures state { (store : StoreState) (t : Task) (id : List ℕ) (x : StateValue)
        → SaysTruly store t (request.Task id ask.State) (reply.State x)
        → (x.id ≡ t.id) × (x.n ≡ t.turns) × (x.status ≡ t.status)
        × ((e : RecordValue) → x.end ≡ Some e
        → IsTrueOf e t.turns (ended (after t.module t.process t.turns).state))
        × (x.status ≡ Status.Stopped → is_some x.end ≡ true)
        × (is_some x.end ≡ true → x.status ≡ Status.Stopped) }
    ensures wait { (store : StoreState) (t : Task) (id : List ℕ) (x : StateValue)
        → SaysTruly store t (request.Task id ask.Wait) (reply.Wait x)
        → (x.id ≡ t.id) × (x.n ≡ t.turns) × (x.status ≡ t.status)
        × ((e : RecordValue) → x.end ≡ Some e
        → IsTrueOf e t.turns (ended (after t.module t.process t.turns).state))
        × (x.status ≡ Status.Stopped → is_some x.end ≡ true)
        × (is_some x.end ≡ true → x.status ≡ Status.Stopped) }
    ensures step { (store : StoreState) (t : Task) (count : ℕ) (id : List ℕ) (x : StateValue)
        → SaysTruly store t (request.Task id (ask.Step count)) (reply.Step x)
        → (x.id ≡ t.id) × (x.n ≡ t.turns) × (x.status ≡ t.status)
        × ((e : RecordValue) → x.end ≡ Some e
        → IsTrueOf e t.turns (ended (after t.module t.process t.turns).state))
        × (x.status ≡ Status.Stopped → is_some x.end ≡ true)
        × (is_some x.end ≡ true → x.status ≡ Status.Stopped) }
    ensures delete { (store : StoreState) (t : Task) (id : List ℕ) (x : StateValue)
        → SaysTruly store t (request.Task id ask.Delete) (reply.Delete x)
        → (x.id ≡ t.id) × (x.n ≡ t.turns) × (x.status ≡ t.status)
        × ((e : RecordValue) → x.end ≡ Some e
        → IsTrueOf e t.turns (ended (after t.module t.process t.turns).state))
        × (x.status ≡ Status.Stopped → is_some x.end ≡ true)
        × (is_some x.end ≡ true → x.status ≡ Status.Stopped) }
{}

/// A reply with a status says the task's id and status. One that is created has made no turn, and
/// the execution of one that is running, pausing or paused has not ended.
pub fn statuses_are_true()
    ensures create { (store : StoreState) (t : Task) (config : List ℕ) (id : List ℕ) (name : List ℕ)
        (status : StatusValue)
        → SaysTruly store t (request.Create config id) (reply.Create name status)
        → (name ≡ t.id) × (status ≡ t.status) × (status ≡ Status.Created → t.turns ≡ 0)
        × (is_going status ≡ true
        → ended (after t.module t.process t.turns).state ≡ None) }
    ensures start { (store : StoreState) (t : Task) (id : List ℕ) (name : List ℕ)
        (status : StatusValue)
        → SaysTruly store t (request.Task id ask.Start) (reply.Start name status)
        → (name ≡ t.id) × (status ≡ t.status) × (status ≡ Status.Created → t.turns ≡ 0)
        × (is_going status ≡ true
        → ended (after t.module t.process t.turns).state ≡ None) }
    ensures pause { (store : StoreState) (t : Task) (id : List ℕ) (name : List ℕ)
        (status : StatusValue)
        → SaysTruly store t (request.Task id ask.Pause) (reply.Pause name status)
        → (name ≡ t.id) × (status ≡ t.status) × (status ≡ Status.Created → t.turns ≡ 0)
        × (is_going status ≡ true
        → ended (after t.module t.process t.turns).state ≡ None) }
    ensures resume { (store : StoreState) (t : Task) (id : List ℕ) (name : List ℕ)
        (status : StatusValue)
        → SaysTruly store t (request.Task id ask.Resume) (reply.Resume name status)
        → (name ≡ t.id) × (status ≡ t.status) × (status ≡ Status.Created → t.turns ≡ 0)
        × (is_going status ≡ true
        → ended (after t.module t.process t.turns).state ≡ None) }
    ensures kill { (store : StoreState) (t : Task) (id : List ℕ) (signal : ℕ) (name : List ℕ)
        (status : StatusValue)
        → SaysTruly store t (request.Task id (ask.Kill signal)) (reply.Kill name status)
        → (name ≡ t.id) × (status ≡ t.status) × (status ≡ Status.Created → t.turns ≡ 0)
        × (is_going status ≡ true
        → ended (after t.module t.process t.turns).state ≡ None) }
{}

/// A request that leaves its task as it is, is answered what `does` says of that task, and nothing else.
pub fn questions_are_answered()
    ensures { (store : StoreState) (t : Task) (id : List ℕ) (k : AskValue) (a : ReplyValue)
        → LeavesTask k → SaysTruly store t (request.Task id k) a → a ≡ (does k t).0 }
{}

/// What is shown of a task is that of the configuration after its turns: its frames, the bytes that
/// it has written to a stream and how many they are, bytes of its memory.
pub fn shown_parts_are_true()
    ensures inspect { (store : StoreState) (t : Task) (id name : List ℕ)
        (frames : List ShownFrame) (n : ℕ)
        → SaysTruly store t (request.Task id ask.Inspect) (reply.Inspect frames name n)
        → (name ≡ t.id) × (n ≡ t.turns)
        × (frames ≡ shown (after t.module t.process t.turns).state) }
    ensures output { (store : StoreState) (t : Task) (id name bytes : List ℕ) (number size : ℕ)
        → SaysTruly store t (request.Task id (ask.Output number)) (reply.Output bytes name size)
        → (name ≡ t.id) × (size ≡ length bytes)
        × (stream : StreamValue) × (stream_of number ≡ Some stream)
        × (bytes ≡ written_to stream (after t.module t.process t.turns).store) }
    ensures peek { (store : StoreState) (t : Task) (id name bytes : List ℕ)
        (address length : ℕ)
        → SaysTruly store t (request.Task id (ask.Peek address length)) (reply.Peek bytes name)
        → (name ≡ t.id) × (peeked (after t.module t.process t.turns).store.memory address length
        ≡ Some bytes) }
    ensures breaks { (store : StoreState) (t : Task) (id name : List ℕ) (func place : ℕ)
        → SaysTruly store t (request.Task id (ask.Break func place)) (reply.Break name)
        → name ≡ t.id }
    ensures unbreaks { (store : StoreState) (t : Task) (id name : List ℕ) (func place : ℕ)
        → SaysTruly store t (request.Task id (ask.Unbreak func place)) (reply.Unbreak name)
        → name ≡ t.id }
{}
