//! Laws of execution. Each function has a contract and no body.

ghost use Rattle.std.specs.Prelude.{◌≡◌, ◌≢◌, ℕ, sum, ◌+◌, ◌^◌, ◌<◌, ◌≤◌, List, [], ◌∷◌, ◌++◌, All, true, false, Some, None, slice_get, length, reverse};
ghost use Rattle.wasm_ast.specs.declared.values.Value.{Value};
ghost use Rattle.wasm_ast.specs.declared.values.FuncType.{FuncType};
ghost use Rattle.wasm_ast.specs.declared.module.Module.{Module};
ghost use Rattle.wasm_ast.specs.Syntax.{Op, Ops, next};
ghost use Rattle.wasm_ast.specs.declared.place.Place.{Place};
ghost use Rattle.wasm_ast.specs.Ranged.{Ranged};
ghost use Rattle.validator.specs.Typing.{ValidModule};
ghost use Rattle.oci_config.specs.declared.process.ProcessConfig.{ProcessConfig};
ghost use Rattle.oci_config.specs.declared.stream.Stream.{Stream};
ghost use Rattle.step_machine.specs.declared.ends.SliceEnd.TheVariants as slice;
ghost use Rattle.step_machine.specs.Limits.{last_turn, max_frames, max_values};
ghost use Rattle.step_machine.specs.Program.{Program, functions, own};
ghost use Rattle.step_machine.specs.Places.{Next, tree_next, body_of, written_at};
ghost use Rattle.step_machine.specs.Configuration.{Store, State, Target, Tree, seq, Items, more, label, frame, running, stuck, Configuration, acts, frames, values, is_halted, is_settled};
ghost use Rattle.step_machine.specs.Effects.{Env};
ghost use Rattle.step_machine.specs.Reduction.{inside, reduce};
ghost use Rattle.step_machine.specs.Turns.{from, numbered, turn};
ghost use Rattle.step_machine.specs.Instantiation.{entry, instantiation_refusal, initial, after, ended};
ghost use Rattle.step_machine.specs.Slices.{ends_slice, turns_made, slices_made, slice_end};
ghost use Rattle.wasm_ast.specs.declared.shown.ShownFrame.{ShownFrame};
ghost use Rattle.step_machine.specs.Shown.{shown, innermost};
ghost use Rattle.step_machine.specs.MachineView.{written_to};
ghost use Rattle.step_machine.specs.Worked.{in_label, in_frame};

/// Turns may be cut anywhere: a turns and then b turns are a + b turns.
pub fn cuts_commute()
    ensures { (p : Program) (k a b : ℕ) (c : Configuration)
        → from p k c (a + b) ≡ from p (k + a) (from p k c a) b }
{}

/// One turn more is the turn of the next number, made by the configuration so far.
pub fn one_more_turn()
    ensures { (p : Program) (k n : ℕ) (c : Configuration)
        → from p k c (n + 1) ≡ numbered p (k + n + 1) (from p k c n) }
{}

/// A configuration that has halted stays as it is.
pub fn halted_stays()
    ensures { (p : Program) (k n : ℕ) (c : Configuration) → is_halted c.state ≡ true
        → from p k c n ≡ c }
{}

/// A turn ends where the next instruction is plain or the configuration has ended, and so does
/// instantiation.
pub fn turns_settle()
    ensures turn { (p : Program) (c : Configuration) → is_settled (turn p c).state ≡ true }
    ensures initial { (m : Module) (p : ProcessConfig) → is_settled (initial m p).state ≡ true }
{}

/// What has not ended has made fewer than 10^15 turns.
pub fn turns_are_limited()
    ensures { (m : Module) (p : ProcessConfig) (n : ℕ) → ended (after m p n).state ≡ None
        → n < last_turn }
{}

/// The limits of frames and values hold after any number of turns: a tree that is left to run has at most
/// 1,024 frames, and at most 65,536 locals and operands in all of them.
pub fn limits_hold()
    ensures { (m : Module) (p : ProcessConfig) (n : ℕ) (t : Tree) → (after m p n).state ≡ running t
        → (frames t ≤ max_frames) × (values t ≤ max_values) }
{}

/// A reduction is defined at every configuration of a valid module that a task can run, until it
/// has ended: after any number of turns it is not stuck. Each number of the module and of the
/// process is in the range of its type.
pub fn valid_modules_are_never_stuck()
    ensures { (m : Module) (p : ProcessConfig) (n : ℕ) → ValidModule m → Ranged m
        → All (λ s. All (λ b. b < 256) s.bytes) m.segments
        → All (All (λ b. b < 256)) p.args → All (All (λ b. b < 256)) p.env → p.cap < 2 ^ 32
        → instantiation_refusal m p ≡ None
        → (after m p n).state ≢ stuck }
{}

/// What a task has written to a stream stays there, and all that it writes later comes after it.
pub fn outputs_grow()
    ensures { (m : Module) (p : ProcessConfig) (n k : ℕ) (s : Stream)
        → (later : List ℕ)
        × (written_to s (after m p (n + k)).store ≡ written_to s (after m p n).store ++ later) }
{}

/// The reduction of a tree inside a label or a frame is one of the whole (4.2.13): all but that tree
/// stays, and a frame's locals are those inside it.
pub fn reductions_go_inside()
    ensures label { (p : Program) (e : Env) (vs : List Value) (n k : ℕ) (g : Target) (t : Tree)
        (is : Items)
        → acts t ≡ true
        → reduce p e (seq vs (more (label n k g t) is))
        ≡ inside (reduce p e t) (in_label vs n k g is) }
    ensures frame { (p : Program) (r : Store) (outer ls vs : List Value) (n f : ℕ) (t : Tree)
        (is : Items)
        → acts t ≡ true
        → reduce p (record { store = r; locals = outer }) (seq vs (more (frame n f ls t) is))
        ≡ inside (reduce p (record { store = r; locals = ls }) t) (in_frame outer vs n f is) }
{}

/// The instruction that is next is the one written at its place, in the body of the function whose frame
/// it is in. Places number the instructions of a body in written order, those inside blocks included.
pub fn places_are_written()
    ensures { (m : Module) (p : ProcessConfig) (n : ℕ) (t : Tree) (x : Next)
        → (after m p n).state ≡ running t
        → tree_next None t ≡ Some x
        → written_at (body_of (slice_get (functions m) x.func)) x.place ≡ Some x.op }
{}

/// Slices without breakpoints may be cut anywhere: slices of any budgets lead as far as one slice of
/// all of them, and so to the same machine. With breakpoints a slice may be cut wherever the first part
/// was not ended by one.
pub fn slices_commute()
    ensures any_cut { (m : Module) (p : ProcessConfig) (n : ℕ) (budgets : List ℕ)
        → slices_made m p n [] budgets ≡ turns_made m p n [] (sum budgets) }
    ensures two { (m : Module) (p : ProcessConfig) (n : ℕ) (bs : List Place) (a b : ℕ)
        → slice_end m p n bs a ≢ slice.Break
        → turns_made m p n bs (a + b)
        ≡ turns_made m p n bs a + turns_made m p (n + turns_made m p n bs a) bs b }
{}

/// A slice makes no more turns than its budget; of what has not ended it makes one at least, and of
/// what has halted none.
pub fn slices_go_forward()
    ensures at_most { (m : Module) (p : ProcessConfig) (n : ℕ) (bs : List Place) (budget : ℕ)
        → turns_made m p n bs budget ≤ budget }
    ensures at_least { (m : Module) (p : ProcessConfig) (n : ℕ) (bs : List Place) (budget : ℕ)
        → ended (after m p n).state ≡ None
        → 1 ≤ budget
        → 1 ≤ turns_made m p n bs budget }
    ensures none { (m : Module) (p : ProcessConfig) (n : ℕ) (bs : List Place) (budget : ℕ)
        → is_halted (after m p n).state ≡ true
        → turns_made m p n bs budget ≡ 0 }
{}

/// A slice stops after the first of its turns that halts or leads to a breakpoint: none but its last
/// does, and its last does if budget is left.
pub fn slices_stop_first()
    ensures not_before { (m : Module) (p : ProcessConfig) (n : ℕ) (bs : List Place) (budget j : ℕ)
        → 1 ≤ j
        → j < turns_made m p n bs budget
        → ends_slice bs (after m p (n + j)).state ≡ false }
    ensures only_there { (m : Module) (p : ProcessConfig) (n : ℕ) (bs : List Place) (budget : ℕ)
        → ended (after m p n).state ≡ None
        → turns_made m p n bs budget < budget
        → ends_slice bs (after m p (n + turns_made m p n bs budget)).state ≡ true }
{}

/// The innermost frame that is shown is that of the instruction that the next turn executes, and that
/// instruction is the one shown as next.
pub fn the_next_is_shown()
    ensures { (t : Tree) (x : Next) → tree_next None t ≡ Some x
        → (f : ShownFrame) × (outer : List ShownFrame) × (shown (running t) ≡ f ∷ outer)
        × (f.func ≡ x.func) × (f.next ≡ Some x.place) }
{}

/// The operands that the next instruction finds are the last ones shown of the innermost frame.
pub fn its_operands_are_shown()
    ensures { (t : Tree) (x : Next) → tree_next None t ≡ Some x
        → (f : ShownFrame) × (outer : List ShownFrame) × (below : List Value)
        × (shown (running t) ≡ f ∷ outer) × (f.operands ≡ below ++ reverse (innermost t)) }
{}

/// Before the first turn of a module without a start function its entry's frame alone is shown: its
/// first instruction is next, no block is open, and there are no operands.
pub fn entries_begin_so()
    ensures { (m : Module) (p : ProcessConfig) (func : ℕ)
        (t : FuncType) (zeros : List Value) (o : Op) (os : Ops)
        → m.start ≡ None → entry m ≡ Some func
        → slice_get (functions m) func ≡ Some (own t zeros (next o os))
        → length zeros ≤ max_values
        → shown (after m p 0).state
        ≡ record { func = func; next = Some 0; labels = []; locals = zeros; operands = [] } ∷ [] }
{}

/// A configuration that has ended is shown without frames.
pub fn ended_shows_nothing()
    ensures { (s : State) → is_halted s ≡ true → shown s ≡ [] }
{}
