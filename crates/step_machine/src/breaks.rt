//! Breakpoints.

ghost use Rattle.std.specs.Prelude.{IsTrue, ◌↔◌, ◌≡◌, ◌≤◌, ◌<◌, IfOk, [], true, false, length, vec_len};
ghost use Rattle.step_machine.specs.Limits.{max_breakpoints};
ghost use Rattle.step_machine.specs.Slices.{is_among};
ghost use Rattle.step_machine.specs.Inside.Marks.{mark_of, AreMarked, row_of, AreInRows, function_mark_of, AreInFunctions, IsFree};

use std::alloc::{AllocError, Global};
use std::marker::Model;
use wasm_ast::Place;

/// The most breakpoints that a task has.
const MAX_BREAKPOINTS: usize = 32;

/// At most 32 breakpoints. Contracts see their places in order.
#[derive(Drop)]
pub struct Breaks {
    places: Vec<Place>,
}

impl Model for Breaks {
    ghost use Rattle.std.specs.Prelude.{List, ◌≤◌, vec_len};
    ghost use Rattle.step_machine.specs.Limits.{max_breakpoints};
    ghost use Rattle.wasm_ast.specs.declared.place.Place.{Place};

    ghost Value = { List Place };

    ghost view = { λ b. b.places.items };

    ghost invariant = { λ b. vec_len b.places ≤ max_breakpoints };
}

impl Breaks {
    /// No breakpoints, with room for 32. An error if that cannot be allocated.
    pub fn none(alloc: Global) -> Result<Breaks, AllocError>
        ensures { IfOk result (λ b. b ≡ []) }
    {
        let places = Vec::with_capacity(alloc, MAX_BREAKPOINTS)?;
        Ok(Breaks { places })
    }

    /// Breakpoints at these places. No memory is taken.
    pub fn new(places: Vec<Place>) -> Breaks
        requires { vec_len places ≤ max_breakpoints }
        ensures { result ≡ places.items }
    {
        Breaks { places }
    }

    /// The places.
    pub fn as_slice(&self) -> &[Place]
        ensures places { result.now ≡ self.now }
        ensures few { length result.now ≤ max_breakpoints }
    {
        self.places.as_slice()
    }

    /// Whether both are the same places in the same order.
    pub fn is(&self, other: &Breaks) -> bool
        ensures same { result ≡ true → self.now ≡ other.now }
        ensures different { result ≡ false → self.now ≡ other.now → ⊥ }
    {
        are_same(self.as_slice(), other.as_slice())
    }

    /// Gives the places back. No memory is taken.
    pub fn into_vec(self) -> Vec<Place>
        ensures places { result.items ≡ self }
        ensures few { vec_len result ≤ max_breakpoints }
    {
        let Breaks { places } = self;
        places
    }

    /// Whether there is none.
    #[inline(always)]
    pub fn is_empty(&self) -> bool
        ensures { IsTrue result ↔ (self.now ≡ []) }
    {
        self.places.is_empty()
    }

    /// Whether one of them is this place.
    #[inline(always)]
    pub fn has(&self, func: u32, instr: u64) -> bool
        ensures { result ≡ is_among self.now func instr }
    {
        for place in &self.places {
            if place.func == func && u64::from(place.instr) == instr {
                return true;
            }
        }
        false
    }
}

/// How many marks there are. Each takes a byte.
const MARKS: usize = 2048;

/// The number of a place's mark. Places that are near to each other have numbers that are far apart, so that
/// few instructions of a loop have the mark of a breakpoint that is elsewhere.
#[inline(always)]
fn mark_of(place: Place) -> usize
    ensures is { result ≡ mark_of place.func place.instr }
    ensures inside { result < 2048 }
{
    let mixed = u64::from(place.func) * 6_700_417 + u64::from(place.instr) * 10_368_889;
    (mixed / 4096 % 2048) as usize
}

/// How many rows there are. Each takes a byte.
const ROWS: usize = 256;

/// The number of a place's row: the lowest byte of its instruction's number, which is one load.
#[inline(always)]
fn row_of(place: Place) -> usize
    ensures is { result ≡ row_of place.func place.instr }
    ensures inside { result < 256 }
{
    (place.instr % 256) as usize
}

/// Breakpoints, and which rows and marks theirs are: a look at its row tells of most places that they are
/// none, and one at its mark of most others. Functions that have none are left to another loop, until the
/// breakpoints stay for all. Contracts see their places, and whether functions are left.
#[derive(Drop)]
pub struct MarkedBreaks<'a> {
    breaks: &'a Breaks,
    functions: &'a BreakFunctions<'a>,
    leaves: bool,
    rows: [bool; ROWS],
    marks: [bool; MARKS],
}

impl<'a> Model for MarkedBreaks<'a> {
    ghost use Rattle.step_machine.specs.Inside.Marks.{AreMarked, AreInRows, MarkedView};

    ghost Value = { MarkedView };

    ghost view = { λ b. record { places = b.breaks.now; leaves = b.leaves } };

    ghost invariant = { λ b. AreInRows b.breaks.now b.rows × AreMarked b.breaks.now b.marks };
}

impl<'a> MarkedBreaks<'a> {
    /// Marks breakpoints. Functions that have none are left. No memory is taken.
    pub fn new(breaks: &'a Breaks, functions: &'a BreakFunctions<'a>) -> MarkedBreaks<'a>
        ensures { result ≡ record { places = breaks.now; leaves = true } }
    {
        let rows = rows_of(breaks.as_slice());
        let marks = marks_of(breaks.as_slice());
        MarkedBreaks {
            breaks,
            functions,
            leaves: true,
            rows,
            marks,
        }
    }

    /// No function is left any more.
    pub fn stay(&mut self)
        ensures { self.new ≡ record self.old { leaves = false } }
    {
        self.leaves = false;
    }

    /// Whether a function is left: only one that has none.
    #[inline(always)]
    pub fn leaves(&self, func: u32) -> bool
        ensures { result ≡ true → self.now.leaves ≡ true }
    {
        self.leaves && !self.functions.may_have(func)
    }

    /// Whether one of them is this place.
    #[inline(always)]
    pub fn has(&self, place: Place) -> bool
        ensures { result ≡ is_among self.now.places place.func place.instr }
    {
        if self.rows[row_of(place)] {
            self.is_marked(place)
        } else {
            false
        }
    }

    // No call: many breakpoints set the rows of many instructions that are elsewhere.
    #[inline(always)]
    fn is_marked(&self, place: Place) -> bool
        ensures { result ≡ is_among self.now.places place.func place.instr }
    {
        if self.marks[mark_of(place)] {
            self.is_listed(place)
        } else {
            false
        }
    }

    // The way through the list stays out of the loop that makes the turns.
    #[cold]
    #[inline(never)]
    fn is_listed(&self, place: Place) -> bool
        ensures { result ≡ is_among self.now.places place.func place.instr }
    {
        self.breaks.has(place.func, u64::from(place.instr))
    }
}

/// How many functions are told apart. Each takes a byte.
const FUNCTIONS: usize = 2048;

/// The number of a function's mark.
#[inline(always)]
fn function_of(func: u32) -> usize
    ensures is { result ≡ function_mark_of func }
    ensures inside { result < 2048 }
{
    (func % 2048) as usize
}

/// Breakpoints, and which functions have one: a look at its function's mark tells of most functions that
/// they have none. Contracts see the breakpoints' places.
#[derive(Drop)]
pub struct BreakFunctions<'a> {
    breaks: &'a Breaks,
    marks: [bool; FUNCTIONS],
}

impl<'a> Model for BreakFunctions<'a> {
    ghost use Rattle.std.specs.Prelude.{List};
    ghost use Rattle.step_machine.specs.Inside.Marks.{AreInFunctions};
    ghost use Rattle.wasm_ast.specs.declared.place.Place.{Place};

    ghost Value = { List Place };

    ghost view = { λ b. b.breaks.now };

    ghost invariant = { λ b. AreInFunctions b.breaks.now b.marks };
}

impl<'a> BreakFunctions<'a> {
    /// Marks the functions of breakpoints. No memory is taken.
    pub fn new(breaks: &'a Breaks) -> BreakFunctions<'a>
        ensures { result ≡ breaks.now }
    {
        let marks = functions_of(breaks.as_slice());
        BreakFunctions { breaks, marks }
    }

    /// Whether a function may have one: it does if it has one.
    #[inline(always)]
    pub fn may_have(&self, func: u32) -> bool
        ensures { result ≡ false → IsFree self.now func }
    {
        self.marks[function_of(func)]
    }
}

/// Breakpoints that are elsewhere as long as only functions run that have none, or no breakpoints.
/// Contracts see the breakpoints' places.
#[derive(Drop)]
pub struct Elsewhere<'a> {
    functions: Option<&'a BreakFunctions<'a>>,
}

impl<'a> Model for Elsewhere<'a> {
    ghost use Rattle.std.specs.Prelude.{List, option_map};
    ghost use Rattle.step_machine.specs.Inside.Marks.{places_of};
    ghost use Rattle.wasm_ast.specs.declared.place.Place.{Place};

    ghost Value = { List Place };

    ghost view = { λ e. places_of (option_map (λ f. f.now) e.functions) };
}

impl<'a> Elsewhere<'a> {
    /// No breakpoints.
    pub fn nothing() -> Elsewhere<'a>
        ensures { result ≡ [] }
    {
        Elsewhere { functions: None }
    }

    /// The breakpoints of these functions.
    pub fn of(functions: &'a BreakFunctions<'a>) -> Elsewhere<'a>
        ensures { result ≡ functions.now }
    {
        Elsewhere {
            functions: Some(functions),
        }
    }

    /// Whether a function may have one: it does if it has one.
    #[inline(always)]
    pub fn may_have(&self, func: u32) -> bool
        ensures { result ≡ false → IsFree self.now func }
    {
        match self.functions {
            Some(functions) => functions.may_have(func),
            None => false,
        }
    }
}

// The marks of these places' functions.
fn functions_of(places: &[Place]) -> [bool; FUNCTIONS]
    ensures { AreInFunctions places.now result }
{
    let mut marks = [false; FUNCTIONS];
    for place in places {
        marks[function_of(place.func)] = true;
    }
    marks
}

// The rows of these places.
fn rows_of(places: &[Place]) -> [bool; ROWS]
    ensures { AreInRows places.now result }
{
    let mut rows = [false; ROWS];
    for place in places {
        rows[row_of(*place)] = true;
    }
    rows
}

// The marks of these places.
fn marks_of(places: &[Place]) -> [bool; MARKS]
    ensures { AreMarked places.now result }
{
    let mut marks = [false; MARKS];
    for place in places {
        marks[mark_of(*place)] = true;
    }
    marks
}

fn are_same(places: &[Place], others: &[Place]) -> bool
    ensures same { result ≡ true → places.now ≡ others.now }
    ensures different { result ≡ false → places.now ≡ others.now → ⊥ }
{
    if places.len() != others.len() {
        return false;
    }
    for i in 0..places.len() {
        if places[i] != others[i] {
            return false;
        }
    }
    true
}
