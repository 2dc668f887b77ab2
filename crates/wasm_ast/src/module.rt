//! Modules (2.5).

ghost use Rattle.std.specs.Prelude.{◌≡◌, ◌+◌, All, IfSome, nat_le, length};
ghost use Rattle.wasm_ast.specs.Limits.{ops_depth, max_results, max_nesting, max_locals, params_of, is_func_within, are_all, is_within};
ghost use Rattle.wasm_ast.specs.Ranged.{Ranged, RangedImport, RangedFunc, RangedLimits, RangedGlobal, RangedElement, RangedSegment, RangedExport, IsU32, AreTexts, HasImportTexts, HasExportText};

use crate::instr::Body;
use crate::sequence::{Bytes, Sequence, indices_ranged};
use crate::text::Text;
use crate::values::{FuncType, ValType};

/// Bytes that a module's binary form may have.
pub const MAX_MODULE_BYTES: usize = 262_144;

/// Functions that a module may have, imports included.
pub const MAX_FUNCTIONS: usize = 4096;

/// Locals that a function may have, parameters included.
pub const MAX_LOCALS: usize = 1024;

/// Results that a function type may have.
pub const MAX_RESULTS: usize = 1024;

/// Blocks that may be open at once.
pub const MAX_NESTING: usize = 256;

/// Entries that a table may begin with.
pub const MAX_TABLE_ENTRIES: u32 = 4096;

/// Pages that a memory may begin with.
pub const MAX_MEMORY_PAGES: u32 = 256;

/// An import of a function (2.5.11); the profile has no other kind.
#[derive(Drop)]
pub struct Import {
    pub module: Text,
    pub name: Text,
    pub type_index: u32,
}

impl Import {
    /// Shows that its type index is in range.
    pub fn ranged(&self)
        ensures { RangedImport self.now }
    {
        let _in_range = self.type_index;
    }

    // Shows that both names are UTF-8.
    fn texts(&self)
        ensures { HasImportTexts self.now }
    {
        self.module.is_utf8();
        self.name.is_utf8();
    }
}

/// A function of the module's own (2.5.3): its type, the types of its locals but for its parameters,
/// and its body.
#[derive(Drop)]
pub struct Func {
    pub type_index: u32,
    pub locals: Sequence<ValType>,
    pub body: Body,
}

impl Func {
    /// Shows that each number in it is in the range of its type.
    pub fn ranged(&self)
        ensures { RangedFunc self.now }
    {
        let _in_range = self.type_index;
        self.body.ranged();
    }
}

/// How many entries a table or how many pages a memory has at first, and at most if there is a bound
/// (2.3.4).
#[derive(Clone, Copy, PartialEq, Eq, Debug)]
pub struct Limits {
    pub min: u32,
    pub max: Option<u32>,
}

impl Limits {
    /// Shows that both numbers are in the range of their type.
    pub fn ranged(&self)
        ensures { RangedLimits self.now }
    {
        let _min = self.min;
        if let Some(max) = self.max {
            let _max = max;
        }
    }
}

/// Whether a global may be written (2.3.6).
#[derive(Clone, Copy, PartialEq, Eq, Debug)]
pub enum Mutability {
    Const,
    Var,
}

/// A global (2.5.6): its type, and the expression that gives its first value.
#[derive(Drop)]
pub struct Global {
    pub val_type: ValType,
    pub mutability: Mutability,
    pub init: Body,
}

impl Global {
    /// Shows that each number in it is in the range of its type.
    pub fn ranged(&self)
        ensures { RangedGlobal self.now }
    {
        self.init.ranged();
    }
}

/// An element segment (2.5.7): functions that are written to a table from an offset on.
#[derive(Drop)]
pub struct Element {
    pub table: u32,
    pub offset: Body,
    pub funcs: Sequence<u32>,
}

impl Element {
    /// Shows that each number in it is in the range of its type.
    pub fn ranged(&self)
        ensures { RangedElement self.now }
    {
        let _in_range = self.table;
        self.offset.ranged();
        indices_ranged(self.funcs.as_slice());
    }
}

/// A data segment (2.5.8): bytes that are written to a memory from an offset on.
#[derive(Drop)]
pub struct Segment {
    pub memory: u32,
    pub offset: Body,
    pub bytes: Bytes,
}

impl Segment {
    /// Shows that each number in it is in the range of its type.
    pub fn ranged(&self)
        ensures { RangedSegment self.now }
    {
        let _in_range = self.memory;
        self.offset.ranged();
    }
}

/// What an export names (2.5.10).
#[derive(Clone, Copy, PartialEq, Eq, Debug)]
pub enum ExportKind {
    Func,
    Table,
    Memory,
    Global,
}

/// An export (2.5.10).
#[derive(Drop)]
pub struct Export {
    pub name: Text,
    pub kind: ExportKind,
    pub index: u32,
}

impl Export {
    /// Shows that each number in it is in the range of its type.
    pub fn ranged(&self)
        ensures { RangedExport self.now }
    {
        let _in_range = self.index;
    }

    // Shows that its name is UTF-8.
    fn texts(&self)
        ensures { HasExportText self.now }
    {
        self.name.is_utf8();
    }
}

/// A module (2.5). An index of a function counts imports first. `start` is the function that runs before
/// all others (2.5.9).
#[derive(Drop)]
pub struct Module {
    pub types: Sequence<FuncType>,
    pub imports: Sequence<Import>,
    pub funcs: Sequence<Func>,
    pub tables: Sequence<Limits>,
    pub memories: Sequence<Limits>,
    pub globals: Sequence<Global>,
    pub exports: Sequence<Export>,
    pub start: Option<u32>,
    pub elements: Sequence<Element>,
    pub segments: Sequence<Segment>,
}

impl Module {
    /// Whether the module is within the profile's limits: 1,024 results to a function type, 4,096 functions
    /// with imports, 1,024 locals to a function, parameters included, 256 blocks that are open at once, and
    /// tables and memories that begin with at most 4,096 entries and 256 pages.
    pub fn is_within_limits(&self) -> bool
        ensures { result ≡ is_within self.now }
    {
        self.is_within_if(are_funcs_within(self.types.as_slice(), self.funcs.as_slice()))
    }

    // Whether the module is within the limits, if it is known whether each of its functions is.
    fn is_within_if(&self, are_funcs_within: bool) -> bool
        requires { are_funcs_within ≡ are_all (is_func_within self.now.types) self.now.funcs }
        ensures { result ≡ is_within self.now }
    {
        are_types_within(self.types.as_slice())
            && self.imports.len() <= MAX_FUNCTIONS
            && self.funcs.len() <= MAX_FUNCTIONS - self.imports.len()
            && are_funcs_within
            && are_mins_within(MAX_TABLE_ENTRIES, self.tables.as_slice())
            && are_mins_within(MAX_MEMORY_PAGES, self.memories.as_slice())
            && are_globals_within(self.globals.as_slice())
            && are_elements_within(self.elements.as_slice())
            && are_segments_within(self.segments.as_slice())
    }

    /// Shows that each number in the module is in the range of its type.
    pub fn ranged(&self)
        ensures { Ranged self.now }
    {
        funcs_ranged(self.funcs.as_slice());
        self.ranged_if();
    }

    // Shows the same if each number in its functions is in the range of its type.
    fn ranged_if(&self)
        requires { All RangedFunc self.now.funcs }
        ensures { Ranged self.now }
    {
        imports_ranged(self.imports.as_slice());
        limits_ranged(self.tables.as_slice());
        limits_ranged(self.memories.as_slice());
        globals_ranged(self.globals.as_slice());
        exports_ranged(self.exports.as_slice());
        start_ranged(self.start);
        elements_ranged(self.elements.as_slice());
        segments_ranged(self.segments.as_slice());
    }

    /// What `is_within_limits` tells and what `ranged` shows, with the bodies of functions read once.
    pub fn is_ranged_within_limits(&self) -> bool
        ensures within { result ≡ is_within self.now }
        ensures ranged { Ranged self.now }
    {
        let are_funcs_within = are_funcs_ranged_within(
            self.types.as_slice(),
            self.funcs.as_slice(),
        );
        self.ranged_if();
        self.is_within_if(are_funcs_within)
    }

    /// Shows that the names in the module are UTF-8.
    pub fn texts(&self)
        ensures { AreTexts self.now }
    {
        imports_are_texts(self.imports.as_slice());
        exports_are_texts(self.exports.as_slice());
    }
}

// How many parameters a function of the type with this index has: none where it names no type.
fn params_of(types: &[FuncType], index: u32) -> usize
    ensures { result ≡ params_of types.now index }
{
    match types.get(index as usize) {
        Some(found) => found.params.len(),
        None => 0,
    }
}

fn are_types_within(types: &[FuncType]) -> bool
    ensures { result ≡ are_all (λ t. nat_le (length t.results) max_results) types.now }
{
    for func_type in types {
        if func_type.results.len() > MAX_RESULTS {
            return false;
        }
    }
    true
}

// Whether a function has no more locals than it may, parameters included.
fn has_few_locals(types: &[FuncType], func: &Func) -> bool
    ensures { result
        ≡ nat_le (params_of types.now func.now.type_index + length func.now.locals) max_locals }
{
    let params = params_of(types, func.type_index);
    params <= MAX_LOCALS && func.locals.len() <= MAX_LOCALS - params
}

fn is_func_within(types: &[FuncType], func: &Func) -> bool
    ensures { result ≡ is_func_within types.now func.now }
{
    has_few_locals(types, func) && func.body.fits_depth(MAX_NESTING)
}

fn are_funcs_within(types: &[FuncType], funcs: &[Func]) -> bool
    ensures { result ≡ are_all (is_func_within types.now) funcs.now }
{
    for func in funcs {
        if !is_func_within(types, func) {
            return false;
        }
    }
    true
}

// What `is_func_within` tells, and that the numbers in the function are in the range of their types.
fn is_func_ranged_within(types: &[FuncType], func: &Func) -> bool
    ensures within { result ≡ is_func_within types.now func.now }
    ensures ranged { RangedFunc func.now }
{
    let _in_range = func.type_index;
    let fits = func.body.fits_ranged(MAX_NESTING);
    has_few_locals(types, func) && fits
}

fn are_funcs_ranged_within(types: &[FuncType], funcs: &[Func]) -> bool
    ensures within { result ≡ are_all (is_func_within types.now) funcs.now }
    ensures ranged { All RangedFunc funcs.now }
{
    let mut within = true;
    for func in funcs {
        within &= is_func_ranged_within(types, func);
    }
    within
}

fn are_mins_within(most: u32, limits: &[Limits]) -> bool
    ensures { result ≡ are_all (λ l. nat_le l.min most) limits.now }
{
    for limit in limits {
        if limit.min > most {
            return false;
        }
    }
    true
}

fn are_globals_within(globals: &[Global]) -> bool
    ensures { result ≡ are_all (λ g. nat_le (ops_depth g.init) max_nesting) globals.now }
{
    for global in globals {
        if !global.init.fits_depth(MAX_NESTING) {
            return false;
        }
    }
    true
}

fn are_elements_within(elements: &[Element]) -> bool
    ensures { result ≡ are_all (λ e. nat_le (ops_depth e.offset) max_nesting) elements.now }
{
    for element in elements {
        if !element.offset.fits_depth(MAX_NESTING) {
            return false;
        }
    }
    true
}

fn are_segments_within(segments: &[Segment]) -> bool
    ensures { result ≡ are_all (λ s. nat_le (ops_depth s.offset) max_nesting) segments.now }
{
    for segment in segments {
        if !segment.offset.fits_depth(MAX_NESTING) {
            return false;
        }
    }
    true
}

fn imports_ranged(imports: &[Import])
    ensures { All RangedImport imports.now }
{
    for import in imports {
        import.ranged();
    }
}

fn funcs_ranged(funcs: &[Func])
    ensures { All RangedFunc funcs.now }
{
    for func in funcs {
        func.ranged();
    }
}

fn exports_ranged(exports: &[Export])
    ensures { All RangedExport exports.now }
{
    for export in exports {
        export.ranged();
    }
}

fn limits_ranged(limits: &[Limits])
    ensures { All RangedLimits limits.now }
{
    for limit in limits {
        limit.ranged();
    }
}

fn globals_ranged(globals: &[Global])
    ensures { All RangedGlobal globals.now }
{
    for global in globals {
        global.ranged();
    }
}

fn start_ranged(start: Option<u32>)
    ensures { IfSome start IsU32 }
{
    if let Some(func) = start {
        let _in_range = func;
    }
}

fn elements_ranged(elements: &[Element])
    ensures { All RangedElement elements.now }
{
    for element in elements {
        element.ranged();
    }
}

fn segments_ranged(segments: &[Segment])
    ensures { All RangedSegment segments.now }
{
    for segment in segments {
        segment.ranged();
    }
}

fn imports_are_texts(imports: &[Import])
    ensures { All HasImportTexts imports.now }
{
    for import in imports {
        import.texts();
    }
}

fn exports_are_texts(exports: &[Export])
    ensures { All HasExportText exports.now }
{
    for export in exports {
        export.texts();
    }
}
