//! Readers of sections and modules (5.5).

ghost use Rattle.std.specs.Prelude.{◌≡◌, ◌≤◌, ℕ, List, [], Ok, None, true, false, length, take, drop};
ghost use Rattle.wasm_ast.specs.Limits.{max_module_bytes, max_functions};
ghost use Rattle.wasm_binary.specs.declared.fault.ReadError.TheVariants.{Memory};
ghost use Rattle.wasm_binary.specs.Opcodes.{start_section};
ghost use Rattle.wasm_binary.specs.Inside.Reading.{Gives, Read, head_of, stored_of, between_of, read_vector, read_sized, read_items, read_bounded, read_custom_name, read_func_type, read_import, read_export, read_u32, read_codes, read_size, read_start, skip_custom, skip_some_customs, skip_customs, read_part, read_section, strip_preamble, read_head, read_stores, read_middle, read_funcs, read_last, module_of, read_sections, read_module};

use crate::code::read_codes;
use crate::fault::{Fault, Limited, Number, ReadError, Spot, What, Whole};
use crate::items::{read_memory, read_start, read_table};
use crate::numbers::{at_most, read_number, skip_exact, strip_byte};
use crate::opcodes::{
    CODE_SECTION, CUSTOM_SECTION, DATA_SECTION, ELEMENT_SECTION, EXPORT_SECTION, FUNCTION_SECTION,
    GLOBAL_SECTION, IMPORT_SECTION, MEMORY_SECTION, PREAMBLE, START_SECTION, TABLE_SECTION,
    TYPE_SECTION,
};
use crate::types::read_name;
use crate::vectors::{Decode, read_bounded, read_vector};
use std::alloc::Global;
use std::marker::PhantomData;
use wasm_ast;
use wasm_ast::{
    Element, Export, Func, FuncType, Import, Limits, MAX_FUNCTIONS, MAX_MODULE_BYTES, Module,
    Segment, Sequence,
};

#[tactic(auto, unfolding(crate::specs::Inside::Reading::skip_custom, crate::specs::Inside::Reading::read_sized, crate::specs::Inside::Reading::read_custom_name))]
fn skip_custom(bytes: &[u8]) -> Result<&[u8], ReadError>
    ensures { Gives (λ x. x.now) result (skip_custom bytes.now) }
{
    let (size, rest) = read_number(Number::SectionSize, bytes)?;
    if let Err(error) = read_name(at_most(size, rest)) {
        return Err(error.within(Whole::Section, size, rest));
    }
    skip_exact(Whole::Section, size, &[], rest)
}

// The rest after all custom sections that come first.
fn skip_customs(bytes: &[u8]) -> Result<&[u8], ReadError>
    ensures { Gives (λ x. x.now) result (skip_customs bytes.now) }
{
    let mut rest = bytes;
    for _ in 0..bytes.len() {
        let Some(from_size) = strip_byte(CUSTOM_SECTION, rest) else {
            return Ok(rest);
        };
        rest = skip_custom(from_size)?;
    }
    Ok(rest)
}

/// A section that is a list, with what the reading of its contents depends on.
trait Section {
    type Item: Drop;

    ghost reading: { Self → List ℕ → Read (List Self.Item) };

    /// Reads the contents from the front of the bytes, and gives the rest.
    fn read_contents<'a>(
        &self,
        alloc: Global,
        bytes: &'a [u8],
    ) -> Result<(Vec<Self::Item>, &'a [u8]), ReadError>
        ensures { Gives (λ x. (x.0.items, x.1.now)) result (reading self.now bytes.now) };
}

// The section of this id, and what follows it and its custom sections; an empty list if another
// section is next.
#[tactic(auto, unfolding(crate::specs::Inside::Reading::read_part, crate::specs::Inside::Reading::read_sized))]
fn read_section<'a, S: Section>(
    id: u8,
    section: &S,
    alloc: Global,
    bytes: &'a [u8],
) -> Result<(Vec<S::Item>, &'a [u8]), ReadError>
    ensures { Gives (λ x. (x.0.items, x.1.now)) result
        (read_section id (S.reading section.now) bytes.now) }
{
    let Some(rest) = strip_byte(id, bytes) else {
        return Ok((Vec::new(alloc), bytes));
    };
    let (size, rest) = read_number(Number::SectionSize, rest)?;
    let (items, left) = match section.read_contents(alloc, at_most(size, rest)) {
        Ok(read) => read,
        Err(error) => return Err(error.within(Whole::Section, size, rest)),
    };
    let rest = skip_customs(skip_exact(Whole::Section, size, left, rest)?)?;
    Ok((items, rest))
}

/// A section that is a vector, with no limit on its items, whose count is this number.
#[derive(Drop)]
struct VectorSection<T> {
    count: Number,
    item: PhantomData<T>,
}

impl<T: Decode + Drop> Section for VectorSection<T> {
    type Item = T;

    ghost reading = { λ s. read_vector T.reading };

    fn read_contents<'a>(
        &self,
        alloc: Global,
        bytes: &'a [u8],
    ) -> Result<(Vec<T>, &'a [u8]), ReadError> {
        read_vector(self.count, alloc, bytes)
    }
}

/// A section that is a vector of imports or of type indices, with this many functions before them.
#[derive(Drop)]
struct FunctionsSection<T> {
    before: usize,
    item: PhantomData<T>,
}

impl<T: Decode + Drop> Section for FunctionsSection<T> {
    type Item = T;

    ghost reading = { λ s. read_bounded true max_functions s.before T.reading };

    fn read_contents<'a>(
        &self,
        alloc: Global,
        bytes: &'a [u8],
    ) -> Result<(Vec<T>, &'a [u8]), ReadError> {
        read_bounded(Limited::Functions, alloc, MAX_FUNCTIONS, self.before, bytes)
    }
}

/// The table section (5.5.7), or the memory section (5.5.8).
#[derive(Drop)]
struct SizesSection {
    is_table: bool,
}

fn read_size(is_table: bool, bytes: &[u8]) -> Result<(Limits, &[u8]), ReadError>
    ensures { Gives (λ x. (x.0, x.1.now)) result (read_size is_table true bytes.now) }
{
    if is_table {
        read_table(bytes)
    } else {
        read_memory(bytes)
    }
}

fn read_sizes(
    alloc: Global,
    is_table: bool,
    count: u32,
    bytes: &[u8],
) -> Result<(Vec<Limits>, &[u8]), ReadError>
    ensures { Gives (λ x. (x.0.items, x.1.now)) result
        (read_items (read_size is_table true) count bytes.now) }
{
    let mut items = Vec::new(alloc);
    let mut rest = bytes;
    for _ in 0..count {
        let (item, next) = read_size(is_table, rest)?;
        items.push(item)?;
        rest = next;
    }
    Ok((items, rest))
}

impl Section for SizesSection {
    type Item = Limits;

    ghost reading = { λ s. read_vector (read_size s.is_table true) };

    #[tactic(auto, unfolding(crate::specs::Inside::Reading::read_vector))]
    fn read_contents<'a>(
        &self,
        alloc: Global,
        bytes: &'a [u8],
    ) -> Result<(Vec<Limits>, &'a [u8]), ReadError>
        ensures { Gives (λ x. (x.0.items, x.1.now)) result
            (read_vector (read_size self.now.is_table true) bytes.now) }
    {
        let (count, rest) = read_number(Number::Items, bytes)?;
        read_sizes(alloc, self.is_table, count, rest)
    }
}

/// The code section (5.5.13) of a module with these types and type indices of functions.
#[derive(Drop)]
struct CodeSection<'s> {
    types: &'s [FuncType],
    indices: &'s [u32],
}

impl<'s> Section for CodeSection<'s> {
    type Item = Func;

    ghost reading = { λ s. read_codes true s.types.now s.indices.now };

    fn read_contents<'a>(
        &self,
        alloc: Global,
        bytes: &'a [u8],
    ) -> Result<(Vec<Func>, &'a [u8]), ReadError>
        ensures { Gives (λ x. (x.0.items, x.1.now)) result
            (read_codes true self.now.types.now self.now.indices.now bytes.now) }
    {
        read_codes(alloc, self.types, self.indices, bytes)
    }
}

fn read_vector_section<T: Decode + Drop>(
    id: u8,
    count: Number,
    alloc: Global,
    bytes: &[u8],
) -> Result<(Vec<T>, &[u8]), ReadError>
    ensures { Gives (λ x. (x.0.items, x.1.now)) result
        (read_section id (read_vector T.reading) bytes.now) }
{
    let section = VectorSection {
        count,
        item: PhantomData,
    };
    read_section(id, &section, alloc, bytes)
}

fn read_functions_section<T: Decode + Drop>(
    id: u8,
    before: usize,
    alloc: Global,
    bytes: &[u8],
) -> Result<(Vec<T>, &[u8]), ReadError>
    ensures { Gives (λ x. (x.0.items, x.1.now)) result
        (read_section id (read_bounded true max_functions before T.reading) bytes.now) }
{
    let section = FunctionsSection {
        before,
        item: PhantomData,
    };
    read_section(id, &section, alloc, bytes)
}

/// Types, imports and type indices of functions.
#[derive(Drop)]
struct Front {
    types: Vec<FuncType>,
    imports: Vec<Import>,
    indices: Vec<u32>,
}

#[tactic(auto, unfolding(crate::specs::Inside::Reading::read_head))]
fn read_front(alloc: Global, bytes: &[u8]) -> Result<(Front, &[u8]), ReadError>
    ensures { Gives (λ x. (head_of x.0, x.1.now)) result (read_head true bytes.now) }
{
    let rest = skip_customs(bytes)?;
    let (types, rest) = read_vector_section(TYPE_SECTION, Number::Types, alloc, rest)?;
    let (imports, rest) = read_functions_section(IMPORT_SECTION, 0, alloc, rest)?;
    let (indices, rest) = read_functions_section(FUNCTION_SECTION, imports.len(), alloc, rest)?;
    Ok((
        Front {
            types,
            imports,
            indices,
        },
        rest,
    ))
}

fn read_sizes_section(
    id: u8,
    is_table: bool,
    alloc: Global,
    bytes: &[u8],
) -> Result<(Vec<Limits>, &[u8]), ReadError>
    ensures { Gives (λ x. (x.0.items, x.1.now)) result
        (read_section id (read_vector (read_size is_table true)) bytes.now) }
{
    read_section(id, &SizesSection { is_table }, alloc, bytes)
}

/// Tables, memories and globals.
#[derive(Drop)]
struct Stores {
    tables: Vec<Limits>,
    memories: Vec<Limits>,
    globals: Vec<wasm_ast::Global>,
}

#[tactic(auto, unfolding(crate::specs::Inside::Reading::read_stores))]
fn read_stores(alloc: Global, bytes: &[u8]) -> Result<(Stores, &[u8]), ReadError>
    ensures { Gives (λ x. (stored_of x.0, x.1.now)) result (read_stores true bytes.now) }
{
    let (tables, rest) = read_sizes_section(TABLE_SECTION, true, alloc, bytes)?;
    let (memories, rest) = read_sizes_section(MEMORY_SECTION, false, alloc, rest)?;
    let (globals, rest) = read_vector_section(GLOBAL_SECTION, Number::Items, alloc, rest)?;
    Ok((
        Stores {
            tables,
            memories,
            globals,
        },
        rest,
    ))
}

// The start section (5.5.11), and what follows it and its custom sections.
#[tactic(auto, unfolding(crate::specs::Inside::Reading::read_part, crate::specs::Inside::Reading::read_sized))]
fn read_start_section(bytes: &[u8]) -> Result<(Option<u32>, &[u8]), ReadError>
    ensures { Gives (λ x. (x.0, x.1.now)) result
        (read_part start_section read_start None bytes.now) }
{
    let Some(rest) = strip_byte(START_SECTION, bytes) else {
        return Ok((None, bytes));
    };
    let (size, rest) = read_number(Number::SectionSize, rest)?;
    let (start, left) = match read_start(at_most(size, rest)) {
        Ok(read) => read,
        Err(error) => return Err(error.within(Whole::Section, size, rest)),
    };
    let rest = skip_customs(skip_exact(Whole::Section, size, left, rest)?)?;
    Ok((start, rest))
}

/// What is between the globals and the code.
#[derive(Drop)]
struct Middle {
    exports: Vec<Export>,
    start: Option<u32>,
    elements: Vec<Element>,
}

#[tactic(auto, unfolding(crate::specs::Inside::Reading::read_middle))]
fn read_middle(alloc: Global, bytes: &[u8]) -> Result<(Middle, &[u8]), ReadError>
    ensures { Gives (λ x. (between_of x.0, x.1.now)) result (read_middle true bytes.now) }
{
    let (exports, rest) = read_vector_section(EXPORT_SECTION, Number::Items, alloc, bytes)?;
    let (start, rest) = read_start_section(rest)?;
    let (elements, rest) = read_vector_section(ELEMENT_SECTION, Number::Items, alloc, rest)?;
    Ok((
        Middle {
            exports,
            start,
            elements,
        },
        rest,
    ))
}

// That there is no code section, where these bytes follow the sections before it: the module ends or has its
// data here, or else a section that may not be here.
fn no_code(funcs: usize, rest: &[u8]) -> Spot {
    match rest.first() {
        None | Some(&DATA_SECTION) => Spot::at(rest, What::NoCode { funcs }),
        Some(_) => Spot::at(rest, What::Section),
    }
}

// The code of the functions with these type indices, all of them.
#[tactic(auto, unfolding(crate::specs::Inside::Reading::read_funcs))]
fn read_funcs<'a>(
    alloc: Global,
    types: &[FuncType],
    indices: &[u32],
    bytes: &'a [u8],
) -> Result<(Vec<Func>, &'a [u8]), ReadError>
    ensures { Gives (λ x. (x.0.items, x.1.now)) result
        (read_funcs true types.now indices.now bytes.now) }
{
    let section = CodeSection { types, indices };
    let (funcs, rest) = read_section(CODE_SECTION, &section, alloc, bytes)?;
    if funcs.len() != indices.len() {
        return Err(ReadError::Fault(Fault::Bad, no_code(indices.len(), rest)));
    }
    Ok((funcs, rest))
}

// The data section, which ends the module.
#[tactic(auto, unfolding(crate::specs::Inside::Reading::read_last))]
fn read_last(alloc: Global, bytes: &[u8]) -> Result<Vec<Segment>, ReadError>
    ensures { Gives (λ x. x.items) result (read_last true bytes.now) }
{
    let (segments, rest) = read_vector_section(DATA_SECTION, Number::Items, alloc, bytes)?;
    if !rest.is_empty() {
        return Err(ReadError::Fault(Fault::Bad, Spot::at(rest, What::Section)));
    }
    Ok(segments)
}

// The module that has these parts.
fn module_of(
    front: Front,
    stores: Stores,
    middle: Middle,
    funcs: Vec<Func>,
    segments: Vec<Segment>,
) -> Module
    ensures { result
        ≡ module_of (head_of front) (stored_of stores) (between_of middle) funcs.items
        segments.items }
{
    let Front { types, imports, .. } = front;
    let Stores {
        tables,
        memories,
        globals,
    } = stores;
    let Middle {
        exports,
        start,
        elements,
    } = middle;
    Module {
        types: Sequence::new(types),
        imports: Sequence::new(imports),
        funcs: Sequence::new(funcs),
        tables: Sequence::new(tables),
        memories: Sequence::new(memories),
        globals: Sequence::new(globals),
        exports: Sequence::new(exports),
        start,
        elements: Sequence::new(elements),
        segments: Sequence::new(segments),
    }
}

// All that follows the preamble.
#[tactic(auto, unfolding(crate::specs::Inside::Reading::read_sections))]
fn read_sections(alloc: Global, bytes: &[u8]) -> Result<Module, ReadError>
    ensures { Gives (λ x. x) result (read_sections true bytes.now) }
{
    let (front, rest) = read_front(alloc, bytes)?;
    let (stores, rest) = read_stores(alloc, rest)?;
    let (middle, rest) = read_middle(alloc, rest)?;
    let (funcs, rest) = read_funcs(
        alloc,
        front.types.as_slice(),
        front.indices.as_slice(),
        rest,
    )?;
    let segments = read_last(alloc, rest)?;
    Ok(module_of(front, stores, middle, funcs, segments))
}

/// All of the bytes, as a module. Memory is asked for only if their number and the preamble are
/// right.
#[tactic(auto, unfolding(crate::specs::Inside::Reading::read_module, crate::specs::Inside::Reading::strip_preamble))]
pub fn read_module(alloc: Global, bytes: &[u8]) -> Result<Module, ReadError>
    ensures value { Gives (λ x. x) result (read_module true bytes.now) }
    ensures memory { result ≡ Err Memory → (length bytes.now ≤ max_module_bytes)
        × (strip_preamble bytes.now ≡ Ok (drop 8 bytes.now)) }
{
    if bytes.len() > MAX_MODULE_BYTES {
        return Err(ReadError::Fault(Fault::Over, Spot::at(bytes, What::Size)));
    }
    match bytes.strip_prefix(&PREAMBLE) {
        Some(sections) => read_sections(alloc, sections),
        None => Err(ReadError::Fault(Fault::Bad, Spot::at(bytes, What::Preamble))),
    }
}
