//! Modules made of their fields (6.6.13).

ghost use Rattle.std.specs.Prelude.{◌≡◌, [], ◌∷◌, ◌++◌, ◌≤◌, Ok, length};
ghost use Rattle.text_assembler.specs.Inside.Answers.{Gives};
ghost use Rattle.text_assembler.specs.declared.field.Field.TheVariants as fields;
ghost use Rattle.text_assembler.specs.Inside.Parts.{parts_of};
ghost use Rattle.text_assembler.specs.Modules.{add_field, no_fields, is_undefined, one_field, read_fields, read_module};

use crate::fault::ReadError;
use crate::field::{Field, read_field};
use crate::phrases::{after_id, fault, is_close, skip_close, skip_group};
use crate::scopes::Scopes;
use crate::token::Token;
use std::alloc::Global;
use wasm_ast;
use wasm_ast::{Element, Export, Func, FuncType, Import, Limits, Module, Segment, Sequence};

/// The parts of a module that is read, each kind in order.
#[derive(Drop)]
pub struct Parts {
    types: Vec<FuncType>,
    imports: Vec<Import>,
    funcs: Vec<Func>,
    tables: Vec<Limits>,
    memories: Vec<Limits>,
    globals: Vec<wasm_ast::Global>,
    exports: Vec<Export>,
    start: Option<u32>,
    elements: Vec<Element>,
    segments: Vec<Segment>,
}

// Adds an item at the end of those of its kind.
fn push<T: Drop>(items: &mut Vec<T>, item: T) -> Result<(), ReadError>
    ensures { Gives (λ _. items.new.items) result (Ok (items.old.items ++ item ∷ [])) }
{
    items.push(item)?;
    Ok(())
}

impl Parts {
    /// No parts. No memory is taken.
    pub fn new(alloc: Global) -> Parts
        ensures { parts_of result ≡ no_fields }
    {
        Parts {
            types: Vec::new(alloc),
            imports: Vec::new(alloc),
            funcs: Vec::new(alloc),
            tables: Vec::new(alloc),
            memories: Vec::new(alloc),
            globals: Vec::new(alloc),
            exports: Vec::new(alloc),
            start: None,
            elements: Vec::new(alloc),
            segments: Vec::new(alloc),
        }
    }

    // Whether no function, table, memory or global is defined yet.
    fn is_undefined(&self) -> bool
        ensures { result ≡ is_undefined (parts_of self.now) }
    {
        self.funcs.is_empty()
            && self.tables.is_empty()
            && self.memories.is_empty()
            && self.globals.is_empty()
    }

    // Imports come first.
    #[tactic(auto, unfolding(crate::specs::Modules::add_field))]
    fn add_import(&mut self, import: Import, left: usize) -> Result<(), ReadError>
        ensures { Gives (λ _. parts_of self.new) result
            (add_field (parts_of self.old) (fields.Import import)) }
    {
        if !self.is_undefined() {
            return Err(ReadError::Malformed { left });
        }
        push(&mut self.imports, import)
    }

    // There is at most one start function.
    #[tactic(auto, unfolding(crate::specs::Modules::add_field))]
    fn set_start(&mut self, func: u32, left: usize) -> Result<(), ReadError>
        ensures { Gives (λ _. parts_of self.new) result
            (add_field (parts_of self.old) (fields.Start func)) }
    {
        if self.start.is_some() {
            return Err(ReadError::Malformed { left });
        }
        self.start = Some(func);
        Ok(())
    }

    /// Adds a field at the end of those of its kind.
    #[tactic(auto, unfolding(crate::specs::Modules::add_field))]
    pub fn add(&mut self, field: Field, left: usize) -> Result<(), ReadError>
        ensures { Gives (λ _. parts_of self.new) result (add_field (parts_of self.old) field) }
    {
        match field {
            Field::Type(signature) => push(&mut self.types, signature),
            Field::Import(import) => self.add_import(import, left),
            Field::Func(func) => push(&mut self.funcs, func),
            Field::Table(table) => push(&mut self.tables, table),
            Field::Memory(memory) => push(&mut self.memories, memory),
            Field::Global(global) => push(&mut self.globals, global),
            Field::Export(export) => push(&mut self.exports, export),
            Field::Start(func) => self.set_start(func, left),
            Field::Element(element) => push(&mut self.elements, element),
            Field::Segment(segment) => push(&mut self.segments, segment),
        }
    }

    /// The module of these parts. No memory is taken.
    pub fn into_module(self) -> Module
        ensures { result ≡ parts_of self }
    {
        Module {
            types: Sequence::new(self.types),
            imports: Sequence::new(self.imports),
            funcs: Sequence::new(self.funcs),
            tables: Sequence::new(self.tables),
            memories: Sequence::new(self.memories),
            globals: Sequence::new(self.globals),
            exports: Sequence::new(self.exports),
            start: self.start,
            elements: Sequence::new(self.elements),
            segments: Sequence::new(self.segments),
        }
    }
}

// Reads a field into the parts, and gives what follows it.
#[tactic(auto, unfolding(crate::specs::Modules::one_field))]
fn add_field<'a>(
    alloc: Global,
    nesting: usize,
    scopes: &Scopes,
    parts: &mut Parts,
    tokens: &'a [Token],
) -> Result<&'a [Token], ReadError>
    ensures { Gives (λ rest. (parts_of parts.new, rest.now)) result
        (one_field nesting scopes.now (parts_of parts.old) tokens.now) }
{
    let (field, rest) = read_field(alloc, nesting, scopes, tokens)?;
    parts.add(field, tokens.len())?;
    Ok(rest)
}

// Reads the fields up to a `)` into the parts, and gives what follows them. Each has a token at
// least, so there are no more of them than this many.
fn add_fields<'a>(
    alloc: Global,
    nesting: usize,
    scopes: &Scopes,
    parts: &mut Parts,
    most: usize,
    tokens: &'a [Token],
) -> Result<&'a [Token], ReadError>
    ensures { Gives (λ rest. (parts_of parts.new, rest.now)) result
        (read_fields nesting scopes.now most (parts_of parts.old) tokens.now) }
{
    let mut rest = tokens;
    for _ in 0..most {
        if is_close(rest) {
            return Ok(rest);
        }
        rest = add_field(alloc, nesting, scopes, parts, rest)?;
    }
    if is_close(rest) {
        Ok(rest)
    } else {
        Err(fault(rest))
    }
}

// Reads a module into the parts.
#[tactic(auto, unfolding(crate::specs::Modules::read_module))]
fn add_module(
    alloc: Global,
    nesting: usize,
    scopes: &Scopes,
    parts: &mut Parts,
    tokens: &[Token],
) -> Result<(), ReadError>
    requires { parts_of parts.old ≡ no_fields }
    ensures { Gives (λ _. parts_of parts.new) result (read_module nesting scopes.now tokens.now) }
{
    let rest = skip_group("module", tokens)?;
    let most = tokens.len();
    let rest = add_fields(alloc, nesting, scopes, parts, most, after_id(rest))?;
    let rest = skip_close(rest)?;
    if !rest.is_empty() {
        return Err(fault(rest));
    }
    Ok(())
}

/// The module that these tokens denote, given its declarations.
pub fn read_module(
    alloc: Global,
    nesting: usize,
    scopes: &Scopes,
    tokens: &[Token],
) -> Result<Module, ReadError>
    ensures { Gives (λ m. m) result (read_module nesting scopes.now tokens.now) }
{
    let mut parts = Parts::new(alloc);
    add_module(alloc, nesting, scopes, &mut parts, tokens)?;
    Ok(parts.into_module())
}
