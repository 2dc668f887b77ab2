//! Fields of modules (6.6).

ghost use Rattle.std.specs.Prelude.{◌≡◌, [], ◌∷◌, map, IfOk, Ok, codes};
ghost use Rattle.wasm_ast.specs.View.{op_of};
ghost use Rattle.wasm_ast.specs.Syntax.{ops_of};
ghost use Rattle.text_assembler.specs.Inside.Answers.{Gives, with_front};
ghost use Rattle.text_assembler.specs.Inside.Steps.{made, read_locals};
ghost use Rattle.text_assembler.specs.declared.field.Field.TheVariants as fields;
ghost use Rattle.text_assembler.specs.Reading.{read_parts};
ghost use Rattle.text_assembler.specs.Phrases.{is_close, read_index, take_text, types_of};
ghost use Rattle.text_assembler.specs.Instructions.{read_body};
ghost use Rattle.text_assembler.specs.Modules.{read_type, read_imported, read_import, read_func, read_table, read_memory, read_global_type, read_expression, read_global, kind_of, space_of, read_exported, read_export, read_offset, read_element, read_segment, read_defined, read_contents, read_field};

use crate::blocks::push_body;
use crate::fault::ReadError;
use crate::ids::Ids;
use crate::labels::Labels;
use crate::phrases::{
    after_id, begins_group, fault, is_close, is_word, open_word, push_bindings, push_indices,
    read_grouped, read_index, read_limits, read_name, read_val_type, skip_close, skip_group,
    skip_word, take_text,
};
use crate::scopes::Scopes;
use crate::token::Token;
use crate::uses::{declare_bindings, read_signature, read_use, val_types_of};
use std::alloc::{AllocError, Global};
use wasm_ast;
use wasm_ast::{
    Body, Element, Export, ExportKind, Func, FuncType, Import, Limits, Mutability, Segment,
    Sequence, Text, ValType,
};

/// A field.
#[derive(Drop)]
pub enum Field {
    Type(FuncType),
    Import(Import),
    Func(Func),
    Table(Limits),
    Memory(Limits),
    Global(wasm_ast::Global),
    Export(Export),
    Start(u32),
    Element(Element),
    Segment(Segment),
}

/// A type after its keyword, and what follows it.
#[tactic(auto, unfolding(crate::specs::Modules::read_type))]
pub fn read_type(alloc: Global, tokens: &[Token]) -> Result<(FuncType, &[Token]), ReadError>
    ensures { Gives (λ x. (x.0, x.1.now)) result (read_type tokens.now) }
{
    let rest = skip_group("func", after_id(tokens))?;
    let (written, rest) = read_signature(alloc, rest)?;
    let rest = skip_close(rest)?;
    Ok((written.func_type(alloc)?, rest))
}

/// The two names of an import, and what follows its `( func`.
#[tactic(auto, unfolding(crate::specs::Modules::read_imported))]
pub fn read_imported(tokens: &[Token]) -> Result<((&str, &str), &[Token]), ReadError>
    ensures { Gives (λ x. ((x.0.0.now, x.0.1.now), x.1.now)) result
        (read_imported tokens.now) }
{
    let (module, rest) = read_name(tokens)?;
    let (name, rest) = read_name(rest)?;
    let rest = skip_group("func", rest)?;
    Ok(((module, name), rest))
}

fn import_of(alloc: Global, owner: &str, item: &str, type_index: u32) -> Result<Import, AllocError>
    ensures owner { IfOk result (λ i. i.«module» ≡ owner.now) }
    ensures item { IfOk result (λ i. i.name ≡ item.now) }
    ensures type_index { IfOk result (λ i. i.type_index ≡ type_index) }
{
    let module = Text::from_str(alloc, owner)?;
    let name = Text::from_str(alloc, item)?;
    Ok(Import {
        module,
        name,
        type_index,
    })
}

#[tactic(auto, unfolding(crate::specs::Modules::read_import))]
fn read_import<'a>(
    alloc: Global,
    scopes: &Scopes,
    tokens: &'a [Token],
) -> Result<(Field, &'a [Token]), ReadError>
    ensures { Gives (λ x. (x.0, x.1.now)) result
        (made fields.Import (read_import scopes.now tokens.now)) }
{
    let ((module, name), rest) = read_imported(tokens)?;
    let (type_use, rest) = read_use(alloc, scopes, after_id(rest))?;
    let rest = skip_close(rest)?;
    let import = import_of(alloc, module, name, type_use.type_index)?;
    Ok((Field::Import(import), rest))
}

// The types of the locals of a function, and what follows them. Their identifiers are declared.
fn read_locals<'a>(
    alloc: Global,
    ids: &mut Ids,
    tokens: &'a [Token],
) -> Result<(Sequence<ValType>, &'a [Token]), ReadError>
    ensures { Gives (λ x. ((x.0, ids.new), x.1.now)) result (read_locals ids.old tokens.now) }
{
    let mut locals = Vec::new(alloc);
    let rest = push_bindings(alloc, "local", &mut locals, tokens)?;
    declare_bindings(alloc, ids, locals.as_slice())?;
    Ok((val_types_of(alloc, locals.as_slice())?, rest))
}

// The instructions of a body that is in no block, and what follows them.
fn read_ops<'a>(
    alloc: Global,
    nesting: usize,
    scopes: &Scopes,
    locals: &Ids,
    tokens: &'a [Token],
) -> Result<(Body, &'a [Token]), ReadError>
    ensures { Gives (λ x. (x.0, x.1.now)) result
        (made ops_of (read_body scopes.now locals.now nesting [] tokens.now)) }
{
    let mut labels = Labels::new(alloc);
    let mut body = Vec::new(alloc);
    let rest = push_body(
        alloc,
        scopes,
        locals,
        &mut labels,
        nesting,
        &mut body,
        tokens,
    )?;
    Ok((Body::new(body), rest))
}

#[tactic(auto, unfolding(crate::specs::Modules::read_func))]
fn read_func<'a>(
    alloc: Global,
    nesting: usize,
    scopes: &Scopes,
    tokens: &'a [Token],
) -> Result<(Field, &'a [Token]), ReadError>
    ensures { Gives (λ x. (x.0, x.1.now)) result
        (made fields.Func (read_func nesting scopes.now tokens.now)) }
{
    let (type_use, rest) = read_use(alloc, scopes, after_id(tokens))?;
    let mut ids = type_use.params;
    let (locals, rest) = read_locals(alloc, &mut ids, rest)?;
    let (body, rest) = read_ops(alloc, nesting, scopes, &ids, rest)?;
    let func = Func {
        type_index: type_use.type_index,
        locals,
        body,
    };
    Ok((Field::Func(func), rest))
}

#[tactic(auto, unfolding(crate::specs::Modules::read_table))]
fn read_table(tokens: &[Token]) -> Result<(Field, &[Token]), ReadError>
    ensures { Gives (λ x. (x.0, x.1.now)) result
        (made fields.Table (read_table tokens.now)) }
{
    let (limits, rest) = read_limits(after_id(tokens))?;
    let rest = skip_word("funcref", rest)?;
    Ok((Field::Table(limits), rest))
}

#[tactic(auto, unfolding(crate::specs::Modules::read_memory))]
fn read_memory(tokens: &[Token]) -> Result<(Field, &[Token]), ReadError>
    ensures { Gives (λ x. (x.0, x.1.now)) result
        (made fields.Memory (read_memory tokens.now)) }
{
    made!(read_limits(after_id(tokens)), limits => Field::Memory(limits))
}

#[tactic(auto, unfolding(crate::specs::Modules::read_global_type))]
fn read_global_type(tokens: &[Token]) -> Result<((ValType, Mutability), &[Token]), ReadError>
    ensures { Gives (λ x. ((x.0.0, x.0.1), x.1.now)) result (read_global_type tokens.now) }
{
    if !begins_group("mut", tokens) {
        let (val_type, rest) = read_val_type(tokens)?;
        return Ok(((val_type, Mutability::Const), rest));
    }
    made!(read_grouped("mut", tokens), val_type => (val_type, Mutability::Var))
}

// The instructions of a constant, and what follows them.
#[tactic(auto, unfolding(crate::specs::Modules::read_expression))]
fn read_expression<'a>(
    alloc: Global,
    nesting: usize,
    scopes: &Scopes,
    tokens: &'a [Token],
) -> Result<(Body, &'a [Token]), ReadError>
    ensures { Gives (λ x. (x.0, x.1.now)) result
        (read_expression nesting scopes.now tokens.now) }
{
    let locals = Ids::new(alloc);
    read_ops(alloc, nesting, scopes, &locals, tokens)
}

#[tactic(auto, unfolding(crate::specs::Modules::read_global))]
fn read_global<'a>(
    alloc: Global,
    nesting: usize,
    scopes: &Scopes,
    tokens: &'a [Token],
) -> Result<(Field, &'a [Token]), ReadError>
    ensures { Gives (λ x. (x.0, x.1.now)) result
        (made fields.Global (read_global nesting scopes.now tokens.now)) }
{
    let ((val_type, mutability), rest) = read_global_type(after_id(tokens))?;
    let (init, rest) = read_expression(alloc, nesting, scopes, rest)?;
    let global = wasm_ast::Global {
        val_type,
        mutability,
        init,
    };
    Ok((Field::Global(global), rest))
}

#[tactic(auto, unfolding(crate::specs::Modules::kind_of))]
fn kind_of(word: &[u8], left: usize) -> Result<ExportKind, ReadError>
    ensures { Gives (λ x. x) result (kind_of word.now) }
{
    if is_word(word, "func") {
        Ok(ExportKind::Func)
    } else if is_word(word, "table") {
        Ok(ExportKind::Table)
    } else if is_word(word, "memory") {
        Ok(ExportKind::Memory)
    } else if is_word(word, "global") {
        Ok(ExportKind::Global)
    } else {
        Err(ReadError::Malformed { left })
    }
}

fn space_of(scopes: &Scopes, kind: ExportKind) -> &Ids
    ensures { result.now ≡ space_of scopes.now kind }
{
    match kind {
        ExportKind::Func => &scopes.funcs,
        ExportKind::Table => &scopes.tables,
        ExportKind::Memory => &scopes.memories,
        ExportKind::Global => &scopes.globals,
    }
}

#[tactic(auto, unfolding(crate::specs::Modules::read_exported))]
fn read_exported<'a>(
    scopes: &Scopes,
    tokens: &'a [Token],
) -> Result<((ExportKind, u32), &'a [Token]), ReadError>
    ensures { Gives (λ x. ((x.0.0, x.0.1), x.1.now)) result
        (read_exported scopes.now tokens.now) }
{
    let (word, after) = open_word(tokens)?;
    let kind = kind_of(word, after.len() + 1)?;
    let (index, rest) = read_index(space_of(scopes, kind), after)?;
    let rest = skip_close(rest)?;
    Ok(((kind, index), rest))
}

#[tactic(auto, unfolding(crate::specs::Modules::read_export))]
fn read_export<'a>(
    alloc: Global,
    scopes: &Scopes,
    tokens: &'a [Token],
) -> Result<(Field, &'a [Token]), ReadError>
    ensures { Gives (λ x. (x.0, x.1.now)) result
        (made fields.Export (read_export scopes.now tokens.now)) }
{
    let (name, rest) = read_name(tokens)?;
    let ((kind, index), rest) = read_exported(scopes, rest)?;
    let name = Text::from_str(alloc, name)?;
    Ok((Field::Export(Export { name, kind, index }), rest))
}

#[tactic(auto, unfolding(crate::specs::Modules::read_offset))]
fn read_offset<'a>(
    alloc: Global,
    nesting: usize,
    scopes: &Scopes,
    tokens: &'a [Token],
) -> Result<(Body, &'a [Token]), ReadError>
    ensures { Gives (λ x. (x.0, x.1.now)) result
        (read_offset nesting scopes.now tokens.now) }
{
    let rest = skip_group("offset", tokens)?;
    let (offset, rest) = read_expression(alloc, nesting, scopes, rest)?;
    let rest = skip_close(rest)?;
    Ok((offset, rest))
}

#[tactic(auto, unfolding(crate::specs::Modules::read_element))]
fn read_element<'a>(
    alloc: Global,
    nesting: usize,
    scopes: &Scopes,
    tokens: &'a [Token],
) -> Result<(Field, &'a [Token]), ReadError>
    ensures { Gives (λ x. (x.0, x.1.now)) result
        (made fields.Element (read_element nesting scopes.now tokens.now)) }
{
    let (offset, rest) = read_offset(alloc, nesting, scopes, tokens)?;
    let mut funcs = Vec::new(alloc);
    let rest = push_indices(&scopes.funcs, &mut funcs, rest)?;
    let funcs = Sequence::new(funcs);
    let element = Element {
        table: 0,
        offset,
        funcs,
    };
    Ok((Field::Element(element), rest))
}

fn push_text<'a>(out: &mut Vec<u8>, tokens: &'a [Token]) -> Result<&'a [Token], ReadError>
    ensures { Gives (λ rest. (out.new.items, rest.now)) result
        (with_front out.old.items (take_text tokens.now)) }
{
    let (bytes, rest) = take_text(tokens)?;
    out.extend_from_slice(bytes)?;
    Ok(rest)
}

// Pushes the bytes of the strings up to a `)`, and gives what follows them.
fn push_texts<'a>(out: &mut Vec<u8>, tokens: &'a [Token]) -> Result<&'a [Token], ReadError>
    ensures { Gives (λ rest. (out.new.items, rest.now)) result
        (with_front out.old.items (read_parts is_close take_text tokens.now)) }
{
    let mut rest = tokens;
    for _ in 0..tokens.len() {
        if is_close(rest) {
            return Ok(rest);
        }
        rest = push_text(out, rest)?;
    }
    if is_close(rest) {
        Ok(rest)
    } else {
        Err(fault(rest))
    }
}

#[tactic(auto, unfolding(crate::specs::Modules::read_segment))]
fn read_segment<'a>(
    alloc: Global,
    nesting: usize,
    scopes: &Scopes,
    tokens: &'a [Token],
) -> Result<(Field, &'a [Token]), ReadError>
    ensures { Gives (λ x. (x.0, x.1.now)) result
        (made fields.Segment (read_segment nesting scopes.now tokens.now)) }
{
    let (offset, rest) = read_offset(alloc, nesting, scopes, tokens)?;
    let mut bytes = Vec::new(alloc);
    let rest = push_texts(&mut bytes, rest)?;
    let bytes = Sequence::new(bytes);
    let segment = Segment {
        memory: 0,
        offset,
        bytes,
    };
    Ok((Field::Segment(segment), rest))
}

fn read_type_field(alloc: Global, tokens: &[Token]) -> Result<(Field, &[Token]), ReadError>
    ensures { Gives (λ x. (x.0, x.1.now)) result (made fields.Type (read_type tokens.now)) }
{
    made!(read_type(alloc, tokens), signature => Field::Type(signature))
}

fn read_start<'a>(scopes: &Scopes, tokens: &'a [Token]) -> Result<(Field, &'a [Token]), ReadError>
    ensures { Gives (λ x. (x.0, x.1.now)) result
        (made fields.Start (read_index scopes.now.funcs tokens.now)) }
{
    made!(read_index(&scopes.funcs, tokens), func => Field::Start(func))
}

// A function, table, memory or global after its keyword, and what follows it.
#[tactic(auto, unfolding(crate::specs::Modules::read_defined))]
fn read_defined<'a>(
    alloc: Global,
    nesting: usize,
    scopes: &Scopes,
    word: &[u8],
    tokens: &'a [Token],
) -> Result<(Field, &'a [Token]), ReadError>
    ensures { Gives (λ x. (x.0, x.1.now)) result
        (read_defined nesting scopes.now word.now tokens.now) }
{
    if is_word(word, "func") {
        read_func(alloc, nesting, scopes, tokens)
    } else if is_word(word, "table") {
        read_table(tokens)
    } else if is_word(word, "memory") {
        read_memory(tokens)
    } else if is_word(word, "global") {
        read_global(alloc, nesting, scopes, tokens)
    } else {
        Err(ReadError::Malformed {
            left: tokens.len() + 1,
        })
    }
}

#[tactic(auto, unfolding(crate::specs::Modules::read_contents))]
fn read_contents<'a>(
    alloc: Global,
    nesting: usize,
    scopes: &Scopes,
    word: &[u8],
    tokens: &'a [Token],
) -> Result<(Field, &'a [Token]), ReadError>
    ensures { Gives (λ x. (x.0, x.1.now)) result
        (read_contents nesting scopes.now word.now tokens.now) }
{
    if is_word(word, "type") {
        read_type_field(alloc, tokens)
    } else if is_word(word, "import") {
        read_import(alloc, scopes, tokens)
    } else if is_word(word, "export") {
        read_export(alloc, scopes, tokens)
    } else if is_word(word, "start") {
        read_start(scopes, tokens)
    } else if is_word(word, "elem") {
        read_element(alloc, nesting, scopes, tokens)
    } else if is_word(word, "data") {
        read_segment(alloc, nesting, scopes, tokens)
    } else {
        read_defined(alloc, nesting, scopes, word, tokens)
    }
}

/// A field, and what follows it.
#[tactic(auto, unfolding(crate::specs::Modules::read_field))]
pub fn read_field<'a>(
    alloc: Global,
    nesting: usize,
    scopes: &Scopes,
    tokens: &'a [Token],
) -> Result<(Field, &'a [Token]), ReadError>
    ensures { Gives (λ x. (x.0, x.1.now)) result
        (read_field nesting scopes.now tokens.now) }
{
    let (word, rest) = open_word(tokens)?;
    let (field, rest) = read_contents(alloc, nesting, scopes, word, rest)?;
    let rest = skip_close(rest)?;
    Ok((field, rest))
}
