//! Readers of the items of sections, but for code (5.5.5 to 5.5.14).

ghost use Rattle.std.specs.Prelude.{◌≡◌, true};
ghost use Rattle.wasm_binary.specs.Inside.Reading.{Gives, read_import, read_table, read_memory, mutability_of, read_mutability, read_global, kind_of, read_kind, read_export, read_start, read_place, read_element, read_segment};

use crate::fault::{Fault, Limited, Number, ReadError, Spot, Wanted, What};
use crate::instructions::read_expression;
use crate::numbers::{read_byte, read_byte_vector, read_number, skip_byte};
use crate::opcodes::{CONST, FUNC_KIND, GLOBAL_KIND, MEMORY_KIND, TABLE_KIND, TABLE_TYPE, VAR};
use crate::types::{read_limits, read_name, read_val_type};
use crate::vectors::{Decode, read_indices};
use std::alloc::Global;
use wasm_ast;
use wasm_ast::{
    Body, Element, Export, ExportKind, Import, Limits, MAX_MEMORY_PAGES, MAX_TABLE_ENTRIES,
    Mutability, Segment, Sequence, Text,
};

impl Decode for Import {
    ghost reading = { read_import };

    #[tactic(auto, unfolding(crate::specs::Inside::Reading::read_import))]
    fn read(alloc: Global, bytes: &[u8]) -> Result<(Import, &[u8]), ReadError> {
        let (module, rest) = read_name(bytes)?;
        let (field, rest) = read_name(rest)?;
        let rest = skip_byte(FUNC_KIND, What::Wanted(Wanted::ImportKind), rest)?;
        let (type_index, rest) = read_number(Number::TypeIndex, rest)?;
        let module = Text::from_str(alloc, module)?;
        let name = Text::from_str(alloc, field)?;
        Ok((
            Import {
                module,
                name,
                type_index,
            },
            rest,
        ))
    }
}

/// A table, and the rest.
#[tactic(auto, unfolding(crate::specs::Inside::Reading::read_table))]
pub fn read_table(bytes: &[u8]) -> Result<(Limits, &[u8]), ReadError>
    ensures { Gives (λ x. (x.0, x.1.now)) result (read_table true bytes.now) }
{
    let rest = skip_byte(TABLE_TYPE, What::Wanted(Wanted::TableType), bytes)?;
    read_limits(Limited::TableEntries, MAX_TABLE_ENTRIES, rest)
}

/// A memory, and the rest.
#[tactic(auto, unfolding(crate::specs::Inside::Reading::read_memory))]
pub fn read_memory(bytes: &[u8]) -> Result<(Limits, &[u8]), ReadError>
    ensures { Gives (λ x. (x.0, x.1.now)) result (read_memory true bytes.now) }
{
    read_limits(Limited::MemoryPages, MAX_MEMORY_PAGES, bytes)
}

#[tactic(auto, unfolding(crate::specs::Inside::Reading::read_mutability, crate::specs::Inside::Reading::mutability_of))]
fn read_mutability(bytes: &[u8]) -> Result<(Mutability, &[u8]), ReadError>
    ensures { Gives (λ x. (x.0, x.1.now)) result (read_mutability bytes.now) }
{
    let what = What::Wanted(Wanted::Mutability);
    let (first, rest) = read_byte(what, bytes)?;
    match first {
        CONST => Ok((Mutability::Const, rest)),
        VAR => Ok((Mutability::Var, rest)),
        _ => Err(ReadError::Fault(Fault::Bad, Spot::at(bytes, what))),
    }
}

impl Decode for wasm_ast::Global {
    ghost reading = { read_global true };

    #[tactic(auto, unfolding(crate::specs::Inside::Reading::read_global))]
    fn read(alloc: Global, bytes: &[u8]) -> Result<(wasm_ast::Global, &[u8]), ReadError> {
        let (val_type, rest) = read_val_type(bytes)?;
        let (mutability, rest) = read_mutability(rest)?;
        let (init, rest) = read_expression(alloc, rest)?;
        Ok((
            wasm_ast::Global {
                val_type,
                mutability,
                init,
            },
            rest,
        ))
    }
}

#[tactic(auto, unfolding(crate::specs::Inside::Reading::read_kind, crate::specs::Inside::Reading::kind_of))]
fn read_kind(bytes: &[u8]) -> Result<(ExportKind, &[u8]), ReadError>
    ensures { Gives (λ x. (x.0, x.1.now)) result (read_kind bytes.now) }
{
    let what = What::Wanted(Wanted::ExportKind);
    let (first, rest) = read_byte(what, bytes)?;
    match first {
        FUNC_KIND => Ok((ExportKind::Func, rest)),
        TABLE_KIND => Ok((ExportKind::Table, rest)),
        MEMORY_KIND => Ok((ExportKind::Memory, rest)),
        GLOBAL_KIND => Ok((ExportKind::Global, rest)),
        _ => Err(ReadError::Fault(Fault::Bad, Spot::at(bytes, what))),
    }
}

impl Decode for Export {
    ghost reading = { read_export };

    #[tactic(auto, unfolding(crate::specs::Inside::Reading::read_export))]
    fn read(alloc: Global, bytes: &[u8]) -> Result<(Export, &[u8]), ReadError> {
        let (name, rest) = read_name(bytes)?;
        let (kind, rest) = read_kind(rest)?;
        let (index, rest) = read_number(Number::Index, rest)?;
        let name = Text::from_str(alloc, name)?;
        Ok((Export { name, kind, index }, rest))
    }
}

/// The start function, and the rest.
#[tactic(auto, unfolding(crate::specs::Inside::Reading::read_start))]
pub fn read_start(bytes: &[u8]) -> Result<(Option<u32>, &[u8]), ReadError>
    ensures { Gives (λ x. (x.0, x.1.now)) result (read_start bytes.now) }
{
    let (func, rest) = read_number(Number::StartIndex, bytes)?;
    Ok((Some(func), rest))
}

// An index, which is this number, and the expression of an offset, and the rest.
#[tactic(auto, unfolding(crate::specs::Inside::Reading::read_place))]
fn read_place(index: Number, alloc: Global, bytes: &[u8]) -> Result<((u32, Body), &[u8]), ReadError>
    ensures { Gives (λ x. ((x.0.0, x.0.1), x.1.now)) result (read_place true bytes.now) }
{
    let (index, rest) = read_number(index, bytes)?;
    let (offset, rest) = read_expression(alloc, rest)?;
    Ok(((index, offset), rest))
}

impl Decode for Element {
    ghost reading = { read_element true };

    #[tactic(auto, unfolding(crate::specs::Inside::Reading::read_element))]
    fn read(alloc: Global, bytes: &[u8]) -> Result<(Element, &[u8]), ReadError> {
        let ((table, offset), rest) = read_place(Number::TableIndex, alloc, bytes)?;
        let (funcs, rest) = read_indices(alloc, rest)?;
        let funcs = Sequence::new(funcs);
        Ok((
            Element {
                table,
                offset,
                funcs,
            },
            rest,
        ))
    }
}

impl Decode for Segment {
    ghost reading = { read_segment true };

    #[tactic(auto, unfolding(crate::specs::Inside::Reading::read_segment))]
    fn read(alloc: Global, bytes: &[u8]) -> Result<(Segment, &[u8]), ReadError> {
        let ((memory, offset), rest) = read_place(Number::MemoryIndex, alloc, bytes)?;
        let (contents, rest) = read_byte_vector(Wanted::SegmentBytes, rest)?;
        let bytes = Sequence::new(Vec::from_slice(alloc, contents)?);
        Ok((
            Segment {
                memory,
                offset,
                bytes,
            },
            rest,
        ))
    }
}
