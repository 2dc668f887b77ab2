//! The canonical encoding of sections and modules (5.5).

ghost use Rattle.std.specs.Prelude.{◌≡◌, ◌++◌, ◌∷◌, List, length, IfOk, OnOk};
ghost use Rattle.std.specs.List.{flat_map};
ghost use Rattle.wasm_binary.specs.Opcodes.{mutability_byte, type_section, import_section, function_section, table_section, memory_section, global_section, export_section, element_section};
ghost use Rattle.wasm_binary.specs.Grammar.{indices_of};
ghost use Rattle.wasm_binary.specs.Canonical.{canon_number, canon_vector, canon_sized, canon_func_type, canon_limits, canon_import, canon_table, canon_global, canon_export, canon_element, canon_segment, canon_start, canon_section, canon};

use crate::opcodes::{
    CODE_SECTION, CONST, DATA_SECTION, ELEMENT_SECTION, EXPORT_SECTION, FUNCTION_SECTION,
    GLOBAL_SECTION, IMPORT_SECTION, MEMORY_SECTION, PREAMBLE, START_SECTION, TABLE_SECTION,
    TABLE_TYPE, TYPE_SECTION, VAR,
};
use crate::write_code::put_expression;
use crate::write_items::{Encode, put_number, put_sized, put_val_type, put_vector};
use std::alloc::{AllocError, Global};
use wasm_ast;
use wasm_ast::{Element, Func, Limits, Module, Mutability, Segment};

fn mutability_byte(mutability: Mutability) -> u8
    ensures { result ≡ mutability_byte mutability }
{
    match mutability {
        Mutability::Const => CONST,
        Mutability::Var => VAR,
    }
}

impl Encode for wasm_ast::Global {
    ghost encoding = { canon_global };

    fn put(&self, alloc: Global, out: &mut Vec<u8>) -> Result<(), AllocError> {
        put_val_type(out, self.val_type)?;
        out.push(mutability_byte(self.mutability))?;
        put_expression(alloc, out, &self.init)
    }
}

impl Encode for Element {
    ghost encoding = { canon_element };

    fn put(&self, alloc: Global, out: &mut Vec<u8>) -> Result<(), AllocError> {
        put_number(out, u64::from(self.table))?;
        put_expression(alloc, out, &self.offset)?;
        put_vector(alloc, out, self.funcs.as_slice())
    }
}

impl Encode for Segment {
    ghost encoding = { canon_segment };

    fn put(&self, alloc: Global, out: &mut Vec<u8>) -> Result<(), AllocError> {
        put_number(out, u64::from(self.memory))?;
        put_expression(alloc, out, &self.offset)?;
        put_sized(out, self.bytes.as_slice())
    }
}

// The section of this id, and nothing for no items.
fn put_section<T: Encode>(
    alloc: Global,
    out: &mut Vec<u8>,
    id: u8,
    items: &[T],
) -> Result<(), AllocError>
    ensures { OnOk result (out.new.items ≡ out.old.items ++ canon_section id T.encoding items.now) }
{
    if items.is_empty() {
        return Ok(());
    }
    let mut contents = Vec::new(alloc);
    put_vector(alloc, &mut contents, items)?;
    out.push(id)?;
    put_sized(out, &contents)
}

fn type_indices(alloc: Global, funcs: &[Func]) -> Result<Vec<u32>, AllocError>
    ensures { IfOk result (λ indices. indices.items ≡ indices_of funcs.now) }
{
    let mut indices = Vec::new(alloc);
    for func in funcs {
        indices.push(func.type_index)?;
    }
    Ok(indices)
}

// A vector of tables.
fn put_tables(alloc: Global, out: &mut Vec<u8>, tables: &[Limits]) -> Result<(), AllocError>
    ensures { OnOk result (out.new.items ≡ out.old.items ++ canon_vector canon_table tables.now) }
{
    put_number(out, tables.len() as u64)?;
    for table in tables {
        out.push(TABLE_TYPE)?;
        table.put(alloc, out)?;
    }
    Ok(())
}

fn put_table_section(alloc: Global, out: &mut Vec<u8>, tables: &[Limits]) -> Result<(), AllocError>
    ensures { OnOk result (out.new.items
        ≡ out.old.items ++ canon_section table_section canon_table tables.now) }
{
    if tables.is_empty() {
        return Ok(());
    }
    let mut contents = Vec::new(alloc);
    put_tables(alloc, &mut contents, tables)?;
    out.push(TABLE_SECTION)?;
    put_sized(out, &contents)
}

fn put_start(alloc: Global, out: &mut Vec<u8>, start: Option<u32>) -> Result<(), AllocError>
    ensures { OnOk result (out.new.items ≡ out.old.items ++ canon_start start) }
{
    let Some(func) = start else {
        return Ok(());
    };
    let mut contents = Vec::new(alloc);
    put_number(&mut contents, u64::from(func))?;
    out.push(START_SECTION)?;
    put_sized(out, &contents)
}

fn put_front(alloc: Global, out: &mut Vec<u8>, module: &Module) -> Result<(), AllocError>
    ensures { OnOk result (out.new.items ≡ out.old.items
        ++ canon_section type_section canon_func_type «module».now.types
        ++ canon_section import_section canon_import «module».now.imports
        ++ canon_section function_section canon_number (indices_of «module».now.funcs)) }
{
    put_section(alloc, out, TYPE_SECTION, module.types.as_slice())?;
    put_section(alloc, out, IMPORT_SECTION, module.imports.as_slice())?;
    let indices = type_indices(alloc, module.funcs.as_slice())?;
    put_section(alloc, out, FUNCTION_SECTION, &indices)
}

fn put_stores(alloc: Global, out: &mut Vec<u8>, module: &Module) -> Result<(), AllocError>
    ensures { OnOk result (out.new.items ≡ out.old.items
        ++ canon_section table_section canon_table «module».now.tables
        ++ canon_section memory_section canon_limits «module».now.memories
        ++ canon_section global_section canon_global «module».now.globals) }
{
    put_table_section(alloc, out, module.tables.as_slice())?;
    put_section(alloc, out, MEMORY_SECTION, module.memories.as_slice())?;
    put_section(alloc, out, GLOBAL_SECTION, module.globals.as_slice())
}

fn put_middle(alloc: Global, out: &mut Vec<u8>, module: &Module) -> Result<(), AllocError>
    ensures { OnOk result (out.new.items ≡ out.old.items
        ++ canon_section export_section canon_export «module».now.exports
        ++ canon_start «module».now.start
        ++ canon_section element_section canon_element «module».now.elements) }
{
    put_section(alloc, out, EXPORT_SECTION, module.exports.as_slice())?;
    put_start(alloc, out, module.start)?;
    put_section(alloc, out, ELEMENT_SECTION, module.elements.as_slice())
}

/// The canonical encoding of a module, with no limit tested.
pub fn canonical_bytes(alloc: Global, module: &Module) -> Result<Vec<u8>, AllocError>
    ensures { IfOk result (λ v. v.items ≡ canon «module».now) }
{
    let mut out = Vec::from_slice(alloc, &PREAMBLE)?;
    put_front(alloc, &mut out, module)?;
    put_stores(alloc, &mut out, module)?;
    put_middle(alloc, &mut out, module)?;
    put_section(alloc, &mut out, CODE_SECTION, module.funcs.as_slice())?;
    put_section(alloc, &mut out, DATA_SECTION, module.segments.as_slice())?;
    Ok(out)
}
