//! Which operands an instruction takes and which are there, and what it names that is not there.

ghost use Rattle.std.specs.Prelude.{◌≡◌, ◌∷◌, [], Some, slice_get};
ghost use Rattle.wasm_ast.specs.declared.values.FuncType.{FuncType as FuncTypeValue};

use crate::texts::{Told, push_item};
use std::alloc::{AllocError, Global};
use validator::{KnownOperands, Lack, Taken, Types, Unchecked};
use wasm_ast::{Func, Module, Simple, ValType};

/// What is said where no more is known.
pub const OTHERS: &str = "it finds other operands than it needs";

const TWO: &str = "it takes two operands of one type and an i32";

/// How many types of a list are shown.
const MOST: usize = 16;

/// A function at fault, of a module that need not be valid.
#[derive(Clone, Copy)]
pub struct Function<'a> {
    pub alloc: Global,
    pub of: &'a Unchecked,
    pub func: &'a Func,
    /// Its index, imports counted first.
    pub number: u32,
}

/// One operand of a type.
pub fn one(val_type: ValType) -> &'static [ValType]
    ensures { result.now ≡ val_type ∷ [] }
{
    match val_type {
        ValType::I32 => &[ValType::I32],
        ValType::I64 => &[ValType::I64],
    }
}

/// The results of a function.
pub fn results_of<'a>(of: &'a Module, func: &Func) -> &'a [ValType]
    ensures { (t : FuncTypeValue) → slice_get of.now.types func.now.type_index ≡ Some t
        → result.now ≡ t.results }
{
    match of.type_with(func.type_index) {
        Some(found) => found.results.as_slice(),
        None => &[],
    }
}

/// How many locals a function has, its parameters counted.
pub fn locals_of(of: &Module, func: &Func) -> usize {
    let params = match of.type_with(func.type_index) {
        Some(found) => found.params.len(),
        None => 0,
    };
    params.saturating_add(func.locals.len())
}

/// How many functions a module has, imports counted.
pub fn count_functions(of: &Module) -> usize {
    of.imports.len().saturating_add(of.funcs.len())
}

/// The last of these items, at most this many.
pub fn last_of<T>(items: &[T], most: usize) -> &[T] {
    let first = items.len().saturating_sub(most);
    items.get(first..).unwrap_or(items)
}

/// These types, as what is known of operands.
pub fn known(alloc: Global, types: &[ValType]) -> Result<Vec<Option<ValType>>, AllocError> {
    let mut known = Vec::new(alloc);
    for each in types {
        known.push(Some(*each))?;
    }
    Ok(known)
}

/// Types by name, and `any` for one that is not known.
pub fn names(alloc: Global, types: &[Option<ValType>]) -> Told {
    let mut text = String::new(alloc);
    for each in types {
        let name = match each {
            Some(ValType::I32) => "i32",
            Some(ValType::I64) => "i64",
            None => "any",
        };
        push_item(&mut text, " ", name)?;
    }
    Ok(text)
}

// The newest of these types by name, the newest last, and how many more there are.
fn list_text(alloc: Global, types: &[Option<ValType>]) -> Told {
    let text = names(alloc, last_of(types, MOST))?;
    match types.len().saturating_sub(MOST) {
        0 => Ok(text),
        more => format!(in alloc; "{text} ({more} more below)"),
    }
}

/// Types by name, the newest last, with an i32 above them if `then_i32`.
pub fn types_text(alloc: Global, types: &[ValType], then_i32: bool) -> Told {
    let mut types = known(alloc, types)?;
    if then_i32 {
        types.push(Some(ValType::I32))?;
    }
    if types.is_empty() {
        return String::from_str(alloc, "no operands");
    }
    list_text(alloc, types.as_slice())
}

// Which operands are there, of a block if `in_block`.
fn there_text(alloc: Global, operands: KnownOperands<'_>, in_block: bool) -> Told {
    let place = if in_block { " in its block" } else { "" };
    if operands.types.is_empty() {
        return format!(in alloc; "there are no operands{place}");
    }
    let list = list_text(alloc, operands.types)?;
    let below = if operands.unreachable {
        ", with any others below, as the point cannot be reached"
    } else {
        ""
    };
    format!(in alloc; "the operands{place} are {list}{below}")
}

/// Which operands are there at an end, and which results are wanted.
pub fn end_text(alloc: Global, operands: KnownOperands<'_>, results: &[ValType]) -> Told {
    let there = there_text(alloc, operands, false)?;
    if results.is_empty() {
        return format!(in alloc; "{there}, and it has no results");
    }
    let wanted = types_text(alloc, results, false)?;
    format!(in alloc; "{there}, and its results are {wanted}")
}

/// What an instruction takes, in these words, and which operands are there.
pub fn need_text(alloc: Global, types: &Types<'_>, need: &str) -> Told {
    let Some(operands) = types.operands(0) else {
        return String::from_str(alloc, OTHERS);
    };
    let there = there_text(alloc, operands, types.open_blocks() > 1)?;
    format!(in alloc; "{need}, and {there}")
}

fn taken_text(alloc: Global, known: &Types<'_>, simple: &Simple, taken: Taken<'_>) -> Told {
    let list = match taken {
        Taken::Any => return need_text(alloc, known, "it takes one operand"),
        Taken::Two => return need_text(alloc, known, TWO),
        Taken::Types { types, then_i32 } => types_text(alloc, types, then_i32)?,
    };
    let lead = match simple {
        Simple::Return => "it takes the results",
        Simple::Br(_) | Simple::BrIf(_) => "for its label it takes",
        Simple::BrTable(_, _) => "for its labels it takes",
        _ => "it takes",
    };
    let need = format!(in alloc; "{lead} {list}")?;
    need_text(alloc, known, need.as_str())
}

/// That there are no more than this many of what an index names.
pub fn count_text(alloc: Global, what: &str, count: usize) -> Told {
    format!(in alloc; "of {what} there are {count}")
}

// That this label of a `br_table` takes other types than its last one.
fn other_types_text(alloc: Global, types: &Types<'_>, last: u32, label: u32) -> Told {
    let (Some(found), Some(wanted)) = (types.label(label), types.label(last)) else {
        return String::from_str(alloc, OTHERS);
    };
    let found = types_text(alloc, found, false)?;
    let wanted = types_text(alloc, wanted, false)?;
    format!(in alloc; "label {label} takes {found}, and label {last}, its last, takes {wanted}")
}

// What is said of an index of an instruction of a function, before which so much is known.
fn index_text(of: Function<'_>, types: &Types<'_>, lack: Lack) -> Told {
    let module = of.of.module();
    let (what, count) = match lack {
        Lack::Label => ("open labels", types.open_blocks()),
        Lack::Local => ("locals", locals_of(module, of.func)),
        Lack::Global => ("globals", module.globals.len()),
        Lack::Function => ("functions", count_functions(module)),
        _ => ("types", module.types.len()),
    };
    count_text(of.alloc, what, count)
}

// What is said of an instruction without a body of a function, before which so much is known.
fn lack_text(of: Function<'_>, types: &Types<'_>, simple: &Simple, lack: Lack) -> Told {
    let text = match (lack, simple) {
        (Lack::OtherTypes(label), Simple::BrTable(last, _)) => {
            return other_types_text(of.alloc, types, *last, label);
        }
        (Lack::OtherTypes(_), _) => OTHERS,
        (Lack::Label, _) if types.open_blocks() == 0 => OTHERS,
        (Lack::Constant, _) => "that global is a constant",
        (Lack::Table, _) => "the module has no table",
        (Lack::Memory, _) => "the module has no memory",
        (Lack::Alignment, _) => "its alignment is over its width",
        _ => return index_text(of, types, lack),
    };
    String::from_str(of.alloc, text)
}

/// What is said of an instruction without a body at fault in a function, before which so much is known.
pub fn simple_text<'a>(of: Function<'a>, types: &mut Types<'a>, simple: &Simple) -> Told {
    match of.of.taken_by(of.number, types, simple) {
        Some(Ok(taken)) => taken_text(of.alloc, types, simple, taken),
        Some(Err(lack)) => lack_text(of, types, simple, lack),
        None => String::from_str(of.alloc, OTHERS),
    }
}
