//! Which operands a block takes, and which are there where its body or that of a function ends.

use crate::operands::{
    Function, OTHERS, count_text, end_text, last_of, need_text, one, results_of, types_text,
};
use crate::texts::Told;
use std::alloc::AllocError;
use validator::{KnownOperands, Types};
use wasm_ast::{Arms, BlockType, Body, Instr, MAX_RESULTS, Module, ValType};

/// The types of a block, in written order.
#[derive(Clone, Copy)]
struct BlockTypes<'a> {
    params: &'a [ValType],
    results: &'a [ValType],
    /// Those that a branch to its label takes.
    label: &'a [ValType],
    /// Whether it takes an i32 first.
    has_condition: bool,
}

// What blocks of this type take and give. None if the type is not there.
fn types_of<'a>(of: &'a Module, kind: BlockType) -> Option<(&'a [ValType], &'a [ValType])> {
    match kind {
        BlockType::Empty => Some((&[], &[])),
        BlockType::One(val_type) => Some((&[], one(val_type))),
        BlockType::Index(index) => {
            let found = of.type_with(index)?;
            Some((found.params.as_slice(), found.results.as_slice()))
        }
    }
}

// The types of an instruction with a body. None if they are not there.
fn block_types<'a>(of: &'a Module, instr: &Instr) -> Option<BlockTypes<'a>> {
    let (kind, is_loop, has_condition) = match instr {
        Instr::Simple(_) => return None,
        Instr::Block(kind, _) => (*kind, false, false),
        Instr::Loop(kind, _) => (*kind, true, false),
        Instr::If(kind, _) => (*kind, false, true),
    };
    let (params, results) = types_of(of, kind)?;
    let label = if is_loop { params } else { results };
    Some(BlockTypes {
        params,
        results,
        label,
        has_condition,
    })
}

// Whether the newest operands can be of these types.
fn can_be(operands: KnownOperands<'_>, types: &[ValType]) -> bool {
    let known = last_of(operands.types, types.len());
    let wanted = last_of(types, known.len());
    for (found, wanted) in known.iter().zip(wanted.iter()) {
        if found.unwrap_or(*wanted) != *wanted {
            return false;
        }
    }
    known.len() == types.len() || operands.unreachable
}

fn finds(operands: KnownOperands<'_>, block: BlockTypes<'_>) -> bool {
    let types = match (block.has_condition, operands.types.split_last()) {
        (true, Some((Some(ValType::I64), _))) => return false,
        (true, Some((_, below))) => below,
        (true, None) if !operands.unreachable => return false,
        _ => operands.types,
    };
    can_be(KnownOperands { types, ..operands }, block.params)
}

/// The labels inside a block, the outermost first.
type Labels<'a> = Vec<&'a [ValType]>;

// The labels inside a block of a function, outside of which so much is known. None if one takes very many
// types, with which the check of its body may take long.
fn labels_in<'a>(
    of: Function<'a>,
    types: &Types<'a>,
    block: BlockTypes<'a>,
) -> Result<Option<Labels<'a>>, AllocError> {
    let mut labels = Vec::new(of.alloc);
    for outer in (0..types.open_blocks()).rev() {
        let outer = u32::try_from(outer).unwrap_or(u32::MAX);
        if let Some(label) = types.label(outer) {
            labels.push(label)?;
        }
    }
    labels.push(block.label)?;
    for label in labels.as_slice() {
        if label.len() > MAX_RESULTS {
            return Ok(None);
        }
    }
    Ok(Some(labels))
}

/// The bodies of an instruction, each with what it is called.
pub fn bodies_of(instr: &Instr) -> [Option<(&'static str, &Body)>; 2] {
    match instr {
        Instr::Simple(_) => [None, None],
        Instr::Block(_, body) | Instr::Loop(_, body) => [Some(("body", body)), None],
        Instr::If(_, arms) => {
            let Arms { then_arm, else_arm } = &**arms;
            [Some(("then arm", then_arm)), Some(("else arm", else_arm))]
        }
    }
}

// Whether the operands at an end can be exactly these results.
fn are_results(operands: KnownOperands<'_>, results: &[ValType]) -> bool {
    operands.types.len() <= results.len() && can_be(operands, results)
}

fn why_ends<'a>(of: Function<'a>, types: &Types<'a>, block: BlockTypes<'a>, instr: &Instr) -> Told {
    let (alloc, module, results) = (of.alloc, of.of, block.results);
    let labels = labels_in(of, types, block)?;
    for arm in bodies_of(instr) {
        if let (Some((arm, body)), Some(labels)) = (arm, &labels) {
            let labels = labels.as_slice();
            match module.types_after(alloc, of.number, labels, block.params, body)? {
                Some(end) if !are_results(end.operands(), results) => {
                    let text = end_text(alloc, end.operands(), results)?;
                    return format!(in alloc; "at the end of its {arm} {text}");
                }
                _ => {}
            }
        }
    }
    let list = types_text(alloc, results, false)?;
    format!(in alloc; "its body, or an arm of it, ends with others than its results, {list}")
}

/// What is said of an instruction at fault that has a body, in a function, before which so much is known.
pub fn block_text<'a>(of: Function<'a>, types: &Types<'a>, instr: &Instr) -> Told {
    let (alloc, module) = (of.alloc, of.of.module());
    let Some(block) = block_types(module, instr) else {
        return count_text(alloc, "types", module.types.len());
    };
    match types.operands(0) {
        None => String::from_str(alloc, OTHERS),
        Some(operands) if finds(operands, block) => why_ends(of, types, block, instr),
        Some(_) => {
            let list = types_text(alloc, block.params, block.has_condition)?;
            let need = format!(in alloc; "it takes {list}")?;
            need_text(alloc, types, need.as_str())
        }
    }
}

/// What is said of the end of the body of a function.
pub fn body_end_text(of: Function<'_>) -> Told {
    let (module, results) = (of.of, results_of(of.of.module(), of.func));
    match module.types_after(of.alloc, of.number, &[results], &[], &of.func.body)? {
        Some(end) => end_text(of.alloc, end.operands(), results),
        None => String::from_str(of.alloc, "the operands are not its results"),
    }
}
