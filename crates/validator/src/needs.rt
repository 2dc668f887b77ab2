//! What an instruction without a body names, and what it does to operands (3.3.1 to 3.3.5).

ghost use Rattle.std.specs.Prelude.{◌≡◌, ◌≤◌, ◌&&◌, ◌^◌, ◌∷◌, [], List, MatchOption, IfOk, IfErr, IsOk, Some, None, true, false, nat_le, slice_get};
ghost use Rattle.wasm_ast.specs.declared.values.ValType.{ValType as ValTypeValue};
ghost use Rattle.wasm_ast.specs.Limits.{are_all};
ghost use Rattle.wasm_ast.specs.Types.{func_types};
ghost use Rattle.validator.specs.Inside.Needs.{Lacks, LacksLabel, LacksTable, LacksOther, LacksFunction, LacksIndirect, LacksLocal, LacksGlobal, LacksMemory, LacksAccess};
ghost use Rattle.validator.specs.Inside.Algorithm.{is_label, is_some_there, branch, branch_if, branch_table, call, call_indirect, local_op, global_op, check_global, check_simple};
ghost use Rattle.validator.specs.Inside.FunctionContext.{context_of, locals_of, func_type_of};
ghost use Rattle.validator.specs.Inside.Effects.{Does, Tells, AreTaken};

use crate::access::{
    is_aligned, load_bytes, load_type, source_of, store_bytes, store_type, target_of, type_of,
};
use crate::block_types::BlockTypes;
use crate::function::Function;
use crate::labels::Labels;
use crate::packed_module::PackedModule;
use crate::type_list::TypeList;
use wasm_ast::{Global, GlobalOp, LocalOp, Mutability, Simple, ValType};

/// What an instruction names that is not there, or not as it has to be.
#[derive(Clone, Copy, PartialEq, Eq, Debug)]
pub enum Lack {
    /// No open block has the label (3.3.5.6 to 3.3.5.8).
    Label,
    /// This label of a `br_table` takes other types than its last one (3.3.5.8).
    OtherTypes(u32),
    /// There is no such local (3.3.3.1).
    Local,
    /// There is no such global (3.3.3.4).
    Global,
    /// The global that a `global.set` names is a constant (3.3.3.5).
    Constant,
    /// There is no such function, or it has no type (3.3.5.10).
    Function,
    /// There is no such type (3.3.5.11).
    Type,
    /// The module has no table (3.3.5.11).
    Table,
    /// The module has no memory (3.3.4).
    Memory,
    /// The alignment of an access is over its width (3.3.4).
    Alignment,
}

/// Which operands an instruction takes.
#[derive(Clone, Copy)]
pub enum Taken<'a> {
    /// Operands of these types, in written order, and an i32 above them if `then_i32`.
    Types {
        types: &'a [ValType],
        then_i32: bool,
    },
    /// One of any type.
    Any,
    /// Two of one type, whichever it is, and an i32 above them.
    Two,
}

/// What an instruction does to operands. Lists of types are in written order.
#[derive(Drop)]
pub enum Needs<'a> {
    Nothing,
    /// It puts on one of this type.
    Gives(ValType),
    /// It takes one of this type.
    Takes(ValType),
    /// One of the first type becomes one of the second.
    Converts(ValType, ValType),
    /// Two of the first type become one of the second.
    Combines(ValType, ValType),
    /// It takes two, the second type on top.
    TakesTwo(ValType, ValType),
    /// Those of the parameters become those of the results.
    Replaces(BlockTypes<'a>),
    /// The same after an i32.
    ReplacesAfterI32(BlockTypes<'a>),
    /// It takes these, and what follows is not reached.
    Leaves(TypeList<'a>),
    /// The same after an i32.
    LeavesAfterI32(TypeList<'a>),
    /// It takes one, whatever its type.
    Drop,
    /// After an i32, two of one type become one (3.3.2.2).
    Select,
}

impl<'a> Needs<'a> {
    /// Which operands it takes.
    pub fn taken(&self) -> Taken<'a>
        ensures { Tells self.now result }
    {
        match self {
            Needs::Nothing => list(&[], false),
            Needs::Gives(_) => list(&[], false),
            Needs::Takes(val_type) => list(one(*val_type), false),
            Needs::Converts(val_type, _) => list(one(*val_type), false),
            Needs::Combines(val_type, _) => list(two(*val_type, *val_type), false),
            Needs::TakesTwo(below, top) => list(two(*below, *top), false),
            Needs::Replaces(types) => list(types.params.as_slice(), false),
            Needs::ReplacesAfterI32(types) => list(types.params.as_slice(), true),
            Needs::Leaves(types) => list(types.as_slice(), false),
            Needs::LeavesAfterI32(types) => list(types.as_slice(), true),
            Needs::Drop => Taken::Any,
            Needs::Select => Taken::Two,
        }
    }
}

// Operands of these types, and an i32 above them if `then_i32`.
fn list<'a>(types: &'a [ValType], then_i32: bool) -> Taken<'a>
    ensures { AreTaken types.now then_i32 result }
{
    Taken::Types { types, then_i32 }
}

// One type.
fn one(val_type: ValType) -> &'static [ValType]
    ensures { result.now ≡ val_type ∷ [] }
{
    match val_type {
        ValType::I32 => &[ValType::I32],
        ValType::I64 => &[ValType::I64],
    }
}

// Two types.
fn two(below: ValType, top: ValType) -> &'static [ValType]
    ensures { result.now ≡ below ∷ top ∷ [] }
{
    match (below, top) {
        (ValType::I32, ValType::I32) => &[ValType::I32, ValType::I32],
        (ValType::I32, ValType::I64) => &[ValType::I32, ValType::I64],
        (ValType::I64, ValType::I32) => &[ValType::I64, ValType::I32],
        (ValType::I64, ValType::I64) => &[ValType::I64, ValType::I64],
    }
}

/// What an instruction without a body does to operands, in a function and inside these labels, or what it
/// names that is not there.
pub fn needs_of<'a>(
    function: &Function<'a>,
    labels: &mut Labels<'a>,
    simple: &Simple,
) -> Result<Needs<'a>, Lack>
    ensures ok { IfOk result
        (λ n. Does n (check_simple (context_of function.now labels.old) simple.now)) }
    ensures lacks { IfErr result (Lacks (context_of function.now labels.old) simple.now) }
    ensures labels { labels.new ≡ labels.old }
{
    match simple {
        Simple::Unreachable => Ok(Needs::Leaves(TypeList::plain(&[]))),
        Simple::Nop => Ok(Needs::Nothing),
        Simple::Br(label) => of_branch(labels, *label),
        Simple::BrIf(label) => of_branch_if(labels, *label),
        Simple::BrTable(other, list) => of_branch_table(labels, list.as_slice(), *other),
        Simple::Return => Ok(Needs::Leaves(TypeList::plain(function.func_type.results.as_slice()))),
        Simple::Call(func) => of_call(function.of, *func),
        Simple::CallIndirect(index) => of_call_indirect(function, *index),
        Simple::Drop => Ok(Needs::Drop),
        Simple::Select => Ok(Needs::Select),
        Simple::Local(op, index) => of_local(function, *op, *index),
        Simple::Global(op, index) => of_global(function, *op, *index),
        Simple::Load(op, at) => {
            let needs = Needs::Converts(ValType::I32, load_type(*op));
            with_access(function, at.align, load_bytes(*op), needs)
        }
        Simple::Store(op, at) => {
            let needs = Needs::TakesTwo(ValType::I32, store_type(*op));
            with_access(function, at.align, store_bytes(*op), needs)
        }
        Simple::MemorySize => with_memory(function, Needs::Gives(ValType::I32)),
        Simple::MemoryGrow => with_memory(function, Needs::Converts(ValType::I32, ValType::I32)),
        Simple::Const(constant) => Ok(Needs::Gives(type_of(constant.value()))),
        Simple::Unary(val_type, _) => Ok(Needs::Converts(*val_type, *val_type)),
        Simple::Binary(val_type, _) => Ok(Needs::Combines(*val_type, *val_type)),
        Simple::Test(val_type, _) => Ok(Needs::Converts(*val_type, ValType::I32)),
        Simple::Compare(val_type, _) => Ok(Needs::Combines(*val_type, ValType::I32)),
        Simple::Convert(op) => Ok(Needs::Converts(source_of(*op), target_of(*op))),
    }
}

fn of_branch<'a>(labels: &Labels<'a>, label: u32) -> Result<Needs<'a>, Lack>
    ensures ok { IfOk result (λ n. Does n (branch labels.now label)) }
    ensures lacks { IfErr result (LacksLabel labels.now label) }
{
    let Some(types) = labels.get(label) else {
        return Err(Lack::Label);
    };
    Ok(Needs::Leaves(types))
}

fn of_branch_if<'a>(labels: &Labels<'a>, label: u32) -> Result<Needs<'a>, Lack>
    ensures ok { IfOk result (λ n. Does n (branch_if labels.now label)) }
    ensures lacks { IfErr result (LacksLabel labels.now label) }
{
    let Some(types) = labels.get(label) else {
        return Err(Lack::Label);
    };
    Ok(Needs::ReplacesAfterI32(BlockTypes {
        params: types.copy(),
        results: types,
    }))
}

fn of_branch_table<'a>(labels: &mut Labels<'a>, list: &[u32], other: u32) -> Result<Needs<'a>, Lack>
    ensures ok { IfOk result (λ n. Does n (branch_table labels.old list.now other)) }
    ensures lacks { IfErr result (LacksTable labels.old list.now other) }
    ensures labels { labels.new ≡ labels.old }
{
    let Some(types) = labels.get(other) else {
        return Err(Lack::Label);
    };
    match first_other(labels, list, other) {
        None => Ok(Needs::LeavesAfterI32(types)),
        Some(label) => Err(lack_of_other(labels, label)),
    }
}

// Why a label does not take certain types.
fn lack_of_other(labels: &Labels<'_>, label: u32) -> Lack
    ensures { LacksOther labels.now label result }
{
    match labels.get(label) {
        None => Lack::Label,
        Some(_) => Lack::OtherTypes(label),
    }
}

// The first of these labels that does not take the types that this one takes. A label that is there again
// right after itself is not looked at again.
fn first_other(labels: &mut Labels<'_>, list: &[u32], takes_them: u32) -> Option<u32>
    ensures first { (types : List ValTypeValue) → slice_get labels.old takes_them ≡ Some types
        → MatchOption result
        (are_all (is_label labels.old types) list.now ≡ true)
        (λ label. (are_all (is_label labels.old types) list.now ≡ false)
        × (is_label labels.old types label ≡ false)) }
    ensures labels { labels.new ≡ labels.old }
{
    let mut last = takes_them;
    for label in list {
        if *label != last && !labels.take_same(*label, takes_them) {
            return Some(*label);
        }
        last = *label;
    }
    None
}

fn of_call<'a>(of: &'a PackedModule, func: u32) -> Result<Needs<'a>, Lack>
    ensures ok { IfOk result (λ n. Does n (call (func_types of.now) func)) }
    ensures lacks { IfErr result (LacksFunction (func_types of.now) func) }
{
    let Some(types) = of.type_of(func) else {
        return Err(Lack::Function);
    };
    Ok(Needs::Replaces(types))
}

fn of_call_indirect<'a>(function: &Function<'a>, index: u32) -> Result<Needs<'a>, Lack>
    ensures ok { IfOk result (λ n. let of = function.now.of.now in
        Does n (call_indirect of.types of.tables index)) }
    ensures lacks { let of = function.now.of.now in
        IfErr result (LacksIndirect of.types of.tables index) }
{
    if function.of.module().tables.len() == 0 {
        return Err(Lack::Table);
    }
    let Some(types) = function.of.type_with(index) else {
        return Err(Lack::Type);
    };
    Ok(Needs::ReplacesAfterI32(types))
}

fn of_local<'a>(function: &Function<'a>, op: LocalOp, index: u32) -> Result<Needs<'a>, Lack>
    ensures ok { IfOk result (λ n. Does n (local_op (locals_of function.now) op index)) }
    ensures lacks { IfErr result (LacksLocal (locals_of function.now) index) }
{
    let Some(val_type) = function.local_type(index) else {
        return Err(Lack::Local);
    };
    match op {
        LocalOp::Get => Ok(Needs::Gives(val_type)),
        LocalOp::Set => Ok(Needs::Takes(val_type)),
        LocalOp::Tee => Ok(Needs::Converts(val_type, val_type)),
    }
}

fn of_global<'a>(function: &Function<'a>, op: GlobalOp, index: u32) -> Result<Needs<'a>, Lack>
    ensures ok { IfOk result (λ n. Does n (global_op function.now.of.now.globals op index)) }
    ensures lacks { IfErr result
        (LacksGlobal op (slice_get function.now.of.now.globals index)) }
{
    let Some(global) = function.global(index) else {
        return Err(Lack::Global);
    };
    of_this_global(global, op)
}

fn of_this_global<'a>(global: &Global, op: GlobalOp) -> Result<Needs<'a>, Lack>
    ensures ok { IfOk result (λ n. Does n (check_global op global.now)) }
    ensures lacks { IfErr result (LacksGlobal op (Some global.now)) }
{
    match (op, global.mutability) {
        (GlobalOp::Get, _) => Ok(Needs::Gives(global.val_type)),
        (GlobalOp::Set, Mutability::Var) => Ok(Needs::Takes(global.val_type)),
        (GlobalOp::Set, Mutability::Const) => Err(Lack::Constant),
    }
}

// What needs a memory too.
fn with_memory<'a>(function: &Function<'a>, needs: Needs<'a>) -> Result<Needs<'a>, Lack>
    ensures ok { IfOk result (λ n. n ≡ needs.entry) }
    ensures there { IsOk result → is_some_there function.now.of.now.memories ≡ true }
    ensures lacks { IfErr result (LacksMemory function.now.of.now.memories) }
{
    if function.of.module().memories.len() == 0 {
        return Err(Lack::Memory);
    }
    Ok(needs)
}

// What accesses a memory, this many bytes aligned like this.
fn with_access<'a>(
    function: &Function<'a>,
    align: u32,
    bytes: u32,
    needs: Needs<'a>,
) -> Result<Needs<'a>, Lack>
    requires { bytes ≤ 8 }
    ensures ok { IfOk result (λ n. n ≡ needs.entry) }
    ensures there { IsOk result
        → (is_some_there function.now.of.now.memories && nat_le (2 ^ align) bytes) ≡ true }
    ensures lacks { IfErr result (LacksAccess function.now.of.now.memories align bytes) }
{
    if function.of.module().memories.len() == 0 {
        return Err(Lack::Memory);
    }
    if !is_aligned(align, bytes) {
        return Err(Lack::Alignment);
    }
    Ok(needs)
}
