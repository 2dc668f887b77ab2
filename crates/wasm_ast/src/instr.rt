//! Instructions (2.4).

ghost use Rattle.std.specs.Prelude.{◌≡◌, map, nat_le};
ghost use Rattle.wasm_ast.specs.Syntax.{ops_of};
ghost use Rattle.wasm_ast.specs.View.{op_of};
ghost use Rattle.wasm_ast.specs.Limits.{depth, ops_depth};
ghost use Rattle.wasm_ast.specs.Ranged.{RangedBlockType, RangedSimple, RangedMemArg, RangedOp, RangedOps};

use crate::constant::Constant;
use crate::operators::{BinaryOp, ConvertOp, LoadOp, RelationOp, StoreOp, TestOp, UnaryOp};
use crate::sequence::{Labels, indices_ranged};
use crate::values::ValType;
use std::boxed::Box;
use std::marker::Model;

/// The type of a block (2.4.5): from nothing to nothing, or to one value; or the function type with this
/// index (Core 2.0, 2.4.8). These are three forms, even where two of them mean the same.
#[derive(Clone, Copy, PartialEq, Eq, Debug)]
pub enum BlockType {
    Empty,
    One(ValType),
    Index(u32),
}

impl BlockType {
    /// Shows that its index, if it has one, is in range.
    pub fn ranged(&self)
        ensures { RangedBlockType self.now }
    {
        if let BlockType::Index(index) = self {
            let _in_range = *index;
        }
    }
}

/// What an instruction does with a local (2.4.3).
#[derive(Clone, Copy, PartialEq, Eq, Debug)]
pub enum LocalOp {
    Get,
    Set,
    Tee,
}

/// What an instruction does with a global (2.4.3).
#[derive(Clone, Copy, PartialEq, Eq, Debug)]
pub enum GlobalOp {
    Get,
    Set,
}

/// Where a load or a store accesses memory (2.4.4): the exponent of its alignment, which changes no
/// result, and the offset that is added to its address.
#[derive(Clone, Copy, PartialEq, Eq, Debug)]
pub struct MemArg {
    pub align: u32,
    pub offset: u32,
}

/// An instruction without a body (2.4.1 to 2.4.5).
#[derive(Drop)]
pub enum Simple {
    /// `unreachable`
    Unreachable,
    /// `nop`
    Nop,
    /// `br` to the label with this index, the innermost one being 0
    Br(u32),
    /// `br_if` to the label with this index
    BrIf(u32),
    /// `br_table` with the label for all other operands, and the labels that its operand counts. In this
    /// order they take no more memory than other instructions.
    BrTable(u32, Labels),
    /// `return`
    Return,
    /// `call` of the function with this index, imports counted first
    Call(u32),
    /// `call_indirect` through the table, of a function of the type with this index
    CallIndirect(u32),
    /// `drop`
    Drop,
    /// `select`
    Select,
    /// `local.get`, `local.set` and `local.tee` of the local with this index, parameters counted first
    Local(LocalOp, u32),
    /// `global.get` and `global.set` of the global with this index
    Global(GlobalOp, u32),
    /// a load from memory
    Load(LoadOp, MemArg),
    /// a store to memory
    Store(StoreOp, MemArg),
    /// `memory.size`
    MemorySize,
    /// `memory.grow`
    MemoryGrow,
    /// `i32.const` and `i64.const`
    Const(Constant),
    /// an operator on one operand of this type
    Unary(ValType, UnaryOp),
    /// an operator on two operands of this type
    Binary(ValType, BinaryOp),
    /// a test of one operand of this type
    Test(ValType, TestOp),
    /// a comparison of two operands of this type
    Compare(ValType, RelationOp),
    /// a conversion of an operand
    Convert(ConvertOp),
}

impl Simple {
    /// Shows that each number in the instruction is in the range of its type.
    pub fn ranged(&self)
        ensures { RangedSimple self.now }
    {
        match self {
            Simple::Const(constant) => constant.value().ranged(),
            Simple::Br(index)
            | Simple::BrIf(index)
            | Simple::Call(index)
            | Simple::CallIndirect(index)
            | Simple::Local(_, index)
            | Simple::Global(_, index) => {
                let _in_range = *index;
            }
            Simple::Load(_, at) | Simple::Store(_, at) => at.ranged(),
            Simple::BrTable(other, labels) => {
                let _in_range = *other;
                indices_ranged(labels.as_slice());
            }
            _ => {}
        }
    }
}

impl MemArg {
    /// Shows that both numbers are in the range of their type.
    pub fn ranged(&self)
        ensures { RangedMemArg self.now }
    {
        let _align = self.align;
        let _offset = self.offset;
    }
}

/// An instruction (2.4): a simple one, or one that has bodies.
#[cycle(instr)]
#[derive(Drop)]
pub enum Instr {
    Simple(Simple),
    /// `block`
    Block(BlockType, Box<Body>),
    /// `loop`
    Loop(BlockType, Box<Body>),
    /// `if` with both its arms; the second is empty where no `else` is written
    If(BlockType, Box<Arms>),
}

/// The arms of an `if`.
#[cycle(instr)]
#[derive(Drop)]
pub struct Arms {
    pub then_arm: Body,
    pub else_arm: Body,
}

impl Instr {
    /// Whether at most this number of blocks are open at once inside the instruction, its own included.
    /// Recursion is no deeper than the number.
    #[cycle(fits_depth)]
    pub fn fits_depth(&self, limit: usize) -> bool
        ensures { result ≡ nat_le (depth (op_of self.now)) limit }
    {
        match self {
            Instr::Simple(_) => true,
            Instr::Block(_, body) | Instr::Loop(_, body) => {
                limit > 0 && body.fits_depth(limit - 1)
            }
            Instr::If(_, arms) => {
                let Arms { then_arm, else_arm } = &**arms;
                limit > 0 && then_arm.fits_depth(limit - 1) && else_arm.fits_depth(limit - 1)
            }
        }
    }

    /// What `fits_depth` tells and what `ranged` shows, with each instruction read once: in a large
    /// body that is half of the time.
    #[cycle(fits_ranged)]
    pub fn fits_ranged(&self, limit: usize) -> bool
        ensures fits { result ≡ nat_le (depth (op_of self.now)) limit }
        ensures ranged { RangedOp (op_of self.now) }
    {
        match self {
            Instr::Simple(simple) => {
                simple.ranged();
                true
            }
            Instr::Block(block_type, body) | Instr::Loop(block_type, body) => {
                block_type.ranged();
                if limit == 0 {
                    body.ranged();
                    return false;
                }
                body.fits_ranged(limit - 1)
            }
            Instr::If(block_type, arms) => {
                let Arms { then_arm, else_arm } = &**arms;
                block_type.ranged();
                if limit == 0 {
                    then_arm.ranged();
                    else_arm.ranged();
                    return false;
                }
                let first = then_arm.fits_ranged(limit - 1);
                let second = else_arm.fits_ranged(limit - 1);
                first && second
            }
        }
    }

    /// Shows that each number in the instruction is in the range of its type.
    #[cycle(ranged)]
    pub fn ranged(&self)
        ensures { RangedOp (op_of self.now) }
    {
        match self {
            Instr::Simple(simple) => simple.ranged(),
            Instr::Block(block_type, body) | Instr::Loop(block_type, body) => {
                block_type.ranged();
                body.ranged();
            }
            Instr::If(block_type, arms) => {
                let Arms { then_arm, else_arm } = &**arms;
                block_type.ranged();
                then_arm.ranged();
                else_arm.ranged();
            }
        }
    }
}

// A module has many instructions, and each is read more than once. So an instruction has a pointer to what
// is inside it.
const _: () = prove!(std::mem::size_of::<Instr>() == 24);

/// A sequence of instructions (2.4.6). Contracts see the sequence of the abstract syntax.
#[cycle(instr)]
#[derive(Drop)]
pub struct Body {
    instrs: Vec<Instr>,
}

impl Model for Body {
    ghost use Rattle.wasm_ast.specs.Syntax.{Ops, ops_count, ops_of};
    ghost use Rattle.wasm_ast.specs.Inside.Code.{ops_code};

    ghost Value = { Ops };

    ghost coded = { ops_code };

    ghost use Rattle.std.specs.Prelude.{map};
    ghost use Rattle.wasm_ast.specs.View.{op_of};

    ghost view = { λ b. ops_of (map op_of b.instrs.items) };

    ghost size = { ops_count };

    ghost use Rattle.std.proofs.Common.{arith};
    ghost use Rattle.wasm_ast.specs.Inside.Falls.{most_le_count};

    ghost size_decreases = { λ a h. omega (arith, most_le_count a.instrs.items) };
}

impl Body {
    /// The sequence of these instructions. No memory is taken.
    pub fn new(instrs: Vec<Instr>) -> Body
        ensures { result ≡ ops_of (map op_of instrs.items) }
    {
        Body { instrs }
    }

    /// The instructions in order.
    pub fn as_slice(&self) -> &[Instr]
        ensures { ops_of (map op_of result.now) ≡ self.now }
    {
        self.instrs.as_slice()
    }

    /// Gives the instructions back. No memory is taken.
    pub fn into_vec(self) -> Vec<Instr>
        ensures { ops_of (map op_of result.items) ≡ self }
    {
        let Body { instrs } = self;
        instrs
    }

    /// Whether at most this number of blocks are open at once in the sequence. Recursion is no deeper
    /// than the number.
    #[cycle(fits_depth)]
    pub fn fits_depth(&self, limit: usize) -> bool
        ensures { result ≡ nat_le (ops_depth self.now) limit }
    {
        for instr in self.instrs.as_slice() {
            if !instr.fits_depth(limit) {
                return false;
            }
        }
        true
    }

    /// What `fits_depth` tells and what `ranged` shows, with each instruction read once.
    #[cycle(fits_ranged)]
    pub fn fits_ranged(&self, limit: usize) -> bool
        ensures fits { result ≡ nat_le (ops_depth self.now) limit }
        ensures ranged { RangedOps self.now }
    {
        let mut fits = true;
        for instr in self.instrs.as_slice() {
            fits &= instr.fits_ranged(limit);
        }
        fits
    }

    /// Shows that each number in the sequence is in the range of its type.
    #[cycle(ranged)]
    pub fn ranged(&self)
        ensures { RangedOps self.now }
    {
        for instr in self.instrs.as_slice() {
            instr.ranged();
        }
    }
}
