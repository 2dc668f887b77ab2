//! What is known of operands and labels before an instruction.

ghost use Rattle.std.specs.Prelude.{◌≡◌, ◌∷◌, [], OnOk, IfOk, IfErr, MatchOption, None, Some, option_copied, slice_get, length, reverse, false};
ghost use Rattle.validator.specs.PlaceTypes.{Stack, Known};
ghost use Rattle.validator.specs.Inside.Needs.{Lacks};
ghost use Rattle.validator.specs.Inside.Algorithm.{check_simple};
ghost use Rattle.validator.specs.Inside.Effects.{Does};
ghost use Rattle.validator.specs.Inside.FunctionContext.{context_of};

use crate::function::Function;
use crate::labels::Labels;
use crate::needs::{Lack, Needs, needs_of};
use crate::operands::Operands;
use std::alloc::{AllocError, Global};
use std::marker::Model;
use wasm_ast::{Simple, ValType};

/// The operands of a block that is open.
#[derive(Drop)]
struct OpenBlock {
    /// Their types, the newest last.
    types: Vec<Option<ValType>>,
    unreachable: bool,
}

/// The operands of each block that is open. Contracts see the innermost block's first.
#[derive(Drop)]
pub struct Stacks {
    alloc: Global,
    blocks: Vec<OpenBlock>,
}

impl Model for Stacks {
    ghost use Rattle.std.specs.Prelude.{List};
    ghost use Rattle.validator.specs.PlaceTypes.{Stack};

    ghost Value = { List Stack };

    ghost use Rattle.std.specs.Prelude.{map, reverse};

    ghost view = { λ s. reverse (map
        (λ b. record { unreachable = b.unreachable; types = reverse b.types.items }) s.blocks.items) };
}

impl Stacks {
    /// Of no block. No memory is taken.
    pub fn new(alloc: Global) -> Stacks
        ensures { result ≡ [] }
    {
        Stacks {
            alloc,
            blocks: Vec::new(alloc),
        }
    }

    /// The operands of a block that has none yet. No memory is taken.
    pub fn begin<'a>(&self) -> Operands<'a>
        ensures { result
            ≡ record { outside = []; stack = record { unreachable = false; types = [] } } }
    {
        Operands::new(self.alloc)
    }

    /// Adds the operands of a block inside all others.
    pub fn push(&mut self, operands: &Operands<'_>) -> Result<(), AllocError>
        ensures { OnOk result (self.new ≡ operands.now.stack ∷ self.old) }
    {
        let block = OpenBlock {
            types: operands.spread(self.alloc)?,
            unreachable: operands.is_unreachable(),
        };
        self.blocks.push(block)?;
        Ok(())
    }

    /// The operands of the block with this index, the innermost one being 0.
    pub fn get(&self, block: u32) -> Option<KnownOperands<'_>>
        ensures { MatchOption result
            (slice_get self.now block ≡ None)
            (λ o. slice_get self.now block
            ≡ Some (record { unreachable = o.unreachable; types = reverse o.types.now })) }
    {
        let count = self.blocks.len();
        let index = block as usize;
        if index < count {
            let found = &self.blocks[count - 1 - index];
            Some(KnownOperands {
                types: found.types.as_slice(),
                unreachable: found.unreachable,
            })
        } else {
            None
        }
    }
}

/// What is known of the operands of a block.
#[derive(Clone, Copy)]
pub struct KnownOperands<'a> {
    /// Their types, the newest last, and None for one that may be of any type.
    pub types: &'a [Option<ValType>],
    /// Whether the point cannot be reached: then operands of any types may be below.
    pub unreachable: bool,
}

/// What is known of operands and labels before an instruction: of each block that is open, the types
/// that a branch to its label takes, and its operands. Those that it finds below its parameters are
/// of the block outside. Blocks are counted from the innermost, which is 0, to the function's body.
#[derive(Drop)]
pub struct Types<'a> {
    labels: Labels<'a>,
    stacks: Stacks,
}

impl<'a> Model for Types<'a> {
    ghost use Rattle.validator.specs.PlaceTypes.{Known};

    ghost Value = { Known };

    ghost view = { λ t. record { labels = t.labels; stacks = t.stacks } };
}

impl<'a> Types<'a> {
    /// What is known with these labels and operands. No memory is taken.
    pub fn new(labels: Labels<'a>, stacks: Stacks) -> Types<'a>
        ensures { result ≡ record { labels = labels.entry; stacks = stacks } }
    {
        Types { labels, stacks }
    }

    /// Nothing: no block is open. No memory is taken.
    pub fn none(alloc: Global) -> Types<'a>
        ensures { result ≡ record { labels = []; stacks = [] } }
    {
        Types::new(Labels::new(alloc), Stacks::new(alloc))
    }

    /// How many blocks are open, the function's body included.
    pub fn open_blocks(&self) -> usize
        ensures { result ≡ length self.now.labels }
    {
        self.labels.len()
    }

    /// The types that a branch to the label of this block takes, in written order.
    pub fn label(&self, block: u32) -> Option<&'a [ValType]>
        ensures { option_copied result ≡ slice_get self.now.labels block }
    {
        match self.labels.get(block) {
            Some(types) => Some(types.as_slice()),
            None => None,
        }
    }

    /// What is known of the operands of this block.
    pub fn operands(&self, block: u32) -> Option<KnownOperands<'_>>
        ensures { MatchOption result
            (slice_get self.now.stacks block ≡ None)
            (λ o. slice_get self.now.stacks block
            ≡ Some (record { unreachable = o.unreachable; types = reverse o.types.now })) }
    {
        self.stacks.get(block)
    }
}

/// What an instruction without a body does to operands in a function, inside the labels that are known, or
/// what it names that is not there.
pub fn needs_inside<'a>(
    function: &Function<'a>,
    known: &mut Types<'a>,
    simple: &Simple,
) -> Result<Needs<'a>, Lack>
    ensures ok { IfOk result
        (λ n. Does n (check_simple (context_of function.now known.old.labels) simple.now)) }
    ensures lacks { IfErr result (Lacks (context_of function.now known.old.labels) simple.now) }
    ensures known { known.new ≡ known.old }
{
    needs_of(function, &mut known.labels, simple)
}
