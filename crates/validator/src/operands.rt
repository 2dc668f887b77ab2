//! The types of the operands that are known while a body is checked (appendix A.3).

ghost use Rattle.std.specs.Prelude.{◌≡◌, ◌∷◌, ◌++◌, ◌≤◌, ◌<◌, [], IfOk, IfSome, IsTrue, OnOk, length, reverse, take, false, None, Some};
ghost use Rattle.wasm_ast.specs.declared.values.ValType.{ValType};
ghost use Rattle.validator.specs.Inside.Algorithm.{pop_any, pop, pops, knowns, nowhere, is_empty, ends, start};
ghost use Rattle.validator.specs.Inside.Blocks.{Blocks, group_types, with_operands, Takes, KeepsRest, IsOuter};

use crate::comparisons::can_be;
use crate::groups::{Group, leave_of_last};
use crate::type_list::TypeList;
use std::alloc::{AllocError, Global};
use std::marker::Model;
use wasm_ast::ValType;

/// The operands of all blocks that are open, in groups, the newest last. Contracts see those of the
/// innermost block as a stack.
#[derive(Drop)]
pub struct Operands<'a> {
    groups: Vec<Group<'a>>,
    /// How many of the groups are of the blocks outside the innermost one.
    base: usize,
    /// Whether the point that is checked is unreachable.
    unreachable: bool,
}

impl<'a> Model for Operands<'a> {
    ghost use Rattle.validator.specs.Inside.Blocks.{Blocks, group_types, types_of};

    ghost Value = { Blocks };

    ghost use Rattle.std.specs.Prelude.{◌≤◌, take, drop, map, length};

    ghost view = { λ o. record {
      outside = map group_types (take o.base o.groups.items);
      stack = record { unreachable = o.unreachable; types = types_of (drop o.base o.groups.items) };
    } };

    ghost invariant = { λ o. o.base ≤ length o.groups.items };
}

impl<'a> Operands<'a> {
    /// No operands. No memory is taken.
    pub fn new(alloc: Global) -> Operands<'a>
        ensures { result
            ≡ record { outside = []; stack = record { unreachable = false; types = [] } } }
    {
        Operands {
            groups: Vec::new(alloc),
            base: 0,
            unreachable: false,
        }
    }

    /// Puts an operand on top.
    pub fn push(&mut self, operand: Option<ValType>) -> Result<(), AllocError>
        ensures { OnOk result (self.new ≡ with_operands self.old (operand ∷ self.old.stack.types)) }
    {
        self.push_group(Group::one(operand))
    }

    /// Puts operands of these types on top, which are in written order.
    pub fn push_all(&mut self, types: &TypeList<'a>) -> Result<(), AllocError>
        ensures { OnOk result (self.new
            ≡ with_operands self.old (knowns (reverse types.now) ++ self.old.stack.types)) }
    {
        match Group::known(types) {
            Some(group) => self.push_group(group),
            None => Ok(()),
        }
    }

    // Puts the operands of a group on top.
    fn push_group(&mut self, group: Group<'a>) -> Result<(), AllocError>
        ensures { OnOk result (self.new
            ≡ with_operands self.old (group_types group.entry ++ self.old.stack.types)) }
    {
        self.groups.push(group)?;
        Ok(())
    }

    /// Takes the newest operand, whatever its type. At an unreachable point there is always one.
    pub fn pop_any(&mut self) -> Option<Option<ValType>>
        ensures some { IfSome result (λ operand. let old = self.old.stack in
            pop_any old.unreachable old.types ≡ Some (operand, self.new.stack.types)) }
        ensures none { result ≡ None → let old = self.old.stack in
            pop_any old.unreachable old.types ≡ None }
        ensures rest { KeepsRest self.old self.new }
    {
        let height = self.groups.len();
        if height > self.base {
            let group = &self.groups[height - 1];
            let newest = group.newest;
            let below = group.below.copy();
            leave_of_last(&mut self.groups, &below);
            Some(newest)
        } else if self.unreachable {
            Some(None)
        } else {
            None
        }
    }
}

impl<'a> Operands<'a> {
    /// Takes the newest operand if it can be of this type.
    pub fn pop(&mut self, expected: ValType) -> bool
        ensures takes { Takes result (λ unreachable. pop unreachable expected) self.old self.new }
        ensures rest { KeepsRest self.old self.new }
    {
        match self.pop_any() {
            Some(operand) => can_be(expected, operand),
            None => false,
        }
    }

    /// Takes operands of these types, which are in written order.
    pub fn pop_all(&mut self, types: &TypeList<'_>) -> bool
        ensures takes { Takes result (λ unreachable. pops unreachable (reverse types.now))
            self.old self.new }
        ensures rest { KeepsRest self.old self.new }
    {
        let mut left = types.len();
        while left > 0 {
            let Some(others) = self.pop_group(&types.first(left)) else {
                return false;
            };
            left = others;
        }
        true
    }

    // Takes operands of these types, as far as there are some in the newest group. Gives how many of
    // the types are still to be taken, or None if an operand cannot be of its type. At an unreachable
    // point where none is known, all are taken.
    fn pop_group(&mut self, types: &TypeList<'_>) -> Option<usize>
        requires { 0 < length types.now }
        ensures some { IfSome result (λ left. let old = self.old.stack in
            pops old.unreachable (reverse types.now) old.types
            ≡ pops old.unreachable (reverse (take left types.now)) self.new.stack.types) }
        ensures fewer { IfSome result (λ left. left < length types.now) }
        ensures none { result ≡ None → let old = self.old.stack in
            pops old.unreachable (reverse types.now) old.types ≡ None }
        ensures rest { KeepsRest self.old self.new }
    {
        let count = self.groups.len();
        if count == self.base {
            return self.unreachable.then_some(0);
        }
        let remains = self.groups[count - 1].take(types)?;
        leave_of_last(&mut self.groups, &remains.left);
        Some(remains.wanted)
    }

    /// Removes the operands of the block: the instructions that follow in it are not reached.
    pub fn stop(&mut self)
        ensures { self.new ≡ record { outside = self.old.outside; stack = nowhere } }
    {
        self.groups.truncate(self.base);
        self.unreachable = true;
    }

    /// Whether a body that ends here has exactly these results, which are taken.
    pub fn end(&mut self, results: &TypeList<'_>) -> bool
        ensures ends { result ≡ ends results.now (Some self.old.stack) }
        ensures none { IsTrue result → self.new.stack.types ≡ [] }
        ensures rest { KeepsRest self.old self.new }
    {
        self.pop_all(results) && self.is_empty()
    }

    /// Whether no operand of the innermost block is known.
    fn is_empty(&self) -> bool
        ensures { result ≡ is_empty (Some self.now.stack.types) }
    {
        self.groups.len() == self.base
    }

    /// The operands of the innermost block one by one, the newest last.
    pub fn spread(&self, alloc: Global) -> Result<Vec<Option<ValType>>, AllocError>
        ensures { IfOk result (λ types. reverse types.items ≡ self.now.stack.types) }
    {
        let mut types = Vec::new(alloc);
        for group in &self.groups[self.base..] {
            group.spread(&mut types)?;
        }
        Ok(types)
    }

    /// Whether the point that is checked is unreachable.
    pub fn is_unreachable(&self) -> bool
        ensures { result ≡ self.now.stack.unreachable }
    {
        self.unreachable
    }

    /// Begins a block, without operands. What is returned goes to `leave`.
    pub fn enter(&mut self) -> Outer
        ensures outer { IsOuter result self.old self.new.outside }
        ensures within { result.base ≤ length self.new.outside }
        ensures new { self.new.stack ≡ start [] }
    {
        let outer = Outer {
            base: self.base,
            unreachable: self.unreachable,
        };
        self.base = self.groups.len();
        self.unreachable = false;
        outer
    }

    /// Ends a block that has no operands left: the block outside it is as it was.
    pub fn leave(&mut self, outer: Outer)
        requires within { outer.base ≤ length self.old.outside }
        requires none { self.old.stack.types ≡ [] }
        ensures { (o : Blocks) → IsOuter outer o self.old.outside → self.new ≡ o }
    {
        self.base = outer.base;
        self.unreachable = outer.unreachable;
    }
}

/// What is kept of the block outside while a block is checked.
#[derive(Clone, Copy)]
pub struct Outer {
    pub base: usize,
    pub unreachable: bool,
}
