//! Operands in groups that were put on the stack together (appendix A.3). A group is taken or compared at
//! once, so a function type with very many parameters costs no more than a comparison of them.

ghost use Rattle.std.specs.Prelude.{◌≡◌, ◌∷◌, ◌++◌, ◌<◌, ◌≤◌, [], Bool, List, Option, None, IfSome, MatchOption, OnOk, length, reverse, take};
ghost use Rattle.wasm_ast.specs.declared.values.ValType.{ValType};
ghost use Rattle.validator.specs.Inside.Algorithm.{knowns, pops};
ghost use Rattle.validator.specs.Inside.Blocks.{group_types, LastLeaves};

use crate::comparisons::can_be;
use crate::type_list::TypeList;
use std::alloc::AllocError;
use wasm_ast::ValType;

/// Operands that were put on together, at least one.
#[derive(Drop)]
pub struct Group<'a> {
    /// The type of the newest of them, None if it is not known.
    pub newest: Option<ValType>,
    /// Those of the others, which are below it, in written order.
    pub below: TypeList<'a>,
}

/// What remains when operands were taken from a group.
#[derive(Drop)]
pub struct Remains<'a> {
    /// How many of the types that are wanted are still to be taken.
    pub wanted: usize,
    /// The types of the group's operands that are left, in written order.
    pub left: TypeList<'a>,
}

impl<'a> Group<'a> {
    /// A group of one operand.
    pub fn one(operand: Option<ValType>) -> Group<'a>
        ensures { group_types result ≡ operand ∷ [] }
    {
        Group {
            newest: operand,
            below: TypeList::plain(&[]),
        }
    }

    /// Operands of these types, which are in written order. None if there are none.
    pub fn known(types: &TypeList<'a>) -> Option<Group<'a>>
        ensures { MatchOption result
            (types.now ≡ [])
            (λ group. group_types group ≡ knowns (reverse types.now)) }
    {
        let (newest, below) = types.split_last()?;
        Some(Group {
            newest: Some(newest),
            below,
        })
    }

    /// Takes operands of these types, which are in written order, as far as there are some. None if one
    /// cannot be of its type.
    pub fn take(&self, types: &TypeList<'_>) -> Option<Remains<'a>>
        requires { 0 < length types.now }
        ensures some { IfSome result (λ r. (unreachable : Bool) (others : List (Option ValType))
            → pops unreachable (reverse types.now) (group_types self.now ++ others)
            ≡ pops unreachable (reverse (take r.wanted types.now))
            (knowns (reverse r.left) ++ others)) }
        ensures fewer { IfSome result (λ r. r.wanted < length types.now) }
        ensures none { result ≡ None → (unreachable : Bool) (others : List (Option ValType))
            → pops unreachable (reverse types.now) (group_types self.now ++ others) ≡ None }
    {
        let (newest, before) = types.split_last()?;
        if can_be(newest, self.newest) {
            take_known(&self.below, &before)
        } else {
            None
        }
    }

    /// Puts the operands on top of others, one by one, the newest last.
    pub fn spread(&self, types: &mut Vec<Option<ValType>>) -> Result<(), AllocError>
        ensures { OnOk result
            (reverse types.new.items ≡ group_types self.now ++ reverse types.old.items) }
    {
        for val_type in self.below.as_slice() {
            types.push(Some(*val_type))?;
        }
        types.push(self.newest)?;
        Ok(())
    }
}

// Takes operands of these types from operands of known ones, as far as there are some. None if one is of
// another type.
fn take_known<'a>(known: &TypeList<'a>, types: &TypeList<'_>) -> Option<Remains<'a>>
    ensures some { IfSome result (λ r. (unreachable : Bool) (others : List (Option ValType))
        → pops unreachable (reverse types.now) (knowns (reverse known.now) ++ others)
        ≡ pops unreachable (reverse (take r.wanted types.now))
        (knowns (reverse r.left) ++ others)) }
    ensures within { IfSome result (λ r. r.wanted ≤ length types.now) }
    ensures none { result ≡ None → (unreachable : Bool) (others : List (Option ValType))
        → pops unreachable (reverse types.now) (knowns (reverse known.now) ++ others) ≡ None }
{
    let count = known.len().min(types.len());
    let wanted = types.len() - count;
    let left = known.len() - count;
    if types.is_same_from(wanted, known, left) {
        Some(Remains {
            wanted,
            left: known.first(left),
        })
    } else {
        None
    }
}

/// Leaves operands of these types, which are in written order, in place of the last group.
pub fn leave_of_last<'a>(groups: &mut Vec<Group<'a>>, left: &TypeList<'a>)
    requires { 0 < length groups.old.items }
    ensures { LastLeaves left.now groups.old.items groups.new.items }
{
    let last = groups.len() - 1;
    match Group::known(left) {
        Some(group) => groups[last] = group,
        None => groups.truncate(last),
    }
}
