//! Words moved within a block.

ghost use Rattle.std.specs.Prelude.{◌≡◌, ◌<◌, ◌≤◌, ◌+◌};
ghost use Rattle.std.specs.Mem.Slots.{slots_items, slots_len, SamePlaces};
ghost use Rattle.operand_stack.specs.Inside.Blocks.{HasUpTo};
ghost use Rattle.operand_stack.specs.Inside.Contents.{below, joined};

use core::slots::Slots;
use raw_block::{forget, no_places};
use std::mem;

/// Moves the words after the place `from` down to the places after `to`, `count` of them, at once: they may
/// overlap. The block goes there and back by value, so that no call takes the address of the caller's data.
#[inline(always)]
pub fn move_down(words: &mut Slots<u64>, from: usize, to: usize, count: usize)
    requires down { to ≤ from }
    requires written { HasUpTo words.old (from + count + 1) }
    ensures moved { below (slots_items words.new) (to + count)
        ≡ joined (slots_items words.old) to from count }
    ensures written { HasUpTo words.new (to + count + 1) }
    ensures places { SamePlaces words.old words.new }
{
    let whole = mem::replace(words, no_places(&0u64));
    let none = mem::replace(words, moved_down(whole, from, to, count));
    forget(none);
}

#[inline(never)]
fn moved_down(words: Slots<u64>, from: usize, to: usize, count: usize) -> Slots<u64>
    requires down { to ≤ from }
    requires written { HasUpTo words (from + count + 1) }
    ensures moved { below (slots_items result) (to + count)
        ≡ joined (slots_items words) to from count }
    ensures written { HasUpTo result (to + count + 1) }
    ensures places { SamePlaces words result }
{
    let mut row = words;
    row.move_within(from + 1, to + 1, count);
    row
}
