//! Zeros that are written late.

ghost use Rattle.std.specs.Prelude.{◌≡◌, ◌≤◌, ◌<◌, ◌+◌, ◌-◌, ◌⊎◌, ◌++◌, replicate, take};
ghost use Rattle.std.specs.Mem.Slots.{slots_items, slots_len, SamePlaces};
ghost use Rattle.linear_memory.specs.Inside.Fronts.{HasFront};

use core::slots::Slots;
use raw_block::{forget, no_places};
use std::mem;

/// Zeros are written up to the end of a block of this number of bytes. A page is whole blocks.
const BLOCK_BYTES: usize = 4_096;

/// Writes zeros after the first `front` bytes of a row until `end` of them are written, and up to the end
/// of that block, but at most to `size`. Nothing is written if there are enough. Gives how many are
/// written then. No memory is taken.
pub(crate) fn extend(row: &mut Slots<u8>, front: usize, end: usize, size: usize) -> usize
    requires within { (end ≤ size) × (front ≤ size) }
    requires room { (size ≤ slots_len row.old) × (size ≤ 16_777_216) }
    requires written { HasFront row.old front }
    ensures zeros { take result (slots_items row.new)
        ≡ take front (slots_items row.old) ++ replicate (result - front) 0 }
    ensures more { (end ≤ result) × (front ≤ result) × (result ≤ size) }
    ensures few { (result ≡ front) ⊎ (result < end + 4_096) }
    ensures written { HasFront row.new result }
    ensures places { SamePlaces row.old row.new }
{
    if end <= front {
        return front;
    }
    let whole = (end + (BLOCK_BYTES - 1)) / BLOCK_BYTES * BLOCK_BYTES;
    let to = whole.min(size);
    let unfilled = mem::replace(row, no_places(&0u8));
    let none = mem::replace(row, fill(unfilled, front, to));
    forget(none);
    to
}

/// Writes zeros from a place on. The row comes and goes by value and the loop writes nothing else, so that
/// it becomes one fill.
fn fill(row: Slots<u8>, from: usize, to: usize) -> Slots<u8>
    requires within { (from ≤ to) × (to ≤ slots_len row) }
    requires written { HasFront row from }
    ensures zeros { take to (slots_items result)
        ≡ take from (slots_items row) ++ replicate (to - from) 0 }
    ensures written { HasFront result to }
    ensures places { SamePlaces row result }
{
    let mut filled = row;
    let mut i = from;
    while i < to {
        filled.put(i, 0);
        i += 1;
    }
    filled
}
