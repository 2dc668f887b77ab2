//! Words read from a block and written to it.

ghost use Rattle.std.specs.Prelude.{◌≡◌, ℕ, ◌<◌, ◌+◌, get_or, slice_set};
ghost use Rattle.std.specs.Mem.Slots.{slots_items, slots_len, SamePlaces};
ghost use Rattle.operand_stack.specs.Inside.Blocks.{HasUpTo};

use core::slots::Slots;

/// The word in a place.
#[inline(always)]
pub fn read_word(words: &Slots<u64>, i: usize) -> u64
    requires { HasUpTo words.now (i + 1) }
    ensures { result ≡ get_or (slots_items words.now) i 0 }
{
    *words.get(i)
}

/// Writes a word to a place.
#[inline(always)]
pub fn write_word(words: &mut Slots<u64>, i: usize, word: u64)
    requires { i < slots_len words.old }
    ensures items { slots_items words.new ≡ slice_set (slots_items words.old) i word }
    ensures kept { (n : ℕ) → HasUpTo words.old n → HasUpTo words.new n }
    ensures more { HasUpTo words.old i → HasUpTo words.new (i + 1) }
    ensures places { SamePlaces words.old words.new }
{
    words.put(i, word);
}
