//! What is proved of the definitions themselves: each function does nothing, and its contract is the law.

ghost use Rattle.std.specs.Prelude.{◌≡◌, ◌<◌, ◌≤◌, ◌+◌, ◌*◌, ◌/◌, ◌%◌, ◌^◌, ◌∷◌, [], ℕ, List, length, Some, None, true, false, replicate};
ghost use Rattle.linear_memory.specs.Memory.{Memory, page_bytes, max_pages, new_memory, is_inside, read_at, written_at, little_endian, low_bytes, loaded, stored, can_grow, grown, grow_result};
ghost use Rattle.linear_memory.specs.declared.width.Width.TheVariants.{One, Two, Four, Eight};

/// A number's lowest bytes spell the number modulo 256 to their count.
pub fn words_are_read_back()
    ensures { (count n : ℕ) → little_endian (low_bytes count n) ≡ n % 256 ^ count }
{}

/// A memory of four bytes, read and written at each width and at its edges.
pub fn accesses_are_little_endian()
    ensures two { loaded (record { bytes = 1 ∷ 2 ∷ 3 ∷ 4 ∷ []; cap = 1 }) 1 Two ≡ Some 770 }
    ensures four { loaded (record { bytes = 42 ∷ 0 ∷ 0 ∷ 1 ∷ []; cap = 1 }) 0 Four ≡ Some 16777258 }
    ensures last { loaded (record { bytes = 1 ∷ 2 ∷ 3 ∷ 4 ∷ []; cap = 1 }) 3 One ≡ Some 4 }
    ensures past { loaded (record { bytes = 1 ∷ 2 ∷ 3 ∷ 4 ∷ []; cap = 1 }) 3 Two ≡ None }
    ensures eight { loaded (record { bytes = 1 ∷ 2 ∷ 3 ∷ 4 ∷ []; cap = 1 }) 0 Eight ≡ None }
    ensures store { stored (record { bytes = 1 ∷ 2 ∷ 3 ∷ 4 ∷ []; cap = 1 }) 1 Two 131077
        ≡ record { bytes = 1 ∷ 5 ∷ 0 ∷ 4 ∷ []; cap = 1 } }
    ensures none { stored (record { bytes = 1 ∷ 2 ∷ 3 ∷ 4 ∷ []; cap = 1 }) 3 Two 0
        ≡ record { bytes = 1 ∷ 2 ∷ 3 ∷ 4 ∷ []; cap = 1 } }
    ensures empty { is_inside (record { bytes = 1 ∷ []; cap = 1 }) 1 0 ≡ true }
    ensures outside { is_inside (record { bytes = 1 ∷ []; cap = 1 }) 2 0 ≡ false }
{}

/// The bounds of memories in pages.
pub fn pages_are_standard()
    ensures bytes { page_bytes ≡ 65536 }
    ensures most { max_pages ≡ 256 }
{}

/// A memory grows by zeros, exactly within its cap.
pub fn growth_is_capped()
    ensures within { can_grow (new_memory 0 1) 1 ≡ true }
    ensures beyond { can_grow (new_memory 0 1) 2 ≡ false }
    ensures answers { grow_result (new_memory 0 1) 1 ≡ Some 0 }
    ensures refused { grow_result (new_memory 0 1) 2 ≡ None }
    ensures zeros { grown (new_memory 0 1) 1 ≡ new_memory 1 1 }
    ensures stays { grown (new_memory 0 1) 2 ≡ new_memory 0 1 }
{}
