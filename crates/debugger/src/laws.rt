//! What is proved of the definitions themselves: each function does nothing, and its contract is
//! the law.

ghost use Rattle.std.specs.Prelude.{◌≡◌, ◌≤◌, ◌<◌, ◌+◌, ℕ, List, [], ◌∷◌, ◌++◌, length, take, drop, slice_get, Some, None};
ghost use Rattle.linear_memory.specs.Memory.{Memory};
ghost use Rattle.debugger.specs.Peek.{max_peek, peeked};

/// How many bytes are shown at a time.
pub fn limits_are_these()
    ensures { max_peek ≡ 256 }
{}

/// What is shown are the bytes that the memory has there, as many as were asked for.
pub fn peeks_show_the_memory()
    ensures many { (m : Memory) → (address count : ℕ) → (bytes : List ℕ)
        → peeked m address count ≡ Some bytes → length bytes ≡ count }
    ensures each { (m : Memory) → (address count : ℕ) → (bytes : List ℕ)
        → peeked m address count ≡ Some bytes → (k : ℕ) → k < count
        → slice_get bytes k ≡ slice_get m.bytes (address + k) }
{}

/// A range is shown exactly if it is short and ends in the memory: an empty one at its end is shown,
/// and a byte past its end is not.
pub fn peeks_end_with_the_memory()
    ensures shown { (m : Memory) → (address count : ℕ) → count ≤ 256
        → address + count ≤ length m.bytes
        → peeked m address count ≡ Some (take count (drop address m.bytes)) }
    ensures long { (m : Memory) → (address count : ℕ) → 256 < count
        → peeked m address count ≡ None }
    ensures outside { (m : Memory) → (address count : ℕ) → length m.bytes < address + count
        → peeked m address count ≡ None }
    ensures empty { (m : Memory) → peeked m (length m.bytes) 0 ≡ Some [] }
    ensures past { (m : Memory) → peeked m (length m.bytes) 1 ≡ None }
    ensures last { (bytes : List ℕ) → (last cap : ℕ)
        → peeked (record { bytes = bytes ++ last ∷ []; cap = cap }) (length bytes) 1
        ≡ Some (last ∷ []) }
{}
