//! What is proved of the definitions themselves: each function does nothing, and its contract is the law.

ghost use Rattle.std.specs.Prelude.{◌≡◌, ◌<◌, ◌≤◌, ◌+◌, ◌-◌, ◌++◌, ◌∷◌, [], ℕ, List, length, drop, Some, None, true, false};
ghost use Rattle.operand_stack.specs.Stack.{Stack, new_stack, has_room, has_room_for, newest_word, newest_pair, pushed, pushed_zeros, popped, replaced, word_at, with_word, copied, moved, copied_down, oldest, lowered};

/// Words keep their numbers under whatever is pushed above them.
pub fn words_keep_their_numbers()
    ensures reads { (above words : List ℕ) (i : ℕ) → i < length words
        → word_at (above ++ words) i ≡ word_at words i }
    ensures writes { (above words : List ℕ) (i w : ℕ) → i < length words
        → with_word (above ++ words) i w ≡ above ++ with_word words i w }
{}

/// A word that was written is read, and no other is changed.
pub fn words_are_read_back()
    ensures written { (words : List ℕ) (i w : ℕ) → i < length words
        → word_at (with_word words i w) i ≡ Some w }
    ensures others { (words : List ℕ) (i j w : ℕ) → (i ≡ j → ⊥)
        → word_at (with_word words i w) j ≡ word_at words j }
    ensures count { (words : List ℕ) (i w : ℕ) → length (with_word words i w) ≡ length words }
{}

/// What is moved down is above the oldest words, and what was between them is gone.
pub fn words_are_lowered()
    ensures { (kept between words : List ℕ)
        → lowered (length kept) (length words) (kept ++ (between ++ words)) ≡ kept ++ words }
{}

/// The stack of the words 1 to 5, the oldest first, with room for no more.
pub fn five_words()
    ensures one { lowered 1 2 (5 ∷ 4 ∷ 3 ∷ 2 ∷ 1 ∷ []) ≡ 5 ∷ 2 ∷ 1 ∷ [] }
    ensures two { lowered 2 1 (5 ∷ 4 ∷ 3 ∷ 2 ∷ 1 ∷ []) ≡ 5 ∷ 4 ∷ 1 ∷ [] }
    ensures three { lowered 3 1 (5 ∷ 4 ∷ 3 ∷ 2 ∷ 1 ∷ []) ≡ 5 ∷ 4 ∷ 3 ∷ 1 ∷ [] }
    ensures all { lowered 0 5 (5 ∷ 4 ∷ 3 ∷ 2 ∷ 1 ∷ []) ≡ 5 ∷ 4 ∷ 3 ∷ 2 ∷ 1 ∷ [] }
    ensures none { lowered 0 0 (5 ∷ 4 ∷ 3 ∷ 2 ∷ 1 ∷ []) ≡ [] }
    ensures third { word_at (5 ∷ 4 ∷ 3 ∷ 2 ∷ 1 ∷ []) 2 ≡ Some 3 }
    ensures past { word_at (5 ∷ 4 ∷ 3 ∷ 2 ∷ 1 ∷ []) 5 ≡ None }
{}

/// Pushes, pops and copies at the limit and below it.
pub fn calls_at_the_limit()
    ensures full { has_room (record { words = 2 ∷ 1 ∷ []; limit = 2 }) ≡ false }
    ensures stays { pushed (record { words = 2 ∷ 1 ∷ []; limit = 2 }) 3
        ≡ record { words = 2 ∷ 1 ∷ []; limit = 2 } }
    ensures fits { pushed (record { words = 2 ∷ 1 ∷ []; limit = 3 }) 3
        ≡ record { words = 3 ∷ 2 ∷ 1 ∷ []; limit = 3 } }
    ensures zeros { pushed_zeros (record { words = 1 ∷ []; limit = 3 }) 2
        ≡ record { words = 0 ∷ 0 ∷ 1 ∷ []; limit = 3 } }
    ensures too_many { pushed_zeros (record { words = 1 ∷ []; limit = 3 }) 3
        ≡ record { words = 1 ∷ []; limit = 3 } }
    ensures pops { popped (record { words = 2 ∷ 1 ∷ []; limit = 2 })
        ≡ record { words = 1 ∷ []; limit = 2 } }
    ensures pops_none { popped (new_stack 2) ≡ new_stack 2 }
    ensures pair { newest_pair (3 ∷ 2 ∷ 1 ∷ []) ≡ Some (2, 3) }
    ensures replaces { replaced (record { words = 3 ∷ 2 ∷ 1 ∷ []; limit = 3 }) 2 9
        ≡ record { words = 9 ∷ 1 ∷ []; limit = 3 } }
    ensures replaces_none { replaced (record { words = 1 ∷ []; limit = 3 }) 2 9
        ≡ record { words = 1 ∷ []; limit = 3 } }
    ensures copies { copied (record { words = 3 ∷ 2 ∷ 1 ∷ []; limit = 4 }) 1
        ≡ record { words = 2 ∷ 3 ∷ 2 ∷ 1 ∷ []; limit = 4 } }
    ensures copies_none { copied (record { words = 3 ∷ 2 ∷ 1 ∷ []; limit = 4 }) 3
        ≡ record { words = 3 ∷ 2 ∷ 1 ∷ []; limit = 4 } }
    ensures no_room { copied (record { words = 3 ∷ 2 ∷ 1 ∷ []; limit = 3 }) 1
        ≡ record { words = 3 ∷ 2 ∷ 1 ∷ []; limit = 3 } }
    ensures moves { moved (record { words = 3 ∷ 2 ∷ 1 ∷ []; limit = 3 }) 0
        ≡ record { words = 2 ∷ 3 ∷ []; limit = 3 } }
    ensures moves_next { moved (record { words = 3 ∷ 2 ∷ 1 ∷ []; limit = 3 }) 1
        ≡ record { words = 3 ∷ 1 ∷ []; limit = 3 } }
    ensures writes { copied_down (record { words = 3 ∷ 2 ∷ 1 ∷ []; limit = 3 }) 0
        ≡ record { words = 3 ∷ 2 ∷ 3 ∷ []; limit = 3 } }
    ensures writes_none { copied_down (record { words = 3 ∷ 2 ∷ 1 ∷ []; limit = 3 }) 2
        ≡ record { words = 3 ∷ 2 ∷ 1 ∷ []; limit = 3 } }
{}
