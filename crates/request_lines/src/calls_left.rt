//! How many more times a stream is called at most.

ghost use Rattle.std.specs.Prelude.{◌≡◌, ◌+◌, true, false};

/// A number of calls, which goes down by one with each.
#[derive(Drop)]
pub(crate) struct CallsLeft {
    left: u64,
}

impl CallsLeft {
    /// 2^64 - 1 calls.
    pub(crate) fn all() -> CallsLeft
        ensures { result.left ≡ 18446744073709551615 }
    {
        CallsLeft { left: u64::MAX }
    }

    /// Takes one of them. False if none is left.
    pub(crate) fn take_one(&mut self) -> bool
        ensures yes { result ≡ true → self.old.left ≡ self.new.left + 1 }
        ensures no { result ≡ false → (self.old.left ≡ 0) × (self.new.left ≡ 0) }
    {
        if self.left == 0 {
            return false;
        }
        self.left -= 1;
        true
    }
}
