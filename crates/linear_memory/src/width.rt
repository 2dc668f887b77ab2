//! How many bytes an access reads or writes.

ghost use Rattle.std.specs.Prelude.{◌≡◌};
ghost use Rattle.linear_memory.specs.Memory.{byte_count};

/// The width of an access, in bytes.
#[derive(Clone, Copy, PartialEq, Eq, Debug)]
pub enum Width {
    One,
    Two,
    Four,
    Eight,
}

impl Width {
    /// The number of bytes: 1, 2, 4 or 8.
    #[inline(always)]
    pub fn bytes(self) -> usize
        ensures { result ≡ byte_count self }
    {
        match self {
            Width::One => 1,
            Width::Two => 2,
            Width::Four => 4,
            Width::Eight => 8,
        }
    }
}
