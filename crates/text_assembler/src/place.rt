//! Places in a text.

ghost use Rattle.std.specs.Prelude.{◌≡◌, ◌-◌, take, length};
ghost use Rattle.text_assembler.specs.Characters.{is_between};
ghost use Rattle.text_assembler.specs.Modules.{place_after};

// Whether this byte of a character in UTF-8 is not its first.
fn is_later(byte: u8) -> bool
    ensures { result ≡ is_between 0x80 0xBF byte }
{
    matches!(byte, 0x80..=0xBF)
}

/// The line and the column, both from 1, of the character that begins where this many bytes of the
/// text are left. A line feed ends a line; a column counts characters.
pub fn line_and_column(text: &[u8], left: usize) -> (u64, u64)
    ensures { result ≡ place_after (take (length text.now - left) text.now) }
{
    let before = text.len().saturating_sub(left);
    let mut line = 1u64;
    let mut column = 1u64;
    let (passed, _) = text.split_at(before);
    for byte in passed {
        if *byte == b'\n' {
            line += 1;
            column = 1;
        } else if !is_later(*byte) {
            column += 1;
        }
    }
    (line, column)
}
