//! Characters (6.2, 6.3).

ghost use Rattle.std.specs.Prelude.{◌≡◌, IfSome, ◌<◌};
ghost use Rattle.text_assembler.specs.Characters.{is_space, is_word_char, is_string_char, hex_digit, digit, escaped};

pub fn is_space(byte: u8) -> bool
    ensures { result ≡ is_space byte }
{
    matches!(byte, b'\t' | b'\n' | b'\r' | b' ')
}

/// Whether words may have this character.
pub fn is_word_char(byte: u8) -> bool
    ensures { result ≡ is_word_char byte }
{
    matches!(byte,
        b'!' | b'#'..=b'\'' | b'*'..=b'+' | b'-'..=b':' | b'<'..=b'Z' | b'\\' | b'^'..=b'z' | b'|' | b'~')
}

/// Whether strings may have this character as it is.
pub fn is_string_char(byte: u8) -> bool
    ensures { result ≡ is_string_char byte }
{
    byte >= b' ' && !matches!(byte, b'"' | b'\\' | 0x7F)
}

/// The value of a hexadecimal digit.
pub fn hex_digit(byte: u8) -> Option<u8>
    ensures value { result ≡ hex_digit byte }
    ensures small { IfSome result (λ d. d < 16) }
{
    match byte {
        b'0'..=b'9' => Some(byte - b'0'),
        b'a'..=b'f' => Some(byte - b'a' + 10),
        b'A'..=b'F' => Some(byte - b'A' + 10),
        _ => None,
    }
}

/// The value of a digit of this base.
pub fn digit(base: u8, byte: u8) -> Option<u8>
    ensures value { result ≡ digit base byte }
    ensures small { IfSome result (λ d. d < base) }
{
    match hex_digit(byte) {
        Some(value) if value < base => Some(value),
        _ => None,
    }
}

/// The character that this one is an escape of.
pub fn escaped(byte: u8) -> Option<u8>
    ensures { result ≡ escaped byte }
{
    match byte {
        b't' => Some(b'\t'),
        b'n' => Some(b'\n'),
        b'r' => Some(b'\r'),
        b'"' | b'\'' | b'\\' => Some(byte),
        _ => None,
    }
}
