//! The ids of tasks and leases, and the form of the digests of contents.

ghost use Rattle.std.specs.Prelude.{◌≡◌, codes, bytes_eq};
ghost use Rattle.std.specs.List.{list_all};
ghost use Rattle.wasm_ast.specs.Identifiers.{is_id, is_digest, is_id_character, is_letter_or_digit, is_lower_hex};

fn is_letter_or_digit(byte: u8) -> bool
    ensures { result ≡ is_letter_or_digit byte }
{
    matches!(byte, b'0'..=b'9' | b'A'..=b'Z' | b'a'..=b'z')
}

fn is_id_character(byte: u8) -> bool
    ensures { result ≡ is_id_character byte }
{
    is_letter_or_digit(byte) || byte == b'.' || byte == b'_' || byte == b'-'
}

fn are_id_characters(bytes: &[u8]) -> bool
    ensures { result ≡ list_all is_id_character bytes.now }
{
    bytes.iter().all(|byte| is_id_character(*byte))
}

/// Whether the text is an id: 1 to 64 letters, digits, dots, underscores and dashes, the first of
/// them a letter or a digit.
pub fn is_id(text: &str) -> bool
    ensures { result ≡ is_id text.now }
{
    let Some((first, rest)) = text.as_bytes().split_first() else {
        return false;
    };
    is_letter_or_digit(*first) && are_id_characters(rest) && rest.len() < 64
}

fn is_lower_hex(byte: u8) -> bool
    ensures { result ≡ is_lower_hex byte }
{
    matches!(byte, b'0'..=b'9' | b'a'..=b'f')
}

fn are_lower_hex(bytes: &[u8]) -> bool
    ensures { result ≡ list_all is_lower_hex bytes.now }
{
    bytes.iter().all(|byte| is_lower_hex(*byte))
}

fn is_sha256(head: &[u8]) -> bool
    ensures { result ≡ bytes_eq head.now (codes "sha256:") }
{
    head == b"sha256:".as_slice()
}

/// Whether the text is a digest: `sha256:` and 64 hexadecimal digits, letters in lower case.
pub fn is_digest(text: &str) -> bool
    ensures { result ≡ is_digest text.now }
{
    let bytes = text.as_bytes();
    if bytes.len() != 71 {
        return false;
    }
    let (head, digits) = bytes.split_at(7);
    is_sha256(head) && are_lower_hex(digits)
}
