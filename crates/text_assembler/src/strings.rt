//! Strings (6.3.3).

ghost use Rattle.std.specs.Prelude.{◌≡◌, ◌++◌, IfOk, ◌∷◌, [], ◌<◌, true, false, not, ◌&&◌, ◌==◌};
ghost use Rattle.text_assembler.specs.Inside.Answers.{Gives, with_front};
ghost use Rattle.text_assembler.specs.Characters.{quote};
ghost use Rattle.text_assembler.specs.Reading.{read_parts};
ghost use Rattle.text_assembler.specs.Tokens.{begins_with, more_code, read_byte, read_code, read_escape, read_element};

use crate::characters::{escaped, hex_digit, is_string_char};
use crate::fault::ReadError;
use std::alloc::{AllocError, Global};

const MALFORMED: ReadError = ReadError::Malformed { left: 0 };

/// Whether this byte is the first.
pub fn begins_with(byte: u8, bytes: &[u8]) -> bool
    ensures { result ≡ begins_with byte bytes.now }
{
    match bytes {
        [first, ..] => *first == byte,
        [] => false,
    }
}

// The code of a character in hexadecimal digits, up to `}`, and what follows that.
#[tactic(auto, unfolding(crate::specs::Tokens::more_code))]
fn read_digits(bytes: &[u8]) -> Result<(u32, &[u8]), ReadError>
    ensures value { Gives (λ x. (x.0, x.1.now)) result (more_code 0 bytes.now) }
    ensures small { IfOk result (λ x. x.0 < 0x110000) }
{
    let mut code = 0u32;
    let mut rest = bytes;
    while let [first, tail @ ..] = rest {
        rest = tail;
        if *first == b'}' {
            return Ok((code, rest));
        }
        let Some(value) = hex_digit(*first) else {
            return Err(MALFORMED);
        };
        code = 16 * code + u32::from(value);
        if code >= 0x110000 {
            return Err(MALFORMED);
        }
    }
    Err(MALFORMED)
}

// The character in `u{..}`, after the `u`, and what follows it.
#[tactic(auto, unfolding(crate::specs::Tokens::read_code))]
fn push_code<'a>(out: &mut Vec<u8>, bytes: &'a [u8]) -> Result<&'a [u8], ReadError>
    ensures { Gives (λ rest. (out.new.items, rest.now)) result
        (with_front out.old.items (read_code bytes.now)) }
{
    let [b'{', digits @ ..] = bytes else {
        return Err(MALFORMED);
    };
    if digits.is_empty() || begins_with(b'}', digits) {
        return Err(MALFORMED);
    }
    let (code, rest) = read_digits(digits)?;
    if matches!(code, 0xD800..=0xDFFF) {
        return Err(MALFORMED);
    }
    let Some(character) = char::from_u32(code) else {
        return Err(MALFORMED);
    };
    let mut buffer = [0u8; 4];
    out.extend_from_slice(character.encode_utf8(&mut buffer).as_bytes())?;
    Ok(rest)
}

// The byte of two hexadecimal digits, and what follows them.
#[tactic(auto, unfolding(crate::specs::Tokens::read_byte))]
fn push_byte<'a>(out: &mut Vec<u8>, bytes: &'a [u8]) -> Result<&'a [u8], ReadError>
    ensures { Gives (λ rest. (out.new.items, rest.now)) result
        (with_front out.old.items (read_byte bytes.now)) }
{
    let [first, second, rest @ ..] = bytes else {
        return Err(MALFORMED);
    };
    match (hex_digit(*first), hex_digit(*second)) {
        (Some(high), Some(low)) => {
            out.push(16 * high + low)?;
            Ok(rest)
        }
        _ => Err(MALFORMED),
    }
}

// What is escaped, after the backslash, and what follows it.
#[tactic(auto, unfolding(crate::specs::Tokens::read_escape, crate::specs::Tokens::read_escaped))]
fn push_escape<'a>(out: &mut Vec<u8>, bytes: &'a [u8]) -> Result<&'a [u8], ReadError>
    ensures { Gives (λ rest. (out.new.items, rest.now)) result
        (with_front out.old.items (read_escape bytes.now)) }
{
    let Some((first, rest)) = bytes.split_first() else {
        return Err(MALFORMED);
    };
    if *first == b'u' {
        return push_code(out, rest);
    }
    match escaped(*first) {
        Some(byte) => {
            out.push(byte)?;
            Ok(rest)
        }
        None => push_byte(out, bytes),
    }
}

// A character or an escape, and what follows it.
#[tactic(auto, unfolding(crate::specs::Tokens::read_element))]
fn push_element<'a>(out: &mut Vec<u8>, bytes: &'a [u8]) -> Result<&'a [u8], ReadError>
    ensures { Gives (λ rest. (out.new.items, rest.now)) result
        (with_front out.old.items (read_element bytes.now)) }
{
    let Some((first, rest)) = bytes.split_first() else {
        return Err(MALFORMED);
    };
    if *first == b'\\' {
        return push_escape(out, rest);
    }
    if !is_string_char(*first) {
        return Err(MALFORMED);
    }
    out.push(*first)?;
    Ok(rest)
}

/// The bytes of a string after its opening quote, and what follows them: its closing quote.
pub fn read_bytes(alloc: Global, bytes: &[u8]) -> Result<(Vec<u8>, &[u8]), ReadError>
    ensures { Gives (λ x. (x.0.items, x.1.now)) result
        (read_parts (begins_with quote) read_element bytes.now) }
{
    let mut out = Vec::new(alloc);
    let mut rest = bytes;
    for _ in 0..bytes.len() {
        if begins_with(b'"', rest) {
            return Ok((out, rest));
        }
        rest = push_element(&mut out, rest)?;
    }
    if begins_with(b'"', rest) {
        Ok((out, rest))
    } else {
        Err(MALFORMED)
    }
}
