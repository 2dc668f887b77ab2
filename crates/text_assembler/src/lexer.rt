//! Characters to tokens (6.2, 6.3).

ghost use Rattle.std.specs.Prelude.{◌≡◌, [], ◌∷◌, true, false, length};
ghost use Rattle.text_assembler.specs.Inside.Answers.{Gives, Finds, with_front};
ghost use Rattle.text_assembler.specs.Characters.{quote};
ghost use Rattle.text_assembler.specs.Tokens.{begins_with, read_element, after_line, opens_comment, closes_comment, after_comment, is_apart, word_of, after_word, read_string, read_word, read_open, read_line, read_token, is_empty, tokens_of};
ghost use Rattle.text_assembler.specs.Reading.{read_parts};

use crate::characters::{is_space, is_word_char};
use crate::fault::ReadError;
use crate::strings::{begins_with, read_bytes};
use crate::token::{Lexeme, Token};
use std::alloc::Global;
use wasm_ast::Sequence;

// What follows the next line feed.
#[tactic(auto, unfolding(crate::specs::Tokens::after_line))]
fn after_line(bytes: &[u8]) -> &[u8]
    ensures { result.now ≡ after_line bytes.now }
{
    let mut rest = bytes;
    while let [first, tail @ ..] = rest {
        if *first == b'\n' {
            return tail;
        }
        rest = tail;
    }
    rest
}

#[tactic(auto, unfolding(crate::specs::Tokens::opens_comment))]
fn opens_comment(first: u8, second: u8) -> bool
    ensures { result ≡ opens_comment first second }
{
    first == b'(' && second == b';'
}

#[tactic(auto, unfolding(crate::specs::Tokens::closes_comment))]
fn closes_comment(first: u8, second: u8) -> bool
    ensures { result ≡ closes_comment first second }
{
    first == b';' && second == b')'
}

// What follows a comment after its `(;`, where there is its end. Comments inside it end first.
#[tactic(auto, unfolding(crate::specs::Tokens::after_comment))]
fn after_comment(bytes: &[u8]) -> Option<&[u8]>
    ensures { Finds (λ rest. rest.now) result (after_comment 1 bytes.now) }
{
    let mut depth = 1usize;
    let mut rest = bytes;
    while let Some((first, tail)) = rest.split_first() {
        let (second, next) = tail.split_first()?;
        if opens_comment(*first, *second) {
            depth += 1;
            rest = next;
        } else if closes_comment(*first, *second) {
            if depth == 1 {
                return Some(next);
            }
            depth -= 1;
            rest = next;
        } else {
            rest = tail;
        }
    }
    None
}

// Whether neither a word nor a string begins here.
#[tactic(auto, unfolding(crate::specs::Tokens::is_apart))]
fn is_apart(bytes: &[u8]) -> bool
    ensures { result ≡ is_apart bytes.now }
{
    match bytes {
        [first, ..] => !(is_word_char(*first) || *first == b'"'),
        [] => true,
    }
}

// How many bytes at the front are those of a word.
fn word_len(bytes: &[u8]) -> usize
    ensures { result ≡ length (word_of bytes.now) }
{
    bytes
        .iter()
        .copied()
        .take_while(|byte| is_word_char(*byte))
        .count()
}

// Pushes the token that is this word, and gives what follows it.
#[tactic(auto, unfolding(crate::specs::Tokens::read_word))]
fn push_word<'a>(
    alloc: Global,
    out: &mut Vec<Token>,
    bytes: &'a [u8],
) -> Result<&'a [u8], ReadError>
    ensures { Gives (λ rest. (out.new.items, rest.now)) result
        (with_front out.old.items (read_word bytes.now)) }
{
    let (word, rest) = bytes.split_at(word_len(bytes));
    if !is_apart(rest) {
        return Err(ReadError::Malformed { left: bytes.len() });
    }
    let word = Sequence::new(Vec::from_slice(alloc, word)?);
    out.push(Token::new(Lexeme::Word(word), bytes.len()))?;
    Ok(rest)
}

// The bytes of a string after its opening quote, where this many bytes are left, and its closing quote.
fn quoted(alloc: Global, left: usize, bytes: &[u8]) -> Result<(Vec<u8>, &[u8]), ReadError>
    ensures { Gives (λ x. (x.0.items, x.1.now)) result
        (read_parts (begins_with quote) read_element bytes.now) }
{
    match read_bytes(alloc, bytes) {
        Err(ReadError::Malformed { left: _ }) => Err(ReadError::Malformed { left }),
        read => read,
    }
}

// Pushes the string after its opening quote, and gives what follows it.
#[tactic(auto, unfolding(crate::specs::Tokens::read_string, crate::specs::Tokens::read_closing))]
fn push_string<'a>(
    alloc: Global,
    out: &mut Vec<Token>,
    left: usize,
    bytes: &'a [u8],
) -> Result<&'a [u8], ReadError>
    ensures { Gives (λ rest. (out.new.items, rest.now)) result
        (with_front out.old.items (read_string bytes.now)) }
{
    let (text, closing) = quoted(alloc, left, bytes)?;
    let Some((_, rest)) = closing.split_first() else {
        return Err(ReadError::Malformed { left });
    };
    if !is_apart(rest) {
        return Err(ReadError::Malformed { left });
    }
    out.push(Token::new(Lexeme::Text(Sequence::new(text)), left))?;
    Ok(rest)
}

// Pushes a parenthesis, unless a comment begins, and gives what follows.
#[tactic(auto, unfolding(crate::specs::Tokens::read_open))]
fn push_open<'a>(out: &mut Vec<Token>, left: usize, bytes: &'a [u8]) -> Result<&'a [u8], ReadError>
    ensures { Gives (λ rest. (out.new.items, rest.now)) result
        (with_front out.old.items (read_open bytes.now)) }
{
    if begins_with(b';', bytes) {
        return match after_comment(&bytes[1..]) {
            Some(rest) => Ok(rest),
            None => Err(ReadError::Malformed { left }),
        };
    }
    out.push(Token::new(Lexeme::Open, left))?;
    Ok(bytes)
}

// What follows a comment of one line, after its first `;`.
#[tactic(auto, unfolding(crate::specs::Tokens::read_line))]
fn skip_line(left: usize, bytes: &[u8]) -> Result<&[u8], ReadError>
    ensures { Gives (λ rest. ([], rest.now)) result (read_line bytes.now) }
{
    match bytes.split_first() {
        Some((first, rest)) if *first == b';' => Ok(after_line(rest)),
        _ => Err(ReadError::Malformed { left }),
    }
}

// Pushes the token here, if it is no separator, and gives what follows.
#[tactic(auto, unfolding(crate::specs::Tokens::read_token))]
fn push_token<'a>(
    alloc: Global,
    out: &mut Vec<Token>,
    bytes: &'a [u8],
) -> Result<&'a [u8], ReadError>
    ensures { Gives (λ rest. (out.new.items, rest.now)) result
        (with_front out.old.items (read_token bytes.now)) }
{
    let left = bytes.len();
    let Some((first, rest)) = bytes.split_first() else {
        return Err(ReadError::Malformed { left });
    };
    if is_space(*first) {
        Ok(rest)
    } else if *first == b'(' {
        push_open(out, left, rest)
    } else if *first == b')' {
        out.push(Token::new(Lexeme::Close, left))?;
        Ok(rest)
    } else if *first == b';' {
        skip_line(left, rest)
    } else if *first == b'"' {
        push_string(alloc, out, left, rest)
    } else if is_word_char(*first) {
        push_word(alloc, out, bytes)
    } else {
        Err(ReadError::Malformed { left })
    }
}

/// The tokens of a text.
#[tactic(auto, unfolding(crate::specs::Tokens::tokens_of))]
pub fn tokens_of(alloc: Global, bytes: &[u8]) -> Result<Vec<Token>, ReadError>
    ensures { Gives (λ tokens. tokens.items) result (tokens_of bytes.now) }
{
    let mut out = Vec::new(alloc);
    let mut rest = bytes;
    for _ in 0..bytes.len() {
        if rest.is_empty() {
            return Ok(out);
        }
        rest = push_token(alloc, &mut out, rest)?;
    }
    if rest.is_empty() {
        Ok(out)
    } else {
        Err(ReadError::Malformed { left: rest.len() })
    }
}
