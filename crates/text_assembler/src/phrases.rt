//! The phrases that all fields share (6.4, 6.5.1, 6.6.3).

ghost use Rattle.std.specs.Prelude.{◌≡◌, [], ◌∷◌, not, is_none, codes, length, Ok, bytes_eq};
ghost use Rattle.text_assembler.specs.declared.fault.ReadError.TheVariants as errors;
ghost use Rattle.text_assembler.specs.Inside.Answers.{Gives, Finds, with_front};
ghost use Rattle.text_assembler.specs.Inside.Steps.{open_word, read_grouped};
ghost use Rattle.wasm_ast.specs.Types.{are_same_types};
ghost use Rattle.text_assembler.specs.Reading.{read_parts};
ghost use Rattle.text_assembler.specs.Phrases.{is_close, skip_close, skip_open, take_word, take_text, begins_word, skip_word, begins_group, is_past_groups, skip_group, read_name, begins_id, id_of, after_id, read_number, begins_index, is_past_indices, read_index, one_index, read_indices, val_type_of, read_val_type, one_type, read_result, read_results, one_nameless, read_bound, read_group, read_bindings, names_of, types_of, read_limits};

use crate::fault::ReadError;
use crate::ids::{Space, is_id, is_index};
use crate::numbers::small_number;
use crate::token::{Lexeme, Token, WrittenType};
use std::alloc::Global;
use wasm_ast::{Bytes, Limits, Sequence, ValType, is_same_type};

/// A parameter or a local: its identifier, if it has one, and its type.
#[derive(Drop)]
pub struct Binding {
    pub name: Option<Bytes>,
    pub val_type: WrittenType,
}

impl Binding {
    /// How many tokens are left at its identifier, if it has one: the token before its type.
    pub fn name_left(&self) -> usize {
        self.val_type.left().saturating_add(1)
    }
}

/// That nothing is denoted: the fault is at the first of these tokens.
pub fn fault(tokens: &[Token]) -> ReadError
    ensures { result ≡ errors.Malformed (length tokens.now) }
{
    ReadError::Malformed { left: tokens.len() }
}

// ---- single tokens

/// Whether `)` is next.
#[tactic(auto, unfolding(crate::specs::Phrases::is_close))]
pub fn is_close(tokens: &[Token]) -> bool
    ensures { result ≡ is_close tokens.now }
{
    match tokens.first() {
        Some(first) => matches!(first.lexeme(), Lexeme::Close),
        None => false,
    }
}

/// What follows `)`.
#[tactic(auto, unfolding(crate::specs::Phrases::skip_close))]
pub fn skip_close(tokens: &[Token]) -> Result<&[Token], ReadError>
    ensures { Gives (λ x. x.now) result (skip_close tokens.now) }
{
    let Some((first, rest)) = tokens.split_first() else {
        return Err(fault(tokens));
    };
    match first.lexeme() {
        Lexeme::Close => Ok(rest),
        _ => Err(fault(tokens)),
    }
}

/// What follows `(`.
#[tactic(auto, unfolding(crate::specs::Phrases::skip_open))]
pub fn skip_open(tokens: &[Token]) -> Result<&[Token], ReadError>
    ensures { Gives (λ x. x.now) result (skip_open tokens.now) }
{
    let Some((first, rest)) = tokens.split_first() else {
        return Err(fault(tokens));
    };
    match first.lexeme() {
        Lexeme::Open => Ok(rest),
        _ => Err(fault(tokens)),
    }
}

/// A word, and what follows it.
#[tactic(auto, unfolding(crate::specs::Phrases::take_word))]
pub fn take_word(tokens: &[Token]) -> Result<(&[u8], &[Token]), ReadError>
    ensures { Gives (λ x. (x.0.now, x.1.now)) result (take_word tokens.now) }
{
    let Some((first, rest)) = tokens.split_first() else {
        return Err(fault(tokens));
    };
    match first.lexeme() {
        Lexeme::Word(word) => Ok((word.as_slice(), rest)),
        _ => Err(fault(tokens)),
    }
}

/// The bytes of a string, and what follows it.
#[tactic(auto, unfolding(crate::specs::Phrases::take_text))]
pub fn take_text(tokens: &[Token]) -> Result<(&[u8], &[Token]), ReadError>
    ensures { Gives (λ x. (x.0.now, x.1.now)) result (take_text tokens.now) }
{
    let Some((first, rest)) = tokens.split_first() else {
        return Err(fault(tokens));
    };
    match first.lexeme() {
        Lexeme::Text(text) => Ok((text.as_slice(), rest)),
        _ => Err(fault(tokens)),
    }
}

/// Whether this keyword is next.
#[tactic(auto, unfolding(crate::specs::Phrases::begins_word))]
pub fn begins_word(word: &str, tokens: &[Token]) -> bool
    ensures { result ≡ begins_word word.now tokens.now }
{
    let Some((first, _)) = tokens.split_first() else {
        return false;
    };
    match first.lexeme() {
        Lexeme::Word(found) => found.as_slice() == word.as_bytes(),
        _ => false,
    }
}

/// Whether a word is this keyword.
pub fn is_word(word: &[u8], keyword: &str) -> bool
    ensures { result ≡ bytes_eq word.now keyword.now }
{
    word == keyword.as_bytes()
}

/// What follows this keyword.
#[tactic(auto, unfolding(crate::specs::Phrases::skip_word, crate::specs::Phrases::begins_word))]
pub fn skip_word<'a>(word: &str, tokens: &'a [Token]) -> Result<&'a [Token], ReadError>
    ensures { Gives (λ x. x.now) result (skip_word word.now tokens.now) }
{
    let Some((_, rest)) = tokens.split_first() else {
        return Err(fault(tokens));
    };
    if begins_word(word, tokens) {
        Ok(rest)
    } else {
        Err(fault(tokens))
    }
}

/// `(` and a word, which is given, and what follows them.
pub fn open_word(tokens: &[Token]) -> Result<(&[u8], &[Token]), ReadError>
    ensures { Gives (λ x. (x.0.now, x.1.now)) result (open_word tokens.now) }
{
    let rest = skip_open(tokens)?;
    take_word(rest)
}

/// Whether `(` and this keyword are next.
#[tactic(auto, unfolding(crate::specs::Phrases::begins_group))]
pub fn begins_group(word: &str, tokens: &[Token]) -> bool
    ensures { result ≡ begins_group word.now tokens.now }
{
    let Some((first, rest)) = tokens.split_first() else {
        return false;
    };
    match first.lexeme() {
        Lexeme::Open => begins_word(word, rest),
        _ => false,
    }
}

/// Whether no group with this keyword is next.
pub fn is_past_groups(word: &str, tokens: &[Token]) -> bool
    ensures { result ≡ is_past_groups word.now tokens.now }
{
    !begins_group(word, tokens)
}

/// What follows `(` and this keyword.
#[tactic(auto, unfolding(crate::specs::Phrases::skip_group))]
pub fn skip_group<'a>(word: &str, tokens: &'a [Token]) -> Result<&'a [Token], ReadError>
    ensures { Gives (λ x. x.now) result (skip_group word.now tokens.now) }
{
    let rest = skip_open(tokens)?;
    skip_word(word, rest)
}

// ---- names, identifiers and numbers

/// A name, and what follows it.
#[tactic(auto, unfolding(crate::specs::Phrases::read_name), using(crate::proofs::Utf8::is_text, crate::proofs::Utf8::no_text))]
pub fn read_name(tokens: &[Token]) -> Result<(&str, &[Token]), ReadError>
    ensures { Gives (λ x. (x.0.now, x.1.now)) result (read_name tokens.now) }
{
    let (bytes, rest) = take_text(tokens)?;
    match str::from_utf8(bytes) {
        Ok(name) => Ok((name, rest)),
        Err(_) => Err(fault(tokens)),
    }
}

/// Whether an identifier is next.
#[tactic(auto, unfolding(crate::specs::Phrases::begins_id))]
pub fn begins_id(tokens: &[Token]) -> bool
    ensures { result ≡ begins_id tokens.now }
{
    let Some((first, _)) = tokens.split_first() else {
        return false;
    };
    match first.lexeme() {
        Lexeme::Word(word) => is_id(word.as_slice()),
        _ => false,
    }
}

/// The identifier that is next, if there is one.
#[tactic(auto, unfolding(crate::specs::Phrases::id_of))]
pub fn id_of(alloc: Global, tokens: &[Token]) -> Result<Option<Bytes>, ReadError>
    ensures { Gives (λ x. x) result (Ok (id_of tokens.now)) }
{
    let Some((first, _)) = tokens.split_first() else {
        return Ok(None);
    };
    match first.lexeme() {
        Lexeme::Word(word) if is_id(word.as_slice()) => Ok(Some(word.copy(alloc)?)),
        _ => Ok(None),
    }
}

/// What follows an identifier, or all of the tokens if none is next.
#[tactic(auto, unfolding(crate::specs::Phrases::after_id, crate::specs::Phrases::begins_id))]
pub fn after_id(tokens: &[Token]) -> &[Token]
    ensures { result.now ≡ after_id tokens.now }
{
    let Some((_, rest)) = tokens.split_first() else {
        return tokens;
    };
    if begins_id(tokens) { rest } else { tokens }
}

/// A number, and what follows it.
#[tactic(auto, unfolding(crate::specs::Phrases::read_number))]
pub fn read_number(tokens: &[Token]) -> Result<(u32, &[Token]), ReadError>
    ensures { Gives (λ x. (x.0, x.1.now)) result (read_number tokens.now) }
{
    let (word, rest) = take_word(tokens)?;
    match small_number(word) {
        Some(number) => Ok((number, rest)),
        None => Err(fault(tokens)),
    }
}

/// Whether an index is next.
#[tactic(auto, unfolding(crate::specs::Phrases::begins_index))]
pub fn begins_index(tokens: &[Token]) -> bool
    ensures { result ≡ begins_index tokens.now }
{
    let Some((first, _)) = tokens.split_first() else {
        return false;
    };
    match first.lexeme() {
        Lexeme::Word(word) => is_index(word.as_slice()),
        _ => false,
    }
}

// Whether no index is next.
fn is_past_indices(tokens: &[Token]) -> bool
    ensures { result ≡ is_past_indices tokens.now }
{
    !begins_index(tokens)
}

/// An index of this space, and what follows it.
#[tactic(auto, unfolding(crate::specs::Phrases::read_index))]
pub fn read_index<'a, S: Space>(
    space: &S,
    tokens: &'a [Token],
) -> Result<(u32, &'a [Token]), ReadError>
    ensures { Gives (λ x. (x.0, x.1.now)) result (read_index (S.entries space.now) tokens.now) }
{
    let (word, rest) = take_word(tokens)?;
    match space.index_of(word) {
        Some(index) => Ok((index, rest)),
        None => Err(fault(tokens)),
    }
}

#[tactic(auto, unfolding(crate::specs::Phrases::one_index))]
fn push_index<'a, S: Space>(
    space: &S,
    out: &mut Vec<u32>,
    tokens: &'a [Token],
) -> Result<&'a [Token], ReadError>
    ensures { Gives (λ rest. (out.new.items, rest.now)) result
        (with_front out.old.items (one_index (S.entries space.now) tokens.now)) }
{
    let (index, rest) = read_index(space, tokens)?;
    out.push(index)?;
    Ok(rest)
}

/// Pushes the indices that are next, and gives what follows them.
#[tactic(auto, unfolding(crate::specs::Phrases::read_indices))]
pub fn push_indices<'a, S: Space>(
    space: &S,
    out: &mut Vec<u32>,
    tokens: &'a [Token],
) -> Result<&'a [Token], ReadError>
    ensures { Gives (λ rest. (out.new.items, rest.now)) result
        (with_front out.old.items (read_indices (S.entries space.now) tokens.now)) }
{
    let mut rest = tokens;
    for _ in 0..tokens.len() {
        if is_past_indices(rest) {
            return Ok(rest);
        }
        rest = push_index(space, out, rest)?;
    }
    if is_past_indices(rest) {
        Ok(rest)
    } else {
        Err(fault(rest))
    }
}

// ---- types (6.4)

/// The type of a value, and what follows it.
#[tactic(auto, unfolding(crate::specs::Phrases::read_val_type, crate::specs::Phrases::val_type_of))]
pub fn read_val_type(tokens: &[Token]) -> Result<(ValType, &[Token]), ReadError>
    ensures { Gives (λ x. (x.0, x.1.now)) result (read_val_type tokens.now) }
{
    let (word, rest) = take_word(tokens)?;
    if is_word(word, "i32") {
        Ok((ValType::I32, rest))
    } else if is_word(word, "i64") {
        Ok((ValType::I64, rest))
    } else {
        Err(fault(tokens))
    }
}

/// The type of a value in parentheses, after this keyword, and what follows it.
pub fn read_grouped<'a>(
    keyword: &str,
    tokens: &'a [Token],
) -> Result<(ValType, &'a [Token]), ReadError>
    ensures { Gives (λ x. (x.0, x.1.now)) result (read_grouped keyword.now tokens.now) }
{
    let rest = skip_group(keyword, tokens)?;
    let (val_type, rest) = read_val_type(rest)?;
    let rest = skip_close(rest)?;
    Ok((val_type, rest))
}

// The type of a value with its place, and what follows it.
fn read_written_type(tokens: &[Token]) -> Result<(WrittenType, &[Token]), ReadError>
    ensures { Gives (λ x. (x.0, x.1.now)) result (read_val_type tokens.now) }
{
    made!(read_val_type(tokens), val_type => WrittenType::new(val_type, tokens.len()))
}

#[tactic(auto, unfolding(crate::specs::Phrases::one_type))]
fn push_type<'a>(out: &mut Vec<WrittenType>, tokens: &'a [Token]) -> Result<&'a [Token], ReadError>
    ensures { Gives (λ rest. (out.new.items, rest.now)) result
        (with_front out.old.items (one_type tokens.now)) }
{
    let (val_type, rest) = read_written_type(tokens)?;
    out.push(val_type)?;
    Ok(rest)
}

// Pushes the types up to a `)`, and gives what follows them.
fn push_types<'a>(out: &mut Vec<WrittenType>, tokens: &'a [Token]) -> Result<&'a [Token], ReadError>
    ensures { Gives (λ rest. (out.new.items, rest.now)) result
        (with_front out.old.items (read_parts is_close one_type tokens.now)) }
{
    let mut rest = tokens;
    for _ in 0..tokens.len() {
        if is_close(rest) {
            return Ok(rest);
        }
        rest = push_type(out, rest)?;
    }
    if is_close(rest) {
        Ok(rest)
    } else {
        Err(fault(rest))
    }
}

#[tactic(auto, unfolding(crate::specs::Phrases::read_result))]
fn push_result<'a>(
    out: &mut Vec<WrittenType>,
    tokens: &'a [Token],
) -> Result<&'a [Token], ReadError>
    ensures { Gives (λ rest. (out.new.items, rest.now)) result
        (with_front out.old.items (read_result tokens.now)) }
{
    let rest = skip_group("result", tokens)?;
    let rest = push_types(out, rest)?;
    skip_close(rest)
}

/// Pushes the types of the results that are next, and gives what follows them.
#[tactic(auto, unfolding(crate::specs::Phrases::read_results))]
pub fn push_results<'a>(
    out: &mut Vec<WrittenType>,
    tokens: &'a [Token],
) -> Result<&'a [Token], ReadError>
    ensures { Gives (λ rest. (out.new.items, rest.now)) result
        (with_front out.old.items (read_results tokens.now)) }
{
    let mut rest = tokens;
    for _ in 0..tokens.len() {
        if is_past_groups("result", rest) {
            return Ok(rest);
        }
        rest = push_result(out, rest)?;
    }
    if is_past_groups("result", rest) {
        Ok(rest)
    } else {
        Err(fault(rest))
    }
}

#[tactic(auto, unfolding(crate::specs::Phrases::one_nameless))]
fn push_nameless<'a>(out: &mut Vec<Binding>, tokens: &'a [Token]) -> Result<&'a [Token], ReadError>
    ensures { Gives (λ rest. (out.new.items, rest.now)) result
        (with_front out.old.items (one_nameless tokens.now)) }
{
    let (val_type, rest) = read_written_type(tokens)?;
    out.push(Binding {
        name: None,
        val_type,
    })?;
    Ok(rest)
}

// Pushes bindings without identifiers up to a `)`, and gives what follows them.
fn push_all_nameless<'a>(
    out: &mut Vec<Binding>,
    tokens: &'a [Token],
) -> Result<&'a [Token], ReadError>
    ensures { Gives (λ rest. (out.new.items, rest.now)) result
        (with_front out.old.items (read_parts is_close one_nameless tokens.now)) }
{
    let mut rest = tokens;
    for _ in 0..tokens.len() {
        if is_close(rest) {
            return Ok(rest);
        }
        rest = push_nameless(out, rest)?;
    }
    if is_close(rest) {
        Ok(rest)
    } else {
        Err(fault(rest))
    }
}

// Pushes one binding with an identifier, or all those without one.
#[tactic(auto, unfolding(crate::specs::Phrases::read_bound))]
fn push_bound<'a>(
    alloc: Global,
    out: &mut Vec<Binding>,
    tokens: &'a [Token],
) -> Result<&'a [Token], ReadError>
    ensures { Gives (λ rest. (out.new.items, rest.now)) result
        (with_front out.old.items (read_bound tokens.now)) }
{
    if !begins_id(tokens) {
        return push_all_nameless(out, tokens);
    }
    let (val_type, rest) = read_written_type(after_id(tokens))?;
    let name = id_of(alloc, tokens)?;
    out.push(Binding { name, val_type })?;
    Ok(rest)
}

#[tactic(auto, unfolding(crate::specs::Phrases::read_group))]
fn push_group<'a>(
    alloc: Global,
    keyword: &str,
    out: &mut Vec<Binding>,
    tokens: &'a [Token],
) -> Result<&'a [Token], ReadError>
    ensures { Gives (λ rest. (out.new.items, rest.now)) result
        (with_front out.old.items (read_group keyword.now tokens.now)) }
{
    let rest = skip_group(keyword, tokens)?;
    let rest = push_bound(alloc, out, rest)?;
    skip_close(rest)
}

/// Pushes the parameters or locals, each after this keyword, and gives what follows them.
#[tactic(auto, unfolding(crate::specs::Phrases::read_bindings))]
pub fn push_bindings<'a>(
    alloc: Global,
    keyword: &str,
    out: &mut Vec<Binding>,
    tokens: &'a [Token],
) -> Result<&'a [Token], ReadError>
    ensures { Gives (λ rest. (out.new.items, rest.now)) result
        (with_front out.old.items (read_bindings keyword.now tokens.now)) }
{
    let mut rest = tokens;
    for _ in 0..tokens.len() {
        if is_past_groups(keyword, rest) {
            return Ok(rest);
        }
        rest = push_group(alloc, keyword, out, rest)?;
    }
    if is_past_groups(keyword, rest) {
        Ok(rest)
    } else {
        Err(fault(rest))
    }
}

/// How many tokens are left at the first of these types that is not the wanted one, or after all of
/// them if one is missing. `None` if they are the wanted ones.
pub fn first_other(wanted: &[ValType], written: &[WrittenType], after: usize) -> Option<usize>
    ensures { is_none result ≡ are_same_types wanted.now written.now }
{
    let mut due = wanted;
    let mut rest = written;
    while let [first, tail @ ..] = due {
        let Some((second, others)) = rest.split_first() else {
            return Some(after);
        };
        if !is_same_type(*first, second.val_type()) {
            return Some(second.left());
        }
        due = tail;
        rest = others;
    }
    match rest.first() {
        Some(other) => Some(other.left()),
        None => None,
    }
}

/// A first size and a largest one, if it is written, and what follows them.
#[tactic(auto, unfolding(crate::specs::Phrases::read_limits))]
pub fn read_limits(tokens: &[Token]) -> Result<(Limits, &[Token]), ReadError>
    ensures { Gives (λ x. (x.0, x.1.now)) result (read_limits tokens.now) }
{
    let (min, rest) = read_number(tokens)?;
    if !begins_index(rest) {
        return Ok((Limits { min, max: None }, rest));
    }
    let (max, rest) = read_number(rest)?;
    Ok((
        Limits {
            min,
            max: Some(max),
        },
        rest,
    ))
}
