//! Instructions with bodies, and sequences of instructions (6.5.2, 6.5.8).

ghost use Rattle.std.specs.Prelude.{◌≡◌, [], ◌∷◌, map, IfOk, codes, Ok};
ghost use Rattle.wasm_ast.specs.View.{op_of};
ghost use Rattle.wasm_ast.specs.Syntax.{ops_of};
ghost use Rattle.text_assembler.specs.Inside.Answers.{Gives, with_front};
ghost use Rattle.text_assembler.specs.Inside.Steps.{made};
ghost use Rattle.text_assembler.specs.Phrases.{after_id, id_of};
ghost use Rattle.text_assembler.specs.Instructions.{read_block_type, skip_label, skip_end, read_enclosed, read_else, read_if, opens_block, read_nested, read_simple, read_op, one_op, is_end, read_body};
ghost use Rattle.text_assembler.specs.Inside.Bodies.{inner_of};

use crate::fault::ReadError;
use crate::ids::{Ids, is_id, is_named};
use crate::keyword::keyword_of;
use crate::labels::Labels;
use crate::phrases::{
    after_id, begins_group, begins_word, fault, id_of, is_word, read_grouped, skip_word, take_word,
};
use crate::plain::read_immediates;
use crate::scopes::Scopes;
use crate::token::{Lexeme, Token};
use crate::uses::read_nameless_use;
use std::alloc::Global;
use std::boxed::Box;
use wasm_ast::{Arms, BlockType, Body, Bytes, Instr};

// The type of a block, and what follows it.
#[tactic(auto, unfolding(crate::specs::Instructions::read_block_type))]
fn read_block_type<'a>(
    alloc: Global,
    scopes: &Scopes,
    tokens: &'a [Token],
) -> Result<(BlockType, &'a [Token]), ReadError>
    ensures { Gives (λ x. (x.0, x.1.now)) result (read_block_type scopes.now tokens.now) }
{
    if begins_group("type", tokens) {
        let (index, rest) = read_nameless_use(alloc, scopes, tokens)?;
        return Ok((BlockType::Index(index), rest));
    }
    if !begins_group("result", tokens) {
        return Ok((BlockType::Empty, tokens));
    }
    made!(read_grouped("result", tokens), val_type => BlockType::One(val_type))
}

// The label and the type of a block, and what follows them.
fn read_opening<'a>(
    alloc: Global,
    scopes: &Scopes,
    tokens: &'a [Token],
) -> Result<(Option<Bytes>, BlockType, &'a [Token]), ReadError>
    ensures label { IfOk result (λ x. x.0 ≡ id_of tokens.now) }
    ensures value { Gives (λ x. (x.1, x.2.now)) result
        (read_block_type scopes.now (after_id tokens.now)) }
{
    let (block_type, rest) = read_block_type(alloc, scopes, after_id(tokens))?;
    Ok((id_of(alloc, tokens)?, block_type, rest))
}

// What follows an identifier, which has to be this one, or all of the tokens if none is next.
#[tactic(auto, unfolding(crate::specs::Instructions::skip_label))]
fn skip_label<'a>(label: &Option<Bytes>, tokens: &'a [Token]) -> Result<&'a [Token], ReadError>
    ensures { Gives (λ x. x.now) result (skip_label label.now tokens.now) }
{
    let Some((first, rest)) = tokens.split_first() else {
        return Ok(tokens);
    };
    match first.lexeme() {
        Lexeme::Word(word) => {
            if !is_id(word.as_slice()) {
                Ok(tokens)
            } else if is_named(word.as_slice(), label) {
                Ok(rest)
            } else {
                Err(fault(tokens))
            }
        }
        _ => Ok(tokens),
    }
}

#[tactic(auto, unfolding(crate::specs::Instructions::skip_end))]
fn skip_end<'a>(label: &Option<Bytes>, tokens: &'a [Token]) -> Result<&'a [Token], ReadError>
    ensures { Gives (λ x. x.now) result (skip_end label.now tokens.now) }
{
    let rest = skip_word("end", tokens)?;
    skip_label(label, rest)
}

fn opens_block(word: &[u8]) -> bool
    ensures { result ≡ opens_block word.now }
{
    is_word(word, "block") || is_word(word, "loop") || is_word(word, "if")
}

// Whether instructions end here.
#[tactic(auto, unfolding(crate::specs::Instructions::is_end))]
fn is_end(tokens: &[Token]) -> bool
    ensures { result ≡ is_end tokens.now }
{
    let Some((first, _)) = tokens.split_first() else {
        return false;
    };
    match first.lexeme() {
        Lexeme::Close => true,
        Lexeme::Word(word) => {
            is_word(word.as_slice(), "end") || is_word(word.as_slice(), "else")
        }
        _ => false,
    }
}

// An instruction without a body, whose word this is, and what follows it.
#[tactic(auto, unfolding(crate::specs::Instructions::read_simple))]
fn read_simple<'a>(
    alloc: Global,
    scopes: &Scopes,
    locals: &Ids,
    labels: &Labels,
    word: &[u8],
    tokens: &'a [Token],
) -> Result<(Instr, &'a [Token]), ReadError>
    ensures { Gives (λ x. (op_of x.0, x.1.now)) result
        (read_simple scopes.now locals.now labels.now word.now tokens.now) }
{
    let Some(keyword) = keyword_of(word) else {
        return Err(ReadError::Malformed {
            left: tokens.len() + 1,
        });
    };
    let read = read_immediates(alloc, scopes, locals, labels, keyword, tokens);
    made!(read, simple => Instr::Simple(simple))
}

// A body inside a block with this label, and what follows it.
#[cycle(read)]
fn read_labelled<'a>(
    alloc: Global,
    scopes: &Scopes,
    locals: &Ids,
    labels: &mut Labels,
    more: usize,
    label: &Option<Bytes>,
    tokens: &'a [Token],
) -> Result<(Body, &'a [Token]), ReadError>
    ensures value { Gives (λ x. (x.0, x.1.now)) result
        (made ops_of (read_body scopes.now locals.now more (label.now ∷ labels.old) tokens.now)) }
    ensures kept { IfOk result (λ _. labels.new ≡ labels.old) }
{
    labels.enter(alloc, label)?;
    let mut body = Vec::new(alloc);
    let rest = push_body(alloc, scopes, locals, labels, more, &mut body, tokens)?;
    labels.leave();
    Ok((Body::new(body), rest))
}

// The else arm of an `if` with this label, and what follows it.
#[cycle(read)]
#[tactic(auto, unfolding(crate::specs::Instructions::read_else))]
fn read_else<'a>(
    alloc: Global,
    scopes: &Scopes,
    locals: &Ids,
    labels: &mut Labels,
    more: usize,
    label: &Option<Bytes>,
    tokens: &'a [Token],
) -> Result<(Body, &'a [Token]), ReadError>
    ensures value { Gives (λ x. (x.0, x.1.now)) result
        (made ops_of (read_else (read_body scopes.now locals.now more) label.now
        (label.now ∷ labels.old) tokens.now)) }
    ensures kept { IfOk result (λ _. labels.new ≡ labels.old) }
{
    if !begins_word("else", tokens) {
        return Ok((Body::new(Vec::new(alloc)), tokens));
    }
    let rest = skip_word("else", tokens)?;
    let rest = skip_label(label, rest)?;
    read_labelled(alloc, scopes, locals, labels, more, label, rest)
}

// The type and the arms of an `if`, and what follows it.
#[cycle(read)]
#[tactic(auto, unfolding(crate::specs::Instructions::read_if))]
fn read_if<'a>(
    alloc: Global,
    scopes: &Scopes,
    locals: &Ids,
    labels: &mut Labels,
    more: usize,
    tokens: &'a [Token],
) -> Result<(Instr, &'a [Token]), ReadError>
    ensures value { Gives (λ x. (op_of x.0, x.1.now)) result
        (read_if scopes.now (read_body scopes.now locals.now more) labels.old tokens.now) }
    ensures kept { IfOk result (λ _. labels.new ≡ labels.old) }
{
    let (label, block_type, rest) = read_opening(alloc, scopes, tokens)?;
    let (then_arm, rest) = read_labelled(alloc, scopes, locals, labels, more, &label, rest)?;
    let (else_arm, rest) = read_else(alloc, scopes, locals, labels, more, &label, rest)?;
    let rest = skip_end(&label, rest)?;
    let arms = Box::new(alloc, Arms { then_arm, else_arm })?;
    Ok((Instr::If(block_type, arms), rest))
}

// The type, the body and the end of a block or a loop, and what follows them.
#[cycle(read)]
#[tactic(auto, unfolding(crate::specs::Instructions::read_enclosed))]
fn read_enclosed<'a>(
    alloc: Global,
    scopes: &Scopes,
    locals: &Ids,
    labels: &mut Labels,
    more: usize,
    tokens: &'a [Token],
) -> Result<((BlockType, Body), &'a [Token]), ReadError>
    ensures value { Gives (λ x. ((x.0.0, x.0.1), x.1.now)) result
        (read_enclosed scopes.now (read_body scopes.now locals.now more) labels.old tokens.now) }
    ensures kept { IfOk result (λ _. labels.new ≡ labels.old) }
{
    let (label, block_type, rest) = read_opening(alloc, scopes, tokens)?;
    let (body, rest) = read_labelled(alloc, scopes, locals, labels, more, &label, rest)?;
    let rest = skip_end(&label, rest)?;
    Ok(((block_type, body), rest))
}

// What follows this word of an instruction that has bodies, and what follows that. In the bodies
// this many more blocks may be open.
#[cycle(read)]
#[tactic(auto, unfolding(crate::specs::Instructions::read_nested))]
fn read_nested<'a>(
    alloc: Global,
    scopes: &Scopes,
    locals: &Ids,
    labels: &mut Labels,
    more: usize,
    word: &[u8],
    tokens: &'a [Token],
) -> Result<(Instr, &'a [Token]), ReadError>
    ensures value { Gives (λ x. (op_of x.0, x.1.now)) result
        (read_nested scopes.now (read_body scopes.now locals.now more) word.now labels.old
        tokens.now) }
    ensures kept { IfOk result (λ _. labels.new ≡ labels.old) }
{
    if is_word(word, "if") {
        return read_if(alloc, scopes, locals, labels, more, tokens);
    }
    let ((block_type, body), rest) = read_enclosed(alloc, scopes, locals, labels, more, tokens)?;
    let body = Box::new(alloc, body)?;
    let instr = if is_word(word, "block") {
        Instr::Block(block_type, body)
    } else {
        Instr::Loop(block_type, body)
    };
    Ok((instr, rest))
}

// An instruction, and what follows it. This many more blocks may be open.
#[cycle(read)]
#[tactic(auto, unfolding(crate::specs::Instructions::read_op))]
fn read_instr<'a>(
    alloc: Global,
    scopes: &Scopes,
    locals: &Ids,
    labels: &mut Labels,
    more: usize,
    tokens: &'a [Token],
) -> Result<(Instr, &'a [Token]), ReadError>
    ensures value { Gives (λ x. (op_of x.0, x.1.now)) result
        (read_op scopes.now locals.now (inner_of scopes.now locals.now more) labels.old
        tokens.now) }
    ensures kept { IfOk result (λ _. labels.new ≡ labels.old) }
{
    let (word, rest) = take_word(tokens)?;
    if opens_block(word) {
        if more == 0 {
            return Err(ReadError::TooDeep);
        }
        return read_nested(alloc, scopes, locals, labels, more - 1, word, rest);
    }
    read_simple(alloc, scopes, locals, labels, word, rest)
}

// Pushes an instruction, and gives what follows it.
#[cycle(read)]
#[tactic(auto, unfolding(crate::specs::Instructions::one_op))]
fn push_instr<'a>(
    alloc: Global,
    scopes: &Scopes,
    locals: &Ids,
    labels: &mut Labels,
    more: usize,
    out: &mut Vec<Instr>,
    tokens: &'a [Token],
) -> Result<&'a [Token], ReadError>
    ensures value { Gives (λ rest. (map op_of out.new.items, rest.now)) result
        (with_front (map op_of out.old.items)
        (one_op scopes.now locals.now (inner_of scopes.now locals.now more) labels.old
        tokens.now)) }
    ensures kept { IfOk result (λ _. labels.new ≡ labels.old) }
{
    let (instr, rest) = read_instr(alloc, scopes, locals, labels, more, tokens)?;
    out.push(instr)?;
    Ok(rest)
}

/// Pushes instructions up to their end, and gives what follows them: their end. This many more
/// blocks may be open, so recursion is no deeper than that.
#[cycle(read)]
pub fn push_body<'a>(
    alloc: Global,
    scopes: &Scopes,
    locals: &Ids,
    labels: &mut Labels,
    more: usize,
    out: &mut Vec<Instr>,
    tokens: &'a [Token],
) -> Result<&'a [Token], ReadError>
    ensures value { Gives (λ rest. (map op_of out.new.items, rest.now)) result
        (with_front (map op_of out.old.items)
        (read_body scopes.now locals.now more labels.old tokens.now)) }
    ensures kept { IfOk result (λ _. labels.new ≡ labels.old) }
{
    let mut rest = tokens;
    for _ in 0..tokens.len() {
        if is_end(rest) {
            return Ok(rest);
        }
        rest = push_instr(alloc, scopes, locals, labels, more, out, rest)?;
    }
    if is_end(rest) {
        Ok(rest)
    } else {
        Err(fault(rest))
    }
}
