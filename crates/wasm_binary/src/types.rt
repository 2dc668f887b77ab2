//! Readers of names (5.2.4) and types (5.3).

ghost use Rattle.std.specs.Prelude.{◌≡◌, ◌≤◌, ◌<◌, ◌^◌, true, length, take};
ghost use Rattle.wasm_binary.specs.Inside.Reading.{Gives, read_vector, read_name, val_type_of, read_val_type, read_func_type, read_block_index, read_block_type, read_min, read_limits};

use crate::fault::{Fault, Limited, Number, ReadError, Spot, Wanted, What};
use crate::numbers::{read_byte, read_byte_vector, read_number, read_s33, skip_byte, strip_byte};
use crate::opcodes::{EMPTY, FUNC_TYPE, I32, I64, MIN, MIN_MAX};
use crate::vectors::{Decode, read_bounded, read_vector};
use std::alloc::Global;
use wasm_ast::{BlockType, FuncType, Limits, MAX_RESULTS, Sequence, ValType};

/// A name, and the rest.
#[tactic(auto, unfolding(crate::specs::Inside::Reading::read_name), using(crate::proofs::Utf8::is_text, crate::proofs::Utf8::no_text))]
pub fn read_name(bytes: &[u8]) -> Result<(&str, &[u8]), ReadError>
    ensures { Gives (λ x. (x.0.now, x.1.now)) result (read_name bytes.now) }
{
    let (front, rest) = read_byte_vector(Wanted::Name, bytes)?;
    match str::from_utf8(front) {
        Ok(name) => Ok((name, rest)),
        Err(_) => {
            let spot = Spot::at(bytes, What::Wanted(Wanted::Name));
            Err(ReadError::Fault(Fault::Bad, spot))
        }
    }
}

/// The type of a value, and the rest.
#[tactic(auto, unfolding(crate::specs::Inside::Reading::read_val_type, crate::specs::Inside::Reading::val_type_of))]
pub fn read_val_type(bytes: &[u8]) -> Result<(ValType, &[u8]), ReadError>
    ensures { Gives (λ x. (x.0, x.1.now)) result (read_val_type bytes.now) }
{
    let (first, rest) = read_byte(What::ValType, bytes)?;
    match first {
        I32 => Ok((ValType::I32, rest)),
        I64 => Ok((ValType::I64, rest)),
        _ => Err(ReadError::Fault(Fault::Bad, Spot::at(bytes, What::ValType))),
    }
}

impl Decode for ValType {
    ghost reading = { read_val_type };

    fn read(_alloc: Global, bytes: &[u8]) -> Result<(ValType, &[u8]), ReadError> {
        read_val_type(bytes)
    }
}

impl Decode for FuncType {
    ghost reading = { read_func_type true };

    #[tactic(auto, unfolding(crate::specs::Inside::Reading::read_func_type))]
    fn read(alloc: Global, bytes: &[u8]) -> Result<(FuncType, &[u8]), ReadError> {
        let Some(rest) = strip_byte(FUNC_TYPE, bytes) else {
            let spot = Spot::at(bytes, What::Wanted(Wanted::FuncType));
            return Err(ReadError::Fault(Fault::Bad, spot));
        };
        let (params, rest) = read_vector(Number::Params, alloc, rest)?;
        let (results, rest) = read_bounded(Limited::Results, alloc, MAX_RESULTS, 0, rest)?;
        let params = Sequence::new(params);
        let results = Sequence::new(results);
        Ok((FuncType { params, results }, rest))
    }
}

const BLOCK_TYPE: What = What::Wanted(Wanted::BlockType);

// The type of a block that is the index of a type, and the rest.
#[tactic(auto, unfolding(crate::specs::Inside::Reading::read_block_index))]
fn read_block_index(bytes: &[u8]) -> Result<(BlockType, &[u8]), ReadError>
    ensures { Gives (λ x. (x.0, x.1.now)) result (read_block_index bytes.now) }
{
    let (index, rest) = match read_s33(bytes) {
        Ok(read) => read,
        Err(error) => return Err(error.at(bytes, BLOCK_TYPE)),
    };
    if index < 1 << 32 {
        Ok((BlockType::Index(index as u32), rest))
    } else {
        Err(ReadError::Fault(Fault::Bad, Spot::at(bytes, BLOCK_TYPE)))
    }
}

/// The type of a block (5.4.1; by index Core 2.0, 5.4.1), and the rest. No index begins with one of the
/// three bytes that are tested first, since a number of that one byte is negative.
#[tactic(auto, unfolding(crate::specs::Inside::Reading::read_block_type))]
pub fn read_block_type(bytes: &[u8]) -> Result<(BlockType, &[u8]), ReadError>
    ensures { Gives (λ x. (x.0, x.1.now)) result (read_block_type bytes.now) }
{
    if let Some(rest) = strip_byte(EMPTY, bytes) {
        return Ok((BlockType::Empty, rest));
    }
    if let Some(rest) = strip_byte(I32, bytes) {
        return Ok((BlockType::One(ValType::I32), rest));
    }
    if let Some(rest) = strip_byte(I64, bytes) {
        return Ok((BlockType::One(ValType::I64), rest));
    }
    read_block_index(bytes)
}

// A size that may not be over the limit, and the rest.
#[tactic(auto, unfolding(crate::specs::Inside::Reading::read_min))]
fn read_min(what: Limited, most: u32, bytes: &[u8]) -> Result<(u32, &[u8]), ReadError>
    ensures { Gives (λ x. (x.0, x.1.now)) result (read_min true most bytes.now) }
{
    let (min, rest) = read_number(Number::Limited(what), bytes)?;
    if min > most {
        let found = u64::from(min);
        let spot = Spot::at(bytes, What::Over { what, found });
        return Err(ReadError::Fault(Fault::Over, spot));
    }
    Ok((min, rest))
}

/// Limits (5.3.4) whose first size, which is this, may not be over this limit, and the rest.
#[tactic(auto, unfolding(crate::specs::Inside::Reading::read_limits))]
pub fn read_limits(what: Limited, most: u32, bytes: &[u8]) -> Result<(Limits, &[u8]), ReadError>
    ensures { Gives (λ x. (x.0, x.1.now)) result (read_limits true most bytes.now) }
{
    if let Some(rest) = strip_byte(MIN, bytes) {
        let (min, rest) = read_min(what, most, rest)?;
        return Ok((Limits { min, max: None }, rest));
    }
    let rest = skip_byte(MIN_MAX, What::Wanted(Wanted::Limits), bytes)?;
    let (min, rest) = read_min(what, most, rest)?;
    let (max, rest) = read_number(Number::GreatestSize, rest)?;
    Ok((
        Limits {
            min,
            max: Some(max),
        },
        rest,
    ))
}
