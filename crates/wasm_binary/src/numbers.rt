//! Readers of bytes, of numbers (5.2.2) and of parts of the input.

ghost use Rattle.std.specs.Prelude.{◌≡◌, ◌≢◌, ℕ, ◌<◌, ◌≤◌, ◌^◌, Bool, true, false, length, take, drop, Err, MatchOption, IfOk};
ghost use Rattle.wasm_binary.specs.declared.fault.ReadError.TheVariants as errors;
ghost use Rattle.wasm_binary.specs.Inside.Reading.{Gives, read_byte, begins_with, skip_byte, read_byte_vector, read_unsigned, read_last_unsigned, read_last_signed, read_signed, read_u32, skip_exact};

use crate::fault::{Fault, Number, ReadError, Spot, Wanted, What, Whole, cut, longer};

/// The first byte, which is to be this, and the rest.
#[tactic(auto, unfolding(crate::specs::Inside::Reading::read_byte))]
pub fn read_byte(what: What, bytes: &[u8]) -> Result<(u8, &[u8]), ReadError>
    ensures value { Gives (λ x. (x.0, x.1.now)) result (read_byte bytes.now) }
    ensures small { IfOk result (λ x. x.0 < 2 ^ 8) }
    ensures no_memory { result ≢ Err errors.Memory }
{
    match bytes {
        [] => Err(ReadError::Fault(Fault::Bad, Spot::at(bytes, what))),
        [first, rest @ ..] => Ok((*first, rest)),
    }
}

/// The rest after this byte, if it is the first.
#[tactic(auto, unfolding(crate::specs::Inside::Reading::begins_with))]
pub fn strip_byte(byte: u8, bytes: &[u8]) -> Option<&[u8]>
    ensures { MatchOption result (begins_with byte bytes.now ≡ false)
        (λ rest. (begins_with byte bytes.now ≡ true) × (rest.now ≡ drop 1 bytes.now)) }
{
    match bytes {
        [first, rest @ ..] if *first == byte => Some(rest),
        _ => None,
    }
}

/// The rest after this byte, which has to be the first; what is wrong if it is not.
#[tactic(auto, unfolding(crate::specs::Inside::Reading::skip_byte))]
pub fn skip_byte(byte: u8, what: What, bytes: &[u8]) -> Result<&[u8], ReadError>
    ensures { Gives (λ x. x.now) result (skip_byte byte bytes.now) }
{
    match strip_byte(byte, bytes) {
        Some(rest) => Ok(rest),
        None => Err(ReadError::Fault(Fault::Bad, Spot::at(bytes, what))),
    }
}

// What a number's bytes are, and the place of one that is none. Both are told by who reads the number and
// knows what it is.
const BYTE: What = What::Wanted(Wanted::Byte);

const NO_PLACE: Spot = Spot {
    left: 0,
    ended: false,
    what: BYTE,
};

// An unsigned number of this many bits, and the rest.
#[tactic(auto, unfolding(crate::specs::Inside::Reading::read_unsigned, crate::specs::Inside::Reading::read_byte))]
fn read_unsigned(bits: u32, bytes: &[u8]) -> Result<(u64, &[u8]), ReadError>
    requires { (0 < bits) × (bits ≤ 64) }
    ensures value { Gives (λ x. (x.0, x.1.now)) result (read_unsigned bits bytes.now) }
    ensures small { IfOk result (λ x. x.0 < 2 ^ bits) }
    ensures no_memory { result ≢ Err errors.Memory }
{
    let (first, rest) = read_byte(BYTE, bytes)?;
    if first < 128 {
        let last = read_last_unsigned(bits, first)?;
        return Ok((last, rest));
    }
    if bits <= 7 {
        return Err(ReadError::Fault(Fault::Bad, NO_PLACE));
    }
    let (high, rest) = read_unsigned(bits - 7, rest)?;
    Ok((128 * high + (u64::from(first) - 128), rest))
}

#[tactic(auto, using(crate::proofs::Powers::small), unfolding(crate::specs::Inside::Reading::read_last_unsigned))]
fn read_last_unsigned(bits: u32, byte: u8) -> Result<u64, ReadError>
    requires { byte < 128 }
    ensures value { Gives (λ x. x) result (read_last_unsigned bits byte) }
    ensures small { IfOk result (λ x. x < 2 ^ bits) }
    ensures no_memory { result ≢ Err errors.Memory }
{
    let last = u64::from(byte);
    if bits >= 7 {
        return Ok(last);
    }
    if last < 1 << bits {
        Ok(last)
    } else {
        Err(ReadError::Fault(Fault::Bad, NO_PLACE))
    }
}

// A signed number of this many bits as its two's complement in them, and the rest.
#[tactic(auto, unfolding(crate::specs::Inside::Reading::read_signed, crate::specs::Inside::Reading::read_byte))]
fn read_signed(bits: u32, bytes: &[u8]) -> Result<(u64, &[u8]), ReadError>
    requires { (0 < bits) × (bits ≤ 64) }
    ensures value { Gives (λ x. (x.0, x.1.now)) result (read_signed bits bytes.now) }
    ensures small { IfOk result (λ x. x.0 < 2 ^ bits) }
{
    let (first, rest) = read_byte(BYTE, bytes)?;
    if first < 128 {
        let last = read_last_signed(bits, first)?;
        return Ok((last, rest));
    }
    if bits <= 7 {
        return Err(ReadError::Fault(Fault::Bad, NO_PLACE));
    }
    let (high, rest) = read_signed(bits - 7, rest)?;
    Ok((128 * high + (u64::from(first) - 128), rest))
}

#[tactic(auto, unfolding(crate::specs::Inside::Reading::read_last_signed))]
fn read_last_signed(bits: u32, byte: u8) -> Result<u64, ReadError>
    requires { (0 < bits) × (bits ≤ 64) × (byte < 128) }
    ensures value { Gives (λ x. x) result (read_last_signed bits byte) }
    ensures small { IfOk result (λ x. x < 2 ^ bits) }
{
    let all = 1u128 << bits;
    let byte = u128::from(byte);
    if byte < 64 {
        if 2 * byte < all {
            Ok(byte as u64)
        } else {
            Err(ReadError::Fault(Fault::Bad, NO_PLACE))
        }
    } else if 255 < 2 * byte + all {
        Ok((all - (128 - byte)) as u64)
    } else {
        Err(ReadError::Fault(Fault::Bad, NO_PLACE))
    }
}

/// An unsigned number of 32 bits, and the rest. Most take one byte.
#[tactic(auto, unfolding(crate::specs::Inside::Reading::read_u32, crate::specs::Inside::Reading::read_unsigned, crate::specs::Inside::Reading::read_last_unsigned))]
pub fn read_u32(bytes: &[u8]) -> Result<(u32, &[u8]), ReadError>
    ensures value { Gives (λ x. (x.0, x.1.now)) result (read_u32 bytes.now) }
    ensures no_memory { result ≢ Err errors.Memory }
{
    if let [first, rest @ ..] = bytes {
        if *first < 128 {
            return Ok((u32::from(*first), rest));
        }
    }
    let (n, rest) = read_unsigned(32, bytes)?;
    Ok((n as u32, rest))
}

/// This number of 32 bits, and the rest.
#[inline(always)]
pub fn read_number(number: Number, bytes: &[u8]) -> Result<(u32, &[u8]), ReadError>
    ensures value { Gives (λ x. (x.0, x.1.now)) result (read_u32 bytes.now) }
    ensures no_memory { result ≢ Err errors.Memory }
{
    match read_u32(bytes) {
        Ok(read) => Ok(read),
        Err(error) => Err(error.at(bytes, What::Number(number))),
    }
}

// The bits of a signed number of 32 bits from its second, its third or its fourth byte on, and the rest.
// They are functions of their own, since recursion passes each result through memory.
#[tactic(auto, unfolding(crate::specs::Inside::Reading::read_signed, crate::specs::Inside::Reading::read_byte))]
fn read_s11(bytes: &[u8]) -> Result<(u64, &[u8]), ReadError>
    ensures value { Gives (λ x. (x.0, x.1.now)) result (read_signed 11 bytes.now) }
    ensures small { IfOk result (λ x. x.0 < 2 ^ 11) }
{
    let (first, rest) = read_byte(BYTE, bytes)?;
    if first < 128 {
        let last = read_last_signed(11, first)?;
        return Ok((last, rest));
    }
    let (high, rest) = read_signed(4, rest)?;
    Ok((128 * high + (u64::from(first) - 128), rest))
}

#[tactic(auto, unfolding(crate::specs::Inside::Reading::read_signed, crate::specs::Inside::Reading::read_byte))]
fn read_s18(bytes: &[u8]) -> Result<(u64, &[u8]), ReadError>
    ensures value { Gives (λ x. (x.0, x.1.now)) result (read_signed 18 bytes.now) }
    ensures small { IfOk result (λ x. x.0 < 2 ^ 18) }
{
    let (first, rest) = read_byte(BYTE, bytes)?;
    if first < 128 {
        let last = read_last_signed(18, first)?;
        return Ok((last, rest));
    }
    let (high, rest) = read_s11(rest)?;
    Ok((128 * high + (u64::from(first) - 128), rest))
}

#[tactic(auto, unfolding(crate::specs::Inside::Reading::read_signed, crate::specs::Inside::Reading::read_byte))]
fn read_s25(bytes: &[u8]) -> Result<(u64, &[u8]), ReadError>
    ensures value { Gives (λ x. (x.0, x.1.now)) result (read_signed 25 bytes.now) }
    ensures small { IfOk result (λ x. x.0 < 2 ^ 25) }
{
    let (first, rest) = read_byte(BYTE, bytes)?;
    if first < 128 {
        let last = read_last_signed(25, first)?;
        return Ok((last, rest));
    }
    let (high, rest) = read_s18(rest)?;
    Ok((128 * high + (u64::from(first) - 128), rest))
}

/// A signed number of 32 bits as its two's complement, and the rest.
#[tactic(auto, unfolding(crate::specs::Inside::Reading::read_signed, crate::specs::Inside::Reading::read_byte))]
pub fn read_s32(bytes: &[u8]) -> Result<(u32, &[u8]), ReadError>
    ensures { Gives (λ x. (x.0, x.1.now)) result (read_signed 32 bytes.now) }
{
    let (first, rest) = read_byte(BYTE, bytes)?;
    if first < 128 {
        let last = read_last_signed(32, first)?;
        return Ok((last as u32, rest));
    }
    let (high, rest) = read_s25(rest)?;
    Ok(((128 * high + (u64::from(first) - 128)) as u32, rest))
}

/// A signed number of 33 bits as its two's complement, and the rest.
pub fn read_s33(bytes: &[u8]) -> Result<(u64, &[u8]), ReadError>
    ensures { Gives (λ x. (x.0, x.1.now)) result (read_signed 33 bytes.now) }
{
    read_signed(33, bytes)
}

/// A signed number of 64 bits as its two's complement, and the rest.
pub fn read_s64(bytes: &[u8]) -> Result<(u64, &[u8]), ReadError>
    ensures { Gives (λ x. (x.0, x.1.now)) result (read_signed 64 bytes.now) }
{
    read_signed(64, bytes)
}

/// This number of bytes from the front, or all if there are fewer.
pub fn at_most(size: u32, bytes: &[u8]) -> &[u8]
    ensures { result.now ≡ take size bytes.now }
{
    let size = size as usize;
    if bytes.len() < size {
        bytes
    } else {
        bytes.split_at(size).0
    }
}

/// The bytes after a part of this size, of which nothing may be left.
#[tactic(auto, unfolding(crate::specs::Inside::Reading::skip_exact))]
pub fn skip_exact<'a>(
    whole: Whole,
    size: u32,
    left: &[u8],
    bytes: &'a [u8],
) -> Result<&'a [u8], ReadError>
    ensures { Gives (λ x. x.now) result (skip_exact size left.now bytes.now) }
{
    if !left.is_empty() {
        let spot = longer(whole, size, left, bytes);
        return Err(ReadError::Fault(Fault::Bad, spot));
    }
    if bytes.len() < size as usize {
        return Err(ReadError::Fault(Fault::Bad, cut(whole, size, bytes)));
    }
    Ok(bytes.split_at(size as usize).1)
}

/// The items of a vector of bytes, and the rest. The vector is to be this.
#[tactic(auto, unfolding(crate::specs::Inside::Reading::read_byte_vector, crate::specs::Inside::Reading::read_bytes))]
pub fn read_byte_vector(wanted: Wanted, bytes: &[u8]) -> Result<(&[u8], &[u8]), ReadError>
    ensures { Gives (λ x. (x.0.now, x.1.now)) result (read_byte_vector bytes.now) }
{
    let (size, rest) = match read_u32(bytes) {
        Ok(read) => read,
        Err(error) => return Err(error.at(bytes, What::Wanted(wanted))),
    };
    let size = size as usize;
    if rest.len() < size {
        let spot = Spot::at(bytes, What::Wanted(wanted));
        return Err(ReadError::Fault(Fault::Bad, spot));
    }
    Ok(rest.split_at(size))
}
