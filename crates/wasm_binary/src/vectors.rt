//! One reader of lists, for whatever items (5.1.3).

ghost use Rattle.std.specs.Prelude.{◌≡◌, ◌≤◌, ℕ, List, Some, true, length, IsErrAnd};
ghost use Rattle.wasm_binary.specs.declared.fault.Fault.TheVariants.{Bad};
ghost use Rattle.wasm_binary.specs.Inside.Reading.{CountsMore, Gives, Read, fault_of, read_items, read_vector, read_bounded, read_u32};

use crate::fault::{Fault, Limited, Number, ReadError, Spot, What};
use crate::numbers::read_number;
use std::alloc::Global;

/// What bytes encode.
pub trait Decode {
    // What bytes are read as, and the rest.
    ghost reading: { List ℕ → Read Self };

    /// Reads one from the front of the bytes, and gives the rest.
    fn read(alloc: Global, bytes: &[u8]) -> Result<(Self, &[u8]), ReadError>
        ensures { Gives (λ x. (x.0, x.1.now)) result (reading bytes.now) };
}

// Memory grows item by item: a count of items that are not there takes none.
fn read_items<T: Decode + Drop>(
    alloc: Global,
    count: u32,
    bytes: &[u8],
) -> Result<(Vec<T>, &[u8]), ReadError>
    ensures { Gives (λ x. (x.0.items, x.1.now)) result (read_items T.reading count bytes.now) }
{
    let mut items = Vec::new(alloc);
    let mut rest = bytes;
    for _ in 0..count {
        let (item, next) = T::read(alloc, rest)?;
        items.push(item)?;
        rest = next;
    }
    Ok((items, rest))
}

/// A vector, and the rest. Its count is this number.
#[tactic(auto, unfolding(crate::specs::Inside::Reading::read_vector))]
pub fn read_vector<T: Decode + Drop>(
    count: Number,
    alloc: Global,
    bytes: &[u8],
) -> Result<(Vec<T>, &[u8]), ReadError>
    ensures { Gives (λ x. (x.0.items, x.1.now)) result (read_vector T.reading bytes.now) }
{
    let (count, rest) = read_number(count, bytes)?;
    read_items(alloc, count, rest)
}

/// A vector of indices, and the rest. A count of more of them than there are bytes left is told before
/// memory is taken.
#[tactic(auto, unfolding(crate::specs::Inside::Reading::read_vector))]
pub fn read_indices(alloc: Global, bytes: &[u8]) -> Result<(Vec<u32>, &[u8]), ReadError>
    ensures value { Gives (λ x. (x.0.items, x.1.now)) result (read_vector read_u32 bytes.now) }
    ensures count { CountsMore bytes.now → IsErrAnd result (λ e. fault_of e ≡ Some Bad) }
{
    let (count, rest) = read_number(Number::Elements, bytes)?;
    let left = rest.len();
    if left < count as usize {
        let spot = Spot::at(bytes, What::Indices { count, left });
        return Err(ReadError::Fault(Fault::Bad, spot));
    }
    match read_items(alloc, count, rest) {
        Ok(read) => Ok(read),
        Err(error) => Err(error.named(What::Number(Number::Index))),
    }
}

/// A vector, and the rest. Its count, together with this many before it, may not be over the limit on
/// what is in it.
#[tactic(auto, unfolding(crate::specs::Inside::Reading::read_bounded))]
pub fn read_bounded<T: Decode + Drop>(
    what: Limited,
    alloc: Global,
    most: usize,
    before: usize,
    bytes: &[u8],
) -> Result<(Vec<T>, &[u8]), ReadError>
    ensures { Gives (λ x. (x.0.items, x.1.now)) result
        (read_bounded true most before T.reading bytes.now) }
{
    let (count, rest) = read_number(Number::Limited(what), bytes)?;
    if before > most || count as usize > most - before {
        let found = (before as u64).saturating_add(u64::from(count));
        let spot = Spot::at(bytes, What::Over { what, found });
        return Err(ReadError::Fault(Fault::Over, spot));
    }
    read_items(alloc, count, rest)
}

/// The index of a type (5.5.1).
impl Decode for u32 {
    ghost reading = { read_u32 };

    fn read(_alloc: Global, bytes: &[u8]) -> Result<(u32, &[u8]), ReadError> {
        read_number(Number::TypeIndex, bytes)
    }
}
