//! Words in a list of bytes, the lowest byte first (4.3.1). Each function is one access in the machine's
//! code.

ghost use Rattle.std.specs.Prelude.{◌≡◌, ◌+◌, ◌*◌, ◌<◌, ◌≤◌, ◌^◌, ◌++◌, length, take, drop};
ghost use Rattle.std.specs.Mem.Slots.{slots_items, slots_len, SamePlaces};
ghost use Rattle.linear_memory.specs.Memory.{byte_count, little_endian, low_bytes};
ghost use Rattle.linear_memory.specs.Inside.Fronts.{HasFront, KeepsFronts};

use crate::width::Width;
use core::slots::Slots;

// A load reads bytes that are written.

#[inline(always)]
fn load_2(row: &Slots<u8>, at: usize) -> u16
    requires { HasFront row.now (at + 2) }
    ensures { result ≡ little_endian (take 2 (drop at (slots_items row.now))) }
{
    u16::from_le_bytes([*row.get(at), *row.get(at + 1)])
}

#[inline(always)]
fn load_4(row: &Slots<u8>, at: usize) -> u32
    requires { HasFront row.now (at + 4) }
    ensures { result ≡ little_endian (take 4 (drop at (slots_items row.now))) }
{
    u32::from_le_bytes([
        *row.get(at),
        *row.get(at + 1),
        *row.get(at + 2),
        *row.get(at + 3),
    ])
}

#[inline(always)]
fn load_8(row: &Slots<u8>, at: usize) -> u64
    requires { HasFront row.now (at + 8) }
    ensures { result ≡ little_endian (take 8 (drop at (slots_items row.now))) }
{
    u64::from_le_bytes([
        *row.get(at),
        *row.get(at + 1),
        *row.get(at + 2),
        *row.get(at + 3),
        *row.get(at + 4),
        *row.get(at + 5),
        *row.get(at + 6),
        *row.get(at + 7),
    ])
}

/// The number of this width at a place.
#[inline(always)]
pub(crate) fn load_word(row: &Slots<u8>, at: usize, width: Width) -> u64
    requires { HasFront row.now (at + byte_count width) }
    ensures number { result
        ≡ little_endian (take (byte_count width) (drop at (slots_items row.now))) }
    ensures range { result < 2 ^ (8 * byte_count width) }
{
    match width {
        Width::One => u64::from(*row.get(at)),
        Width::Two => u64::from(load_2(row, at)),
        Width::Four => u64::from(load_4(row, at)),
        Width::Eight => load_8(row, at),
    }
}

/// The number of eight bytes.
fn number_of_eight(bytes: &[u8]) -> u64
    requires { 8 ≤ length bytes.now }
    ensures { result ≡ little_endian (take 8 bytes.now) }
{
    u64::from_le_bytes([
        bytes[0], bytes[1], bytes[2], bytes[3], bytes[4], bytes[5], bytes[6], bytes[7],
    ])
}

/// The number of at most eight bytes.
pub(crate) fn number_of(bytes: &[u8]) -> u64
    requires { length bytes.now ≤ 8 }
    ensures number { result ≡ little_endian bytes.now }
    ensures range { result < 2 ^ (8 * length bytes.now) }
{
    let mut word = [0u8; 8];
    word[..bytes.len()].copy_from_slice(bytes);
    number_of_eight(&word)
}

// Stores of a word write some bytes of a row of places, and leave the others as they are.

#[inline(always)]
pub(crate) fn store_1(row: &mut Slots<u8>, at: usize, n: u8)
    requires { at + 1 ≤ slots_len row.old }
    ensures bytes { slots_items row.new
        ≡ take at (slots_items row.old) ++ (low_bytes 1 n ++ drop (at + 1) (slots_items row.old)) }
    ensures written { KeepsFronts row.old row.new }
    ensures places { SamePlaces row.old row.new }
{
    row.copy_in(at, &[n]);
}

#[inline(always)]
pub(crate) fn store_2(row: &mut Slots<u8>, at: usize, n: u16)
    requires { at + 2 ≤ slots_len row.old }
    ensures bytes { slots_items row.new
        ≡ take at (slots_items row.old) ++ (low_bytes 2 n ++ drop (at + 2) (slots_items row.old)) }
    ensures written { KeepsFronts row.old row.new }
    ensures places { SamePlaces row.old row.new }
{
    row.copy_in(at, &n.to_le_bytes());
}

#[inline(always)]
pub(crate) fn store_4(row: &mut Slots<u8>, at: usize, n: u32)
    requires { at + 4 ≤ slots_len row.old }
    ensures bytes { slots_items row.new
        ≡ take at (slots_items row.old) ++ (low_bytes 4 n ++ drop (at + 4) (slots_items row.old)) }
    ensures written { KeepsFronts row.old row.new }
    ensures places { SamePlaces row.old row.new }
{
    row.copy_in(at, &n.to_le_bytes());
}

#[inline(always)]
pub(crate) fn store_8(row: &mut Slots<u8>, at: usize, n: u64)
    requires { at + 8 ≤ slots_len row.old }
    ensures bytes { slots_items row.new
        ≡ take at (slots_items row.old) ++ (low_bytes 8 n ++ drop (at + 8) (slots_items row.old)) }
    ensures written { KeepsFronts row.old row.new }
    ensures places { SamePlaces row.old row.new }
{
    row.copy_in(at, &n.to_le_bytes());
}

/// Writes the lowest bytes of a number.
#[inline(always)]
pub(crate) fn store_word(row: &mut Slots<u8>, at: usize, width: Width, n: u64)
    requires { at + byte_count width ≤ slots_len row.old }
    ensures bytes { slots_items row.new ≡ take at (slots_items row.old)
        ++ (low_bytes (byte_count width) n ++ drop (at + byte_count width) (slots_items row.old)) }
    ensures written { KeepsFronts row.old row.new }
    ensures places { SamePlaces row.old row.new }
{
    match width {
        Width::One => store_1(row, at, (n % 0x100) as u8),
        Width::Two => store_2(row, at, (n % 0x1_0000) as u16),
        Width::Four => store_4(row, at, (n % 0x1_0000_0000) as u32),
        Width::Eight => store_8(row, at, n),
    }
}

/// Writes bytes.
pub(crate) fn store_bytes(row: &mut Slots<u8>, at: usize, from: &[u8])
    requires { at + length from.now ≤ slots_len row.old }
    ensures bytes { slots_items row.new ≡ take at (slots_items row.old)
        ++ (from.now ++ drop (at + length from.now) (slots_items row.old)) }
    ensures written { KeepsFronts row.old row.new }
    ensures places { SamePlaces row.old row.new }
{
    row.copy_in(at, from);
}
