//! A memory.

ghost use Rattle.std.specs.Prelude.{◌≡◌, ◌≤◌, ◌<◌, ◌*◌, ◌^◌, ◌++◌, All, IfSome, Some, length, option_map, replicate, true, false};
ghost use Rattle.linear_memory.specs.Memory.{new_memory, page_bytes, max_pages, is_inside, read_at, written_at, byte_count, loaded, stored, grown, grow_result};

use crate::width::Width;
use crate::words::{load_word, number_of, store_bytes, store_word};
use crate::zeros::extend;
use core::slots::Slots;
use raw_block::{Deed, Start, allocate, free, front};
use std::alloc::Global;
use std::marker::Model;

/// Bytes of a page.
pub const PAGE_BYTES: usize = 65_536;

/// The most pages of a memory.
pub const MAX_PAGES: u32 = 256;

/// A memory, as contracts see it the list of its bytes and its cap in pages. They are in one block, which
/// has a place for each byte of the pages of the cap from the start, and nothing is written into it then:
/// zeros are written when something is stored after them. So the first `front` bytes are written, and what
/// follows them, up to the size of `pages`, is zeros.
pub struct LinearMemory {
    block: Slots<u8>,
    start: Start<u8>,
    front: usize,
    pages: u32,
    cap: u32,
    deed: Deed<u8, Global>,
    alloc: Global,
}

impl Model for LinearMemory {
    ghost use Rattle.linear_memory.specs.Memory.{Memory, page_bytes, max_pages};

    ghost Value = { Memory };

    ghost use Rattle.std.specs.Prelude.{◌≡◌, ◌≤◌, ◌*◌, ◌-◌, ◌++◌, replicate, take};
    ghost use Rattle.std.specs.Mem.Slots.{slots_items, slots_len};

    ghost view = { λ m. record {
      bytes = take m.front (slots_items m.block) ++ replicate (m.pages * page_bytes - m.front) 0;
      cap = m.cap;
    } };

    ghost use Rattle.raw_block.specs.Starts.{BeginsAt};
    ghost use Rattle.linear_memory.specs.Inside.Fronts.{HasFront, IsOwner};

    ghost invariant = { λ m. HasFront m.block m.front × (m.front ≤ m.pages * page_bytes)
        × (m.pages ≤ m.cap) × (m.cap ≤ max_pages) × (slots_len m.block ≡ m.cap * page_bytes)
        × BeginsAt m.block m.start × IsOwner m.deed m.block m.alloc };
}

// A memory may go to another thread: its block is its own.
unsafe impl Send for LinearMemory {}

impl Drop for LinearMemory {
    fn drop(self) {
        let LinearMemory {
            block,
            start: _,
            front: _,
            pages: _,
            cap: _,
            deed,
            alloc,
        } = self;
        free(&alloc, block, deed);
    }
}

/// The bytes of a range, in two parts.
#[derive(Clone, Copy)]
pub struct RangeBytes<'a> {
    /// Those that are written.
    pub written: &'a [u8],
    /// How many zeros follow them.
    pub zeros: usize,
}

impl LinearMemory {
    /// A memory of `min` pages of zeros, which may grow to `cap` pages. None if memory runs out.
    pub fn new(alloc: Global, min: u32, cap: u32) -> Option<LinearMemory>
        requires { (min ≤ cap) × (cap ≤ max_pages) }
        ensures { IfSome result (λ m. m ≡ new_memory min cap) }
    {
        let Ok((block, start, deed)) = allocate(&alloc, cap as usize * PAGE_BYTES, &0u8) else {
            return None;
        };
        Some(LinearMemory {
            block,
            start,
            front: 0,
            pages: min,
            cap,
            deed,
            alloc,
        })
    }

    /// Shows that each byte is in the range of its type.
    pub fn ranged(&self)
        ensures { All (λ b. b < 256) self.now.bytes }
    {
        bytes_ranged(front(&self.block, self.start, self.front));
    }

    /// The size in pages.
    #[inline(always)]
    pub fn size(&self) -> u32
        ensures pages { result * page_bytes ≡ length self.now.bytes }
        ensures within { (result ≤ self.now.cap) × (self.now.cap ≤ max_pages) }
    {
        self.pages
    }

    /// The size in bytes.
    #[inline(always)]
    fn byte_size(&self) -> usize
        ensures bytes { result ≡ length self.now.bytes }
        ensures within { result ≤ max_pages * page_bytes }
    {
        self.pages as usize * PAGE_BYTES
    }

    /// Adds pages of zeros and gives the old size in pages; None, with nothing changed, exactly if the new
    /// size would be over the cap. No memory is taken.
    pub fn grow(&mut self, delta: u32) -> Option<u32>
        ensures result { result ≡ grow_result self.old delta }
        ensures grows { self.new ≡ grown self.old delta }
    {
        if self.cap - self.pages < delta {
            return None;
        }
        let old = self.pages;
        self.pages += delta;
        Some(old)
    }

    /// The number of this width at an address, by its bytes, the lowest first; None exactly if a byte is
    /// outside (4.4.4).
    #[inline(always)]
    pub fn load(&self, address: u64, width: Width) -> Option<u64>
        ensures number { result ≡ loaded self.now address width }
        ensures range { IfSome result (λ n. n < 2 ^ (8 * byte_count width)) }
    {
        match self.load_near(address, width) {
            Some(number) => Some(number),
            None => self.load_far(address, width),
        }
    }

    /// The same number, if all its bytes are among those that are written: None says nothing of it.
    #[inline(always)]
    pub fn load_near(&self, address: u64, width: Width) -> Option<u64>
        ensures number { IfSome result (λ n. loaded self.now address width ≡ Some n) }
        ensures range { IfSome result (λ n. n < 2 ^ (8 * byte_count width)) }
    {
        if address.saturating_add(width.bytes() as u64) > self.front as u64 {
            return None;
        }
        Some(load_word(&self.block, address as usize, width))
    }

    /// `load` where a byte is after those that are written.
    #[inline(never)]
    fn load_far(&self, address: u64, width: Width) -> Option<u64>
        ensures number { result ≡ loaded self.now address width }
        ensures range { IfSome result (λ n. n < 2 ^ (8 * byte_count width)) }
    {
        let range = self.read_range(address, width.bytes() as u64)?;
        if range.written.is_empty() {
            return Some(0);
        }
        Some(number_of(range.written))
    }

    /// Writes the lowest bytes of a number at an address, the lowest first; false, with nothing written,
    /// exactly if a byte would be outside (4.4.4).
    #[inline(always)]
    pub fn store(&mut self, address: u64, width: Width, number: u64) -> bool
        ensures inside { result ≡ is_inside self.old address (byte_count width) }
        ensures written { self.new ≡ stored self.old address width number }
    {
        if self.store_near(address, width, number) {
            return true;
        }
        self.store_far(address, width, number)
    }

    /// The same, if all its bytes are among those that are written. False, with nothing changed,
    /// says nothing of it.
    #[inline(always)]
    pub fn store_near(&mut self, address: u64, width: Width, number: u64) -> bool
        ensures stored { result ≡ true
            → (is_inside self.old address (byte_count width) ≡ true)
            × (self.new ≡ stored self.old address width number) }
        ensures stays { result ≡ false → self.new ≡ self.old }
    {
        let end = address.saturating_add(width.bytes() as u64);
        if end > self.front as u64 {
            return false;
        }
        let at = address as usize;
        store_word(&mut self.block, at, width, number);
        true
    }

    /// `store` where a byte is after those that are written: the zeros before it are written first.
    #[inline(never)]
    fn store_far(&mut self, address: u64, width: Width, number: u64) -> bool
        ensures inside { result ≡ is_inside self.old address (byte_count width) }
        ensures written { self.new ≡ stored self.old address width number }
    {
        let end = address.saturating_add(width.bytes() as u64);
        let size = self.byte_size();
        if end > size as u64 {
            return false;
        }
        self.front = extend(&mut self.block, self.front, end as usize, size);
        store_word(&mut self.block, address as usize, width, number);
        true
    }

    /// The bytes of a range; None exactly if one is outside.
    pub fn read_range(&self, address: u64, count: u64) -> Option<RangeBytes<'_>>
        ensures { option_map (λ r. r.written.now ++ replicate r.zeros 0) result
            ≡ read_at self.now address count }
    {
        let size = self.byte_size() as u64;
        if address > size || size - address < count {
            return None;
        }
        let bytes = front(&self.block, self.start, self.front);
        let start = bytes.len().min(address as usize);
        let end = bytes.len().min((address + count) as usize);
        Some(RangeBytes {
            written: &bytes[start..end],
            zeros: count as usize - (end - start),
        })
    }

    /// Writes bytes at an address, and the zeros before them that are not written yet; false, with
    /// nothing written, exactly if one would be outside.
    pub fn write_range(&mut self, address: u64, bytes: &[u8]) -> bool
        ensures inside { result ≡ is_inside self.old address (length bytes.now) }
        ensures written { self.new ≡ written_at self.old address bytes.now }
    {
        let size = self.byte_size();
        if address > size as u64 || size - (address as usize) < bytes.len() {
            return false;
        }
        if bytes.is_empty() {
            return true;
        }
        let start = address as usize;
        self.front = extend(&mut self.block, self.front, start + bytes.len(), size);
        store_bytes(&mut self.block, start, bytes);
        true
    }
}

/// Shows that each byte is in the range of its type.
fn bytes_ranged(bytes: &[u8])
    ensures { All (λ b. b < 256) bytes.now }
{
    let _in_range = bytes;
}
