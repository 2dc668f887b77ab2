//! Ranges of memory.

ghost use Rattle.std.specs.Prelude.{◌≡◌, ◌<◌, ◌^◌, length};
ghost use Rattle.linear_memory.specs.Memory.{is_inside, page_bytes, max_pages};

use linear_memory::{LinearMemory, PAGE_BYTES};

/// Whether a range is inside the memory.
pub fn is_inside(memory: &LinearMemory, address: u64, count: u64) -> bool
    ensures { result ≡ is_inside memory.now address count }
{
    memory.read_range(address, count).is_some()
}

/// How many bytes the memory has.
pub fn byte_count(memory: &LinearMemory) -> u64
    ensures bytes { result ≡ length memory.now.bytes }
    ensures within { length memory.now.bytes < 2 ^ 32 }
{
    u64::from(memory.size()) * PAGE_BYTES as u64
}
