//! `fd_write`: bytes of the memory to an output stream.

ghost use Rattle.std.specs.Prelude.{◌≡◌, ℕ, List, ◌≤◌, ◌<◌, ◌+◌, ◌-◌, ◌*◌, ◌^◌, ◌++◌, length, take, drop, replicate, true, if◌then◌else◌, Some, None};
ghost use Rattle.linear_memory.specs.Memory.{is_inside};
ghost use Rattle.oci_config.specs.Limits.{max_output};
ghost use Rattle.wasi_calls.specs.SystemCalls.{buffer_at, buffer_bytes, buffers_at, are_inside, gathered, HostState, returns, write_stream};

use crate::errno::{FAULT, NOSPC, SUCCESS};
use crate::ranges::is_inside;
use linear_memory::{LinearMemory, Width};
use oci_config::Output;

/// The bytes of a buffer's address and length.
const BUFFER_BYTES: u64 = 8;

/// How many zeros are appended at a time.
const ZERO_BYTES: usize = 64;

/// A buffer to be written: where it begins, and how many bytes it has ($ciovec).
#[derive(Clone, Copy)]
struct Buffer {
    address: u32,
    size: u32,
}

/// The buffer that is told at an address. Its two words are read at once.
fn buffer_at(memory: &LinearMemory, address: u64) -> Buffer
    requires small { address < 2 ^ 63 }
    requires inside { is_inside memory.now address buffer_bytes ≡ true }
    ensures address { result.address ≡ (buffer_at memory.now address).address }
    ensures size { result.size ≡ (buffer_at memory.now address).size }
    ensures within { result.size < 2 ^ 32 }
{
    memory.ranged();
    match memory.load(address, Width::Eight) {
        Some(number) => Buffer {
            address: (number % 0x1_0000_0000) as u32,
            size: (number / 0x1_0000_0000) as u32,
        },
        None => unreachable!(),
    }
}

/// How many bytes the `n` buffers that are told at an address have. None if one is not inside.
fn size_of_buffers(memory: &LinearMemory, address: u64, n: u32) -> Option<u64>
    requires small { address < 2 ^ 32 }
    requires inside { is_inside memory.now address (n * buffer_bytes) ≡ true }
    ensures { result ≡ (if are_inside memory.now (buffers_at memory.now address n)
        then Some (length (gathered memory.now (buffers_at memory.now address n))) else None) }
{
    let mut sum = 0u64;
    for i in 0..n {
        let buffer = buffer_at(memory, address + u64::from(i) * BUFFER_BYTES);
        if !is_inside(memory, u64::from(buffer.address), u64::from(buffer.size)) {
            return None;
        }
        sum += u64::from(buffer.size);
    }
    Some(sum)
}

/// Appends zeros to a stream, as many as it has room for.
fn append_zeros(count: usize, stream: &mut Output)
    ensures { stream.new ≡ stream.old ++ take (max_output - length stream.old) (replicate count 0) }
{
    let taken = count.min(stream.room());
    if taken == 0 {
        return;
    }
    let some = [0u8; ZERO_BYTES];
    for _ in 0..taken / ZERO_BYTES {
        stream.append(&some);
    }
    stream.append(&some[..taken % ZERO_BYTES]);
}

/// Appends a buffer of the memory to a stream, as far as there is room.
fn append(memory: &LinearMemory, buffer: &Buffer, stream: &mut Output)
    requires { is_inside memory.now buffer.now.address buffer.now.size ≡ true }
    ensures { stream.new ≡ stream.old ++ take (max_output - length stream.old)
        (take buffer.now.size (drop buffer.now.address memory.now.bytes)) }
{
    if buffer.size == 0 {
        return;
    }
    match memory.read_range(u64::from(buffer.address), u64::from(buffer.size)) {
        Some(range) => {
            stream.append(range.written);
            append_zeros(range.zeros, stream);
        }
        None => unreachable!(),
    }
}

/// Appends the `n` buffers that are told at an address to a stream, in order, as far as there is
/// room.
fn append_all(memory: &LinearMemory, address: u64, n: u32, stream: &mut Output)
    requires small { address < 2 ^ 32 }
    requires inside { is_inside memory.now address (n * buffer_bytes) ≡ true }
    requires buffers { are_inside memory.now (buffers_at memory.now address n) ≡ true }
    requires within { length stream.old ≤ max_output }
    ensures { stream.new ≡ stream.old ++ take (max_output - length stream.old)
        (gathered memory.now (buffers_at memory.now address n)) }
{
    for i in 0..n {
        if stream.room() == 0 {
            return;
        }
        let buffer = buffer_at(memory, address + u64::from(i) * BUFFER_BYTES);
        append(memory, &buffer, stream);
    }
}

/// Writes the `n` buffers that are told at `p` to a stream, and the number of bytes that it took
/// at `q`. The answer is an error number.
pub fn write_stream(memory: &mut LinearMemory, p: u32, n: u32, q: u32, stream: &mut Output) -> u32
    ensures { (state_with : List ℕ → HostState) → (state_with stream.old).memory ≡ memory.old
        → write_stream state_with stream.old p n q
        ≡ returns result (record (state_with stream.new) { memory = memory.new }) }
{
    let p = u64::from(p);
    let q = u64::from(q);
    if !is_inside(memory, p, u64::from(n) * BUFFER_BYTES) || !is_inside(memory, q, 4) {
        return FAULT;
    }
    let Some(asked) = size_of_buffers(memory, p, n) else {
        return FAULT;
    };
    let room = stream.room() as u64;
    if asked > 0 && room == 0 {
        return NOSPC;
    }
    if asked > 0 {
        append_all(memory, p, n, stream);
    }
    memory.store(q, Width::Four, asked.min(room));
    SUCCESS
}
