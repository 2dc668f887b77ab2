//! A system call is made.

ghost use Rattle.std.specs.Prelude.{◌≡◌, Some, map};
ghost use Rattle.wasm_ast.specs.Types.{type_of};
ghost use Rattle.oci_config.specs.Processes.{config_of};
ghost use Rattle.wasi_calls.specs.HostCalls.{host_type};
ghost use Rattle.wasi_calls.specs.NoMemory.{memory_before, memory_after};
ghost use Rattle.wasi_calls.specs.SystemCalls.{host, fd_write, state_of};

use crate::errno::{BADF, SUCCESS};
use crate::fd_write::write_stream;
use crate::host_call::HostCall;
use crate::host_end::HostEnd;
use crate::texts::{put_sizes, put_texts};
use crate::without_memory::host_without;
use linear_memory::LinearMemory;
use oci_config::Process;
use wasm_ast::Value;

/// Makes `fd_write`.
fn fd_write(
    fd: u32,
    p: u32,
    n: u32,
    q: u32,
    memory: &mut LinearMemory,
    process: &mut Process,
) -> HostEnd
    ensures done { fd_write (state_of memory.old process.old) fd p n q
        ≡ record { answer = result; state = state_of memory.new process.new } }
    ensures config { config_of process.new ≡ config_of process.old }
{
    match fd {
        1 => HostEnd::Value(write_stream(memory, p, n, q, &mut process.out)),
        2 => HostEnd::Value(write_stream(memory, p, n, q, &mut process.err)),
        _ => HostEnd::Value(BADF),
    }
}

/// Makes a system call with the memory of the module.
fn host_with(
    call: HostCall,
    args: &[Value],
    memory: &mut LinearMemory,
    process: &mut Process,
) -> HostEnd
    requires types { map type_of args.now ≡ (host_type call).params }
    ensures done { host (config_of process.old) call args.now (state_of memory.old process.old)
        ≡ Some (record { answer = result; state = state_of memory.new process.new }) }
    ensures config { config_of process.new ≡ config_of process.old }
{
    match (call, args) {
        (HostCall::ArgsSizesGet, &[Value::I32(p), Value::I32(q)]) => {
            HostEnd::Value(put_sizes(process.args.as_slice(), p, q, memory))
        }
        (HostCall::ArgsGet, &[Value::I32(p), Value::I32(q)]) => {
            HostEnd::Value(put_texts(process.args.as_slice(), p, q, memory))
        }
        (HostCall::EnvironSizesGet, &[Value::I32(p), Value::I32(q)]) => {
            HostEnd::Value(put_sizes(process.env.as_slice(), p, q, memory))
        }
        (HostCall::EnvironGet, &[Value::I32(p), Value::I32(q)]) => {
            HostEnd::Value(put_texts(process.env.as_slice(), p, q, memory))
        }
        (HostCall::FdWrite, &[Value::I32(fd), Value::I32(p), Value::I32(n), Value::I32(q)]) => {
            fd_write(fd, p, n, q, memory, process)
        }
        (HostCall::ProcExit, &[Value::I32(code)]) => HostEnd::Exit(code),
        (HostCall::SchedYield, &[]) => HostEnd::Value(SUCCESS),
        _ => unreachable!(),
    }
}

/// Makes a system call of WASI snapshot_preview1, with the memory of the module, if it has one. It
/// changes nothing but the memory and the two output streams of the process, and cannot answer that
/// memory ran out. The answer is `Value` with an error number ($errno): 0 if the call was made, 8 for a file
/// descriptor that is neither 1 nor 2, 21 for a range that is not inside the memory, and 51 if bytes
/// are to be written to a stream that is full. Of `proc_exit` it is `Exit`.
pub fn host(
    call: HostCall,
    args: &[Value],
    memory: Option<&mut LinearMemory>,
    process: &mut Process,
) -> HostEnd
    requires types { map type_of args.now ≡ (host_type call).params }
    ensures done { let before = state_of (memory_before memory.entry) process.old in
        host (config_of process.old) call args.now before ≡ Some (record {
          answer = result;
          state = state_of (memory_after memory.exit) process.new;
        }) }
    ensures config { config_of process.new ≡ config_of process.old }
{
    match memory {
        Some(memory) => host_with(call, args, memory, process),
        None => host_without(call, args, process),
    }
}
