//! System calls of a module without a memory: of its no bytes the empty range at 0 alone is inside.

ghost use Rattle.std.specs.Prelude.{◌≡◌, ℕ, List, ◌&&◌, nat_eq, length, Some, map};
ghost use Rattle.wasm_ast.specs.Types.{type_of};
ghost use Rattle.oci_config.specs.Processes.{config_of};
ghost use Rattle.wasi_calls.specs.HostCalls.{host_type};
ghost use Rattle.wasi_calls.specs.NoMemory.{no_memory};
ghost use Rattle.wasi_calls.specs.SystemCalls.{returns, texts_get, fd_write, host, state_of};

use crate::errno::{BADF, FAULT, SUCCESS};
use crate::host_call::HostCall;
use crate::host_end::HostEnd;
use oci_config::Process;
use wasm_ast::{Text, Value};

/// Whether there is nothing to write, and both addresses are 0.
fn is_at_zero(texts: &[Text], p: u32, q: u32) -> bool
    ensures { result ≡ (nat_eq (length texts.now) 0 && nat_eq p 0 && nat_eq q 0) }
{
    texts.is_empty() && p == 0 && q == 0
}

/// The error number of `args_get` and of `environ_get`.
fn put_texts(texts: &[Text], p: u32, q: u32) -> u32
    ensures { (out err : List ℕ)
        → texts_get texts.now p q (record { memory = no_memory; out = out; err = err })
        ≡ returns result (record { memory = no_memory; out = out; err = err }) }
{
    if !is_at_zero(texts, p, q) {
        return FAULT;
    }
    SUCCESS
}

/// The error number of `fd_write`.
fn write_number(fd: u32, p: u32, n: u32, q: u32, process: &Process) -> HostEnd
    ensures { fd_write (state_of no_memory process.now) fd p n q
        ≡ record { answer = result; state = state_of no_memory process.now } }
{
    match fd {
        1 | 2 => HostEnd::Value(FAULT),
        _ => HostEnd::Value(BADF),
    }
}

/// Makes a system call without a memory, which changes nothing.
pub fn host_without(call: HostCall, args: &[Value], process: &Process) -> HostEnd
    requires types { map type_of args.now ≡ (host_type call).params }
    ensures { host (config_of process.now) call args.now (state_of no_memory process.now)
        ≡ Some (record { answer = result; state = state_of no_memory process.now }) }
{
    match (call, args) {
        (HostCall::ArgsSizesGet | HostCall::EnvironSizesGet, _) => HostEnd::Value(FAULT),
        (HostCall::ArgsGet, &[Value::I32(p), Value::I32(q)]) => {
            HostEnd::Value(put_texts(process.args.as_slice(), p, q))
        }
        (HostCall::EnvironGet, &[Value::I32(p), Value::I32(q)]) => {
            HostEnd::Value(put_texts(process.env.as_slice(), p, q))
        }
        (HostCall::FdWrite, &[Value::I32(fd), Value::I32(p), Value::I32(n), Value::I32(q)]) => {
            write_number(fd, p, n, q, process)
        }
        (HostCall::ProcExit, &[Value::I32(code)]) => HostEnd::Exit(code),
        (HostCall::SchedYield, &[]) => HostEnd::Value(SUCCESS),
        _ => unreachable!(),
    }
}
