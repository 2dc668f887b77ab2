//! The system calls, their names and their types.

ghost use Rattle.std.specs.Prelude.{◌≡◌};
ghost use Rattle.wasi_calls.specs.HostCalls.{host_name, host_type, host_calls, host_module};

use wasm_ast::ValType;

/// A system call.
#[derive(Clone, Copy, PartialEq, Eq, Debug)]
pub enum HostCall {
    /// How many arguments there are, and how many bytes they have
    ArgsSizesGet,
    /// The arguments
    ArgsGet,
    /// How many environment variables there are, and how many bytes they have
    EnvironSizesGet,
    /// The environment variables
    EnvironGet,
    /// Writes to an output stream
    FdWrite,
    /// Ends the task with a number
    ProcExit,
    /// Lets others go on
    SchedYield,
}

impl HostCall {
    /// All of them.
    pub fn all() -> &'static [HostCall]
        ensures { result.now ≡ host_calls }
    {
        &[
            HostCall::ArgsSizesGet,
            HostCall::ArgsGet,
            HostCall::EnvironSizesGet,
            HostCall::EnvironGet,
            HostCall::FdWrite,
            HostCall::ProcExit,
            HostCall::SchedYield,
        ]
    }

    /// The module that they are imported from.
    pub fn module() -> &'static str
        ensures { result.now ≡ host_module }
    {
        "wasi_snapshot_preview1"
    }

    /// The name that it is imported by.
    pub fn name(self) -> &'static str
        ensures { result.now ≡ host_name self }
    {
        match self {
            HostCall::ArgsSizesGet => "args_sizes_get",
            HostCall::ArgsGet => "args_get",
            HostCall::EnvironSizesGet => "environ_sizes_get",
            HostCall::EnvironGet => "environ_get",
            HostCall::FdWrite => "fd_write",
            HostCall::ProcExit => "proc_exit",
            HostCall::SchedYield => "sched_yield",
        }
    }

    /// The types of its parameters, in order.
    pub fn params(self) -> &'static [ValType]
        ensures { result.now ≡ (host_type self).params }
    {
        match self {
            HostCall::ArgsSizesGet
            | HostCall::ArgsGet
            | HostCall::EnvironSizesGet
            | HostCall::EnvironGet => &[ValType::I32, ValType::I32],
            HostCall::FdWrite => &[ValType::I32, ValType::I32, ValType::I32, ValType::I32],
            HostCall::ProcExit => &[ValType::I32],
            HostCall::SchedYield => &[],
        }
    }

    /// The types of its results, in order.
    pub fn results(self) -> &'static [ValType]
        ensures { result.now ≡ (host_type self).results }
    {
        match self {
            HostCall::ProcExit => &[],
            _ => &[ValType::I32],
        }
    }
}
