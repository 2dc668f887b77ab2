//! The program `wasm-shim`: WebAssembly modules, run as container tasks. It opens files and
//! standard streams, and leaves all else to crates with contracts or tests.
#![tactic(auto)]

mod files;
mod serve;

use crate::files::carry_out;
use crate::serve::{open_callers, open_scripts};
use serve_command::{OUT_OF_MEMORY, Wanted, failed, serve, stream_failed};
use shim_log::{Format, Terminal};
use shim_service::{Command, CommandError, command_of};
use std::process::ExitCode;
use std::sync::Wait;
use std::thread::Threads;
use std::time::Clock;
use std::{env, io};

// The exit status if the arguments are those of no command.
const EXIT_USAGE: u8 = 2;

// Carries out a command, with threads if it is `serve`. The status of the program.
fn perform<H: Threads + Wait + Clock + Copy + Send + Sync + 'static>(
    rt: &HostRuntime,
    threads: H,
    command: Command,
) -> u8 {
    match command {
        Command::Serve {
            workers,
            scripts,
            callers,
            explain,
            log,
            format,
        } => {
            let terminal = Terminal::new(rt.stderr(), *rt);
            let wanted = Wanted::new(rt.alloc(), terminal, explain, Format::wanted(log, &format));
            let work = if callers.is_empty() {
                open_scripts(rt, scripts.leak())
            } else {
                open_callers(rt, callers.leak())
            };
            match work {
                Ok(work) => serve(threads, workers, wanted, work),
                Err(status) => status,
            }
        }
        other => carry_out(rt, &other),
    }
}

// Says on standard error what is wrong with the arguments. The status of the program.
fn refuse(rt: &HostRuntime, error: &CommandError) -> u8 {
    if let CommandError::OutOfMemory = error {
        return failed(rt, OUT_OF_MEMORY);
    }
    let _told = eprint!(rt; "{error}");
    EXIT_USAGE
}

// The program's name and its arguments.
fn arguments(rt: &HostRuntime) -> io::Result<Vec<String>> {
    let arguments = env::args(rt)?.collect(rt.alloc())?;
    Ok(arguments)
}

fn main(rt: HostRuntime) -> ExitCode {
    let status = match arguments(&rt) {
        Ok(given) => match command_of(rt.alloc(), given.as_slice()) {
            Ok(command) => perform(&rt, rt, command),
            Err(error) => refuse(&rt, &error),
        },
        Err(error) => stream_failed(&rt, "the command line", &error),
    };
    ExitCode::from(status)
}
