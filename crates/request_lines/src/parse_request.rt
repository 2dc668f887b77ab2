//! Lines to requests.

ghost use Rattle.std.specs.Prelude.{◌≡◌, ◌⊎◌, ◌<◌, length, IfErr, IfOk, Err};
ghost use Rattle.task_requests.specs.declared.request.Request.{Request};
ghost use Rattle.request_lines.specs.Request.{IsRequest};
ghost use Rattle.request_lines.specs.Shape.{max_line_bytes};

use crate::line_error::LineError;
use crate::parse_event::read_event_line;
use std::alloc::Global;
use task_requests::{Event, Request};
use wasm_ast::Refusal;

/// Reads a line as a request. `NoRequest` if it is none, `OutOfMemory` if memory runs out.
pub fn read_request_line(alloc: Global, line: &[u8]) -> Result<Request, LineError>
    ensures ok { IfOk result (λ r. IsRequest line.now r) }
    ensures none { result ≡ Err LineError.NoRequest → (r : Request) → IsRequest line.now r → ⊥ }
    ensures long { max_line_bytes < length line.now → result ≡ Err LineError.NoRequest }
{
    match read_event_line(alloc, line)? {
        Event::Call(request) => Ok(request),
        Event::Take(_, _) | Event::Return(_) => Err(LineError::NoRequest),
    }
}

/// Reads a line, given without its line feed, as a request.
///
/// `BadRequest` exactly if the line is no request: it is over 1,048,576 bytes long, is not UTF-8, is no
/// JSON value, is no object with `op` and exactly the keys of that request, one of them is of another
/// kind, or `hex` is no even number of hexadecimal digits. `NoMemory` if memory runs out; a line that is
/// too long is never answered so. Of a key that is there twice the last value counts.
pub fn request_of(alloc: Global, line: &[u8]) -> Result<Request, Refusal>
    ensures ok { IfOk result (λ r. IsRequest line.now r) }
    ensures bad { result ≡ Err Refusal.BadRequest → (r : Request) → IsRequest line.now r → ⊥ }
    ensures long { max_line_bytes < length line.now → result ≡ Err Refusal.BadRequest }
    ensures errors { IfErr result (λ e. (e ≡ Refusal.BadRequest) ⊎ (e ≡ Refusal.NoMemory)) }
{
    Ok(read_request_line(alloc, line)?)
}
