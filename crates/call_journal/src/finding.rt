//! What the entry of a request needs: a copy of the request, and the task that it names.

ghost use Rattle.std.specs.Prelude.{◌≡◌, None, IfOk};
ghost use Rattle.task_requests.specs.declared.request.Request.TheVariants as request;
ghost use Rattle.task_board.specs.Claims.{asked_of};
ghost use Rattle.call_journal.specs.Finding.{found_of};

use crate::entry::Found;
use std::alloc::{AllocError, Global};
use task_board::{Board, Request};
use wasm_ast::Text;

/// How a board has the task that a request names, if it is there.
pub fn found(board: &Board, request: &Request) -> Option<Found>
    ensures { result ≡ found_of board.now.state request.now }
{
    let id = match request {
        Request::Create { config: _, id } | Request::Task { id, ask: _ } => id,
        _ => return None,
    };
    let (n, out) = board.found(id.as_str())?;
    Some(Found { n, out })
}

/// The same request, in memory of its own. An error if memory runs out.
pub fn copy(alloc: Global, request: &Request) -> Result<Request, AllocError>
    ensures { IfOk result (λ r. r ≡ request.now) }
{
    match request {
        Request::Create { config, id } => copy_create(alloc, config, id),
        Request::Task { id, ask } => Ok(Request::Task {
            id: id.copy(alloc)?,
            ask: *ask,
        }),
        other => copy_store(alloc, other),
    }
}

fn copy_create(alloc: Global, config: &Text, id: &Text) -> Result<Request, AllocError>
    ensures { IfOk result (λ r. r ≡ request.Create config.now id.now) }
{
    let config = config.copy(alloc)?;
    let id = id.copy(alloc)?;
    Ok(Request::Create { config, id })
}

// The same request to the store.
fn copy_store(alloc: Global, request: &Request) -> Result<Request, AllocError>
    requires { asked_of request.now ≡ None }
    ensures { IfOk result (λ r. r ≡ request.now) }
{
    match request {
        Request::Put { bytes } => Ok(Request::Put {
            bytes: bytes.share()?,
        }),
        Request::PutText { text } => Ok(Request::PutText {
            text: text.copy(alloc)?,
        }),
        Request::Remove { digest } => Ok(Request::Remove {
            digest: digest.copy(alloc)?,
        }),
        Request::LeaseCreate { id } => Ok(Request::LeaseCreate {
            id: id.copy(alloc)?,
        }),
        Request::LeaseAdd { digest, id } => copy_add(alloc, digest, id),
        Request::LeaseDelete { id } => Ok(Request::LeaseDelete {
            id: id.copy(alloc)?,
        }),
        Request::Gc => Ok(Request::Gc),
        _ => unreachable!(),
    }
}

fn copy_add(alloc: Global, digest: &Text, id: &Text) -> Result<Request, AllocError>
    ensures { IfOk result (λ r. r ≡ request.LeaseAdd digest.now id.now) }
{
    let digest = digest.copy(alloc)?;
    let id = id.copy(alloc)?;
    Ok(Request::LeaseAdd { digest, id })
}
