//! The bytes of a content, as a seat has seen them put.

ghost use Rattle.std.specs.Prelude.{◌≡◌, ◌≢◌, List, ℕ, Ok, None, Some, IfOk, IfSome, option_map, slice_get};
ghost use Rattle.task_requests.specs.declared.request.Request.TheVariants as asked;
ghost use Rattle.content_leases.specs.Digests.{digest_of};
ghost use Rattle.call_journal.specs.declared.entry.Entry.{Entry};

use call_journal::{Row, Seat, Shim};
use std::alloc::{AllocError, Global};
use task_board::{Request, digest_of};
use text_assembler::assemble;
use wasm_ast::Refusal;

// The bytes that a request puts, if it puts some.
fn bytes_put(alloc: Global, request: &Request) -> Result<Option<Vec<u8>>, AllocError>
    ensures { (bytes : List ℕ) → request.now ≡ asked.Put bytes
        → IfOk result (λ found. option_map (λ v. v.items) found ≡ Some bytes) }
{
    match request {
        Request::Put { bytes } => {
            let mut copied = Vec::new(alloc);
            copied.extend_from_slice(bytes.as_bytes().as_slice())?;
            Ok(Some(copied))
        }
        Request::PutText { text } => match assemble(alloc, text.as_str()) {
            Ok(bytes) => Ok(Some(bytes)),
            Err(Refusal::NoMemory) => Err(AllocError),
            Err(_) => Ok(None),
        },
        _ => Ok(None),
    }
}

// The same, if they have this digest.
fn bytes_under(
    alloc: Global,
    request: &Request,
    digest: &str,
) -> Result<Option<Vec<u8>>, AllocError>
    ensures found { IfOk result (λ found. IfSome found (λ v. digest_of v.items ≡ digest.now)) }
    ensures other { (bytes : List ℕ) → request.now ≡ asked.Put bytes → result ≡ Ok None
        → digest_of bytes ≢ digest.now }
{
    let Some(bytes) = bytes_put(alloc, request)? else {
        return Ok(None);
    };
    let found = digest_of(alloc, bytes.as_slice())?;
    if found.as_str() == digest {
        Ok(Some(bytes))
    } else {
        Ok(None)
    }
}

/// Bytes with this digest that a request has put which the seat has seen, the newest first; None if
/// no `put` among them has bytes with this digest, and no text of a `put_text` denotes them. It
/// takes no lock. An error only if memory runs out.
pub fn find_content<J: Row>(
    alloc: Global,
    shim: &Shim<J>,
    seat: &Seat<J>,
    digest: &str,
) -> Result<Option<Vec<u8>>, AllocError>
    ensures found { IfOk result (λ found. IfSome found (λ v. digest_of v.items ≡ digest.now)) }
    ensures other { result ≡ Ok None → (i : ℕ) → (e : Entry) → (bytes : List ℕ)
        → slice_get seat.now.history i ≡ Some e → e.request ≡ asked.Put bytes
        → digest_of bytes ≢ digest.now }
{
    let mut left = seat.len();
    while left > 0 {
        left -= 1;
        if let Some(entry) = shim.entry(seat, left) {
            let found = bytes_under(alloc, &entry.request, digest)?;
            if found.is_some() {
                return Ok(found);
            }
        }
    }
    Ok(None)
}
