//! The calls of a store, with memory to spare. The board makes each of them in two halves, so that no line
//! makes one.

use crate::checks::check_text;
use content_leases::Store;
use std::alloc::Global;
use std::process::Abort;
use std::test::Fail;
use wasm_ast::{Bytes, Refusal};

/// The module that has nothing.
const EMPTY_MODULE: [u8; 8] = [0, 97, 115, 109, 1, 0, 0, 0];

/// Its SHA-256, by sha256sum.
const DIGEST: &str = "sha256:93a44bbb96c751218e4c00d479e4c14358122a389acca16205b1e4d0dc5f9476";

fn put(alloc: Global, store: &mut Store) -> Result<Result<(), Refusal>, Fail> {
    let bytes = Bytes::new(Vec::from_slice(alloc, &EMPTY_MODULE)?);
    Ok(match store.put(bytes) {
        Ok(_digest) => Ok(()),
        Err(refusal) => Err(refusal),
    })
}

// A content is stored under its digest, once, and removed, once.
#[test]
fn contents_are_put_and_removed(rt: HostRuntime) -> Result<(), Fail> {
    let alloc = rt.alloc();
    let mut store = Store::new(alloc)?;
    let bytes = Bytes::new(Vec::from_slice(alloc, &EMPTY_MODULE)?);
    let digest = store.put(bytes)?;
    check_text(&rt, "the digest", digest.as_str(), DIGEST);
    assert!(rt; put(alloc, &mut store)? == Err(Refusal::Exists));
    assert!(rt; store.remove(DIGEST, &[]) == Ok(()));
    assert!(rt; store.remove(DIGEST, &[]) == Err(Refusal::NoContent));
    assert!(rt; put(alloc, &mut store)? == Ok(()));
    Ok(())
}

// A lease holds its contents against `remove` and `gc` until it is deleted.
#[test]
fn leases_hold_what_they_name(rt: HostRuntime) -> Result<(), Fail> {
    let alloc = rt.alloc();
    let mut store = Store::new(alloc)?;
    assert!(rt; store.lease_create("l") == Ok(()));
    assert!(rt; store.lease_create("l") == Err(Refusal::Exists));
    assert!(rt; store.lease_add(DIGEST, "l") == Err(Refusal::NoContent));
    assert!(rt; put(alloc, &mut store)? == Ok(()));
    assert!(rt; store.lease_add(DIGEST, "l") == Ok(()));
    assert!(rt; store.remove(DIGEST, &[]) == Err(Refusal::InUse));
    let held = store.gc(&[])?;
    assert!(rt; held.is_empty());
    assert!(rt; store.lease_delete("l") == Ok(()));
    assert!(rt; store.lease_delete("l") == Err(Refusal::NotFound));
    let removed = store.gc(&[])?;
    assert!(rt; removed.len() == 1);
    assert!(rt; store.remove(DIGEST, &[]) == Err(Refusal::NoContent));
    Ok(())
}
