//! Copies of texts, bytes and configurations.

use crate::checks::{check_bytes, check_text};
use oci_config::{ProcessConfig, read_config};
use std::alloc::Global;
use std::process::Abort;
use std::test::Fail;
use wasm_ast::{Bytes, Text};

/// A config.
const CONFIG: &str =
    r#"{"ociVersion":"1.0.2","process":{"args":["a"],"cwd":"/"},"annotations":{"dev.shim.module":"sha256:2194f0d23626e6104d4a7a891350fbd0e82a54a29dd596a672d41474e9b6ee0a"}}"#;

fn check_copy_of_text(rt: &impl Abort, alloc: Global) -> Result<(), Fail> {
    let copy = Text::from_str(alloc, "ä \u{0}")?.copy(alloc)?;
    check_text(rt, "a copy", copy.as_str(), "ä \u{0}");
    Ok(())
}

fn check_copy_of_bytes(rt: &impl Abort, alloc: Global) -> Result<(), Fail> {
    let bytes = Bytes::new(Vec::from_slice(alloc, &[0, 255])?);
    let copy = bytes.copy(alloc)?;
    check_bytes(rt, 0, copy.as_slice(), &[0, 255]);
    Ok(())
}

fn new_config(alloc: Global) -> Result<ProcessConfig, Fail> {
    let process = read_config(alloc, CONFIG.as_bytes())?;
    Ok(process.config(alloc)?)
}

// A copy is the same, and is another once its number of pages is.
fn check_copy_of_config(rt: &impl Abort, alloc: Global) -> Result<(), Fail> {
    let config = new_config(alloc)?;
    let mut copy = config.copy(alloc)?;
    assert!(rt; copy.is(&config));
    copy.cap = 17;
    assert!(rt; !copy.is(&config));
    Ok(())
}

#[test]
fn copies_are_the_same(rt: HostRuntime) -> Result<(), Fail> {
    check_copy_of_text(&rt, rt.alloc())?;
    check_copy_of_bytes(&rt, rt.alloc())?;
    check_copy_of_config(&rt, rt.alloc())
}
