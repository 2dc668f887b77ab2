//! Assertions that many tests share.

use std::process::Abort;

/// Asserts that a text is the one that is wanted; a failure says what is compared.
pub fn check_text(rt: &impl Abort, what: &str, found: &str, wanted: &str) {
    assert_eq!(rt; found, wanted, "{what}");
}

/// Asserts that bytes are those that are wanted; a failure says at which number.
pub fn check_bytes(rt: &impl Abort, at: usize, found: &[u8], wanted: &[u8]) {
    assert_eq!(rt; found, wanted, "at {at}");
}

/// Asserts that a number is the one that is wanted; a failure says what is counted.
pub fn check_count(rt: &impl Abort, what: &str, found: usize, wanted: usize) {
    assert_eq!(rt; found, wanted, "{what}");
}
