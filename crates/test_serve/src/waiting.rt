//! Waits for what other threads count.

use std::sync::atomic::{AtomicU64, Ordering};
use std::thread;
use std::time::{Clock, Duration};

/// How many milliseconds are waited at most: much less than a test may take, and much more than it needs.
const PATIENCE: u64 = 10_000;

/// Waits until a count has come to a number, but not for ever. Whether it has.
pub fn comes_to<H: Clock>(rt: &H, count: &AtomicU64, wanted: u64) -> bool {
    for _ in 0..PATIENCE {
        if count.load(Ordering::SeqCst) >= wanted {
            return true;
        }
        thread::sleep(rt, Duration::from_millis(1));
    }
    false
}
