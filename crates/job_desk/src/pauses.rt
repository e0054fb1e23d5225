//! Pauses between two asks.
use std::sync::Wait;
use std::thread::Parker;
use std::time::Duration;

/// Waits for about a millisecond, before a mailbox is asked again that could not take or give a letter.
pub(crate) fn pause<R: Wait>(rt: &R) {
    Parker::new().park_timeout(rt, Duration::from_millis(1));
}
