//! A count of changes, and those who wait for one.

ghost use Rattle.std.specs.Prelude.{◌≢◌};

use std::sync::{Condvar, Mutex, Wait};

/// Counts changes, and wakes whoever waits for one.
#[derive(Drop)]
pub(crate) struct Bell {
    count: Mutex<u64>,
    rung: Condvar,
}

impl Bell {
    /// No change is counted yet.
    pub(crate) fn new() -> Bell {
        Bell {
            count: Mutex::new(0),
            rung: Condvar::new(),
        }
    }

    /// Counts a change, and wakes all who wait. It comes after the hold of the ring's lock, so that
    /// a thread that reads the count before it looks at the ring misses no change.
    pub(crate) fn ring<R: Wait>(&self, rt: &R) {
        let mut count = self.count.lock(rt);
        *count = count.wrapping_add(1);
        self.rung.notify_all();
    }

    /// Waits until the count is not `seen`, and answers it.
    pub(crate) fn wait<R: Wait>(&self, rt: &R, seen: u64) -> u64
        ensures { result ≢ seen }
    {
        *self
            .rung
            .wait_while(rt, self.count.lock(rt), |count| *count == seen)
    }
}
