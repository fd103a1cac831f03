//! For how long one thread has the lock.

use std::time::{Clock, Duration, Instant};

/// For how many microseconds a hold of the lock goes on to another request.
const LONG: u64 = 200;

/// A hold of the lock that was begun at a moment, which is unknown where the clock can't be read.
#[derive(Drop)]
pub(crate) struct LockHold {
    begun: Option<Instant>,
}

impl LockHold {
    /// Begins now.
    pub(crate) fn begin<R: Clock>(rt: &R) -> LockHold {
        LockHold {
            begun: Instant::now(rt).ok(),
        }
    }

    /// Returns how long it is since the beginning, zero where the clock can't be read.
    pub(crate) fn took<R: Clock>(&self, rt: &R) -> Duration {
        let none = Duration::from_millis(0);
        match &self.begun {
            Some(begun) => begun.elapsed(rt).unwrap_or(none),
            None => none,
        }
    }

    /// Returns whether 200 microseconds are over. No contract speaks of time.
    pub(crate) fn is_over<R: Clock>(&self, rt: &R) -> bool {
        self.took(rt) >= Duration::from_micros(LONG)
    }
}
