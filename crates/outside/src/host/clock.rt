//! The system clock.

use crate::clock::Clock;
use std::rt::Clock as HostClock;

/// The clock of the host, in seconds since 1970. Where it can't be read it gives the last moment.
#[derive(Drop)]
pub struct SystemClock<R> {
    host: R,
    last: u64,
}

impl<R> SystemClock<R> {
    /// The clock of a host. No moment was given yet: 0 is the last one.
    pub fn new(host: R) -> Self {
        SystemClock { host, last: 0 }
    }
}

impl<R: HostClock + Drop> Clock for SystemClock<R> {
    ghost use Rattle.std.specs.Prelude.{None};

    ghost moments = { λ _. None };

    fn now(&mut self) -> u64 {
        if let Ok(since) = self.host.since_1970() {
            self.last = since.as_secs();
        }
        self.last
    }
}
