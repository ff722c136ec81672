//! A clock in memory.

ghost use Rattle.std.specs.Prelude.{◌≡◌};

use crate::clock::Clock;
use base::List;
use std::marker::Model;

/// A clock over a list of moments.
#[derive(Drop)]
pub struct MemoryClock {
    moments: List<u64>,
    at: usize,
}

impl Model for MemoryClock {
    ghost use Rattle.std.specs.Prelude.{ℕ, List as Seq, drop, length, ◌<◌};

    ghost Value = { Seq ℕ };

    ghost view = { λ c. drop c.at c.moments };

    ghost invariant = { λ c. 0 < length c.moments → c.at < length c.moments };
}

impl MemoryClock {
    /// A clock that gives these moments, and then the last one again and again.
    pub fn new(moments: List<u64>) -> Self
        ensures { result ≡ moments }
    {
        MemoryClock { moments, at: 0 }
    }
}

impl Clock for MemoryClock {
    ghost use Rattle.std.specs.Prelude.{Some};

    ghost moments = { λ c. Some c };

    fn now(&mut self) -> u64 {
        let moments = self.moments.as_slice();
        if moments.is_empty() {
            return 0;
        }
        let moment = moments[self.at];
        if self.at + 1 < moments.len() {
            self.at += 1;
        }
        moment
    }
}
