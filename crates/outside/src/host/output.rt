//! Standard output as a sink.

ghost use Rattle.std.specs.Prelude.{◌≡◌};

use super::tries::write_some;
use crate::stream::{Failed, Sink};

/// Standard output of the host as a sink. It keeps no byte back, and tells nothing of what was written.
#[derive(Drop)]
pub struct StandardOutput<R> {
    host: R,
    faults: u64,
}

impl<R: Print + Drop> StandardOutput<R> {
    /// The standard output of a host.
    pub fn new(host: R) -> Self
        ensures { ⟦<StandardOutput<R> as Sink>⟧.faults result ≡ 0 }
    {
        StandardOutput { host, faults: 0 }
    }
}

impl<R: Print + Drop> Sink for StandardOutput<R> {
    ghost use Rattle.std.specs.Prelude.{None};

    ghost written = { λ _. None };

    ghost faults = { λ s. s.faults };

    ghost beside = { λ _. record { bytes = None; faults = 0 } };

    fn write(&mut self, bytes: &[u8]) -> Result<usize, Failed> {
        match write_some(&self.host, bytes) {
            Ok(count) if count > 0 || bytes.is_empty() => Ok(count),
            _ => {
                self.faults = self.faults.saturating_add(1);
                Err(Failed {})
            }
        }
    }
}
