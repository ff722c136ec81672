//! A sink in memory.

ghost use Rattle.std.specs.Prelude.{◌≡◌, ◌<◌, []};

use crate::memory::calls::Calls;
use crate::stream::{Failed, Sink};
use base::{Bytes, List};
use std::alloc::Global;
use std::marker::Model;

/// A sink in memory, which takes at most so many bytes in one call. A growth that is refused is counted as a fault.
#[derive(Drop)]
pub struct MemorySink {
    bytes: Bytes,
    most: usize,
    calls: Calls,
    faults: u64,
}

impl Model for MemorySink {
    ghost use Rattle.std.specs.Prelude.{◌<◌};
    ghost use Rattle.outside.specs.Memory.{Written};

    ghost Value = { Written };

    ghost view = { λ s. record { written = s.bytes; faults = s.faults } };

    ghost invariant = { λ s. 0 < s.most };
}

impl MemorySink {
    /// A sink that nothing was written to. It takes at most `most` bytes in one call, and the calls with these
    /// numbers fail.
    pub fn new(alloc: Global, most: usize, failing: List<u64>) -> Self
        requires { 0 < most }
        ensures written { result.written ≡ [] }
        ensures faults { result.faults ≡ 0 }
    {
        MemorySink {
            bytes: Bytes::new(alloc),
            most,
            calls: Calls::new(failing),
            faults: 0,
        }
    }

    /// The bytes written.
    pub fn written(&self) -> &[u8]
        ensures { result.now ≡ self.now.written }
    {
        self.bytes.as_slice()
    }

    /// How many calls have failed.
    pub fn faults(&self) -> u64
        ensures { result ≡ self.now.faults }
    {
        self.faults
    }
}

impl Sink for MemorySink {
    ghost use Rattle.std.specs.Prelude.{Some, None};

    ghost written = { λ s. Some s.written };

    ghost faults = { λ s. s.faults };

    ghost beside = { λ s. record { bytes = None; faults = 0 } };

    fn write(&mut self, bytes: &[u8]) -> Result<usize, Failed> {
        let count = bytes.len().min(self.most);
        if self.calls.next_fails() || self.bytes.extend(&bytes[..count]).is_err() {
            self.faults = self.faults.saturating_add(1);
            return Err(Failed {});
        }
        Ok(count)
    }
}
