//! A source over bytes in memory.

ghost use Rattle.std.specs.Prelude.{◌≡◌, ◌<◌, ◌≤◌, length, take, []};

use crate::memory::calls::Calls;
use crate::stream::{Failed, Source};
use base::{Bytes, List};
use std::marker::Model;

// Copies the first bytes, at most `most` of them.
fn copy_front(into: &mut [u8], from: &[u8], most: usize) -> usize
    requires { 0 < most }
    ensures within { result ≤ length into.new }
    ensures fits { result ≤ length from.now }
    ensures copied { take result into.new ≡ take result from.now }
    ensures some { result ≡ 0 → 0 < length into.new → from.now ≡ [] }
{
    let count = into.len().min(from.len()).min(most);
    into[..count].copy_from_slice(&from[..count]);
    count
}

/// A source over bytes in memory, which gives at most so many of them in one call.
#[derive(Drop)]
pub struct MemorySource {
    bytes: Bytes,
    at: usize,
    most: usize,
    calls: Calls,
    faults: u64,
}

impl Model for MemorySource {
    ghost use Rattle.std.specs.Prelude.{◌<◌, ◌≤◌, length, drop};
    ghost use Rattle.outside.specs.Memory.{Unread};

    ghost Value = { Unread };

    ghost view = { λ s. record { left = drop s.at s.bytes; faults = s.faults } };

    ghost invariant = { λ s. (s.at ≤ length s.bytes) × (0 < s.most) };
}

impl MemorySource {
    /// A source of these bytes. It gives at most `most` of them in one call, and the calls with these numbers fail.
    pub fn new(bytes: Bytes, most: usize, failing: List<u64>) -> Self
        requires { 0 < most }
        ensures left { result.left ≡ bytes }
        ensures faults { result.faults ≡ 0 }
    {
        MemorySource {
            bytes,
            at: 0,
            most,
            calls: Calls::new(failing),
            faults: 0,
        }
    }

    /// The bytes left.
    pub fn left(&self) -> &[u8]
        ensures { result.now ≡ self.now.left }
    {
        &self.bytes.as_slice()[self.at..]
    }

    /// How many calls have failed.
    pub fn faults(&self) -> u64
        ensures { result ≡ self.now.faults }
    {
        self.faults
    }
}

impl Source for MemorySource {
    ghost use Rattle.std.specs.Prelude.{Some, None};

    ghost left = { λ s. Some s.left };

    ghost faults = { λ s. s.faults };

    ghost beside = { λ s. record { bytes = None; faults = 0 } };

    fn read(&mut self, into: &mut [u8]) -> Result<usize, Failed> {
        if self.calls.next_fails() {
            self.faults = self.faults.saturating_add(1);
            return Err(Failed {});
        }
        let count = copy_front(into, &self.bytes.as_slice()[self.at..], self.most);
        self.at += count;
        Ok(count)
    }
}
