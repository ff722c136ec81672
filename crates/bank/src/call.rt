//! The calls of a store in memory, as it records them.

ghost use Rattle.std.specs.Prelude.{◌≡◌, ℕ, ◌+◌, ◌-◌, ◌^◌, ◌<◌, ◌≤◌, length, replicate, slice_index, if◌then◌else◌, IfOk};
ghost use Rattle.bank.specs.Failing.{same_kind};

use base::Bytes;
use std::alloc::{AllocError, Global};

/// A kind of call.
#[derive(Clone, Copy, Debug, PartialEq, Eq)]
pub enum BankCall {
    Read,
    Write,
    Sync,
}

/// A call that is to fail: that of this kind on this area which has this number, counted from 1.
#[derive(Clone, Copy, Debug)]
pub struct FailAt {
    pub area: u32,
    pub call: BankCall,
    pub number: u64,
}

/// A call that was made.
#[derive(Drop)]
pub struct Call {
    pub area: u32,
    pub kind: BankCall,
    /// Where a read or a write began; 0 for a sync.
    pub place: u64,
    /// What was to be written; nothing for a read or a sync.
    pub bytes: Bytes,
    /// Whether it did its work. One that did not has changed nothing.
    pub done: bool,
}

/// Whether two kinds are the same.
pub(crate) fn same_kind(one: BankCall, other: BankCall) -> bool
    ensures { result ≡ same_kind one other }
{
    one == other
}

impl Call {
    ghost use Rattle.bank.specs.Past.{covers, is_write_of, is_sync_of};

    /// Whether it wrote in this area.
    pub fn is_write_of(&self, area: u32) -> bool
        ensures { result ≡ is_write_of self.now area }
    {
        self.done && self.kind == BankCall::Write && self.area == area
    }

    /// Whether it synced this area.
    pub fn is_sync_of(&self, area: u32) -> bool
        ensures { result ≡ is_sync_of self.now area }
    {
        self.done && self.kind == BankCall::Sync && self.area == area
    }

    /// A copy.
    pub(crate) fn copy(&self) -> Result<Self, AllocError>
        ensures { IfOk result (λ c. c ≡ self.now) }
    {
        Ok(self.with_bytes(self.bytes.copy()?))
    }

    /// A copy with other bytes in place of those that it wrote.
    pub(crate) fn filled(&self, alloc: Global, byte: u8) -> Result<Self, AllocError>
        ensures { IfOk result (λ c. c ≡ record self.now { bytes = replicate (length self.now.bytes) byte }) }
    {
        let bytes = vec![in alloc; byte; self.bytes.len()]?;
        Ok(self.with_bytes(Bytes::from_vec(bytes)))
    }

    fn with_bytes(&self, bytes: Bytes) -> Self
        ensures { result ≡ record self.now { bytes = bytes } }
    {
        Call {
            area: self.area,
            kind: self.kind,
            place: self.place,
            bytes,
            done: self.done,
        }
    }

    /// Puts what it wrote into a piece of an area that begins at a place.
    pub(crate) fn overlay(&self, area: u32, place: u64, piece: &mut [u8])
        requires { place + length piece.old < 2 ^ 63 }
        ensures { (k : ℕ) → k < length piece.old → slice_index piece.new k
            ≡ (if covers self.now area (place + k) then slice_index self.now.bytes (place + k - self.now.place) else slice_index piece.old k) }
    {
        let bytes = self.bytes.as_slice();
        let end = self
            .place
            .saturating_add(bytes.len() as u64)
            .min(place + piece.len() as u64);
        let from = self.place.max(place);
        if self.is_write_of(area) && from < end {
            let ours = &bytes[(from - self.place) as usize..(end - self.place) as usize];
            piece[(from - place) as usize..(end - place) as usize].copy_from_slice(ours);
        }
    }
}
