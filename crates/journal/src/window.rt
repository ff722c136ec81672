//! A stretch of the journal's area in memory.

ghost use Rattle.std.specs.Prelude.{◌≡◌, ◌≢◌, ◌+◌, ◌^◌, ◌<◌, ◌≤◌, [], ◌∷◌, IsTrue, length, vec_len, OnOk, IfOk, MatchOption, slice_index, slice_range};
ghost use Rattle.std.specs.Int.{w32, to_le_bytes};
ghost use Rattle.base.specs.declared.limits.TheConstants.{JOURNAL_SIZE_MAX, PAYLOAD_MAX};
ghost use Rattle.bank.specs.Content.{Stands};
ghost use Rattle.bank.specs.View.{OnlyRead};
ghost use Rattle.journal.specs.Calls.{AreCounted};

use bank::{Bank, BankFailed};
use base::{JOURNAL_SIZE_MAX, PAYLOAD_MAX};
use std::alloc::{AllocError, Global};

/// The bytes of a window: the longest record fits.
pub const WINDOW_BYTES: usize = HEAD + PAYLOAD_MAX as usize;

/// The bytes of a record before its payload: the gate and the length.
pub const HEAD: usize = 5;

/// Bytes of area 0 as they were read, from a place on.
#[derive(Drop)]
pub struct Window {
    /// The place of the first.
    pub start: u64,
    pub bytes: Vec<u8>,
    pub ghost range: { start < JOURNAL_SIZE_MAX },
    pub ghost whole: { vec_len bytes ≡ 5 + PAYLOAD_MAX },
}

// The length that stands behind an open gate, or none where the gate is closed.
fn length_in(head: &[u8]) -> Option<u32>
    requires { length head.now ≡ 5 }
    ensures { MatchOption result (slice_index head.now 0 ≢ 1) (λ n. (n < 2 ^ 32) × (head.now ≡ 1 ∷ to_le_bytes w32 n)) }
{
    if head[0] != 1 {
        return None;
    }
    Some(u32::from_le_bytes([head[1], head[2], head[3], head[4]]))
}

// So many zeros. A function of its own, so that no proof computes the list of as many as a window has.
fn zeros(alloc: Global, count: usize) -> Result<Vec<u8>, AllocError>
    ensures { IfOk result (λ v. vec_len v ≡ count) }
{
    let Ok(bytes) = vec![in alloc; 0u8; count] else {
        return Err(AllocError);
    };
    Ok(bytes)
}

impl Window {
    /// A window at place 0, into which nothing was read.
    pub fn new(alloc: Global) -> Result<Self, AllocError>
        ensures { IfOk result (λ window. window.start ≡ 0) }
    {
        let bytes = zeros(alloc, WINDOW_BYTES)?;
        Ok(Window { start: 0, bytes })
    }

    /// Reads all its bytes anew, from a place on.
    pub fn refill<B: Bank>(&mut self, bank: &mut B, place: u64) -> Result<(), BankFailed>
        requires { place < JOURNAL_SIZE_MAX }
        ensures unchanged { IsTrue B.tells → OnlyRead (B.view bank.old) (B.view bank.new) }
        ensures stands { IsTrue B.tells → OnOk result (Stands ((B.view bank.old).content 0) place self.new.bytes.items) }
        ensures start { self.new.start ≡ place }
        ensures counted { AreCounted B.faults B.journal_faults B.last_fault bank.old bank.new result }
    {
        self.start = place;
        bank.read(0, place, &mut self.bytes)
    }

    /// Where in the window so many bytes from a place on stand. They are read where it lacks some of them.
    pub fn cover<B: Bank>(
        &mut self,
        bank: &mut B,
        place: u64,
        count: usize,
    ) -> Result<usize, BankFailed>
        requires place { place < JOURNAL_SIZE_MAX }
        requires count { count ≤ WINDOW_BYTES }
        ensures unchanged { IsTrue B.tells → OnlyRead (B.view bank.old) (B.view bank.new) }
        ensures over { IsTrue B.tells → Stands ((B.view bank.old).content 0) self.old.start self.old.bytes.items → OnOk result (Stands ((B.view bank.old).content 0) self.new.start self.new.bytes.items) }
        ensures place { IfOk result (λ offset. self.new.start + offset ≡ place) }
        ensures within { IfOk result (λ offset. offset + count ≤ WINDOW_BYTES) }
        ensures counted { AreCounted B.faults B.journal_faults B.last_fault bank.old bank.new result }
    {
        if self.start <= place && place + count as u64 <= self.start + WINDOW_BYTES as u64 {
            return Ok((place - self.start) as usize);
        }
        self.refill(bank, place)?;
        Ok(0)
    }

    /// So many bytes from an offset on.
    pub fn slice(&self, offset: usize, count: usize) -> &[u8]
        requires { offset + count ≤ WINDOW_BYTES }
        ensures { result.now ≡ slice_range self.now.bytes.items offset (offset + count) }
    {
        &self.bytes[offset..offset + count]
    }

    /// The length of the record at a place, or none where its gate is closed.
    pub fn head_at<B: Bank>(&mut self, bank: &mut B, place: u64) -> Result<Option<u32>, BankFailed>
        requires { place < JOURNAL_SIZE_MAX }
        ensures unchanged { IsTrue B.tells → OnlyRead (B.view bank.old) (B.view bank.new) }
        ensures over { IsTrue B.tells → Stands ((B.view bank.old).content 0) self.old.start self.old.bytes.items → OnOk result (Stands ((B.view bank.old).content 0) self.new.start self.new.bytes.items) }
        ensures head { IsTrue B.tells → Stands ((B.view bank.old).content 0) self.old.start self.old.bytes.items
            → IfOk result (λ o. MatchOption o ((B.view bank.old).content 0 place ≢ 1) (λ n. (n < 2 ^ 32) × Stands ((B.view bank.old).content 0) place (1 ∷ to_le_bytes w32 n))) }
        ensures counted { AreCounted B.faults B.journal_faults B.last_fault bank.old bank.new result }
    {
        let offset = self.cover(bank, place, HEAD)?;
        Ok(length_in(self.slice(offset, HEAD)))
    }
}
