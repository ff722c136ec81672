//! A store in memory, which records its calls and fails by a list.

ghost use Rattle.std.specs.Prelude.{◌≡◌, ◌⊎◌, ◌+◌, ◌^◌, ◌<◌, ◌≤◌, ℕ, true, false, [], ◌∷◌, ◌++◌, reverse, take, IsTrue, length, IfOk, IsOkAnd, OnOk, OnErr, IsErr};
ghost use Rattle.base.specs.Causes.{HasCause};
ghost use Rattle.bank.specs.Content.{Stands, Same};
ghost use Rattle.bank.specs.Faults.{HasJournalCause};
ghost use Rattle.bank.specs.Past.{content_of};
ghost use Rattle.bank.specs.Failing.{same_kind, count_of, is_listed};

use crate::bank::{Bank, BankFailed};
use crate::call::{BankCall, Call, FailAt, same_kind};
use crate::crash::add_left;
use base::{Bytes, List};
use std::alloc::{AllocError, Global};

/// A store in memory. It keeps a record of its calls, and fails those of a list; one that fails changes nothing.
/// A call that is refused for want of memory counts as a fault, and is not in the record.
/// The instant is the number of recorded calls.
#[derive(Drop)]
pub struct MemoryBank {
    alloc: Global,
    before: List<Call>,
    calls: List<Call>,
    fail: List<FailAt>,
    faults: u64,
    journal_faults: u64,
    last_fault: u32,
}

// Fills a piece with what some calls, the oldest first, have left of an area that began with zeros.
fn fill(before: &[Call], calls: &[Call], area: u32, place: u64, piece: &mut [u8])
    requires { place + length piece.old < 2 ^ 63 }
    ensures { Stands (content_of (content_of (λ a k. 0) (reverse before.now)) (reverse calls.now) area) place piece.new }
{
    for byte in piece.iter_mut() {
        *byte = 0;
    }
    for call in before {
        call.overlay(area, place, piece);
    }
    for call in calls {
        call.overlay(area, place, piece);
    }
}

// How many calls of this kind an area had.
fn count_of(calls: &[Call], area: u32, kind: BankCall) -> u64
    ensures { result ≡ count_of calls.now area kind }
{
    calls
        .iter()
        .filter(|c| c.area == area && same_kind(c.kind, kind))
        .count() as u64
}

// Whether the next call of this kind on this area is to fail.
fn is_listed(fail: &[FailAt], calls: &[Call], area: u32, kind: BankCall) -> bool
    ensures { result ≡ is_listed fail.now calls.now area kind }
{
    fail.iter().any(|f| {
        f.area == area && same_kind(f.call, kind) && f.number == count_of(calls, area, kind) + 1
    })
}

impl MemoryBank {
    ghost use Rattle.bank.specs.declared.call.Call.{Call};
    ghost use Rattle.bank.specs.Past.{IsImageAt, LeftSince, view_of};
    ghost use Rattle.bank.specs.View.{OnlyContent};
    ghost use Rattle.bank.specs.Crash.{picked};
    ghost use Rattle.bank.specs.Memory.{began, past_of, past_at, IsAnew, Records};

    /// A store of zeros, with the calls that are to fail. It takes no memory.
    pub fn new(alloc: Global, fail: List<FailAt>) -> Result<Self, AllocError>
        ensures zeros { IsOkAnd result (λ m. (a k : ℕ) → began m a k ≡ 0) }
        ensures anew { IsOkAnd result (λ m. IsAnew m fail) }
    {
        Ok(MemoryBank {
            alloc,
            before: List::new(alloc),
            calls: List::new(alloc),
            fail,
            faults: 0,
            journal_faults: 0,
            last_fault: 0,
        })
    }

    /// The calls so far, the oldest first.
    pub fn calls(&self) -> &[Call]
        ensures { result.now ≡ self.now.calls }
    {
        self.calls.as_slice()
    }

    /// The store after a crash at an instant, or at the last call's if it comes earlier: one of the images that may be
    /// left then. Pick 0 is without each write that was not synced, 1 with all of them, any other with the byte 0xA5
    /// all over the range of each. Its calls start anew, and none of them is to fail.
    pub fn crashed(&self, instant: u64, pick: u8) -> Result<Self, AllocError>
        ensures image { IfOk result (λ m. IsImageAt (began self.now) (past_at self.now instant) (began m)) }
        ensures left { IfOk result (λ m. (t : ℕ) → t ≤ length (past_at self.now instant) → LeftSince (began self.now) (past_of self.now) t (began m)) }
        ensures picked { IfOk result (λ m. (a k : ℕ) → began m a k ≡ picked pick (began self.now) (past_at self.now instant) a k) }
        ensures anew { IfOk result (λ m. IsAnew m []) }
        // It reads as that image, and a crash leaves what it reads.
        ensures content { IfOk result (λ m. (view_of (began m) (past_of m)).content ≡ began m) }
        ensures only { IfOk result (λ m. (area : ℕ) → OnlyContent area (view_of (began m) (past_of m))) }
    {
        let alloc = self.alloc;
        let count = self.calls.len().min(instant as usize);
        let mut before = Vec::with_capacity(alloc, self.before.len())?;
        for call in self.before.as_slice() {
            before.push(call.copy()?)?;
        }
        let before = add_left(alloc, before, &self.calls.as_slice()[..count], pick)?;
        Ok(MemoryBank {
            alloc,
            before: List::from_vec(before),
            calls: List::new(alloc),
            fail: List::new(alloc),
            faults: 0,
            journal_faults: 0,
            last_fault: 0,
        })
    }

    // Counts a fault.
    fn refuse(&mut self, area: u32) -> Result<(), BankFailed>
        ensures kept { self.new ≡ record self.old { faults = self.new.faults; journal_faults = self.new.journal_faults; last_fault = area } }
        ensures cause { HasCause self.old.faults self.new.faults result }
        ensures journal_cause { HasJournalCause area self.old.journal_faults self.new.journal_faults result }
        ensures err { IsErr result }
    {
        self.faults = self.faults.saturating_add(1);
        if area == 0 {
            self.journal_faults = self.journal_faults.saturating_add(1);
        }
        self.last_fault = area;
        Err(BankFailed {})
    }

    // Records a call, and says whether it is to do its work.
    fn note(
        &mut self,
        kind: BankCall,
        area: u32,
        place: u64,
        bytes: &[u8],
    ) -> Result<(), BankFailed>
        ensures recorded { Records kind area place bytes.now self.old self.new result }
        ensures cause { HasCause self.old.faults self.new.faults result }
        ensures journal_cause { HasJournalCause area self.old.journal_faults self.new.journal_faults result }
        ensures area { OnErr result (self.new.last_fault ≡ area) }
        ensures last { OnOk result (self.new.last_fault ≡ self.old.last_fault) }
    {
        let done = !is_listed(self.fail.as_slice(), self.calls.as_slice(), area, kind);
        let Ok(bytes) = Bytes::from_slice(self.alloc, bytes) else {
            return self.refuse(area);
        };
        let call = Call {
            area,
            kind,
            place,
            bytes,
            done,
        };
        if self.calls.push(call).is_err() {
            return self.refuse(area);
        }
        if done { Ok(()) } else { self.refuse(area) }
    }
}

impl Bank for MemoryBank {
    ghost use Rattle.bank.specs.Past.{view_of};
    ghost use Rattle.bank.specs.Sound.{sound_of};
    ghost use Rattle.bank.specs.View.{Unchanged, Touches, OnlyContent};
    ghost use Rattle.bank.specs.Memory.{began, past_of, Records};

    ghost tells = { true };

    ghost view = { λ m. view_of (began m) (past_of m) };

    ghost faults = { λ m. m.faults };

    ghost last_fault = { λ m. m.last_fault };

    ghost journal_faults = { λ m. m.journal_faults };

    ghost sound = { λ m told. sound_of (began m) (past_of m) };

    fn read(&mut self, area: u32, place: u64, into: &mut [u8]) -> Result<(), BankFailed>
        requires { place + length into.old < 2 ^ 63 }
        ensures bytes { OnOk result (Stands (content_of (began self.old) (past_of self.old) area) place into.new) }
        ensures unchanged { Unchanged (view_of (began self.old) (past_of self.old)) (view_of (began self.new) (past_of self.new)) }
        ensures recorded { Records BankCall.Read area place [] self.old self.new result }
        ensures cause { HasCause self.old.faults self.new.faults result }
        ensures journal_cause { HasJournalCause area self.old.journal_faults self.new.journal_faults result }
        ensures area { OnErr result (self.new.last_fault ≡ area) }
        ensures last { OnOk result (self.new.last_fault ≡ self.old.last_fault) }
    {
        self.note(BankCall::Read, area, place, &[])?;
        fill(
            self.before.as_slice(),
            self.calls.as_slice(),
            area,
            place,
            into,
        );
        Ok(())
    }

    fn write(&mut self, area: u32, place: u64, bytes: &[u8]) -> Result<(), BankFailed>
        requires { place + length bytes.now < 2 ^ 63 }
        ensures written { OnOk result (Stands (content_of (began self.new) (past_of self.new) area) place bytes.now) }
        ensures torn { Touches area place (length bytes.now) (view_of (began self.old) (past_of self.old)) (view_of (began self.new) (past_of self.new)) }
        ensures later { OnOk result (length (past_of self.old) < length (past_of self.new)) }
        ensures recorded { Records BankCall.Write area place bytes.now self.old self.new result }
        ensures cause { HasCause self.old.faults self.new.faults result }
        ensures journal_cause { HasJournalCause area self.old.journal_faults self.new.journal_faults result }
        ensures area { OnErr result (self.new.last_fault ≡ area) }
        ensures last { OnOk result (self.new.last_fault ≡ self.old.last_fault) }
    {
        self.note(BankCall::Write, area, place, bytes)
    }

    fn sync(&mut self, area: u32) -> Result<(), BankFailed>
        ensures durable { OnOk result (OnlyContent area (view_of (began self.new) (past_of self.new))) }
        ensures unchanged { Unchanged (view_of (began self.old) (past_of self.old)) (view_of (began self.new) (past_of self.new)) }
        ensures later { OnOk result (length (past_of self.old) < length (past_of self.new)) }
        ensures recorded { Records BankCall.Sync area 0 [] self.old self.new result }
        ensures cause { HasCause self.old.faults self.new.faults result }
        ensures journal_cause { HasJournalCause area self.old.journal_faults self.new.journal_faults result }
        ensures area { OnErr result (self.new.last_fault ≡ area) }
        ensures last { OnOk result (self.new.last_fault ≡ self.old.last_fault) }
    {
        self.note(BankCall::Sync, area, 0, &[])
    }

    fn instant(&self) -> u64
        ensures { result ≡ length (past_of self.now) }
    {
        self.calls.len() as u64
    }
}
