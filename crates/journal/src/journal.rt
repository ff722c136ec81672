//! The journal's value.

ghost use Rattle.std.specs.Prelude.{◌≡◌, ◌≢◌, ◌+◌, ◌^◌, ◌<◌, ◌≤◌, ◌++◌, ◌↔◌, [], ◌∷◌, List as Seq, ℕ, IsTrue, length, OnOk, OnErr, IfOk, IsErrOf, vec_capacity};
ghost use Rattle.base.specs.Causes.{Rose};
ghost use Rattle.bank.specs.View.{Wrote, LeavesOnly};
ghost use Rattle.journal.specs.Records.{IsPayload, AllHold, IsBeforeOrAfter, end_of};

use crate::gate::open_gate;
use crate::refusal::AppendRefusal;
use crate::writing::{BUFFER_ROOM, write_closed};
use bank::Bank;
use base::JOURNAL_SIZE_MAX;
use std::marker::Model;

/// A journal in area 0 of a store. Contracts see its `place`, at which the next record goes, its `size`, the
/// bytes of the area, and its `count` of records.
#[derive(Drop)]
pub struct Journal {
    place: u64,
    size: u64,
    count: u64,
    buffer: Vec<u8>,
}

impl Model for Journal {
    ghost use Rattle.std.specs.Prelude.{◌≤◌, vec_capacity};
    ghost use Rattle.journal.specs.State.{JournalState};

    ghost Value = { JournalState };

    ghost use Rattle.journal.specs.Inside.{IsWithin};

    ghost view = { λ j. record { place = j.place; size = j.size; count = j.count } };

    ghost invariant = { IsWithin };
}

impl Journal {
    // A journal whose next record goes to this place, behind so many records.
    pub(crate) fn behind(place: u64, size: u64, count: u64, buffer: Vec<u8>) -> Self
        requires size { size ≤ JOURNAL_SIZE_MAX }
        requires fits { place ≤ size }
        requires few { count ≤ place }
        requires room { BUFFER_ROOM ≤ vec_capacity buffer }
        ensures place { result.place ≡ place }
        ensures size { result.size ≡ size }
        ensures count { result.count ≡ count }
    {
        Journal {
            place,
            size,
            count,
            buffer,
        }
    }

    /// The bytes of its area, at most 268,435,456.
    pub fn size(&self) -> u64
        ensures size { result ≡ self.now.size }
        ensures bounded { result ≤ JOURNAL_SIZE_MAX }
    {
        self.size
    }

    /// How many records there are.
    pub fn count(&self) -> u64
        ensures { result ≡ self.now.count }
    {
        self.count
    }

    /// Whether a payload of so many bytes has room, with a closed gate behind it.
    pub fn has_room(&self, length: usize) -> bool
        ensures { IsTrue result ↔ (self.now.place + 6 + length ≤ self.now.size) }
    {
        let left = self.size - self.place;
        left >= 6 && length as u64 <= left - 6
    }

    /// Adds a record of 1 to 1,048,576 bytes, and gives its number. At `Ok` it is on the medium. It takes no
    /// memory. A journal that answered `BankFault` is used no more: its last record may be there or not.
    pub fn append<B: Bank>(&mut self, bank: &mut B, payload: &[u8]) -> Result<u64, AppendRefusal>
        requires { IsPayload payload.now }

        // A crash at any instant of the call leaves the records from before it, with the new one or without.
        ensures any_instant { IsTrue B.tells → (payloads : Seq (Seq ℕ)) → self.old.place ≡ end_of 0 payloads → AllHold (B.view bank.old) payloads self.old.size
            → LeavesOnly (B.view bank.old) (B.view bank.new) (IsBeforeOrAfter (B.view bank.old) payloads payload.now self.old.size) }

        // At `Ok` each crash leaves them with it.
        ensures acknowledged { IsTrue B.tells → (payloads : Seq (Seq ℕ)) → self.old.place ≡ end_of 0 payloads → AllHold (B.view bank.old) payloads self.old.size
            → OnOk result (AllHold (B.view bank.new) (payloads ++ payload.now ∷ []) self.old.size) }

        // No byte but the record's and that of the gate behind it is written, in no other area either.
        ensures wrote { IsTrue B.tells → Wrote 0 self.old.place (6 + length payload.now) (B.view bank.old) (B.view bank.new) }

        ensures place { OnOk result (self.new.place ≡ self.old.place + 5 + length payload.now) }
        ensures size { self.new.size ≡ self.old.size }
        ensures count { IfOk result (λ n. (n ≡ self.old.count + 1) × (self.new.count ≡ n)) }
        ensures err { OnErr result (self.new ≡ self.old) }

        // The journal is full exactly where the record has no room. Nothing is touched then.
        ensures full { IsErrOf result AppendRefusal.JournalFull ↔ (self.old.size < self.old.place + 6 + length payload.now) }
        ensures untouched { IsErrOf result AppendRefusal.JournalFull → bank.new ≡ bank.old }

        // A fault is answered only where the store counted one, and the last was in area 0.
        ensures later { B.faults bank.old ≤ B.faults bank.new }
        ensures journal_later { B.journal_faults bank.old ≤ B.journal_faults bank.new }
        ensures fault { IsErrOf result AppendRefusal.BankFault → Rose (B.faults bank.old) (B.faults bank.new) }
        ensures journal_fault { IsErrOf result AppendRefusal.BankFault → Rose (B.journal_faults bank.old) (B.journal_faults bank.new) }
        ensures area { IsErrOf result AppendRefusal.BankFault → B.last_fault bank.new ≡ 0 }
        ensures last { OnOk result (B.last_fault bank.new ≡ B.last_fault bank.old) }
    {
        if !self.has_room(payload.len()) {
            return Err(AppendRefusal::JournalFull);
        }
        write_closed(bank, &mut self.buffer, self.place, payload)?;
        open_gate(bank, self.place)?;
        self.place += 5 + payload.len() as u64;
        self.count += 1;
        Ok(self.count)
    }
}
