//! The records as a store reads.

ghost use Rattle.std.specs.Prelude.{◌≡◌, ◌+◌, ◌<◌, ◌≤◌, [], IsTrue, OnOk, IfOk, IsErrOf, ◌⊎◌};
ghost use Rattle.base.specs.Causes.{Rose};
ghost use Rattle.bank.specs.View.{OnlyRead, OnlyContent};
ghost use Rattle.journal.specs.Calls.{AreCounted};
ghost use Rattle.journal.specs.Readers.{IsOver, IsFound, GoesOn};

use crate::journal::Journal;
use crate::refusal::JournalRefusal;
use crate::window::{HEAD, Window};
use crate::writing::BUFFER_ROOM;
use bank::{Bank, BankFailed};
use base::{JOURNAL_SIZE_MAX, PAYLOAD_MAX};
use std::alloc::Global;
use std::marker::Model;

/// What stands behind the records that were read.
#[derive(Clone, Copy, Debug, PartialEq, Eq)]
pub enum Found {
    /// A further record.
    Record,
    /// A closed gate, or the end of the area.
    End,
    /// An open gate with a length that no record there has.
    BadLength,
}

/// Reads the records of a journal one after another. Contracts see its `place`, at which the next record stands, the `size` of the
/// area, the `count` of the records that it has passed and the `payload` of the last of them. It takes memory once.
#[derive(Drop)]
pub struct Reader {
    window: Window,
    place: u64,
    size: u64,
    count: u64,
    // Where in the window the payload in hand stands, and its bytes.
    offset: usize,
    length: usize,
    // That of the journal.
    buffer: Vec<u8>,
}

impl Model for Reader {
    ghost use Rattle.std.specs.Prelude.{◌+◌, slice_range};
    ghost use Rattle.journal.specs.Readers.{ReaderState};
    ghost use Rattle.journal.specs.Inside.{IsReading};

    ghost Value = { ReaderState };

    ghost view = { λ r. record {
      place = r.place;
      size = r.size;
      count = r.count;
      payload = slice_range r.window.bytes.items r.offset (r.offset + r.length);
      start = r.window.start;
      window = r.window.bytes.items;
    } };

    ghost invariant = { IsReading };
}

impl Reader {
    /// Begins to read the journal in the first `size` bytes of area 0, at most 268,435,456: it syncs the area, and reads its first
    /// bytes. It writes nothing.
    pub fn open<B: Bank>(alloc: Global, bank: &mut B, size: u64) -> Result<Reader, JournalRefusal>
        requires { size ≤ JOURNAL_SIZE_MAX }

        // No byte and no image comes that was not there, and at `Ok` a crash leaves of the area what it reads.
        ensures unchanged { IsTrue B.tells → OnlyRead (B.view bank.old) (B.view bank.new) }
        ensures durable { IsTrue B.tells → OnOk result (OnlyContent 0 (B.view bank.new)) }

        // It stands before the first record.
        ensures over { IsTrue B.tells → IfOk result (IsOver ((B.view bank.new).content 0)) }
        ensures place { IfOk result (λ reader. reader.place ≡ 0) }
        ensures size { IfOk result (λ reader. reader.size ≡ size) }
        ensures count { IfOk result (λ reader. reader.count ≡ 0) }

        // A fault is answered only where the store counted one, and the last was in area 0.
        ensures later { B.faults bank.old ≤ B.faults bank.new }
        ensures journal_later { B.journal_faults bank.old ≤ B.journal_faults bank.new }
        ensures fault { IsErrOf result JournalRefusal.BankFault → Rose (B.faults bank.old) (B.faults bank.new) }
        ensures journal_fault { IsErrOf result JournalRefusal.BankFault → Rose (B.journal_faults bank.old) (B.journal_faults bank.new) }
        ensures area { IsErrOf result JournalRefusal.BankFault → B.last_fault bank.new ≡ 0 }
        ensures last { IsErrOf result JournalRefusal.BankFault ⊎ (B.last_fault bank.new ≡ B.last_fault bank.old) }
    {
        let buffer = Vec::with_capacity(alloc, BUFFER_ROOM)?;
        let mut window = Window::new(alloc)?;
        bank.sync(0)?;
        window.refill(bank, 0)?;
        Ok(Reader {
            window,
            place: 0,
            size,
            count: 0,
            offset: 0,
            length: 0,
            buffer,
        })
    }

    /// Where the next record stands: at most 268,435,456. So many records at most were passed.
    pub fn place(&self) -> u64
        ensures place { result ≡ self.now.place }
        ensures bounded { result ≤ JOURNAL_SIZE_MAX }
        ensures few { self.now.count ≤ result }
    {
        self.place
    }

    /// The payload of the last record that was passed; nothing before the first.
    pub fn payload(&self) -> &[u8]
        ensures { result.now ≡ self.now.payload }
    {
        self.window.slice(self.offset, self.length)
    }

    /// What stands behind the records so far. Behind a record the reader goes on, and has its payload then. It takes no memory.
    pub fn advance<B: Bank>(&mut self, bank: &mut B) -> Result<Found, BankFailed>
        ensures unchanged { IsTrue B.tells → OnlyRead (B.view bank.old) (B.view bank.new) }
        ensures over { IsTrue B.tells → IsOver ((B.view bank.old).content 0) self.old → OnOk result (IsOver ((B.view bank.old).content 0) self.new) }
        ensures found { IsTrue B.tells → IsOver ((B.view bank.old).content 0) self.old → IfOk result (IsFound ((B.view bank.old).content 0) self.old self.new) }
        ensures on { IfOk result (GoesOn self.old self.new) }
        ensures size { self.new.size ≡ self.old.size }
        ensures counted { AreCounted B.faults B.journal_faults B.last_fault bank.old bank.new result }
    {
        if self.place >= self.size {
            return Ok(Found::End);
        }
        let Some(length) = self.window.head_at(bank, self.place)? else {
            return Ok(Found::End);
        };
        if length == 0 || length > PAYLOAD_MAX || self.place + 5 + length as u64 > self.size {
            return Ok(Found::BadLength);
        }
        self.offset = self
            .window
            .cover(bank, self.place + HEAD as u64, length as usize)?;
        self.length = length as usize;
        self.place = self.place + 5 + length as u64;
        self.count += 1;
        Ok(Found::Record)
    }

    /// The journal, whose next record goes behind those that were passed.
    pub fn into_journal(self) -> Journal
        ensures place { result.place ≡ self.place }
        ensures size { result.size ≡ self.size }
        ensures count { result.count ≡ self.count }
    {
        let Reader {
            place,
            size,
            count,
            buffer,
            ..
        } = self;
        Journal::behind(place, size, count, buffer)
    }
}
