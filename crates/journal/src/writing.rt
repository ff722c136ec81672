//! The writes of an append.

ghost use Rattle.std.specs.Prelude.{◌≡◌, ◌+◌, ◌<◌, ◌≤◌, ◌++◌, [], ◌∷◌, IsTrue, length, OnOk, vec_capacity};
ghost use Rattle.bank.specs.Content.{Stands};
ghost use Rattle.bank.specs.View.{Wrote, OnlyContent};
ghost use Rattle.journal.specs.Calls.{AreCounted};
ghost use Rattle.journal.specs.Records.{frame};

use bank::{Bank, BankFailed};
use base::JOURNAL_SIZE_MAX;

/// The most bytes of a payload whose record is written by one call.
pub const SHORT_MAX: usize = 4096;

/// The room that a buffer needs for the frame of such a payload and the gate behind it.
pub const BUFFER_ROOM: usize = SHORT_MAX + 5;

// Makes in the buffer what stands behind the gate, and a closed gate. It takes no memory.
fn fill(buffer: &mut Vec<u8>, payload: &[u8])
    requires short { length payload.now ≤ SHORT_MAX }
    requires room { BUFFER_ROOM ≤ vec_capacity buffer.old }
    ensures framed { buffer.new.items ≡ frame payload.now ++ 0 ∷ [] }
    ensures room { BUFFER_ROOM ≤ vec_capacity buffer.new }
{
    let length = (payload.len() as u32).to_le_bytes();
    buffer.clear();
    buffer.extend_from_slice(&length).unwrap();
    buffer.extend_from_slice(payload).unwrap();
    buffer.push_reserved(0);
}

// One write of a short payload's frame and a closed gate.
fn write_short<B: Bank>(
    bank: &mut B,
    buffer: &mut Vec<u8>,
    place: u64,
    payload: &[u8],
) -> Result<(), BankFailed>
    requires place { place + 6 + length payload.now ≤ JOURNAL_SIZE_MAX }
    requires short { length payload.now ≤ SHORT_MAX }
    requires room { BUFFER_ROOM ≤ vec_capacity buffer.old }
    ensures wrote { IsTrue B.tells → Wrote 0 (place + 1) (5 + length payload.now) (B.view bank.old) (B.view bank.new) }
    ensures framed { IsTrue B.tells → OnOk result (Stands ((B.view bank.new).content 0) (place + 1) (frame payload.now ++ 0 ∷ [])) }
    ensures counted { AreCounted B.faults B.journal_faults B.last_fault bank.old bank.new result }
    ensures room { BUFFER_ROOM ≤ vec_capacity buffer.new }
{
    fill(buffer, payload);
    bank.write(0, place + 1, buffer.as_slice())
}

// The same of any payload, in three writes.
fn write_long<B: Bank>(bank: &mut B, place: u64, payload: &[u8]) -> Result<(), BankFailed>
    requires { place + 6 + length payload.now ≤ JOURNAL_SIZE_MAX }
    ensures wrote { IsTrue B.tells → Wrote 0 (place + 1) (5 + length payload.now) (B.view bank.old) (B.view bank.new) }
    ensures framed { IsTrue B.tells → OnOk result (Stands ((B.view bank.new).content 0) (place + 1) (frame payload.now ++ 0 ∷ [])) }
    ensures counted { AreCounted B.faults B.journal_faults B.last_fault bank.old bank.new result }
{
    let length = (payload.len() as u32).to_le_bytes();
    bank.write(0, place + 1, &length)?;
    bank.write(0, place + 5, payload)?;
    bank.write(0, place + 5 + payload.len() as u64, &[0])
}

/// Writes a payload's frame and a closed gate behind the gate at a place, and syncs. The gate stays as it was.
pub fn write_closed<B: Bank>(
    bank: &mut B,
    buffer: &mut Vec<u8>,
    place: u64,
    payload: &[u8],
) -> Result<(), BankFailed>
    requires place { place + 6 + length payload.now ≤ JOURNAL_SIZE_MAX }
    requires room { BUFFER_ROOM ≤ vec_capacity buffer.old }
    ensures wrote { IsTrue B.tells → Wrote 0 (place + 1) (5 + length payload.now) (B.view bank.old) (B.view bank.new) }
    ensures framed { IsTrue B.tells → OnOk result (Stands ((B.view bank.new).content 0) (place + 1) (frame payload.now ++ 0 ∷ [])) }
    ensures durable { IsTrue B.tells → OnOk result (OnlyContent 0 (B.view bank.new)) }
    ensures counted { AreCounted B.faults B.journal_faults B.last_fault bank.old bank.new result }
    ensures room { BUFFER_ROOM ≤ vec_capacity buffer.new }
{
    if payload.len() <= SHORT_MAX {
        write_short(bank, buffer, place, payload)?;
    } else {
        write_long(bank, place, payload)?;
    }
    bank.sync(0)
}
