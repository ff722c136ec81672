//! The gate of a record.

ghost use Rattle.std.specs.Prelude.{◌≡◌, ◌<◌, IsTrue, OnOk};
ghost use Rattle.bank.specs.View.{Wrote, OnlyContent};
ghost use Rattle.journal.specs.Calls.{AreCounted};

use bank::{Bank, BankFailed};
use base::JOURNAL_SIZE_MAX;

/// Opens the gate at a place, and syncs.
pub fn open_gate<B: Bank>(bank: &mut B, place: u64) -> Result<(), BankFailed>
    requires { place < JOURNAL_SIZE_MAX }
    ensures wrote { IsTrue B.tells → Wrote 0 place 1 (B.view bank.old) (B.view bank.new) }
    ensures opened { IsTrue B.tells → OnOk result ((B.view bank.new).content 0 place ≡ 1) }
    ensures durable { IsTrue B.tells → OnOk result (OnlyContent 0 (B.view bank.new)) }
    ensures counted { AreCounted B.faults B.journal_faults B.last_fault bank.old bank.new result }
{
    bank.write(0, place, &[1])?;
    bank.sync(0)
}
