//! A store of numbered areas of bytes.

ghost use Rattle.std.specs.Prelude.{◌≡◌, ◌+◌, ◌^◌, ◌<◌, ◌≤◌, ℕ, Bool, IsTrue, length, OnOk, OnErr};
ghost use Rattle.base.specs.Causes.{HasCause};
ghost use Rattle.bank.specs.Content.{Stands};
ghost use Rattle.bank.specs.Faults.{HasJournalCause};
ghost use Rattle.bank.specs.View.{View, IsSound, Unchanged, Touches, OnlyContent};

/// A call failed, and the store counted it.
#[derive(Clone, Copy, Debug, PartialEq, Eq)]
pub struct BankFailed {}

/// Numbered areas of bytes, which are zero where they were never written. Area 0 is the journal, area 1 the
/// cache, area `2 + k` the volume `k` of the catalog, counted from 0.
///
/// Between two syncs of an area each written range may hold any bytes after a crash. After a sync that succeeds
/// a crash leaves of that area what a read gives.
pub trait Bank: Drop {
    /// Whether the store tells its content. No call changes that.
    ghost tells: { Bool };

    /// What the store tells.
    ghost view: { Self → View };

    /// How many calls have failed.
    ghost faults: { Self → ℕ };

    /// The area of the last call that failed.
    ghost last_fault: { Self → ℕ };

    /// How many calls on area 0 have failed.
    ghost journal_faults: { Self → ℕ };

    /// Reads the bytes from a place on. It changes nothing, failed or not.
    fn read(&mut self, area: u32, place: u64, into: &mut [u8]) -> Result<(), BankFailed>
        requires { place + length into.old < 2 ^ 63 }
        ensures bytes { IsTrue tells → OnOk result (Stands ((view self.old).content area) place into.new) }
        ensures unchanged { IsTrue tells → Unchanged (view self.old) (view self.new) }
        ensures cause { HasCause (faults self.old) (faults self.new) result }
        ensures journal_cause { HasJournalCause area (journal_faults self.old) (journal_faults self.new) result }
        ensures area { OnErr result (last_fault self.new ≡ area) }
        ensures last { OnOk result (last_fault self.new ≡ last_fault self.old) };

    /// Writes bytes from a place on. One that fails may leave any bytes in its range.
    fn write(&mut self, area: u32, place: u64, bytes: &[u8]) -> Result<(), BankFailed>
        requires { place + length bytes.now < 2 ^ 63 }
        ensures written { IsTrue tells → OnOk result (Stands ((view self.new).content area) place bytes.now) }
        ensures torn { IsTrue tells → Touches area place (length bytes.now) (view self.old) (view self.new) }
        ensures later { IsTrue tells → OnOk result ((view self.old).instant < (view self.new).instant) }
        ensures cause { HasCause (faults self.old) (faults self.new) result }
        ensures journal_cause { HasJournalCause area (journal_faults self.old) (journal_faults self.new) result }
        ensures area { OnErr result (last_fault self.new ≡ area) }
        ensures last { OnOk result (last_fault self.new ≡ last_fault self.old) };

    /// Brings an area to the medium. One that fails changes nothing.
    fn sync(&mut self, area: u32) -> Result<(), BankFailed>
        ensures durable { IsTrue tells → OnOk result (OnlyContent area (view self.new)) }
        ensures unchanged { IsTrue tells → Unchanged (view self.old) (view self.new) }
        ensures later { IsTrue tells → OnOk result ((view self.old).instant < (view self.new).instant) }
        ensures cause { HasCause (faults self.old) (faults self.new) result }
        ensures journal_cause { HasJournalCause area (journal_faults self.old) (journal_faults self.new) result }
        ensures area { OnErr result (last_fault self.new ≡ area) }
        ensures last { OnOk result (last_fault self.new ≡ last_fault self.old) };

    /// The instant. It never goes back.
    fn instant(&self) -> u64
        ensures { IsTrue tells → result ≡ (view self.now).instant };

    /// What holds of each view.
    ghost sound: { (b : Self) → IsTrue tells → IsSound (view b) };
}
