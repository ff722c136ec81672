//! A site from its journal.

ghost use Rattle.std.specs.Prelude.{◌≡◌, ◌≤◌, List as Seq, IfOk, IfErr, OnOk, IsTrue};
ghost use Rattle.site_history.specs.Terms.{Terms};
ghost use Rattle.bank.specs.View.{OnlyRead, OnlyContent};
ghost use Rattle.journal.specs.Records.{HoldsRecords};
ghost use Rattle.journal.specs.Readers.{IsOver};
ghost use Rattle.site_history.specs.Steps.{HistoryStep};
ghost use Rattle.site_history.specs.Histories.{written_forms};
ghost use Rattle.engine.specs.Journals.{TellsJournal};
ghost use Rattle.engine.specs.Replayed.{IsReplayed, IsReadUpTo, IsReadToEnd};
ghost use Rattle.engine.specs.Counts.{IsShutFor};

use crate::events::ShutCause;
use bank::Bank;
use base::JOURNAL_SIZE_MAX;
use journal::{Found, Journal, JournalRefusal, Reader};
use site_state::{ReplayRefusal, SiteState};
use std::alloc::Global;

// Makes the steps of all records that are left, one after another.
fn replay_rest<B: Bank>(
    alloc: Global,
    bank: &mut B,
    reader: &mut Reader,
    site: &mut SiteState,
) -> Result<(), ShutCause>
    requires over { IsTrue B.tells → IsOver ((B.view bank.old).content 0) reader.old }
    requires so_far { (terms : Terms) → IsReadUpTo terms B.tells ((B.view bank.old).content 0) reader.old site.old }
    ensures read { (terms : Terms) → OnOk result (IsReadToEnd terms B.tells ((B.view bank.old).content 0) reader.new site.new) }
    ensures size { reader.new.size ≡ reader.old.size }
    ensures unchanged { IsTrue B.tells → OnlyRead (B.view bank.old) (B.view bank.new) }
    ensures bad { IsTrue B.tells → (terms : Terms) → reader.old.size ≡ terms.size → IfErr result (TellsJournal terms ((B.view bank.old).content 0)) }
    ensures causes { IsShutFor B.faults B.journal_faults bank.old bank.new result }
{
    'records: loop {
        let place = reader.place();
        let Ok(found) = reader.advance(bank) else {
            return Err(ShutCause::BankFault);
        };
        match found {
            Found::End => return Ok(()),
            Found::BadLength => return Err(ShutCause::BadJournal(place)),
            Found::Record => match site.replay(alloc, reader.payload()) {
                Ok(()) => {}
                Err(ReplayRefusal::BadStep) => return Err(ShutCause::BadJournal(place)),
                Err(ReplayRefusal::NoMemory) => return Err(ShutCause::NoMemory),
            },
        }
    }
}

/// Reads a site from the journal in the first `size` bytes of area 0, at most 268,435,456. It writes nothing.
pub fn read_site<B: Bank>(
    alloc: Global,
    bank: &mut B,
    size: u64,
) -> Result<(Journal, SiteState), ShutCause>
    requires { size ≤ JOURNAL_SIZE_MAX }
    // The journal and the files are those of a history, whose records the journal's area holds.
    ensures read { (terms : Terms) → IfOk result (λ r. (steps : Seq HistoryStep) × IsReplayed terms r.0 r.1 steps × (IsTrue B.tells → HoldsRecords ((B.view bank.new).content 0) 0 (written_forms steps) size)) }
    ensures size { IfOk result (λ r. r.0.size ≡ size) }
    ensures unchanged { IsTrue B.tells → OnlyRead (B.view bank.old) (B.view bank.new) }
    ensures durable { IsTrue B.tells → OnOk result (OnlyContent 0 (B.view bank.new)) }
    ensures bad { IsTrue B.tells → (terms : Terms) → size ≡ terms.size → IfErr result (TellsJournal terms ((B.view bank.new).content 0)) }
    ensures causes { IsShutFor B.faults B.journal_faults bank.old bank.new result }
{
    let mut reader = match Reader::open(alloc, bank, size) {
        Ok(reader) => reader,
        Err(JournalRefusal::BankFault) => return Err(ShutCause::BankFault),
        Err(JournalRefusal::NoMemory) => return Err(ShutCause::NoMemory),
    };
    let Ok(mut site) = SiteState::first(alloc) else {
        return Err(ShutCause::NoMemory);
    };
    match replay_rest(alloc, bank, &mut reader, &mut site) {
        Ok(()) => Ok((reader.into_journal(), site)),
        Err(cause) => Err(cause),
    }
}
