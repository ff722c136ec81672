//! Events over a store.

ghost use Rattle.std.specs.Prelude.{◌≡◌, ◌≢◌, ◌≤◌, false, true, IfOk, IfErr, MatchResult, IsTrue, OnOk, OnErr, Bool, List};
ghost use Rattle.site_history.specs.Terms.{Terms};
ghost use Rattle.base.specs.Causes.{Rose};
ghost use Rattle.bank.specs.Content.{Content};
ghost use Rattle.bank.specs.View.{OnlyRead};
ghost use Rattle.site_events.specs.declared.event.Event.TheVariants.{Configure as ConfigureEvent};
ghost use Rattle.site_types.specs.declared.file.SiteTexts.{SiteTexts as Texts};
ghost use Rattle.configuration.specs.ConfigurationRules.{Says};
ghost use Rattle.site_history.specs.Steps.{HistoryStep};
ghost use Rattle.site_history.specs.Worlds.{World, site_of, steps_of, new_world};
ghost use Rattle.site_history.specs.Turns.{Turn, EventTurn, moment_of, IsFound, RefusesReopening, TellsConfiguration};
ghost use Rattle.site_history.specs.Images.{IsSettled};
ghost use Rattle.site_history.specs.Journals.{HoldsHistory};
ghost use Rattle.engine.specs.StandsFor.{StandsFor, Moves, IsRecovered, StaysFor};
ghost use Rattle.engine.specs.Journals.{TellsJournal, RepliesJournal};
ghost use Rattle.engine.specs.Counts.{IsRepliedFor};
ghost use Rattle.engine.specs.Served.{IsServed};

use crate::engine::Engine;
use crate::reopen::read_site;
use bank::Bank;
use base::{END_OF_TIME, JOURNAL_SIZE_MAX, PAYLOAD_MAX};
use configuration::Configuration;
use decisions::decide;
use site_events::{Event, Reply};
use std::alloc::Global;

/// The last moment, in seconds.
const LAST_MOMENT: u64 = END_OF_TIME - 1;

/// Why a store was not opened.
#[derive(Clone, Copy, Debug, PartialEq, Eq)]
pub enum ShutCause {
    /// A call of the store failed, and the store counted it.
    BankFault,
    /// The place of the record that is bad.
    BadJournal(u64),
    /// Memory was wanting.
    NoMemory,
}

/// What is handed back where a store was not opened.
#[derive(Drop)]
pub struct Shut<B, P> {
    pub refusal: ShutCause,
    pub bank: B,
    pub patterns: P,
}

impl<B: Bank, P: Drop> Engine<B, P> {
    /// Reopens a site from its journal, which stands in the first `journal_bytes` bytes of area 0, at most 268,435,456. It
    /// writes nothing.
    pub fn reopen(
        alloc: Global,
        mut bank: B,
        patterns: P,
        journal_bytes: u64,
    ) -> Result<Engine<B, P>, Shut<B, P>>
        requires { journal_bytes ≤ JOURNAL_SIZE_MAX }
        // It stands for the world of the history for which the store is settled; where the store tells nothing for some world.
        ensures stands { (terms : Terms) → journal_bytes ≡ terms.size → (told : Bool) → (IsTrue told → IsTrue B.tells) → (before : List HistoryStep) → (IsTrue told → IsSettled terms (B.view bank) before)
            → IfOk result (λ engine. (found : World) × IsFound terms told before found × StandsFor terms told B.view engine found) }
        // Whatever the store is settled for, it stands for the history that the journal holds.
        ensures held { (terms : Terms) → journal_bytes ≡ terms.size → IfOk result (λ engine. (found : List HistoryStep) × StandsFor terms false B.view engine (new_world terms found) × (IsTrue B.tells → HoldsHistory terms ((B.view bank).content 0) found)) }
        ensures ready { IfOk result (λ engine. engine.due ≡ false) }
        ensures size { IfOk result (λ engine. engine.journal.size ≡ journal_bytes) }
        ensures unchanged { IsTrue B.tells → MatchResult result (λ engine. OnlyRead (B.view bank) (B.view engine.bank)) (λ shut. OnlyRead (B.view bank) (B.view shut.bank)) }
        // The journal holds a history, or it is bad at a place.
        ensures journal { IsTrue B.tells → (terms : Terms) → journal_bytes ≡ terms.size → IfOk result (λ engine. (found : List HistoryStep) × HoldsHistory terms ((B.view bank).content 0) found) }
        ensures bad_journal { IsTrue B.tells → (terms : Terms) → journal_bytes ≡ terms.size → IfErr result (λ shut. TellsJournal terms ((B.view bank).content 0) shut.refusal) }
        ensures fault { IfErr result (λ shut. shut.refusal ≡ ShutCause.BankFault → Rose (B.faults bank) (B.faults shut.bank)) }
        ensures later { MatchResult result (λ engine. B.faults bank ≤ B.faults engine.bank) (λ shut. B.faults bank ≤ B.faults shut.bank) }
        ensures journal_later { MatchResult result (λ engine. B.journal_faults bank ≤ B.journal_faults engine.bank) (λ shut. B.journal_faults bank ≤ B.journal_faults shut.bank) }
        ensures patterns { MatchResult result (λ engine. engine.patterns ≡ patterns) (λ shut. shut.patterns ≡ patterns) }
    {
        let Ok(payload) = Vec::with_capacity(alloc, PAYLOAD_MAX as usize) else {
            return Err(Shut {
                refusal: ShutCause::NoMemory,
                bank,
                patterns,
            });
        };
        match read_site(alloc, &mut bank, journal_bytes) {
            Ok((journal, site)) => Ok(Engine {
                alloc,
                bank,
                patterns,
                steps: journal.count(),
                clock: site.moment,
                journal,
                site,
                payload,
                due: false,
            }),
            Err(cause) => Err(Shut {
                refusal: cause,
                bank,
                patterns,
            }),
        }
    }

    // Reads the site again, which is due, and keeps it. On an error nothing is changed but the store.
    fn recover(&mut self) -> Result<(), Reply>
        ensures recovered { (terms : Terms) (told : Bool) → (IsTrue told → IsTrue B.tells) → (w : World) → StandsFor terms told B.view self.old w → self.old.due ≡ true
            → MatchResult result (λ _. IsRecovered terms told B.view self.old self.new w) (λ reply. RefusesReopening told reply × StaysFor terms told B.view self.old self.new w) }
        ensures ok { OnOk result (self.new.due ≡ false) }
        ensures err { OnErr result (self.new ≡ record self.old { bank = self.new.bank }) }
        ensures size { self.new.journal.size ≡ self.old.journal.size }
        ensures patterns { self.new.patterns ≡ self.old.patterns }
        ensures unchanged { IsTrue B.tells → OnlyRead (B.view self.old.bank) (B.view self.new.bank) }
        ensures bad_journal { IsTrue B.tells → (terms : Terms) → self.old.journal.size ≡ terms.size → IfErr result (RepliesJournal terms ((B.view self.new.bank).content 0)) }
        ensures later { B.faults self.old.bank ≤ B.faults self.new.bank }
        ensures journal_later { B.journal_faults self.old.bank ≤ B.journal_faults self.new.bank }
        ensures causes { IfErr result (IsRepliedFor B.faults B.journal_faults B.last_fault self.old.bank self.new.bank) }
    {
        match read_site(self.alloc, &mut self.bank, self.journal.size()) {
            Ok((journal, site)) => {
                self.steps = journal.count();
                self.clock = self.clock.max(site.moment);
                self.journal = journal;
                self.site = site;
                self.due = false;
                Ok(())
            }
            Err(ShutCause::BankFault) => Err(Reply::BankFault),
            Err(ShutCause::BadJournal(place)) => Err(Reply::BadJournal(place)),
            Err(ShutCause::NoMemory) => Err(Reply::NoMemory),
        }
    }

    /// One event. Its moment is the greater of the clock and the lesser of `now` and 2^40 - 1. Where a reopening is due it
    /// comes first, and leads to the history that the journal holds when it is called.
    pub fn event(&mut self, event: Event, now: u64) -> Reply
        ensures turn { (terms : Terms) (told : Bool) → (IsTrue told → IsTrue B.tells) → (w : World) → StandsFor terms told B.view self.old w
            → (w' : World) × EventTurn terms told w event now (B.last_fault self.new.bank) ((B.view self.old.bank).content 0) result w' × Moves terms told B.view self.old self.new w w' }
        ensures wrong_file { (terms : Terms) (told : Bool) → (IsTrue told → IsTrue B.tells) → (w : World) → StandsFor terms told B.view self.old w → (texts : Texts) → event ≡ ConfigureEvent texts
            → TellsConfiguration terms told w ((B.view self.old.bank).content 0) texts result }
        ensures fault { result ≡ Reply.BankFault → Rose (B.faults self.old.bank) (B.faults self.new.bank) }
        ensures journal_fault { result ≡ Reply.BankFault → B.last_fault self.new.bank ≡ 0 → Rose (B.journal_faults self.old.bank) (B.journal_faults self.new.bank) }
        ensures later { B.faults self.old.bank ≤ B.faults self.new.bank }
        ensures journal_later { B.journal_faults self.old.bank ≤ B.journal_faults self.new.bank }
        ensures bad_journal { IsTrue B.tells → (terms : Terms) → self.old.journal.size ≡ terms.size → RepliesJournal terms ((B.view self.new.bank).content 0) result }
        ensures ready { self.old.due ≡ false → result ≢ Reply.BankFault → self.new.due ≡ false }
        ensures size { self.new.journal.size ≡ self.old.journal.size }
        ensures patterns { self.new.patterns ≡ self.old.patterns }
        ensures instant { IsTrue B.tells → (B.view self.old.bank).instant ≤ (B.view self.new.bank).instant }
    {
        if self.due {
            match self.recover() {
                Ok(()) => self.serve(event, now),
                Err(reply) => reply,
            }
        } else {
            self.serve(event, now)
        }
    }

    // One event, where no reopening is due.
    fn serve(&mut self, event: Event, now: u64) -> Reply
        requires { self.old.due ≡ false }
        ensures turn { (terms : Terms) (told : Bool) → (IsTrue told → IsTrue B.tells) → (w : World) → StandsFor terms told B.view self.old w
            → (w' : World) × Turn terms told w event (moment_of w.clock now) (B.last_fault self.new.bank) result w' × Moves terms told B.view self.old self.new w w' }
        ensures served { IsServed B.tells B.view B.faults B.journal_faults B.last_fault self.old self.new result }
    {
        self.clock = self.clock.max(now.min(LAST_MOMENT));
        match decide(&mut self.site, self.alloc, event, self.clock) {
            Ok(plan) => self.perform(plan),
            Err(_) => Reply::NoMemory,
        }
    }

    /// How many steps were acknowledged.
    pub fn steps(&self) -> u64
        ensures { (terms : Terms) (told : Bool) (w : World) → StandsFor terms told B.view self.now w → result ≡ steps_of w }
    {
        self.steps
    }

    /// What the command files of the site say. Where a reopening is due they may be others than those of the history.
    pub fn configuration(&self) -> &Configuration
        ensures said { (terms : Terms) (told : Bool) (w : World) → StandsFor terms told B.view self.now w → self.now.due ≡ false → Says (site_of terms w).fields.texts result.now }
        ensures kept { result.now ≡ self.now.site.configuration }
    {
        self.site.configuration()
    }

    /// The store.
    pub fn bank(&self) -> &B
        ensures { result.now ≡ self.now.bank }
    {
        &self.bank
    }

    /// Hands the store and the patterns back.
    pub fn close(self) -> (B, P)
        ensures bank { result.0 ≡ self.bank }
        ensures patterns { result.1 ≡ self.patterns }
    {
        let Engine { bank, patterns, .. } = self;
        (bank, patterns)
    }
}
