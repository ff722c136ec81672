//! A step's record.

ghost use Rattle.std.specs.Prelude.{◌≡◌, ◌+◌, ◌≤◌, true, false, Bool, Some, IsTrue, length, OnOk, OnErr};
ghost use Rattle.site_history.specs.Terms.{Terms};
ghost use Rattle.base.specs.Causes.{Rose};
ghost use Rattle.step_codec.specs.Written.{InRange};
ghost use Rattle.journal.specs.Records.{IsPayload};
ghost use Rattle.site_history.specs.Steps.{HistoryStep};
ghost use Rattle.site_history.specs.Worlds.{World, made_in, owing_in};
ghost use Rattle.engine.specs.Ready.{IsReady};
ghost use Rattle.site_state.specs.Room.{IsPrepared};
ghost use Rattle.engine.specs.StandsFor.{Moves};

use crate::engine::Engine;
use bank::{Bank, BankFailed};
use journal::AppendRefusal;
use site_state::Prepared;

impl<B: Bank, P: Drop> Engine<B, P> {
    /// Records a step whose written form is the payload, and for which the journal has room, and makes it. At an error a
    /// reopening is due: the journal may hold the step or not.
    pub fn commit(&mut self, prepared: Prepared) -> Result<(), BankFailed>
        requires ready { self.old.due ≡ false }
        requires payload { IsPayload self.old.payload.items }
        requires fits { self.old.journal.place + 6 + length self.old.payload.items ≤ self.old.journal.size }
        requires range { InRange prepared.step }
        requires prepared { IsPrepared self.old.site prepared }
        // At `Ok` the step is acknowledged: the engine stands for the world with it.
        ensures made { (terms : Terms) (told : Bool) → (IsTrue told → IsTrue B.tells) → (w : World) → (made : HistoryStep) → made.step ≡ prepared.step → IsReady terms told B.view self.old w made
            → OnOk result (Moves terms told B.view self.old self.new w (made_in (Some made) w)) }
        // At an error the step is owed.
        ensures owed { (terms : Terms) (told : Bool) → (IsTrue told → IsTrue B.tells) → (w : World) → (made : HistoryStep) → made.step ≡ prepared.step → IsReady terms told B.view self.old w made
            → OnErr result (Moves terms told B.view self.old self.new w (owing_in (Some made) w)) }
        ensures fault { OnErr result (Rose (B.faults self.old.bank) (B.faults self.new.bank)) }
        ensures journal_fault { OnErr result (Rose (B.journal_faults self.old.bank) (B.journal_faults self.new.bank)) }
        ensures area { OnErr result (B.last_fault self.new.bank ≡ 0) }
        ensures later { B.faults self.old.bank ≤ B.faults self.new.bank }
        ensures journal_later { B.journal_faults self.old.bank ≤ B.journal_faults self.new.bank }
        ensures open { OnOk result (self.new.due ≡ false) }
        ensures due { OnErr result (self.new.due ≡ true) }
        ensures size { self.new.journal.size ≡ self.old.journal.size }
        ensures clock { self.new.clock ≡ self.old.clock }
        ensures patterns { self.new.patterns ≡ self.old.patterns }
        ensures instant { IsTrue B.tells → (B.view self.old.bank).instant ≤ (B.view self.new.bank).instant }
    {
        match self.journal.append(&mut self.bank, &self.payload) {
            Ok(_) => {
                self.steps = self.journal.count();
                self.site.apply(prepared);
                Ok(())
            }
            Err(AppendRefusal::JournalFull) => unreachable!(),
            Err(AppendRefusal::BankFault) => {
                self.due = true;
                Err(BankFailed {})
            }
        }
    }
}
