//! Plans, performed.

ghost use Rattle.std.specs.Prelude.{◌≡◌, false, Bool, IsTrue};
ghost use Rattle.site_history.specs.Terms.{Terms};
ghost use Rattle.site_events.specs.declared.event.Event.{Event as Happens};
ghost use Rattle.site_history.specs.Answers.{answer_to};
ghost use Rattle.site_history.specs.Worlds.{World, site_of, at_moment};
ghost use Rattle.site_history.specs.Turns.{Turn};
ghost use Rattle.decisions.specs.Plans.{IsPlanOf};
ghost use Rattle.decisions.specs.Needs.{IsPerformable, IsRecordable, NamesNoFault};
ghost use Rattle.engine.specs.StandsFor.{StandsFor, Moves};
ghost use Rattle.engine.specs.Served.{IsServed};

use crate::engine::Engine;
use crate::payload::write_payload;
use crate::work::do_work;
use bank::Bank;
use decisions::{Plan, Work};
use site_events::Reply;
use site_state::Prepared;

impl<B: Bank, P: Drop> Engine<B, P> {
    /// Performs a plan, at the clock's moment.
    pub fn perform(&mut self, plan: Plan) -> Reply
        requires ready { self.old.due ≡ false }
        requires performable { IsPerformable self.old.site plan }
        // It is the turn of each event of whose answer the plan is.
        ensures turn { (terms : Terms) (told : Bool) → (IsTrue told → IsTrue B.tells) → (w : World) → StandsFor terms told B.view self.old (at_moment self.old.clock w)
            → (event : Happens) → IsPlanOf (site_of terms w) w.running (answer_to terms (site_of terms w) w.running self.old.clock event) plan
            → (w' : World) × Turn terms told w event self.old.clock (B.last_fault self.new.bank) result w' × Moves terms told B.view self.old self.new (at_moment self.old.clock w) w' }
        ensures served { IsServed B.tells B.view B.faults B.journal_faults B.last_fault self.old self.new result }
    {
        match plan {
            Plan::Answer(reply) => reply,
            Plan::Make { prepared, work } => self.make(prepared, work),
        }
    }

    // Records a step and makes it, once the store did its work.
    fn make(&mut self, prepared: Prepared, work: Work) -> Reply
        requires ready { self.old.due ≡ false }
        requires recordable { IsRecordable self.old.site prepared }
        requires named { NamesNoFault work }
        ensures turn { (terms : Terms) (told : Bool) → (IsTrue told → IsTrue B.tells) → (w : World) → StandsFor terms told B.view self.old (at_moment self.old.clock w)
            → (event : Happens) → IsPlanOf (site_of terms w) w.running (answer_to terms (site_of terms w) w.running self.old.clock event) (Plan.Make prepared work)
            → (w' : World) × Turn terms told w event self.old.clock (B.last_fault self.new.bank) result w' × Moves terms told B.view self.old self.new (at_moment self.old.clock w) w' }
        ensures served { IsServed B.tells B.view B.faults B.journal_faults B.last_fault self.old self.new result }
    {
        let Ok(()) = write_payload(&prepared.step, &mut self.payload) else {
            return Reply::NoMemory;
        };
        if !self.journal.has_room(self.payload.len()) {
            return Reply::JournalFull;
        }
        let Ok(reply) = do_work(&mut self.bank, &prepared.step, work) else {
            return Reply::BankFault;
        };
        match self.commit(prepared) {
            Ok(()) => reply,
            Err(_) => Reply::BankFault,
        }
    }
}
