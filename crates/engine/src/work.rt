//! What the store does before a step is recorded.

ghost use Rattle.std.specs.Prelude.{◌≡◌, Bool, IfOk, OnOk, IsTrue};
ghost use Rattle.bank.specs.Inside.{WroteInside};
ghost use Rattle.site_events.specs.declared.reply.Reply.{Reply as Replied};
ghost use Rattle.cache_space.specs.Space.{AreMaximal};
ghost use Rattle.site_history.specs.Site.{Site};
ghost use Rattle.site_history.specs.Images.{extents};
ghost use Rattle.site_history.specs.Replies.{TellsNoFault};
ghost use Rattle.site_history.specs.Extents.{extents_over, AllStand};
ghost use Rattle.site_history.specs.Pinned.{StandInAll, in_blocks_of};
ghost use Rattle.site_history.specs.Turns.{IsReply};
ghost use Rattle.site_history.specs.Steps.{put_runs};
ghost use Rattle.decisions.specs.Plans.{Gives, stored_bytes};
ghost use Rattle.decisions.specs.Needs.{NamesNoFault};
ghost use Rattle.engine.specs.Counts.{AreCountedInCache};

use crate::data::{load_all, store};
use bank::{Bank, BankFailed};
use base::Bytes;
use decisions::Work;
use site_events::Reply;
use site_state::runs_of;
use site_types::Step;

/// Does the work of a step. It gives what is replied once the step is made.
pub fn do_work<B: Bank>(bank: &mut B, step: &Step, work: Work) -> Result<Reply, BankFailed>
    requires maximal { AreMaximal (put_runs step.now) }
    requires named { NamesNoFault work }
    // No byte but those of the blocks of the step's runs is written, failed or not.
    ensures wrote { IsTrue B.tells → WroteInside 1 (in_blocks_of (put_runs step.now)) (B.view bank.old) (B.view bank.new) }
    // At `Ok` the bytes of the step stand in whatever a crash leaves.
    ensures stored { IsTrue B.tells → OnOk result (StandInAll (B.view bank.new) (extents_over (put_runs step.now) (stored_bytes work))) }
    // The reply is the one that is defined of each site whose bytes stand.
    ensures gives { (told : Bool) → (IsTrue told → IsTrue B.tells) → (site : Site) (defined : Replied) → Gives site work defined → (IsTrue told → AllStand (B.view bank.old).content (extents site))
        → IfOk result (IsReply told defined) }
    ensures named { IfOk result TellsNoFault }
    ensures counted { AreCountedInCache B.faults B.journal_faults B.last_fault bank.old bank.new result }
{
    match work {
        Work::Nothing { reply } => Ok(reply),
        Work::Store { bytes, reply } => {
            store(bank, runs_of(step), bytes.as_slice())?;
            Ok(reply)
        }
        Work::Load { runs, buffer } => {
            let bytes = load_all(bank, runs.as_slice(), buffer)?;
            Ok(Reply::Bytes(Bytes::from_vec(bytes)))
        }
    }
}
