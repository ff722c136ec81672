//! What a step changes of a site.

ghost use Rattle.std.specs.Prelude.{◌≡◌, ℕ, ◌+◌, ◌<◌, ◌^◌, [], None};
ghost use Rattle.site_history.specs.Terms.{Terms};
ghost use Rattle.site_types.specs.Ranges.{IsInode};
ghost use Rattle.step_codec.specs.Written.{InRange};
ghost use Rattle.site_types.specs.declared.file.SiteTexts.{SiteTexts};
ghost use Rattle.site_history.specs.Site.{Fields, file_at};
ghost use Rattle.site_history.specs.Steps.{IsLegal, dated, fields_after};
ghost use Rattle.site_history.specs.ConfiguredSteps.{configured_effect};
ghost use Rattle.site_history.specs.RemovedSteps.{removed_effect};
ghost use Rattle.site_history.specs.AccessedSteps.{accessed_effect};
ghost use Rattle.site_history.specs.Changes.{IsThere};
ghost use Rattle.site_history.specs.PutSteps.{IsLegalPut, put_effect};
ghost use Rattle.site_history.specs.Kept.{IsKept};
ghost use Rattle.site_state.specs.Room.{IsSettingOf, IsPrepared};
ghost use Rattle.site_state.specs.Keeps.{Keeps};

use crate::prepare::{Prepared, Setting};
use crate::state::SiteState;
use crate::stored::new_file;
use base::END_OF_TIME;
use site_types::{PutStep, Step, StepKind};

impl SiteState {
    // Keeps what a put stores. A replaced file's runs are free once the new ones are held.
    fn apply_put(&mut self, moment: u64, put: PutStep)
        requires range { moment < END_OF_TIME }
        requires inode { IsInode put.inode }
        requires room { file_at put.path self.old.files.list ≡ None → 0 < self.old.files.room }
        ensures { (terms : Terms) (count : ℕ) (fields : Fields) → IsKept count fields → count + 1 < 2 ^ 64 → Keeps self.old fields → IsLegalPut fields put
            → Keeps self.new (dated moment (put_effect terms moment put fields)) }
    {
        self.moment = moment;
        self.space.hold(put.runs.as_slice());
        match self.files.find(put.path.as_slice()) {
            Some(index) => {
                let replaced = self.files.store_at(index, moment, put);
                self.space.give(replaced.as_slice());
            }
            None => {
                // A legal put of a new path comes only where the next inode is below the type's end.
                self.next_inode = self.next_inode.saturating_add(1);
                self.files.push(new_file(moment, put));
            }
        }
    }

    // Keeps that a file was read.
    fn apply_access(&mut self, moment: u64, inode: u32)
        requires range { moment < END_OF_TIME }
        ensures { (count : ℕ) (fields : Fields) → IsKept count fields → Keeps self.old fields → IsThere fields inode
            → Keeps self.new (dated moment (accessed_effect moment inode fields)) }
    {
        self.moment = moment;
        if let Some(index) = self.files.find_inode(inode) {
            self.files.access_at(index, moment);
        }
    }

    // Keeps that a file is gone, and frees its runs.
    fn apply_removal(&mut self, moment: u64, inode: u32)
        requires range { moment < END_OF_TIME }
        ensures { (count : ℕ) (fields : Fields) → IsKept count fields → Keeps self.old fields → IsThere fields inode
            → Keeps self.new (dated moment (removed_effect inode fields)) }
    {
        self.moment = moment;
        if let Some(index) = self.files.find_inode(inode) {
            let removed = self.files.remove(index);
            self.space.give(removed.runs.as_slice());
        }
    }

    // Keeps what a configuration brings, where no file is.
    fn apply_setting(&mut self, moment: u64, setting: Setting)
        requires range { moment < END_OF_TIME }
        ensures { (fields : Fields) (texts : SiteTexts) → Keeps self.old fields → fields.files ≡ [] → IsSettingOf texts setting
            → Keeps self.new (dated moment (configured_effect texts fields)) }
    {
        self.moment = moment;
        self.configuration = setting.configuration;
        self.space = setting.space;
    }

    /// Makes a step, which is legal behind the history so far. It takes no memory.
    pub fn apply(&mut self, prepared: Prepared)
        requires range { InRange prepared.step }
        requires prepared { IsPrepared self.old prepared }
        ensures { (terms : Terms) (count : ℕ) (fields : Fields) → IsKept count fields → count + 1 < 2 ^ 64 → Keeps self.old fields → IsLegal terms fields prepared.step
            → Keeps self.new (fields_after terms prepared.step fields) }
    {
        let Prepared { step, setting } = prepared;
        let Step { moment, kind } = step;
        match kind {
            StepKind::Put(put) => self.apply_put(moment, put),
            StepKind::Accessed { inode } => self.apply_access(moment, inode),
            StepKind::Removed { inode } => self.apply_removal(moment, inode),
            StepKind::Configured(_) => {
                // The texts were read when the step was prepared.
                if let Some(setting) = setting {
                    self.apply_setting(moment, setting);
                }
            }
            _ => {}
        }
    }
}
