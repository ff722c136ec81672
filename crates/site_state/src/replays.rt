//! The steps of a journal, made again.

ghost use Rattle.std.specs.Prelude.{ℕ, ◌≡◌, ◌+◌, ◌<◌, ◌^◌, List as Seq, length, IfOk, IfErr, IfSome, OnOk};
ghost use Rattle.site_history.specs.Terms.{Terms};
ghost use Rattle.step_codec.specs.Written.{InRange};
ghost use Rattle.site_history.specs.Site.{Fields, first_fields};
ghost use Rattle.site_history.specs.Kept.{IsKept};
ghost use Rattle.site_state.specs.Replays.{IsRead, IsReplayed, TellsPayload};
ghost use Rattle.site_state.specs.Room.{IsPrepared};
ghost use Rattle.site_state.specs.Keeps.{Keeps};

use crate::files::Files;
use crate::prepare::{Prepared, Setting};
use crate::state::SiteState;
use configuration::ConfigurationError;
use site_types::SiteTexts;
use std::alloc::{AllocError, Global};
use step_codec::{StepRefusal, decode_step};

/// Why a payload is not replayed.
#[derive(Clone, Copy, Debug, PartialEq, Eq)]
pub enum ReplayRefusal {
    /// It is the written form of no step that may come next.
    BadStep,
    /// Memory was wanting.
    NoMemory,
}

impl SiteState {
    /// The site of no texts, which has no file.
    pub fn first(alloc: Global) -> Result<Self, AllocError>
        ensures { IfOk result (λ site. Keeps site first_fields) }
    {
        match Setting::new(alloc, &SiteTexts::empty(alloc)) {
            Ok(setting) => Ok(SiteState {
                files: Files::new(alloc),
                next_inode: 1,
                moment: 0,
                configuration: setting.configuration,
                space: setting.space,
            }),
            Err(ConfigurationError::Refused(_)) => unreachable!(),
            Err(ConfigurationError::NoMemory) => Err(AllocError),
        }
    }

    // Prepares the step that a payload is the written form of, if it is one that may come next. The site keeps what it kept.
    fn next_step(&mut self, alloc: Global, payload: &[u8]) -> Result<Option<Prepared>, AllocError>
        ensures read { (terms : Terms) (fields : Fields) → Keeps self.old fields → IfOk result (IsRead terms fields payload.now) }
        ensures prepared { IfOk result (λ read. IfSome read (λ prepared. InRange prepared.step × IsPrepared self.new prepared)) }
        ensures keeps { (fields : Fields) → Keeps self.old fields → Keeps self.new fields }
    {
        match decode_step(alloc, payload) {
            Ok(step) => self.prepare(alloc, step),
            Err(StepRefusal::NoMemory) => Err(AllocError),
            Err(_) => Ok(None),
        }
    }

    /// Makes the step of which a payload of a journal is the written form, if it may come behind the history so far.
    pub fn replay(&mut self, alloc: Global, payload: &[u8]) -> Result<(), ReplayRefusal>
        ensures made { (terms : Terms) (count : ℕ) (fields : Fields) → IsKept count fields → count + 1 < 2 ^ 64 → Keeps self.old fields
            → OnOk result (IsReplayed terms fields payload.now self.new) }
        ensures refused { (terms : Terms) (fields : Fields) → Keeps self.old fields → IfErr result (TellsPayload terms fields payload.now) }
    {
        match self.next_step(alloc, payload) {
            Ok(Some(prepared)) => {
                self.apply(prepared);
                Ok(())
            }
            Ok(None) => Err(ReplayRefusal::BadStep),
            Err(_) => Err(ReplayRefusal::NoMemory),
        }
    }
}
