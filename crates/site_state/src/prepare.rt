//! Steps with what their making takes memory for.

ghost use Rattle.std.specs.Prelude.{◌≡◌, None, IfOk, IfErr, IfSome, OnOk, MatchOption};
ghost use Rattle.site_history.specs.Terms.{Terms};
ghost use Rattle.step_codec.specs.Written.{InRange};
ghost use Rattle.configuration.specs.ConfigurationRules.{AreWithin};
ghost use Rattle.configuration.specs.ConfigurationSteps.{refusal_of, TellsRefusal};
ghost use Rattle.site_history.specs.Site.{Fields};
ghost use Rattle.site_history.specs.Steps.{IsLegal};
ghost use Rattle.site_state.specs.Room.{IsSettingOf, IsPrepared};
ghost use Rattle.site_state.specs.Keeps.{Keeps};

use crate::state::SiteState;
use cache_space::CacheSpace;
use configuration::{Configuration, ConfigurationError, read_configuration};
use site_types::{SiteTexts, Step, StepKind};
use std::alloc::{AllocError, Global};

/// What a new configuration brings: what its texts say, and the free blocks of its cache.
#[derive(Drop)]
pub struct Setting {
    pub configuration: Configuration,
    pub space: CacheSpace,
}

/// A step that may come, with what its making takes memory for.
#[derive(Drop)]
pub struct Prepared {
    pub step: Step,
    /// That of a configuration's texts; no other step has any.
    pub setting: Option<Setting>,
}

impl Setting {
    /// What these texts bring, each of at most 65,536 bytes. The first text that is wrong refuses them.
    pub fn new(alloc: Global, texts: &SiteTexts) -> Result<Setting, ConfigurationError>
        requires { AreWithin texts.now }
        ensures setting { IfOk result (IsSettingOf texts.now) }
        ensures read { OnOk result (refusal_of texts.now ≡ None) }
        ensures refused { IfErr result (TellsRefusal texts.now) }
    {
        let configuration = read_configuration(alloc, texts)?;
        let Ok(space) = CacheSpace::new(alloc, configuration.blocks()) else {
            return Err(ConfigurationError::NoMemory);
        };
        Ok(Setting {
            configuration,
            space,
        })
    }
}

impl SiteState {
    /// Takes all memory that the making of a step needs, if the step may come. At `None` it may not. The site keeps what it
    /// kept.
    pub fn prepare(&mut self, alloc: Global, step: Step) -> Result<Option<Prepared>, AllocError>
        requires { InRange step }
        ensures legal { (terms : Terms) (fields : Fields) → Keeps self.old fields → IfOk result (λ made. MatchOption made (IsLegal terms fields step → ⊥) (λ _. IsLegal terms fields step)) }
        ensures prepared { IfOk result (λ made. IfSome made (λ prepared. (prepared.step ≡ step) × IsPrepared self.new prepared)) }
        ensures keeps { (fields : Fields) → Keeps self.old fields → Keeps self.new fields }
    {
        if !self.may_come(&step) {
            return Ok(None);
        }
        if let StepKind::Configured(texts) = &step.kind {
            return match Setting::new(alloc, texts) {
                Ok(setting) => Ok(Some(Prepared {
                    step,
                    setting: Some(setting),
                })),
                Err(ConfigurationError::Refused(_)) => Ok(None),
                Err(ConfigurationError::NoMemory) => Err(AllocError),
            };
        }
        self.files.reserve()?;
        Ok(Some(Prepared {
            step,
            setting: None,
        }))
    }
}
