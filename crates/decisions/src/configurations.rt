//! Configurations.

ghost use Rattle.std.specs.Prelude.{◌<◌, IfOk};
ghost use Rattle.site_events.specs.declared.event.Event.TheVariants.{Configure as ConfigureEvent};
ghost use Rattle.decisions.specs.Plans.{Answers};
ghost use Rattle.decisions.specs.Needs.{IsPerformable};

use crate::plan::{Plan, Work};
use base::END_OF_TIME;
use configuration::ConfigurationError;
use site_events::Reply;
use site_state::{Prepared, Setting, SiteState};
use site_types::{SiteTexts, Step, StepKind};
use std::alloc::{AllocError, Global};

/// Plans how the site is configured by these texts. At an error memory was wanting.
pub fn plan_configuration(
    site: &SiteState,
    alloc: Global,
    moment: u64,
    texts: SiteTexts,
) -> Result<Plan, AllocError>
    requires { moment < END_OF_TIME }
    ensures answers { IfOk result (Answers site.now moment (ConfigureEvent texts)) }
    ensures performable { IfOk result (IsPerformable site.now) }
{
    if let Some(rule) = site.configure_rule(&texts) {
        return Ok(Plan::Answer(Reply::Refused(rule)));
    }
    match Setting::new(alloc, &texts) {
        Ok(setting) => {
            let kind = StepKind::Configured(texts);
            let prepared = Prepared {
                step: Step { moment, kind },
                setting: Some(setting),
            };
            let reply = Reply::Done(0);
            let work = Work::Nothing { reply };
            Ok(Plan::Make { prepared, work })
        }
        Err(ConfigurationError::Refused(refusal)) => Ok(Plan::Answer(Reply::ConfRefused {
            file: refusal.file,
            line: refusal.line,
            fault: refusal.fault,
        })),
        Err(ConfigurationError::NoMemory) => Err(AllocError),
    }
}
