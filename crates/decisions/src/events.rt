//! The table of events.

ghost use Rattle.std.specs.Prelude.{◌<◌, IfOk};
ghost use Rattle.site_history.specs.Site.{Fields};
ghost use Rattle.site_state.specs.Keeps.{Keeps};
ghost use Rattle.decisions.specs.Plans.{Answers};
ghost use Rattle.decisions.specs.Needs.{IsPerformable};

use crate::configurations::plan_configuration;
use crate::files::{plan_put, plan_read, plan_removal};
use crate::plan::Plan;
use base::END_OF_TIME;
use site_events::{Event, LineRefusal, Reply};
use site_state::SiteState;
use std::alloc::{AllocError, Global};

/// Plans the answer to an event at a moment, in seconds below 2^40. An event of a kind that is not served is no command. At an
/// error memory was wanting. The site keeps what it kept.
pub fn decide(
    site: &mut SiteState,
    alloc: Global,
    event: Event,
    moment: u64,
) -> Result<Plan, AllocError>
    requires { moment < END_OF_TIME }
    ensures answers { IfOk result (Answers site.old moment event) }
    ensures performable { IfOk result (IsPerformable site.new) }
    ensures keeps { (fields : Fields) → Keeps site.old fields → Keeps site.new fields }
{
    match event {
        Event::Put {
            path,
            owner,
            group,
            bytes,
        } => plan_put(site, moment, path, owner, group, bytes),
        Event::Read { path, upto } => plan_read(site, alloc, moment, path, upto),
        Event::Remove { path } => Ok(plan_removal(site, moment, path)),
        Event::Configure { texts } => plan_configuration(site, alloc, moment, texts),
        _ => Ok(Plan::Answer(Reply::Line(LineRefusal::NotACommand))),
    }
}
