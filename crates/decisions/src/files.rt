//! Puts, reads and removals.

ghost use Rattle.std.specs.Prelude.{◌<◌, IfOk};
ghost use Rattle.site_events.specs.declared.event.Event.TheVariants.{Put as PutEvent, Read as ReadEvent, Remove as RemoveEvent};
ghost use Rattle.site_history.specs.Site.{Fields};
ghost use Rattle.site_state.specs.Keeps.{Keeps};
ghost use Rattle.decisions.specs.Plans.{Answers};
ghost use Rattle.decisions.specs.Needs.{IsPerformable};

use crate::plan::{Plan, Work};
use base::{Bytes, END_OF_TIME, List};
use site_events::{Reply, Rule};
use site_state::{Prepared, SiteState};
use site_types::{PutStep, Step, StepKind};
use std::alloc::{AllocError, Global};

/// Plans how a file of these bytes is stored. At an error memory was wanting, and the site keeps what it kept.
pub fn plan_put(
    site: &mut SiteState,
    moment: u64,
    path: Bytes,
    owner: Bytes,
    group: Bytes,
    bytes: Bytes,
) -> Result<Plan, AllocError>
    requires { moment < END_OF_TIME }
    ensures answers { IfOk result (Answers site.old moment (PutEvent path owner group bytes)) }
    ensures performable { IfOk result (IsPerformable site.new) }
    ensures keeps { (fields : Fields) → Keeps site.old fields → Keeps site.new fields }
{
    let size = bytes.len();
    let place = match site.place_of_put(path.as_slice(), owner.as_slice(), group.as_slice(), size) {
        Ok(place) => place,
        Err(rule) => return Ok(Plan::Answer(Reply::Refused(rule))),
    };
    let runs = site.free_runs(size as u32)?;
    site.make_room()?;
    let kind = StepKind::Put(PutStep {
        inode: place.inode,
        path,
        owner,
        group,
        length: size as u64,
        runs,
    });
    let reply = Reply::Stored {
        inode: place.inode,
        created: place.created,
    };
    let prepared = Prepared {
        step: Step { moment, kind },
        setting: None,
    };
    let work = Work::Store { bytes, reply };
    Ok(Plan::Make { prepared, work })
}

/// Plans how the first `upto` bytes of the file of a path are read. At an error memory was wanting.
pub fn plan_read(
    site: &SiteState,
    alloc: Global,
    moment: u64,
    path: Bytes,
    upto: u32,
) -> Result<Plan, AllocError>
    requires { moment < END_OF_TIME }
    ensures answers { IfOk result (Answers site.now moment (ReadEvent path upto)) }
    ensures performable { IfOk result (IsPerformable site.now) }
{
    let Some(file) = site.file_at(path.as_slice()) else {
        return Ok(Plan::Answer(Reply::Refused(Rule::NoFile)));
    };
    let kind = StepKind::Accessed { inode: file.inode };
    let count = file.length.min(upto as u64);
    let buffer = vec![in alloc; 0u8; count as usize]?;
    let runs = Vec::from_slice(alloc, file.runs.as_slice())?;
    let prepared = Prepared {
        step: Step { moment, kind },
        setting: None,
    };
    let work = Work::Load {
        runs: List::from_vec(runs),
        buffer,
    };
    Ok(Plan::Make { prepared, work })
}

/// Plans how the file of a path is removed.
pub fn plan_removal(site: &SiteState, moment: u64, path: Bytes) -> Plan
    requires { moment < END_OF_TIME }
    ensures answers { Answers site.now moment (RemoveEvent path) result }
    ensures performable { IsPerformable site.now result }
{
    let Some(file) = site.file_at(path.as_slice()) else {
        return Plan::Answer(Reply::Refused(Rule::NoFile));
    };
    let inode = file.inode;
    let kind = StepKind::Removed { inode };
    let prepared = Prepared {
        step: Step { moment, kind },
        setting: None,
    };
    let reply = Reply::Done(inode);
    let work = Work::Nothing { reply };
    Plan::Make { prepared, work }
}
