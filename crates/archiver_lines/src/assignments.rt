//! Assignment lines.

ghost use Rattle.std.specs.Prelude.{◌≡◌, ◌||◌, nat_le, fold};
ghost use Rattle.archiver_lines.specs.CopySteps.{is_too_many};
ghost use Rattle.site_text.specs.Fields.{Gives};
ghost use Rattle.archiver_lines.specs.AssignmentSteps.{bare, with_criterion, assign_line};

use crate::criteria::{Criterion, Release, Stage, read_criteria};
use crate::names::{is_set_name, is_too_many};
use crate::paths::is_set_path;
use crate::reading::{Assignment, Local, Reading};
use base::{Bytes, List};
use site_text::{ConfFault, Fields, LineError, refuse_if};
use std::alloc::Global;

/// The limit on the number of assignment lines.
const MOST_LINES: usize = 64;

/// An assignment without criteria and attributes.
fn bare(line: u32, set: Bytes, local: Local, path: Bytes) -> Assignment
    ensures { result ≡ bare line set local path }
{
    Assignment {
        line,
        set,
        local,
        path,
        name: None,
        user: None,
        group: None,
        minsize: None,
        maxsize: None,
        access: None,
        release: Release::Default,
        stage: Stage::Default,
    }
}

/// What a criterion says stands in place of what was said before.
fn add_criterion(assignment: &mut Assignment, criterion: Criterion)
    ensures { assignment.new ≡ with_criterion assignment.old criterion }
{
    match criterion {
        Criterion::Name(name) => assignment.name = Some(name),
        Criterion::User(user) => assignment.user = Some(user),
        Criterion::Group(group) => assignment.group = Some(group),
        Criterion::Minsize(size) => assignment.minsize = Some(size),
        Criterion::Maxsize(size) => assignment.maxsize = Some(size),
        Criterion::Access(age) => assignment.access = Some(age),
        Criterion::Release(release) => assignment.release = release,
        Criterion::Stage(stage) => assignment.stage = stage,
    }
}

fn add_criteria(assignment: &mut Assignment, given: List<Criterion>)
    ensures { assignment.new ≡ fold with_criterion assignment.old given }
{
    for criterion in given.into_vec() {
        add_criterion(assignment, criterion);
    }
}

/// The lines before an assignment line, as far as it wants to know them.
#[derive(Clone, Copy)]
pub struct AssignedBefore<'a> {
    pub local: Local,
    /// The number of assignment lines.
    pub lines: usize,
    pub sets: &'a [Bytes],
}

/// One more line is one too many, or one of this set.
fn is_full(before: &AssignedBefore, set: &[u8]) -> bool
    ensures { result ≡ (nat_le 64 before.now.lines || is_too_many before.now.sets.now set.now) }
{
    MOST_LINES <= before.lines || is_too_many(before.sets, set)
}

/// `SET PATH` and criteria and attributes, at the line of this number.
#[tactic(auto, using(crate::proofs::LastCriteria::criteria_told), unfolding(crate::specs::AssignmentSteps::assign_line))]
pub fn assign_line(
    alloc: Global,
    before: &AssignedBefore,
    number: u32,
    field: &[u8],
    fields: &[Bytes],
) -> Result<Reading, LineError>
    ensures { Gives (λ reading. reading) result (assign_line before.now.local before.now.lines before.now.sets.now number field.now fields.now) }
{
    refuse_if(!is_set_name(field), ConfFault::BadValue)?;
    refuse_if(is_full(before, field), ConfFault::TooMany)?;
    refuse_if(field == b"allsets".as_slice(), ConfFault::Conflict)?;
    let mut fields = Fields::new(fields);
    let path = fields.next()?;
    refuse_if(!is_set_path(path), ConfFault::BadValue)?;
    let mut given = List::new(alloc);
    read_criteria(alloc, &mut given, fields)?;
    let path = Bytes::from_slice(alloc, path)?;
    let set = Bytes::from_slice(alloc, field)?;
    let mut assignment = bare(number, set, before.local, path);
    add_criteria(&mut assignment, given);
    Ok(Reading::Assign(assignment))
}
