//! Lines of archiver.cmd.

ghost use Rattle.std.specs.Prelude.{◌≡◌, ℕ, List as Seq};
ghost use Rattle.site_text.specs.Fields.{Gives};
ghost use Rattle.archiver_lines.specs.LineSteps.{copy_reading, assign_reading, params_reading, pool_reading, vsns_reading, within_reading, line_of};
ghost use Rattle.archiver_lines.specs.KnownSteps.{Knows};
ghost use Rattle.archiver_lines.specs.declared.reading.Reading.{Reading};

use crate::assignments::{AssignedBefore, assign_line};
use crate::copy_lines::copy_line;
use crate::kinds::{LineKind, kind_of};
use crate::known::Known;
use crate::names::SetNames;
use crate::reading::{Opened, Reading, Section};
use crate::section_lines::{params_line, pool_line, vsns_line};
use crate::value_lines::read_value_line;
use base::Bytes;
use site_text::{ConfFault, Line, LineError};
use std::alloc::Global;

fn read_copy(alloc: Global, known: &Known, fields: &[Bytes]) -> Result<Reading, LineError>
    ensures { (site : Seq ℕ) → (said : Seq Reading) → Knows site said known.now → Gives (λ reading. reading) result (copy_reading said fields.now) }
{
    let [first, rest @ ..] = fields else {
        return Err(LineError::Fault(ConfFault::MissingField));
    };
    let copies = known.copies.as_slice();
    let sets = known.sets.as_slice();
    let line = copy_line(alloc, &known.target, copies, sets, first.as_slice(), rest)?;
    Ok(Reading::Copy(line))
}

fn read_assignment(
    alloc: Global,
    known: &Known,
    number: u32,
    fields: &[Bytes],
) -> Result<Reading, LineError>
    ensures { (site : Seq ℕ) → (said : Seq Reading) → Knows site said known.now → Gives (λ reading. reading) result (assign_reading site said number fields.now) }
{
    let [first, rest @ ..] = fields else {
        return Err(LineError::Fault(ConfFault::MissingField));
    };
    let before = AssignedBefore {
        local: known.local,
        lines: known.assignments.len(),
        sets: known.sets.as_slice(),
    };
    assign_line(alloc, &before, number, first.as_slice(), rest)
}

fn read_params(
    alloc: Global,
    site: &[u8],
    known: &Known,
    fields: &[Bytes],
) -> Result<Reading, LineError>
    ensures { (said : Seq Reading) → Knows site.now said known.now → Gives (λ reading. reading) result (params_reading site.now said fields.now) }
{
    let [first, rest @ ..] = fields else {
        return Err(LineError::Fault(ConfFault::MissingField));
    };
    let names = SetNames {
        site,
        file_systems: known.file_systems.as_slice(),
        sets: known.sets.as_slice(),
    };
    let line = params_line(
        alloc,
        &names,
        known.params.as_slice(),
        first.as_slice(),
        rest,
    )?;
    Ok(Reading::Params(line))
}

fn read_pool(alloc: Global, number: u32, fields: &[Bytes]) -> Result<Reading, LineError>
    ensures { Gives (λ reading. reading) result (pool_reading number fields.now) }
{
    Ok(Reading::Pool(pool_line(alloc, number, fields)?))
}

fn read_vsns(
    alloc: Global,
    site: &[u8],
    known: &Known,
    number: u32,
    fields: &[Bytes],
) -> Result<Reading, LineError>
    ensures { (said : Seq Reading) → Knows site.now said known.now → Gives (λ reading. reading) result (vsns_reading site.now said number fields.now) }
{
    let [first, rest @ ..] = fields else {
        return Err(LineError::Fault(ConfFault::MissingField));
    };
    let names = SetNames {
        site,
        file_systems: known.file_systems.as_slice(),
        sets: known.sets.as_slice(),
    };
    let pools = known.pools.as_slice();
    let line = vsns_line(
        alloc,
        &names,
        pools,
        known.exprs,
        number,
        first.as_slice(),
        rest,
    )?;
    Ok(Reading::Vsns(line))
}

/// What a line of a section says.
fn read_within(
    alloc: Global,
    site: &[u8],
    known: &Known,
    section: Section,
    line: &Line,
) -> Result<Reading, LineError>
    ensures { (said : Seq Reading) → Knows site.now said known.now → Gives (λ reading. reading) result (within_reading section site.now said line.now) }
{
    let fields = line.fields.as_slice();
    match section {
        Section::Params => read_params(alloc, site, known, fields),
        Section::VsnPools => read_pool(alloc, line.number, fields),
        Section::Vsns => read_vsns(alloc, site, known, line.number, fields),
    }
}

/// What a line says, behind lines that told this.
#[tactic(auto, unfolding(crate::specs::LineSteps::line_of))]
pub fn read_line(
    alloc: Global,
    site: &[u8],
    known: &Known,
    line: &Line,
) -> Result<Reading, LineError>
    ensures { (said : Seq Reading) → Knows site.now said known.now → Gives (λ reading. reading) result (line_of site.now said line.now) }
{
    let fields = line.fields.as_slice();
    match kind_of(known.opened, fields) {
        LineKind::Empty => Err(LineError::Fault(ConfFault::MissingField)),
        LineKind::NoDirective => Err(LineError::Fault(ConfFault::UnknownDirective)),
        LineKind::Ends => Ok(Reading::Closes),
        LineKind::Within(section) => read_within(alloc, site, known, section, line),
        LineKind::Value => read_value_line(alloc, fields),
        LineKind::Begins(section) => Ok(Reading::Opens(Opened {
            section,
            line: line.number,
        })),
        LineKind::Copy => read_copy(alloc, known, fields),
        LineKind::Assignment => read_assignment(alloc, known, line.number, fields),
    }
}
