//! Copy lines.

ghost use Rattle.std.specs.Prelude.{◌≡◌, ◌==◌, ◌&&◌};
ghost use Rattle.std.specs.Str.{bytes_eq};
ghost use Rattle.site_text.specs.Fields.{Gives, map_read};
ghost use Rattle.archiver_lines.specs.CopyRules.{has_copy};
ghost use Rattle.archiver_lines.specs.CopySteps.{no_second, copy_option, copy_ages, copy_conf, copy_line};

use crate::names::is_too_many;
use crate::reading::{CopyConf, SetCopy};
use base::Bytes;
use site_text::{ConfFault, Fields, LineError, age_value, is_option, read_number, refuse_if};
use std::alloc::Global;

/// The age in seconds at which a copy is made where its line gives none.
pub const DEFAULT_AGE: u64 = 240;

fn is_copy(line: &SetCopy, set: &[u8], copy: u64) -> bool
    ensures { result ≡ (bytes_eq line.now.set set.now && (line.now.conf.copy == copy)) }
{
    line.set.as_slice() == set && u64::from(line.conf.copy) == copy
}

fn has_copy(copies: &[SetCopy], set: &[u8], copy: u64) -> bool
    ensures { result ≡ has_copy copies.now set.now copy }
{
    copies.iter().any(|c| is_copy(c, set, copy))
}

/// Both ages in seconds, and nothing behind them.
#[tactic(auto, unfolding(crate::specs::CopySteps::copy_ages))]
fn copy_ages(fields: &[Bytes]) -> Result<(u64, Option<u64>), ConfFault>
    ensures { result ≡ copy_ages fields.now }
{
    match fields {
        [] => Ok((DEFAULT_AGE, None)),
        [first] => {
            let age = age_value(first.as_slice())?;
            Ok((age, None))
        }
        [first, second, rest @ ..] => {
            let age = age_value(first.as_slice())?;
            let unage = age_value(second.as_slice())?;
            let mut behind = Fields::new(rest);
            behind.end()?;
            Ok((age, Some(unage)))
        }
    }
}

/// Behind an option there is no second one.
#[tactic(auto, unfolding(crate::specs::CopySteps::no_second))]
fn no_second(same: &[u8], other: &[u8], fields: &[Bytes]) -> Result<(), ConfFault>
    ensures { result ≡ no_second same.now other.now fields.now }
{
    let [first, ..] = fields else {
        return Ok(());
    };
    let first = first.as_slice();
    if first == same {
        return Err(ConfFault::ExtraField);
    }
    if first == other {
        return Err(ConfFault::Conflict);
    }
    refuse_if(is_option(first), ConfFault::UnknownDirective)
}

/// Whether `-release` and `-norelease` stand, and the fields behind.
#[tactic(auto, unfolding(crate::specs::CopySteps::copy_option))]
fn copy_option(fields: &[Bytes]) -> Result<((bool, bool), &[Bytes]), ConfFault>
    ensures { map_read (λ x. (x.0, x.1.now)) result ≡ copy_option fields.now }
{
    let [first, rest @ ..] = fields else {
        return Ok(((false, false), fields));
    };
    let first = first.as_slice();
    if first == b"-release".as_slice() {
        no_second(b"-release", b"-norelease", rest)?;
        return Ok(((true, false), rest));
    }
    if first == b"-norelease".as_slice() {
        no_second(b"-norelease", b"-release", rest)?;
        return Ok(((false, true), rest));
    }
    if is_option(first) {
        Err(ConfFault::UnknownDirective)
    } else {
        Ok(((false, false), fields))
    }
}

/// What stands behind the number of a copy.
#[tactic(auto, unfolding(crate::specs::CopySteps::copy_conf))]
fn copy_conf(copy: u8, fields: &[Bytes]) -> Result<CopyConf, ConfFault>
    ensures { result ≡ copy_conf copy fields.now }
{
    let ((release, norelease), rest) = copy_option(fields)?;
    let (age, unage) = copy_ages(rest)?;
    Ok(CopyConf {
        copy,
        age,
        unage,
        release,
        norelease,
    })
}

/// `N [-release | -norelease] [archive_age [unarchive_age]]`, behind copy lines of these sets and an assignment or a file
/// system of the set `target`, if there was one.
#[tactic(auto, unfolding(crate::specs::CopySteps::copy_line))]
pub fn copy_line(
    alloc: Global,
    target: &Option<Bytes>,
    copies: &[SetCopy],
    sets: &[Bytes],
    field: &[u8],
    fields: &[Bytes],
) -> Result<SetCopy, LineError>
    ensures { Gives (λ line. line) result (copy_line target.now copies.now sets.now field.now fields.now) }
{
    let copy = read_number(9, field).ok_or(ConfFault::BadValue)?;
    let Some(set) = target else {
        return Err(LineError::Fault(ConfFault::CopyBeforeSet));
    };
    let set = set.as_slice();
    refuse_if(has_copy(copies, set, copy), ConfFault::CopyTwice)?;
    refuse_if(is_too_many(sets, set), ConfFault::TooMany)?;
    refuse_if(set == b"no_archive".as_slice(), ConfFault::Conflict)?;
    refuse_if(!(1 <= copy && copy <= 4), ConfFault::OutOfRange)?;
    let conf = copy_conf(copy as u8, fields)?;
    let set = Bytes::from_slice(alloc, set)?;
    Ok(SetCopy { set, conf })
}
