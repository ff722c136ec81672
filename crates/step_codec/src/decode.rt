//! A step from its written form.

ghost use Rattle.std.specs.Prelude.{◌≡◌, ℕ, IfOk, IfErr, Ok, Err};
ghost use Rattle.step_codec.specs.Reading.{Gives, kind_at, fields_at, step_at};
ghost use Rattle.step_codec.specs.Written.{written, InRange, IsRefused};
ghost use Rattle.site_types.specs.declared.step.Step.{Step};
ghost use Rattle.step_codec.specs.declared.refusal.StepRefusal.{StepRefusal};

use crate::field::{Field, Index, Inode, Moment};
use crate::parts::Inodes;
use crate::refusal::StepRefusal;
use crate::unread::Unread;
use site_types::{
    AttributedStep, CopyMadeStep, DamagedStep, FileCopy, FlaggedStep, PutStep, RelabelledStep,
    ReleasedStep, RenamedStep, SiteTexts, StagedStep, Step, StepKind,
};
use std::alloc::Global;

/// The kinds are numbered from 1 to this.
const LAST_KIND: u8 = 17;

#[tactic(auto, unfolding(crate::specs::Reading::kinds))]
fn read_kind(number: u8, bytes: &mut Unread) -> Result<StepKind, StepRefusal>
    ensures { Gives (λ x. (x, bytes.new)) result (kind_at number bytes.old) }
{
    match number {
        1 => Ok(StepKind::Configured(SiteTexts::read(bytes)?)),
        2 => Ok(StepKind::Put(PutStep::read(bytes)?)),
        3 => Ok(StepKind::Accessed {
            inode: Inode::read(bytes)?,
        }),
        4 => Ok(StepKind::Removed {
            inode: Inode::read(bytes)?,
        }),
        5 => Ok(StepKind::Renamed(RenamedStep::read(bytes)?)),
        6 => Ok(StepKind::Attributed(AttributedStep::read(bytes)?)),
        7 => Ok(StepKind::CopyMade(CopyMadeStep::read(bytes)?)),
        8 => Ok(StepKind::Rearchive(FileCopy::read(bytes)?)),
        9 => Ok(StepKind::Unarchived(FileCopy::read(bytes)?)),
        10 => Ok(StepKind::Released(ReleasedStep::read(bytes)?)),
        11 => Ok(StepKind::Wanted {
            inodes: Inodes::read(bytes)?,
        }),
        12 => Ok(StepKind::Staged(StagedStep::read(bytes)?)),
        13 => Ok(StepKind::StageFailed {
            inode: Inode::read(bytes)?,
        }),
        14 => Ok(StepKind::Damaged(DamagedStep::read(bytes)?)),
        15 => Ok(StepKind::Recycling {
            volume: Index::read(bytes)?,
        }),
        16 => Ok(StepKind::Relabelled(RelabelledStep::read(bytes)?)),
        17 => Ok(StepKind::Flagged(FlaggedStep::read(bytes)?)),
        _ => Err(StepRefusal::BadKind),
    }
}

#[tactic(auto, unfolding(crate::specs::Reading::fields_at))]
fn read_fields(number: u8, bytes: &mut Unread) -> Result<Step, StepRefusal>
    ensures { Gives (λ s. s) result (fields_at number bytes.old) }
{
    let moment = Moment::read(bytes)?;
    let kind = read_kind(number, bytes)?;
    if !bytes.is_empty() {
        return Err(StepRefusal::BadField);
    }
    Ok(Step { moment, kind })
}

#[tactic(auto, unfolding(crate::specs::Reading::step_at, crate::specs::Reading::kinds))]
fn read_step(alloc: Global, bytes: &[u8]) -> Result<Step, StepRefusal>
    ensures { Gives (λ s. s) result (step_at bytes.now) }
{
    match bytes {
        [] => Err(StepRefusal::Truncated),
        [number, rest @ ..] => {
            if *number < 1 || LAST_KIND < *number {
                return Err(StepRefusal::BadKind);
            }
            read_fields(*number, &mut Unread::new(alloc, rest))
        }
    }
}

/// The step that the bytes are the written form of. The one written form of each step whose fields
/// are in range is read, and nothing else: at the first field without a reading the refusal is
/// `Truncated` where the bytes end in it, `BadKind` where it is a kind that is none, and `BadField`
/// where its value is out of range or where bytes follow the last field.
pub fn decode_step(alloc: Global, bytes: &[u8]) -> Result<Step, StepRefusal>
    // What is read is written so.
    ensures found { IfOk result (λ s. InRange s × (bytes.now ≡ written s)) }
    // What is written so is read, unless memory runs out.
    ensures only { (s : Step) → InRange s → bytes.now ≡ written s → Gives (λ t. t) result (Ok s) }
    // A refusal tells of the first field without a reading.
    ensures refused { IfErr result (λ e. (¬ (e ≡ StepRefusal.NoMemory)) → IsRefused bytes.now e) }
    // Where there is such a field, it is what the refusal tells of, unless memory runs out.
    ensures refuses { (e : StepRefusal) → IsRefused bytes.now e → Gives (λ t. t) result (Err e) }
    // The same as a function of the bytes.
    ensures exact { Gives (λ s. s) result (step_at bytes.now) }
{
    read_step(alloc, bytes)
}
