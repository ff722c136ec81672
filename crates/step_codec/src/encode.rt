//! The one written form of a step.

ghost use Rattle.std.specs.Prelude.{◌≡◌, ◌<◌, ◌≤◌, ◌+◌, ◌∷◌, ◌++◌, length, OnOk, OnErr, vec_len, vec_capacity};
ghost use Rattle.step_codec.specs.Writing.{Adds};
ghost use Rattle.step_codec.specs.Written.{moment, row, kind_written, IsRowInRange, written, InRange};

use crate::field::{Field, Index, Inode, Moment, write_byte};
use crate::parts::Inodes;
use site_types::{
    AttributedStep, CopyMadeStep, DamagedStep, FileCopy, FlaggedStep, PutStep, RelabelledStep,
    ReleasedStep, RenamedStep, SiteTexts, StagedStep, Step, StepKind,
};
use std::alloc::AllocError;

// The number of a kind, the moment and the fields.
fn write_row<F: Field>(
    number: u8,
    at: u64,
    fields: &F::Value,
    into: &mut Vec<u8>,
) -> Result<(), AllocError>
    requires at { moment.InRange at }
    requires fields { F.form.InRange fields.now }
    ensures { Adds into.old into.new result (number ∷ moment.written at ++ F.form.written fields.now) }
{
    write_byte(into, number)?;
    Moment::write(&at, into)?;
    F::write(fields, into)
}

#[tactic(auto, unfolding(crate::specs::Written::written, crate::specs::Written::InRange))]
fn write_step(step: &Step, into: &mut Vec<u8>) -> Result<(), AllocError>
    requires { InRange step.now }
    ensures { Adds into.old into.new result (written step.now) }
{
    let at = step.moment;
    match &step.kind {
        StepKind::Configured(x) => write_row::<SiteTexts>(1, at, x, into),
        StepKind::Put(x) => write_row::<PutStep>(2, at, x, into),
        StepKind::Accessed { inode } => write_row::<Inode>(3, at, inode, into),
        StepKind::Removed { inode } => write_row::<Inode>(4, at, inode, into),
        StepKind::Renamed(x) => write_row::<RenamedStep>(5, at, x, into),
        StepKind::Attributed(x) => write_row::<AttributedStep>(6, at, x, into),
        StepKind::CopyMade(x) => write_row::<CopyMadeStep>(7, at, x, into),
        StepKind::Rearchive(x) => write_row::<FileCopy>(8, at, x, into),
        StepKind::Unarchived(x) => write_row::<FileCopy>(9, at, x, into),
        StepKind::Released(x) => write_row::<ReleasedStep>(10, at, x, into),
        StepKind::Wanted { inodes } => write_row::<Inodes>(11, at, inodes, into),
        StepKind::Staged(x) => write_row::<StagedStep>(12, at, x, into),
        StepKind::StageFailed { inode } => write_row::<Inode>(13, at, inode, into),
        StepKind::Damaged(x) => write_row::<DamagedStep>(14, at, x, into),
        StepKind::Recycling { volume } => write_row::<Index>(15, at, volume, into),
        StepKind::Relabelled(x) => write_row::<RelabelledStep>(16, at, x, into),
        StepKind::Flagged(x) => write_row::<FlaggedStep>(17, at, x, into),
    }
}

/// Adds the one written form of a step at the end. It takes no memory where there is spare room for
/// it; where there is none and memory runs out, `into` keeps its bytes.
pub fn encode_step(step: &Step, into: &mut Vec<u8>) -> Result<(), AllocError>
    // Each field of the step is in its range.
    requires { InRange step.now }
    ensures ok { OnOk result (into.new.items ≡ into.old.items ++ written step.now) }
    ensures len { OnOk result (vec_len into.new ≡ vec_len into.old + length (written step.now)) }
    ensures err { OnErr result (into.new.items ≡ into.old.items) }
    // The room never shrinks, and memory can run out only where there was too little of it.
    ensures room { vec_capacity into.old ≤ vec_capacity into.new }
    ensures full { OnErr result (vec_capacity into.old < vec_len into.old + length (written step.now)) }
{
    let start = into.as_slice().len();
    match write_step(step, into) {
        Ok(()) => Ok(()),
        Err(e) => {
            into.truncate(start);
            Err(e)
        }
    }
}
