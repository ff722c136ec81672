//! The plain types of a site: its files, copies and volumes, the texts of its command files, and its steps.
#![tactic(auto)]

mod copies;
mod file;
mod step;

pub use file::{
    CopyRec, CopySlot, CopySlots, FileRec, Flag, ReleaseKind, Run, Section, SiteTexts, StageKind,
    VolumeRec,
};
pub use step::{
    AttributedStep, CopyMadeStep, DamagedStep, FileCopy, FlaggedStep, Member, PutStep,
    RelabelledStep, ReleasedStep, RenamedStep, StagedStep, Step, StepKind, VolumeEnd,
};
