//! The fields of each kind of step that carries a struct.

ghost use Rattle.std.specs.Prelude.{◌≡◌, ◌≤◌, ◌<◌, ◌-◌, ◌^◌, length, Ok, Err};
ghost use Rattle.step_codec.specs.Written.{put, renamed, attributed, copy_made, file_copy, released, staged, damaged, relabelled, flagged};

use crate::field::{CopyNumber, Field, Index, Inode, Number};
use crate::parts::{Members, Runs, VolumeEnds};
use crate::refusal::StepRefusal;
use crate::unread::Unread;
use base::Bytes;
use site_types::{
    AttributedStep, CopyMadeStep, DamagedStep, FileCopy, Flag, FlaggedStep, PutStep,
    RelabelledStep, ReleaseKind, ReleasedStep, RenamedStep, StageKind, StagedStep,
};
use std::alloc::AllocError;

impl Field for PutStep {
    type Value = PutStep;

    ghost form = { put };

    #[tactic(auto, unfolding(crate::specs::Written::put))]
    fn read(bytes: &mut Unread) -> Result<PutStep, StepRefusal> {
        Ok(PutStep {
            inode: Inode::read(bytes)?,
            path: Bytes::read(bytes)?,
            owner: Bytes::read(bytes)?,
            group: Bytes::read(bytes)?,
            length: Number::read(bytes)?,
            runs: Runs::read(bytes)?,
        })
    }

    #[tactic(auto, unfolding(crate::specs::Written::put))]
    fn write(value: &PutStep, into: &mut Vec<u8>) -> Result<(), AllocError> {
        Inode::write(&value.inode, into)?;
        Bytes::write(&value.path, into)?;
        Bytes::write(&value.owner, into)?;
        Bytes::write(&value.group, into)?;
        Number::write(&value.length, into)?;
        Runs::write(&value.runs, into)
    }
}

impl Field for RenamedStep {
    type Value = RenamedStep;

    ghost form = { renamed };

    #[tactic(auto, unfolding(crate::specs::Written::renamed))]
    fn read(bytes: &mut Unread) -> Result<RenamedStep, StepRefusal> {
        Ok(RenamedStep {
            inode: Inode::read(bytes)?,
            path: Bytes::read(bytes)?,
        })
    }

    #[tactic(auto, unfolding(crate::specs::Written::renamed))]
    fn write(value: &RenamedStep, into: &mut Vec<u8>) -> Result<(), AllocError> {
        Inode::write(&value.inode, into)?;
        Bytes::write(&value.path, into)
    }
}

impl Field for AttributedStep {
    type Value = AttributedStep;

    ghost form = { attributed };

    #[tactic(auto, unfolding(crate::specs::Written::attributed))]
    fn read(bytes: &mut Unread) -> Result<AttributedStep, StepRefusal> {
        Ok(AttributedStep {
            inode: Inode::read(bytes)?,
            release: ReleaseKind::read(bytes)?,
            partial: Number::read(bytes)?,
            stage: StageKind::read(bytes)?,
        })
    }

    #[tactic(auto, unfolding(crate::specs::Written::attributed))]
    fn write(value: &AttributedStep, into: &mut Vec<u8>) -> Result<(), AllocError> {
        Inode::write(&value.inode, into)?;
        ReleaseKind::write(&value.release, into)?;
        Number::write(&value.partial, into)?;
        StageKind::write(&value.stage, into)
    }
}

impl Field for CopyMadeStep {
    type Value = CopyMadeStep;

    ghost form = { copy_made };

    #[tactic(auto, unfolding(crate::specs::Written::copy_made))]
    fn read(bytes: &mut Unread) -> Result<CopyMadeStep, StepRefusal> {
        Ok(CopyMadeStep {
            set: Index::read(bytes)?,
            copy: CopyNumber::read(bytes)?,
            key: Bytes::read(bytes)?,
            members: Members::read(bytes)?,
            ends: VolumeEnds::read(bytes)?,
        })
    }

    #[tactic(auto, unfolding(crate::specs::Written::copy_made))]
    fn write(value: &CopyMadeStep, into: &mut Vec<u8>) -> Result<(), AllocError> {
        Index::write(&value.set, into)?;
        CopyNumber::write(&value.copy, into)?;
        Bytes::write(&value.key, into)?;
        Members::write(&value.members, into)?;
        VolumeEnds::write(&value.ends, into)
    }
}

impl Field for FileCopy {
    type Value = FileCopy;

    ghost form = { file_copy };

    #[tactic(auto, unfolding(crate::specs::Written::file_copy))]
    fn read(bytes: &mut Unread) -> Result<FileCopy, StepRefusal> {
        Ok(FileCopy {
            inode: Inode::read(bytes)?,
            copy: CopyNumber::read(bytes)?,
        })
    }

    #[tactic(auto, unfolding(crate::specs::Written::file_copy))]
    fn write(value: &FileCopy, into: &mut Vec<u8>) -> Result<(), AllocError> {
        Inode::write(&value.inode, into)?;
        CopyNumber::write(&value.copy, into)
    }
}

impl Field for ReleasedStep {
    type Value = ReleasedStep;

    ghost form = { released };

    #[tactic(auto, unfolding(crate::specs::Written::released))]
    fn read(bytes: &mut Unread) -> Result<ReleasedStep, StepRefusal> {
        Ok(ReleasedStep {
            inode: Inode::read(bytes)?,
            cached: Number::read(bytes)?,
        })
    }

    #[tactic(auto, unfolding(crate::specs::Written::released))]
    fn write(value: &ReleasedStep, into: &mut Vec<u8>) -> Result<(), AllocError> {
        Inode::write(&value.inode, into)?;
        Number::write(&value.cached, into)
    }
}

impl Field for StagedStep {
    type Value = StagedStep;

    ghost form = { staged };

    #[tactic(auto, unfolding(crate::specs::Written::staged))]
    fn read(bytes: &mut Unread) -> Result<StagedStep, StepRefusal> {
        Ok(StagedStep {
            inode: Inode::read(bytes)?,
            copy: CopyNumber::read(bytes)?,
            runs: Runs::read(bytes)?,
        })
    }

    #[tactic(auto, unfolding(crate::specs::Written::staged))]
    fn write(value: &StagedStep, into: &mut Vec<u8>) -> Result<(), AllocError> {
        Inode::write(&value.inode, into)?;
        CopyNumber::write(&value.copy, into)?;
        Runs::write(&value.runs, into)
    }
}

impl Field for DamagedStep {
    type Value = DamagedStep;

    ghost form = { damaged };

    #[tactic(auto, unfolding(crate::specs::Written::damaged))]
    fn read(bytes: &mut Unread) -> Result<DamagedStep, StepRefusal> {
        Ok(DamagedStep {
            inode: Inode::read(bytes)?,
            copy: CopyNumber::read(bytes)?,
            on: bool::read(bytes)?,
        })
    }

    #[tactic(auto, unfolding(crate::specs::Written::damaged))]
    fn write(value: &DamagedStep, into: &mut Vec<u8>) -> Result<(), AllocError> {
        Inode::write(&value.inode, into)?;
        CopyNumber::write(&value.copy, into)?;
        bool::write(&value.on, into)
    }
}

impl Field for RelabelledStep {
    type Value = RelabelledStep;

    ghost form = { relabelled };

    #[tactic(auto, unfolding(crate::specs::Written::relabelled))]
    fn read(bytes: &mut Unread) -> Result<RelabelledStep, StepRefusal> {
        Ok(RelabelledStep {
            volume: Index::read(bytes)?,
            label: Number::read(bytes)?,
        })
    }

    #[tactic(auto, unfolding(crate::specs::Written::relabelled))]
    fn write(value: &RelabelledStep, into: &mut Vec<u8>) -> Result<(), AllocError> {
        Index::write(&value.volume, into)?;
        Number::write(&value.label, into)
    }
}

impl Field for FlaggedStep {
    type Value = FlaggedStep;

    ghost form = { flagged };

    #[tactic(auto, unfolding(crate::specs::Written::flagged))]
    fn read(bytes: &mut Unread) -> Result<FlaggedStep, StepRefusal> {
        Ok(FlaggedStep {
            volume: Index::read(bytes)?,
            flag: Flag::read(bytes)?,
            on: bool::read(bytes)?,
        })
    }

    #[tactic(auto, unfolding(crate::specs::Written::flagged))]
    fn write(value: &FlaggedStep, into: &mut Vec<u8>) -> Result<(), AllocError> {
        Index::write(&value.volume, into)?;
        Flag::write(&value.flag, into)?;
        bool::write(&value.on, into)
    }
}
