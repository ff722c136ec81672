//! The parts of steps that are written in several of them, or in a list.

ghost use Rattle.std.specs.Prelude.{◌≡◌, ◌≤◌, ◌<◌, ◌-◌, ◌^◌, length, Ok, Err};
ghost use Rattle.step_codec.specs.Written.{run, runs, section, sections, member, members, volume_end, ends, inodes, texts};

use crate::field::{Block, Field, Index, Inode, Number};
use crate::list::{read_list, write_list};
use crate::refusal::StepRefusal;
use crate::unread::Unread;
use base::{Bytes, List, MEMBER_COUNT_MAX, SECTION_COUNT_MAX};
use site_types::{Member, Run, Section, SiteTexts, VolumeEnd};
use std::alloc::AllocError;

impl Field for Run {
    type Value = Run;

    ghost form = { run };

    fn read(bytes: &mut Unread) -> Result<Run, StepRefusal> {
        Ok(Run {
            first: Block::read(bytes)?,
            count: Block::read(bytes)?,
        })
    }

    fn write(value: &Run, into: &mut Vec<u8>) -> Result<(), AllocError> {
        Block::write(&value.first, into)?;
        Block::write(&value.count, into)
    }
}

/// The blocks of a file.
pub struct Runs;

impl Field for Runs {
    type Value = List<Run>;

    ghost form = { runs };

    fn read(bytes: &mut Unread) -> Result<List<Run>, StepRefusal> {
        read_list::<Run>(bytes, 0, u32::MAX)
    }

    fn write(value: &List<Run>, into: &mut Vec<u8>) -> Result<(), AllocError> {
        write_list::<Run>(value.as_slice(), into)
    }
}

impl Field for Section {
    type Value = Section;

    ghost form = { section };

    fn read(bytes: &mut Unread) -> Result<Section, StepRefusal> {
        Ok(Section {
            volume: Index::read(bytes)?,
            label: Number::read(bytes)?,
            place: Number::read(bytes)?,
            length: Number::read(bytes)?,
        })
    }

    fn write(value: &Section, into: &mut Vec<u8>) -> Result<(), AllocError> {
        Index::write(&value.volume, into)?;
        Number::write(&value.label, into)?;
        Number::write(&value.place, into)?;
        Number::write(&value.length, into)
    }
}

/// The sections of a copy, 1 to 8 of them.
pub struct Sections;

impl Field for Sections {
    type Value = List<Section>;

    ghost form = { sections };

    fn read(bytes: &mut Unread) -> Result<List<Section>, StepRefusal> {
        read_list::<Section>(bytes, 1, SECTION_COUNT_MAX)
    }

    fn write(value: &List<Section>, into: &mut Vec<u8>) -> Result<(), AllocError> {
        write_list::<Section>(value.as_slice(), into)
    }
}

impl Field for Member {
    type Value = Member;

    ghost form = { member };

    fn read(bytes: &mut Unread) -> Result<Member, StepRefusal> {
        Ok(Member {
            inode: Inode::read(bytes)?,
            generation: Number::read(bytes)?,
            sections: Sections::read(bytes)?,
        })
    }

    fn write(value: &Member, into: &mut Vec<u8>) -> Result<(), AllocError> {
        Inode::write(&value.inode, into)?;
        Number::write(&value.generation, into)?;
        Sections::write(&value.sections, into)
    }
}

/// The files of an archive run, at most 512 of them.
pub struct Members;

impl Field for Members {
    type Value = List<Member>;

    ghost form = { members };

    fn read(bytes: &mut Unread) -> Result<List<Member>, StepRefusal> {
        read_list::<Member>(bytes, 0, MEMBER_COUNT_MAX)
    }

    fn write(value: &List<Member>, into: &mut Vec<u8>) -> Result<(), AllocError> {
        write_list::<Member>(value.as_slice(), into)
    }
}

impl Field for VolumeEnd {
    type Value = VolumeEnd;

    ghost form = { volume_end };

    fn read(bytes: &mut Unread) -> Result<VolumeEnd, StepRefusal> {
        Ok(VolumeEnd {
            volume: Index::read(bytes)?,
            used: Number::read(bytes)?,
        })
    }

    fn write(value: &VolumeEnd, into: &mut Vec<u8>) -> Result<(), AllocError> {
        Index::write(&value.volume, into)?;
        Number::write(&value.used, into)
    }
}

/// The ends of an archive run on volumes.
pub struct VolumeEnds;

impl Field for VolumeEnds {
    type Value = List<VolumeEnd>;

    ghost form = { ends };

    fn read(bytes: &mut Unread) -> Result<List<VolumeEnd>, StepRefusal> {
        read_list::<VolumeEnd>(bytes, 0, u32::MAX)
    }

    fn write(value: &List<VolumeEnd>, into: &mut Vec<u8>) -> Result<(), AllocError> {
        write_list::<VolumeEnd>(value.as_slice(), into)
    }
}

/// The inodes of files.
pub struct Inodes;

impl Field for Inodes {
    type Value = List<u32>;

    ghost form = { inodes };

    fn read(bytes: &mut Unread) -> Result<List<u32>, StepRefusal> {
        read_list::<Inode>(bytes, 0, u32::MAX)
    }

    fn write(value: &List<u32>, into: &mut Vec<u8>) -> Result<(), AllocError> {
        write_list::<Inode>(value.as_slice(), into)
    }
}

impl Field for SiteTexts {
    type Value = SiteTexts;

    ghost form = { texts };

    #[tactic(auto, unfolding(crate::specs::Written::texts))]
    fn read(bytes: &mut Unread) -> Result<SiteTexts, StepRefusal> {
        Ok(SiteTexts {
            site: Bytes::read(bytes)?,
            archiver: Bytes::read(bytes)?,
            stager: Bytes::read(bytes)?,
            releaser: Bytes::read(bytes)?,
            recycler: Bytes::read(bytes)?,
        })
    }

    #[tactic(auto, unfolding(crate::specs::Written::texts))]
    fn write(value: &SiteTexts, into: &mut Vec<u8>) -> Result<(), AllocError> {
        Bytes::write(&value.site, into)?;
        Bytes::write(&value.archiver, into)?;
        Bytes::write(&value.stager, into)?;
        Bytes::write(&value.releaser, into)?;
        Bytes::write(&value.recycler, into)
    }
}
