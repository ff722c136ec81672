//! The steps of a site's history, one of 17 kinds each.

use crate::file::{Flag, ReleaseKind, Run, Section, SiteTexts, StageKind};
use base::{Bytes, List};

/// A file was stored: a new one, or one that replaces the file of this path.
#[derive(Drop)]
pub struct PutStep {
    pub inode: u32,
    pub path: Bytes,
    pub owner: Bytes,
    pub group: Bytes,
    /// In bytes.
    pub length: u64,
    /// The blocks of its bytes, in their order.
    pub runs: List<Run>,
}

/// A file got another path.
#[derive(Drop)]
pub struct RenamedStep {
    pub inode: u32,
    pub path: Bytes,
}

/// A file got other attributes.
#[derive(Clone, Copy, Debug, PartialEq, Eq)]
pub struct AttributedStep {
    pub inode: u32,
    pub release: ReleaseKind,
    /// How many first bytes a partial release keeps; 0 where the kind is another.
    pub partial: u64,
    pub stage: StageKind,
}

/// A file of an archive run.
#[derive(Drop)]
pub struct Member {
    pub inode: u32,
    pub generation: u64,
    pub sections: List<Section>,
}

/// Where an archive run ends on a volume.
#[derive(Clone, Copy, Debug, PartialEq, Eq)]
pub struct VolumeEnd {
    /// The volume's number in the catalog, from 0.
    pub volume: u32,
    /// The volume's used bytes after the run.
    pub used: u64,
}

/// Files were copied to volumes in one archive run.
#[derive(Drop)]
pub struct CopyMadeStep {
    /// The number of the archive set, from 0.
    pub set: u32,
    /// The copy, 1 to 4.
    pub copy: u8,
    /// The key that the volumes are reserved for; empty where they are not reserved.
    pub key: Bytes,
    pub members: List<Member>,
    pub ends: List<VolumeEnd>,
}

/// One of the copies of a file.
#[derive(Clone, Copy, Debug, PartialEq, Eq)]
pub struct FileCopy {
    pub inode: u32,
    /// 1 to 4.
    pub copy: u8,
}

/// Blocks of a file were released.
#[derive(Clone, Copy, Debug, PartialEq, Eq)]
pub struct ReleasedStep {
    pub inode: u32,
    /// How many first bytes are in the cache still.
    pub cached: u64,
}

/// A file was brought back from a copy.
#[derive(Drop)]
pub struct StagedStep {
    pub inode: u32,
    /// The copy, 1 to 4.
    pub copy: u8,
    /// The blocks of its bytes, in their order.
    pub runs: List<Run>,
}

/// A copy was marked as damaged, or no longer so.
#[derive(Clone, Copy, Debug, PartialEq, Eq)]
pub struct DamagedStep {
    pub inode: u32,
    /// The copy, 1 to 4.
    pub copy: u8,
    pub on: bool,
}

/// A volume got a new label.
#[derive(Clone, Copy, Debug, PartialEq, Eq)]
pub struct RelabelledStep {
    /// The volume's number in the catalog, from 0.
    pub volume: u32,
    pub label: u64,
}

/// A flag of a volume was set, or taken away.
#[derive(Clone, Copy, Debug, PartialEq, Eq)]
pub struct FlaggedStep {
    /// The volume's number in the catalog, from 0.
    pub volume: u32,
    pub flag: Flag,
    pub on: bool,
}

/// What a step changes. A kind of several fields carries a struct of them.
#[derive(Drop)]
pub enum StepKind {
    Configured(SiteTexts),
    Put(PutStep),
    Accessed { inode: u32 },
    Removed { inode: u32 },
    Renamed(RenamedStep),
    Attributed(AttributedStep),
    CopyMade(CopyMadeStep),
    Rearchive(FileCopy),
    Unarchived(FileCopy),
    Released(ReleasedStep),
    Wanted { inodes: List<u32> },
    Staged(StagedStep),
    StageFailed { inode: u32 },
    Damaged(DamagedStep),
    Recycling { volume: u32 },
    Relabelled(RelabelledStep),
    Flagged(FlaggedStep),
}

/// A step: one change, and the moment at which it was made, in seconds below 2^40.
#[derive(Drop)]
pub struct Step {
    pub moment: u64,
    pub kind: StepKind,
}
