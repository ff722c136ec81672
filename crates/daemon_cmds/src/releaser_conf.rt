//! What releaser.cmd says.

use base::{Bytes, List};

/// How the ages of a file weigh in its priority. Weights are in millionths, at most 1,000,000.
#[derive(Clone, Copy, Debug, PartialEq, Eq)]
pub enum AgeWeights {
    /// The least of the ages since access, modification and residence has this weight. A file resides since its last put, staging or
    /// release.
    Least(u32),
    /// The three ages have each a weight of their own.
    Separate {
        access: u32,
        modify: u32,
        residence: u32,
    },
}

/// How files are released.
#[derive(Drop)]
pub struct ReleaserConf {
    /// How a file's ages weigh.
    pub ages: AgeWeights,
    /// How its size weighs: millionths, at most 1,000,000.
    pub size: u32,
    /// How long a file that is released by its priority must reside in the cache before, since its last put, staging or release:
    /// seconds, below 2^40. A file that is released at once, or by a command, does not wait for it.
    pub min_residence_age: u64,
    /// No file is released.
    pub no_release: bool,
    /// A file that is to be archived anew is not released.
    pub rearch_no_release: bool,
}

/// What a weight is of.
#[derive(Clone, Copy, PartialEq, Eq)]
pub enum Weight {
    Age,
    Access,
    Modify,
    Residence,
    Size,
}

/// What a line sets.
#[derive(Clone, Copy, PartialEq, Eq)]
pub enum Setting {
    /// A weight in millionths.
    Weight(Weight, u32),
    MinResidenceAge(u64),
    NoRelease,
    RearchNoRelease,
}

/// What one line says.
#[derive(Drop)]
pub enum ReleaserReading {
    /// The lines that follow are of this file system's part.
    Part(Bytes),
    Set(Setting),
    /// A line that is accepted without effect.
    Nothing,
}

/// What was set in a part: in that of a file system, or above them all.
#[derive(Drop)]
pub struct PartSetting {
    pub part: Option<Bytes>,
    pub setting: Setting,
}

/// What is set in one part, each by its last line there.
#[derive(Clone, Copy, PartialEq, Eq)]
pub struct Settings {
    pub age: Option<u32>,
    pub access: Option<u32>,
    pub modify: Option<u32>,
    pub residence: Option<u32>,
    pub size: Option<u32>,
    pub min_residence_age: Option<u64>,
    pub no_release: bool,
    pub rearch_no_release: bool,
}

/// What the lines so far told.
#[derive(Drop)]
pub struct ReleaserSoFar {
    /// The file system in whose part the next line stands.
    pub part: Option<Bytes>,
    /// All that was set, in file order.
    pub given: List<PartSetting>,
    /// What is set before all parts of file systems.
    pub global: Settings,
    /// What is set in the part of the site's file system.
    pub local: Settings,
}
