//! What recycler.cmd says.

use base::{Bytes, List};

/// How the volumes of a library are recycled.
#[derive(Clone, Copy, Debug, PartialEq, Eq)]
pub struct LibraryRecycling {
    /// From this part of its volumes' capacity on volumes are recycled: percent, 0 to 100.
    pub hwm: u32,
    /// How much of a volume recycling must free at least: percent, 0 to 100.
    pub mingain: u32,
    /// How many volumes are recycled at a time, at most.
    pub vsncount: u32,
    /// How many bytes of copies are moved at a time, at most.
    pub dataquantity: u64,
    /// No volume of it is recycled.
    pub ignore: bool,
}

/// Volumes that are not recycled.
#[derive(Drop)]
pub struct NoRecycle {
    /// The line that says it, counted from 1.
    pub line: u32,
    /// Their media type: two letters from `a` to `z` or digits.
    pub media: Bytes,
    /// Patterns, one of which is found in the volume's name; at least one. They are not built yet.
    pub patterns: List<Bytes>,
}

/// How volumes are recycled.
#[derive(Drop)]
pub struct RecyclerConf {
    /// For each library of the site, in its order.
    pub libraries: List<LibraryRecycling>,
    /// The volumes that are not recycled, in file order.
    pub no_recycle: List<NoRecycle>,
}

/// What an option of a library's line gives.
#[derive(Clone, Copy, PartialEq, Eq)]
pub enum RecycleOption {
    Hwm(u32),
    MinGain(u32),
    VsnCount(u32),
    DataQuantity(u64),
    Ignore,
    /// An option that is accepted without effect.
    Nothing,
}

/// What one line says.
#[derive(Drop)]
pub enum RecyclerReading {
    /// The place of a library among the site's, and the options.
    Library(usize, List<RecycleOption>),
    NoRecycle(NoRecycle),
    /// A line that is accepted without effect.
    Nothing,
}
