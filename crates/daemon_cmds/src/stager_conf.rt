//! What stager.cmd says.

use base::List;

/// How files are staged.
#[derive(Drop)]
pub struct StagerConf {
    /// For each library of the site, in its order: the drives given for it, 0 to 64, or all that it has. Only 0 has an effect: no file
    /// is staged from that library.
    pub drives: List<u32>,
    /// How many files the stage queue holds at most, 1 to 65,536.
    pub maxactive: u32,
    /// The numbers 1 to 4 in the order in which a file's copies are tried.
    pub copysel: List<u8>,
}

/// What one line says.
#[derive(Drop)]
pub enum StagerReading {
    /// The place of a library among the site's, and the drives.
    Drives(usize, u32),
    MaxActive(u32),
    CopySel(List<u8>),
    /// A line that is accepted without effect.
    Nothing,
}
