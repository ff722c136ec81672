//! What site.conf says.

ghost use Rattle.std.specs.Prelude.{◌≡◌, IfOk};

use base::{Bytes, List};
use std::alloc::AllocError;

/// A library of the site.
#[derive(Drop)]
pub struct Library {
    /// 1 to 32 letters, digits, `_`, `-` and `.`; no other library of the site has it.
    pub name: Bytes,
    /// How many drives it has, 1 to 64.
    pub drives: u32,
}

impl Library {
    /// A copy.
    pub fn copy(&self) -> Result<Library, AllocError>
        ensures { IfOk result (λ copy. copy ≡ self.now) }
    {
        Ok(Library {
            name: self.name.copy()?,
            drives: self.drives,
        })
    }
}

/// A volume of the site.
#[derive(Drop)]
pub struct Volume {
    /// The place of its library among the site's, from 0.
    pub library: usize,
    /// Its media type: two letters from `a` to `z` or digits.
    pub media: Bytes,
    /// Its name: 1 to 32 letters, digits, `_`, `-` and `.`; no other volume of the site has it.
    pub vsn: Bytes,
    /// How many bytes it holds: 512 to 2^45, a multiple of 512.
    pub capacity: u64,
}

impl Volume {
    /// A copy.
    pub fn copy(&self) -> Result<Volume, AllocError>
        ensures { IfOk result (λ copy. copy ≡ self.now) }
    {
        Ok(Volume {
            library: self.library,
            media: self.media.copy()?,
            vsn: self.vsn.copy()?,
            capacity: self.capacity,
        })
    }
}

/// The site: its file system, its cache, and what its files are archived on.
#[derive(Drop)]
pub struct SiteConf {
    /// The name of the file system: 1 to 32 letters, digits, `_`, `-` and `.`.
    pub name: Bytes,
    /// The size of the cache in bytes: 4 KiB to 64 GiB, a multiple of 4 KiB.
    pub cache: u64,
    /// From this part of the cache on the releaser frees files: percent, 0 to 100.
    pub high: u32,
    /// Down to this part of the cache it frees them: percent, 0 to 100.
    pub low: u32,
    /// The libraries, in file order; at most 64.
    pub libraries: List<Library>,
    /// The volumes, in file order, which is the order of the catalog; at most 1,024.
    pub volumes: List<Volume>,
}

/// What one line says.
#[derive(Drop)]
pub enum SiteReading {
    FileSystem(Bytes),
    Cache(u64),
    High(u32),
    Low(u32),
    Library(Library),
    Volume(Volume),
}

/// What the lines so far told.
#[derive(Drop)]
pub struct SiteSoFar {
    pub name: Option<Bytes>,
    pub cache: Option<u64>,
    pub high: Option<u32>,
    pub low: Option<u32>,
    pub libraries: List<Library>,
    pub volumes: List<Volume>,
}
