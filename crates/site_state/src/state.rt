//! What a site keeps in memory.

ghost use Rattle.std.specs.Prelude.{◌≤◌, ◌<◌};
ghost use Rattle.base.specs.declared.limits.TheConstants.{END_OF_TIME};

use crate::files::Files;
use cache_space::CacheSpace;
use configuration::Configuration;

/// The files of a site without their bytes, what its command files say, and the blocks that the files hold.
#[derive(Drop)]
pub struct SiteState {
    /// By rising inode.
    pub files: Files,
    /// The inode of the next new file, 1 to 4,294,967,295.
    pub next_inode: u32,
    /// The moment of the last step, in seconds.
    pub moment: u64,
    pub configuration: Configuration,
    pub space: CacheSpace,
    pub ghost from_one: { 1 ≤ next_inode },
    pub ghost range: { moment < END_OF_TIME },
}
