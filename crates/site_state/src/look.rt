//! What is asked of a site.

ghost use Rattle.std.specs.Prelude.{◌≡◌, ◌≤◌, ◌<◌, length, IfOk, IfSome, OnOk};
ghost use Rattle.std.specs.Option.{option_copied};
ghost use Rattle.std.specs.List.{AllByRecursion};
ghost use Rattle.site_types.specs.Ranges.{IsInode, IsRun};
ghost use Rattle.cache_space.specs.Blocks.{blocks_for, free_blocks, lowest_runs};
ghost use Rattle.cache_space.specs.Space.{AreMaximal};
ghost use Rattle.configuration.specs.ConfigurationRules.{Says};
ghost use Rattle.site_history.specs.Site.{Fields, file_at, held_runs, cache_blocks};
ghost use Rattle.site_state.specs.Keeps.{Keeps};

use crate::state::SiteState;
use base::List;
use cache_space::blocks_needed;
use configuration::Configuration;
use site_types::{FileRec, Run};
use std::alloc::AllocError;

impl SiteState {
    /// What the command files say.
    pub fn configuration(&self) -> &Configuration
        ensures said { (fields : Fields) → Keeps self.now fields → result.now ≡ fields.configuration }
        ensures kept { result.now ≡ self.now.configuration }
    {
        &self.configuration
    }

    /// The file of a path.
    pub fn file_at(&self, path: &[u8]) -> Option<&FileRec>
        ensures file { (fields : Fields) → Keeps self.now fields → option_copied result ≡ file_at path.now fields.files }
        ensures inode { IfSome result (λ file. IsInode file.now.inode) }
    {
        self.files.get(path)
    }

    /// The lowest free blocks for so many bytes, as maximal runs. Where fewer blocks are free, which `place_of_put` rules out,
    /// it fails as it does for want of memory.
    pub fn free_runs(&self, size: u32) -> Result<List<Run>, AllocError>
        ensures lowest { (fields : Fields) → Keeps self.now fields → blocks_for size ≤ length (free_blocks (cache_blocks fields) (held_runs fields.files))
            → IfOk result (λ runs. runs ≡ lowest_runs (cache_blocks fields) (held_runs fields.files) (blocks_for size)) }
        ensures few { IfOk result (λ runs. length runs ≤ blocks_for size) }
        ensures small { IfOk result (λ runs. AllByRecursion IsRun runs) }
        ensures maximal { IfOk result (λ runs. AreMaximal runs) }
    {
        // Asked, so that its range is known: each run has numbers of four bytes.
        let _blocks = self.space.blocks();
        match self.space.lowest(blocks_needed(size), &[]) {
            Ok(runs) => Ok(runs),
            Err(_) => Err(AllocError),
        }
    }

    /// Makes room for a further file. The site keeps what it kept.
    pub fn make_room(&mut self) -> Result<(), AllocError>
        ensures keeps { (fields : Fields) → Keeps self.old fields → Keeps self.new fields }
        ensures room { OnOk result (0 < self.new.files.room) }
    {
        self.files.reserve()
    }
}
