//! Which steps may come.

ghost use Rattle.std.specs.Prelude.{◌≡◌, ◌<◌, ◌≤◌, ◌↔◌, ℕ, IsTrue, MatchOption, length};
ghost use Rattle.site_history.specs.Terms.{Terms};
ghost use Rattle.base.specs.Paths.{is_legal_path, is_legal_name};
ghost use Rattle.step_codec.specs.Written.{InRange};
ghost use Rattle.cache_space.specs.Blocks.{blocks_for};
ghost use Rattle.cache_space.specs.Space.{AreFree, AreMaximal, blocks_in};
ghost use Rattle.site_history.specs.Site.{Fields, file_at, held_runs, cache_blocks};
ghost use Rattle.site_history.specs.PutSteps.{inode_for};
ghost use Rattle.site_history.specs.Changes.{IsThere};
ghost use Rattle.site_state.specs.Legal.{IsLegalSoFar, AreTextsWithin};
ghost use Rattle.site_state.specs.Keeps.{Keeps};

use crate::state::SiteState;
use base::{FILE_COUNT_MAX, FILE_SIZE_MAX, INODE_MAX, is_legal_name, is_legal_path};
use cache_space::{are_maximal, blocks_needed, have_blocks};
use configuration::are_within;
use site_types::{Run, Step, StepKind};

// Whether a file may have this path, and it these names.
fn are_legal(path: &[u8], owner: &[u8], group: &[u8]) -> bool
    ensures { IsTrue result ↔ (IsTrue (is_legal_path path.now) × IsTrue (is_legal_name owner.now) × IsTrue (is_legal_name group.now)) }
{
    is_legal_path(path) && is_legal_name(owner) && is_legal_name(group)
}

impl SiteState {
    // Whether a further file fits.
    fn has_place(&self) -> bool
        ensures { (fields : Fields) → Keeps self.now fields → (IsTrue result ↔ ((length fields.files < FILE_COUNT_MAX) × (fields.next_inode ≤ INODE_MAX))) }
    {
        self.files.len() < FILE_COUNT_MAX && self.next_inode <= INODE_MAX
    }

    // Whether a put of this path has this inode: that of the path's file, or the next one, where a further file fits.
    fn takes_inode(&self, inode: u32, path: &[u8]) -> bool
        ensures { (fields : Fields) → Keeps self.now fields → (IsTrue result
            ↔ ((inode ≡ inode_for fields path.now) × MatchOption (file_at path.now fields.files) ((length fields.files < FILE_COUNT_MAX) × (fields.next_inode ≤ INODE_MAX)) (λ _. Unit {0}))) }
    {
        match self.files.find(path) {
            Some(index) => inode == self.files.as_slice()[index].inode,
            None => inode == self.next_inode && self.has_place(),
        }
    }

    // Whether these runs are maximal runs of free blocks, as many as so many bytes need.
    fn takes_runs(&self, size: u64, runs: &[Run]) -> bool
        ensures { (fields : Fields) → Keeps self.now fields → (IsTrue result
            ↔ ((size ≤ FILE_SIZE_MAX) × AreMaximal runs.now × AreFree (cache_blocks fields) (held_runs fields.files) runs.now × (blocks_in runs.now ≡ blocks_for size))) }
    {
        size <= FILE_SIZE_MAX
            && are_maximal(runs)
            && self.space.all_free(runs)
            && have_blocks(runs, blocks_needed(size as u32))
    }

    // Whether a file of this inode is there.
    fn is_there(&self, inode: u32) -> bool
        ensures { (fields : Fields) → Keeps self.now fields → (IsTrue result ↔ IsThere fields inode) }
    {
        self.files.find_inode(inode).is_some()
    }

    /// Whether a step may come, before the texts of a configuration are read. A step of a kind that is not served never may.
    pub fn may_come(&self, step: &Step) -> bool
        ensures test { (terms : Terms) (fields : Fields) → Keeps self.now fields → InRange step.now → (IsTrue result ↔ IsLegalSoFar terms fields step.now) }
        ensures within { IsTrue result → AreTextsWithin step.now }
    {
        if step.moment < self.moment {
            return false;
        }
        match &step.kind {
            StepKind::Configured(texts) => self.files.len() == 0 && are_within(texts),
            StepKind::Put(put) => {
                are_legal(
                    put.path.as_slice(),
                    put.owner.as_slice(),
                    put.group.as_slice(),
                ) && self.takes_inode(put.inode, put.path.as_slice())
                    && self.takes_runs(put.length, put.runs.as_slice())
            }
            StepKind::Accessed { inode } => self.is_there(*inode),
            StepKind::Removed { inode } => self.is_there(*inode),
            _ => false,
        }
    }
}
