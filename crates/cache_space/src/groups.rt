//! Groups of 4,096 blocks, each marked where all its blocks are known to be taken, so that a search
//! for free blocks passes over it.

ghost use Rattle.std.specs.Prelude.{◌≡◌, ℕ, ◌+◌, ◌-◌, ◌*◌, ◌/◌, ◌<◌, ◌≤◌, ◌^◌, ◌↔◌, true, false, List as Seq, ◌++◌, length, take, slice_index_or, IfOk, OnOk, IsTrue, IsFalse, min};
ghost use Rattle.cache_space.specs.Blocks.{is_in_run, is_in_runs, as_runs};
ghost use Rattle.cache_space.specs.Flags.{open_blocks, FullAreTaken, AreCleared};

use crate::flags::{add_lowest, lacking};
use crate::refusal::SpaceRefusal;
use crate::runs::end_of;
use site_types::Run;
use std::alloc::{AllocError, Global};

/// How many blocks a group has.
const GROUP: usize = 4096;

/// How many groups so many blocks make, the last one maybe shorter.
pub fn groups_of(blocks: u32) -> usize
    ensures { result ≡ (blocks + 4095) / 4096 }
{
    (blocks as usize).div_ceil(GROUP)
}

/// Whether all blocks of a group are taken.
fn is_full(taken: &[bool], group: usize) -> bool
    requires { group ≤ length taken.now / 4096 }
    ensures { IsTrue result
        ↔ ((block : ℕ) → block < length taken.now → block / 4096 ≡ group → IsTrue (slice_index_or taken.now block true)) }
{
    let from = group * GROUP;
    let to = (from + GROUP).min(taken.len());
    for block in from..to {
        if !taken[block] {
            return false;
        }
    }
    true
}

/// The first group of a run's blocks, and the one behind the last, of so many groups.
fn groups_of_run(run: &Run, groups: usize) -> (usize, usize)
    ensures first { result.0 ≡ run.now.first / 4096 }
    ensures end { result.1 ≡ min ((run.now.first + run.now.count + 4095) / 4096) groups }
{
    let end = (end_of(run) as usize).div_ceil(GROUP);
    (run.first as usize / GROUP, end.min(groups))
}

/// Marks the groups of a run's blocks that are full.
fn mark_full_of(full: &mut Vec<bool>, taken: &[bool], run: &Run)
    requires marks { FullAreTaken full.old.items taken.now }
    requires covers { length full.old.items ≤ length taken.now / 4096 + 1 }
    ensures marks { FullAreTaken full.new.items taken.now }
    ensures len { length full.new.items ≡ length full.old.items }
{
    let (first, end) = groups_of_run(run, full.len());
    for group in first..end {
        full[group] = is_full(taken, group);
    }
}

/// Marks the groups of the runs' blocks that are full.
pub fn mark_full(full: &mut Vec<bool>, taken: &[bool], runs: &[Run])
    requires marks { FullAreTaken full.old.items taken.now }
    requires covers { length full.old.items ≤ length taken.now / 4096 + 1 }
    ensures marks { FullAreTaken full.new.items taken.now }
    ensures len { length full.new.items ≡ length full.old.items }
{
    for run in runs {
        mark_full_of(full, taken, run);
    }
}

/// Takes the marks from the groups of a run's blocks.
fn clear_marks_of(full: &mut Vec<bool>, run: &Run)
    ensures { AreCleared full.old.items full.new.items (λ block. is_in_run block run.now) }
{
    let (first, end) = groups_of_run(run, full.len());
    for group in first..end {
        full[group] = false;
    }
}

/// Takes the marks from the groups of the runs' blocks.
pub fn clear_marks(full: &mut Vec<bool>, runs: &[Run])
    ensures { AreCleared full.old.items full.new.items (is_in_runs runs.now) }
{
    for run in runs {
        clear_marks_of(full, run);
    }
}

/// Adds the lowest open blocks to runs, at most `wanted` of them; answers how many are wanted yet.
pub fn add_lowest_of_groups(
    runs: &mut Vec<Run>,
    taken: &[bool],
    full: &[bool],
    but: &[Run],
    wanted: u32,
) -> Result<u32, AllocError>
    requires small { length taken.now < 2 ^ 32 }
    requires marks { FullAreTaken full.now taken.now }
    requires covers { length taken.now ≤ length full.now * 4096 }
    ensures left { IfOk result (λ left. left ≡ wanted - length (open_blocks taken.now but.now 0 (length taken.now))) }
    ensures runs { OnOk result ((blocks : Seq ℕ) → runs.old.items ≡ as_runs blocks
        → runs.new.items ≡ as_runs (blocks ++ take wanted (open_blocks taken.now but.now 0 (length taken.now)))) }
{
    let mut left = wanted;
    let mut from = 0u32;
    for is_full in full {
        if left == 0 {
            return Ok(0);
        }
        let to = from + (GROUP as u32).min(taken.len() as u32 - from);
        if !*is_full {
            left = add_lowest(runs, taken, but, from, to, left)?;
        }
        from = to;
    }
    Ok(left)
}

/// The lowest open blocks, as maximal runs. Where there are fewer than are wanted it answers
/// NoSpace, and never NoMemory.
pub fn lowest_open(
    alloc: Global,
    taken: &[bool],
    full: &[bool],
    but: &[Run],
    wanted: u32,
) -> Result<Vec<Run>, SpaceRefusal>
    requires small { length taken.now < 2 ^ 32 }
    requires marks { FullAreTaken full.now taken.now }
    requires covers { length taken.now ≤ length full.now * 4096 }
    ensures lowest { IfOk result (λ runs. runs.items
        ≡ as_runs (take wanted (open_blocks taken.now but.now 0 (length taken.now)))) }
    ensures enough { OnOk result (wanted ≤ length (open_blocks taken.now but.now 0 (length taken.now))) }
    ensures no_space { (result ≡ Err SpaceRefusal.NoSpace)
        ↔ (length (open_blocks taken.now but.now 0 (length taken.now)) < wanted) }
{
    let mut runs = Vec::new(alloc);
    let left = match add_lowest_of_groups(&mut runs, taken, full, but, wanted) {
        Ok(left) => left,
        Err(_) => {
            if lacking(taken, but, wanted) == 0 {
                return Err(SpaceRefusal::NoMemory);
            }
            return Err(SpaceRefusal::NoSpace);
        }
    };
    if left > 0 {
        return Err(SpaceRefusal::NoSpace);
    }
    Ok(runs)
}
