//! Blocks by a flag for each, which tells whether it is taken.

ghost use Rattle.std.specs.Prelude.{◌≡◌, ℕ, ◌+◌, ◌-◌, ◌<◌, ◌≤◌, ◌^◌, ◌↔◌, true, not, List as Seq, [], ◌++◌, length, take, count_by, slice_index_or, IfOk, OnOk, IsTrue, IsFalse, min};
ghost use Rattle.cache_space.specs.Blocks.{is_in_run, is_in_runs, as_runs};
ghost use Rattle.cache_space.specs.Flags.{is_open, open_blocks, Takes, Frees};

use crate::runs::{add_block, end_of, has_block};
use site_types::Run;
use std::alloc::AllocError;

/// The block behind those of a run that are there.
fn end_within(run: &Run, total: usize) -> usize
    ensures { result ≡ min (run.now.first + run.now.count) total }
{
    end_of(run).min(total as u64) as usize
}

/// Takes the blocks of a run, as far as they are there; answers how many of them were free.
fn take_run(taken: &mut Vec<bool>, run: &Run) -> u32
    requires { length taken.old.items < 2 ^ 32 }
    ensures flags { Takes taken.old.items taken.new.items (λ block. is_in_run block run.now) }
    ensures count { count_by not taken.new.items + result ≡ count_by not taken.old.items }
{
    let mut changed = 0;
    let end = end_within(run, taken.len());
    for block in run.first as usize..end {
        if !taken[block] {
            changed += 1;
        }
        taken[block] = true;
    }
    changed
}

/// Frees the blocks of a run, as far as they are there; answers how many of them were taken.
fn free_run(taken: &mut Vec<bool>, run: &Run) -> u32
    requires { length taken.old.items < 2 ^ 32 }
    ensures flags { Frees taken.old.items taken.new.items (λ block. is_in_run block run.now) }
    ensures count { count_by not taken.new.items ≡ count_by not taken.old.items + result }
{
    let mut changed = 0;
    let end = end_within(run, taken.len());
    for block in run.first as usize..end {
        if taken[block] {
            changed += 1;
        }
        taken[block] = false;
    }
    changed
}

/// Takes the blocks of runs, as far as they are there; answers how many of them were free.
pub fn take_runs(taken: &mut Vec<bool>, runs: &[Run]) -> u32
    requires { length taken.old.items < 2 ^ 32 }
    ensures flags { Takes taken.old.items taken.new.items (is_in_runs runs.now) }
    ensures count { count_by not taken.new.items + result ≡ count_by not taken.old.items }
{
    let mut changed = 0;
    for run in runs {
        changed += take_run(taken, run);
    }
    changed
}

/// Frees the blocks of runs, as far as they are there; answers how many of them were taken.
pub fn free_runs(taken: &mut Vec<bool>, runs: &[Run]) -> u32
    requires { length taken.old.items < 2 ^ 32 }
    ensures flags { Frees taken.old.items taken.new.items (is_in_runs runs.now) }
    ensures count { count_by not taken.new.items ≡ count_by not taken.old.items + result }
{
    let mut changed = 0;
    for run in runs {
        changed += free_run(taken, run);
    }
    changed
}

/// Whether all blocks of a run are there and free.
fn is_free_run(taken: &[bool], run: &Run) -> bool
    ensures { IsTrue result
        ↔ ((block : ℕ) → IsTrue (is_in_run block run.now) → IsFalse (slice_index_or taken.now block true)) }
{
    for offset in 0..run.count {
        let block = run.first as usize + offset as usize;
        if block >= taken.len() || taken[block] {
            return false;
        }
    }
    true
}

/// Whether all blocks of the runs are there and free.
pub fn are_free_runs(taken: &[bool], runs: &[Run]) -> bool
    ensures { IsTrue result
        ↔ ((block : ℕ) → IsTrue (is_in_runs runs.now block) → IsFalse (slice_index_or taken.now block true)) }
{
    for run in runs {
        if !is_free_run(taken, run) {
            return false;
        }
    }
    true
}

/// Whether the block is not taken and in none of the runs.
fn is_open(taken: &[bool], but: &[Run], block: u32) -> bool
    requires { block < length taken.now }
    ensures { result ≡ is_open taken.now but.now block }
{
    !taken[block as usize] && !has_block(but, block)
}

/// Adds the lowest open blocks of `from..to` to runs, at most `wanted` of them; answers how many
/// are wanted yet.
pub fn add_lowest(
    runs: &mut Vec<Run>,
    taken: &[bool],
    but: &[Run],
    from: u32,
    to: u32,
    wanted: u32,
) -> Result<u32, AllocError>
    requires ordered { from ≤ to }
    requires there { to ≤ length taken.now }
    ensures left { IfOk result (λ left. left ≡ wanted - length (open_blocks taken.now but.now from (to - from))) }
    ensures runs { OnOk result ((blocks : Seq ℕ) → runs.old.items ≡ as_runs blocks
        → runs.new.items ≡ as_runs (blocks ++ take wanted (open_blocks taken.now but.now from (to - from)))) }
{
    let mut left = wanted;
    for block in from..to {
        if left == 0 {
            return Ok(0);
        }
        if is_open(taken, but, block) {
            add_block(runs, block)?;
            left -= 1;
        }
    }
    Ok(left)
}

/// How many of the wanted blocks are more than there are open ones.
pub fn lacking(taken: &[bool], but: &[Run], wanted: u32) -> u32
    requires { length taken.now < 2 ^ 32 }
    ensures { result ≡ wanted - length (open_blocks taken.now but.now 0 (length taken.now)) }
{
    let mut left = wanted;
    for block in 0..taken.len() as u32 {
        if left == 0 {
            return 0;
        }
        if is_open(taken, but, block) {
            left -= 1;
        }
    }
    left
}
