//! Runs of blocks.

ghost use Rattle.std.specs.Prelude.{◌≡◌, ℕ, ◌+◌, ◌-◌, ◌<◌, ◌^◌, List as Seq, [], ◌∷◌, ◌++◌, OnOk, OnErr, ◌↔◌, IsTrue};
ghost use Rattle.cache_space.specs.Space.{AreMaximal, blocks_in};
ghost use Rattle.cache_space.specs.Blocks.{blocks_for, is_in_runs, as_runs};

use site_types::Run;
use std::alloc::AllocError;

/// How many blocks of 4,096 bytes so many bytes need.
pub fn blocks_needed(bytes: u32) -> u32
    ensures { result ≡ blocks_for bytes }
{
    ((bytes as u64 + 4095) / 4096) as u32
}

/// The number of the block behind a run.
pub fn end_of(run: &Run) -> u64
    ensures { result ≡ run.now.first + run.now.count }
{
    run.first as u64 + run.count as u64
}

/// Whether one of the runs has the block.
pub fn has_block(runs: &[Run], block: u32) -> bool
    ensures { result ≡ is_in_runs runs.now block }
{
    runs.iter()
        .any(|run| run.first <= block && (block as u64) < end_of(run))
}

/// Adds a block behind runs: it joins the last one where that ends right before it.
pub fn add_block(runs: &mut Vec<Run>, block: u32) -> Result<(), AllocError>
    requires { block + 1 < 2 ^ 32 }
    ensures ok { OnOk result ((blocks : Seq ℕ) → runs.old.items ≡ as_runs blocks
        → runs.new.items ≡ as_runs (blocks ++ block ∷ [])) }
    ensures err { OnErr result (runs.new.items ≡ runs.old.items) }
{
    let len = runs.len();
    if len > 0 && end_of(&runs[len - 1]) == block as u64 {
        runs[len - 1].count += 1;
        return Ok(());
    }
    runs.push(Run {
        first: block,
        count: 1,
    })?;
    Ok(())
}

/// Whether each run has a block, and they ascend with a block between one and the next, so that
/// none can be joined.
pub fn are_maximal(runs: &[Run]) -> bool
    ensures { IsTrue result ↔ AreMaximal runs.now }
{
    let mut low = 0;
    for run in runs {
        if (run.first as u64) < low || run.count == 0 {
            return false;
        }
        low = end_of(run) + 1;
    }
    true
}

/// Whether the runs have so many blocks, one run after another.
pub fn have_blocks(runs: &[Run], blocks: u32) -> bool
    ensures { IsTrue result ↔ (blocks_in runs.now ≡ blocks) }
{
    let mut left = blocks;
    for run in runs {
        if run.count > left {
            return false;
        }
        left -= run.count;
    }
    left == 0
}
