//! The bytes of files in the cache.

ghost use Rattle.std.specs.Prelude.{◌≡◌, ◌+◌, ◌*◌, ◌<◌, ◌≤◌, ◌^◌, ℕ, List as Seq, IsTrue, length, take, IfOk, OnOk};
ghost use Rattle.bank.specs.Content.{Stands};
ghost use Rattle.bank.specs.View.{Touches, OnlyRead};
ghost use Rattle.bank.specs.Inside.{WroteInside};
ghost use Rattle.cache_space.specs.Space.{AreMaximal, blocks_in};
ghost use Rattle.site_history.specs.Extents.{extents_over, AllStand};
ghost use Rattle.site_history.specs.Pinned.{StandInAll, in_blocks_of};
ghost use Rattle.engine.specs.Counts.{AreCountedInCache};

use bank::{Bank, BankFailed};
use site_types::Run;

/// The bytes of a block of the cache.
const BLOCK: u64 = 4096;

// How many bytes a run has room for.
fn room_of(run: &Run) -> u64
    ensures { result ≡ run.now.count * 4096 }
{
    run.count as u64 * BLOCK
}

// Writes bytes from the first block of a run on.
fn write_run<B: Bank>(bank: &mut B, run: &Run, piece: &[u8]) -> Result<(), BankFailed>
    requires { length piece.now ≤ run.now.count * 4096 }
    ensures torn { IsTrue B.tells → Touches 1 (run.now.first * 4096) (length piece.now) (B.view bank.old) (B.view bank.new) }
    ensures written { IsTrue B.tells → OnOk result (Stands ((B.view bank.new).content 1) (run.now.first * 4096) piece.now) }
    ensures counted { AreCountedInCache B.faults B.journal_faults B.last_fault bank.old bank.new result }
{
    let first = run.first as u64;
    // Read, so that its range is known: the end of the bytes is below 2^63.
    let _count = run.count;
    bank.write(1, first * BLOCK, piece)
}

// Writes bytes over runs, one run after another.
fn write_runs<B: Bank>(bank: &mut B, runs: &[Run], bytes: &[u8]) -> Result<(), BankFailed>
    requires { AreMaximal runs.now }
    ensures wrote { IsTrue B.tells → WroteInside 1 (in_blocks_of runs.now) (B.view bank.old) (B.view bank.new) }
    ensures written { IsTrue B.tells → OnOk result (AllStand (B.view bank.new).content (extents_over runs.now bytes.now)) }
    ensures counted { AreCountedInCache B.faults B.journal_faults B.last_fault bank.old bank.new result }
{
    let mut rest = bytes;
    for run in runs {
        let count = room_of(run).min(rest.len() as u64) as usize;
        let (piece, behind) = rest.split_at(count);
        write_run(bank, run, piece)?;
        rest = behind;
    }
    Ok(())
}

/// Writes bytes over maximal runs of blocks of the cache, one run after another, and syncs the cache. Bytes for which the
/// runs have no room are not written. Of no bytes it makes no call.
pub fn store<B: Bank>(bank: &mut B, runs: &[Run], bytes: &[u8]) -> Result<(), BankFailed>
    requires { AreMaximal runs.now }
    // No byte but those of the runs' blocks is written, failed or not.
    ensures wrote { IsTrue B.tells → WroteInside 1 (in_blocks_of runs.now) (B.view bank.old) (B.view bank.new) }
    // At `Ok` the bytes stand in whatever a crash leaves.
    ensures stored { IsTrue B.tells → OnOk result (StandInAll (B.view bank.new) (extents_over runs.now bytes.now)) }
    ensures counted { AreCountedInCache B.faults B.journal_faults B.last_fault bank.old bank.new result }
{
    if bytes.is_empty() {
        return Ok(());
    }
    write_runs(bank, runs, bytes)?;
    bank.sync(1)
}

// Reads bytes from the first block of a run on. Of no bytes it makes no call.
fn read_run<B: Bank>(bank: &mut B, run: &Run, into: &mut [u8]) -> Result<(), BankFailed>
    requires { length into.old ≤ run.now.count * 4096 }
    ensures bytes { IsTrue B.tells → OnOk result (Stands ((B.view bank.old).content 1) (run.now.first * 4096) into.new) }
    ensures unchanged { IsTrue B.tells → OnlyRead (B.view bank.old) (B.view bank.new) }
    ensures counted { AreCountedInCache B.faults B.journal_faults B.last_fault bank.old bank.new result }
{
    if into.is_empty() {
        return Ok(());
    }
    let first = run.first as u64;
    // Read, so that its range is known, as above.
    let _count = run.count;
    bank.read(1, first * BLOCK, into)
}

// Reads the first bytes of those that stand over runs of blocks of the cache, one run after another, as many as `into` has
// and the runs have room for. Of no bytes it makes no call. It writes nothing.
fn load<B: Bank>(bank: &mut B, runs: &[Run], into: &mut [u8]) -> Result<(), BankFailed>
    ensures bytes { IsTrue B.tells → (bytes : Seq ℕ) → length into.old ≤ blocks_in runs.now * 4096 → length into.old ≤ length bytes → AllStand (B.view bank.old).content (extents_over runs.now bytes)
        → OnOk result (into.new ≡ take (length into.old) bytes) }
    ensures unchanged { IsTrue B.tells → OnlyRead (B.view bank.old) (B.view bank.new) }
    ensures counted { AreCountedInCache B.faults B.journal_faults B.last_fault bank.old bank.new result }
{
    let mut done = 0;
    for run in runs {
        let count = room_of(run).min((into.len() - done) as u64) as usize;
        read_run(bank, run, &mut into[done..done + count])?;
        done += count;
    }
    Ok(())
}

/// Reads the first bytes of those that stand over runs of blocks of the cache into all of a vector, which it gives back. Where
/// the runs have room for fewer, the others stay. Of no bytes it makes no call. It writes nothing.
pub fn load_all<B: Bank>(
    bank: &mut B,
    runs: &[Run],
    mut into: Vec<u8>,
) -> Result<Vec<u8>, BankFailed>
    ensures bytes { IsTrue B.tells → (bytes : Seq ℕ) → length into.items ≤ blocks_in runs.now * 4096 → length into.items ≤ length bytes
        → AllStand (B.view bank.old).content (extents_over runs.now bytes) → IfOk result (λ v. v.items ≡ take (length into.items) bytes) }
    ensures length { IfOk result (λ v. length v.items ≡ length into.items) }
    ensures unchanged { IsTrue B.tells → OnlyRead (B.view bank.old) (B.view bank.new) }
    ensures counted { AreCountedInCache B.faults B.journal_faults B.last_fault bank.old bank.new result }
{
    load(bank, runs, &mut into)?;
    Ok(into)
}
