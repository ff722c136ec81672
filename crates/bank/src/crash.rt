//! What a crash leaves of the calls of a store in memory.

ghost use Rattle.std.specs.Prelude.{◌≡◌, ℕ, ◌==◌, reverse, IfOk, OnOk};
ghost use Rattle.std.specs.List.{list_any};
ghost use Rattle.bank.specs.Content.{Image};
ghost use Rattle.bank.specs.Past.{is_sync_of, content_of};
ghost use Rattle.bank.specs.Crash.{picked, left_of};

use crate::call::Call;
use std::alloc::{AllocError, Global};

// Whether one of the calls synced this area.
fn is_synced(calls: &[Call], area: u32) -> bool
    ensures { result ≡ list_any (λ c. is_sync_of c area) calls.now }
{
    calls.iter().any(|c| c.is_sync_of(area))
}

// Adds to what is left, the oldest first, what a crash leaves of one call more.
fn add_one(
    alloc: Global,
    left: &mut Vec<Call>,
    call: &Call,
    synced: bool,
    pick: u8,
) -> Result<(), AllocError>
    ensures { OnOk result ((start : Image) (a k : ℕ) → content_of start (reverse left.new.items) a k
        ≡ left_of call.now synced (pick == 0) (pick == 1) 165 a k (content_of start (reverse left.old.items) a k)) }
{
    if !call.is_write_of(call.area) || (pick == 0 && !synced) {
        return Ok(());
    }
    let one = if synced || pick == 1 {
        call.copy()?
    } else {
        call.filled(alloc, 0xA5)?
    };
    left.push(one)?;
    Ok(())
}

/// Adds to writes that have reached the medium what a crash leaves of the calls after them. All stand the oldest
/// first.
pub(crate) fn add_left(
    alloc: Global,
    before: Vec<Call>,
    calls: &[Call],
    pick: u8,
) -> Result<Vec<Call>, AllocError>
    ensures { IfOk result (λ v. (start : Image) (a k : ℕ) → content_of start (reverse v.items) a k
        ≡ picked pick (content_of start (reverse before.items)) (reverse calls.now) a k) }
{
    let mut left = before;
    for (i, call) in calls.iter().enumerate() {
        let synced = is_synced(&calls[i + 1..], call.area);
        add_one(alloc, &mut left, call, synced, pick)?;
    }
    Ok(left)
}
