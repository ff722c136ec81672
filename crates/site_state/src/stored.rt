//! What a put leaves of a file.

ghost use Rattle.std.specs.Prelude.{◌≡◌, ◌+◌, ◌<◌, ◌^◌, None, Some};
ghost use Rattle.site_history.specs.PutSteps.{stored_file};

use base::List;
use site_types::{CopySlots, FileRec, PutStep, ReleaseKind, Run, StageKind};

/// A new file, whole in the cache.
pub fn new_file(moment: u64, put: PutStep) -> FileRec
    ensures { result ≡ stored_file None moment put }
{
    let PutStep {
        inode,
        path,
        owner,
        group,
        length,
        runs,
    } = put;
    FileRec {
        inode,
        path,
        owner,
        group,
        modified: moment,
        accessed: moment,
        resided: moment,
        generation: 1,
        length,
        cached: length,
        release: ReleaseKind::Default,
        partial: 0,
        stage: StageKind::Default,
        runs,
        copies: CopySlots::empty(),
    }
}

/// Puts what a put stores over a file, whose runs it gives.
pub fn store_over(file: &mut FileRec, moment: u64, put: PutStep) -> List<Run>
    ensures file { file.old.generation + 1 < 2 ^ 64 → file.new ≡ stored_file (Some file.old) moment put }
    ensures inode { file.new.inode ≡ file.old.inode }
    ensures path { file.new.path ≡ file.old.path }
    ensures runs { result ≡ file.old.runs }
{
    let PutStep {
        owner,
        group,
        length,
        runs,
        ..
    } = put;
    file.owner = owner;
    file.group = group;
    file.modified = moment;
    file.accessed = moment;
    file.resided = moment;
    // A generation is at most the number of steps, which is counted in eight bytes.
    file.generation = file.generation.saturating_add(1);
    file.length = length;
    file.cached = length;
    std::mem::replace(&mut file.runs, runs)
}
