//! The runs of a step.

ghost use Rattle.std.specs.Prelude.{◌≡◌};
ghost use Rattle.site_history.specs.Steps.{put_runs};

use site_types::{Run, Step, StepKind};

/// The runs at which the bytes of a step are stored: a put has some, and no other step has any.
pub fn runs_of(step: &Step) -> &[Run]
    ensures { result.now ≡ put_runs step.now }
{
    match &step.kind {
        StepKind::Put(put) => put.runs.as_slice(),
        _ => &[],
    }
}
