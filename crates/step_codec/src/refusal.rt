//! Why bytes are no step.

ghost use Rattle.std.specs.Prelude.{◌≡◌};
ghost use Rattle.step_codec.specs.declared.refusal.StepRefusal.TheVariants.{NoMemory};

use std::alloc::{AllocError, AllocFailed};

/// Why bytes are no written step: what is wrong with the first field that has no reading.
#[derive(Clone, Copy, Debug, PartialEq, Eq)]
pub enum StepRefusal {
    /// The bytes end in it.
    Truncated,
    /// It is the kind, and there is no such kind.
    BadKind,
    /// Its value is out of its range, or bytes follow the last field.
    BadField,
    /// There was not enough memory for the step.
    NoMemory,
}

impl From<AllocError> for StepRefusal {
    ghost from_gives = { λ _ e. e ≡ NoMemory };

    fn from(_e: AllocError) -> StepRefusal {
        StepRefusal::NoMemory
    }
}

impl<T: Drop> From<AllocFailed<T>> for StepRefusal {
    ghost from_gives = { λ _ e. e ≡ NoMemory };

    fn from(_e: AllocFailed<T>) -> StepRefusal {
        StepRefusal::NoMemory
    }
}
