//! Why no blocks are answered.

use std::alloc::AllocError;

/// Why no blocks are answered.
#[derive(Clone, Copy, Debug, PartialEq, Eq)]
pub enum SpaceRefusal {
    /// There are fewer free blocks than are wanted.
    NoSpace,
    NoMemory,
}

impl From<AllocError> for SpaceRefusal {
    ghost use Rattle.std.specs.Prelude.{◌≡◌};
    ghost use Rattle.cache_space.specs.declared.refusal.SpaceRefusal.{SpaceRefusal};

    ghost from_gives = { λ _ refusal. refusal ≡ SpaceRefusal.NoMemory };

    fn from(_error: AllocError) -> Self {
        SpaceRefusal::NoMemory
    }
}
