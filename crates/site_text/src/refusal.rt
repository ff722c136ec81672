//! Why a text or a field is refused.

use std::alloc::AllocError;

/// Why a text has no lines, or a field no value.
#[derive(Clone, Copy, Debug, PartialEq, Eq)]
pub enum TextRefusal {
    /// The text is UTF-8 up to this place, and no longer.
    NotUtf8(usize),
    /// The text ends in a line that goes on; this is its number among the physical lines, from 1.
    EndsContinued(u32),
    /// The field is no age.
    BadAge,
    /// The field is no size.
    BadSize,
    /// The field is no weight.
    BadWeight,
    /// The age or size is of its form and above its bound.
    Overflow,
    NoMemory,
}

impl From<AllocError> for TextRefusal {
    ghost use Rattle.std.specs.Prelude.{◌≡◌};
    ghost use Rattle.site_text.specs.declared.refusal.TextRefusal.TheVariants.{NoMemory};

    ghost from_gives = { λ _ e. e ≡ NoMemory };

    fn from(_e: AllocError) -> TextRefusal {
        TextRefusal::NoMemory
    }
}
