//! Laws of the written form.

ghost use Rattle.std.specs.Prelude.{◌≡◌, ◌≤◌, ℕ, ◌++◌, List, length};
ghost use Rattle.site_types.specs.declared.step.Step.{Step};
ghost use Rattle.step_codec.specs.Lengths.{step_length, IsWithinLimits};
ghost use Rattle.site_types.specs.Ranges.{IsMoment, Ranges};
ghost use Rattle.step_codec.specs.Written.{written, InRange};

use base::PAYLOAD_MAX;

/// No written form begins another: what is written one behind the other is read again, whatever
/// follows.
pub fn one_form()
    ensures { (s t : Step) (more rest : List ℕ) → InRange s → InRange t → written s ++ more ≡ written t ++ rest → (s ≡ t) × (more ≡ rest) }
{}

/// The length of a written form, which is never 0.
pub fn written_length()
    ensures exact { (s : Step) → length (written s) ≡ step_length s }
    // Within the limits of a site it fits in a record of the journal.
    ensures short { (s : Step) → IsWithinLimits s.kind → length (written s) ≤ PAYLOAD_MAX }
{}

/// A step is in range exactly where its moment and the fields of its kind are.
pub fn ranges()
    ensures in_range { (s : Step) → IsMoment s.moment → Ranges s.kind → InRange s }
    ensures ranges { (s : Step) → InRange s → IsMoment s.moment × Ranges s.kind }
{}
