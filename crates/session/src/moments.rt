//! The moments of events.

ghost use Rattle.std.specs.Prelude.{◌≡◌, ℕ, max, IsSome, IfSome};
ghost use Rattle.outside.specs.Moments.{Gives, next_moment};
ghost use Rattle.session.specs.Rounds.{own, moments_of};

use outside::Clock;

/// The moment of the next event, in seconds: the session's own, or where it has none the next one of the clock.
pub fn take_moment<C: Clock>(own_moment: Option<u64>, clock: &mut C) -> u64
    ensures gives { Gives (moments_of own_moment (C.moments clock.old)) (moments_of own_moment (C.moments clock.new)) result }
    ensures clock { IsSome own_moment → clock.new ≡ clock.old }
{
    match own_moment {
        Some(moment) => moment,
        None => clock.now(),
    }
}

/// Gives the session a moment of its own: this one, or the next one that was to come, whichever is later.
pub fn move_on<C: Clock>(own_moment: &mut Option<u64>, clock: &mut C, moment: u64) -> u64
    ensures moved { (now : ℕ) × IfSome (moments_of own_moment.old (C.moments clock.old)) (λ moments. now ≡ next_moment moments) × (result ≡ max moment now) }
    ensures own { own_moment.new ≡ Some result }
    ensures clock { IsSome own_moment.old → clock.new ≡ clock.old }
{
    let moved = moment.max(take_moment(*own_moment, clock));
    *own_moment = Some(moved);
    moved
}
