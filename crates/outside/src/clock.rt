//! A clock.

ghost use Rattle.std.specs.Prelude.{◌≡◌, ℕ, List, Option};
ghost use Rattle.outside.specs.Moments.{Gives};

/// What moments come from, in seconds. It cannot fail.
pub trait Clock: Drop {
    /// The moments to come, where it tells them. The last one is given again once the others are used up.
    ghost moments: { Self → Option (List ℕ) };

    /// The next moment, and 0 where none is to come.
    fn now(&mut self) -> u64
        ensures { Gives (moments self.old) (moments self.new) result };
}
