//! The calls of an object that fails at some of them.

ghost use Rattle.std.specs.Prelude.{◌≡◌, ◌+◌, ◌-◌, ◌^◌, ◌==◌, min};
ghost use Rattle.std.specs.List.{list_any};

use base::List;

/// The calls that were made, and the numbers of those that fail, counted from 1.
#[derive(Drop)]
pub struct Calls {
    made: u64,
    failing: List<u64>,
}

impl Calls {
    /// No call yet.
    pub fn new(failing: List<u64>) -> Self
        ensures made { result.made ≡ 0 }
        ensures failing { result.failing ≡ failing }
    {
        Calls { made: 0, failing }
    }

    /// Counts a call, and tells whether it is one that fails.
    pub fn next_fails(&mut self) -> bool
        ensures made { self.new.made ≡ min (self.old.made + 1) (2 ^ 64 - 1) }
        ensures failing { self.new.failing ≡ self.old.failing }
        ensures fails { result ≡ list_any (λ number. number == self.new.made) self.old.failing }
    {
        self.made = self.made.saturating_add(1);
        self.failing.as_slice().contains(&self.made)
    }
}
