//! Patterns over names.

ghost use Rattle.std.specs.Prelude.{◌≡◌, ◌≤◌, ℕ, Bool, List, IfOk};
ghost use Rattle.base.specs.Causes.{Rose};
ghost use Rattle.outside.specs.Refusals.{refused_after};

/// Why a pattern was not built, or a subject not searched.
#[derive(Clone, Copy, Debug, PartialEq, Eq)]
pub enum PatternFault {
    /// The call failed, and the object counted it.
    Failed,
    /// Want of memory.
    NoMemory,
}

/// What builds patterns from their texts and searches subjects for them.
pub trait Patterns: Drop {
    /// A pattern that was built.
    type Pattern: Drop + Send;

    /// The text that a pattern was built from.
    ghost text_of: { Self.Pattern → List ℕ };

    /// Whether a pattern of this text is found in this subject. No call changes that.
    ghost found: { Self → List ℕ → List ℕ → Bool };

    /// How many calls have failed.
    ghost faults: { Self → ℕ };

    /// The text of the pattern last refused: of that which the last failed call was about.
    ghost refused: { Self → List ℕ };

    /// Builds the pattern of a text.
    fn build(&mut self, text: &[u8]) -> Result<Self::Pattern, PatternFault>
        ensures text { IfOk result (λ p. text_of p ≡ text.now) }
        ensures refused { refused self.new ≡ refused_after result text.now (refused self.old) }
        ensures failed { result ≡ Err PatternFault.Failed → Rose (faults self.old) (faults self.new) }
        ensures later { faults self.old ≤ faults self.new }
        ensures found { found self.new ≡ found self.old };

    /// Whether a pattern is found in a subject.
    fn finds(&mut self, pattern: &Self::Pattern, subject: &[u8]) -> Result<bool, PatternFault>
        ensures answer { IfOk result (λ b. b ≡ found self.old (text_of pattern.now) subject.now) }
        ensures refused { refused self.new ≡ refused_after result (text_of pattern.now) (refused self.old) }
        ensures failed { result ≡ Err PatternFault.Failed → Rose (faults self.old) (faults self.new) }
        ensures later { faults self.old ≤ faults self.new }
        ensures found { found self.new ≡ found self.old };
}
