//! Patterns that stand for themselves.

ghost use Rattle.std.specs.Prelude.{◌≡◌, []};
ghost use Rattle.outside.specs.Literals.{contains_text};

use crate::memory::calls::Calls;
use crate::patterns::{PatternFault, Patterns};
use base::{Bytes, List};
use std::alloc::Global;
use std::marker::Model;

/// A pattern that stands for itself.
#[derive(Drop)]
pub struct LiteralPattern {
    text: Bytes,
}

impl Model for LiteralPattern {
    ghost use Rattle.std.specs.Prelude.{ℕ, List as Seq};

    ghost Value = { Seq ℕ };

    ghost view = { λ p. p.text };
}

/// Patterns that stand for themselves: one is found where the subject contains its text.
#[derive(Drop)]
pub struct LiteralPatterns {
    alloc: Global,
    builds: Calls,
    searches: Calls,
    refused: Bytes,
    faults: u64,
}

impl Model for LiteralPatterns {
    ghost use Rattle.outside.specs.Memory.{Refused};

    ghost Value = { Refused };

    ghost view = { λ p. record { refused = p.refused; faults = p.faults } };
}

impl LiteralPatterns {
    /// The builds with the first numbers fail, and the searches with the second.
    pub fn new(alloc: Global, failing_builds: List<u64>, failing_searches: List<u64>) -> Self
        ensures refused { result.refused ≡ [] }
        ensures faults { result.faults ≡ 0 }
    {
        LiteralPatterns {
            alloc,
            builds: Calls::new(failing_builds),
            searches: Calls::new(failing_searches),
            refused: Bytes::new(alloc),
            faults: 0,
        }
    }

    /// The text of the pattern last refused.
    pub fn refused(&self) -> &[u8]
        ensures { result.now ≡ self.now.refused }
    {
        self.refused.as_slice()
    }

    /// How many calls have failed.
    pub fn faults(&self) -> u64
        ensures { result ≡ self.now.faults }
    {
        self.faults
    }
}

// Whether a subject contains a text.
fn contains(subject: &[u8], text: &[u8]) -> bool
    ensures { result ≡ contains_text subject.now text.now }
{
    let mut rest = subject;
    loop {
        if rest.starts_with(text) {
            return true;
        }
        let Some((_, after)) = rest.split_first() else {
            return false;
        };
        rest = after;
    }
}

impl Patterns for LiteralPatterns {
    type Pattern = LiteralPattern;

    ghost text_of = { λ p. p };

    ghost found = { λ p text subject. contains_text subject text };

    ghost faults = { λ p. p.faults };

    ghost refused = { λ p. p.refused };

    fn build(&mut self, text: &[u8]) -> Result<LiteralPattern, PatternFault> {
        let Ok(text) = Bytes::from_slice(self.alloc, text) else {
            return Err(PatternFault::NoMemory);
        };
        if self.builds.next_fails() {
            self.refused = text;
            self.faults = self.faults.saturating_add(1);
            return Err(PatternFault::Failed);
        }
        Ok(LiteralPattern { text })
    }

    fn finds(&mut self, pattern: &LiteralPattern, subject: &[u8]) -> Result<bool, PatternFault> {
        if self.searches.next_fails() {
            let Ok(text) = pattern.text.copy() else {
                return Err(PatternFault::NoMemory);
            };
            self.refused = text;
            self.faults = self.faults.saturating_add(1);
            return Err(PatternFault::Failed);
        }
        Ok(contains(subject, pattern.text.as_slice()))
    }
}
