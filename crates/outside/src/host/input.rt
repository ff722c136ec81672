//! Standard input as a source.

ghost use Rattle.std.specs.Prelude.{◌≡◌};

use super::tries::read_some;
use crate::stream::{Failed, Source};
use std::io::Read;

/// A reader of the host as a source, as `rt.reader()` gives it of standard input. It tells what the reader tells: of
/// standard input nothing.
#[derive(Drop)]
pub struct StandardInput<R> {
    reader: R,
    faults: u64,
}

impl<R: Read + Drop> StandardInput<R> {
    /// The input that a reader has left.
    pub fn new(reader: R) -> Self
        ensures left { ⟦<StandardInput<R> as Source>⟧.left result ≡ R.remaining reader }
        ensures faults { ⟦<StandardInput<R> as Source>⟧.faults result ≡ 0 }
    {
        StandardInput { reader, faults: 0 }
    }
}

impl<R: Read + Drop> Source for StandardInput<R> {
    ghost use Rattle.std.specs.Prelude.{None};

    ghost left = { λ s. R.remaining s.reader };

    ghost faults = { λ s. s.faults };

    ghost beside = { λ _. record { bytes = None; faults = 0 } };

    fn read(&mut self, into: &mut [u8]) -> Result<usize, Failed> {
        match read_some(&mut self.reader, into) {
            Ok(count) => Ok(count),
            Err(_) => {
                self.faults = self.faults.saturating_add(1);
                Err(Failed {})
            }
        }
    }
}
