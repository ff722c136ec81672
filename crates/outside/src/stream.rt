//! A source of bytes and a sink of bytes.

ghost use Rattle.std.specs.Prelude.{◌≡◌, ◌-◌, ◌≤◌, ◌<◌, ℕ, List, Option, length};
ghost use Rattle.std.specs.Io.{ReadsAtMost};
ghost use Rattle.std.specs.Io.KnownBytes.{ReadConsumes, WriteAppends};
ghost use Rattle.base.specs.Causes.{HasCause};
ghost use Rattle.outside.specs.Streams.{Beside, TakesSome, WritesAll};

/// A call failed, and the object counted it.
#[derive(Clone, Copy, Debug, PartialEq, Eq)]
pub struct Failed {}

/// What bytes come from.
pub trait Source: Drop {
    /// The bytes left, where it tells them.
    ghost left: { Self → Option (List ℕ) };

    /// How many calls have failed.
    ghost faults: { Self → ℕ };

    /// What it tells of its other side.
    ghost beside: { Self → Beside };

    /// Reads some bytes into the front of a buffer, and answers how many. 0 for a buffer that is not empty is the end.
    fn read(&mut self, into: &mut [u8]) -> Result<usize, Failed>
        ensures bound { ReadsAtMost result into.new }
        ensures bytes { ReadConsumes (left self.old) (left self.new) result into.new }
        ensures cause { HasCause (faults self.old) (faults self.new) result }
        ensures beside { beside self.new ≡ beside self.old };
}

/// What bytes go to.
pub trait Sink: Drop {
    /// The bytes written, where it tells them.
    ghost written: { Self → Option (List ℕ) };

    /// How many calls have failed.
    ghost faults: { Self → ℕ };

    /// What it tells of its other side.
    ghost beside: { Self → Beside };

    /// Writes some bytes from the front of a piece, and answers how many: at least one of a piece that is not empty.
    fn write(&mut self, bytes: &[u8]) -> Result<usize, Failed>
        ensures some { TakesSome result bytes.now }
        ensures bytes { WriteAppends (written self.old) (written self.new) result bytes.now }
        ensures cause { HasCause (faults self.old) (faults self.new) result }
        ensures beside { beside self.new ≡ beside self.old };
}

/// Writes all of the bytes, in as many pieces as the sink takes. At a fault a first part of them was written, and not all.
pub fn write_all<K: Sink>(sink: &mut K, bytes: &[u8]) -> Result<(), Failed>
    ensures bytes { WritesAll (K.written sink.old) (K.written sink.new) result bytes.now }
    ensures cause { HasCause (K.faults sink.old) (K.faults sink.new) result }
    ensures beside { K.beside sink.new ≡ K.beside sink.old }
{
    let mut at = 0;
    while at < bytes.len() {
        at += sink.write(&bytes[at..])?;
    }
    Ok(())
}
