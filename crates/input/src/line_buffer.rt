//! A line that is being read.

ghost use Rattle.std.specs.Prelude.{◌≡◌, ◌<◌, ◌≤◌, ◌↔◌, [], ◌∷◌, ◌++◌, length, IsTrue, IfOk};
ghost use Rattle.input.specs.Lines.{without_return};

use base::LINE_MAX;
use std::alloc::{AllocError, Global};
use std::marker::Model;

/// A line of at most 4,096 bytes and a carriage return. It has its memory from the start.
#[derive(Drop)]
pub struct LineBuffer {
    bytes: Vec<u8>,
}

impl Model for LineBuffer {
    ghost use Rattle.std.specs.Prelude.{ℕ, List, ◌<◌, vec_capacity};
    ghost use Rattle.base.specs.declared.limits.TheConstants.{LINE_MAX};

    ghost Value = { List ℕ };

    ghost view = { λ l. l.bytes.items };

    ghost invariant = { λ l. LINE_MAX < vec_capacity l.bytes };
}

impl LineBuffer {
    /// No byte.
    pub fn new(alloc: Global) -> Result<LineBuffer, AllocError>
        ensures { IfOk result (λ l. l ≡ []) }
    {
        Ok(LineBuffer {
            bytes: Vec::with_capacity(alloc, LINE_MAX + 1)?,
        })
    }

    pub fn as_slice(&self) -> &[u8]
        ensures { result.now ≡ self.now }
    {
        self.bytes.as_slice()
    }

    pub fn len(&self) -> usize
        ensures { result ≡ length self.now }
    {
        self.bytes.len()
    }

    /// Drops all bytes.
    pub fn clear(&mut self)
        ensures { self.new ≡ [] }
    {
        self.bytes.clear();
    }

    /// Adds a byte at the end.
    pub fn push(&mut self, byte: u8)
        requires { length self.old ≤ LINE_MAX }
        ensures { self.new ≡ self.old ++ byte ∷ [] }
    {
        self.bytes.push_reserved(byte);
    }

    /// Drops the carriage return at the end, if one is there.
    pub fn drop_return(&mut self)
        ensures { self.new ≡ without_return self.old }
    {
        let length = self.bytes.len();
        if length == 0 {
            return;
        }
        if self.bytes[length - 1] == b'\r' {
            self.bytes.truncate(length - 1);
        }
    }
}
