//! Takes bytes from a source, within a budget.

ghost use Rattle.std.specs.Prelude.{◌≡◌, ◌≤◌, ◌<◌, ◌↔◌, [], ◌∷◌, ◌++◌, length, IsTrue, Err, IfOk};
ghost use Rattle.base.specs.Causes.{Rose};
ghost use Rattle.input.specs.Lines.{without_return};
ghost use Rattle.input.specs.Reading.{Begins};
ghost use Rattle.input.specs.Bytes.{NextIs, Refills};

use crate::line_buffer::LineBuffer;
use crate::piece::Piece;
use base::LINE_MAX;
use outside::Source;
use std::alloc::{AllocError, Global};
use std::marker::Model;

/// Why no further byte was read.
#[derive(Clone, Copy, Debug, PartialEq, Eq)]
pub enum Stop {
    /// The end of the source was met.
    Ended,
    /// The source failed.
    SourceFault,
    /// A byte was taken beyond the budget. It is lost.
    OverBudget,
}

/// Reads an input in whatever pieces its source gives. It takes no memory after it was made.
#[derive(Drop)]
pub struct Reader {
    piece: Piece,
    budget: u64,
    ended: bool,
    line: LineBuffer,
}

impl Model for Reader {
    ghost use Rattle.std.specs.Prelude.{◌≡◌, [], true};
    ghost use Rattle.input.specs.Reading.{Reading};

    ghost Value = { Reading };

    ghost view = { λ r. record { held = r.piece; budget = r.budget; ended = r.ended; line = r.line } };

    ghost invariant = { λ r. r.ended ≡ true → r.piece ≡ [] };
}

impl Reader {
    /// A reader that may take so many bytes.
    pub fn new(alloc: Global, budget: u64) -> Result<Reader, AllocError>
        ensures { IfOk result (Begins budget) }
    {
        Ok(Reader {
            piece: Piece::new(alloc)?,
            budget,
            ended: false,
            line: LineBuffer::new(alloc)?,
        })
    }

    // Takes a further piece.
    fn refill<S: Source>(&mut self, source: &mut S) -> Result<(), Stop>
        requires { self.old.held ≡ [] }
        ensures taken { Refills (S.left source.old) (S.left source.new) self.old self.new result }
        ensures line { self.new.line ≡ self.old.line }
        ensures later { S.faults source.old ≤ S.faults source.new }
        ensures cause { result ≡ Err Stop.SourceFault → Rose (S.faults source.old) (S.faults source.new) }
        ensures beside { S.beside source.new ≡ S.beside source.old }
    {
        if self.ended {
            return Err(Stop::Ended);
        }
        if self.budget == 0 {
            return match self.piece.fill(source, 1) {
                Ok(0) => {
                    self.ended = true;
                    Err(Stop::Ended)
                }
                Ok(_) => {
                    self.piece.clear();
                    Err(Stop::OverBudget)
                }
                Err(_) => Err(Stop::SourceFault),
            };
        }
        match self.piece.fill(source, self.budget) {
            Ok(0) => {
                self.ended = true;
                Err(Stop::Ended)
            }
            Ok(count) => {
                self.budget -= count as u64;
                Ok(())
            }
            Err(_) => Err(Stop::SourceFault),
        }
    }

    /// The next byte, or why there is none.
    pub fn next_byte<S: Source>(&mut self, source: &mut S) -> Result<u8, Stop>
        ensures next { NextIs (S.left source.old) (S.left source.new) self.old self.new result }
        ensures line { self.new.line ≡ self.old.line }
        ensures later { S.faults source.old ≤ S.faults source.new }
        ensures cause { result ≡ Err Stop.SourceFault → Rose (S.faults source.old) (S.faults source.new) }
        ensures beside { S.beside source.new ≡ S.beside source.old }
    {
        if self.piece.is_empty() {
            self.refill(source)?;
        }
        Ok(self.piece.take_first())
    }

    /// The line that was read last.
    pub fn line(&self) -> &[u8]
        ensures { result.now ≡ self.now.line }
    {
        self.line.as_slice()
    }

    // Empties the line buffer.
    pub(crate) fn begin_line(&mut self)
        ensures { self.new ≡ record self.old { line = [] } }
    {
        self.line.clear();
    }

    // Whether the line buffer has no room.
    pub(crate) fn is_full(&self) -> bool
        ensures { IsTrue result ↔ (LINE_MAX < length self.now.line) }
    {
        self.line.len() > LINE_MAX
    }

    // Adds a byte to the line.
    pub(crate) fn keep(&mut self, byte: u8)
        requires { length self.old.line ≤ LINE_MAX }
        ensures { self.new ≡ record self.old { line = self.old.line ++ byte ∷ [] } }
    {
        self.line.push(byte);
    }

    // Drops the carriage return at the end of the line, if one is there.
    pub(crate) fn drop_return(&mut self)
        ensures { self.new ≡ record self.old { line = without_return self.old.line } }
    {
        self.line.drop_return();
    }
}
