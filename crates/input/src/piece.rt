//! A piece of an input.

ghost use Rattle.std.specs.Prelude.{◌≡◌, ◌<◌, ◌≤◌, ◌↔◌, [], ◌∷◌, length, take, IsTrue, IfOk, OnErr, vec_len};
ghost use Rattle.std.specs.Io.KnownBytes.{Consumes, Keeps, IsAtEnd};
ghost use Rattle.base.specs.Causes.{HasCause};

use outside::{Failed, Source};
use std::alloc::{AllocError, Global};
use std::marker::Model;

/// How many bytes a piece can have.
const PIECE_LENGTH: usize = 65_536;

/// The bytes of a piece that were not used yet. It has its memory from the start.
#[derive(Drop)]
pub struct Piece {
    buffer: Vec<u8>,
    from: usize,
    to: usize,
}

impl Model for Piece {
    ghost use Rattle.std.specs.Prelude.{ℕ, List, ◌<◌, ◌≤◌, ◌-◌, take, drop, vec_len};

    ghost Value = { List ℕ };

    ghost view = { λ p. take (p.to - p.from) (drop p.from p.buffer.items) };

    ghost invariant = { λ p. (p.from ≤ p.to) × (p.to ≤ vec_len p.buffer) × (0 < vec_len p.buffer) };
}

impl Piece {
    /// A piece with no byte.
    pub fn new(alloc: Global) -> Result<Piece, AllocError>
        ensures { IfOk result (λ p. p ≡ []) }
    {
        Ok(Piece {
            buffer: vec![in alloc; 0; PIECE_LENGTH]?,
            from: 0,
            to: 0,
        })
    }

    pub fn is_empty(&self) -> bool
        ensures { IsTrue result ↔ (self.now ≡ []) }
    {
        self.from == self.to
    }

    /// Drops all bytes.
    pub fn clear(&mut self)
        ensures { self.new ≡ [] }
    {
        self.from = 0;
        self.to = 0;
    }

    /// Takes the first byte.
    pub fn take_first(&mut self) -> u8
        requires { 0 < length self.old }
        ensures { self.old ≡ result ∷ self.new }
    {
        let byte = self.buffer[self.from];
        self.from += 1;
        byte
    }

    /// Reads further bytes, at most so many, in place of those that it has, and answers how many. 0 is the end of
    /// the source.
    pub fn fill<S: Source>(&mut self, source: &mut S, most: u64) -> Result<usize, Failed>
        requires { 0 < most }
        ensures len { IfOk result (λ n. n ≡ length self.new) }
        ensures within { length self.new ≤ most }
        ensures bytes { IfOk result (λ n. Consumes (S.left source.old) (S.left source.new) self.new) }
        ensures end { IfOk result (λ n. n ≡ 0 → IsAtEnd (S.left source.new)) }
        ensures none { OnErr result (self.new ≡ []) }
        ensures kept { OnErr result (Keeps (S.left source.old) (S.left source.new)) }
        ensures cause { HasCause (S.faults source.old) (S.faults source.new) result }
        ensures beside { S.beside source.new ≡ S.beside source.old }
    {
        self.from = 0;
        self.to = 0;
        let room = most.min(self.buffer.len() as u64) as usize;
        let count = read_into(source, &mut self.buffer, room)?;
        self.to = count;
        Ok(count)
    }
}

// Reads at most so many bytes into the front of a buffer.
fn read_front<S: Source>(source: &mut S, buffer: &mut [u8], room: usize) -> Result<usize, Failed>
    requires { room ≤ length buffer.old }
    ensures within { IfOk result (λ n. n ≤ room) }
    ensures bytes { IfOk result (λ n. Consumes (S.left source.old) (S.left source.new) (take n buffer.new)) }
    ensures end { IfOk result (λ n. n ≡ 0 → 0 < room → IsAtEnd (S.left source.new)) }
    ensures kept { OnErr result (Keeps (S.left source.old) (S.left source.new)) }
    ensures cause { HasCause (S.faults source.old) (S.faults source.new) result }
    ensures beside { S.beside source.new ≡ S.beside source.old }
{
    source.read(&mut buffer[..room])
}

// The same, into a vector.
fn read_into<S: Source>(source: &mut S, buffer: &mut Vec<u8>, room: usize) -> Result<usize, Failed>
    requires { room ≤ vec_len buffer.old }
    ensures len { vec_len buffer.new ≡ vec_len buffer.old }
    ensures within { IfOk result (λ n. n ≤ room) }
    ensures bytes { IfOk result (λ n. Consumes (S.left source.old) (S.left source.new) (take n buffer.new.items)) }
    ensures end { IfOk result (λ n. n ≡ 0 → 0 < room → IsAtEnd (S.left source.new)) }
    ensures kept { OnErr result (Keeps (S.left source.old) (S.left source.new)) }
    ensures cause { HasCause (S.faults source.old) (S.faults source.new) result }
    ensures beside { S.beside source.new ≡ S.beside source.old }
{
    read_front(source, buffer, room)
}
