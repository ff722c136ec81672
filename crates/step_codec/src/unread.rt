//! The bytes that are still to be read.

ghost use Rattle.std.specs.Prelude.{◌≡◌, ℕ, ◌≤◌, List as Seq, [], IsTrue, ◌↔◌, IfOk, Ok, Err};
ghost use Rattle.std.specs.Int.{w32, w64};
ghost use Rattle.step_codec.specs.Forms.{byte_at, front_at, number_at, number_within};
ghost use Rattle.step_codec.specs.Reading.{Gives};

use crate::refusal::StepRefusal;
use std::alloc::Global;
use std::marker::Model;

/// The bytes of a step from the next field on, and the allocator for what is read of them.
#[derive(Drop)]
pub struct Unread<'a> {
    alloc: Global,
    rest: &'a [u8],
}

impl<'a> Model for Unread<'a> {
    ghost Value = { Seq ℕ };

    ghost view = { λ unread. unread.rest.now };
}

impl<'a> Unread<'a> {
    pub fn new(alloc: Global, bytes: &'a [u8]) -> Self
        ensures { result ≡ bytes.now }
    {
        Unread { alloc, rest: bytes }
    }

    pub fn alloc(&self) -> Global {
        self.alloc
    }

    pub fn is_empty(&self) -> bool
        ensures { IsTrue result ↔ (self.now ≡ []) }
    {
        self.rest.is_empty()
    }

    pub fn byte(&mut self) -> Result<u8, StepRefusal>
        ensures { Gives (λ x. (x, self.new)) result (byte_at self.old) }
    {
        match self.rest {
            [] => Err(StepRefusal::Truncated),
            [byte, rest @ ..] => {
                self.rest = rest;
                Ok(*byte)
            }
        }
    }

    /// So many bytes.
    pub fn front(&mut self, count: usize) -> Result<&'a [u8], StepRefusal>
        ensures { Gives (λ x. (x.now, self.new)) result (front_at count self.old) }
    {
        if self.rest.len() < count {
            return Err(StepRefusal::Truncated);
        }
        let (front, rest) = self.rest.split_at(count);
        self.rest = rest;
        Ok(front)
    }

    #[tactic(auto, unfolding(crate::specs::Forms::number_at))]
    fn u64(&mut self) -> Result<u64, StepRefusal>
        ensures { Gives (λ x. (x, self.new)) result (number_at w64 self.old) }
    {
        let front = self.front(8)?;
        Ok(u64::from_le_bytes([
            front[0], front[1], front[2], front[3], front[4], front[5], front[6], front[7],
        ]))
    }

    #[tactic(auto, unfolding(crate::specs::Forms::number_at))]
    fn u32(&mut self) -> Result<u32, StepRefusal>
        ensures { Gives (λ x. (x, self.new)) result (number_at w32 self.old) }
    {
        let front = self.front(4)?;
        Ok(u32::from_le_bytes([front[0], front[1], front[2], front[3]]))
    }

    /// A number of eight bytes, within a range.
    #[tactic(auto, unfolding(crate::specs::Forms::number_within))]
    pub fn u64_within(&mut self, least: u64, most: u64) -> Result<u64, StepRefusal>
        ensures gives { Gives (λ x. (x, self.new)) result (number_within w64 least most self.old) }
        ensures within { IfOk result (λ x. x ≤ most) }
    {
        let n = self.u64()?;
        if least <= n && n <= most {
            Ok(n)
        } else {
            Err(StepRefusal::BadField)
        }
    }

    /// A number of four bytes, within a range.
    #[tactic(auto, unfolding(crate::specs::Forms::number_within))]
    pub fn u32_within(&mut self, least: u32, most: u32) -> Result<u32, StepRefusal>
        ensures { Gives (λ x. (x, self.new)) result (number_within w32 least most self.old) }
    {
        let n = self.u32()?;
        if least <= n && n <= most {
            Ok(n)
        } else {
            Err(StepRefusal::BadField)
        }
    }
}
