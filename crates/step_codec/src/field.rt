//! Fields, and how each is read and written.

ghost use Rattle.std.specs.Prelude.{◌≡◌, ◌≤◌, ◌<◌, ◌-◌, ◌^◌, [], ◌∷◌, length, Ok, Err};
ghost use Rattle.std.specs.Int.{w32, w64};
ghost use Rattle.step_codec.specs.Forms.{Form, number_bytes, text as text_form};
ghost use Rattle.step_codec.specs.Reading.{Gives};
ghost use Rattle.step_codec.specs.Writing.{Adds};
ghost use Rattle.step_codec.specs.Written.{number, moment, inode, copy, index, block};

use crate::refusal::StepRefusal;
use crate::unread::Unread;
use base::{Bytes, END_OF_TIME, INODE_MAX};
use std::alloc::AllocError;

/// A field, or several that follow one another. A type that is written in one way only is its own;
/// the numbers and lists have a type for each way.
pub trait Field {
    type Value: Drop;

    ghost form: { Form Self.Value };

    /// Reads it from the front.
    fn read(bytes: &mut Unread) -> Result<Self::Value, StepRefusal>
        ensures { Gives (λ x. (x, bytes.new)) result (form.read bytes.old) };

    /// Writes it to the end. Where memory runs out, a part of it may have been written.
    fn write(value: &Self::Value, into: &mut Vec<u8>) -> Result<(), AllocError>
        requires { form.InRange value.now }
        ensures { Adds into.old into.new result (form.written value.now) };
}

fn write_bytes(into: &mut Vec<u8>, bytes: &[u8]) -> Result<(), AllocError>
    ensures { Adds into.old into.new result bytes.now }
{
    into.extend_from_slice(bytes)
}

#[tactic(auto, unfolding(crate::specs::Forms::number_bytes))]
fn write_u64(into: &mut Vec<u8>, n: u64) -> Result<(), AllocError>
    ensures { Adds into.old into.new result (number_bytes w64 n) }
{
    write_bytes(into, &n.to_le_bytes())
}

#[tactic(auto, unfolding(crate::specs::Forms::number_bytes))]
pub fn write_u32(into: &mut Vec<u8>, n: u32) -> Result<(), AllocError>
    ensures { Adds into.old into.new result (number_bytes w32 n) }
{
    write_bytes(into, &n.to_le_bytes())
}

pub fn write_byte(into: &mut Vec<u8>, byte: u8) -> Result<(), AllocError>
    ensures { Adds into.old into.new result (byte ∷ []) }
{
    write_bytes(into, &[byte])
}

/// Any number.
pub struct Number;

impl Field for Number {
    type Value = u64;

    ghost form = { number };

    fn read(bytes: &mut Unread) -> Result<u64, StepRefusal> {
        bytes.u64_within(0, u64::MAX)
    }

    fn write(value: &u64, into: &mut Vec<u8>) -> Result<(), AllocError> {
        write_u64(into, *value)
    }
}

/// A moment, in seconds below 2^40.
pub struct Moment;

impl Field for Moment {
    type Value = u64;

    ghost form = { moment };

    fn read(bytes: &mut Unread) -> Result<u64, StepRefusal> {
        bytes.u64_within(0, END_OF_TIME - 1)
    }

    fn write(value: &u64, into: &mut Vec<u8>) -> Result<(), AllocError> {
        write_u64(into, *value)
    }
}

/// The inode of a file, 1 to 4,294,967,294.
pub struct Inode;

impl Field for Inode {
    type Value = u32;

    ghost form = { inode };

    fn read(bytes: &mut Unread) -> Result<u32, StepRefusal> {
        let n = bytes.u64_within(1, INODE_MAX as u64)?;
        Ok(n as u32)
    }

    fn write(value: &u32, into: &mut Vec<u8>) -> Result<(), AllocError> {
        write_u64(into, *value as u64)
    }
}

/// The number of a copy, 1 to 4.
pub struct CopyNumber;

impl Field for CopyNumber {
    type Value = u8;

    ghost form = { copy };

    fn read(bytes: &mut Unread) -> Result<u8, StepRefusal> {
        let n = bytes.u64_within(1, 4)?;
        Ok(n as u8)
    }

    fn write(value: &u8, into: &mut Vec<u8>) -> Result<(), AllocError> {
        write_u64(into, *value as u64)
    }
}

/// The number of a set or of a volume.
pub struct Index;

impl Field for Index {
    type Value = u32;

    ghost form = { index };

    fn read(bytes: &mut Unread) -> Result<u32, StepRefusal> {
        let n = bytes.u64_within(0, u32::MAX as u64)?;
        Ok(n as u32)
    }

    fn write(value: &u32, into: &mut Vec<u8>) -> Result<(), AllocError> {
        write_u64(into, *value as u64)
    }
}

/// The number of a block, or how many blocks.
pub struct Block;

impl Field for Block {
    type Value = u32;

    ghost form = { block };

    fn read(bytes: &mut Unread) -> Result<u32, StepRefusal> {
        bytes.u32_within(0, u32::MAX)
    }

    fn write(value: &u32, into: &mut Vec<u8>) -> Result<(), AllocError> {
        write_u32(into, *value)
    }
}

impl Field for Bytes {
    type Value = Bytes;

    ghost form = { text_form };

    #[tactic(auto, unfolding(crate::specs::Forms::text_at))]
    fn read(bytes: &mut Unread) -> Result<Bytes, StepRefusal> {
        let length = bytes.u32_within(0, u32::MAX)?;
        let front = bytes.front(length as usize)?;
        Ok(Bytes::from_slice(bytes.alloc(), front)?)
    }

    fn write(value: &Bytes, into: &mut Vec<u8>) -> Result<(), AllocError> {
        let bytes = value.as_slice();
        write_u32(into, bytes.len() as u32)?;
        write_bytes(into, bytes)
    }
}
