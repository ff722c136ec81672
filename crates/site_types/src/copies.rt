//! The places for the copies of a file, by the copy's number.

ghost use Rattle.std.specs.Prelude.{◌≡◌, ◌≤◌};
ghost use Rattle.site_types.specs.Copies.{no_copies, slot_of, with_slot};

use crate::file::{CopySlot, CopySlots};

impl CopySlots {
    /// No copy.
    pub fn empty() -> Self
        ensures { result ≡ no_copies }
    {
        CopySlots {
            first: CopySlot::Empty,
            second: CopySlot::Empty,
            third: CopySlot::Empty,
            fourth: CopySlot::Empty,
        }
    }

    /// The place of a copy, 1 to 4.
    pub fn get(&self, copy: u8) -> &CopySlot
        requires least { 1 ≤ copy }
        requires most { copy ≤ 4 }
        ensures { result.now ≡ slot_of self.now copy }
    {
        match copy {
            1 => &self.first,
            2 => &self.second,
            3 => &self.third,
            _ => &self.fourth,
        }
    }

    /// Puts what is given in the place of a copy, 1 to 4.
    pub fn set(&mut self, copy: u8, slot: CopySlot)
        requires least { 1 ≤ copy }
        requires most { copy ≤ 4 }
        ensures { self.new ≡ with_slot self.old copy slot }
    {
        match copy {
            1 => self.first = slot,
            2 => self.second = slot,
            3 => self.third = slot,
            _ => self.fourth = slot,
        }
    }
}
