//! Lists: their count as four bytes, and their items.

ghost use Rattle.std.specs.Prelude.{◌≡◌, ◌≤◌, ◌<◌, ◌-◌, ◌^◌, length, Ok, Err};
ghost use Rattle.std.specs.List.{flat_map, AllByRecursion};
ghost use Rattle.step_codec.specs.Forms.{list_of, items_at};
ghost use Rattle.step_codec.specs.Reading.{Gives};
ghost use Rattle.step_codec.specs.Writing.{Adds};

use crate::field::{Field, write_u32};
use crate::refusal::StepRefusal;
use crate::unread::Unread;
use base::List;
use std::alloc::AllocError;

fn read_items<F: Field>(bytes: &mut Unread, count: u32) -> Result<List<F::Value>, StepRefusal>
    ensures { Gives (λ x. (x, bytes.new)) result (items_at F.form count bytes.old) }
{
    let mut list = List::new(bytes.alloc());
    for _ in 0..count {
        let item = F::read(bytes)?;
        list.push(item)?;
    }
    Ok(list)
}

/// A list of at least and at most so many items.
#[tactic(auto, unfolding(crate::specs::Forms::list_at))]
pub fn read_list<F: Field>(
    bytes: &mut Unread,
    least: u32,
    most: u32,
) -> Result<List<F::Value>, StepRefusal>
    ensures { Gives (λ x. (x, bytes.new)) result ((list_of least most F.form).read bytes.old) }
{
    let count = bytes.u32_within(least, most)?;
    read_items::<F>(bytes, count)
}

/// So many items, fewer than 2^32 of them.
pub fn write_list<F: Field>(list: &[F::Value], into: &mut Vec<u8>) -> Result<(), AllocError>
    requires count { length list.now < 2 ^ 32 }
    requires items { AllByRecursion F.form.InRange list.now }
    ensures { Adds into.old into.new result ((list_of 0 (2 ^ 32 - 1) F.form).written list.now) }
{
    write_u32(into, list.len() as u32)?;
    for item in list {
        F::write(item, into)?;
    }
    Ok(())
}
