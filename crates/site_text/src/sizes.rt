//! Sizes in bytes.

ghost use Rattle.std.specs.Prelude.{◌≡◌, ◌+◌, ◌*◌, ◌≤◌, IfOk, Some};
ghost use Rattle.site_text.specs.Numbers.{below};
ghost use Rattle.site_text.specs.Sizes.{scale_of, size_of};
ghost use Rattle.site_text.specs.declared.refusal.TextRefusal.TheVariants.{BadSize};

use crate::numbers::read_number;
use crate::refusal::TextRefusal;
use base::FIELD_SIZE_MAX;

fn scale_of(suffix: u8) -> Option<u64>
    ensures { result ≡ scale_of suffix }
{
    match suffix {
        b'k' | b'K' => Some(1 << 10),
        b'm' | b'M' => Some(1 << 20),
        b'g' | b'G' => Some(1 << 30),
        b't' | b'T' => Some(1 << 40),
        _ => None,
    }
}

fn scaled(number: u64, scale: u64) -> Result<u64, TextRefusal>
    ensures { result ≡ below BadSize (FIELD_SIZE_MAX + 1) (Some (number * scale)) }
{
    match number.checked_mul(scale) {
        Some(value) if value <= FIELD_SIZE_MAX => Ok(value),
        _ => Err(TextRefusal::Overflow),
    }
}

/// The bytes that a field says: 1 to 15 digits and at most one suffix `k`, `M`, `G` or `T`, of either case, for powers of
/// 1,024. `BadSize` where the field is not of this form, `Overflow` where the size is 2^50 or more.
#[tactic(auto, unfolding(crate::specs::Sizes::size_in_bytes, crate::specs::Numbers::number_in))]
pub fn read_size(field: &[u8]) -> Result<u64, TextRefusal>
    ensures value { result ≡ size_of field.now }
    ensures bound { IfOk result (λ size. size ≤ FIELD_SIZE_MAX) }
{
    let [front @ .., last] = field else {
        return Err(TextRefusal::BadSize);
    };
    match scale_of(*last) {
        Some(scale) => match read_number(15, front) {
            Some(number) => scaled(number, scale),
            None => Err(TextRefusal::BadSize),
        },
        None => match read_number(15, field) {
            Some(number) => scaled(number, 1),
            None => Err(TextRefusal::BadSize),
        },
    }
}
