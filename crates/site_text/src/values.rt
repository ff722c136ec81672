//! What single fields say.

ghost use Rattle.std.specs.Prelude.{◌≡◌, ◌≤◌, ◌<◌, ◌^◌, IfOk, length};
ghost use Rattle.std.specs.List.{list_all};
ghost use Rattle.site_text.specs.Values.{number_value, size_value, multiple_value, age_value, weight_value, is_letter, is_digit, is_name_byte, is_name, is_media_byte, is_media};

use crate::ages::read_age;
use crate::fault::ConfFault;
use crate::numbers::{has_length, read_number};
use crate::sizes::read_size;
use crate::weights::read_weight;

/// A number of 1 to 9 digits from `low` to `high`. `BadValue` where the field is no such number, `OutOfRange` where it is
/// outside the range.
#[tactic(auto, unfolding(crate::specs::Values::number_value))]
pub fn number_value(low: u32, high: u32, field: &[u8]) -> Result<u32, ConfFault>
    ensures value { result ≡ number_value low high field.now }
    ensures range { IfOk result (λ n. (low ≤ n) × (n ≤ high)) }
{
    let number = read_number(9, field).ok_or(ConfFault::BadValue)?;
    if u64::from(low) <= number && number <= u64::from(high) {
        Ok(number as u32)
    } else {
        Err(ConfFault::OutOfRange)
    }
}

/// A size in bytes from `low` to `high`. `BadValue` where the field is no size, `OutOfRange` where it is outside the range.
#[tactic(auto, unfolding(crate::specs::Values::size_value))]
pub fn size_value(low: u64, high: u64, field: &[u8]) -> Result<u64, ConfFault>
    ensures value { result ≡ size_value low high field.now }
    ensures range { IfOk result (λ n. (low ≤ n) × (n ≤ high)) }
{
    match read_size(field) {
        Ok(size) if low <= size && size <= high => Ok(size),
        Ok(_) => Err(ConfFault::OutOfRange),
        Err(_) => Err(ConfFault::BadValue),
    }
}

/// A size in bytes from `low` to `high` that is a multiple of `multiple`. `BadValue` where the field is no size, `OutOfRange`
/// where it is outside the range or no multiple.
#[tactic(auto, unfolding(crate::specs::Values::multiple_value))]
pub fn multiple_value(multiple: u64, low: u64, high: u64, field: &[u8]) -> Result<u64, ConfFault>
    requires { 0 < multiple }
    ensures value { result ≡ multiple_value multiple low high field.now }
    ensures range { IfOk result (λ n. (low ≤ n) × (n ≤ high)) }
{
    match read_size(field) {
        Ok(size) if low <= size && size <= high && size % multiple == 0 => Ok(size),
        Ok(_) => Err(ConfFault::OutOfRange),
        Err(_) => Err(ConfFault::BadValue),
    }
}

/// An age in seconds, below 2^40. `BadValue` where the field is none.
pub fn age_value(field: &[u8]) -> Result<u64, ConfFault>
    ensures value { result ≡ age_value field.now }
    ensures bound { IfOk result (λ age. age < 2 ^ 40) }
{
    match read_age(field) {
        Ok(age) => Ok(age),
        Err(_) => Err(ConfFault::BadValue),
    }
}

/// A weight in millionths, at most 1,000,000. `BadValue` where the field is none.
pub fn weight_value(field: &[u8]) -> Result<u32, ConfFault>
    ensures value { result ≡ weight_value field.now }
    ensures bound { IfOk result (λ weight. weight ≤ 1000000) }
{
    match read_weight(field) {
        Ok(weight) => Ok(weight),
        Err(_) => Err(ConfFault::BadValue),
    }
}

/// A letter from `A` to `Z` or `a` to `z`.
pub fn is_letter(byte: u8) -> bool
    ensures { result ≡ is_letter byte }
{
    matches!(byte, b'A'..=b'Z' | b'a'..=b'z')
}

/// A digit from `0` to `9`.
pub fn is_digit(byte: u8) -> bool
    ensures { result ≡ is_digit byte }
{
    matches!(byte, b'0'..=b'9')
}

fn is_name_byte(byte: u8) -> bool
    ensures { result ≡ is_name_byte byte }
{
    is_letter(byte) || is_digit(byte) || byte == b'_' || byte == b'-' || byte == b'.'
}

fn all_name_bytes(field: &[u8]) -> bool
    ensures { result ≡ list_all is_name_byte field.now }
{
    field.iter().all(|b| is_name_byte(*b))
}

/// A name: 1 to `most` letters, digits, `_`, `-` and `.`.
pub fn is_name(most: usize, field: &[u8]) -> bool
    ensures { result ≡ is_name most field.now }
{
    has_length(most, field) && all_name_bytes(field)
}

fn is_media_byte(byte: u8) -> bool
    ensures { result ≡ is_media_byte byte }
{
    matches!(byte, b'a'..=b'z') || is_digit(byte)
}

fn all_media_bytes(field: &[u8]) -> bool
    ensures { result ≡ list_all is_media_byte field.now }
{
    field.iter().all(|b| is_media_byte(*b))
}

/// A media type: two letters from `a` to `z` or digits.
pub fn is_media(field: &[u8]) -> bool
    ensures { result ≡ is_media field.now }
{
    field.len() == 2 && all_media_bytes(field)
}
