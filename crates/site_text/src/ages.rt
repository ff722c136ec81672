//! Ages in seconds.

ghost use Rattle.std.specs.Prelude.{◌≡◌, ℕ, ◌+◌, ◌*◌, ◌^◌, ◌<◌, ◌≤◌, min, suc, take, drop, length, position, IfSome, IfOk, None, Some};
ghost use Rattle.site_text.specs.Ages.{unit_of, is_unit, groups_of, group_seconds, plus, sum_of, age_of};
ghost use Rattle.site_text.specs.NumberSteps.{capped};

use crate::numbers::read_number;
use crate::refusal::TextRefusal;

fn unit_of(suffix: u8) -> Option<u64>
    ensures { result ≡ unit_of suffix }
{
    match suffix {
        b's' => Some(1),
        b'm' => Some(60),
        b'h' => Some(3600),
        b'd' => Some(86_400),
        b'w' => Some(604_800),
        b'y' => Some(31_536_000),
        _ => None,
    }
}

fn first_unit(text: &[u8]) -> Option<usize>
    ensures place { result ≡ position is_unit text.now }
    ensures within { IfSome result (λ at. at < length text.now) }
{
    text.iter().position(|b| unit_of(*b).is_some())
}

/// What ends with the byte at a place, and what stands behind it.
fn cut_behind(text: &[u8], at: usize) -> (&[u8], &[u8])
    requires { at < length text.now }
    ensures group { result.0.now ≡ take (suc at) text.now }
    ensures after { result.1.now ≡ drop (suc at) text.now }
    ensures shorter { length result.1.now < length text.now }
{
    text.split_at(at + 1)
}

fn capped_product(number: u64, unit: u64) -> u64
    ensures { result ≡ min (number * unit) (2 ^ 40) }
{
    match number.checked_mul(unit) {
        Some(value) if value < 1 << 40 => value,
        _ => 1 << 40,
    }
}

/// The seconds of a group, as far as they are kept.
#[tactic(auto, unfolding(crate::specs::Ages::group_seconds))]
fn group_seconds(group: &[u8]) -> Option<u64>
    ensures { result ≡ capped (group_seconds group.now) }
{
    if group.is_empty() {
        return None;
    }
    let end = group.len() - 1;
    match unit_of(group[end]) {
        Some(unit) => {
            let number = read_number(12, &group[..end])?;
            Some(capped_product(number, unit))
        }
        None => {
            let number = read_number(12, group)?;
            Some(number.min(1 << 40))
        }
    }
}

/// The sum with another group, as far as it is kept.
fn with_group(sum: u64, group: &[u8]) -> Option<u64>
    requires { sum ≤ 2 ^ 40 }
    ensures { result ≡ capped (plus (Some sum) (group_seconds group.now)) }
{
    let value = group_seconds(group)?;
    Some((sum + value).min(1 << 40))
}

fn with_last_group(sum: u64, rest: &[u8]) -> Option<u64>
    requires sum { sum ≤ 2 ^ 40 }
    requires rest { position is_unit rest.now ≡ None }
    ensures { result ≡ capped (plus (Some sum) (sum_of (groups_of rest.now))) }
{
    if rest.is_empty() {
        return Some(sum);
    }
    with_group(sum, rest)
}

/// The seconds that a field says: one or more groups of 1 to 12 digits and a suffix `s`, `m`, `h`, `d`, `w` or `y`, of which
/// the last may have no suffix, then for seconds. They add up. `BadAge` where the field is not of this form, `Overflow`
/// where the age is 2^40 or more.
pub fn read_age(field: &[u8]) -> Result<u64, TextRefusal>
    ensures value { result ≡ age_of field.now }
    ensures bound { IfOk result (λ age. age < 2 ^ 40) }
{
    if field.is_empty() {
        return Err(TextRefusal::BadAge);
    }
    let mut sum = 0;
    let mut rest = field;
    while let Some(at) = first_unit(rest) {
        let (group, after) = cut_behind(rest, at);
        let Some(more) = with_group(sum, group) else {
            return Err(TextRefusal::BadAge);
        };
        sum = more;
        rest = after;
    }
    match with_last_group(sum, rest) {
        None => Err(TextRefusal::BadAge),
        Some(sum) => {
            if sum < 1 << 40 {
                Ok(sum)
            } else {
                Err(TextRefusal::Overflow)
            }
        }
    }
}
