//! Numbers of decimal digits.

ghost use Rattle.std.specs.Prelude.{◌≡◌, ◌≤◌, ◌<◌, ◌^◌, length, IfSome};
ghost use Rattle.site_text.specs.Numbers.{number_in, number_within, has_length, within};
ghost use Rattle.site_text.specs.NumberSteps.{fitting_from, with_digit};

/// The number with one more digit, where that is a digit and the number fits.
fn with_digit(number: u64, byte: u8) -> Option<u64>
    ensures { result ≡ with_digit number byte }
{
    if !byte.is_ascii_digit() {
        return None;
    }
    number.checked_mul(10)?.checked_add(u64::from(byte - b'0'))
}

/// The number that digits write, where it fits.
fn fitting_number(digits: &[u8]) -> Option<u64>
    ensures { result ≡ fitting_from 0 digits.now }
{
    let mut number: u64 = 0;
    for byte in digits {
        let Some(more) = with_digit(number, *byte) else {
            return None;
        };
        number = more;
    }
    Some(number)
}

/// A field of 1 to `most` bytes.
pub fn has_length(most: usize, field: &[u8]) -> bool
    ensures { result ≡ has_length most field.now }
{
    1 <= field.len() && field.len() <= most
}

/// The number that a field of 1 to `most` digits writes. Leading zeros are allowed.
pub fn read_number(most: usize, field: &[u8]) -> Option<u64>
    requires { most ≤ 19 }
    ensures value { result ≡ number_in most field.now }
    ensures bound { IfSome result (λ n. n < 10 ^ length field.now) }
    ensures digits { IfSome result (λ _. (1 ≤ length field.now) × (length field.now ≤ most)) }
{
    if !has_length(most, field) {
        return None;
    }
    fitting_number(field)
}

fn within(low: u64, high: u64, number: u64) -> Option<u64>
    ensures value { result ≡ within low high number }
    ensures range { IfSome result (λ n. (low ≤ n) × (n ≤ high)) }
{
    if low <= number && number <= high {
        Some(number)
    } else {
        None
    }
}

/// The number that a field of 1 to `most` digits writes, where it is from `low` to `high`. Leading zeros are allowed.
pub fn read_number_within(most: usize, low: u64, high: u64, field: &[u8]) -> Option<u64>
    ensures value { result ≡ number_within most low high field.now }
    ensures range { IfSome result (λ n. (low ≤ n) × (n ≤ high)) }
{
    if !has_length(most, field) {
        return None;
    }
    let number = fitting_number(field)?;
    within(low, high, number)
}
