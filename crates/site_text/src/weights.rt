//! Weights in millionths.

ghost use Rattle.std.specs.Prelude.{◌≡◌, ◌≤◌, ◌<◌, IfOk, IfSome, length, position};
ghost use Rattle.site_text.specs.Weights.{whole_millionths, leading_millionths, decimal_millionths, sum_of_parts, is_point, weight_in_millionths, weight_of};

use crate::fields::cut_at;
use crate::numbers::read_number;
use crate::refusal::TextRefusal;

fn whole_millionths(digits: &[u8]) -> Option<u32>
    ensures { result ≡ whole_millionths digits.now }
{
    match digits {
        b"0" => Some(0),
        b"1" => Some(1_000_000),
        _ => None,
    }
}

fn leading_millionths(digits: &[u8]) -> Option<u32>
    ensures value { result ≡ leading_millionths digits.now }
    ensures bound { IfSome result (λ n. n ≤ 1000000) }
{
    if digits.is_empty() {
        Some(0)
    } else {
        whole_millionths(digits)
    }
}

fn decimal_millionths(digits: &[u8]) -> Option<u32>
    ensures value { result ≡ decimal_millionths digits.now }
    ensures bound { IfSome result (λ n. n < 1000000) }
{
    let number = read_number(6, digits)?;
    let scale = 10u64.pow(6 - digits.len() as u32);
    Some((number * scale) as u32)
}

fn sum_of_parts(whole: Option<u32>, decimals: Option<u32>) -> Option<u32>
    requires whole { IfSome whole (λ n. n ≤ 1000000) }
    requires decimals { IfSome decimals (λ n. n < 1000000) }
    ensures { result ≡ sum_of_parts whole decimals }
{
    match (whole, decimals) {
        (Some(whole), Some(decimals)) => Some(whole + decimals),
        _ => None,
    }
}

fn first_point(field: &[u8]) -> Option<usize>
    ensures place { result ≡ position is_point field.now }
    ensures within { IfSome result (λ at. at < length field.now) }
{
    field.iter().position(|b| *b == b'.')
}

#[tactic(auto, unfolding(crate::specs::Weights::weight_in_millionths))]
fn millionths(field: &[u8]) -> Option<u32>
    ensures { result ≡ weight_in_millionths field.now }
{
    match first_point(field) {
        Some(at) => {
            let (whole, decimals) = cut_at(field, at);
            sum_of_parts(leading_millionths(whole), decimal_millionths(decimals))
        }
        None => whole_millionths(field),
    }
}

/// The millionths that a field says: the digit 0 or 1, or one of `0.`, `1.` and `.` and behind it 1 to 6 digits. `BadWeight`
/// where the field is not of this form or is above 1.
pub fn read_weight(field: &[u8]) -> Result<u32, TextRefusal>
    ensures value { result ≡ weight_of field.now }
    ensures bound { IfOk result (λ weight. weight ≤ 1000000) }
{
    match millionths(field) {
        Some(weight) if weight <= 1_000_000 => Ok(weight),
        _ => Err(TextRefusal::BadWeight),
    }
}
