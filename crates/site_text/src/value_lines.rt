//! Value lines.

ghost use Rattle.std.specs.Prelude.{◌≡◌, ◌<◌, length, IfSome, position, slice_index, drop, if◌then◌else◌, Some, None};
ghost use Rattle.std.specs.Option.{option_copied, option_map};
ghost use Rattle.site_text.specs.ValueLines.{is_equals, around_equals, value_line, value_line_at_second};

use crate::cursor::Fields;
use crate::fields::cut_at;
use base::Bytes;

fn first_equals(text: &[u8]) -> Option<usize>
    ensures place { result ≡ position is_equals text.now }
    ensures within { IfSome result (λ at. at < length text.now) }
{
    text.iter().position(|b| *b == b'=')
}

/// What stands behind a `=` at the front.
fn behind_equals(field: &[u8]) -> Option<&[u8]>
    ensures { option_copied result ≡ (if is_equals (slice_index field.now 0) then Some (drop 1 field.now) else None) }
{
    match field {
        [b'=', value @ ..] => Some(value),
        _ => None,
    }
}

/// What stands before the first `=` and behind it, if there is one.
fn around_equals(text: &[u8]) -> Option<(&[u8], &[u8])>
    ensures { option_map (λ parts. (parts.0.now, parts.1.now)) result ≡ around_equals text.now }
{
    match first_equals(text) {
        Some(at) => {
            let (before, behind) = cut_at(text, at);
            Some((before, behind))
        }
        None => None,
    }
}

fn at_second<'a>(name: &'a [u8], fields: &'a [Bytes]) -> Option<(&'a [u8], Fields<'a>)>
    ensures { option_map (λ line. (line.0.now, line.1)) result ≡ value_line_at_second name.now fields.now }
{
    let [second, rest @ ..] = fields else {
        return None;
    };
    let value = behind_equals(second.as_slice())?;
    Some((name, Fields::with_first(value, rest)))
}

/// The name and the values of a value line, whose first field has a `=` or whose second begins with one. The name stands
/// before the first `=`, the values are the fields of what follows it; both may be empty. Other lines are none.
#[tactic(auto, unfolding(crate::specs::ValueLines::value_line))]
pub fn value_line(fields: &[Bytes]) -> Option<(&[u8], Fields)>
    ensures { option_map (λ line. (line.0.now, line.1)) result ≡ value_line fields.now }
{
    let [first, rest @ ..] = fields else {
        return None;
    };
    let first = first.as_slice();
    match around_equals(first) {
        Some((name, value)) => Some((name, Fields::with_first(value, rest))),
        None => at_second(first, rest),
    }
}
