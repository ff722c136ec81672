//! Which texts may name a file, an owner or a group.

ghost use Rattle.std.specs.Prelude.{◌≡◌, ◌==◌, ◌∷◌};
ghost use Rattle.std.specs.List.{list_all, slice_split};
ghost use Rattle.std.specs.Str.{chars};
ghost use Rattle.base.specs.Paths.{is_path_char, is_part, parts, is_legal_path, is_name_char, is_legal_name, begins_with_slash, is_of_length, is_plain_text};

use crate::limits::{NAME_MAX, PATH_MAX};
use std::str;

fn is_path_char(c: char) -> bool
    ensures { result ≡ is_path_char c }
{
    !c.is_control() && !(c == ' ' || c == '\t')
}

fn is_part(part: &[u8]) -> bool
    ensures { result ≡ is_part part.now }
{
    match part {
        [] => false,
        [a] => *a != b'.',
        [a, b] => !(*a == b'.' && *b == b'.'),
        [_, _, _, ..] => true,
    }
}

fn begins_with_slash(path: &[u8]) -> bool
    ensures { result ≡ begins_with_slash path.now }
{
    match path {
        [] => false,
        [b, ..] => *b == b'/',
    }
}

fn are_parts(text: &[u8]) -> bool
    ensures { result ≡ list_all is_part (slice_split (λ b. b == 47) text.now) }
{
    text.split(|b| *b == b'/').all(|part| is_part(part))
}

fn has_parts(path: &[u8]) -> bool
    ensures { result ≡ list_all is_part (parts path.now) }
{
    let rest = match path {
        [] => path,
        [_, rest @ ..] => rest,
    };
    are_parts(rest)
}

fn has_path_chars(text: &str) -> bool
    ensures { result ≡ list_all is_path_char (chars text.now) }
{
    text.chars().all(|c| is_path_char(c))
}

fn is_plain_text(path: &[u8]) -> bool
    ensures { result ≡ is_plain_text path.now }
{
    match str::from_utf8(path) {
        Err(_) => false,
        Ok(text) => has_path_chars(text),
    }
}

fn is_of_length(least: usize, most: usize, text: &[u8]) -> bool
    ensures { result ≡ is_of_length least most text.now }
{
    least <= text.len() && text.len() <= most
}

/// Whether this is the path of a file: 2 to 1,024 bytes of UTF-8 that begin with `/`, without a
/// control character (U+0000 to U+001F and U+007F to U+009F), space or tab, of which no part
/// between slashes is empty, `.` or `..`.
#[tactic(auto, unfolding(crate::specs::Paths::is_legal_path))]
pub fn is_legal_path(path: &[u8]) -> bool
    ensures { result ≡ is_legal_path path.now }
{
    is_of_length(2, PATH_MAX, path)
        && is_plain_text(path)
        && begins_with_slash(path)
        && has_parts(path)
}

/// Whether this text with a `/` before it is the path of a file: at most 1,023 bytes.
#[tactic(auto, using(crate::proofs::BelowRoot::below_root))]
pub fn is_legal_below_root(rest: &[u8]) -> bool
    ensures { result ≡ is_legal_path (47 ∷ rest.now) }
{
    is_of_length(1, PATH_MAX - 1, rest) && is_plain_text(rest) && are_parts(rest)
}

fn is_name_char(c: u8) -> bool
    ensures { result ≡ is_name_char c }
{
    c.is_ascii_alphanumeric() || c == b'_' || c == b'-' || c == b'.'
}

fn has_name_chars(name: &[u8]) -> bool
    ensures { result ≡ list_all is_name_char name.now }
{
    name.iter().all(|c| is_name_char(*c))
}

/// Whether this is the name of an owner or a group: 1 to 32 letters, digits, `_`, `-` and `.`.
#[tactic(auto, unfolding(crate::specs::Paths::is_legal_name))]
pub fn is_legal_name(name: &[u8]) -> bool
    ensures { result ≡ is_legal_name name.now }
{
    is_of_length(1, NAME_MAX, name) && has_name_chars(name)
}
