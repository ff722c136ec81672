//! The names of sets, and of copies in params and vsns.

ghost use Rattle.site_text.specs.Values.{is_letter};
ghost use Rattle.std.specs.Prelude.{◌≡◌, ◌<◌, length, position, slice_index, IfSome};
ghost use Rattle.std.specs.List.{list_all};
ghost use Rattle.std.specs.Str.{bytes_eq};
ghost use Rattle.std.specs.Option.{option_map};
ghost use Rattle.site_text.specs.Fields.{Gives};
ghost use Rattle.archiver_lines.specs.Names.{is_set_byte, is_set_name, is_in, same_name, last_dot, around_last_dot, is_known};
ghost use Rattle.archiver_lines.specs.CopySteps.{is_too_many};
ghost use Rattle.archiver_lines.specs.NameSteps.{copy_number, numbered_name, copy_name};

use crate::reading::CopyName;
use base::{Bytes, NAME_MAX};
use site_text::{
    ConfFault, LineError, cut_at, is_digit, is_letter, is_name, read_number_within, refuse_if,
};
use std::alloc::Global;

fn is_set_byte(byte: u8) -> bool
    ensures { result ≡ is_set_byte byte }
{
    is_letter(byte) || is_digit(byte) || byte == b'_'
}

fn all_set_bytes(field: &[u8]) -> bool
    ensures { result ≡ list_all is_set_byte field.now }
{
    field.iter().all(|b| is_set_byte(*b))
}

fn begins_with_letter(field: &[u8]) -> bool
    ensures { result ≡ is_letter (slice_index field.now 0) }
{
    match field {
        [first, ..] => is_letter(*first),
        [] => false,
    }
}

/// The name of a set: a letter, and up to 28 letters, digits and `_`.
pub fn is_set_name(field: &[u8]) -> bool
    ensures { result ≡ is_set_name field.now }
{
    field.len() <= 29 && begins_with_letter(field) && all_set_bytes(field)
}

/// The limit on the number of sets.
const MOST_SETS: usize = 64;

/// The name is among these.
pub fn is_in(names: &[Bytes], name: &[u8]) -> bool
    ensures { result ≡ is_in names.now name.now }
{
    names.iter().any(|n| n.as_slice() == name)
}

/// One more set of this name is one too many.
pub fn is_too_many(sets: &[Bytes], name: &[u8]) -> bool
    ensures { result ≡ is_too_many sets.now name.now }
{
    !is_in(sets, name) && MOST_SETS <= sets.len()
}

/// Both are the name of the same copies.
pub fn same_name(first: &CopyName, second: &CopyName) -> bool
    ensures { result ≡ same_name first.now second.now }
{
    match (first, second) {
        (CopyName::AllSets, CopyName::AllSets) => true,
        (CopyName::AllSetsCopy(copy), CopyName::AllSetsCopy(other)) => *copy == *other,
        (CopyName::SetCopy(set, copy), CopyName::SetCopy(name, other)) => {
            set.as_slice() == name.as_slice() && *copy == *other
        }
        _ => false,
    }
}

/// The place of the last `.`.
#[tactic(auto, using(crate::proofs::LastDot::last_dot_more), unfolding(crate::specs::Names::last_dot))]
fn last_dot(field: &[u8]) -> Option<usize>
    ensures place { result ≡ last_dot field.now }
    ensures within { IfSome result (λ at. at < length field.now) }
{
    let mut last = None;
    for place in 0..field.len() {
        if field[place] == b'.' {
            last = Some(place);
        }
    }
    last
}

/// The number of a copy, 1 to 4.
fn copy_number(field: &[u8]) -> Option<u8>
    ensures { result ≡ copy_number field.now }
{
    let number = read_number_within(9, 1, 4, field)?;
    Some(number as u8)
}

/// What stands before the last `.`, and behind it.
fn around_last_dot(field: &[u8]) -> Option<(&[u8], &[u8])>
    ensures { option_map (λ parts. (parts.0.now, parts.1.now)) result ≡ around_last_dot field.now }
{
    match last_dot(field) {
        Some(at) => {
            let (set, number) = cut_at(field, at);
            Some((set, number))
        }
        None => None,
    }
}

/// The sets that a line can name: those mentioned so far, the file systems of `fs =` lines so far, and the site's.
#[derive(Clone, Copy)]
pub struct SetNames<'a> {
    pub site: &'a [u8],
    pub file_systems: &'a [Bytes],
    pub sets: &'a [Bytes],
}

fn is_known(names: &SetNames, name: &[u8]) -> bool
    ensures { result ≡ is_known names.now.site.now names.now.file_systems.now names.now.sets.now name.now }
{
    name == names.site || is_in(names.file_systems, name) || is_in(names.sets, name)
}

/// The name of a copy, `SET.N` or `allsets.N`.
#[tactic(auto, unfolding(crate::specs::NameSteps::numbered_name))]
fn numbered_name(
    alloc: Global,
    names: &SetNames,
    set: &[u8],
    number: &[u8],
) -> Result<CopyName, LineError>
    ensures { Gives (λ name. name) result (numbered_name names.now.site.now names.now.file_systems.now names.now.sets.now set.now number.now) }
{
    let copy = copy_number(number).ok_or(ConfFault::BadValue)?;
    refuse_if(!is_name(NAME_MAX, set), ConfFault::BadValue)?;
    if set == b"allsets".as_slice() {
        return Ok(CopyName::AllSetsCopy(copy));
    }
    refuse_if(!is_known(names, set), ConfFault::UnknownSet)?;
    Ok(CopyName::SetCopy(Bytes::from_slice(alloc, set)?, copy))
}

/// Which copies a field names: `allsets`, `allsets.N` or `SET.N`. `BadValue` where it is of none of these forms, `UnknownSet`
/// where there is no such set.
#[tactic(auto, unfolding(crate::specs::NameSteps::copy_name))]
pub fn copy_name(alloc: Global, names: &SetNames, field: &[u8]) -> Result<CopyName, LineError>
    ensures { Gives (λ name. name) result (copy_name names.now.site.now names.now.file_systems.now names.now.sets.now field.now) }
{
    if field == b"allsets".as_slice() {
        return Ok(CopyName::AllSets);
    }
    match around_last_dot(field) {
        Some((set, number)) => numbered_name(alloc, names, set, number),
        None => Err(LineError::Fault(ConfFault::BadValue)),
    }
}
