//! Words and what they stand for.

ghost use Rattle.std.specs.Prelude.{◌≡◌, map};
ghost use Rattle.site_text.specs.Fields.{refuse_if};
ghost use Rattle.site_text.specs.Words.{named, is_option, no_option, option_named, word_value};

use crate::fault::ConfFault;

/// What a word stands for in a table.
pub fn find_word<D: Copy>(table: &[(&[u8], D)], word: &[u8]) -> Option<D>
    ensures { result ≡ named (map (λ entry. (entry.0.now, entry.1)) table.now) word.now }
{
    for (entry, meaning) in table {
        if word == *entry {
            return Some(*meaning);
        }
    }
    None
}

/// The field begins with `-`.
pub fn is_option(field: &[u8]) -> bool
    ensures { result ≡ is_option field.now }
{
    matches!(field, [b'-', ..])
}

/// What is wrong with a field that is none of the options that may stand there: `UnknownDirective` where it begins with `-`,
/// else `ExtraField`.
pub fn no_option(field: &[u8]) -> ConfFault
    ensures { result ≡ no_option field.now }
{
    if is_option(field) {
        ConfFault::UnknownDirective
    } else {
        ConfFault::ExtraField
    }
}

/// The option of a table that a field is, else as `no_option` says.
pub fn option_named<D: Copy>(table: &[(&[u8], D)], field: &[u8]) -> Result<D, ConfFault>
    ensures { result ≡ option_named (map (λ entry. (entry.0.now, entry.1)) table.now) field.now }
{
    match find_word(table, field) {
        Some(option) => Ok(option),
        None => Err(no_option(field)),
    }
}

/// What a field that is one of some words says, else `BadValue`.
pub fn word_value<D: Copy>(table: &[(&[u8], D)], field: &[u8]) -> Result<D, ConfFault>
    ensures { result ≡ word_value (map (λ entry. (entry.0.now, entry.1)) table.now) field.now }
{
    match find_word(table, field) {
        Some(value) => Ok(value),
        None => Err(ConfFault::BadValue),
    }
}

/// Where the test holds, this fault.
pub fn refuse_if(test: bool, fault: ConfFault) -> Result<(), ConfFault>
    ensures { result ≡ refuse_if test fault }
{
    if test { Err(fault) } else { Ok(()) }
}
