//! The lines of recycler.cmd.

ghost use Rattle.std.specs.Prelude.{◌≡◌, ◌∷◌, codes, IfOk, option_map};
ghost use Rattle.std.specs.Str.{bytes_eq};
ghost use Rattle.site_text.specs.Fields.{Gives};
ghost use Rattle.site_text.specs.Words.{option_named};
ghost use Rattle.site_text.specs.FormSteps.{read_form};
ghost use Rattle.site_text.specs.DirectiveSteps.{read_directive};
ghost use Rattle.daemon_cmds.specs.RecyclerRules.{no_recycle_form, recycler_words, recycler_names};
ghost use Rattle.daemon_cmds.specs.RecyclerSteps.{is_no_recycle, recycle_words, library_at, library_line, read_recycler_line};

use crate::recycler_conf::{NoRecycle, RecycleOption, RecyclerReading};
use crate::site_conf::Library;
use crate::site_lines::library_place;
use base::{Bytes, FIELD_NUMBER_MAX, FIELD_SIZE_MAX, List};
use site_text::{
    ConfFault, Fields, Line, LineError, OptionTable, TableOption, is_media, number_value,
    option_named, read_ignored, read_options, size_value, value_line,
};
use std::alloc::{AllocError, Global};

/// An option of a library's line that takes a value.
#[derive(Clone, Copy, PartialEq, Eq)]
pub enum ValuedOption {
    Hwm,
    MinGain,
    VsnCount,
    DataQuantity,
    Mail,
}

/// An option of a library's line.
#[derive(Clone, Copy, PartialEq, Eq)]
pub enum RecycleWord {
    Ignore,
    Valued(ValuedOption),
}

const WORDS: [(&[u8], RecycleWord); 6] = [
    (b"-hwm", RecycleWord::Valued(ValuedOption::Hwm)),
    (b"-mingain", RecycleWord::Valued(ValuedOption::MinGain)),
    (b"-vsncount", RecycleWord::Valued(ValuedOption::VsnCount)),
    (
        b"-dataquantity",
        RecycleWord::Valued(ValuedOption::DataQuantity),
    ),
    (b"-ignore", RecycleWord::Ignore),
    (b"-mail", RecycleWord::Valued(ValuedOption::Mail)),
];

fn word_named(field: &[u8]) -> Result<RecycleWord, ConfFault>
    ensures { result ≡ option_named recycle_words field.now }
{
    option_named(&WORDS, field)
}

/// The options of a library's line.
#[derive(Drop)]
struct RecycleOptions;

impl OptionTable for RecycleOptions {
    ghost use Rattle.daemon_cmds.specs.RecyclerRules.{recycle_options};
    ghost use Rattle.daemon_cmds.specs.RecyclerSteps.{value_of};

    type Word = ValuedOption;

    type Given = RecycleOption;

    ghost options = { λ table. recycle_options };

    ghost value_of = { λ table. value_of };

    fn option(
        &self,
        _alloc: Global,
        field: &[u8],
    ) -> Result<TableOption<RecycleOption, ValuedOption>, LineError> {
        match word_named(field) {
            Ok(RecycleWord::Ignore) => Ok(TableOption::Alone(RecycleOption::Ignore)),
            Ok(RecycleWord::Valued(option)) => Ok(TableOption::WithValue(option)),
            Err(fault) => Err(LineError::Fault(fault)),
        }
    }

    fn value(
        &self,
        _alloc: Global,
        word: ValuedOption,
        field: &[u8],
    ) -> Result<RecycleOption, LineError> {
        match word {
            ValuedOption::Hwm => Ok(RecycleOption::Hwm(number_value(0, 100, field)?)),
            ValuedOption::MinGain => Ok(RecycleOption::MinGain(number_value(0, 100, field)?)),
            ValuedOption::VsnCount => {
                Ok(RecycleOption::VsnCount(number_value(0, FIELD_NUMBER_MAX, field)?))
            }
            ValuedOption::DataQuantity => Ok(RecycleOption::DataQuantity(size_value(
                0,
                FIELD_SIZE_MAX,
                field,
            )?)),
            ValuedOption::Mail => Ok(RecycleOption::Nothing),
        }
    }

    fn excludes(&self, _before: &[RecycleOption], _given: &RecycleOption) -> bool {
        false
    }
}

fn is_no_recycle(word: &[u8]) -> bool
    ensures { result ≡ is_no_recycle word.now }
{
    word == b"no_recycle".as_slice()
}

fn is_logfile(name: &[u8]) -> bool
    ensures { result ≡ bytes_eq name.now (codes "logfile") }
{
    name == b"logfile".as_slice()
}

/// Copies of these fields.
pub fn copies_of(alloc: Global, fields: &[Bytes]) -> Result<List<Bytes>, AllocError>
    ensures { IfOk result (λ copies. copies ≡ fields.now) }
{
    let mut copies = List::new(alloc);
    for field in fields {
        copies.push(field.copy()?)?;
    }
    Ok(copies)
}

/// What a media type and patterns behind `no_recycle` say. `BadValue` where it is no media type, `MissingField` where there is no
/// pattern.
#[tactic(auto, unfolding(site_text::specs::Fields::next_field))]
fn volumes_line(
    alloc: Global,
    line: u32,
    media: &[u8],
    patterns: &[Bytes],
) -> Result<RecyclerReading, LineError>
    ensures { Gives (λ r. r) result (read_form (no_recycle_form line) (media.now ∷ patterns.now)) }
{
    if !is_media(media) {
        return Err(LineError::Fault(ConfFault::BadValue));
    }
    if patterns.is_empty() {
        return Err(LineError::Fault(ConfFault::MissingField));
    }
    let media = Bytes::from_slice(alloc, media)?;
    let patterns = copies_of(alloc, patterns)?;
    Ok(RecyclerReading::NoRecycle(NoRecycle {
        line,
        media,
        patterns,
    }))
}

/// What the fields behind `no_recycle` say.
#[tactic(auto, unfolding(site_text::specs::Fields::next_field))]
fn no_recycle_line(alloc: Global, line: u32, fields: &[Bytes]) -> Result<RecyclerReading, LineError>
    ensures { Gives (λ r. r) result (read_form (no_recycle_form line) fields.now) }
{
    match fields {
        [media, patterns @ ..] => volumes_line(alloc, line, media.as_slice(), patterns),
        [] => Err(LineError::Fault(ConfFault::MissingField)),
    }
}

/// What a line says that begins with no library.
#[tactic(auto, unfolding(site_text::specs::DirectiveSteps::form_by))]
fn other_line(alloc: Global, line: u32, fields: &[Bytes]) -> Result<RecyclerReading, LineError>
    ensures { Gives (λ r. r) result (read_directive recycler_names (recycler_words line) fields.now) }
{
    let [first, rest @ ..] = fields else {
        return Err(LineError::Fault(ConfFault::MissingField));
    };
    let Some((name, values)) = value_line(fields) else {
        if is_no_recycle(first.as_slice()) {
            return no_recycle_line(alloc, line, rest);
        }
        return Err(LineError::Fault(ConfFault::UnknownDirective));
    };
    if name.is_empty() {
        return Err(LineError::Fault(ConfFault::MissingField));
    }
    if is_logfile(name) {
        Ok(read_ignored(values, RecyclerReading::Nothing)?)
    } else {
        Err(LineError::Fault(ConfFault::UnknownDirective))
    }
}

/// The place of the library with whose name the line begins, and the fields behind it.
fn library_at<'a>(libraries: &[Library], fields: &'a [Bytes]) -> Option<(usize, &'a [Bytes])>
    ensures { option_map (λ library. (library.0, library.1.now)) result ≡ library_at libraries.now fields.now }
{
    let [first, rest @ ..] = fields else {
        return None;
    };
    if value_line(fields).is_some() || is_no_recycle(first.as_slice()) {
        return None;
    }
    match library_place(libraries, first.as_slice()) {
        Some(place) => Some((place, rest)),
        None => None,
    }
}

fn library_line(alloc: Global, place: usize, fields: &[Bytes]) -> Result<RecyclerReading, LineError>
    ensures { Gives (λ r. r) result (library_line (place, fields.now)) }
{
    let mut options = List::new(alloc);
    match read_options::<RecycleOptions>(
        alloc,
        &RecycleOptions,
        &mut options,
        Fields::new(fields),
    ) {
        Ok(()) => Ok(RecyclerReading::Library(place, options)),
        Err(error) => Err(error),
    }
}

/// What a line says, in a site with these libraries.
pub fn read_recycler_line(
    alloc: Global,
    libraries: &[Library],
    line: &Line,
) -> Result<RecyclerReading, LineError>
    ensures { Gives (λ r. r) result (read_recycler_line libraries.now line.now.number line.now.fields) }
{
    let fields = line.fields.as_slice();
    match library_at(libraries, fields) {
        Some((place, rest)) => library_line(alloc, place, rest),
        None => other_line(alloc, line.number, fields),
    }
}
