//! The lines of site.conf.

ghost use Rattle.std.specs.Prelude.{◌≡◌, ◌<◌, length, position, IfSome};
ghost use Rattle.site_text.specs.Fields.{Gives, map_read};
ghost use Rattle.site_text.specs.Words.{named};
ghost use Rattle.site_text.specs.FormSteps.{read_form};
ghost use Rattle.site_text.specs.DirectiveSteps.{read_by};
ghost use Rattle.daemon_cmds.specs.BarSteps.{barred_by};
ghost use Rattle.daemon_cmds.specs.SiteRules.{library_place, new_library, known_library, has_vsn, new_vsn, low_above, above_high, high_value, low_value};
ghost use Rattle.daemon_cmds.specs.SiteSteps.{site_words, form_of, bar_of, form_by_word, bar_by_word, none_by_word, line_by_words};
ghost use Rattle.daemon_cmds.specs.declared.site_lines.SiteDirective.TheVariants as directives;

use crate::site_conf::{Library, SiteReading, SiteSoFar, Volume};
use base::{Bytes, CACHE_BLOCKS_MAX, NAME_MAX, VOLUME_COUNT_MAX};
use site_text::{
    ConfFault, Fields, LineError, find_word, is_media, is_name, multiple_value, number_value,
    refuse_if, value_line,
};
use std::alloc::Global;

/// The limit on the size of a cache, in bytes.
const MOST_CACHE: u64 = CACHE_BLOCKS_MAX as u64 * 4096;

/// The limit on the capacity of a volume, in bytes.
const MOST_CAPACITY: u64 = 1 << 45;

/// The limit on the number of libraries.
const MOST_LIBRARIES: usize = 64;

/// A directive of site.conf.
#[derive(Clone, Copy, PartialEq, Eq)]
pub enum SiteDirective {
    FileSystem,
    Cache,
    High,
    Low,
    Library,
    Volume,
}

const DIRECTIVES: [(&[u8], SiteDirective); 6] = [
    (b"fs", SiteDirective::FileSystem),
    (b"cache", SiteDirective::Cache),
    (b"high", SiteDirective::High),
    (b"low", SiteDirective::Low),
    (b"library", SiteDirective::Library),
    (b"volume", SiteDirective::Volume),
];

fn directive_named(name: &[u8]) -> Option<SiteDirective>
    ensures { result ≡ named site_words name.now }
{
    find_word(&DIRECTIVES, name)
}

/// The place of the library with this name, from 0, if there is one.
pub fn library_place(libraries: &[Library], name: &[u8]) -> Option<usize>
    ensures value { result ≡ library_place libraries.now name.now }
    ensures within { IfSome result (λ place. place < length libraries.now) }
{
    libraries.iter().position(|l| l.name.as_slice() == name)
}

fn has_vsn(volumes: &[Volume], vsn: &[u8]) -> bool
    ensures { result ≡ has_vsn volumes.now vsn.now }
{
    volumes.iter().any(|v| v.vsn.as_slice() == vsn)
}

#[tactic(auto, unfolding(crate::specs::SiteRules::new_library))]
fn new_library<'a>(libraries: &[Library], name: &'a [u8]) -> Result<&'a [u8], ConfFault>
    ensures { map_read (λ n. n.now) result ≡ new_library libraries.now name.now }
{
    refuse_if(!is_name(NAME_MAX, name), ConfFault::BadValue)?;
    refuse_if(
        library_place(libraries, name).is_some(),
        ConfFault::Duplicate,
    )?;
    Ok(name)
}

#[tactic(auto, unfolding(crate::specs::SiteRules::known_library))]
fn known_library(libraries: &[Library], name: &[u8]) -> Result<usize, ConfFault>
    ensures { result ≡ known_library libraries.now name.now }
{
    refuse_if(!is_name(NAME_MAX, name), ConfFault::BadValue)?;
    library_place(libraries, name).ok_or(ConfFault::Conflict)
}

#[tactic(auto, unfolding(crate::specs::SiteRules::new_vsn))]
fn new_vsn<'a>(volumes: &[Volume], vsn: &'a [u8]) -> Result<&'a [u8], ConfFault>
    ensures { map_read (λ n. n.now) result ≡ new_vsn volumes.now vsn.now }
{
    refuse_if(!is_name(NAME_MAX, vsn), ConfFault::BadValue)?;
    refuse_if(has_vsn(volumes, vsn), ConfFault::Duplicate)?;
    Ok(vsn)
}

fn low_above(low: Option<u32>, high: u32) -> bool
    ensures { result ≡ low_above low high }
{
    match low {
        Some(low) => low > high,
        None => false,
    }
}

fn above_high(high: Option<u32>, low: u32) -> bool
    ensures { result ≡ above_high high low }
{
    match high {
        Some(high) => low > high,
        None => false,
    }
}

/// A high mark, which may not be below the low mark where one is given.
#[tactic(auto, unfolding(crate::specs::SiteRules::high_value))]
fn high_value(low: Option<u32>, field: &[u8]) -> Result<u32, ConfFault>
    ensures { result ≡ high_value low field.now }
{
    let high = number_value(0, 100, field)?;
    refuse_if(low_above(low, high), ConfFault::Conflict)?;
    Ok(high)
}

/// A low mark, which may not be above the high mark where one is given.
#[tactic(auto, unfolding(crate::specs::SiteRules::low_value))]
fn low_value(high: Option<u32>, field: &[u8]) -> Result<u32, ConfFault>
    ensures { result ≡ low_value high field.now }
{
    let low = number_value(0, 100, field)?;
    refuse_if(above_high(high, low), ConfFault::Conflict)?;
    Ok(low)
}

fn file_system_line(
    alloc: Global,
    known: &SiteSoFar,
    values: Fields,
) -> Result<SiteReading, LineError>
    ensures { Gives (λ r. r) result (read_form (form_of known.now directives.FileSystem) values.entry) }
{
    let mut values = values;
    let name = values.next()?;
    if !is_name(NAME_MAX, name) {
        return Err(LineError::Fault(ConfFault::BadValue));
    }
    values.end()?;
    Ok(SiteReading::FileSystem(Bytes::from_slice(alloc, name)?))
}

fn cache_line(known: &SiteSoFar, values: Fields) -> Result<SiteReading, ConfFault>
    ensures { result ≡ read_form (form_of known.now directives.Cache) values.entry }
{
    let mut values = values;
    let size = values.next()?;
    let size = multiple_value(4096, 4096, MOST_CACHE, size)?;
    values.end()?;
    Ok(SiteReading::Cache(size))
}

fn high_line(known: &SiteSoFar, values: Fields) -> Result<SiteReading, ConfFault>
    ensures { result ≡ read_form (form_of known.now directives.High) values.entry }
{
    let mut values = values;
    let mark = values.next()?;
    let mark = high_value(known.low, mark)?;
    values.end()?;
    Ok(SiteReading::High(mark))
}

fn low_line(known: &SiteSoFar, values: Fields) -> Result<SiteReading, ConfFault>
    ensures { result ≡ read_form (form_of known.now directives.Low) values.entry }
{
    let mut values = values;
    let mark = values.next()?;
    let mark = low_value(known.high, mark)?;
    values.end()?;
    Ok(SiteReading::Low(mark))
}

fn library_line(alloc: Global, known: &SiteSoFar, values: Fields) -> Result<SiteReading, LineError>
    ensures { Gives (λ r. r) result (read_form (form_of known.now directives.Library) values.entry) }
{
    let mut values = values;
    let name = values.next()?;
    let name = new_library(known.libraries.as_slice(), name)?;
    let drives = values.next()?;
    let drives = number_value(1, 64, drives)?;
    values.end()?;
    let name = Bytes::from_slice(alloc, name)?;
    Ok(SiteReading::Library(Library { name, drives }))
}

fn volume_line(alloc: Global, known: &SiteSoFar, values: Fields) -> Result<SiteReading, LineError>
    ensures { Gives (λ r. r) result (read_form (form_of known.now directives.Volume) values.entry) }
{
    let mut values = values;
    let library = values.next()?;
    let library = known_library(known.libraries.as_slice(), library)?;
    let media = values.next()?;
    if !is_media(media) {
        return Err(LineError::Fault(ConfFault::BadValue));
    }
    let vsn = values.next()?;
    let vsn = new_vsn(known.volumes.as_slice(), vsn)?;
    let capacity = values.next()?;
    let capacity = multiple_value(512, 512, MOST_CAPACITY, capacity)?;
    values.end()?;
    let media = Bytes::from_slice(alloc, media)?;
    let vsn = Bytes::from_slice(alloc, vsn)?;
    Ok(SiteReading::Volume(Volume {
        library,
        media,
        vsn,
        capacity,
    }))
}

/// Why the directive may not stand here, whatever its values are, if so: `Duplicate` for a second one of those that stand once,
/// `TooMany` for a library behind 64 others and a volume behind 1,024.
fn site_bar(known: &SiteSoFar, directive: SiteDirective) -> Option<ConfFault>
    ensures { result ≡ bar_of known.now directive }
{
    let (barred, fault) = match directive {
        SiteDirective::FileSystem => (known.name.is_some(), ConfFault::Duplicate),
        SiteDirective::Cache => (known.cache.is_some(), ConfFault::Duplicate),
        SiteDirective::High => (known.high.is_some(), ConfFault::Duplicate),
        SiteDirective::Low => (known.low.is_some(), ConfFault::Duplicate),
        SiteDirective::Library => (known.libraries.len() >= MOST_LIBRARIES, ConfFault::TooMany),
        SiteDirective::Volume => (known.volumes.len() >= VOLUME_COUNT_MAX, ConfFault::TooMany),
    };
    if barred { Some(fault) } else { None }
}

fn barred(known: &SiteSoFar, fields: &[Bytes]) -> Option<ConfFault>
    ensures { result ≡ barred_by (bar_by_word known.now) fields.now }
{
    match value_line(fields) {
        Some((name, _)) => match directive_named(name) {
            Some(directive) => site_bar(known, directive),
            None => None,
        },
        None => None,
    }
}

#[tactic(auto, unfolding(site_text::specs::DirectiveSteps::form_by))]
fn read_values(alloc: Global, known: &SiteSoFar, fields: &[Bytes]) -> Result<SiteReading, LineError>
    ensures { Gives (λ r. r) result (read_by (form_by_word known.now) none_by_word fields.now) }
{
    let [_, ..] = fields else {
        return Err(LineError::Fault(ConfFault::MissingField));
    };
    let Some((name, values)) = value_line(fields) else {
        return Err(LineError::Fault(ConfFault::UnknownDirective));
    };
    if name.is_empty() {
        return Err(LineError::Fault(ConfFault::MissingField));
    }
    match directive_named(name) {
        Some(SiteDirective::FileSystem) => file_system_line(alloc, known, values),
        Some(SiteDirective::Cache) => Ok(cache_line(known, values)?),
        Some(SiteDirective::High) => Ok(high_line(known, values)?),
        Some(SiteDirective::Low) => Ok(low_line(known, values)?),
        Some(SiteDirective::Library) => library_line(alloc, known, values),
        Some(SiteDirective::Volume) => volume_line(alloc, known, values),
        None => Err(LineError::Fault(ConfFault::UnknownDirective)),
    }
}

/// What a line says, by what the lines before it told.
pub fn read_site_line(
    alloc: Global,
    known: &SiteSoFar,
    fields: &[Bytes],
) -> Result<SiteReading, LineError>
    ensures { Gives (λ r. r) result (line_by_words known.now fields.now) }
{
    match barred(known, fields) {
        Some(fault) => Err(LineError::Fault(fault)),
        None => read_values(alloc, known, fields),
    }
}
