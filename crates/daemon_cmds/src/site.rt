//! Reading site.conf.

ghost use Rattle.std.specs.List.{All};
ghost use Rattle.std.specs.Prelude.{◌≡◌, ◌≤◌, ◌<◌, ℕ, length, List as Seq, OnOk, IfOk, unwrap_or};
ghost use Rattle.site_text.specs.FileRules.{FileAnswers, no_section};
ghost use Rattle.site_text.specs.OneMeaning.{SaysOneThing};
ghost use Rattle.daemon_cmds.specs.declared.site_conf.SiteReading.{SiteReading};
ghost use Rattle.daemon_cmds.specs.SiteTold.{TellsSite, default_name};
ghost use Rattle.daemon_cmds.specs.SiteRules.{SiteLineSays, SiteLineWrong};
ghost use Rattle.daemon_cmds.specs.SiteSteps.{site_line, KnowsSite, with_site_reading};

use crate::site_conf::{SiteConf, SiteReading, SiteSoFar};
use crate::site_lines::read_site_line;
use base::{Bytes, COMMAND_FILE_MAX, List};
use site_text::{CommandFile, ConfError, Line, LineError, each_text_says_one_thing, read_file};
use std::alloc::{AllocError, Global};

/// The defaults: of the cache in bytes, of the marks in percent of it.
const DEFAULT_CACHE: u64 = 1 << 26;

const DEFAULT_HIGH: u32 = 80;

const DEFAULT_LOW: u32 = 70;

/// One line told this too.
fn add_reading(known: &mut SiteSoFar, reading: SiteReading) -> Result<(), AllocError>
    ensures { OnOk result (known.new ≡ with_site_reading known.old reading) }
{
    match reading {
        SiteReading::FileSystem(name) => known.name = Some(name),
        SiteReading::Cache(size) => known.cache = Some(size),
        SiteReading::High(mark) => known.high = Some(mark),
        SiteReading::Low(mark) => known.low = Some(mark),
        SiteReading::Library(library) => known.libraries.push(library)?,
        SiteReading::Volume(volume) => known.volumes.push(volume)?,
    }
    Ok(())
}

#[derive(Drop)]
struct SiteFile;

impl CommandFile for SiteFile {
    ghost use Rattle.site_text.specs.FileRules.{no_section};
    ghost use Rattle.site_text.specs.Directives.{no_words};
    ghost use Rattle.daemon_cmds.specs.SiteRules.{SiteLineSays, SiteLineWrong, site_bars, site_forms};
    ghost use Rattle.daemon_cmds.specs.SiteSteps.{site_line, KnowsSite};
    ghost use Rattle.daemon_cmds.specs.BarLaws.{barred_said, barred_wrong, barred_read, barred_refused};

    type Reading = SiteReading;

    type Known = SiteSoFar;

    ghost line_of = { λ file. site_line };

    ghost line_says = { λ file. SiteLineSays };

    ghost line_wrong = { λ file. SiteLineWrong };

    ghost open_section = { λ file. no_section };

    ghost tells = { λ file. KnowsSite };

    fn start(&self, alloc: Global) -> Result<SiteSoFar, AllocError> {
        Ok(SiteSoFar {
            name: None,
            cache: None,
            high: None,
            low: None,
            libraries: List::new(alloc),
            volumes: List::new(alloc),
        })
    }

    fn read_line(
        &self,
        alloc: Global,
        known: &SiteSoFar,
        line: &Line,
    ) -> Result<SiteReading, LineError> {
        read_site_line(alloc, known, line.fields.as_slice())
    }

    fn add(&self, known: &mut SiteSoFar, reading: SiteReading) -> Result<(), AllocError> {
        add_reading(known, reading)
    }

    fn open_section(&self, _known: &SiteSoFar) -> Option<u32> {
        None
    }

    ghost reads_what_is_said = { λ file before line reading. (barred_said (site_bars before) (site_forms before) no_words line.fields reading, barred_read (site_bars before) (site_forms before) no_words line.fields reading) };

    ghost refuses_what_is_wrong = { λ file before line fault. (barred_wrong (site_bars before) (site_forms before) no_words line.fields fault, barred_refused (site_bars before) (site_forms before) no_words line.fields fault) };
}

/// The name of the file system where none is given.
fn named_or_default(alloc: Global, name: Option<Bytes>) -> Result<Bytes, AllocError>
    ensures { IfOk result (λ n. n ≡ unwrap_or name default_name) }
{
    match name {
        Some(name) => Ok(name),
        None => Bytes::from_slice(alloc, b"samfs1"),
    }
}

/// The configuration, with the defaults of what no line told.
fn with_defaults(alloc: Global, known: SiteSoFar) -> Result<SiteConf, AllocError>
    ensures { (said : Seq SiteReading) → KnowsSite said known → IfOk result (TellsSite said) }
{
    let SiteSoFar {
        name,
        cache,
        high,
        low,
        libraries,
        volumes,
    } = known;
    Ok(SiteConf {
        name: named_or_default(alloc, name)?,
        cache: cache.unwrap_or(DEFAULT_CACHE),
        high: high.unwrap_or(DEFAULT_HIGH),
        low: low.unwrap_or(DEFAULT_LOW),
        libraries,
        volumes,
    })
}

/// The site that a text of site.conf says, or its first wrong line and what is wrong with it. An empty text says the default
/// site: file system `samfs1`, a cache of 64 MiB, marks at 80 and 70 percent, no library and no volume.
pub fn read_site(alloc: Global, text: &[u8]) -> Result<SiteConf, ConfError>
    requires { length text.now ≤ COMMAND_FILE_MAX }
    ensures answer { FileAnswers SiteLineSays SiteLineWrong no_section TellsSite text.now result }
    ensures known_libraries { IfOk result (λ site. All (λ v. v.library < length site.libraries) site.volumes) }
{
    match read_file(alloc, &SiteFile, text) {
        Ok(known) => Ok(with_defaults(alloc, known)?),
        Err(error) => Err(error),
    }
}

/// Each text says one list of readings of site.conf, or has one refusal, and not both.
pub fn each_site_says_one_thing()
    ensures { (text : Seq ℕ) → SaysOneThing site_line SiteLineSays SiteLineWrong no_section text }
{
    each_text_says_one_thing::<SiteFile>(&SiteFile)
}
