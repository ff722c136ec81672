//! Reading recycler.cmd.

ghost use Rattle.std.specs.Prelude.{◌≡◌, ◌≤◌, ℕ, [], List as Seq, length, map, OnOk, IfOk};
ghost use Rattle.site_text.specs.FileRules.{FileAnswers, no_section};
ghost use Rattle.site_text.specs.OneMeaning.{SaysOneThing};
ghost use Rattle.daemon_cmds.specs.RecyclerTold.{TellsRecycler, recycling_of};
ghost use Rattle.daemon_cmds.specs.RecyclerRules.{RecyclerLineSays, RecyclerLineWrong};
ghost use Rattle.daemon_cmds.specs.RecyclerSteps.{recycler_line, with_option, with_options, with_recycler_reading};

use crate::recycler_conf::{LibraryRecycling, RecycleOption, RecyclerConf, RecyclerReading};
use crate::recycler_lines::read_recycler_line;
use crate::site_conf::{Library, SiteConf};
use base::{COMMAND_FILE_MAX, List};
use site_text::{CommandFile, ConfError, Line, LineError, each_text_says_one_thing, read_file};
use std::alloc::{AllocError, Global};

/// How a library is recycled for which nothing is given.
fn default_recycling() -> LibraryRecycling
    ensures { result ≡ recycling_of [] }
{
    LibraryRecycling {
        hwm: 95,
        mingain: 60,
        vsncount: 1,
        dataquantity: 1 << 30,
        ignore: false,
    }
}

fn all_default(alloc: Global, libraries: &[Library]) -> Result<List<LibraryRecycling>, AllocError>
    ensures { IfOk result (λ all. all ≡ map (λ l. recycling_of []) libraries.now) }
{
    let mut all = List::new(alloc);
    for _library in libraries {
        all.push(default_recycling())?;
    }
    Ok(all)
}

fn with_option(library: LibraryRecycling, option: RecycleOption) -> LibraryRecycling
    ensures { result ≡ with_option library option }
{
    let mut library = library;
    match option {
        RecycleOption::Hwm(n) => library.hwm = n,
        RecycleOption::MinGain(n) => library.mingain = n,
        RecycleOption::VsnCount(n) => library.vsncount = n,
        RecycleOption::DataQuantity(n) => library.dataquantity = n,
        RecycleOption::Ignore => library.ignore = true,
        RecycleOption::Nothing => {}
    }
    library
}

/// The same with these options, of each of which the last one holds.
fn with_options(library: LibraryRecycling, options: &[RecycleOption]) -> LibraryRecycling
    ensures { result ≡ with_options library options.now }
{
    let mut library = library;
    for option in options {
        library = with_option(library, *option);
    }
    library
}

/// One line told this too.
fn add_reading(known: &mut RecyclerConf, reading: RecyclerReading) -> Result<(), AllocError>
    ensures { OnOk result (known.new ≡ with_recycler_reading known.old reading) }
{
    match reading {
        RecyclerReading::Library(place, options) => {
            let now = known.libraries.as_slice().get(place).copied();
            if let Some(now) = now {
                let now = with_options(now, options.as_slice());
                known.libraries.set(place, now);
            }
        }
        RecyclerReading::NoRecycle(volumes) => known.no_recycle.push(volumes)?,
        RecyclerReading::Nothing => {}
    }
    Ok(())
}

#[derive(Drop)]
struct RecyclerFile<'a> {
    site: &'a SiteConf,
}

impl CommandFile for RecyclerFile<'_> {
    ghost use Rattle.site_text.specs.FileRules.{no_section};
    ghost use Rattle.daemon_cmds.specs.RecyclerTold.{TellsRecycler};
    ghost use Rattle.daemon_cmds.specs.RecyclerRules.{RecyclerLineSays, RecyclerLineWrong};
    ghost use Rattle.daemon_cmds.specs.RecyclerSteps.{recycler_line};
    ghost use Rattle.daemon_cmds.specs.RecyclerLaws.{recycler_said, recycler_wrong, recycler_read, recycler_refused};

    type Reading = RecyclerReading;

    type Known = RecyclerConf;

    ghost line_of = { λ file. recycler_line file.site.now };

    ghost line_says = { λ file. RecyclerLineSays file.site.now };

    ghost line_wrong = { λ file. RecyclerLineWrong file.site.now };

    ghost open_section = { λ file. no_section };

    ghost tells = { λ file. TellsRecycler file.site.now };

    fn start(&self, alloc: Global) -> Result<RecyclerConf, AllocError> {
        Ok(RecyclerConf {
            libraries: all_default(alloc, self.site.libraries.as_slice())?,
            no_recycle: List::new(alloc),
        })
    }

    fn read_line(
        &self,
        alloc: Global,
        _known: &RecyclerConf,
        line: &Line,
    ) -> Result<RecyclerReading, LineError> {
        read_recycler_line(alloc, self.site.libraries.as_slice(), line)
    }

    fn add(&self, known: &mut RecyclerConf, reading: RecyclerReading) -> Result<(), AllocError> {
        add_reading(known, reading)
    }

    fn open_section(&self, _known: &RecyclerConf) -> Option<u32> {
        None
    }

    ghost reads_what_is_said = { λ file before line reading. (recycler_said file.site.now.libraries line.number line.fields reading, recycler_read file.site.now.libraries line.number line.fields reading) };

    ghost refuses_what_is_wrong = { λ file before line fault. (recycler_wrong file.site.now.libraries line.number line.fields fault, recycler_refused file.site.now.libraries line.number line.fields fault) };
}

/// What a text of recycler.cmd says in this site, or its first wrong line and what is wrong with it. A library without a line is
/// recycled from 95 percent on, one volume at a time with a gain of at least 60 percent and 1 GiB of copies to move.
pub fn read_recycler(alloc: Global, text: &[u8], site: &SiteConf) -> Result<RecyclerConf, ConfError>
    requires { length text.now ≤ COMMAND_FILE_MAX }
    ensures answer { FileAnswers (RecyclerLineSays site.now) (RecyclerLineWrong site.now) no_section (TellsRecycler site.now) text.now result }
    ensures each_library { IfOk result (λ conf. length conf.libraries ≡ length site.now.libraries) }
{
    read_file(alloc, &RecyclerFile { site }, text)
}

/// Each text says one list of readings of recycler.cmd in this site, or has one refusal, and not both.
pub fn each_recycler_says_one_thing(site: &SiteConf)
    ensures { (text : Seq ℕ) → SaysOneThing (recycler_line site.now) (RecyclerLineSays site.now) (RecyclerLineWrong site.now) no_section text }
{
    each_text_says_one_thing::<RecyclerFile>(&RecyclerFile { site })
}
