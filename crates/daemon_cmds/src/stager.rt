//! Reading stager.cmd.

ghost use Rattle.std.specs.Prelude.{◌≡◌, ◌≤◌, ℕ, List as Seq, length, map, IfOk};
ghost use Rattle.site_text.specs.FileRules.{FileAnswers, no_section};
ghost use Rattle.site_text.specs.OneMeaning.{SaysOneThing};
ghost use Rattle.daemon_cmds.specs.StagerTold.{TellsStager, default_copysel};
ghost use Rattle.daemon_cmds.specs.StagerRules.{StagerLineSays, StagerLineWrong};
ghost use Rattle.daemon_cmds.specs.StagerSteps.{stager_line, with_stager_reading};

use crate::site_conf::{Library, SiteConf};
use crate::stager_conf::{StagerConf, StagerReading};
use crate::stager_lines::read_stager_line;
use base::{COMMAND_FILE_MAX, List};
use site_text::{CommandFile, ConfError, Line, LineError, each_text_says_one_thing, read_file};
use std::alloc::{AllocError, Global};

/// The drives of each library.
fn drives_of(alloc: Global, libraries: &[Library]) -> Result<List<u32>, AllocError>
    ensures { IfOk result (λ d. d ≡ map (λ l. l.drives) libraries.now) }
{
    let mut drives = List::new(alloc);
    for library in libraries {
        drives.push(library.drives)?;
    }
    Ok(drives)
}

/// The limit on the stage queue where none is given.
const DEFAULT_MAXACTIVE: u32 = 4000;

fn default_copysel(alloc: Global) -> Result<List<u8>, AllocError>
    ensures { IfOk result (λ c. c ≡ default_copysel) }
{
    let mut copies = List::new(alloc);
    copies.push(1)?;
    copies.push(2)?;
    copies.push(3)?;
    copies.push(4)?;
    Ok(copies)
}

/// One line told this too.
fn add_reading(known: &mut StagerConf, reading: StagerReading)
    ensures { known.new ≡ with_stager_reading known.old reading }
{
    match reading {
        StagerReading::Drives(library, drives) => {
            if library < known.drives.len() {
                known.drives.set(library, drives)
            }
        }
        StagerReading::MaxActive(most) => known.maxactive = most,
        StagerReading::CopySel(copies) => known.copysel = copies,
        StagerReading::Nothing => {}
    }
}

#[derive(Drop)]
struct StagerFile<'a> {
    site: &'a SiteConf,
}

impl CommandFile for StagerFile<'_> {
    ghost use Rattle.site_text.specs.FileRules.{no_section};
    ghost use Rattle.site_text.specs.Directives.{no_words};
    ghost use Rattle.daemon_cmds.specs.StagerTold.{TellsStager};
    ghost use Rattle.daemon_cmds.specs.StagerRules.{stager_forms, StagerLineSays, StagerLineWrong};
    ghost use Rattle.daemon_cmds.specs.StagerSteps.{stager_line};
    ghost use Rattle.site_text.proofs.FormLaws.{directive_said, directive_wrong, directive_read, directive_refused};

    type Reading = StagerReading;

    type Known = StagerConf;

    ghost line_of = { λ file. stager_line file.site.now };

    ghost line_says = { λ file. StagerLineSays file.site.now };

    ghost line_wrong = { λ file. StagerLineWrong file.site.now };

    ghost open_section = { λ file. no_section };

    ghost tells = { λ file. TellsStager file.site.now };

    fn start(&self, alloc: Global) -> Result<StagerConf, AllocError> {
        Ok(StagerConf {
            drives: drives_of(alloc, self.site.libraries.as_slice())?,
            maxactive: DEFAULT_MAXACTIVE,
            copysel: default_copysel(alloc)?,
        })
    }

    fn read_line(
        &self,
        alloc: Global,
        _known: &StagerConf,
        line: &Line,
    ) -> Result<StagerReading, LineError> {
        read_stager_line(
            alloc,
            self.site.libraries.as_slice(),
            line.fields.as_slice(),
        )
    }

    fn add(&self, known: &mut StagerConf, reading: StagerReading) -> Result<(), AllocError> {
        add_reading(known, reading);
        Ok(())
    }

    fn open_section(&self, _known: &StagerConf) -> Option<u32> {
        None
    }

    ghost reads_what_is_said = { λ file before line reading. (directive_said (stager_forms file.site.now.libraries) no_words line.fields reading, directive_read (stager_forms file.site.now.libraries) no_words line.fields reading) };

    ghost refuses_what_is_wrong = { λ file before line fault. (directive_wrong (stager_forms file.site.now.libraries) no_words line.fields fault, directive_refused (stager_forms file.site.now.libraries) no_words line.fields fault) };
}

/// What a text of stager.cmd says in this site, or its first wrong line and what is wrong with it. An empty text says that all
/// drives of each library stage, up to 4,000 files in the queue, and the copies in the order 1 to 4.
pub fn read_stager(alloc: Global, text: &[u8], site: &SiteConf) -> Result<StagerConf, ConfError>
    requires { length text.now ≤ COMMAND_FILE_MAX }
    ensures answer { FileAnswers (StagerLineSays site.now) (StagerLineWrong site.now) no_section (TellsStager site.now) text.now result }
    ensures each_library { IfOk result (λ conf. length conf.drives ≡ length site.now.libraries) }
{
    read_file(alloc, &StagerFile { site }, text)
}

/// Each text says one list of readings of stager.cmd in this site, or has one refusal, and not both.
pub fn each_stager_says_one_thing(site: &SiteConf)
    ensures { (text : Seq ℕ) → SaysOneThing (stager_line site.now) (StagerLineSays site.now) (StagerLineWrong site.now) no_section text }
{
    each_text_says_one_thing::<StagerFile>(&StagerFile { site })
}
