//! The whole of an archiver.cmd.

ghost use Rattle.std.specs.Prelude.{◌≤◌, ℕ, List as Seq, length};
ghost use Rattle.site_text.specs.FileRules.{FileAnswers};
ghost use Rattle.archiver_lines.specs.LineSteps.{line_of};
ghost use Rattle.archiver_lines.specs.LineRules.{LineSays, LineWrong};
ghost use Rattle.archiver_lines.specs.Told.{open_line};
ghost use Rattle.archiver_cmd.specs.Conf.{Tells};
ghost use Rattle.site_text.specs.OneMeaning.{SaysOneThing};

use crate::conf::{ArchiverConf, conf_of};
use archiver_lines::{Known, Reading, read_line};
use base::COMMAND_FILE_MAX;
use site_text::{CommandFile, ConfError, Line, LineError, each_text_says_one_thing, read_file};
use std::alloc::{AllocError, Global};

/// The archiver.cmd of a site with this file system.
#[derive(Drop)]
struct ArchiverFile<'a> {
    site: &'a [u8],
}

impl CommandFile for ArchiverFile<'_> {
    ghost use Rattle.archiver_lines.specs.LineSteps.{line_of};
    ghost use Rattle.archiver_lines.specs.LineRules.{LineSays, LineWrong};
    ghost use Rattle.archiver_lines.specs.Told.{open_line};
    ghost use Rattle.archiver_lines.specs.KnownSteps.{Knows};
    ghost use Rattle.archiver_lines.proofs.LineLaws.{line_said, line_read, line_wrong, line_refused};

    type Reading = Reading;

    type Known = Known;

    ghost line_of = { λ file. line_of file.site.now };

    ghost line_says = { λ file. LineSays file.site.now };

    ghost line_wrong = { λ file. LineWrong file.site.now };

    ghost open_section = { λ file. open_line };

    ghost tells = { λ file. Knows file.site.now };

    fn start(&self, alloc: Global) -> Result<Known, AllocError> {
        Ok(Known::new(alloc))
    }

    fn read_line(&self, alloc: Global, known: &Known, line: &Line) -> Result<Reading, LineError> {
        read_line(alloc, self.site, known, line)
    }

    fn add(&self, known: &mut Known, reading: Reading) -> Result<(), AllocError> {
        known.add(self.site, reading)
    }

    fn open_section(&self, known: &Known) -> Option<u32> {
        match known.opened {
            Some(opened) => Some(opened.line),
            None => None,
        }
    }

    ghost reads_what_is_said = { λ file before line reading. (line_said file.site.now before line reading, line_read file.site.now before line reading) };

    ghost refuses_what_is_wrong = { λ file before line fault. (line_wrong file.site.now before line fault, line_refused file.site.now before line fault) };
}

/// What a text of at most 65,536 bytes says as the archiver.cmd of a site whose file system has this name, or its first bad line
/// and what is wrong with it.
pub fn read_archiver(alloc: Global, text: &[u8], fs: &[u8]) -> Result<ArchiverConf, ConfError>
    requires { length text.now ≤ COMMAND_FILE_MAX }
    ensures { FileAnswers (LineSays fs.now) (LineWrong fs.now) open_line (Tells fs.now) text.now result }
{
    match read_file(alloc, &ArchiverFile { site: fs }, text) {
        Ok(known) => match conf_of(alloc, fs, known) {
            Ok(conf) => Ok(conf),
            Err(_) => Err(ConfError::NoMemory),
        },
        Err(error) => Err(error),
    }
}

/// Each text says one list of readings as the archiver.cmd of a site with this file system, or has one refusal, and not both.
pub fn each_archiver_says_one_thing(fs: &[u8])
    ensures { (text : Seq ℕ) → SaysOneThing (line_of fs.now) (LineSays fs.now) (LineWrong fs.now) open_line text }
{
    each_text_says_one_thing::<ArchiverFile>(&ArchiverFile { site: fs })
}
