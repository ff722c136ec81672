//! Whole command files, of any kind.

ghost use Rattle.std.specs.Prelude.{◌≡◌, ◌≤◌, ◌<◌, ◌+◌, ◌↔◌, ℕ, List as Seq, [], ◌∷◌, ◌++◌, length, count_by, ◌==◌, ◌⊎◌, Option, Ok, Err, IfOk, OnOk};
ghost use Rattle.site_text.specs.Fields.{Gives};
ghost use Rattle.site_text.specs.FileRules.{FileAnswers, FileLinesAnswer, LinesAnswer, FileSays, FileWrong};
ghost use Rattle.site_text.specs.FileSteps.{LineReader, file_reading};
ghost use Rattle.site_text.specs.Lines.{line_feed, line_of_byte};
ghost use Rattle.site_text.specs.declared.line.Line.{Line};
ghost use Rattle.site_text.specs.declared.fault.ConfFault.{ConfFault};
ghost use Rattle.site_text.specs.declared.fault.ConfRefusal.{ConfRefusal};

use crate::fault::{ConfError, ConfFault, ConfRefusal, LineError};
use crate::line::Line;
use crate::refusal::TextRefusal;
use crate::text_lines::lines;
use base::{COMMAND_FILE_MAX, List};
use std::alloc::{AllocError, Global};

/// A kind of command file, with what it stands on. Its lines are read one after the other, each by what the lines before it
/// said. Lists of readings stand in the order of the file.
pub trait CommandFile {
    /// What a line says.
    type Reading: Drop;

    /// What some lines told, as far as later lines and the configuration want it.
    type Known: Drop;

    // What a line says, after lines that said those before it; read from the left.
    ghost line_of: { Self → LineReader Self.Reading };

    // The same as a relation: a line says this, or this is wrong with it.
    ghost line_says: { Self → Seq Self.Reading → Line → Self.Reading → Type 0 };

    ghost line_wrong: { Self → Seq Self.Reading → Line → ConfFault → Type 0 };

    // The line on which the section began that is open after lines that said these.
    ghost open_section: { Self → Seq Self.Reading → Option ℕ };

    // What lines that said these told.
    ghost tells: { Self → Seq Self.Reading → Self.Known → Type 0 };

    /// What no line told.
    fn start(&self, alloc: Global) -> Result<Self::Known, AllocError>
        ensures { IfOk result (λ known. tells self.now [] known) };

    /// What a line says, or the fault of its first wrong field.
    fn read_line(
        &self,
        alloc: Global,
        known: &Self::Known,
        line: &Line,
    ) -> Result<Self::Reading, LineError>
        ensures { (said : Seq Self.Reading) → tells self.now said known.now → Gives (λ reading. reading) result (line_of self.now said line.now) };

    /// A line said this too.
    fn add(&self, known: &mut Self::Known, reading: Self::Reading) -> Result<(), AllocError>
        ensures { OnOk result ((said : Seq Self.Reading) → tells self.now said known.old → tells self.now (said ++ reading ∷ []) known.new) };

    /// The line on which the section began that is open, if one is.
    fn open_section(&self, known: &Self::Known) -> Option<u32>
        ensures { (said : Seq Self.Reading) → tells self.now said known.now → result ≡ open_section self.now said };

    // Reading a line from the left gives what the line says, and else what is wrong with it.
    ghost reads_what_is_said: { (file : Self) (before : Seq Self.Reading) (line : Line) (reading : Self.Reading) →
        (line_of file before line ≡ Ok reading) ↔ line_says file before line reading };

    ghost refuses_what_is_wrong: { (file : Self) (before : Seq Self.Reading) (line : Line) (fault : ConfFault) →
        (line_of file before line ≡ Err fault) ↔ line_wrong file before line fault };
}

fn line_feeds(text: &[u8]) -> usize
    ensures { result ≡ count_by (λ b. b == line_feed) text.now }
{
    text.iter().filter(|b| **b == b'\n').count()
}

/// The number of the physical line on which a byte stands.
fn line_of_byte(place: usize, text: &[u8]) -> u32
    requires { length text.now ≤ COMMAND_FILE_MAX }
    ensures { result ≡ line_of_byte place text.now }
{
    let front = &text[..place.min(text.len())];
    1 + line_feeds(front) as u32
}

/// The lines of a text. One that is not UTF-8, or else ends in a line that goes on, is refused at that physical line.
fn file_lines(alloc: Global, text: &[u8]) -> Result<List<Line>, ConfError>
    requires { length text.now ≤ COMMAND_FILE_MAX }
    ensures { FileLinesAnswer text.now result }
{
    match lines(alloc, text) {
        Ok(lines) => Ok(lines),
        Err(TextRefusal::NotUtf8(place)) => Err(ConfError::Refused(ConfRefusal {
            line: line_of_byte(place, text),
            fault: ConfFault::NotText,
        })),
        Err(TextRefusal::EndsContinued(line)) => Err(ConfError::Refused(ConfRefusal {
            line,
            fault: ConfFault::NotText,
        })),
        Err(_) => Err(ConfError::NoMemory),
    }
}

/// What lines told, or the first wrong one, or the section that is not closed.
fn read_lines<F: CommandFile>(
    alloc: Global,
    file: &F,
    lines: &[Line],
) -> Result<F::Known, ConfError>
    ensures { LinesAnswer (F.line_says file.now) (F.line_wrong file.now) (F.open_section file.now) (F.tells file.now) lines.now result }
{
    let Ok(known) = file.start(alloc) else {
        return Err(ConfError::NoMemory);
    };
    let mut known = known;
    for line in lines {
        match file.read_line(alloc, &known, line) {
            Ok(reading) => match file.add(&mut known, reading) {
                Ok(()) => {}
                Err(_) => return Err(ConfError::NoMemory),
            },
            Err(error) => return Err(error.at_line(line.number)),
        }
    }
    match file.open_section(&known) {
        Some(line) => Err(ConfError::Refused(ConfRefusal {
            line,
            fault: ConfFault::SectionNotClosed,
        })),
        None => Ok(known),
    }
}

/// What a text of at most 65,536 bytes told, read as a command file of this kind. It is refused where it is no text, at its
/// first wrong line, or where a section is not closed, in this order.
pub fn read_file<F: CommandFile>(
    alloc: Global,
    file: &F,
    text: &[u8],
) -> Result<F::Known, ConfError>
    requires { length text.now ≤ COMMAND_FILE_MAX }
    ensures { FileAnswers (F.line_says file.now) (F.line_wrong file.now) (F.open_section file.now) (F.tells file.now) text.now result }
{
    match file_lines(alloc, text) {
        Ok(lines) => read_lines(alloc, file, lines.as_slice()),
        Err(error) => Err(error),
    }
}

/// Each text says one list of readings, or has one refusal, and not both, read as a command file of this kind.
/// Reading it in steps gives the one or the other.
pub fn each_text_says_one_thing<F: CommandFile>(file: &F)
    ensures something { (text : Seq ℕ) → ((said : Seq F.Reading) × FileSays (F.line_says file.now) (F.open_section file.now) text said)
        ⊎ ((refusal : ConfRefusal) × FileWrong (F.line_says file.now) (F.line_wrong file.now) (F.open_section file.now) text refusal) }
    ensures one_meaning { (text : Seq ℕ) (said other : Seq F.Reading) →
        FileSays (F.line_says file.now) (F.open_section file.now) text said → FileSays (F.line_says file.now) (F.open_section file.now) text other → said ≡ other }
    ensures not_both { (text : Seq ℕ) (said : Seq F.Reading) (refusal : ConfRefusal) →
        FileSays (F.line_says file.now) (F.open_section file.now) text said → FileWrong (F.line_says file.now) (F.line_wrong file.now) (F.open_section file.now) text refusal → ⊥ }
    ensures one_refusal { (text : Seq ℕ) (refusal other : ConfRefusal) →
        FileWrong (F.line_says file.now) (F.line_wrong file.now) (F.open_section file.now) text refusal →
        FileWrong (F.line_says file.now) (F.line_wrong file.now) (F.open_section file.now) text other → refusal ≡ other }
    ensures read { (text : Seq ℕ) (said : Seq F.Reading) → (file_reading (F.line_of file.now) (F.open_section file.now) text ≡ Ok said) ↔ FileSays (F.line_says file.now) (F.open_section file.now) text said }
    ensures refused { (text : Seq ℕ) (refusal : ConfRefusal) → (file_reading (F.line_of file.now) (F.open_section file.now) text ≡ Err refusal)
        ↔ FileWrong (F.line_says file.now) (F.line_wrong file.now) (F.open_section file.now) text refusal }
{}
