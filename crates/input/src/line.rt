//! Reads a line.

ghost use Rattle.std.specs.Prelude.{◌≡◌, ◌≤◌, if◌then◌else◌};
ghost use Rattle.base.specs.Causes.{Rose};
ghost use Rattle.input.specs.Lines.{Long, line_of};
ghost use Rattle.input.specs.Reads.{ReadsLine, TellsLine};

use crate::reader::{Reader, Stop};
use base::LINE_MAX;
use outside::Source;

/// What a call that reads a line gave.
#[derive(Clone, Copy, Debug, PartialEq, Eq)]
pub enum LineRead {
    /// A line, which the reader lends.
    Line,
    /// A line of over 4,096 bytes. It was read to its end, and not kept.
    TooLong,
    /// The end of the source was met, and no line was left.
    Ended,
    /// The source failed before a line was whole.
    SourceFault,
    /// A byte was taken beyond the budget before a line was whole. It is lost.
    OverBudget,
}

/// Reads the next line. A line ends with a line feed, and one carriage return before that is dropped. A last line
/// without a line feed counts where it is not empty, and keeps its carriage return.
pub fn next_line<S: Source>(reader: &mut Reader, source: &mut S) -> LineRead
    ensures read { ReadsLine (S.left source.old) (S.left source.new) reader.old reader.new result }
    ensures later { S.faults source.old ≤ S.faults source.new }
    ensures cause { result ≡ LineRead.SourceFault → Rose (S.faults source.old) (S.faults source.new) }
    ensures beside { S.beside source.new ≡ S.beside source.old }
{
    reader.begin_line();
    let mut long = false;
    loop {
        match reader.next_byte(source) {
            Ok(b'\n') => {
                reader.drop_return();
                return whole(reader.line(), long);
            }
            Ok(byte) => {
                if reader.is_full() {
                    long = true;
                } else {
                    reader.keep(byte);
                }
            }
            Err(Stop::Ended) => {
                if reader.line().is_empty() {
                    return LineRead::Ended;
                }
                return whole(reader.line(), long);
            }
            Err(Stop::SourceFault) => return LineRead::SourceFault,
            Err(Stop::OverBudget) => return LineRead::OverBudget,
        }
    }
}

// What a line is that was read to its end.
fn whole(line: &[u8], long: bool) -> LineRead
    ensures { TellsLine result line.now (if long then Long else line_of line.now) }
{
    if long || line.len() > LINE_MAX {
        LineRead::TooLong
    } else {
        LineRead::Line
    }
}
