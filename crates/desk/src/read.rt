//! Reading a line.

ghost use Rattle.std.specs.Prelude.{◌≡◌, ◌==◌, slice_index};
ghost use Rattle.std.specs.List.{list_all};
ghost use Rattle.desk.specs.Asks.{asked_by, command_of, asked_of, is_skipped, Answers};
ghost use Rattle.desk.specs.Forms.{is_blank};

use crate::commands::{Command, at, cat, configure, find_command, head, make, put, remove};
use crate::words::{Words, is_blank};
use base::LINE_MAX;
use site_events::{Asked, LineRefusal};
use std::alloc::Global;

/// What the command asks by the words behind it.
fn asked_by(alloc: Global, command: Command, words: Words) -> Result<Asked, LineRefusal>
    ensures { Answers result (asked_by command words.entry) }
{
    match command {
        Command::At => at(words),
        Command::Put => put(alloc, words),
        Command::Make => make(alloc, words),
        Command::Cat => cat(alloc, words),
        Command::Head => head(alloc, words),
        Command::Remove => remove(alloc, words),
        Command::Configure => configure(words),
    }
}

#[tactic(auto, unfolding(crate::specs::Asks::command_of))]
fn read_command(alloc: Global, line: &[u8]) -> Result<Asked, LineRefusal>
    ensures { Answers result (command_of line.now) }
{
    let mut words = Words::new(line);
    match find_command(words.next()) {
        None => Err(LineRefusal::NotACommand),
        Some(command) => asked_by(alloc, command, words),
    }
}

/// What a line asks, its end left out.
///
/// It is refused as `LineTooLong` where it has over 4,096 bytes, else as `NotACommand` where no
/// command has its first word's name, else as `BadWord` with the number, from 1, of the first word
/// that is missing, extra or not of its form; and as `NoMemory` for want of memory.
#[tactic(auto, unfolding(crate::specs::Asks::asked_of))]
pub fn read_line(alloc: Global, line: &[u8]) -> Result<Asked, LineRefusal>
    ensures { Answers result (asked_of line.now) }
{
    if line.len() > LINE_MAX {
        return Err(LineRefusal::LineTooLong);
    }
    read_command(alloc, line)
}

fn begins_comment(line: &[u8]) -> bool
    ensures { result ≡ (slice_index line.now 0 == 35) }
{
    match line {
        [] => false,
        [first, ..] => *first == b'#',
    }
}

fn is_blank_line(line: &[u8]) -> bool
    ensures { result ≡ list_all is_blank line.now }
{
    line.iter().all(|b| is_blank(*b))
}

/// Whether a line is passed over without an answer: it is a comment or has no word. One of over
/// 4,096 bytes is not.
#[tactic(auto, unfolding(crate::specs::Asks::is_skipped))]
pub fn is_skipped(line: &[u8]) -> bool
    ensures { result ≡ is_skipped line.now }
{
    line.len() <= LINE_MAX && (begins_comment(line) || is_blank_line(line))
}
