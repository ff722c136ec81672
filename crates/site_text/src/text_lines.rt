//! The lines of a command file.

ghost use Rattle.std.specs.Prelude.{◌≡◌, ◌+◌, ◌≤◌, ◌<◌, [], ◌∷◌, ◌++◌, OnOk, length, IsTrue, position, ◌==◌, IfSome};
ghost use Rattle.std.specs.List.{before_first};
ghost use Rattle.std.specs.Str.Lines.{strip_carriage_return};
ghost use Rattle.site_text.specs.Lines.{physical_lines, is_continued, is_hash, with_fields};
ghost use Rattle.site_text.specs.Texts.{AreLines, AreJoinedLines};

use crate::fields::{cut_at, cut_fields};
use crate::line::Line;
use crate::refusal::TextRefusal;
use base::{Bytes, COMMAND_FILE_MAX, List};
use std::alloc::{AllocError, Global};

fn first_byte(text: &[u8], byte: u8) -> Option<usize>
    ensures place { result ≡ position (λ b. b == byte) text.now }
    ensures within { IfSome result (λ at. at < length text.now) }
{
    text.iter().position(|b| *b == byte)
}

fn without_return(line: &[u8]) -> &[u8]
    ensures { result.now ≡ strip_carriage_return line.now }
{
    match line {
        [front @ .., b'\r'] => front,
        _ => line,
    }
}

/// The first physical line, and what stands after it.
fn next_line(text: &[u8]) -> (&[u8], &[u8])
    requires { 0 < length text.now }
    ensures line { physical_lines text.now ≡ result.0.now ∷ physical_lines result.1.now }
    ensures shorter { length result.1.now < length text.now }
{
    match first_byte(text, b'\n') {
        Some(end) => {
            let (line, after) = cut_at(text, end);
            (without_return(line), after)
        }
        None => (text, &text[text.len()..]),
    }
}

#[tactic(auto, unfolding(crate::specs::Lines::is_continued))]
fn is_continued(line: &[u8]) -> bool
    ensures value { result ≡ is_continued line.now }
    ensures some { IsTrue result → 0 < length line.now }
{
    !line.contains(&b'#') && line.ends_with(b"\\")
}

fn without_comment(line: &[u8]) -> &[u8]
    ensures { result.now ≡ before_first is_hash line.now }
{
    match first_byte(line, b'#') {
        Some(at) => &line[..at],
        None => line,
    }
}

#[tactic(auto, unfolding(crate::specs::Lines::with_fields))]
fn push_line(
    alloc: Global,
    found: &mut List<Line>,
    number: u32,
    text: &[u8],
) -> Result<(), AllocError>
    ensures { OnOk result (found.new ≡ found.old ++ with_fields ((number, text.now) ∷ [])) }
{
    let fields = cut_fields(alloc, text)?;
    if !fields.as_slice().is_empty() {
        found.push(Line { number, fields })?;
    }
    Ok(())
}

fn joined_lines(alloc: Global, text: &[u8]) -> Result<List<Line>, TextRefusal>
    requires { length text.now ≤ COMMAND_FILE_MAX }
    ensures { AreJoinedLines text.now result }
{
    let mut found = List::new(alloc);
    let mut rest = text;
    // What lines that go on have put before this one, and the number of the first of them.
    let mut before = Bytes::new(alloc);
    let mut first = 1;
    let mut number = 1;
    while !rest.is_empty() {
        let (line, after) = next_line(rest);
        rest = after;
        number += 1;
        if is_continued(line) {
            before.extend(&line[..line.len() - 1])?;
        } else {
            before.extend(without_comment(line))?;
            push_line(alloc, &mut found, first, before.as_slice())?;
            before = Bytes::new(alloc);
            first = number;
        }
    }
    if first < number {
        return Err(TextRefusal::EndsContinued(number - 1));
    }
    Ok(found)
}

/// The lines of a text of at most 65,536 bytes. A text that is not UTF-8, or else ends in a line that goes on, has none.
pub fn lines(alloc: Global, text: &[u8]) -> Result<List<Line>, TextRefusal>
    requires { length text.now ≤ COMMAND_FILE_MAX }
    ensures { AreLines text.now result }
{
    if let Err(fault) = str::from_utf8(text) {
        return Err(TextRefusal::NotUtf8(fault.valid_up_to()));
    }
    joined_lines(alloc, text)
}
