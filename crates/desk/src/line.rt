//! A line of an answer.

ghost use Rattle.std.specs.Prelude.{◌≡◌, ◌++◌, ◌∷◌, [], codes, decimal, map, OnOk};
ghost use Rattle.std.specs.List.{flat_map};
ghost use Rattle.desk.specs.Texts.{words, ended};
ghost use Rattle.desk.specs.Words.{word_text};

use base::Bytes;
use itoa::Buffer;
use std::alloc::AllocError;

/// A word of an answer.
#[derive(Clone, Copy)]
pub enum Word<'a> {
    Text(&'a [u8]),
    Number(u64),
    /// A number and a colon.
    Place(u64),
    /// A set's name and the number of a copy.
    SetCopy(&'a [u8], u8),
}

fn write_number(out: &mut Bytes, number: u64) -> Result<(), AllocError>
    ensures { OnOk result (out.new ≡ out.old ++ decimal number) }
{
    let mut buffer = Buffer::new();
    out.extend(buffer.format(number).as_bytes())
}

fn write_word(out: &mut Bytes, word: Word) -> Result<(), AllocError>
    ensures { OnOk result (out.new ≡ out.old ++ word_text word.entry) }
{
    match word {
        Word::Text(text) => out.extend(text)?,
        Word::Number(number) => write_number(out, number)?,
        Word::Place(number) => {
            write_number(out, number)?;
            out.push(b':')?;
        }
        Word::SetCopy(set, copy) => {
            out.extend(set)?;
            out.push(b'.')?;
            write_number(out, u64::from(copy))?;
        }
    }
    Ok(())
}

/// Writes a blank before each of some words.
fn write_more(out: &mut Bytes, words: &[Word]) -> Result<(), AllocError>
    ensures { OnOk result (out.new ≡ out.old ++ flat_map (λ w. 32 ∷ word_text w) words.now) }
{
    for word in words {
        out.push(b' ')?;
        write_word(out, *word)?;
    }
    Ok(())
}

/// Writes words, a blank between each two.
#[tactic(auto, unfolding(crate::specs::Texts::words))]
fn write_words(out: &mut Bytes, line: &[Word]) -> Result<(), AllocError>
    ensures { OnOk result (out.new ≡ out.old ++ words (map word_text line.now)) }
{
    match line.split_first() {
        None => Ok(()),
        Some((first, more)) => {
            write_word(out, *first)?;
            write_more(out, more)?;
            Ok(())
        }
    }
}

/// Writes a line of words and its end.
#[tactic(auto, unfolding(crate::specs::Texts::ended))]
pub fn write_line(out: &mut Bytes, line: &[Word]) -> Result<(), AllocError>
    ensures { OnOk result (out.new ≡ out.old ++ ended (words (map word_text line.now) ∷ [])) }
{
    write_words(out, line)?;
    out.push(b'\n')
}
