//! The commands, and what each asks by its words.
#![tactic(auto, unfolding(crate::specs::Asks::asked_by))]

ghost use Rattle.std.specs.Prelude.{◌≡◌};
ghost use Rattle.site_text.specs.Words.{named};
ghost use Rattle.desk.specs.Asks.{commands, asked_by, Answers};

use crate::made::make_bytes;
use crate::words::Words;
use base::{END_OF_TIME, FILE_SIZE_MAX};
use site_events::{Asked, Event, LineRefusal};
use site_text::find_word;
use std::alloc::Global;

/// The commands that a line can begin with.
#[derive(Clone, Copy)]
pub enum Command {
    At,
    Put,
    Make,
    Cat,
    Head,
    Remove,
    Configure,
}

const COMMANDS: [(&[u8], Command); 7] = [
    (b"at", Command::At),
    (b"put", Command::Put),
    (b"make", Command::Make),
    (b"cat", Command::Cat),
    (b"head", Command::Head),
    (b"rm", Command::Remove),
    (b"configure", Command::Configure),
];

/// The digits of a number word.
const DIGITS: usize = 20;

pub fn find_command(word: &[u8]) -> Option<Command>
    ensures { result ≡ named commands word.now }
{
    find_word(&COMMANDS, word)
}

pub fn at(mut words: Words) -> Result<Asked, LineRefusal>
    ensures { Answers result (asked_by Command.At words.entry) }
{
    let moment = words.number(2, DIGITS, 0, END_OF_TIME - 1)?;
    words.end(3)?;
    Ok(Asked::At(moment))
}

pub fn put(alloc: Global, mut words: Words) -> Result<Asked, LineRefusal>
    ensures { Answers result (asked_by Command.Put words.entry) }
{
    let path = words.word(alloc, 2)?;
    let owner = words.word(alloc, 3)?;
    let group = words.word(alloc, 4)?;
    let bytes = words.rest(alloc)?;
    words.end(6)?;
    Ok(Asked::One(Event::Put {
        path,
        owner,
        group,
        bytes,
    }))
}

pub fn cat(alloc: Global, mut words: Words) -> Result<Asked, LineRefusal>
    ensures { Answers result (asked_by Command.Cat words.entry) }
{
    let path = words.word(alloc, 2)?;
    words.end(3)?;
    Ok(Asked::One(Event::Read {
        path,
        upto: FILE_SIZE_MAX as u32,
    }))
}

pub fn head(alloc: Global, mut words: Words) -> Result<Asked, LineRefusal>
    ensures { Answers result (asked_by Command.Head words.entry) }
{
    let path = words.word(alloc, 2)?;
    let upto = words.number(3, DIGITS, 0, FILE_SIZE_MAX)?;
    words.end(4)?;
    Ok(Asked::One(Event::Read {
        path,
        upto: upto as u32,
    }))
}

pub fn remove(alloc: Global, mut words: Words) -> Result<Asked, LineRefusal>
    ensures { Answers result (asked_by Command.Remove words.entry) }
{
    let path = words.word(alloc, 2)?;
    words.end(3)?;
    Ok(Asked::One(Event::Remove { path }))
}

pub fn configure(mut words: Words) -> Result<Asked, LineRefusal>
    ensures { Answers result (asked_by Command.Configure words.entry) }
{
    words.end(2)?;
    Ok(Asked::Configure)
}

pub fn make(alloc: Global, mut words: Words) -> Result<Asked, LineRefusal>
    ensures { Answers result (asked_by Command.Make words.entry) }
{
    let path = words.word(alloc, 2)?;
    let owner = words.word(alloc, 3)?;
    let group = words.word(alloc, 4)?;
    let size = words.size(5)?;
    let seed = words.number(6, 9, 0, 999_999_999)?;
    words.end(7)?;
    let bytes = make_bytes(alloc, size, seed)?;
    Ok(Asked::One(Event::Put {
        path,
        owner,
        group,
        bytes,
    }))
}
