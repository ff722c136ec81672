//! The lines of stager.cmd.

ghost use Rattle.std.specs.Prelude.{◌≡◌, ◌<◌, length, position, IfSome, OnOk};
ghost use Rattle.site_text.specs.Fields.{Gives};
ghost use Rattle.site_text.specs.Words.{named};
ghost use Rattle.site_text.specs.FormSteps.{read_form};
ghost use Rattle.daemon_cmds.specs.StagerRules.{library_value, is_colon, copy_number, copy_numbers, at_most_once, none_twice, completed, copysel_value};
ghost use Rattle.daemon_cmds.specs.StagerSteps.{stager_words, with_copy, form_of, line_by_words};
ghost use Rattle.daemon_cmds.specs.declared.stager_lines.StagerDirective.TheVariants as directives;

use crate::site_conf::Library;
use crate::site_lines::library_place;
use crate::stager_conf::StagerReading;
use base::{Bytes, List};
use site_text::{
    ConfFault, Fields, LineError, cut_at, find_word, number_value, read_ignored,
    read_number_within, refuse_if, value_line,
};
use std::alloc::{AllocError, Global};

/// A directive of stager.cmd.
#[derive(Clone, Copy, PartialEq, Eq)]
pub enum StagerDirective {
    Drives,
    MaxActive,
    CopySel,
    Ignored,
}

const DIRECTIVES: [(&[u8], StagerDirective); 6] = [
    (b"drives", StagerDirective::Drives),
    (b"maxactive", StagerDirective::MaxActive),
    (b"copysel", StagerDirective::CopySel),
    (b"bufsize", StagerDirective::Ignored),
    (b"directio", StagerDirective::Ignored),
    (b"logfile", StagerDirective::Ignored),
];

fn directive_named(name: &[u8]) -> Option<StagerDirective>
    ensures { result ≡ named stager_words name.now }
{
    find_word(&DIRECTIVES, name)
}

#[tactic(auto, unfolding(crate::specs::StagerRules::library_value))]
fn library_value(libraries: &[Library], name: &[u8]) -> Result<usize, ConfFault>
    ensures { result ≡ library_value libraries.now name.now }
{
    match library_place(libraries, name) {
        Some(place) => Ok(place),
        None => Err(ConfFault::BadValue),
    }
}

fn first_colon(text: &[u8]) -> Option<usize>
    ensures place { result ≡ position is_colon text.now }
    ensures within { IfSome result (λ at. at < length text.now) }
{
    text.iter().position(|b| *b == b':')
}

#[tactic(auto, unfolding(crate::specs::StagerRules::copy_number))]
fn copy_number(field: &[u8]) -> Result<u8, ConfFault>
    ensures { result ≡ copy_number field.now }
{
    match read_number_within(9, 1, 4, field) {
        Some(copy) => Ok(copy as u8),
        None => Err(ConfFault::BadValue),
    }
}

/// The numbers of `A:B:..`.
fn copy_numbers(alloc: Global, field: &[u8]) -> Result<List<u8>, LineError>
    ensures { Gives (λ copies. copies) result (copy_numbers field.now) }
{
    let mut copies = List::new(alloc);
    let mut rest = field;
    while let Some(at) = first_colon(rest) {
        let (part, behind) = cut_at(rest, at);
        match copy_number(part) {
            Ok(copy) => copies.push(copy)?,
            Err(fault) => return Err(LineError::Fault(fault)),
        }
        rest = behind;
    }
    match copy_number(rest) {
        Ok(copy) => copies.push(copy)?,
        Err(fault) => return Err(LineError::Fault(fault)),
    }
    Ok(copies)
}

fn at_most_once(copy: u8, copies: &[u8]) -> bool
    ensures { result ≡ at_most_once copy copies.now }
{
    copies.iter().filter(|c| **c == copy).count() <= 1
}

#[tactic(auto, unfolding(crate::specs::StagerRules::none_twice))]
fn none_twice(copies: &[u8]) -> bool
    ensures { result ≡ none_twice copies.now }
{
    at_most_once(1, copies)
        && at_most_once(2, copies)
        && at_most_once(3, copies)
        && at_most_once(4, copies)
}

fn add_copy(copies: &mut List<u8>, copy: u8) -> Result<(), AllocError>
    ensures { OnOk result (copies.new ≡ with_copy copies.old copy) }
{
    if !copies.as_slice().contains(&copy) {
        copies.push(copy)?;
    }
    Ok(())
}

/// Puts those of 1 to 4 that are not there behind the others, in order.
#[tactic(auto, using(crate::proofs::CopyOrder::all_put))]
fn complete(copies: &mut List<u8>) -> Result<(), AllocError>
    ensures { OnOk result (copies.new ≡ completed copies.old) }
{
    add_copy(copies, 1)?;
    add_copy(copies, 2)?;
    add_copy(copies, 3)?;
    add_copy(copies, 4)
}

/// The order of copies that `A:B:..` says: the copies that are named, and the others behind them. `BadValue` where it does not
/// name 1 to 4 distinct numbers of 1 to 4.
#[tactic(auto, unfolding(crate::specs::StagerRules::copysel_value))]
fn copysel_value(alloc: Global, field: &[u8]) -> Result<List<u8>, LineError>
    ensures { Gives (λ copies. copies) result (copysel_value field.now) }
{
    let mut copies = copy_numbers(alloc, field)?;
    refuse_if(!none_twice(copies.as_slice()), ConfFault::BadValue)?;
    complete(&mut copies)?;
    Ok(copies)
}

fn drives_line(libraries: &[Library], values: Fields) -> Result<StagerReading, ConfFault>
    ensures { result ≡ read_form (form_of libraries.now directives.Drives) values.entry }
{
    let mut values = values;
    let name = values.next()?;
    let library = library_value(libraries, name)?;
    let count = values.next()?;
    let drives = number_value(0, 64, count)?;
    values.end()?;
    Ok(StagerReading::Drives(library, drives))
}

fn maxactive_line(libraries: &[Library], values: Fields) -> Result<StagerReading, ConfFault>
    ensures { result ≡ read_form (form_of libraries.now directives.MaxActive) values.entry }
{
    let mut values = values;
    let most = values.next()?;
    let most = number_value(1, 65_536, most)?;
    values.end()?;
    Ok(StagerReading::MaxActive(most))
}

fn copysel_line(
    alloc: Global,
    libraries: &[Library],
    values: Fields,
) -> Result<StagerReading, LineError>
    ensures { Gives (λ r. r) result (read_form (form_of libraries.now directives.CopySel) values.entry) }
{
    let mut values = values;
    let order = values.next()?;
    let copies = copysel_value(alloc, order)?;
    values.end()?;
    Ok(StagerReading::CopySel(copies))
}

/// What a line says, in a site with these libraries.
#[tactic(auto, unfolding(site_text::specs::DirectiveSteps::form_by))]
pub fn read_stager_line(
    alloc: Global,
    libraries: &[Library],
    fields: &[Bytes],
) -> Result<StagerReading, LineError>
    ensures { Gives (λ r. r) result (line_by_words libraries.now fields.now) }
{
    let [_, ..] = fields else {
        return Err(LineError::Fault(ConfFault::MissingField));
    };
    let Some((name, values)) = value_line(fields) else {
        return Err(LineError::Fault(ConfFault::UnknownDirective));
    };
    if name.is_empty() {
        return Err(LineError::Fault(ConfFault::MissingField));
    }
    match directive_named(name) {
        Some(StagerDirective::Drives) => Ok(drives_line(libraries, values)?),
        Some(StagerDirective::MaxActive) => Ok(maxactive_line(libraries, values)?),
        Some(StagerDirective::CopySel) => copysel_line(alloc, libraries, values),
        Some(StagerDirective::Ignored) => Ok(read_ignored(values, StagerReading::Nothing)?),
        None => Err(LineError::Fault(ConfFault::UnknownDirective)),
    }
}
