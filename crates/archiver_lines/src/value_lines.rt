//! Value lines.

ghost use Rattle.std.specs.Prelude.{◌≡◌, option_map, None};
ghost use Rattle.site_text.specs.Fields.{Gives};
ghost use Rattle.site_text.specs.Words.{named};
ghost use Rattle.site_text.specs.FormSteps.{read_form};
ghost use Rattle.site_text.specs.DirectiveSteps.{read_by, read_directive};
ghost use Rattle.archiver_lines.specs.ValueForms.{value_names};
ghost use Rattle.archiver_lines.specs.ValueSteps.{directives, form_of, value_reading};
ghost use Rattle.site_text.specs.Directives.{no_words};
ghost use Rattle.archiver_lines.specs.declared.value_lines.Directive.TheVariants as directive;

use crate::reading::Reading;
use base::{Bytes, NAME_MAX};
use site_text::{
    ConfFault, Fields, LineError, find_word, is_name, read_ignored, refuse_if, value_line,
};
use std::alloc::Global;

/// What a value line is about.
#[derive(Clone, Copy, Debug, PartialEq, Eq)]
pub enum Directive {
    FileSystem,
    Archivemeta,
    /// It is accepted without effect.
    Ignored,
}

const DIRECTIVES: [(&[u8], Directive); 14] = [
    (b"fs", Directive::FileSystem),
    (b"archivemeta", Directive::Archivemeta),
    (b"bufsize", Directive::Ignored),
    (b"directio", Directive::Ignored),
    (b"logfile", Directive::Ignored),
    (b"notify", Directive::Ignored),
    (b"timeout", Directive::Ignored),
    (b"setarchdone", Directive::Ignored),
    (b"examine", Directive::Ignored),
    (b"background_interval", Directive::Ignored),
    (b"background_time", Directive::Ignored),
    (b"interval", Directive::Ignored),
    (b"scanlist_squash", Directive::Ignored),
    (b"drives", Directive::Ignored),
];

fn directive_named(name: &[u8]) -> Option<Directive>
    ensures { result ≡ named directives name.now }
{
    find_word(&DIRECTIVES, name)
}

/// `fs = NAME`
fn fs_line(alloc: Global, values: Fields) -> Result<Reading, LineError>
    ensures { Gives (λ reading. reading) result (read_form (form_of directive.FileSystem) values.entry) }
{
    let mut values = values;
    let name = values.next()?;
    if !is_name(NAME_MAX, name) {
        return Err(LineError::Fault(ConfFault::BadValue));
    }
    values.end()?;
    Ok(Reading::FileSystem(Bytes::from_slice(alloc, name)?))
}

/// `archivemeta = off`
fn archivemeta_line(values: Fields) -> Result<Reading, ConfFault>
    ensures { result ≡ read_form (form_of directive.Archivemeta) values.entry }
{
    let mut values = values;
    let word = values.next()?;
    if word != b"off".as_slice() {
        return Err(ConfFault::BadValue);
    }
    values.end()?;
    Ok(Reading::Nothing)
}

/// What a value line says, by the code's words for directives.
#[tactic(auto, unfolding(site_text::specs::DirectiveSteps::form_by))]
fn read_by_word(alloc: Global, fields: &[Bytes]) -> Result<Reading, LineError>
    ensures { Gives (λ reading. reading) result (read_by (λ name. option_map form_of (named directives name)) (λ word. None) fields.now) }
{
    let [_, ..] = fields else {
        return Err(LineError::Fault(ConfFault::MissingField));
    };
    let Some((name, values)) = value_line(fields) else {
        return Err(LineError::Fault(ConfFault::UnknownDirective));
    };
    if name.is_empty() {
        return Err(LineError::Fault(ConfFault::MissingField));
    }
    match directive_named(name) {
        Some(Directive::FileSystem) => fs_line(alloc, values),
        Some(Directive::Archivemeta) => Ok(archivemeta_line(values)?),
        Some(Directive::Ignored) => Ok(read_ignored(values, Reading::Nothing)?),
        None => Err(LineError::Fault(ConfFault::UnknownDirective)),
    }
}

/// What a value line says.
#[tactic(auto, using(crate::proofs::Tables::directive_found), unfolding(crate::specs::ValueSteps::value_reading))]
pub fn read_value_line(alloc: Global, fields: &[Bytes]) -> Result<Reading, LineError>
    ensures { Gives (λ reading. reading) result (value_reading fields.now) }
{
    read_by_word(alloc, fields)
}
