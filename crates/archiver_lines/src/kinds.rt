//! The kinds of lines.

ghost use Rattle.std.specs.Prelude.{◌≡◌, ◌==◌, ◌&&◌, is_some, length, slice_index};
ghost use Rattle.std.specs.Str.{bytes_eq};
ghost use Rattle.site_text.specs.Values.{is_digit};
ghost use Rattle.site_text.specs.ValueLines.{value_line};
ghost use Rattle.site_text.specs.Words.{named};
ghost use Rattle.archiver_lines.specs.KindRules.{words, end_word, plain_kind};
ghost use Rattle.archiver_lines.specs.KindSteps.{inside_kind, word_kind, outside_kind, kind_of};

use crate::reading::{Opened, Section};
use base::Bytes;
use site_text::{find_word, is_digit, value_line};

/// What kind of line a line is.
#[derive(Clone, Copy, Debug, PartialEq, Eq)]
pub enum LineKind {
    /// It has no fields.
    Empty,
    /// It ends the section that is open.
    Ends,
    /// It is a line of the section that is open.
    Within(Section),
    /// It is a value line.
    Value,
    /// It begins a section.
    Begins(Section),
    /// It is a word that is no directive here.
    NoDirective,
    Copy,
    Assignment,
}

const WORDS: [(&[u8], LineKind); 7] = [
    (b"params", LineKind::Begins(Section::Params)),
    (b"vsnpools", LineKind::Begins(Section::VsnPools)),
    (b"vsns", LineKind::Begins(Section::Vsns)),
    (b"endparams", LineKind::NoDirective),
    (b"endvsnpools", LineKind::NoDirective),
    (b"endvsns", LineKind::NoDirective),
    (b"wait", LineKind::NoDirective),
];

/// The word that ends a section.
fn end_word(section: Section) -> &'static [u8]
    ensures { result.now ≡ end_word section }
{
    match section {
        Section::Params => b"endparams",
        Section::VsnPools => b"endvsnpools",
        Section::Vsns => b"endvsns",
    }
}

fn inside_kind(section: Section, field: &[u8], fields: &[Bytes]) -> LineKind
    ensures { result ≡ inside_kind section field.now fields.now }
{
    if fields.is_empty() && field == end_word(section) {
        LineKind::Ends
    } else {
        LineKind::Within(section)
    }
}

fn begins_with_digit(field: &[u8]) -> bool
    ensures { result ≡ is_digit (slice_index field.now 0) }
{
    match field {
        [first, ..] => is_digit(*first),
        [] => false,
    }
}

fn plain_kind(field: &[u8]) -> LineKind
    ensures { result ≡ plain_kind field.now }
{
    if begins_with_digit(field) {
        LineKind::Copy
    } else {
        LineKind::Assignment
    }
}

fn word_kind(field: &[u8]) -> LineKind
    ensures { result ≡ word_kind field.now }
{
    match find_word(&WORDS, field) {
        Some(kind) => kind,
        None => plain_kind(field),
    }
}

fn outside_kind(line: &[Bytes], field: &[u8], fields: &[Bytes]) -> LineKind
    ensures { result ≡ outside_kind line.now field.now fields.now }
{
    match value_line(line) {
        Some(_) => LineKind::Value,
        None => {
            if fields.is_empty() {
                word_kind(field)
            } else {
                plain_kind(field)
            }
        }
    }
}

/// The kind of a line, where this section is open or none is.
#[tactic(auto, unfolding(crate::specs::KindSteps::kind_of))]
pub fn kind_of(opened: Option<Opened>, line: &[Bytes]) -> LineKind
    ensures { result ≡ kind_of opened line.now }
{
    let [first, rest @ ..] = line else {
        return LineKind::Empty;
    };
    match opened {
        Some(begun) => inside_kind(begun.section, first.as_slice(), rest),
        None => outside_kind(line, first.as_slice(), rest),
    }
}
