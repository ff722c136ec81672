//! The lines of releaser.cmd.

ghost use Rattle.std.specs.Prelude.{◌≡◌, ◌&&◌};
ghost use Rattle.site_text.specs.Fields.{Gives};
ghost use Rattle.site_text.specs.Words.{named};
ghost use Rattle.site_text.specs.Forms.{End};
ghost use Rattle.site_text.specs.FormSteps.{read_form};
ghost use Rattle.site_text.specs.DirectiveSteps.{read_by};
ghost use Rattle.daemon_cmds.specs.BarSteps.{barred_by};
ghost use Rattle.daemon_cmds.specs.ReleaserTold.{same_part, is_age};
ghost use Rattle.daemon_cmds.specs.ReleaserRules.{is_for_one_age, sets_weight};
ghost use Rattle.daemon_cmds.specs.ReleaserSteps.{releaser_names, releaser_words, age_names, form_of, word_form, sets_in, bar_of, form_by_name, form_by_word, bar_by_name, line_by_words};
ghost use Rattle.daemon_cmds.specs.declared.releaser_lines.ReleaserDirective.TheVariants as directives;

use crate::releaser_conf::{PartSetting, ReleaserReading, Setting, Weight};
use base::{Bytes, List, NAME_MAX};
use site_text::{
    ConfFault, Fields, LineError, age_value, find_word, is_name, read_ignored, value_line,
    weight_value,
};
use std::alloc::Global;

/// A directive of releaser.cmd that stands before a `=`.
#[derive(Clone, Copy, PartialEq, Eq)]
pub enum ReleaserDirective {
    Weight(Weight),
    MinResidenceAge,
    FileSystem,
    Ignored,
}

const DIRECTIVES: [(&[u8], ReleaserDirective); 11] = [
    (b"weight_age", ReleaserDirective::Weight(Weight::Age)),
    (
        b"weight_age_access",
        ReleaserDirective::Weight(Weight::Access),
    ),
    (
        b"weight_age_modify",
        ReleaserDirective::Weight(Weight::Modify),
    ),
    (
        b"weight_age_residence",
        ReleaserDirective::Weight(Weight::Residence),
    ),
    (b"weight_size", ReleaserDirective::Weight(Weight::Size)),
    (b"min_residence_age", ReleaserDirective::MinResidenceAge),
    (b"fs", ReleaserDirective::FileSystem),
    (b"logfile", ReleaserDirective::Ignored),
    (b"list_size", ReleaserDirective::Ignored),
    (b"display_all_candidates", ReleaserDirective::Ignored),
    (b"debug_partial", ReleaserDirective::Ignored),
];

/// A directive of releaser.cmd that is a line by itself.
#[derive(Clone, Copy, PartialEq, Eq)]
pub enum ReleaserWord {
    NoRelease,
    RearchNoRelease,
    Ignored,
}

const WORDS: [(&[u8], ReleaserWord); 4] = [
    (b"no_release", ReleaserWord::NoRelease),
    (b"rearch_no_release", ReleaserWord::RearchNoRelease),
    (b"display_all_candidates", ReleaserWord::Ignored),
    (b"debug_partial", ReleaserWord::Ignored),
];

/// The weights of which some exclude others.
const AGE_WEIGHTS: [(&[u8], Weight); 4] = [
    (b"weight_age", Weight::Age),
    (b"weight_age_access", Weight::Access),
    (b"weight_age_modify", Weight::Modify),
    (b"weight_age_residence", Weight::Residence),
];

fn age_weight_named(name: &[u8]) -> Option<Weight>
    ensures { result ≡ named age_names name.now }
{
    find_word(&AGE_WEIGHTS, name)
}

fn directive_named(name: &[u8]) -> Option<ReleaserDirective>
    ensures { result ≡ named releaser_names name.now }
{
    find_word(&DIRECTIVES, name)
}

fn word_named(word: &[u8]) -> Option<ReleaserWord>
    ensures { result ≡ named releaser_words word.now }
{
    find_word(&WORDS, word)
}

fn weight_line(weight: Weight, values: Fields) -> Result<ReleaserReading, ConfFault>
    ensures { result ≡ read_form (form_of (directives.Weight weight)) values.entry }
{
    let mut values = values;
    let millionths = values.next()?;
    let millionths = weight_value(millionths)?;
    values.end()?;
    Ok(ReleaserReading::Set(Setting::Weight(weight, millionths)))
}

fn residence_line(values: Fields) -> Result<ReleaserReading, ConfFault>
    ensures { result ≡ read_form (form_of directives.MinResidenceAge) values.entry }
{
    let mut values = values;
    let age = values.next()?;
    let age = age_value(age)?;
    values.end()?;
    Ok(ReleaserReading::Set(Setting::MinResidenceAge(age)))
}

fn part_line(alloc: Global, values: Fields) -> Result<ReleaserReading, LineError>
    ensures { Gives (λ r. r) result (read_form (form_of directives.FileSystem) values.entry) }
{
    let mut values = values;
    let name = values.next()?;
    if !is_name(NAME_MAX, name) {
        return Err(LineError::Fault(ConfFault::BadValue));
    }
    values.end()?;
    Ok(ReleaserReading::Part(Bytes::from_slice(alloc, name)?))
}

/// What a line of this directive says.
fn directive_line(
    alloc: Global,
    directive: ReleaserDirective,
    values: Fields,
) -> Result<ReleaserReading, LineError>
    ensures { Gives (λ r. r) result (read_form (form_of directive) values.entry) }
{
    match directive {
        ReleaserDirective::Weight(weight) => Ok(weight_line(weight, values)?),
        ReleaserDirective::MinResidenceAge => Ok(residence_line(values)?),
        ReleaserDirective::FileSystem => part_line(alloc, values),
        ReleaserDirective::Ignored => Ok(read_ignored(values, ReleaserReading::Nothing)?),
    }
}

fn alone(said: ReleaserReading, fields: &[Bytes]) -> Result<ReleaserReading, ConfFault>
    ensures { result ≡ read_form (End said) fields.now }
{
    let mut fields = Fields::new(fields);
    match fields.end() {
        Ok(()) => Ok(said),
        Err(fault) => Err(fault),
    }
}

/// What a line of this word says.
fn word_line(word: ReleaserWord, fields: &[Bytes]) -> Result<ReleaserReading, ConfFault>
    ensures { result ≡ read_form (word_form word) fields.now }
{
    match word {
        ReleaserWord::NoRelease => alone(ReleaserReading::Set(Setting::NoRelease), fields),
        ReleaserWord::RearchNoRelease => {
            alone(ReleaserReading::Set(Setting::RearchNoRelease), fields)
        }
        ReleaserWord::Ignored => alone(ReleaserReading::Nothing, fields),
    }
}

#[tactic(auto, unfolding(site_text::specs::DirectiveSteps::form_by))]
fn read_values(alloc: Global, fields: &[Bytes]) -> Result<ReleaserReading, LineError>
    ensures { Gives (λ r. r) result (read_by form_by_name form_by_word fields.now) }
{
    let [first, rest @ ..] = fields else {
        return Err(LineError::Fault(ConfFault::MissingField));
    };
    let Some((name, values)) = value_line(fields) else {
        return match word_named(first.as_slice()) {
            Some(word) => Ok(word_line(word, rest)?),
            None => Err(LineError::Fault(ConfFault::UnknownDirective)),
        };
    };
    if name.is_empty() {
        return Err(LineError::Fault(ConfFault::MissingField));
    }
    match directive_named(name) {
        Some(directive) => directive_line(alloc, directive, values),
        None => Err(LineError::Fault(ConfFault::UnknownDirective)),
    }
}

/// Both are the same part.
pub fn same_part(part: &Option<Bytes>, other: &Option<Bytes>) -> bool
    ensures { result ≡ same_part part.now other.now }
{
    match (part, other) {
        (None, None) => true,
        (Some(name), Some(other)) => name.as_slice() == other.as_slice(),
        _ => false,
    }
}

fn is_age(weight: Weight) -> bool
    ensures { result ≡ is_age weight }
{
    matches!(weight, Weight::Age)
}

fn is_for_one_age(weight: Weight) -> bool
    ensures { result ≡ is_for_one_age weight }
{
    matches!(weight, Weight::Access | Weight::Modify | Weight::Residence)
}

fn sets_all_ages(given: &PartSetting, part: &Option<Bytes>) -> bool
    ensures { result ≡ (same_part given.now.part part.now && sets_weight is_age given.now.setting) }
{
    same_part(&given.part, part)
        && match given.setting {
            Setting::Weight(weight, _) => is_age(weight),
            _ => false,
        }
}

fn sets_one_age(given: &PartSetting, part: &Option<Bytes>) -> bool
    ensures { result ≡ (same_part given.now.part part.now && sets_weight is_for_one_age given.now.setting) }
{
    same_part(&given.part, part)
        && match given.setting {
            Setting::Weight(weight, _) => is_for_one_age(weight),
            _ => false,
        }
}

fn any_for_all_ages(part: &Option<Bytes>, given: &[PartSetting]) -> bool
    ensures { result ≡ sets_in is_age part.now given.now }
{
    given.iter().any(|g| sets_all_ages(g, part))
}

fn any_for_one_age(part: &Option<Bytes>, given: &[PartSetting]) -> bool
    ensures { result ≡ sets_in is_for_one_age part.now given.now }
{
    given.iter().any(|g| sets_one_age(g, part))
}

/// `Conflict` where a weight for all ages would stand beside one for one age in the same part.
fn weight_bar(part: &Option<Bytes>, given: &[PartSetting], weight: Weight) -> Option<ConfFault>
    ensures { result ≡ bar_of part.now given.now weight }
{
    let barred = match weight {
        Weight::Age => any_for_one_age(part, given),
        Weight::Access | Weight::Modify | Weight::Residence => any_for_all_ages(part, given),
        Weight::Size => false,
    };
    if barred {
        Some(ConfFault::Conflict)
    } else {
        None
    }
}

fn barred(part: &Option<Bytes>, given: &[PartSetting], fields: &[Bytes]) -> Option<ConfFault>
    ensures { result ≡ barred_by (bar_by_name part.now given.now) fields.now }
{
    match value_line(fields) {
        Some((name, _)) => match age_weight_named(name) {
            Some(weight) => weight_bar(part, given, weight),
            None => None,
        },
        None => None,
    }
}

/// What a line says that stands in this part, behind lines that set these.
pub fn read_releaser_line(
    alloc: Global,
    part: &Option<Bytes>,
    given: &List<PartSetting>,
    fields: &[Bytes],
) -> Result<ReleaserReading, LineError>
    ensures { Gives (λ r. r) result (line_by_words part.now given.now fields.now) }
{
    match barred(part, given.as_slice(), fields) {
        Some(fault) => Err(LineError::Fault(fault)),
        None => read_values(alloc, fields),
    }
}
