//! The criteria and attributes of an assignment.

ghost use Rattle.std.specs.Prelude.{◌≡◌};
ghost use Rattle.site_text.specs.Fields.{Leaves, Gives, map_read};
ghost use Rattle.site_text.specs.Values.{name_value};
ghost use Rattle.site_text.specs.Options.{listed};
ghost use Rattle.site_text.specs.OptionSteps.{options_of, form_found};
ghost use Rattle.archiver_lines.specs.Criteria.{criteria, criteria_table};
ghost use Rattle.archiver_lines.specs.CriteriaSteps.{criterion_value};

use base::{Bytes, FIELD_SIZE_MAX, List, NAME_MAX};
use site_text::{
    ConfFault, Fields, LineError, OptionTable, TableOption, age_value, is_name, option_named,
    read_options, size_value, word_value,
};
use std::alloc::Global;

/// When the bytes of a new file are released.
#[derive(Clone, Copy, Debug, PartialEq, Eq)]
pub enum Release {
    /// `d`: as the cache needs room.
    Default,
    /// `n`: never.
    Never,
    /// `a`: at once where a copy is made.
    AtOnce,
    /// `p`: as by default, but for its first 16,384 bytes.
    Partial,
}

/// How the bytes of a new file are staged.
#[derive(Clone, Copy, Debug, PartialEq, Eq)]
pub enum Stage {
    /// `d`: where it is wanted.
    Default,
    /// `n`: never; they are read from the copy.
    Never,
    /// `a`: together with those of its directory.
    Associative,
}

/// The word of a criterion or an attribute.
#[derive(Clone, Copy, Debug, PartialEq, Eq)]
pub enum CriterionWord {
    Name,
    User,
    Group,
    Minsize,
    Maxsize,
    Access,
    Release,
    Stage,
}

/// A criterion or an attribute with its value. Sizes are bytes, ages seconds.
#[derive(Debug, Drop)]
pub enum Criterion {
    Name(Bytes),
    User(Bytes),
    Group(Bytes),
    Minsize(u64),
    Maxsize(u64),
    Access(u64),
    Release(Release),
    Stage(Stage),
}

const CRITERIA: [(&[u8], CriterionWord); 8] = [
    (b"-name", CriterionWord::Name),
    (b"-user", CriterionWord::User),
    (b"-group", CriterionWord::Group),
    (b"-minsize", CriterionWord::Minsize),
    (b"-maxsize", CriterionWord::Maxsize),
    (b"-access", CriterionWord::Access),
    (b"-release", CriterionWord::Release),
    (b"-stage", CriterionWord::Stage),
];

const RELEASES: [(&[u8], Release); 4] = [
    (b"n", Release::Never),
    (b"a", Release::AtOnce),
    (b"p", Release::Partial),
    (b"d", Release::Default),
];

const STAGES: [(&[u8], Stage); 3] = [
    (b"n", Stage::Never),
    (b"a", Stage::Associative),
    (b"d", Stage::Default),
];

/// A name of 1 to 32 letters, digits, `_`, `-` and `.`, else `BadValue`.
fn name_value(alloc: Global, field: &[u8]) -> Result<Bytes, LineError>
    ensures { Gives (λ name. name) result (name_value NAME_MAX field.now) }
{
    if is_name(NAME_MAX, field) {
        Ok(Bytes::from_slice(alloc, field)?)
    } else {
        Err(LineError::Fault(ConfFault::BadValue))
    }
}

/// The criterion or attribute that a field is.
#[tactic(auto, using(crate::proofs::Tables::criterion_found))]
fn criterion_named(field: &[u8]) -> Result<TableOption<Criterion, CriterionWord>, ConfFault>
    ensures { map_read (form_found criterion_value) result ≡ listed criteria field.now }
{
    Ok(TableOption::WithValue(option_named(&CRITERIA, field)?))
}

/// The table of criteria and attributes.
#[derive(Drop)]
struct Criteria;

impl OptionTable for Criteria {
    ghost use Rattle.archiver_lines.specs.Criteria.{criteria_table};
    ghost use Rattle.archiver_lines.specs.CriteriaSteps.{criterion_value};

    type Word = CriterionWord;

    type Given = Criterion;

    ghost options = { λ table. criteria_table };

    ghost value_of = { λ table. criterion_value };

    fn option(
        &self,
        _alloc: Global,
        field: &[u8],
    ) -> Result<TableOption<Criterion, CriterionWord>, LineError> {
        Ok(criterion_named(field)?)
    }

    fn value(
        &self,
        alloc: Global,
        word: CriterionWord,
        field: &[u8],
    ) -> Result<Criterion, LineError> {
        match word {
            CriterionWord::Name => Ok(Criterion::Name(Bytes::from_slice(alloc, field)?)),
            CriterionWord::User => Ok(Criterion::User(name_value(alloc, field)?)),
            CriterionWord::Group => Ok(Criterion::Group(name_value(alloc, field)?)),
            CriterionWord::Minsize => Ok(Criterion::Minsize(size_value(0, FIELD_SIZE_MAX, field)?)),
            CriterionWord::Maxsize => Ok(Criterion::Maxsize(size_value(0, FIELD_SIZE_MAX, field)?)),
            CriterionWord::Access => Ok(Criterion::Access(age_value(field)?)),
            CriterionWord::Release => Ok(Criterion::Release(word_value(&RELEASES, field)?)),
            CriterionWord::Stage => Ok(Criterion::Stage(word_value(&STAGES, field)?)),
        }
    }

    fn excludes(&self, _before: &[Criterion], _given: &Criterion) -> bool {
        false
    }
}

/// Reads the fields as criteria and attributes, and puts them behind those given before.
pub fn read_criteria(
    alloc: Global,
    given: &mut List<Criterion>,
    fields: Fields,
) -> Result<(), LineError>
    ensures { Leaves given.new result (options_of criteria_table given.old fields.entry) }
{
    read_options::<Criteria>(alloc, &Criteria, given, fields)
}
