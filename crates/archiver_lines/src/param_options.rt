//! The options of params.

ghost use Rattle.std.specs.Prelude.{◌≡◌, ◌&&◌};
ghost use Rattle.std.specs.List.{list_any};
ghost use Rattle.std.specs.Option.{option_copied};
ghost use Rattle.site_text.specs.Fields.{Leaves, Gives, map_read};
ghost use Rattle.site_text.specs.Words.{word_value};
ghost use Rattle.site_text.specs.OptionSteps.{options_of, form_found};
ghost use Rattle.archiver_lines.specs.ParamOptions.{params_table, listed_option, param_option, bufsize_in, sort_by, sort_words, owner_of, exclude, exclude_any};
ghost use Rattle.archiver_lines.specs.ParamOptionSteps.{listed_word, option_value, form_of};
ghost use Rattle.archiver_lines.specs.Names.{same_name};

use crate::names::same_name;
use crate::reading::{CopyName, ParamsLine};
use base::{FIELD_NUMBER_MAX, FIELD_SIZE_MAX, List};
use site_text::{
    ConfFault, Fields, LineError, OptionTable, TableOption, age_value, number_value, option_named,
    read_options, size_value, word_value,
};
use std::alloc::Global;

/// Which files of a batch belong together.
#[derive(Clone, Copy, Debug, PartialEq, Eq)]
pub enum Join {
    Path,
    None,
}

/// By what the files of a batch are ordered.
#[derive(Clone, Copy, Debug, PartialEq, Eq)]
pub enum SortKey {
    Path,
    Age,
    Size,
    None,
}

/// The order of the files of a batch.
#[derive(Clone, Copy, Debug, PartialEq, Eq)]
pub struct Sort {
    pub key: SortKey,
    pub reverse: bool,
}

/// Whose files a volume is reserved for, as far as only one may be said.
#[derive(Clone, Copy, Debug, PartialEq, Eq)]
pub enum Owner {
    Dir,
    User,
    Group,
}

/// A part of a reservation.
#[derive(Clone, Copy, Debug, PartialEq, Eq)]
pub enum ReservePart {
    Set,
    Owner(Owner),
    Fs,
}

/// By which moment the unarchive age counts.
#[derive(Clone, Copy, Debug, PartialEq, Eq)]
pub enum Unarchage {
    Access,
    Modify,
}

/// An option of params that takes a value.
#[derive(Clone, Copy, Debug, PartialEq, Eq)]
pub enum ValuedOption {
    Archmax,
    Join,
    Sort,
    Rsort,
    Reserve,
    Ovflmin,
    Startage,
    Startcount,
    Startsize,
    Unarchage,
    RecycleHwm,
    RecycleMingain,
    RecycleVsncount,
    RecycleDataquantity,
    /// One without effect that takes a number.
    AnyNumber,
    /// One without effect that takes a size.
    AnySize,
    /// One without effect that takes a word.
    AnyWord,
}

/// What an option gives. Sizes are bytes below 2^50, ages seconds below 2^40.
#[derive(Clone, Copy, Debug, PartialEq, Eq)]
pub enum Given {
    Archmax(u64),
    Fillvsns,
    Join(Join),
    Sort(Sort),
    Reserve(ReservePart),
    Ovflmin(u64),
    Startage(u64),
    Startcount(u32),
    Startsize(u64),
    Unarchage(Unarchage),
    RecycleHwm(u32),
    RecycleMingain(u32),
    RecycleVsncount(u32),
    RecycleDataquantity(u64),
    RecycleIgnore,
    Nothing,
}

/// An option of params.
#[derive(Clone, Copy, Debug, PartialEq, Eq)]
pub enum ParamOption {
    /// It stands alone, and gives this.
    Alone(Given),
    Valued(ValuedOption),
}

const OPTIONS: [(&[u8], ParamOption); 23] = [
    (b"-archmax", ParamOption::Valued(ValuedOption::Archmax)),
    (b"-fillvsns", ParamOption::Alone(Given::Fillvsns)),
    (b"-join", ParamOption::Valued(ValuedOption::Join)),
    (b"-sort", ParamOption::Valued(ValuedOption::Sort)),
    (b"-rsort", ParamOption::Valued(ValuedOption::Rsort)),
    (b"-reserve", ParamOption::Valued(ValuedOption::Reserve)),
    (b"-ovflmin", ParamOption::Valued(ValuedOption::Ovflmin)),
    (b"-startage", ParamOption::Valued(ValuedOption::Startage)),
    (
        b"-startcount",
        ParamOption::Valued(ValuedOption::Startcount),
    ),
    (b"-startsize", ParamOption::Valued(ValuedOption::Startsize)),
    (b"-unarchage", ParamOption::Valued(ValuedOption::Unarchage)),
    (
        b"-recycle_hwm",
        ParamOption::Valued(ValuedOption::RecycleHwm),
    ),
    (
        b"-recycle_mingain",
        ParamOption::Valued(ValuedOption::RecycleMingain),
    ),
    (
        b"-recycle_vsncount",
        ParamOption::Valued(ValuedOption::RecycleVsncount),
    ),
    (
        b"-recycle_dataquantity",
        ParamOption::Valued(ValuedOption::RecycleDataquantity),
    ),
    (b"-recycle_ignore", ParamOption::Alone(Given::RecycleIgnore)),
    (b"-lock", ParamOption::Alone(Given::Nothing)),
    (b"-tapenonstop", ParamOption::Alone(Given::Nothing)),
    (b"-bufsize", ParamOption::Valued(ValuedOption::AnyNumber)),
    (
        b"-recycle_mailaddr",
        ParamOption::Valued(ValuedOption::AnyWord),
    ),
    (b"-drives", ParamOption::Valued(ValuedOption::AnyNumber)),
    (b"-drivemin", ParamOption::Valued(ValuedOption::AnySize)),
    (b"-drivemax", ParamOption::Valued(ValuedOption::AnySize)),
];

const JOINS: [(&[u8], Join); 2] = [(b"path", Join::Path), (b"none", Join::None)];

const SORT_KEYS: [(&[u8], SortKey); 4] = [
    (b"path", SortKey::Path),
    (b"age", SortKey::Age),
    (b"size", SortKey::Size),
    (b"none", SortKey::None),
];

const RESERVE_PARTS: [(&[u8], ReservePart); 5] = [
    (b"set", ReservePart::Set),
    (b"dir", ReservePart::Owner(Owner::Dir)),
    (b"user", ReservePart::Owner(Owner::User)),
    (b"group", ReservePart::Owner(Owner::Group)),
    (b"fs", ReservePart::Fs),
];

const UNARCHAGES: [(&[u8], Unarchage); 2] = [
    (b"access", Unarchage::Access),
    (b"modify", Unarchage::Modify),
];

/// The number behind `-bufsize=`, where the field begins so.
#[tactic(auto, unfolding(crate::specs::ParamOptions::bufsize_in))]
fn bufsize_in(field: &[u8]) -> Option<&[u8]>
    ensures { option_copied result ≡ bufsize_in field.now }
{
    field.strip_prefix(b"-bufsize=")
}

fn found(option: ParamOption) -> TableOption<Given, ValuedOption>
    ensures { form_found option_value result ≡ form_of option }
{
    match option {
        ParamOption::Alone(given) => TableOption::Alone(given),
        ParamOption::Valued(option) => TableOption::WithValue(option),
    }
}

/// The option that a field is in the table.
#[tactic(auto, unfolding(crate::specs::ParamOptionSteps::listed_word))]
fn listed_word(field: &[u8]) -> Result<ParamOption, ConfFault>
    ensures { result ≡ listed_word field.now }
{
    option_named(&OPTIONS, field)
}

/// What the option is for the reader of options.
#[tactic(auto, using(crate::proofs::Tables::option_found))]
fn listed_option(field: &[u8]) -> Result<TableOption<Given, ValuedOption>, ConfFault>
    ensures { map_read (form_found option_value) result ≡ listed_option field.now }
{
    Ok(found(listed_word(field)?))
}

/// The option that a field is: `-bufsize=N`, which stands alone, or one of the table.
fn param_option(field: &[u8]) -> Result<TableOption<Given, ValuedOption>, ConfFault>
    ensures { map_read (form_found option_value) result ≡ param_option field.now }
{
    match bufsize_in(field) {
        Some(number) => {
            number_value(0, FIELD_NUMBER_MAX, number)?;
            Ok(TableOption::Alone(Given::Nothing))
        }
        None => listed_option(field),
    }
}

fn sort_value(reverse: bool, field: &[u8]) -> Result<Given, ConfFault>
    ensures { result ≡ map_read (λ key. sort_by key reverse) (word_value sort_words field.now) }
{
    let key = word_value(&SORT_KEYS, field)?;
    Ok(Given::Sort(Sort { key, reverse }))
}

/// What an option gives with this value.
fn option_value(option: ValuedOption, field: &[u8]) -> Result<Given, ConfFault>
    ensures { result ≡ option_value option field.now }
{
    match option {
        ValuedOption::Archmax => Ok(Given::Archmax(size_value(0, FIELD_SIZE_MAX, field)?)),
        ValuedOption::Join => Ok(Given::Join(word_value(&JOINS, field)?)),
        ValuedOption::Sort => sort_value(false, field),
        ValuedOption::Rsort => sort_value(true, field),
        ValuedOption::Reserve => Ok(Given::Reserve(word_value(&RESERVE_PARTS, field)?)),
        ValuedOption::Ovflmin => Ok(Given::Ovflmin(size_value(0, FIELD_SIZE_MAX, field)?)),
        ValuedOption::Startage => Ok(Given::Startage(age_value(field)?)),
        ValuedOption::Startcount => Ok(Given::Startcount(number_value(
            1,
            FIELD_NUMBER_MAX,
            field,
        )?)),
        ValuedOption::Startsize => Ok(Given::Startsize(size_value(0, FIELD_SIZE_MAX, field)?)),
        ValuedOption::Unarchage => Ok(Given::Unarchage(word_value(&UNARCHAGES, field)?)),
        ValuedOption::RecycleHwm => Ok(Given::RecycleHwm(number_value(0, 100, field)?)),
        ValuedOption::RecycleMingain => Ok(Given::RecycleMingain(number_value(0, 100, field)?)),
        ValuedOption::RecycleVsncount => {
            Ok(Given::RecycleVsncount(number_value(0, FIELD_NUMBER_MAX, field)?))
        }
        ValuedOption::RecycleDataquantity => {
            Ok(Given::RecycleDataquantity(size_value(0, FIELD_SIZE_MAX, field)?))
        }
        ValuedOption::AnyNumber => {
            number_value(0, FIELD_NUMBER_MAX, field)?;
            Ok(Given::Nothing)
        }
        ValuedOption::AnySize => {
            size_value(0, FIELD_SIZE_MAX, field)?;
            Ok(Given::Nothing)
        }
        ValuedOption::AnyWord => Ok(Given::Nothing),
    }
}

/// Which of dir, user and group a reservation is by, if by any.
fn owner_of(given: Given) -> Option<Owner>
    ensures { result ≡ owner_of given }
{
    match given {
        Given::Reserve(ReservePart::Owner(owner)) => Some(owner),
        _ => None,
    }
}

/// Both are by one of dir, user and group, and not by the same.
fn exclude(first: Given, second: Given) -> bool
    ensures { result ≡ exclude first second }
{
    match (owner_of(first), owner_of(second)) {
        (Some(one), Some(other)) => one != other,
        _ => false,
    }
}

fn exclude_any(before: &[Given], given: Given) -> bool
    ensures { result ≡ exclude_any before.now given }
{
    before.iter().any(|b| exclude(*b, given))
}

fn excluded_at(line: &ParamsLine, name: &CopyName, given: Given) -> bool
    ensures { result ≡ (same_name line.now.name name.now && exclude_any line.now.given given) }
{
    same_name(&line.name, name) && exclude_any(line.given.as_slice(), given)
}

fn excluded_before(lines: &[ParamsLine], name: &CopyName, given: Given) -> bool
    ensures { result ≡ list_any (λ l. same_name l.name name.now && exclude_any l.given given) lines.now }
{
    lines.iter().any(|l| excluded_at(l, name, given))
}

/// The table of options for a name, behind some lines of params.
#[derive(Drop)]
struct ParamOptions<'a> {
    lines: &'a [ParamsLine],
    name: &'a CopyName,
}

impl OptionTable for ParamOptions<'_> {
    ghost use Rattle.archiver_lines.specs.ParamOptions.{params_table};
    ghost use Rattle.archiver_lines.specs.ParamOptionSteps.{option_value};

    type Word = ValuedOption;

    type Given = Given;

    ghost options = { λ table. params_table table.lines.now table.name.now };

    ghost value_of = { λ table. option_value };

    fn option(
        &self,
        _alloc: Global,
        field: &[u8],
    ) -> Result<TableOption<Given, ValuedOption>, LineError> {
        Ok(param_option(field)?)
    }

    fn value(&self, _alloc: Global, word: ValuedOption, field: &[u8]) -> Result<Given, LineError> {
        Ok(option_value(word, field)?)
    }

    fn excludes(&self, before: &[Given], given: &Given) -> bool {
        exclude_any(before, *given) || excluded_before(self.lines, self.name, *given)
    }
}

/// Reads the fields as options for a name, of which some lines gave others before, and puts them behind those given.
pub fn read_param_options(
    alloc: Global,
    lines: &[ParamsLine],
    name: &CopyName,
    given: &mut List<Given>,
    fields: Fields,
) -> Result<(), LineError>
    ensures { Leaves given.new result (options_of (params_table lines.now name.now) given.old fields.entry) }
{
    read_options::<ParamOptions>(alloc, &ParamOptions { lines, name }, given, fields)
}
