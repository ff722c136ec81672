//! The options of a line, by any table of them.

ghost use Rattle.std.specs.Prelude.{◌≡◌, ◌↔◌, ℕ, List as Seq, Ok, Err};
ghost use Rattle.site_text.specs.Fields.{Field, Read, Gives, GivesFront, Leaves};
ghost use Rattle.site_text.specs.Options.{Options};
ghost use Rattle.site_text.specs.OptionRules.{OptionsSay, OptionsWrong};
ghost use Rattle.site_text.specs.OptionSteps.{with_given, given_by, given_at, form_found, options_of};
ghost use Rattle.site_text.specs.declared.fault.ConfFault.{ConfFault};

use crate::cursor::Fields;
use crate::fault::{ConfFault, LineError};
use base::List;
use std::alloc::Global;

/// An option that stands in a table.
#[derive(Drop)]
pub enum TableOption<G, W> {
    /// It stands alone and gives this.
    Alone(G),
    /// It takes the next field as its value.
    WithValue(W),
}

/// A table of options. What an option gives may depend on the table's own value.
pub trait OptionTable {
    /// An option that takes a value.
    type Word: Copy;

    /// What an option gives, with its value if it takes one.
    type Given: Drop;

    ghost options: { Self → Options Self.Given };

    // What an option gives with a value.
    ghost value_of: { Self → Self.Word → Field → Read Self.Given };

    /// The option that a field is, or what is wrong with the field.
    fn option(
        &self,
        alloc: Global,
        field: &[u8],
    ) -> Result<TableOption<Self::Given, Self::Word>, LineError>
        ensures { Gives (form_found (value_of self.now)) result ((options self.now).option field.now) };

    /// What the option gives with this value.
    fn value(&self, alloc: Global, word: Self::Word, field: &[u8]) -> Result<Self::Given, LineError>
        ensures { Gives (λ given. given) result (value_of self.now word field.now) };

    /// It excludes one of those that were given before.
    fn excludes(&self, before: &[Self::Given], given: &Self::Given) -> bool
        ensures { result ≡ (options self.now).excludes before.now given.now };
}

#[tactic(auto, unfolding(crate::specs::OptionSteps::given_by))]
fn given_by<T: OptionTable>(
    alloc: Global,
    table: &T,
    option: TableOption<T::Given, T::Word>,
    fields: &mut Fields,
) -> Result<T::Given, LineError>
    ensures { GivesFront (λ given. given) result fields.new (given_by (form_found (T.value_of table.now) option) fields.old) }
{
    match option {
        TableOption::Alone(given) => Ok(given),
        TableOption::WithValue(word) => match fields.next() {
            Ok(value) => table.value(alloc, word, value),
            Err(fault) => Err(LineError::Fault(fault)),
        },
    }
}

#[tactic(auto, unfolding(crate::specs::OptionSteps::given_at))]
fn given_at<T: OptionTable>(
    alloc: Global,
    table: &T,
    field: &[u8],
    fields: &mut Fields,
) -> Result<T::Given, LineError>
    ensures { GivesFront (λ given. given) result fields.new (given_at (T.options table.now) field.now fields.old) }
{
    match table.option(alloc, field) {
        Ok(option) => given_by::<T>(alloc, table, option, fields),
        Err(error) => Err(error),
    }
}

fn add_given<T: OptionTable>(
    table: &T,
    before: &mut List<T::Given>,
    given: T::Given,
) -> Result<(), LineError>
    ensures { Leaves before.new result (with_given (T.options table.now) before.old given) }
{
    if table.excludes(before.as_slice(), &given) {
        return Err(LineError::Fault(ConfFault::Conflict));
    }
    match before.push(given) {
        Ok(()) => Ok(()),
        Err(_) => Err(LineError::NoMemory),
    }
}

/// Reads the fields as options of a table, and puts what they give behind what was given before. After an error some of them
/// may have been put there.
pub fn read_options<T: OptionTable>(
    alloc: Global,
    table: &T,
    before: &mut List<T::Given>,
    fields: Fields,
) -> Result<(), LineError>
    ensures { Leaves before.new result (options_of (T.options table.now) before.old fields.entry) }
{
    let mut fields = fields;
    while let Some(field) = fields.take() {
        match given_at::<T>(alloc, table, field, &mut fields) {
            Ok(given) => match add_given::<T>(table, before, given) {
                Ok(()) => {}
                Err(error) => return Err(error),
            },
            Err(error) => return Err(error),
        }
    }
    Ok(())
}

/// Reading fields from the left as options gives what they say, and else the fault of the first wrong field.
pub fn options_read_what_is_said<V>()
    ensures said { (options : Options V) → (before : Seq V) → (fields : Seq Field) → (given : Seq V) →
        (options_of options before fields ≡ Ok given) ↔ OptionsSay options before fields given }
    ensures wrong { (options : Options V) → (before : Seq V) → (fields : Seq Field) → (fault : ConfFault) →
        (options_of options before fields ≡ Err fault) ↔ OptionsWrong options before fields fault }
{}
