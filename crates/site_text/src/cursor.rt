//! The fields of a line, from the left.

ghost use Rattle.std.specs.Prelude.{◌≡◌, ℕ, List as Seq, [], ◌∷◌, MatchOption};
ghost use Rattle.site_text.specs.Fields.{Reads, put_field, next_field, no_field};

use crate::fault::ConfFault;
use base::Bytes;
use std::marker::Model;

/// The fields of a line that are not read yet, which contracts see as a list.
#[derive(Drop)]
pub struct Fields<'a> {
    first: Option<&'a [u8]>,
    rest: &'a [Bytes],
}

impl<'a> Model for Fields<'a> {
    ghost use Rattle.std.specs.Prelude.{ℕ, List as Seq, ◌++◌, option_to_list};
    ghost use Rattle.std.specs.Option.{option_copied};

    ghost Value = { Seq (Seq ℕ) };

    ghost view = { λ f. option_to_list (option_copied f.first) ++ f.rest.now };
}

impl<'a> Fields<'a> {
    /// All fields of a line.
    pub fn new(fields: &'a [Bytes]) -> Self
        ensures { result ≡ fields.now }
    {
        Fields {
            first: None,
            rest: fields,
        }
    }

    /// A text, which counts as a field where it is not empty, and the fields behind it.
    pub fn with_first(first: &'a [u8], rest: &'a [Bytes]) -> Self
        ensures { result ≡ put_field first.now rest.now }
    {
        let first = if first.is_empty() { None } else { Some(first) };
        Fields { first, rest }
    }

    /// The next field, if there is one.
    pub fn take(&mut self) -> Option<&'a [u8]>
        ensures { MatchOption result ((self.old ≡ []) × (self.new ≡ [])) (λ field. self.old ≡ field.now ∷ self.new) }
    {
        match self.first {
            Some(first) => {
                self.first = None;
                Some(first)
            }
            None => match self.rest {
                [] => None,
                [first, rest @ ..] => {
                    self.rest = rest;
                    Some(first.as_slice())
                }
            },
        }
    }

    /// The next field, which must be there, else `MissingField`.
    #[tactic(auto, unfolding(crate::specs::Fields::next_field))]
    pub fn next(&mut self) -> Result<&'a [u8], ConfFault>
        ensures { Reads (λ field. field.now) result self.new (next_field self.old) }
    {
        match self.take() {
            Some(field) => Ok(field),
            None => Err(ConfFault::MissingField),
        }
    }

    /// No field may follow, else `ExtraField`.
    #[tactic(auto, unfolding(crate::specs::Fields::no_field))]
    pub fn end(&mut self) -> Result<(), ConfFault>
        ensures { Reads (λ x. x) result self.new (no_field self.old) }
    {
        match self.take() {
            Some(_) => Err(ConfFault::ExtraField),
            None => Ok(()),
        }
    }
}
