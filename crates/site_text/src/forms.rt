//! Fields of a form: they say one thing, or one of them is the first wrong one.

ghost use Rattle.std.specs.Prelude.{◌≡◌, ◌↔◌, ℕ, List as Seq, Ok, Err};
ghost use Rattle.site_text.specs.Fields.{Field};
ghost use Rattle.site_text.specs.Forms.{Form, ignored_form};
ghost use Rattle.site_text.specs.FormRules.{FormSays, FormWrong};
ghost use Rattle.site_text.specs.FormSteps.{read_form};
ghost use Rattle.site_text.specs.Directives.{FormTable};
ghost use Rattle.site_text.specs.DirectiveRules.{DirectiveSays, DirectiveWrong};
ghost use Rattle.site_text.specs.DirectiveSteps.{read_directive};
ghost use Rattle.site_text.specs.declared.fault.ConfFault.{ConfFault};

use crate::cursor::Fields;
use crate::fault::ConfFault;

/// One or more fields of any kind, of which none is kept: they say what was handed in. `MissingField` where there is none.
pub fn read_ignored<R: Drop>(fields: Fields, said: R) -> Result<R, ConfFault>
    ensures { result ≡ read_form (ignored_form said) fields.entry }
{
    let mut fields = fields;
    match fields.next() {
        Ok(_) => Ok(said),
        Err(fault) => Err(fault),
    }
}

/// Reading fields from the left by a form gives what they say, and else the fault of the first wrong field.
pub fn forms_read_what_is_said<R>()
    ensures said { (form : Form R) → (fields : Seq Field) → (said : R) →
        (read_form form fields ≡ Ok said) ↔ FormSays form fields said }
    ensures wrong { (form : Form R) → (fields : Seq Field) → (fault : ConfFault) →
        (read_form form fields ≡ Err fault) ↔ FormWrong form fields fault }
{}

/// Reading a line that begins with a directive gives what the line says by that directive's form, and else what is wrong with it.
pub fn directives_read_what_is_said<R>()
    ensures said { (names words : FormTable R) → (fields : Seq Field) → (said : R) →
        (read_directive names words fields ≡ Ok said) ↔ DirectiveSays names words fields said }
    ensures wrong { (names words : FormTable R) → (fields : Seq Field) → (fault : ConfFault) →
        (read_directive names words fields ≡ Err fault) ↔ DirectiveWrong names words fields fault }
{}
