//! Commands as forms that are filled in.
ghost use Rattle.std.specs.Prelude.{◌≡◌, true, Some, IfOk, List, ℕ, Option, option_map};
ghost use Rattle.word_core.specs.declared.field.Field.{Field};
ghost use Rattle.word_core.specs.Forms as spec;
ghost use Rattle.word_core.specs.Forms.{Fills, IsCommand, form_named, have_distinct, shown};

use crate::field::Field;
use crate::form::Form;
use std::alloc::{AllocError, Global};

/// Commands, each of which is a verb and what stands in the fields of the verb's form. Whoever reads or
/// writes commands needs nothing else of them.
pub trait Formed: Drop {
    /// The forms, in a table. Each verb stands once.
    ghost forms_of: { List spec.Form };

    ghost verb_of: { Self → List ℕ };

    /// What stands in the form's fields, in the form's order.
    ghost fields_of: { Self → List Field };

    /// The command that a verb and fields are, or none.
    ghost command_of: { List ℕ → List Field → Option Self };

    /// The form of that verb.
    fn form(verb: &str) -> Option<&'static Form>
        ensures { option_map (λ form. shown form.now) result ≡ form_named verb.now forms_of };

    fn verb(&self) -> &'static str
        ensures { result.now ≡ verb_of self.now };

    /// What stands in the fields of the verb's form, in its order.
    fn fields(&self, alloc: Global) -> Result<Vec<Field>, AllocError>
        ensures { IfOk result (λ fields. fields.items ≡ fields_of self.now) };

    /// The command of that verb with these fields. Where they fill the verb's form there is one.
    fn from_fields(verb: &str, fields: Vec<Field>) -> Option<Self>
        ensures { result ≡ command_of verb.now fields.items };

    /// A command's fields fill the form of its verb.
    ghost fills: { (c : Self) → Fills forms_of (verb_of c) (fields_of c) };

    /// A command is read back of its verb and its fields.
    ghost back: { (c : Self) → command_of (verb_of c) (fields_of c) ≡ Some c };

    /// What fills a form is a command of that verb, with those fields.
    ghost made: { (verb : List ℕ) (fields : List Field) → Fills forms_of verb fields
        → IsCommand verb_of fields_of (command_of verb fields) verb fields };

    /// No member of a form stands twice.
    ghost distinct: { have_distinct forms_of ≡ true };
}
