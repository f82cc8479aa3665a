//! Forms: what a verb asks for.
ghost use Rattle.std.specs.Prelude.{◌≡◌, option_map};
ghost use Rattle.word_core.specs.Forms.{form_named, shown, shown_forms};

use crate::field::FieldKind;

/// A verb, and the names and kinds of its fields in the order in which they are read.
#[derive(Clone, Copy)]
pub struct Form {
    pub verb: &'static str,
    pub fields: &'static [(&'static str, FieldKind)],
}

/// The form of that verb in a table.
pub fn form_in(forms: &'static [Form], verb: &str) -> Option<&'static Form>
    ensures { option_map (λ form. shown form.now) result
        ≡ form_named verb.now (shown_forms forms.now) }
{
    for form in forms {
        if verb == form.verb {
            return Some(form);
        }
    }
    None
}
