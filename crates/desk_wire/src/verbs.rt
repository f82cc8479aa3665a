//! The commands of which a file may be.
ghost use Rattle.std.specs.Prelude.{◌≡◌, option_map};
ghost use Rattle.word_core.specs.Forms.{shown};
ghost use Rattle.desk_wire.specs.SheetForms.{sheet_form};

use desk_core::Command;
use part_core::{Form, Formed};

/// The form of the command of that name, if a file may be of it: files of `receive` and `count` are receipts and counts,
/// whose rows have other keys.
#[tactic(auto, unfolding(crate::specs::SheetForms::sheet_form))]
pub fn sheet_form(verb: &str) -> Option<&'static Form>
    ensures { option_map (λ form. shown form.now) result ≡ sheet_form verb.now }
{
    if verb == "receive" || verb == "count" {
        return None;
    }
    Command::form(verb)
}
