//! The names of an object's members. They are compared as bytes, which ends at the first that differs;
//! this kit compares texts of up to 32 bytes whole, which takes several times as long.
ghost use Rattle.std.specs.Prelude.{◌≡◌, ◌++◌, map};
ghost use Rattle.serde_json.specs.View.{view};
ghost use Rattle.word_core.specs.Forms.{is_among, names_of, shown_fields};
ghost use Rattle.desk_wire.specs.Members.{knows_all};

use part_core::FieldKind;
use serde_json::Value;

fn is_among(name: &str, names: &[&str]) -> bool
    ensures { result ≡ is_among name.now (map (λ name. name.now) names.now) }
{
    for known in names {
        if name.as_bytes() == known.as_bytes() {
            return true;
        }
    }
    false
}

fn is_field(name: &str, blanks: &[(&str, FieldKind)]) -> bool
    ensures { result ≡ is_among name.now (names_of (shown_fields blanks.now)) }
{
    for (known, _) in blanks {
        if name.as_bytes() == known.as_bytes() {
            return true;
        }
    }
    false
}

/// The name is one of these, or that of one of these fields.
#[tactic(auto, using(crate::proofs::MemberNames::is_among_both))]
pub fn is_known(name: &str, names: &[&str], blanks: &[(&str, FieldKind)]) -> bool
    ensures { result ≡ is_among name.now
        (map (λ name. name.now) names.now ++ names_of (shown_fields blanks.now)) }
{
    is_among(name, names) || is_field(name, blanks)
}

/// Each member of the object has one of these names, or is one of these fields.
#[tactic(auto, using(crate::proofs::MemberNames::knows_all_members))]
pub fn knows_all(names: &[&str], blanks: &[(&str, FieldKind)], object: &Value) -> bool
    ensures { result ≡ knows_all
        (map (λ name. name.now) names.now ++ names_of (shown_fields blanks.now)) (view object.now) }
{
    let Some(members) = object.as_object() else {
        return true;
    };
    for name in members.keys() {
        if !is_known(name.as_str(), names, blanks) {
            return false;
        }
    }
    true
}
