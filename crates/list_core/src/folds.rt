//! What of a name counts when it is held beside another: its letters, digits and signs, whatever their case.
ghost use Rattle.std.specs.Prelude.{◌≡◌, ◌++◌, IfOk, OnOk};
ghost use Rattle.std.specs.Str.{chars};
ghost use Rattle.std.specs.String.{string_bytes};
ghost use Rattle.list_core.specs.Folds.{case_fold, counts, fold, folded_char, has_no_width, is_blank};
ghost use Rattle.list_core.specs.Folds.{is_format, is_unseen, shown, shown_char};

use std::alloc::{AllocError, Global};
use ucd_case::simple_fold;
use ucd_category::{GeneralCategory, GeneralCategoryGroup};
use ucd_derived::is_default_ignorable_code_point;
use ucd_props::is_prepended_concatenation_mark;

/// Whether the category is that of characters of format.
fn is_format(category: GeneralCategory) -> bool
    ensures { result ≡ is_format category }
{
    match category {
        GeneralCategory::Format => true,
        _ => false,
    }
}

/// Whether the character has no width. A mark of format that is drawn before a number has one.
fn has_no_width(c: char) -> bool
    ensures { result ≡ has_no_width c }
{
    is_default_ignorable_code_point(c)
        || (is_format(GeneralCategory::for_char(c)) && !is_prepended_concatenation_mark(c))
}

/// Whether nothing is seen of the character.
fn is_unseen(c: char) -> bool
    ensures { result ≡ is_unseen c }
{
    c.is_whitespace() || has_no_width(c) || c.is_control()
}

/// Whether the character counts.
fn counts(c: char) -> bool
    ensures { result ≡ counts c }
{
    !is_unseen(c) && !GeneralCategoryGroup::Punctuation.contains(GeneralCategory::for_char(c))
}

/// The characters of the text.
#[tactic(auto, using(std::proofs::lemmas::Str::chars_from_encodes))]
fn chars_of(alloc: Global, text: &str) -> Result<Vec<char>, AllocError>
    ensures { IfOk result (λ cs. cs.items ≡ chars text.now) }
{
    text.chars().collect(alloc)
}

/// Adds what counts of the character, in lower case.
fn push_folded(text: &mut String, c: char) -> Result<(), AllocError>
    ensures { OnOk result (string_bytes text.new ≡ string_bytes text.old ++ folded_char c) }
{
    if counts(c) {
        return text.push(simple_fold(c));
    }
    Ok(())
}

/// What counts of the name.
#[tactic(auto, unfolding(crate::specs::Folds::fold))]
pub(crate) fn fold(alloc: Global, name: &str) -> Result<String, AllocError>
    ensures { IfOk result (λ text. string_bytes text ≡ fold name.now) }
{
    let letters = chars_of(alloc, name)?;
    let mut text = String::new(alloc);
    for letter in &letters {
        push_folded(&mut text, *letter)?;
    }
    Ok(text)
}

/// The text with each character in its folded case, so that letters of either case are alike. An error is one of memory.
#[tactic(auto, unfolding(crate::specs::Folds::case_fold))]
pub(crate) fn case_fold(alloc: Global, text: &str) -> Result<String, AllocError>
    ensures { IfOk result (λ folded. string_bytes folded ≡ case_fold text.now) }
{
    let letters = chars_of(alloc, text)?;
    let mut folded = String::new(alloc);
    for letter in &letters {
        folded.push(simple_fold(*letter))?;
    }
    Ok(folded)
}

/// Whether nothing is seen of the name. An error is one of memory.
#[tactic(auto, unfolding(crate::specs::Folds::is_blank))]
pub(crate) fn is_blank(alloc: Global, name: &str) -> Result<bool, AllocError>
    ensures { IfOk result (λ blank. blank ≡ is_blank name.now) }
{
    let letters = chars_of(alloc, name)?;
    Ok(letters.iter().all(|c| is_unseen(*c)))
}

/// Adds a character as a person is shown it: a square where nothing is seen of it, but for a space.
fn push_shown(text: &mut String, c: char) -> Result<(), AllocError>
    ensures { OnOk result (string_bytes text.new ≡ string_bytes text.old ++ shown_char c) }
{
    if is_unseen(c) && c != ' ' {
        return text.push('□');
    }
    text.push(c)
}

/// The name as a person is shown it.
#[tactic(auto, unfolding(crate::specs::Folds::shown))]
pub(crate) fn shown(alloc: Global, name: &str) -> Result<String, AllocError>
    ensures { IfOk result (λ text. string_bytes text ≡ shown name.now) }
{
    let letters = chars_of(alloc, name)?;
    let mut text = String::new(alloc);
    for letter in &letters {
        push_shown(&mut text, *letter)?;
    }
    Ok(text)
}
