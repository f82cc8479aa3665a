//! What a part is used for.
ghost use Rattle.std.specs.Prelude.{◌≡◌, ◌↔◌, IsTrue, IfOk, map};
ghost use Rattle.word_core.specs.Flags.{all_flags, chosen_words, flag_word, flag_words, flags_told};
ghost use Rattle.word_core.specs.Flags.{has_flag, is_mixed, no_flags, set_flag, with_word};

use crate::worded::{Worded, named};
use std::alloc::{AllocError, Global};

/// What a part is used for, fixed when it is made. A virtual part has no stock.
#[derive(Clone, Copy, Debug, Default, PartialEq, Eq)]
pub struct Flags {
    /// Other parts may be its variants.
    pub template: bool,
    /// It is built from the parts of its bill.
    pub assembly: bool,
    /// It may stand in a bill.
    pub component: bool,
    /// Its items may have serial numbers.
    pub trackable: bool,
    /// It may be ordered from a supplier.
    pub purchaseable: bool,
    /// It may be sold.
    pub salable: bool,
    /// It has no stock, as a service or an instruction.
    pub is_virtual: bool,
}

/// No flag is set.
pub const NO_FLAGS: Flags = Flags {
    template: false,
    assembly: false,
    component: false,
    trackable: false,
    purchaseable: false,
    salable: false,
    is_virtual: false,
};

/// One of a part's flags.
#[derive(Clone, Copy, Debug, PartialEq, Eq)]
pub enum Flag {
    Template,
    Assembly,
    Component,
    Trackable,
    Purchaseable,
    Salable,
    Virtual,
}

impl Worded for Flag {
    ghost word_of = { flag_word };

    ghost all_of = { all_flags };

    ghost told = { flags_told };

    fn all() -> &'static [Flag] {
        &[
            Flag::Template,
            Flag::Assembly,
            Flag::Component,
            Flag::Trackable,
            Flag::Purchaseable,
            Flag::Salable,
            Flag::Virtual,
        ]
    }

    fn word(self) -> &'static str {
        match self {
            Flag::Template => "template",
            Flag::Assembly => "assembly",
            Flag::Component => "component",
            Flag::Trackable => "trackable",
            Flag::Purchaseable => "purchaseable",
            Flag::Salable => "salable",
            Flag::Virtual => "virtual",
        }
    }
}

fn chosen_words(alloc: Global, flags: Flags, all: &[Flag]) -> Result<Vec<&'static str>, AllocError>
    ensures { IfOk result (λ words. map (λ w. w.now) words.items ≡ chosen_words flags all.now) }
{
    let mut words = Vec::new(alloc);
    for flag in all {
        if flags.has(*flag) {
            words.push(flag.word())?;
        }
    }
    Ok(words)
}

impl Flags {
    /// Whether the flag is set.
    fn has(self, flag: Flag) -> bool
        ensures { result ≡ has_flag self flag }
    {
        match flag {
            Flag::Template => self.template,
            Flag::Assembly => self.assembly,
            Flag::Component => self.component,
            Flag::Trackable => self.trackable,
            Flag::Purchaseable => self.purchaseable,
            Flag::Salable => self.salable,
            Flag::Virtual => self.is_virtual,
        }
    }

    /// The flags, and this one too.
    fn with(mut self, flag: Flag) -> Flags
        ensures { result ≡ set_flag self flag }
    {
        match flag {
            Flag::Template => self.template = true,
            Flag::Assembly => self.assembly = true,
            Flag::Component => self.component = true,
            Flag::Trackable => self.trackable = true,
            Flag::Purchaseable => self.purchaseable = true,
            Flag::Salable => self.salable = true,
            Flag::Virtual => self.is_virtual = true,
        }
        self
    }

    /// The flags and one more, by its word: none where it is no flag's word, or the flag is set already.
    pub fn with_word(self, word: &str) -> Option<Flags>
        ensures { result ≡ with_word self word.now }
    {
        let flag = named::<Flag>(word)?;
        if self.has(flag) {
            return None;
        }
        Some(self.with(flag))
    }

    /// The words of the flags that are set, in the flags' order.
    pub fn words(self, alloc: Global) -> Result<Vec<&'static str>, AllocError>
        ensures { IfOk result (λ words. map (λ w. w.now) words.items ≡ flag_words self) }
    {
        chosen_words(alloc, self, Flag::all())
    }

    /// Whether the part is virtual and has a flag other than component, which no part may.
    pub fn is_mixed(&self) -> bool
        ensures { result ≡ is_mixed self.now }
    {
        self.is_virtual
            && (self.template
                || self.assembly
                || self.trackable
                || self.purchaseable
                || self.salable)
    }

    /// Whether the flags are the same.
    pub fn equals(&self, other: &Flags) -> bool
        ensures { IsTrue result ↔ (self.now ≡ other.now) }
    {
        if self.template != other.template {
            return false;
        }
        if self.assembly != other.assembly {
            return false;
        }
        if self.component != other.component {
            return false;
        }
        if self.trackable != other.trackable {
            return false;
        }
        if self.purchaseable != other.purchaseable {
            return false;
        }
        if self.salable != other.salable {
            return false;
        }
        self.is_virtual == other.is_virtual
    }
}
