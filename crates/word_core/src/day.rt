//! Days.
ghost use Rattle.std.specs.Prelude.{◌≡◌, ◌↔◌, ◌++◌, IfOk, IsTrue, OnOk, Some};
ghost use Rattle.std.specs.String.{string_bytes};
ghost use Rattle.word_core.specs.Day.{day_of, day_text, two_digits};

use crate::pattern::fits_pattern;
use jiff::civil::Date;
use std::alloc::{AllocError, Global};
use std::marker::Model;

/// A day from 2000-01-01 to 2099-12-31. A clause sees its year, month and day.
#[derive(Clone, Copy, Debug)]
pub struct Day {
    year: u16,
    month: u8,
    day: u8,
}

impl Model for Day {
    ghost use Rattle.word_core.specs.Day.{CivilDay, IsInUse};

    ghost Value = { CivilDay };

    ghost view = { λ d. record { year = d.year; month = d.month; day = d.day } };

    ghost invariant = { λ d. IsInUse d.year d.month d.day };

    ghost inverse = { λ d. record { year = d.year; month = d.month; day = d.day } };
}

fn push_two_digits(text: &mut String, number: u8) -> Result<(), AllocError>
    ensures { OnOk result (string_bytes text.new ≡ string_bytes text.old ++ two_digits number) }
{
    if number < 10 {
        text.push_str("0")?;
    }
    write!(text, "{number}")
}

impl Day {
    /// The day of a text `YYYY-MM-DD`: none where the text has another form, where the calendar hasn't
    /// the day, and outside of the years 2000 to 2099.
    pub fn parse(text: &str) -> Option<Day>
        ensures { result ≡ day_of text.now }
    {
        if !fits_pattern(b"0000-00-00", text.as_bytes()) {
            return None;
        }
        let date = text.parse::<Date>().ok()?;
        let year = date.year();
        if year < 2000 || year > 2099 {
            return None;
        }
        Some(Day {
            year: year as u16,
            month: date.month() as u8,
            day: date.day() as u8,
        })
    }

    /// The day as a text `YYYY-MM-DD`.
    pub fn text(&self, alloc: Global) -> Result<String, AllocError>
        ensures { IfOk result (λ text. string_bytes text ≡ day_text self.now) }
    {
        let year = self.year;
        let mut text = format!(in alloc; "{year}-")?;
        push_two_digits(&mut text, self.month)?;
        text.push_str("-")?;
        push_two_digits(&mut text, self.day)?;
        Ok(text)
    }

    /// The day is read from its text.
    #[tactic(auto, using(crate::proofs::DayText::day_read))]
    pub fn is_read_from_its_text(&self)
        ensures { day_of (day_text self.now) ≡ Some self.now }
    {
        let _ = &self.year;
    }

    /// Whether the days are the same.
    pub fn equals(&self, other: &Day) -> bool
        ensures { IsTrue result ↔ (self.now ≡ other.now) }
    {
        if self.year != other.year {
            return false;
        }
        if self.month != other.month {
            return false;
        }
        self.day == other.day
    }
}
