//! Row numbers, and those that may be absent.
ghost use Rattle.std.specs.Prelude.{◌≡◌};
ghost use Rattle.word_core.specs.Numbered.{is_drawn, is_same_number};

/// Whether the numbers are the same, or both are absent.
pub fn is_same_number(number: Option<u64>, other: Option<u64>) -> bool
    ensures { result ≡ is_same_number number other }
{
    match number {
        None => other.is_none(),
        Some(number) => match other {
            None => false,
            Some(other) => number == other,
        },
    }
}

/// Whether the number was drawn, where those below `next` were.
pub fn is_drawn(number: u64, next: u64) -> bool
    ensures { result ≡ is_drawn next number }
{
    0 < number && number < next
}
