//! Patterns of digits.
ghost use Rattle.std.specs.Prelude.{◌≡◌};
ghost use Rattle.word_core.specs.Pattern.{fits_pattern};

/// Whether the text has a digit where the pattern has `0`, and else the pattern's byte.
pub fn fits_pattern(pattern: &[u8], text: &[u8]) -> bool
    ensures { result ≡ fits_pattern pattern.now text.now }
{
    let Some((want, wants)) = pattern.split_first() else {
        return text.is_empty();
    };
    let Some((byte, bytes)) = text.split_first() else {
        return false;
    };
    (if *want == b'0' {
        byte.is_ascii_digit()
    } else {
        *byte == *want
    }) && fits_pattern(wants, bytes)
}
