//! What a test fails by.
ghost use Rattle.std.specs.Prelude.{◌≡◌, is_ok};

use std::test::Fail;

/// Fails with the text where that doesn't hold.
pub fn holds(condition: bool, text: &'static str) -> Result<(), Fail>
    ensures { is_ok result ≡ condition }
{
    if condition {
        Ok(())
    } else {
        Err(Fail::from(text))
    }
}
