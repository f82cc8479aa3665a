//! What `help` tells of a name.

use crate::guide_text::GUIDE;

/// The entry of that name: a command, a refusal, `refusals` or `help`. It begins with a line of the name.
pub fn guide_to(name: &str) -> Option<&'static str> {
    for entry in GUIDE.split("\n\n") {
        if entry.lines().next() == Some(name) {
            return Some(entry);
        }
    }
    None
}
