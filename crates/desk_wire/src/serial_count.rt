//! How many serials a text lists. They are counted and not made out.
ghost use Rattle.std.specs.Prelude.{◌≡◌, is_ok};
ghost use Rattle.word_core.specs.Serials.{element_serials, serials_in};
ghost use Rattle.desk_wire.specs.SerialLists.{Counts};

use part_core::{are_serial, serial_range};

/// How many serials a text may list.
const MOST_SERIALS: u64 = 1_000;

/// How many serials an element stands for, where it is a good one.
#[tactic(auto, unfolding(word_core::specs::Serials::element_serials))]
fn count_in(element: &str) -> Option<u64>
    ensures { Counts (element_serials element.now) result }
{
    if element.is_empty() || !are_serial(element.as_bytes()) {
        return None;
    }
    match serial_range(element) {
        Some((first, last)) => {
            if first < last && last - first < MOST_SERIALS {
                Some(last - first + 1)
            } else {
                None
            }
        }
        None => { if element.len() <= 24 { Some(1) } else { None } }
    }
}

/// Whether a text lists serials: 1 to 1,000 of them, each a good one.
pub fn lists_serials(text: &str) -> bool
    ensures { result ≡ is_ok (serials_in text.now) }
{
    let mut count = 0;
    for element in text.split(',') {
        let Some(more) = count_in(element) else {
            return false;
        };
        count += more;
        if count > MOST_SERIALS {
            return false;
        }
    }
    true
}
